//! What a run replaces in the state.
ghost use Rattle.std.specs.Prelude.{◌≡◌, [], ◌∷◌, IfErr, IfOk};

use tm_meaning::StreamId;
use tm_syntax::Name;
use tm_tables::{Context, Lists, NameTable};
use tm_values::{AutoEscape, Error, ErrorKind};

/// What a run replaces in the state and what is restored after it.
#[derive(Drop)]
pub enum Saved {
    /// What a block's run replaces.
    Block(SavedBlock),
    /// What the run of a `super()` replaces.
    Super(SavedSuper),
    /// What a macro's run replaces.
    Macro(SavedMacro),
    /// What an include's run replaces.
    Include(SavedInclude),
}

/// What a block's run replaces.
#[derive(Drop)]
pub struct SavedBlock {
    /// The stream that ran.
    pub stream: StreamId,
    /// The block that ran.
    pub block: Option<Name>,
    /// The escape.
    pub escape: AutoEscape,
    /// The number of scopes.
    pub scopes: usize,
    /// The depth of the outermost scope.
    pub outer: usize,
}

/// What the run of a `super()` replaces.
pub struct SavedSuper {
    /// What a block's run replaces.
    pub replaced: SavedBlock,
    /// The places in the lists of blocks.
    pub places: NameTable<usize>,
}

// Written by hand: one drop call per owner instead of dropping each part.
impl Drop for SavedSuper {
    fn drop(self) {
        let SavedSuper {
            replaced: _replaced,
            places: _places,
        } = self;
    }
}

/// What the run of a macro, which has its own scopes, replaces.
pub struct SavedMacro {
    /// The scopes.
    pub context: Context,
    /// The stream that ran.
    pub stream: StreamId,
    /// The block that ran.
    pub block: Option<Name>,
    /// The escape.
    pub escape: AutoEscape,
    /// The lists of blocks, the places in them and the loaded names.
    pub lists: Lists,
}

// Written by hand: one drop call per owner instead of dropping each part.
impl Drop for SavedMacro {
    fn drop(self) {
        let SavedMacro {
            context: _context,
            stream: _stream,
            block: _block,
            escape: _escape,
            lists: _lists,
        } = self;
    }
}

/// What the run of an include or import replaces. An include runs in a new scope over the present
/// ones, an import in the present ones.
#[derive(Drop)]
pub struct SavedInclude {
    /// What a block's run replaces.
    pub replaced: SavedBlock,
    /// The closure that was made in the innermost scope, if any.
    pub closure: Option<usize>,
    /// The lists of blocks, the places in them and the loaded names.
    pub lists: Lists,
}

/// A shared copy of `name`, if there is one. Fails only with OutOfMemory, if the reference count
/// overflows.
pub fn shared_name(name: &Option<Name>) -> Result<Option<Name>, Error>
    ensures ok { IfOk result (λ shared. shared ≡ name.now) }
    ensures kind { IfErr result (λ e. e ≡ ErrorKind.OutOfMemory ∷ []) }
{
    match name {
        Some(name) => Ok(Some(name.share()?)),
        None => Ok(None),
    }
}
