//! The streams of a tree.
ghost use Rattle.std.specs.Prelude.{◌≡◌, [], ◌∷◌, IfOk, IfErr};
ghost use Rattle.tm_syntax.specs.Blocks.{code_of, stream_blocks, stream_of};
ghost use Rattle.tm_shapes.specs.BlockCodes.{compiled_blocks};
ghost use Rattle.tm_syntax.specs.Named.{by_name};
ghost use Rattle.tm_values.specs.declared.error.ErrorKind.TheVariants.{OutOfMemory};

use std::alloc::Global;
use tm_generator::{stream, value};
use tm_shapes::{BlockCode, Verified};
use tm_syntax::{NameMap, Tree};
use tm_values::Error;

/// The streams of a template or an expression.
#[derive(Drop)]
pub struct Streams {
    /// The code that a render runs, or that evaluates the expression.
    pub root: Verified,
    /// The code of its blocks, by name; an expression has none.
    pub blocks: NameMap<BlockCode>,
}

/// The streams of a tree. They share its texts and literals. OutOfMemory if memory runs out.
pub fn generate(alloc: Global, tree: &Tree) -> Result<Streams, Error>
    ensures root { IfOk result (λ s. s.root ≡ code_of (stream_of tree.now)) }
    ensures blocks { IfOk result
        (λ s. s.blocks ≡ by_name (compiled_blocks (stream_blocks (stream_of tree.now)))) }
    ensures err { IfErr result (λ e. e ≡ OutOfMemory ∷ []) }
{
    let mut blocks = NameMap::new(alloc);
    let root = match tree {
        Tree::Statements(statements) => stream(alloc, &mut blocks, statements.as_slice())?,
        Tree::Expression(expr) => value(alloc, expr.get())?,
    };
    Ok(Streams { root, blocks })
}
