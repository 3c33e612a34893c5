//! Compiled templates.
ghost use Rattle.std.specs.BTreeSet.{keys};
ghost use Rattle.std.specs.List.Sorted.{IsStrictlySortedBy};
ghost use Rattle.std.specs.Map.{keys_of};
ghost use Rattle.std.specs.Prelude.{◌≡◌, [], ◌∷◌, IfOk, IfErr, map as each, string_bytes};
ghost use Rattle.std.specs.Rc.{rc_str_bytes};
ghost use Rattle.tm_syntax.specs.Named.{by_name, find, name_cmp};
ghost use Rattle.tm_delimiters.specs.Syntax.{default_syntax};
ghost use Rattle.tm_values.specs.Answer.{IsLent, OkOrOutOfMemory};
ghost use Rattle.tm_values.specs.declared.error.ErrorKind.TheVariants.{OutOfMemory};
ghost use Rattle.tm_meaning.specs.Calls.{is_required};
ghost use Rattle.tm_meaning.specs.World.{card_in};
ghost use Rattle.tm_templates.specs.Templates.{IsExpression, IsTemplate, IsRefused, IsRefusedExpression};
ghost use Rattle.tm_templates.specs.Templates.{AllAccepted, AreAccepted, empty_template, of_streams, of_tree, part_code, told_of};
ghost use Rattle.tm_templates.specs.Templates.{given_blocks, undeclared_by};
ghost use Rattle.tm_shapes.specs.Verified.{IsAccepted};
ghost use Rattle.tm_templates.specs.Defaults.{escape_of};
ghost use Rattle.tm_templates.specs.Sources.{source_bytes};

use crate::defaults::EscapeSetting;
use std::alloc::{AllocError, Global};
use std::collections::{BTreeMap, BTreeSet};
use std::marker::Model;
use std::rc::{Rc, RcStr};
use tm_accepted::the_code_of_trees_is_accepted;
use tm_compiler::{
    BlockCode, Name, NameMap, Streams, SyntaxConfig, Tree, Verified, generate, parse, parse_expr,
};
use tm_items::Items;
use tm_names::undeclared;
use tm_tables::{BlockNames, EscapeRule};
use tm_values::{AutoEscape, Error};

/// The name of all expressions.
const EXPRESSION: &str = "<expression>";

/// How templates are compiled.
#[derive(Drop)]
pub struct TemplateConfig<R: Drop> {
    /// The delimiters.
    pub syntax_config: SyntaxConfig,
    /// How the escape of a template is chosen.
    pub default_auto_escape: EscapeSetting<R>,
}

// Only for boxed rules, so that a configuration without a rule of its own needs no type annotation.
impl Default for TemplateConfig<Box<dyn EscapeRule>> {
    /// The default delimiters, and escapes by name.
    fn default() -> TemplateConfig<Box<dyn EscapeRule>>
        ensures syntax { result.syntax_config ≡ default_syntax }
        ensures escape { result.default_auto_escape ≡ EscapeSetting.ByName }
    {
        TemplateConfig {
            syntax_config: SyntaxConfig::default(),
            default_auto_escape: EscapeSetting::ByName,
        }
    }
}

/// The source of a template.
#[derive(Drop)]
pub enum Source<'source> {
    /// Borrowed from the caller.
    Lent(&'source str),
    /// Owned; the template's raw texts share it.
    Owned(RcStr),
}

impl<'source> Source<'source> {
    /// An owned source; OutOfMemory.
    pub fn owned(source: String) -> Result<Source<'source>, Error>
        ensures owned { IfOk result (λ s. source_bytes s ≡ string_bytes source) }
        ensures refused { IfErr result (λ e. e ≡ OutOfMemory ∷ []) }
    {
        Ok(Source::Owned(RcStr::from_string(source)?))
    }

    /// The text for raw texts to share; a borrowed text is copied. OutOfMemory.
    fn shared(&self, alloc: Global) -> Result<RcStr, Error>
        ensures shared { IfOk result (λ text. rc_str_bytes text ≡ source_bytes self.now) }
        ensures refused { IfErr result (λ e. e ≡ OutOfMemory ∷ []) }
    {
        match self {
            Source::Lent(text) => Ok(RcStr::from_str(alloc, text)?),
            Source::Owned(text) => Ok(text.clone()?),
        }
    }

    /// The text.
    pub fn as_str(&self) -> &str
        ensures { result.now ≡ source_bytes self.now }
    {
        match self {
            Source::Lent(text) => text,
            Source::Owned(text) => text.as_str(),
        }
    }
}

/// The names of `blocks`, which ascend, for states to share. OutOfMemory.
fn shared_names(alloc: Global, blocks: &NameMap<BlockCode>) -> Result<Rc<BlockNames>, Error>
    requires { IsStrictlySortedBy name_cmp (keys_of blocks.now) }
    ensures { OkOrOutOfMemory result (λ shared. shared.value ≡ keys_of blocks.now) }
{
    Ok(Rc::new(alloc, BlockNames::of(alloc, blocks)?)?)
}

/// Makes `streams` blocks that aren't required. AllocError if memory runs out.
fn given_blocks(
    alloc: Global,
    mut streams: BTreeMap<&str, Verified>,
) -> Result<NameMap<BlockCode>, AllocError>
    ensures given { IfOk result (λ blocks. blocks ≡ by_name (given_blocks streams.entry.entries)) }
    ensures accepted { IfOk result AllAccepted }
{
    let mut blocks = NameMap::new(alloc);
    while let Some((name, code)) = streams.pop_first() {
        code.accepted();
        let block = BlockCode {
            required: false,
            code,
        };
        blocks.insert(Name::new(alloc, name)?, block)?;
    }
    Ok(blocks)
}

/// A compiled template: its name, its source, its escape, the tree that the source spells, if it
/// has one, and its streams.
pub struct CompiledTemplate<'source> {
    name: Name,
    source: Source<'source>,
    escape: AutoEscape,
    tree: Option<Tree>,
    streams: Streams,
    block_names: Rc<BlockNames>,
    nothing: Verified,
}

// Written by hand, so that the crates above need no proof of their own that a tree can be dropped.
impl Drop for CompiledTemplate<'_> {
    fn drop(self) {
        let CompiledTemplate {
            name: _name,
            source: _source,
            escape: _escape,
            tree: _tree,
            streams: _streams,
            block_names: _block_names,
            nothing: _nothing,
        } = self;
    }
}

impl<'source> Model for CompiledTemplate<'source> {
    ghost use Rattle.std.specs.Coded.{codes};
    ghost use Rattle.tm_syntax.specs.contracts.tree.Expr as expression;
    ghost use Rattle.tm_syntax.specs.contracts.tree.Stmt as statement;
    ghost use Rattle.tm_values.specs.Code.{coded_Val};
    ghost use Rattle.tm_templates.specs.Templates.{Compiled};

    ghost Value = { Compiled };

    ghost coded = { Prim.hlevel (codes, coded_Val, expression.the_row.coded, statement.the_row.coded) };

    ghost use Rattle.tm_templates.specs.Sources.{source_bytes};
    ghost use Rattle.tm_templates.specs.Templates.{AreStreams};

    ghost view = { λ a. record {
      name = a.name;
      source = source_bytes a.source;
      escape = a.escape;
      tree = a.tree;
      root = a.streams.root;
      blocks = a.streams.blocks;
    } };

    ghost invariant = { λ a. AreStreams a.streams.root a.streams.blocks a.block_names.value a.nothing };
}

impl<'source> CompiledTemplate<'source> {
    /// Compiles `source` under `name`; `config` chooses the escape. SyntaxError if the source
    /// spells no template, OutOfMemory if memory runs out.
    pub fn new<R: EscapeRule>(
        alloc: Global,
        name: &str,
        source: Source<'source>,
        config: &TemplateConfig<R>,
    ) -> Result<CompiledTemplate<'source>, Error>
        ensures compiled { IfOk result (IsTemplate config.now.syntax_config
            (escape_of R.escapes config.now.default_auto_escape name.now)
            name.now (source_bytes source.entry)) }
        ensures refused { IfErr result
            (IsRefused config.now.syntax_config (source_bytes source.entry)) }
    {
        let escape = config.default_auto_escape.escape(name);
        CompiledTemplate::with_escape(alloc, name, source, &config.syntax_config, escape)
    }

    /// Compiles `source` under `name` with `escape`. SyntaxError if the source spells no template,
    /// OutOfMemory if memory runs out.
    pub fn with_escape(
        alloc: Global,
        name: &str,
        source: Source<'source>,
        syntax: &SyntaxConfig,
        escape: AutoEscape,
    ) -> Result<CompiledTemplate<'source>, Error>
        ensures compiled { IfOk result
            (IsTemplate syntax.now escape name.now (source_bytes source.entry)) }
        ensures refused { IfErr result (IsRefused syntax.now (source_bytes source.entry)) }
    {
        let text = source.shared(alloc)?;
        let tree = parse(alloc, &text, syntax)?;
        CompiledTemplate::of_tree(alloc, name, source, escape, tree)
    }

    /// A template without statements and source, and with no escape. Fails only with OutOfMemory.
    pub fn empty(alloc: Global, name: &str) -> Result<CompiledTemplate<'source>, Error>
        ensures { OkOrOutOfMemory result (λ t. t ≡ empty_template name.now) }
    {
        let tree = Tree::Statements(Items::new(alloc));
        CompiledTemplate::of_tree(alloc, name, Source::Lent(""), AutoEscape::None, tree)
    }

    /// Compiles the source of an expression, with no escape. SyntaxError if the source spells no
    /// expression, OutOfMemory if memory runs out.
    pub fn expression(
        alloc: Global,
        source: Source<'source>,
    ) -> Result<CompiledTemplate<'source>, Error>
        ensures compiled { IfOk result (IsExpression (source_bytes source.entry)) }
        ensures refused { IfErr result (IsRefusedExpression (source_bytes source.entry)) }
    {
        let tree = parse_expr(alloc, source.as_str())?;
        CompiledTemplate::of_tree(alloc, EXPRESSION, source, AutoEscape::None, tree)
    }

    /// Compiles a tree. Fails only with OutOfMemory.
    fn of_tree(
        alloc: Global,
        name: &str,
        source: Source<'source>,
        escape: AutoEscape,
        tree: Tree,
    ) -> Result<CompiledTemplate<'source>, Error>
        ensures { OkOrOutOfMemory result
            (λ t. t ≡ of_tree name.now (source_bytes source.entry) escape tree) }
    {
        let streams = generate(alloc, &tree)?;
        the_code_of_trees_is_accepted();
        CompiledTemplate::of_code(alloc, name, source, escape, Some(tree), streams)
    }

    /// A template made of streams, without a source and a tree: `root` is the template's stream,
    /// and `blocks` are its blocks, none of them required. If a stream is an expression's, its
    /// value is dropped. Fails only with OutOfMemory.
    pub fn from_streams(
        alloc: Global,
        name: &str,
        root: Verified,
        blocks: BTreeMap<&str, Verified>,
        escape: AutoEscape,
    ) -> Result<CompiledTemplate<'source>, Error>
        ensures { OkOrOutOfMemory result
            (λ t. t ≡ of_streams name.now root blocks.entry.entries escape) }
    {
        root.accepted();
        let blocks = given_blocks(alloc, blocks)?;
        let streams = Streams { root, blocks };
        CompiledTemplate::of_code(alloc, name, Source::Lent(""), escape, None, streams)
    }

    /// A template made of accepted streams, with their tree, if there is one. Fails only with
    /// OutOfMemory.
    fn of_code(
        alloc: Global,
        name: &str,
        source: Source<'source>,
        escape: AutoEscape,
        tree: Option<Tree>,
        streams: Streams,
    ) -> Result<CompiledTemplate<'source>, Error>
        requires order { IsStrictlySortedBy name_cmp (keys_of streams.blocks) }
        requires root { IsAccepted streams.root }
        requires blocks { AllAccepted streams.blocks }
        ensures { OkOrOutOfMemory result (λ t. t ≡ record {
          name = name.now;
          source = source_bytes source.entry;
          escape = escape;
          tree = tree;
          root = streams.root;
          blocks = streams.blocks;
        }) }
    {
        let block_names = shared_names(alloc, &streams.blocks)?;
        let name = Name::new(alloc, name)?;
        Ok(CompiledTemplate {
            name,
            source,
            escape,
            tree,
            streams,
            block_names,
            nothing: Verified::empty(alloc),
        })
    }

    /// The template's name.
    pub fn name(&self) -> &str
        ensures { result.now ≡ self.now.name }
    {
        self.name.as_str()
    }

    /// The template's source.
    pub fn source(&self) -> &str
        ensures { result.now ≡ self.now.source }
    {
        self.source.as_str()
    }

    /// How the template's output is escaped.
    pub fn escape(&self) -> AutoEscape
        ensures { result ≡ self.now.escape }
    {
        self.escape
    }

    /// The names that the tree reads with no earlier assignment in an open scope, as texts. If
    /// `nested` is true, they include attributes, as in `a.b.c`. Empty without a tree. OutOfMemory
    /// if memory runs out.
    pub fn undeclared_variables(
        &self,
        alloc: Global,
        nested: bool,
    ) -> Result<BTreeSet<String>, Error>
        ensures ok { IfOk result (λ names. each string_bytes (keys names)
            ≡ undeclared_by nested self.now.tree) }
        ensures memory { IfErr result (λ e. e ≡ OutOfMemory ∷ []) }
    {
        match &self.tree {
            Some(tree) => Ok(undeclared(alloc, tree, nested)?),
            None => Ok(BTreeSet::new(alloc)),
        }
    }

    /// Proves that the names of the blocks ascend; does nothing.
    pub fn ascend(&self)
        ensures { IsStrictlySortedBy name_cmp (keys_of self.now.blocks) }
    {
        let _blocks = &self.streams;
    }

    /// Proves that all streams are accepted; does nothing.
    pub fn accepted(&self)
        ensures { AreAccepted self.now }
    {
        let _streams = &self.streams;
    }

    /// The code of the template's own stream.
    pub fn instructions(&self) -> &Verified
        ensures { result.now ≡ self.now.root }
    {
        &self.streams.root
    }

    /// The code of the blocks, by name.
    pub fn blocks(&self) -> &NameMap<BlockCode>
        ensures { result.now ≡ self.now.blocks }
    {
        &self.streams.blocks
    }

    /// The names of the blocks, for states to share.
    pub fn block_names(&self) -> &Rc<BlockNames>
        ensures { result.now.value ≡ keys_of self.now.blocks }
    {
        &self.block_names
    }

    /// The code of the block `name`, if there is one.
    pub fn block(&self, name: &str) -> Option<&BlockCode>
        ensures { IsLent result (find name.now self.now.blocks) }
    {
        self.streams.blocks.get(name)
    }

    /// Whether `block` is a required block, which another template must override.
    pub fn is_required(&self, block: &Option<Name>) -> bool
        ensures { result ≡ is_required (card_in (told_of self.now) block.now) }
    {
        match block {
            None => false,
            Some(name) => match self.block(name.as_str()) {
                Some(found) => found.required,
                None => false,
            },
        }
    }

    /// The code of the block `block`, or of the template's own stream if it is None. Empty if there
    /// is no such block.
    pub fn stream(&self, block: &Option<Name>) -> &Verified
        ensures { result.now ≡ part_code self.now block.now }
    {
        match block {
            None => self.instructions(),
            Some(name) => match self.block(name.as_str()) {
                Some(found) => &found.code,
                None => &self.nothing,
            },
        }
    }
}
