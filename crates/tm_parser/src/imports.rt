//! Includes and imports.
ghost use Rattle.std.specs.Prelude.{◌≡◌, [], MatchResult};
ghost use Rattle.tm_expressions.specs.Parses.{Adds, Parses};
ghost use Rattle.tm_expressions.specs.Grammar.{inside, more_items};
ghost use Rattle.tm_parser.specs.Statements.{from_tag, given_name, import_tag, imported, imports};
ghost use Rattle.tm_parser.specs.Statements.{include_tag, may_be_missing};
ghost use Rattle.tm_grammar.specs.Combinators.{one_more};
ghost use Rattle.tm_syntax.specs.declared.token.Sign.TheVariants as sign;

use crate::tags::{expect_word, take_word};
use crate::targets::target;
use std::alloc::Global;
use tm_expressions::{Cursor, add_one, with_one};
use tm_items::Items;
use tm_syntax::{Imported, Name, Sign, Stmt};
use tm_values::Error;

// Each function parses one rule, with `depth` levels of nesting left. SyntaxError if the tokens
// don't match the rule.

/// The template of an `include`, whether it may be missing, and the end of the tag.
#[tactic(auto, unfolding(crate::specs::Statements::include_tag))]
#[inline(never)]
pub fn include_tag(
    cursor: &mut Cursor<'_>,
    alloc: Global,
    depth: u8,
    body: &mut Items<Stmt>,
) -> Result<(), Error>
    ensures { Adds result body.new cursor.new
        ((one_more (include_tag (inside depth)) body.old).reads cursor.old) }
{
    let template = cursor.expr(alloc, depth)?;
    let missing = may_be_missing(cursor)?;
    cursor.expect(Sign::BlockEnd)?;
    add_one(body, Stmt::Include(template, missing))
}

/// The words `ignore missing`, if they are there.
fn may_be_missing(cursor: &mut Cursor<'_>) -> Result<bool, Error>
    ensures { Parses result cursor.new (may_be_missing.reads cursor.old) }
{
    if !take_word(cursor, "ignore") {
        return Ok(false);
    }
    expect_word(cursor, "missing")?;
    Ok(true)
}

/// The template of an `import`, the target of its module, and the end of the tag.
#[tactic(auto, unfolding(crate::specs::Statements::import_tag))]
#[inline(never)]
pub fn import_tag(
    cursor: &mut Cursor<'_>,
    alloc: Global,
    depth: u8,
    body: &mut Items<Stmt>,
) -> Result<(), Error>
    ensures { Adds result body.new cursor.new
        ((one_more (import_tag (inside depth)) body.old).reads cursor.old) }
{
    let template = cursor.expr(alloc, depth)?;
    expect_word(cursor, "as")?;
    let target = target(cursor, alloc, depth)?;
    cursor.expect(Sign::BlockEnd)?;
    add_one(body, Stmt::Import(template, target))
}

/// The template of a `from`, the names that are imported, and the end of the tag.
#[tactic(auto, unfolding(crate::specs::Statements::from_tag))]
#[inline(never)]
pub fn from_tag(
    cursor: &mut Cursor<'_>,
    alloc: Global,
    depth: u8,
    body: &mut Items<Stmt>,
) -> Result<(), Error>
    ensures { Adds result body.new cursor.new
        ((one_more (from_tag (inside depth)) body.old).reads cursor.old) }
{
    let template = cursor.expr(alloc, depth)?;
    expect_word(cursor, "import")?;
    let imports = imports(cursor, alloc)?;
    add_one(body, Stmt::FromImport(template, imports))
}

/// One or more imported names, and the end of the tag.
#[tactic(auto, unfolding(crate::specs::Statements::imports))]
fn imports(cursor: &mut Cursor<'_>, alloc: Global) -> Result<Items<Imported>, Error>
    ensures { Parses result cursor.new (imports.reads cursor.old) }
{
    let first = one_import(cursor, Items::new(alloc))?;
    let imports = more_imports(cursor, first)?;
    cursor.take(Sign::Comma);
    cursor.expect(Sign::BlockEnd)?;
    Ok(imports)
}

/// The other imported names, each after a comma.
#[tactic(auto, using(tm_expressions::proofs::Loops::commas))]
fn more_imports(cursor: &mut Cursor<'_>, first: Items<Imported>) -> Result<Items<Imported>, Error>
    ensures { Parses result cursor.new
        ((more_items sign.BlockEnd imported first).reads cursor.old) }
{
    let mut imports = first;
    while cursor.take_comma(Sign::BlockEnd) {
        imports = one_import(cursor, imports)?;
    }
    Ok(imports)
}

/// An imported name, pushed on the others.
fn one_import(cursor: &mut Cursor<'_>, imports: Items<Imported>) -> Result<Items<Imported>, Error>
    ensures { Parses result cursor.new ((one_more imported imports).reads cursor.old) }
{
    let imported = imported(cursor)?;
    with_one(imports, imported)
}

/// A name in the template, and the name that it is bound to.
#[tactic(auto, unfolding(crate::specs::Statements::imported))]
fn imported(cursor: &mut Cursor<'_>) -> Result<Imported, Error>
    ensures { Parses result cursor.new (imported.reads cursor.old) }
{
    let name = cursor.expect_name()?;
    let target = given_name(cursor, &name)?;
    Ok(Imported { name, target })
}

/// The name that an imported name is bound to: the one after `as`, or the same name. OutOfMemory if
/// it can't have a second owner.
fn given_name(cursor: &mut Cursor<'_>, name: &Name) -> Result<Name, Error>
    ensures { Parses result cursor.new ((given_name name.now).reads cursor.old) }
{
    if take_word(cursor, "as") {
        return cursor.expect_name();
    }
    Ok(name.share()?)
}
