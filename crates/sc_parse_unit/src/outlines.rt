//! Segments before the body of a function is read: declarations at file scope, and the heads of
//! functions (C11 6.9).

ghost use Rattle.std.specs.Prelude.{◌≡◌, [], length, IfOk, OnOk, OnErr};
ghost use Rattle.sc_tree.specs.Trees.{max_height};
ghost use Rattle.sc_tree.specs.Units.{with_declared};
ghost use Rattle.sc_parse_expr.specs.Gives.{Gives, GivesAs};
ghost use Rattle.sc_parse_expr.specs.Read.{read};
ghost use Rattle.sc_parse_unit.specs.Reading.{GivesOutline, Keeps};
ghost use Rattle.sc_parse_unit.specs.Reading as spec;

use crate::MAX_HEIGHT;
use crate::braced::is_braced;
use crate::declarations::{declaration, with_init};
use crate::found::Outline;
use sc_base::{Boxed, List, OutOfMemory, Pos};
use sc_parse_expr::{Declared, Found, read_declarator, read_specs};
use sc_parse_front::{Cursor, ParseError, TypeNames, room_for_one};
use sc_tree::decl::InitDeclarator;
use sc_tree::expr::Head;
use sc_tree::grammar::{Core, Naming, Specified};
use sc_tree::unit::FileDecl;
use std::alloc::Global;

/// The typedef names with what a declarator declares, where the flag is set in a typedef.
fn declare(types: &mut TypeNames, typedef: bool, core: Core) -> Result<(), OutOfMemory>
    ensures ok { OnOk result (types.new ≡ with_declared typedef types.old core) }
    ensures err { OnErr result (types.new ≡ types.old) }
{
    if !typedef {
        return Ok(());
    }
    match core {
        Core::Nameless => Ok(()),
        Core::Bare(name) => types.declare(name),
        Core::Function(name, _) => types.declare(name),
        Core::Other(name) => types.declare(name),
    }
}

/// A declarator that was read, with the initialiser behind it, where its name is declared before.
#[tactic(auto, using(crate::proofs::FileTurns::keeps_same, crate::proofs::FileTurns::declared_new_keeps))]
fn file_declarator(
    alloc: Global,
    types: &mut TypeNames,
    tokens: &mut Cursor<'_>,
    typedef: bool,
    declared: Found<Declared>,
) -> Result<Found<InitDeclarator>, ParseError>
    ensures gives { Gives (spec.with_init (with_declared typedef types.old declared.it.core) max_height
        (read declared.it declared.height tokens.old)) result tokens.new }
    ensures types { OnOk result (types.new ≡ with_declared typedef types.old declared.it.core) }
    ensures kept { Keeps types.old types.new }
{
    declare(types, typedef, declared.it.core)?;
    with_init(alloc, types, tokens, MAX_HEIGHT, declared)
}

/// Further declarators behind a comma, with commas between, and all declarators then.
fn more_declarators(
    alloc: Global,
    types: &mut TypeNames,
    tokens: &mut Cursor<'_>,
    typedef: bool,
    first: Found<List<InitDeclarator>>,
) -> Result<Found<List<InitDeclarator>>, ParseError>
    ensures gives { GivesAs (λ xs. spec.file_parts xs types.new)
        (spec.file_declarators (length tokens.old) typedef first.it types.old first.height tokens.old) result tokens.new }
    ensures kept { Keeps types.old types.new }
{
    let Found {
        it: mut all,
        mut height,
    } = first;
    for _turn in 0..tokens.len() {
        let declared = read_declarator(alloc, types, tokens, MAX_HEIGHT, Naming::Required)?;
        let found = file_declarator(alloc, types, tokens, typedef, declared)?;
        all.push(found.it)?;
        height = height.max(found.height);
        if !tokens.is_comma() {
            return Ok(Found { it: all, height });
        }
        tokens.advance();
    }
    Err(ParseError::NoMatch)
}

/// The declarators of a declaration, of which the first was read.
#[tactic(auto, using(crate::proofs::FileTurns::keeps_all), unfolding(crate::specs::Reading::file_declarator, crate::specs::Reading::file_rest))]
fn declarators(
    alloc: Global,
    types: &mut TypeNames,
    tokens: &mut Cursor<'_>,
    typedef: bool,
    first: Found<Declared>,
) -> Result<Found<List<InitDeclarator>>, ParseError>
    ensures gives { GivesAs (λ xs. spec.file_parts xs types.new)
        (spec.file_declarator (λ xs us m rs. spec.file_declarators (length rs) typedef xs us m rs) typedef [] types.old 0
        (read first.it first.height tokens.old)) result tokens.new }
    ensures kept { Keeps types.old types.new }
{
    let found = file_declarator(alloc, types, tokens, typedef, first)?;
    let mut all = room_for_one(alloc)?;
    all.push(found.it)?;
    let first = Found {
        it: all,
        height: found.height,
    };
    if !tokens.is_comma() {
        return Ok(first);
    }
    tokens.advance();
    more_declarators(alloc, types, tokens, typedef, first)
}

/// The end of a declaration behind its declarators.
#[tactic(auto, using(crate::proofs::FileTurns::no_token), unfolding(crate::specs::Reading::ended))]
fn ended(
    alloc: Global,
    types: &TypeNames,
    tokens: &mut Cursor<'_>,
    pos: Pos,
    specified: Found<Specified>,
    parts: Found<List<InitDeclarator>>,
) -> Result<Outline, ParseError>
    ensures { GivesOutline (spec.ended pos (read specified.it specified.height [])
        (read (spec.file_parts parts.it types.now) parts.height tokens.old)) result types.now tokens.new }
{
    tokens.pass_semicolon()?;
    if !tokens.is_empty() {
        return Err(ParseError::NoMatch);
    }
    let decl = declaration(alloc, pos, specified.it, parts.it)?;
    Ok(Outline::Decl(FileDecl::Full(decl)))
}

fn head_of(
    alloc: Global,
    pos: Pos,
    specified: Specified,
    declared: Declared,
) -> Result<Boxed<Head>, OutOfMemory>
    ensures { IfOk result (λ head. head ≡ spec.head_of pos specified declared) }
{
    let head = Head {
        pos,
        specs: specified.specs,
        declarator: declared.declarator.into_inner(),
    };
    Boxed::new(alloc, head)
}

/// Whether it declares a function whose parameters all have names.
fn is_function(core: Core) -> bool
    ensures { result ≡ spec.is_function core }
{
    matches!(core, Core::Function(_, true))
}

/// The head of a function before its body, which is left.
#[tactic(auto, unfolding(crate::specs::Reading::function_head))]
fn function_head(
    alloc: Global,
    types: &TypeNames,
    tokens: &Cursor<'_>,
    pos: Pos,
    specified: Found<Specified>,
    declared: Found<Declared>,
) -> Result<Outline, ParseError>
    ensures { GivesOutline (spec.function_head types.now pos (read specified.it specified.height [])
        (read declared.it declared.height tokens.now)) result types.now tokens.now }
{
    if !(is_function(declared.it.core) && is_braced(tokens)) {
        return Err(ParseError::NoMatch);
    }
    Ok(Outline::Function(head_of(alloc, pos, specified.it, declared.it)?))
}

/// Behind the first declarator.
#[tactic(auto, using(crate::proofs::FileTurns::keeps_same), unfolding(crate::specs::Reading::first_declared))]
fn first_declared(
    alloc: Global,
    types: &mut TypeNames,
    tokens: &mut Cursor<'_>,
    pos: Pos,
    specified: Found<Specified>,
    declared: Found<Declared>,
) -> Result<Outline, ParseError>
    ensures gives { GivesOutline (spec.first_declared types.old pos (read specified.it specified.height [])
        (read declared.it declared.height tokens.old)) result types.new tokens.new }
    ensures kept { Keeps types.old types.new }
{
    if tokens.is_left_brace() {
        return function_head(alloc, types, tokens, pos, specified, declared);
    }
    let typedef = specified.it.typedef;
    let parts = declarators(alloc, types, tokens, typedef, declared)?;
    ended(alloc, types, tokens, pos, specified, parts)
}

/// Behind the specifiers.
#[tactic(auto, using(crate::proofs::FileTurns::keeps_same, crate::proofs::FileTurns::no_token), unfolding(crate::specs::Reading::specified, crate::specs::Reading::first_declared, crate::specs::Reading::function_head, crate::specs::Reading::ended))]
fn specified(
    alloc: Global,
    types: &mut TypeNames,
    tokens: &mut Cursor<'_>,
    pos: Pos,
    specified: Found<Specified>,
) -> Result<Outline, ParseError>
    ensures gives { GivesOutline (spec.specified types.old pos (read specified.it specified.height tokens.old)) result types.new tokens.new }
    ensures kept { Keeps types.old types.new }
{
    if tokens.is_semicolon() {
        let none = Found {
            it: List::new(alloc),
            height: 0,
        };
        return ended(alloc, types, tokens, pos, specified, none);
    }
    let declared = read_declarator(alloc, types, tokens, MAX_HEIGHT, Naming::Required)?;
    first_declared(alloc, types, tokens, pos, specified, declared)
}

/// What all the tokens are: a declaration, with its typedef names behind the others then, or the
/// head of a function, whose body in braces is left. Where they are neither, further names may
/// stand behind those that were there.
#[tactic(auto, using(crate::proofs::FileTurns::keeps_same, crate::proofs::FileTurns::no_token), unfolding(crate::specs::Reading::outline_of))]
pub(crate) fn read_outline(
    alloc: Global,
    types: &mut TypeNames,
    tokens: &mut Cursor<'_>,
) -> Result<Outline, ParseError>
    ensures gives { GivesOutline (spec.outline_of types.old tokens.old) result types.new tokens.new }
    ensures kept { Keeps types.old types.new }
{
    let pos = tokens.first_pos();
    if tokens.is_semicolon() && tokens.behind().is_empty() {
        tokens.advance();
        return Ok(Outline::Decl(FileDecl::Empty(pos)));
    }
    let found = read_specs(alloc, types, tokens, MAX_HEIGHT)?;
    specified(alloc, types, tokens, pos, found)
}
