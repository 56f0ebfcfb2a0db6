//! Declarations in a body (C11 6.7).

ghost use Rattle.std.specs.Prelude.{◌≡◌, IfOk};
ghost use Rattle.sc_tree.specs.Statements.{declaration};
ghost use Rattle.sc_parse_expr.specs.Gives.{Gives};
ghost use Rattle.sc_parse_expr.specs.Read.{read};
ghost use Rattle.sc_parse_unit.specs.Reading.{some_declarators};
ghost use Rattle.sc_parse_unit.specs.Reading as spec;

use crate::initialisers::read_initialiser;
use sc_base::{Boxed, List, OutOfMemory, Pos};
use sc_parse_expr::{Declared, Found, read_declarator, read_specs};
use sc_parse_front::{Cursor, ParseError, TypeNames, room_for_one};
use sc_tree::decl::{Decl, InitDeclarator};
use sc_tree::grammar::{BodyForm, Naming, Specified};
use std::alloc::Global;

/// A declarator that was read, with the initialiser behind it where one stands there.
#[tactic(auto, unfolding(crate::specs::Reading::with_init))]
pub(crate) fn with_init(
    alloc: Global,
    types: &TypeNames,
    tokens: &mut Cursor<'_>,
    limit: usize,
    declared: Found<Declared>,
) -> Result<Found<InitDeclarator>, ParseError>
    ensures { Gives (spec.with_init types.now limit (read declared.it declared.height tokens.old)) result tokens.new }
{
    if !tokens.is_equals() {
        return Ok(Found {
            it: InitDeclarator {
                declarator: declared.it.declarator.into_inner(),
                init: None,
            },
            height: declared.height,
        });
    }
    tokens.advance();
    let init = read_initialiser(alloc, types, tokens, limit)?;
    Ok(Found {
        it: InitDeclarator {
            declarator: declared.it.declarator.into_inner(),
            init: Some(init.it),
        },
        height: declared.height.max(init.height),
    })
}

#[tactic(auto, unfolding(crate::specs::Reading::init_declarator))]
fn init_declarator(
    alloc: Global,
    types: &TypeNames,
    tokens: &mut Cursor<'_>,
    limit: usize,
) -> Result<Found<InitDeclarator>, ParseError>
    ensures { Gives (spec.init_declarator types.now limit tokens.old) result tokens.new }
{
    let declared = read_declarator(alloc, types, tokens, limit, Naming::Required)?;
    with_init(alloc, types, tokens, limit, declared)
}

/// Declarators with commas between.
fn some_declarators(
    alloc: Global,
    types: &TypeNames,
    tokens: &mut Cursor<'_>,
    limit: usize,
) -> Result<Found<List<InitDeclarator>>, ParseError>
    ensures { Gives (some_declarators types.now limit tokens.old) result tokens.new }
{
    let mut all = room_for_one(alloc)?;
    let mut height = 0;
    for _turn in 0..tokens.len() {
        let found = init_declarator(alloc, types, tokens, limit)?;
        all.push(found.it)?;
        height = height.max(found.height);
        if !tokens.is_comma() {
            return Ok(Found { it: all, height });
        }
        tokens.advance();
    }
    Err(ParseError::NoMatch)
}

/// Whether the specifiers are such as may stand in a body: without `typedef`, and without the body
/// of a struct, union or enum.
fn is_plain(specified: &Specified) -> bool
    ensures { result ≡ spec.is_plain specified.now }
{
    !specified.typedef && matches!(specified.form, BodyForm::NoBody)
}

/// The declaration of these specifiers and declarators.
pub(crate) fn declaration(
    alloc: Global,
    pos: Pos,
    specified: Specified,
    parts: List<InitDeclarator>,
) -> Result<Boxed<Decl>, OutOfMemory>
    ensures { IfOk result (λ decl. decl ≡ declaration pos specified parts) }
{
    let decl = Decl {
        pos,
        specs: specified.specs,
        parts,
    };
    Boxed::new(alloc, decl)
}

#[tactic(auto, unfolding(crate::specs::Reading::declarators))]
fn with_declarators(
    alloc: Global,
    types: &TypeNames,
    tokens: &mut Cursor<'_>,
    limit: usize,
    pos: Pos,
    specified: Found<Specified>,
) -> Result<Found<Boxed<Decl>>, ParseError>
    ensures { Gives (spec.declarators types.now limit pos (read specified.it specified.height tokens.old)) result tokens.new }
{
    let parts = some_declarators(alloc, types, tokens, limit)?;
    tokens.pass_semicolon()?;
    let height = specified.height.max(parts.height);
    Ok(Found {
        it: declaration(alloc, pos, specified.it, parts.it)?,
        height,
    })
}

#[tactic(auto, unfolding(crate::specs::Reading::declared_plain))]
fn declared_plain(
    alloc: Global,
    types: &TypeNames,
    tokens: &mut Cursor<'_>,
    limit: usize,
    pos: Pos,
    specified: Found<Specified>,
) -> Result<Found<Boxed<Decl>>, ParseError>
    ensures { Gives (spec.declared_plain types.now limit pos (read specified.it specified.height tokens.old)) result tokens.new }
{
    if !tokens.is_semicolon() {
        return with_declarators(alloc, types, tokens, limit, pos, specified);
    }
    tokens.advance();
    Ok(Found {
        it: declaration(alloc, pos, specified.it, List::new(alloc))?,
        height: specified.height,
    })
}

/// The declaration of a body at the front of the tokens, of at most that height, and goes behind
/// it. After a refusal nothing is known of the tokens that are left.
#[tactic(auto, unfolding(crate::specs::Reading::body_declaration))]
pub(crate) fn read_declaration(
    alloc: Global,
    types: &TypeNames,
    tokens: &mut Cursor<'_>,
    limit: usize,
) -> Result<Found<Boxed<Decl>>, ParseError>
    ensures { Gives (spec.body_declaration types.now limit tokens.old) result tokens.new }
{
    let pos = tokens.first_pos();
    let specified = read_specs(alloc, types, tokens, limit)?;
    if !is_plain(&specified.it) {
        return Err(ParseError::NoMatch);
    }
    declared_plain(alloc, types, tokens, limit, pos, specified)
}
