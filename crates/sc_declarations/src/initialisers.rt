// Initialisers of locals (C11 6.7.9): their expressions are typed, and the values go to the object as `sc_fill` says.

ghost use Rattle.std.specs.Prelude.{◌≡◌, is_some};
ghost use Rattle.std.specs.Option.{option_copied};
ghost use Rattle.sc_tree.specs.declared.expr.Expr.{out-Expr};
ghost use Rattle.sc_rules.specs.Gives.{Gives};
ghost use Rattle.sc_fill.specs.Initialisers.{is_array_if};
ghost use Rattle.sc_typing.specs.Tables as tables;
ghost use Rattle.sc_declarations.specs.Initialisers as spec;

use sc_base::{List, OutOfMemory, Pos, Unsupported};
use sc_fill::{one, one_value, spread_if};
use sc_rules::{Walk, unsupported};
use sc_tree::ctype::CType;
use sc_tree::decl::{Init, InitItem};
use sc_tree::expr::Expr;
use sc_typed::{TExpr, TInit};
use sc_types::is_array;
use sc_typing::{Tables, expression};
use std::alloc::Global;

// The value of an item in braces, where it is an expression without designators.
fn item_expression(item: &InitItem) -> Option<&Expr>
    ensures { option_copied result ≡ spec.item_expression item.now }
{
    match item.designators.as_slice() {
        [] => match &item.init {
            Init::One(e) => Some(e.get()),
            Init::List(_) => None,
        },
        [_, ..] => None,
    }
}

fn is_expression(item: &InitItem) -> bool
    ensures { result ≡ is_some (spec.item_expression item.now) }
{
    match item_expression(item) {
        None => false,
        Some(_) => true,
    }
}

// Whether each item is an expression without designators.
fn all_expressions(items: &[InitItem]) -> bool
    ensures { result ≡ spec.all_expressions items.now }
{
    items.iter().all(|item| is_expression(item))
}

// Types those items that are expressions without designators, as they stand.
#[tactic(auto, using(crate::proofs::Joined::joined_step))]
fn values(
    alloc: Global,
    walk: &mut Walk,
    here: &Tables,
    items: &[InitItem],
) -> Result<List<Option<TExpr>>, OutOfMemory>
    ensures { Gives (spec.values (tables.here_of here.now) (spec.expressions_there items.now) walk.old)
        result walk.new }
{
    let mut values = List::new(alloc);
    for item in items {
        match item_expression(item) {
            None => {}
            Some(e) => {
                let x = expression(alloc, walk, here, e)?;
                values.push(x)?;
            }
        }
    }
    Ok(values)
}

// An initialiser in braces. One with designators, or with braces inside, is not taken.
#[tactic(auto, using(crate::proofs::Expressions::whole, crate::proofs::Expressions::gap))]
fn list_initialiser(
    alloc: Global,
    walk: &mut Walk,
    here: &Tables,
    at: Pos,
    t: Option<&CType>,
    items: &[InitItem],
) -> Result<Option<TInit>, OutOfMemory>
    ensures { Gives (spec.list_initialiser (tables.here_of here.now) at (option_copied t.entry)
        (spec.item_expressions items.now) walk.old) result walk.new }
{
    if all_expressions(items) {
        let values = values(alloc, walk, here, items)?;
        spread_if(alloc, walk, here.widths(), at, t, values)
    } else {
        Ok(unsupported(walk, Unsupported::Init, at))
    }
}

// Whether an expression is a string as it is written, a wide one too.
fn is_text(e: &Expr) -> bool
    ensures { result ≡ spec.is_text (out-Expr e.now) }
{
    match e {
        Expr::Str(_, _) => true,
        Expr::Comma(_, _, _)
        | Expr::Assign(_, _, _, _)
        | Expr::Cond(_, _, _, _)
        | Expr::Binary(_, _, _, _)
        | Expr::Cast(_, _, _)
        | Expr::Unary(_, _, _)
        | Expr::PreInc(_, _, _)
        | Expr::SizeofExpr(_, _)
        | Expr::SizeofType(_, _)
        | Expr::Index(_, _, _)
        | Expr::Call(_, _, _)
        | Expr::Field(_, _, _, _)
        | Expr::PostInc(_, _, _)
        | Expr::Name(_, _)
        | Expr::Int(_, _)
        | Expr::Char(_, _)
        | Expr::Odd(_) => false,
    }
}

fn is_array_if(t: Option<&CType>) -> bool
    ensures { result ≡ is_array_if (option_copied t.entry) }
{
    match t {
        None => false,
        Some(t) => is_array(t),
    }
}

// A string that has no type, as a wide one: for an array it is not taken as any other string.
fn no_value(walk: &mut Walk, at: Pos, t: Option<&CType>, text: bool) -> Option<TExpr>
    ensures { spec.no_value at (option_copied t.entry) text walk.old ≡ (result, walk.new) }
{
    if text && is_array_if(t) {
        unsupported(walk, Unsupported::Init, at)
    } else {
        None
    }
}

// The value of an initialiser without braces.
fn value_given(
    alloc: Global,
    walk: &mut Walk,
    here: &Tables,
    at: Pos,
    t: Option<&CType>,
    text: bool,
    e: Option<TExpr>,
) -> Result<Option<TExpr>, OutOfMemory>
    ensures { Gives (spec.value_given (tables.here_of here.now) at (option_copied t.entry) text e walk.old)
        result walk.new }
{
    match e {
        None => Ok(no_value(walk, at, t, text)),
        Some(e) => one_value(alloc, walk, here.widths(), at, t, e),
    }
}

// An initialiser without braces.
fn one_initialiser(
    alloc: Global,
    walk: &mut Walk,
    here: &Tables,
    at: Pos,
    t: Option<&CType>,
    e: &Expr,
) -> Result<Option<TInit>, OutOfMemory>
    ensures { Gives (spec.one_initialiser (tables.here_of here.now) at (option_copied t.entry) e.now walk.old)
        result walk.new }
{
    let typed = expression(alloc, walk, here, e)?;
    let value = value_given(alloc, walk, here, at, t, is_text(e), typed)?;
    Ok(one(value))
}

/// The initialiser of a local of that type, whose name stands at that place; the type is `None` where it has no size.
/// `None` where there is a fault in it, which the walk notes.
pub fn initialiser(
    alloc: Global,
    walk: &mut Walk,
    here: &Tables,
    at: Pos,
    t: Option<&CType>,
    init: &Init,
) -> Result<Option<TInit>, OutOfMemory>
    ensures { Gives (spec.initialiser (tables.here_of here.now) at (option_copied t.entry) init.now walk.old)
        result walk.new }
{
    match init {
        Init::One(e) => one_initialiser(alloc, walk, here, at, t, e.get()),
        Init::List(items) => list_initialiser(alloc, walk, here, at, t, items.as_slice()),
    }
}
