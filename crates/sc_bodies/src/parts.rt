// Statements and parts of statements in which no statement stands (C11 6.8). None of them declares a variable with
// linkage, but for declarations.

ghost use Rattle.std.specs.Prelude.{◌≡◌, [], Some, OnOk, IfOk};
ghost use Rattle.std.specs.Option.{option_copied};
ghost use Rattle.sc_typed.specs.declared.stmt.TStmt.TheVariants as st;
ghost use Rattle.sc_rules.specs.Gives.{Gives};
ghost use Rattle.sc_declare.specs.Numbers.{keys_of};
ghost use Rattle.sc_rules.specs.Walks as walks;
ghost use Rattle.sc_typing.specs.Tables as tables;
ghost use Rattle.sc_typing.specs.Typing as typing;
ghost use Rattle.sc_statements.specs.Choices as choices;
ghost use Rattle.sc_statements.specs.Statements as rules;
ghost use Rattle.sc_bodies.specs.Around.{inside_of};
ghost use Rattle.sc_bodies.specs.Bodies as spec;
ghost use Rattle.sc_bodies.specs.Parts as parts;

use crate::Around;
use sc_base::{Boxed, NameId, OutOfMemory, Pos};
use sc_declarations::declaration;
use sc_declare::GlobalNumbers;
use sc_names::{Scope, close_scope, open_scope};
use sc_rules::Walk;
use sc_statements::{
    case_of, choices_differ, expression_of, if_else_of, jump, optional, return_as, scalar,
    start_of, switched,
};
use sc_tree::ctype::{CType, Widths};
use sc_tree::decl::Decl;
use sc_tree::expr::Expr;
use sc_tree::stmt::ForStart;
use sc_typed::{TExpr, TForStart, TStmt};
use sc_typing::{Tables, valued_expression};
use std::alloc::Global;
use typing_laws::values_keep_globals;

/// The value of an expression.
pub fn value(
    alloc: Global,
    walk: &mut Walk,
    here: &Tables,
    e: &Expr,
) -> Result<Option<TExpr>, OutOfMemory>
    ensures typed { Gives (typing.valued (typing.typing (tables.here_of here.now) e.now) walk.old) result walk.new }
    ensures kept { OnOk result (walk.new.globals ≡ walk.old.globals) }
{
    values_keep_globals();
    valued_expression(alloc, walk, here, e)
}

// The value of a condition, whose keyword stands at that place.
fn judged(walk: &mut Walk, at: Pos, e: TExpr) -> Option<TExpr>
    ensures judged { rules.scalar at e walk.old ≡ (result, walk.new) }
    ensures kept { walk.new.globals ≡ walk.old.globals }
{
    scalar(walk, at, e)
}

// The number of a `switch`, whose keyword stands at that place, promoted.
fn promoted(alloc: Global, walk: &mut Walk, at: Pos, e: TExpr) -> Result<Option<TExpr>, OutOfMemory>
    ensures typed { Gives (rules.switched at e walk.old) result walk.new }
    ensures kept { OnOk result (walk.new.globals ≡ walk.old.globals) }
{
    switched(alloc, walk, at, e)
}

// `case e :`, where the type of the `switch` is that.
fn case_as(
    alloc: Global,
    walk: &mut Walk,
    w: Widths,
    at: Pos,
    t: Option<&CType>,
    e: TExpr,
) -> Result<Option<Boxed<TStmt>>, OutOfMemory>
    ensures typed { Gives (rules.case_of w at (option_copied t.entry) e walk.old) result walk.new }
    ensures kept { OnOk result (walk.new.globals ≡ walk.old.globals) }
{
    case_of(alloc, walk, w, at, t, e)
}

// `return e ;`, where the result of the function is that.
fn returned_as(
    alloc: Global,
    walk: &mut Walk,
    w: Widths,
    at: Pos,
    t: Option<&CType>,
    e: TExpr,
) -> Result<Option<Boxed<TStmt>>, OutOfMemory>
    ensures typed { Gives (rules.return_as w at (option_copied t.entry) e walk.old) result walk.new }
    ensures kept { OnOk result (walk.new.globals ≡ walk.old.globals) }
{
    return_as(alloc, walk, w, at, t, e)
}

// A `break` or `continue`, where it stands in what it leaves.
fn left_by(walk: &mut Walk, allowed: bool, s: Boxed<TStmt>, at: Pos) -> Option<Boxed<TStmt>>
    ensures typed { rules.jump allowed s at walk.old ≡ (result, walk.new) }
    ensures kept { walk.new.globals ≡ walk.old.globals }
{
    jump(walk, allowed, s, at)
}

// The same where there is one.
fn condition_value(walk: &mut Walk, at: Pos, e: Option<TExpr>) -> Option<TExpr>
    ensures judged { walks.given e (rules.scalar at) walk.old ≡ (result, walk.new) }
    ensures kept { walk.new.globals ≡ walk.old.globals }
{
    match e {
        None => None,
        Some(e) => judged(walk, at, e),
    }
}

/// A condition, whose keyword stands at that place.
pub fn condition(
    alloc: Global,
    walk: &mut Walk,
    here: &Tables,
    at: Pos,
    e: &Expr,
) -> Result<Option<TExpr>, OutOfMemory>
    ensures typed { Gives (spec.condition (tables.here_of here.now) at e.now walk.old) result walk.new }
    ensures kept { OnOk result (walk.new.globals ≡ walk.old.globals) }
{
    let x = value(alloc, walk, here, e)?;
    Ok(condition_value(walk, at, x))
}

// An expression on the heap, where there is one.
fn boxed_if(alloc: Global, e: Option<TExpr>) -> Result<Option<Boxed<TExpr>>, OutOfMemory>
    ensures { IfOk result (λ x. x ≡ e) }
{
    match e {
        None => Ok(None),
        Some(e) => Ok(Some(Boxed::new(alloc, e)?)),
    }
}

// An expression from the heap, where there is one.
fn unboxed_if(e: Option<Boxed<TExpr>>) -> Option<TExpr>
    ensures { result ≡ e }
{
    match e {
        None => None,
        Some(e) => Some(e.into_inner()),
    }
}

/// A condition on the heap, whose keyword stands at that place.
pub fn boxed_condition(
    alloc: Global,
    walk: &mut Walk,
    here: &Tables,
    at: Pos,
    e: &Expr,
) -> Result<Option<Boxed<TExpr>>, OutOfMemory>
    ensures typed { Gives (spec.condition (tables.here_of here.now) at e.now walk.old) result walk.new }
    ensures kept { OnOk result (walk.new.globals ≡ walk.old.globals) }
{
    let x = condition(alloc, walk, here, at, e)?;
    boxed_if(alloc, x)
}

/// A condition that may be left out: `None` is a fault in it.
pub fn condition_if(
    alloc: Global,
    walk: &mut Walk,
    here: &Tables,
    at: Pos,
    e: &Option<Boxed<Expr>>,
) -> Result<Option<Option<TExpr>>, OutOfMemory>
    ensures typed { Gives (spec.condition_if (tables.here_of here.now) at e.now walk.old) result walk.new }
    ensures kept { OnOk result (walk.new.globals ≡ walk.old.globals) }
{
    match e {
        None => Ok(Some(None)),
        Some(e) => Ok(optional(condition(alloc, walk, here, at, e.get())?)),
    }
}

/// An expression that may be left out: `None` is a fault in it.
pub fn value_if(
    alloc: Global,
    walk: &mut Walk,
    here: &Tables,
    e: &Option<Boxed<Expr>>,
) -> Result<Option<Option<TExpr>>, OutOfMemory>
    ensures typed { Gives (spec.value_if (tables.here_of here.now) e.now walk.old) result walk.new }
    ensures kept { OnOk result (walk.new.globals ≡ walk.old.globals) }
{
    match e {
        None => Ok(Some(None)),
        Some(e) => Ok(optional(value(alloc, walk, here, e.get())?)),
    }
}

/// What stands in the first place of a `for`; `None` where it has a fault.
pub fn for_start(
    alloc: Global,
    walk: &mut Walk,
    numbers: &mut GlobalNumbers,
    here: &Tables,
    start: &ForStart,
) -> Result<Option<TForStart>, OutOfMemory>
    requires { numbers.old ≡ keys_of walk.old.globals }
    ensures typed { Gives (spec.for_start (tables.here_of here.now) start.now walk.old) result walk.new }
    ensures tied { OnOk result (numbers.new ≡ keys_of walk.new.globals) }
{
    match start {
        ForStart::Nothing => Ok(Some(TForStart::Nothing)),
        ForStart::Expr(e) => Ok(start_of(value(alloc, walk, here, e.get())?)),
        ForStart::Decl(d, at) => {
            let declared = declaration(alloc, walk, numbers, here, false, d.get())?;
            Ok(Some(TForStart::Decl(declared, *at)))
        }
    }
}

// The same where there is one.
fn promoted_number(
    alloc: Global,
    walk: &mut Walk,
    at: Pos,
    e: Option<TExpr>,
) -> Result<Option<TExpr>, OutOfMemory>
    ensures typed { Gives (walks.given e (rules.switched at) walk.old) result walk.new }
    ensures kept { OnOk result (walk.new.globals ≡ walk.old.globals) }
{
    match e {
        None => Ok(None),
        Some(e) => promoted(alloc, walk, at, e),
    }
}

/// The number of a `switch`, whose keyword stands at that place; `None` where it has a fault.
pub fn switch_number(
    alloc: Global,
    walk: &mut Walk,
    here: &Tables,
    at: Pos,
    e: &Expr,
) -> Result<Option<TExpr>, OutOfMemory>
    ensures typed { Gives (parts.switch_number (tables.here_of here.now) at e.now walk.old) result walk.new }
    ensures kept { OnOk result (walk.new.globals ≡ walk.old.globals) }
{
    let x = value(alloc, walk, here, e)?;
    promoted_number(alloc, walk, at, x)
}

// A statement on the heap.
fn made(alloc: Global, s: TStmt) -> Result<Option<Boxed<TStmt>>, OutOfMemory>
    ensures { IfOk result (λ x. x ≡ Some s) }
{
    Ok(Some(Boxed::new(alloc, s)?))
}

/// A declaration in a body.
pub fn declaration_statement(
    alloc: Global,
    walk: &mut Walk,
    numbers: &mut GlobalNumbers,
    here: &Tables,
    d: &Decl,
    at: Pos,
) -> Result<Option<Boxed<TStmt>>, OutOfMemory>
    requires { numbers.old ≡ keys_of walk.old.globals }
    ensures typed { Gives (parts.declaration_statement (tables.here_of here.now) d.now at walk.old) result walk.new }
    ensures tied { OnOk result (numbers.new ≡ keys_of walk.new.globals) }
{
    let declared = declaration(alloc, walk, numbers, here, false, d)?;
    made(alloc, TStmt::Decl(declared, at))
}

/// `e ;` or `;`
pub fn expression_statement(
    alloc: Global,
    walk: &mut Walk,
    here: &Tables,
    e: &Option<Boxed<Expr>>,
    at: Pos,
) -> Result<Option<Boxed<TStmt>>, OutOfMemory>
    ensures typed { Gives (spec.expression_statement (tables.here_of here.now) at e.now walk.old) result walk.new }
    ensures kept { OnOk result (walk.new.globals ≡ walk.old.globals) }
{
    match e {
        None => made(alloc, TStmt::Expr(None, at)),
        Some(e) => {
            let x = value(alloc, walk, here, e.get())?;
            expression_of(alloc, at, x)
        }
    }
}

// `case e :` with the value of `e`.
#[tactic(auto, unfolding(crate::specs::Around::inside_of))]
fn case_with(
    alloc: Global,
    walk: &mut Walk,
    here: &Tables,
    around: &Around,
    at: Pos,
    e: Option<TExpr>,
) -> Result<Option<Boxed<TStmt>>, OutOfMemory>
    ensures typed { Gives (walks.given e (rules.case_of (tables.here_of here.now).widths at
        (inside_of around.now).switch) walk.old) result walk.new }
    ensures kept { OnOk result (walk.new.globals ≡ walk.old.globals) }
{
    match e {
        None => Ok(None),
        Some(e) => case_as(alloc, walk, here.widths(), at, around.switch, e),
    }
}

/// `case e :`
#[tactic(auto, unfolding(crate::specs::Around::inside_of))]
pub fn case_statement(
    alloc: Global,
    walk: &mut Walk,
    here: &Tables,
    around: &Around,
    e: &Expr,
    at: Pos,
) -> Result<Option<Boxed<TStmt>>, OutOfMemory>
    ensures typed { Gives (spec.case_statement (tables.here_of here.now) at e.now
        (inside_of around.now) walk.old) result walk.new }
    ensures kept { OnOk result (walk.new.globals ≡ walk.old.globals) }
{
    let x = value(alloc, walk, here, e)?;
    case_with(alloc, walk, here, around, at, x)
}

// `return e ;` with the value of `e`.
#[tactic(auto, unfolding(crate::specs::Around::inside_of))]
fn return_with(
    alloc: Global,
    walk: &mut Walk,
    here: &Tables,
    around: &Around,
    at: Pos,
    e: Option<TExpr>,
) -> Result<Option<Boxed<TStmt>>, OutOfMemory>
    ensures typed { Gives (walks.given e (rules.return_as (tables.here_of here.now).widths at
        (inside_of around.now).result) walk.old) result walk.new }
    ensures kept { OnOk result (walk.new.globals ≡ walk.old.globals) }
{
    match e {
        None => Ok(None),
        Some(e) => returned_as(alloc, walk, here.widths(), at, around.result, e),
    }
}

/// `return e ;` or `return ;`
#[tactic(auto, unfolding(crate::specs::Around::inside_of))]
pub fn return_statement(
    alloc: Global,
    walk: &mut Walk,
    here: &Tables,
    around: &Around,
    e: &Option<Boxed<Expr>>,
    at: Pos,
) -> Result<Option<Boxed<TStmt>>, OutOfMemory>
    ensures typed { Gives (spec.return_statement (tables.here_of here.now) at e.now
        (inside_of around.now) walk.old) result walk.new }
    ensures kept { OnOk result (walk.new.globals ≡ walk.old.globals) }
{
    match e {
        None => made(alloc, TStmt::Return(None, at)),
        Some(e) => {
            let x = value(alloc, walk, here, e.get())?;
            return_with(alloc, walk, here, around, at, x)
        }
    }
}

// A `break` or `continue`, where it stands in what it leaves.
fn leaving(
    alloc: Global,
    walk: &mut Walk,
    allowed: bool,
    s: TStmt,
    at: Pos,
) -> Result<Option<Boxed<TStmt>>, OutOfMemory>
    ensures typed { Gives (rules.jump allowed s at walk.old) result walk.new }
    ensures kept { OnOk result (walk.new.globals ≡ walk.old.globals) }
{
    let s = Boxed::new(alloc, s)?;
    Ok(left_by(walk, allowed, s, at))
}

/// `default :`
pub fn default_statement(alloc: Global, at: Pos) -> Result<Option<Boxed<TStmt>>, OutOfMemory>
    ensures { IfOk result (λ x. x ≡ Some (st.Default at)) }
{
    made(alloc, TStmt::Default(at))
}

/// `goto name ;`
pub fn goto_statement(
    alloc: Global,
    name: NameId,
    at: Pos,
) -> Result<Option<Boxed<TStmt>>, OutOfMemory>
    ensures { IfOk result (λ x. x ≡ Some (st.Goto name at)) }
{
    made(alloc, TStmt::Goto(name, at))
}

/// `break ;`
#[tactic(auto, unfolding(crate::specs::Around::inside_of))]
pub fn break_statement(
    alloc: Global,
    walk: &mut Walk,
    around: &Around,
    at: Pos,
) -> Result<Option<Boxed<TStmt>>, OutOfMemory>
    ensures typed { Gives (rules.jump (inside_of around.now).leaves (st.Break at) at walk.old) result walk.new }
    ensures kept { OnOk result (walk.new.globals ≡ walk.old.globals) }
{
    leaving(alloc, walk, around.leaves, TStmt::Break(at), at)
}

/// `continue ;`
#[tactic(auto, unfolding(crate::specs::Around::inside_of))]
pub fn continue_statement(
    alloc: Global,
    walk: &mut Walk,
    around: &Around,
    at: Pos,
) -> Result<Option<Boxed<TStmt>>, OutOfMemory>
    ensures typed { Gives (rules.jump (inside_of around.now).loop (st.Continue at) at walk.old) result walk.new }
    ensures kept { OnOk result (walk.new.globals ≡ walk.old.globals) }
{
    leaving(alloc, walk, around.repeats, TStmt::Continue(at), at)
}

/// Opens a scope for a block.
pub fn open_block(walk: &mut Walk) -> Result<(), OutOfMemory>
    ensures opened { Gives (walks.open_scope walks.no_scope walk.old) result walk.new }
    ensures kept { OnOk result (walk.new.globals ≡ walk.old.globals) }
{
    open_scope(walk)
}

/// Closes the scope of a block, and gives what it had.
pub fn close_block(walk: &mut Walk) -> Result<Scope, OutOfMemory>
    ensures closed { IfOk result (λ scope. walks.close_scope walk.old ≡
        (record { names = scope.names; tags = scope.tags }, walk.new)) }
    ensures kept { OnOk result (walk.new.globals ≡ walk.old.globals) }
{
    close_scope(walk)
}

/// Closes the scope of an `if` with `else`, and makes it of its parts.
pub fn close_if_else(
    alloc: Global,
    walk: &mut Walk,
    at: Pos,
    c: Option<Boxed<TExpr>>,
    s: Option<Boxed<TStmt>>,
    t: Option<Boxed<TStmt>>,
) -> Result<Option<Boxed<TStmt>>, OutOfMemory>
    ensures typed { Gives (parts.closed_if_else at c s t walk.old) result walk.new }
    ensures kept { OnOk result (walk.new.globals ≡ walk.old.globals) }
{
    close_block(walk)?;
    if_else_of(alloc, at, unboxed_if(c), s, t)
}

/// Notes what stands twice among the items of a `switch`.
pub fn differ(
    alloc: Global,
    walk: &mut Walk,
    items: &[Option<Boxed<TStmt>>],
) -> Result<bool, OutOfMemory>
    ensures judged { Gives (choices.choices_differ items.now [] walk.old) result walk.new }
    ensures kept { OnOk result (walk.new.globals ≡ walk.old.globals) }
{
    choices_differ(alloc, walk, items)
}
