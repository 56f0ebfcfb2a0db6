// Statements of their parts (C11 6.8).

ghost use Rattle.std.specs.Prelude.{◌≡◌, IfOk};
ghost use Rattle.sc_statements.specs.Forms as spec;

use sc_base::{Boxed, List, NameId, OutOfMemory, Pos};
use sc_typed::{TExpr, TForStart, TStmt};
use std::alloc::Global;

/// A statement put on the heap.
pub fn made(alloc: Global, s: TStmt) -> Result<Option<Boxed<TStmt>>, OutOfMemory>
    ensures { IfOk result (λ x. x ≡ Some s) }
{
    Ok(Some(Boxed::new(alloc, s)?))
}

/// All items of a block or a `switch`; `None` where one has a fault.
#[tactic(auto, using(crate::proofs::Items::behind_one, crate::proofs::Items::behind_none, crate::proofs::Items::behind_end))]
pub fn all_items(
    alloc: Global,
    items: List<Option<Boxed<TStmt>>>,
) -> Result<Option<List<TStmt>>, OutOfMemory>
    ensures { IfOk result (λ all. all ≡ spec.all_items items) }
{
    let mut all = Some(List::from_vec(Vec::with_capacity(alloc, items.len())?));
    for s in items.into_vec() {
        all = with_last(all, s)?;
    }
    Ok(all)
}

// The items so far and one more; `None` where one has a fault.
fn with_last(
    all: Option<List<TStmt>>,
    s: Option<Boxed<TStmt>>,
) -> Result<Option<List<TStmt>>, OutOfMemory>
    ensures { IfOk result (λ more. more ≡ spec.with_last all s) }
{
    match all {
        None => Ok(None),
        Some(mut all) => match s {
            None => Ok(None),
            Some(s) => {
                all.push(s.into_inner())?;
                Ok(Some(all))
            }
        },
    }
}

/// `{ items }`, with the places of both braces.
pub fn block_of(
    alloc: Global,
    from: Pos,
    to: Pos,
    items: Option<List<TStmt>>,
) -> Result<Option<Boxed<TStmt>>, OutOfMemory>
    ensures { IfOk result (λ x. x ≡ spec.block_of from to items) }
{
    match items {
        None => Ok(None),
        Some(items) => made(alloc, TStmt::Block(items, from, to)),
    }
}

/// `e ;`
pub fn expression_of(
    alloc: Global,
    at: Pos,
    e: Option<TExpr>,
) -> Result<Option<Boxed<TStmt>>, OutOfMemory>
    ensures { IfOk result (λ x. x ≡ spec.expression_of at e) }
{
    match e {
        None => Ok(None),
        Some(e) => made(alloc, TStmt::Expr(Some(e), at)),
    }
}

/// `if ( e ) s`
pub fn if_of(
    alloc: Global,
    at: Pos,
    e: Option<TExpr>,
    s: Option<Boxed<TStmt>>,
) -> Result<Option<Boxed<TStmt>>, OutOfMemory>
    ensures { IfOk result (λ x. x ≡ spec.if_of at e s) }
{
    match e.zip(s) {
        None => Ok(None),
        Some((e, s)) => made(alloc, TStmt::If(e, s, None, at)),
    }
}

/// `if ( e ) s else t`
pub fn if_else_of(
    alloc: Global,
    at: Pos,
    e: Option<TExpr>,
    s: Option<Boxed<TStmt>>,
    t: Option<Boxed<TStmt>>,
) -> Result<Option<Boxed<TStmt>>, OutOfMemory>
    ensures { IfOk result (λ x. x ≡ spec.if_else_of at e s t) }
{
    match e.zip(s).zip(t) {
        None => Ok(None),
        Some(((e, s), t)) => made(alloc, TStmt::If(e, s, Some(t), at)),
    }
}

/// `while ( e ) s`
pub fn while_of(
    alloc: Global,
    at: Pos,
    e: Option<TExpr>,
    s: Option<Boxed<TStmt>>,
) -> Result<Option<Boxed<TStmt>>, OutOfMemory>
    ensures { IfOk result (λ x. x ≡ spec.while_of at e s) }
{
    match e.zip(s) {
        None => Ok(None),
        Some((e, s)) => made(alloc, TStmt::While(e, s, at)),
    }
}

/// `do s while ( e ) ;`
pub fn do_of(
    alloc: Global,
    at: Pos,
    s: Option<Boxed<TStmt>>,
    e: Option<TExpr>,
) -> Result<Option<Boxed<TStmt>>, OutOfMemory>
    ensures { IfOk result (λ x. x ≡ spec.do_of at s e) }
{
    match s.zip(e) {
        None => Ok(None),
        Some((s, e)) => made(alloc, TStmt::Do(s, e, at)),
    }
}

/// A part of a `for` that stands there: `None` where it has a fault.
pub fn optional(e: Option<TExpr>) -> Option<Option<TExpr>>
    ensures { result ≡ spec.optional e }
{
    match e {
        None => None,
        Some(e) => Some(Some(e)),
    }
}

/// The first part of a `for`, which is an expression.
pub fn start_of(e: Option<TExpr>) -> Option<TForStart>
    ensures { result ≡ spec.start_of e }
{
    match e {
        None => None,
        Some(e) => Some(TForStart::Expr(e)),
    }
}

/// `for ( start ; test ; step ) s`. Of `test` and `step`, `None` is a fault in it, and `Some(None)` that it is left
/// out.
pub fn for_of(
    alloc: Global,
    at: Pos,
    start: Option<TForStart>,
    test: Option<Option<TExpr>>,
    step: Option<Option<TExpr>>,
    s: Option<Boxed<TStmt>>,
) -> Result<Option<Boxed<TStmt>>, OutOfMemory>
    ensures { IfOk result (λ x. x ≡ spec.for_of at start test step s) }
{
    match start.zip(test).zip(step.zip(s)) {
        None => Ok(None),
        Some(((start, test), (step, s))) => made(alloc, TStmt::For(start, test, step, s, at)),
    }
}

/// `switch ( e ) { items }`, with the places of its keyword and of its closing brace.
pub fn switch_of(
    alloc: Global,
    at: Pos,
    to: Pos,
    e: Option<TExpr>,
    items: Option<List<TStmt>>,
) -> Result<Option<Boxed<TStmt>>, OutOfMemory>
    ensures { IfOk result (λ x. x ≡ spec.switch_of at to e items) }
{
    match e.zip(items) {
        None => Ok(None),
        Some((e, items)) => made(alloc, TStmt::Switch(e, items, at, to)),
    }
}

/// `name : s`
pub fn label_of(
    alloc: Global,
    name: NameId,
    at: Pos,
    s: Option<Boxed<TStmt>>,
) -> Result<Option<Boxed<TStmt>>, OutOfMemory>
    ensures { IfOk result (λ x. x ≡ spec.label_of name at s) }
{
    match s {
        None => Ok(None),
        Some(s) => made(alloc, TStmt::Label(name, s, at)),
    }
}
