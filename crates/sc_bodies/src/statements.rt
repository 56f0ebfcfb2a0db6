// The walk over statements (C11 6.8). Each function types the parts of a statement and asks the rule of its kind.
//
// What a failing step leaves is dropped by a call of `drop`, or is on the heap: each drop of an expression that is not
// written out costs the check of its function ten seconds, and several of them more than their sum.

ghost use Rattle.std.specs.Prelude.{◌≡◌, map, OnOk, None};
ghost use Rattle.sc_rules.specs.Gives.{Gives};
ghost use Rattle.sc_rules.specs.Walks.{scoped};
ghost use Rattle.sc_declare.specs.Numbers.{keys_of};
ghost use Rattle.sc_typing.specs.Tables as tables;
ghost use Rattle.sc_bodies.specs.Around.{inside_of};
ghost use Rattle.sc_bodies.specs.Bodies as spec;

use crate::Around;
use crate::parts::{
    boxed_condition, break_statement, case_statement, close_block, close_if_else, condition,
    condition_if, continue_statement, declaration_statement, default_statement, differ,
    expression_statement, for_start, goto_statement, open_block, return_statement, switch_number,
    value_if,
};
use sc_base::{Boxed, List, OutOfMemory, Pos};
use sc_declare::GlobalNumbers;
use sc_rules::Walk;
use sc_statements::{all_items, block_of, do_of, for_of, if_of, label_of, switch_of, while_of};
use sc_tree::expr::Expr;
use sc_tree::stmt::{ForHead, Stmt};
use sc_typed::TStmt;
use sc_typing::Tables;
use std::alloc::Global;

/// Types a statement: a block, `if`, a loop or a `switch` in a scope of its own. `None` where there is a fault in it,
/// which the walk notes.
///
/// `numbers` has the numbers of the globals of `walk`, before and after. Where memory is refused neither is of
/// further use.
#[cycle(statement)]
pub fn statement(
    alloc: Global,
    walk: &mut Walk,
    numbers: &mut GlobalNumbers,
    here: &Tables,
    around: &Around,
    s: &Stmt,
) -> Result<Option<Boxed<TStmt>>, OutOfMemory>
    requires { numbers.old ≡ keys_of walk.old.globals }
    ensures typed { Gives ((spec.stating (tables.here_of here.now) s.now).run
        (inside_of around.now) walk.old) result walk.new }
    ensures tied { OnOk result (numbers.new ≡ keys_of walk.new.globals) }
{
    match s {
        Stmt::Block(xs, from, to) => scoped_block(
            alloc, walk, numbers, here, around, xs, *from, *to,
        ),
        Stmt::Decl(d, at) => declaration_statement(alloc, walk, numbers, here, d.get(), *at),
        Stmt::Expr(e, at) => expression_statement(alloc, walk, here, e, *at),
        Stmt::If(e, x, y, at) => match y {
            None => scoped_if(alloc, walk, numbers, here, around, x.get(), e.get(), *at),
            Some(z) => {
                open_block(walk)?;
                let c = boxed_condition(alloc, walk, here, *at, e.get())?;
                let y = inner(alloc, walk, numbers, here, around, x.get())?;
                let t = inner(alloc, walk, numbers, here, around, z.get())?;
                close_if_else(alloc, walk, *at, c, y, t)
            }
        },
        Stmt::While(e, x, at) => scoped_while(
            alloc,
            walk,
            numbers,
            here,
            around,
            x.get(),
            e.get(),
            *at,
        ),
        Stmt::Do(x, e, at) => scoped_do(alloc, walk, numbers, here, around, x.get(), e.get(), *at),
        Stmt::For(h, x, at) => scoped_for(alloc, walk, numbers, here, around, h, x.get(), *at),
        Stmt::Switch(e, xs, at, to) => scoped_switch(
            alloc,
            walk,
            numbers,
            here,
            around,
            xs.get(),
            e.get(),
            *at,
            *to,
        ),
        Stmt::Case(e, at) => case_statement(alloc, walk, here, around, e.get(), *at),
        Stmt::Default(at) => default_statement(alloc, *at),
        Stmt::Goto(name, at) => goto_statement(alloc, *name, *at),
        Stmt::Break(at) => break_statement(alloc, walk, around, *at),
        Stmt::Continue(at) => continue_statement(alloc, walk, around, *at),
        Stmt::Return(e, at) => return_statement(alloc, walk, here, around, e, *at),
        Stmt::Label(name, x, at) => {
            let y = statement(alloc, walk, numbers, here, around, x.get())?;
            label_of(alloc, *name, *at, y)
        }
    }
}

/// Types the body of a function: its block is in the scope that is open, which has the parameters
/// (C11 6.2.1, 4). All else is as `statement` has it.
pub fn bare_statement(
    alloc: Global,
    walk: &mut Walk,
    numbers: &mut GlobalNumbers,
    here: &Tables,
    around: &Around,
    s: &Stmt,
) -> Result<Option<Boxed<TStmt>>, OutOfMemory>
    requires { numbers.old ≡ keys_of walk.old.globals }
    ensures typed { Gives ((spec.stating (tables.here_of here.now) s.now).bare
        (inside_of around.now) walk.old) result walk.new }
    ensures tied { OnOk result (numbers.new ≡ keys_of walk.new.globals) }
{
    match s {
        Stmt::Block(xs, from, to) => block(alloc, walk, numbers, here, around, xs, *from, *to),
        Stmt::Decl(_, _)
        | Stmt::Expr(_, _)
        | Stmt::If(_, _, _, _)
        | Stmt::While(_, _, _)
        | Stmt::Do(_, _, _)
        | Stmt::For(_, _, _)
        | Stmt::Switch(_, _, _, _)
        | Stmt::Case(_, _)
        | Stmt::Default(_)
        | Stmt::Goto(_, _)
        | Stmt::Break(_)
        | Stmt::Continue(_)
        | Stmt::Return(_, _)
        | Stmt::Label(_, _, _) => statement(alloc, walk, numbers, here, around, s),
    }
}

// A statement in a scope of its own.
#[cycle(statement)]
fn inner(
    alloc: Global,
    walk: &mut Walk,
    numbers: &mut GlobalNumbers,
    here: &Tables,
    around: &Around,
    s: &Stmt,
) -> Result<Option<Boxed<TStmt>>, OutOfMemory>
    requires { numbers.old ≡ keys_of walk.old.globals }
    ensures typed { Gives (scoped ((spec.stating (tables.here_of here.now) s.now).run
        (inside_of around.now)) walk.old) result walk.new }
    ensures tied { OnOk result (numbers.new ≡ keys_of walk.new.globals) }
{
    open_block(walk)?;
    let x = statement(alloc, walk, numbers, here, around, s)?;
    close_block(walk)?;
    Ok(x)
}

// The items of a block or a `switch`, one after the other.
#[cycle(statement)]
#[tactic(auto, using(crate::proofs::Joined::joined_step))]
fn items(
    alloc: Global,
    walk: &mut Walk,
    numbers: &mut GlobalNumbers,
    here: &Tables,
    around: &Around,
    xs: &List<Stmt>,
) -> Result<List<Option<Boxed<TStmt>>>, OutOfMemory>
    requires { numbers.old ≡ keys_of walk.old.globals }
    ensures typed { Gives (spec.items (map (spec.stating (tables.here_of here.now)) xs.now)
        (inside_of around.now) walk.old) result walk.new }
    ensures tied { OnOk result (numbers.new ≡ keys_of walk.new.globals) }
{
    let mut typed = List::new(alloc);
    for x in xs.as_slice() {
        let y = statement(alloc, walk, numbers, here, around, x)?;
        typed.push(y)?;
    }
    Ok(typed)
}

// A block in a scope of its own.
#[cycle(statement)]
fn scoped_block(
    alloc: Global,
    walk: &mut Walk,
    numbers: &mut GlobalNumbers,
    here: &Tables,
    around: &Around,
    xs: &List<Stmt>,
    from: Pos,
    to: Pos,
) -> Result<Option<Boxed<TStmt>>, OutOfMemory>
    requires { numbers.old ≡ keys_of walk.old.globals }
    ensures typed { Gives (scoped (spec.block (map (spec.stating (tables.here_of here.now)) xs.now) from to
        (inside_of around.now)) walk.old) result walk.new }
    ensures tied { OnOk result (numbers.new ≡ keys_of walk.new.globals) }
{
    open_block(walk)?;
    let x = block(alloc, walk, numbers, here, around, xs, from, to)?;
    close_block(walk)?;
    Ok(x)
}

// A block.
#[cycle(statement)]
fn block(
    alloc: Global,
    walk: &mut Walk,
    numbers: &mut GlobalNumbers,
    here: &Tables,
    around: &Around,
    xs: &List<Stmt>,
    from: Pos,
    to: Pos,
) -> Result<Option<Boxed<TStmt>>, OutOfMemory>
    requires { numbers.old ≡ keys_of walk.old.globals }
    ensures typed { Gives (spec.block (map (spec.stating (tables.here_of here.now)) xs.now) from to
        (inside_of around.now) walk.old) result walk.new }
    ensures tied { OnOk result (numbers.new ≡ keys_of walk.new.globals) }
{
    let typed = items(alloc, walk, numbers, here, around, xs)?;
    let all = all_items(alloc, typed)?;
    block_of(alloc, from, to, all)
}

// `if` in a scope of its own.
#[cycle(statement)]
fn scoped_if(
    alloc: Global,
    walk: &mut Walk,
    numbers: &mut GlobalNumbers,
    here: &Tables,
    around: &Around,
    x: &Stmt,
    e: &Expr,
    at: Pos,
) -> Result<Option<Boxed<TStmt>>, OutOfMemory>
    requires { numbers.old ≡ keys_of walk.old.globals }
    ensures typed { Gives (scoped (spec.if_statement (tables.here_of here.now) at e.now
        (spec.stating (tables.here_of here.now) x.now) None (inside_of around.now)) walk.old) result walk.new }
    ensures tied { OnOk result (numbers.new ≡ keys_of walk.new.globals) }
{
    open_block(walk)?;
    let x = if_statement(alloc, walk, numbers, here, around, x, e, at)?;
    close_block(walk)?;
    Ok(x)
}

// `if ( e ) x`
#[cycle(statement)]
fn if_statement(
    alloc: Global,
    walk: &mut Walk,
    numbers: &mut GlobalNumbers,
    here: &Tables,
    around: &Around,
    x: &Stmt,
    e: &Expr,
    at: Pos,
) -> Result<Option<Boxed<TStmt>>, OutOfMemory>
    requires { numbers.old ≡ keys_of walk.old.globals }
    ensures typed { Gives (spec.if_statement (tables.here_of here.now) at e.now
        (spec.stating (tables.here_of here.now) x.now) None (inside_of around.now) walk.old) result walk.new }
    ensures tied { OnOk result (numbers.new ≡ keys_of walk.new.globals) }
{
    let c = condition(alloc, walk, here, at, e)?;
    match inner(alloc, walk, numbers, here, around, x) {
        Err(fault) => {
            drop(c);
            Err(fault)
        }
        Ok(y) => if_of(alloc, at, c, y),
    }
}

// `while` in a scope of its own.
#[cycle(statement)]
fn scoped_while(
    alloc: Global,
    walk: &mut Walk,
    numbers: &mut GlobalNumbers,
    here: &Tables,
    around: &Around,
    x: &Stmt,
    e: &Expr,
    at: Pos,
) -> Result<Option<Boxed<TStmt>>, OutOfMemory>
    requires { numbers.old ≡ keys_of walk.old.globals }
    ensures typed { Gives (scoped (spec.while_statement (tables.here_of here.now) at e.now
        (spec.stating (tables.here_of here.now) x.now) (inside_of around.now)) walk.old) result walk.new }
    ensures tied { OnOk result (numbers.new ≡ keys_of walk.new.globals) }
{
    open_block(walk)?;
    let x = while_statement(alloc, walk, numbers, here, around, x, e, at)?;
    close_block(walk)?;
    Ok(x)
}

// `while ( e ) x`
#[cycle(statement)]
fn while_statement(
    alloc: Global,
    walk: &mut Walk,
    numbers: &mut GlobalNumbers,
    here: &Tables,
    around: &Around,
    x: &Stmt,
    e: &Expr,
    at: Pos,
) -> Result<Option<Boxed<TStmt>>, OutOfMemory>
    requires { numbers.old ≡ keys_of walk.old.globals }
    ensures typed { Gives (spec.while_statement (tables.here_of here.now) at e.now
        (spec.stating (tables.here_of here.now) x.now) (inside_of around.now) walk.old) result walk.new }
    ensures tied { OnOk result (numbers.new ≡ keys_of walk.new.globals) }
{
    let c = condition(alloc, walk, here, at, e)?;
    match inner(alloc, walk, numbers, here, &around.in_loop(), x) {
        Err(fault) => {
            drop(c);
            Err(fault)
        }
        Ok(y) => while_of(alloc, at, c, y),
    }
}

// `do` in a scope of its own.
#[cycle(statement)]
fn scoped_do(
    alloc: Global,
    walk: &mut Walk,
    numbers: &mut GlobalNumbers,
    here: &Tables,
    around: &Around,
    x: &Stmt,
    e: &Expr,
    at: Pos,
) -> Result<Option<Boxed<TStmt>>, OutOfMemory>
    requires { numbers.old ≡ keys_of walk.old.globals }
    ensures typed { Gives (scoped (spec.do_statement (tables.here_of here.now) at
        (spec.stating (tables.here_of here.now) x.now) e.now (inside_of around.now)) walk.old) result walk.new }
    ensures tied { OnOk result (numbers.new ≡ keys_of walk.new.globals) }
{
    open_block(walk)?;
    let x = do_statement(alloc, walk, numbers, here, around, x, e, at)?;
    close_block(walk)?;
    Ok(x)
}

// `do x while ( e ) ;`
#[cycle(statement)]
fn do_statement(
    alloc: Global,
    walk: &mut Walk,
    numbers: &mut GlobalNumbers,
    here: &Tables,
    around: &Around,
    x: &Stmt,
    e: &Expr,
    at: Pos,
) -> Result<Option<Boxed<TStmt>>, OutOfMemory>
    requires { numbers.old ≡ keys_of walk.old.globals }
    ensures typed { Gives (spec.do_statement (tables.here_of here.now) at
        (spec.stating (tables.here_of here.now) x.now) e.now (inside_of around.now) walk.old) result walk.new }
    ensures tied { OnOk result (numbers.new ≡ keys_of walk.new.globals) }
{
    let y = inner(alloc, walk, numbers, here, &around.in_loop(), x)?;
    let c = condition(alloc, walk, here, at, e)?;
    do_of(alloc, at, y, c)
}

// `for` in a scope of its own.
#[cycle(statement)]
fn scoped_for(
    alloc: Global,
    walk: &mut Walk,
    numbers: &mut GlobalNumbers,
    here: &Tables,
    around: &Around,
    h: &ForHead,
    x: &Stmt,
    at: Pos,
) -> Result<Option<Boxed<TStmt>>, OutOfMemory>
    requires { numbers.old ≡ keys_of walk.old.globals }
    ensures typed { Gives (scoped (spec.for_statement
        (tables.here_of here.now) at h.now.start h.now.test h.now.step
        (spec.stating (tables.here_of here.now) x.now) (inside_of around.now)) walk.old) result walk.new }
    ensures tied { OnOk result (numbers.new ≡ keys_of walk.new.globals) }
{
    open_block(walk)?;
    let x = for_statement(alloc, walk, numbers, here, around, h, x, at)?;
    close_block(walk)?;
    Ok(x)
}

// `for ( h ) x`
#[cycle(statement)]
fn for_statement(
    alloc: Global,
    walk: &mut Walk,
    numbers: &mut GlobalNumbers,
    here: &Tables,
    around: &Around,
    h: &ForHead,
    x: &Stmt,
    at: Pos,
) -> Result<Option<Boxed<TStmt>>, OutOfMemory>
    requires { numbers.old ≡ keys_of walk.old.globals }
    ensures typed { Gives (spec.for_statement (tables.here_of here.now) at h.now.start h.now.test h.now.step
        (spec.stating (tables.here_of here.now) x.now) (inside_of around.now) walk.old) result walk.new }
    ensures tied { OnOk result (numbers.new ≡ keys_of walk.new.globals) }
{
    let f = for_start(alloc, walk, numbers, here, h.start.get())?;
    match condition_if(alloc, walk, here, at, h.test.get()) {
        Err(fault) => {
            drop(f);
            Err(fault)
        }
        Ok(c) => match value_if(alloc, walk, here, h.step.get()) {
            Err(fault) => {
                drop(f);
                drop(c);
                Err(fault)
            }
            Ok(n) => match inner(alloc, walk, numbers, here, &around.in_loop(), x) {
                Err(fault) => {
                    drop(f);
                    drop(c);
                    drop(n);
                    Err(fault)
                }
                Ok(y) => for_of(alloc, at, f, c, n, y),
            },
        },
    }
}

// `switch` in a scope of its own.
#[cycle(statement)]
fn scoped_switch(
    alloc: Global,
    walk: &mut Walk,
    numbers: &mut GlobalNumbers,
    here: &Tables,
    around: &Around,
    xs: &List<Stmt>,
    e: &Expr,
    at: Pos,
    to: Pos,
) -> Result<Option<Boxed<TStmt>>, OutOfMemory>
    requires { numbers.old ≡ keys_of walk.old.globals }
    ensures typed { Gives (scoped (spec.switch_statement (tables.here_of here.now) at to e.now
        (map (spec.stating (tables.here_of here.now)) xs.now)
        (inside_of around.now)) walk.old) result walk.new }
    ensures tied { OnOk result (numbers.new ≡ keys_of walk.new.globals) }
{
    open_block(walk)?;
    let x = switch_statement(alloc, walk, numbers, here, around, xs, e, at, to)?;
    close_block(walk)?;
    Ok(x)
}

// `switch ( e ) { xs }`
#[cycle(statement)]
fn switch_statement(
    alloc: Global,
    walk: &mut Walk,
    numbers: &mut GlobalNumbers,
    here: &Tables,
    around: &Around,
    xs: &List<Stmt>,
    e: &Expr,
    at: Pos,
    to: Pos,
) -> Result<Option<Boxed<TStmt>>, OutOfMemory>
    requires { numbers.old ≡ keys_of walk.old.globals }
    ensures typed { Gives (spec.switch_statement (tables.here_of here.now) at to e.now
        (map (spec.stating (tables.here_of here.now)) xs.now) (inside_of around.now) walk.old) result walk.new }
    ensures tied { OnOk result (numbers.new ≡ keys_of walk.new.globals) }
{
    let number = switch_number(alloc, walk, here, at, e)?;
    let within = around.in_switch(&number);
    match scoped_switch_body(alloc, walk, numbers, here, &within, xs) {
        Err(fault) => {
            drop(number);
            Err(fault)
        }
        Ok(all) => switch_of(alloc, at, to, number, all),
    }
}

// The items of a `switch` in a scope of their own.
#[cycle(statement)]
fn scoped_switch_body(
    alloc: Global,
    walk: &mut Walk,
    numbers: &mut GlobalNumbers,
    here: &Tables,
    around: &Around,
    xs: &List<Stmt>,
) -> Result<Option<List<TStmt>>, OutOfMemory>
    requires { numbers.old ≡ keys_of walk.old.globals }
    ensures typed { Gives (scoped (spec.switch_body (map (spec.stating (tables.here_of here.now)) xs.now)
        (inside_of around.now)) walk.old) result walk.new }
    ensures tied { OnOk result (numbers.new ≡ keys_of walk.new.globals) }
{
    open_block(walk)?;
    let all = switch_body(alloc, walk, numbers, here, around, xs)?;
    close_block(walk)?;
    Ok(all)
}

// The items of a `switch`.
#[cycle(statement)]
fn switch_body(
    alloc: Global,
    walk: &mut Walk,
    numbers: &mut GlobalNumbers,
    here: &Tables,
    around: &Around,
    xs: &List<Stmt>,
) -> Result<Option<List<TStmt>>, OutOfMemory>
    requires { numbers.old ≡ keys_of walk.old.globals }
    ensures typed { Gives (spec.switch_body (map (spec.stating (tables.here_of here.now)) xs.now)
        (inside_of around.now) walk.old) result walk.new }
    ensures tied { OnOk result (numbers.new ≡ keys_of walk.new.globals) }
{
    let typed = items(alloc, walk, numbers, here, around, xs)?;
    differ(alloc, walk, typed.as_slice())?;
    all_items(alloc, typed)
}
