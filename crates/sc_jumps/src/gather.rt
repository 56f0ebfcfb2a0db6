// The walk over a body that finds its labels and jumps. It holds the steps to the statement at hand.

ghost use Rattle.std.specs.Prelude.{◌≡◌, [], ◌∷◌, ◌++◌, map, OnOk, IfOk};
ghost use Rattle.sc_jumps.specs.Jumps as spec;

use crate::{Inward, Jumps};
use sc_base::OutOfMemory;
use sc_tree::stmt::Stmt;
use std::alloc::Global;

/// The labels and jumps of a body.
pub fn jumps_of_body(alloc: Global, body: &Stmt) -> Result<Jumps, OutOfMemory>
    ensures { IfOk result (λ found. found ≡ spec.jumps body.now) }
{
    let mut found = Jumps::new(alloc);
    let mut way = Vec::new(alloc);
    statement(&mut found, &mut way, body)?;
    Ok(found)
}

#[cycle(statement)]
fn statement(found: &mut Jumps, way: &mut Vec<Inward>, s: &Stmt) -> Result<(), OutOfMemory>
    ensures found { OnOk result (found.new ≡ spec.gathering s.now way.old.items found.old) }
    ensures way { OnOk result (way.new.items ≡ way.old.items) }
{
    match s {
        Stmt::Block(xs, _, _) => items(found, way, xs.as_slice()),
        Stmt::If(_, x, y, _) => {
            inside(found, way, Inward::Part(0), x.get())?;
            match y {
                None => Ok(()),
                Some(y) => inside(found, way, Inward::Part(1), y.get()),
            }
        }
        Stmt::While(_, x, _) => inside(found, way, Inward::Part(0), x.get()),
        Stmt::Do(x, _, _) => inside(found, way, Inward::Part(0), x.get()),
        Stmt::For(_, x, _) => inside(found, way, Inward::Part(0), x.get()),
        Stmt::Switch(_, xs, _, _) => items(found, way, xs.get().as_slice()),
        Stmt::Goto(name, pos) => found.add_goto(*name, *pos, way),
        Stmt::Label(name, x, pos) => {
            found.add_label(*name, *pos, way)?;
            statement(found, way, x.get())
        }
        Stmt::Decl(_, _)
        | Stmt::Expr(_, _)
        | Stmt::Case(_, _)
        | Stmt::Default(_)
        | Stmt::Break(_)
        | Stmt::Continue(_)
        | Stmt::Return(_, _) => Ok(()),
    }
}

// The items of a block or a `switch`.
#[cycle(statement)]
fn items(found: &mut Jumps, way: &mut Vec<Inward>, xs: &[Stmt]) -> Result<(), OutOfMemory>
    ensures found { OnOk result (found.new ≡ spec.items_from 0 (map spec.gathering xs.now) way.old.items found.old) }
    ensures way { OnOk result (way.new.items ≡ way.old.items) }
{
    for n in 0..xs.len() {
        inside(found, way, Inward::Item(n), &xs[n])?;
    }
    Ok(())
}

// A statement one step further in.
#[cycle(statement)]
fn inside(
    found: &mut Jumps,
    way: &mut Vec<Inward>,
    step: Inward,
    s: &Stmt,
) -> Result<(), OutOfMemory>
    ensures found { OnOk result (found.new ≡ spec.gathering s.now (way.old.items ++ step ∷ []) found.old) }
    ensures way { OnOk result (way.new.items ≡ way.old.items) }
{
    way.push(step)?;
    statement(found, way, s)?;
    way.pop();
    Ok(())
}
