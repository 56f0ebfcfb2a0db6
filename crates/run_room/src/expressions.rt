// The room of expressions: each call in one may add two events, and keeps its arguments until it is made.

ghost use Rattle.std.specs.Prelude.{◌≡◌, ◌+◌, IfOk};
ghost use Rattle.sc_world.specs.Tree as tree;
ghost use Rattle.sc_world.specs.Exec as exec;
ghost use Rattle.sc_world.specs.View as view;
ghost use Rattle.sc_world.specs.View.{exp, exp_if};
ghost use Rattle.run_world.specs.Seen as seen;
ghost use Rattle.run_exprs.specs.Room.{room, room_all};
ghost use Rattle.run_exprs.specs.Seen.{arguments_of};
ghost use Rattle.run_room.specs.Room as spec;

use crate::sums::plus;
use run_world::Here;
use sc_base::{List, OutOfMemory};
use sc_gather::{is_integer, is_pointer};
use sc_tree::ctype::CType;
use sc_typed::{TExpr, What};

// The type of an expression.
#[tactic(auto, unfolding(run_world::specs::Seen::env, layout_base::specs::Seen::ground_of))]
fn type_of<'e>(here: &Here, e: &'e TExpr) -> &'e CType
    ensures { view.type result.now ≡ tree.type_of (exp (seen.env here.now).source.structs e.now) }
{
    here.ground.here.type_of(e)
}

/// Whether a value of the expression's type has one cell: it is an integer or a pointer.
pub fn is_scalar(here: &Here, e: &TExpr) -> bool
    ensures { result ≡ exec.is_scalar (tree.type_of (exp (seen.env here.now).source.structs e.now)) }
{
    let t = type_of(here, e);
    is_integer(t) || is_pointer(t)
}

/// The room of an expression.
#[cycle(expression)]
pub fn expression(here: &Here, e: &TExpr) -> Result<usize, OutOfMemory>
    ensures { IfOk result (λ n. n ≡ room (exp (seen.env here.now).source.structs e.now)) }
{
    match &e.what {
        What::Comma(a, b) => plus(expression(here, a.get())?, expression(here, b.get())?),
        What::Assign(_, _, a, b) => plus(expression(here, a.get())?, expression(here, b.get())?),
        What::Cond(a, b, c) => {
            let test = expression(here, a.get())?;
            let arms = plus(expression(here, b.get())?, expression(here, c.get())?)?;
            plus(test, arms)
        }
        What::Binary(_, a, b) => plus(expression(here, a.get())?, expression(here, b.get())?),
        What::Cast(a) | What::Convert(a) => expression(here, a.get()),
        What::Unary(_, a) => expression(here, a.get()),
        What::PreInc(_, a) | What::PostInc(_, a) => expression(here, a.get()),
        What::SizeofExpr(_, _) | What::SizeofType(_) => Ok(0),
        What::Index(a, b) => plus(expression(here, a.get())?, expression(here, b.get())?),
        What::Call(f, args) => {
            let callee = expression(here, f.get())?;
            let arguments = plus(expressions(here, args)?, 2)?;
            plus(callee, arguments)
        }
        What::Field(a, _, _, _) => expression(here, a.get()),
        What::Param(_) | What::Local(_) | What::Global(_) => Ok(0),
        What::Function(_, _) | What::Int(_) | What::Char(_) | What::Str(_) => Ok(0),
        What::Temp(_) | What::TempPlace(_) => Ok(0),
    }
}

// The room of arguments.
#[cycle(expression)]
fn expressions(here: &Here, args: &List<TExpr>) -> Result<usize, OutOfMemory>
    ensures { IfOk result (λ n. n ≡ room_all (arguments_of (seen.env here.now).source.structs args.now)) }
{
    let mut all = 0;
    for e in args.as_slice() {
        all = plus(all, plus(expression(here, e)?, 1)?)?;
    }
    Ok(all)
}

/// The room of an expression that may be left out.
pub fn expression_if(here: &Here, e: &Option<TExpr>) -> Result<usize, OutOfMemory>
    ensures { IfOk result (λ n. n ≡ spec.room_if (exp_if (seen.env here.now).source.structs e.now)) }
{
    match e {
        None => Ok(0),
        Some(e) => expression(here, e),
    }
}
