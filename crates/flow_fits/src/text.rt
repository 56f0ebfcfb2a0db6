//! The temps that expressions name.

ghost use Rattle.std.specs.Prelude.{◌≡◌};
ghost use Rattle.sc_flow.specs.Seen as seen;
ghost use Rattle.sc_gather.specs.Seen.{arguments_of};
ghost use Rattle.sc_world.specs.View.{exp};
ghost use Rattle.flow_exits.specs.Marks as marking;
ghost use Rattle.flow_fits.specs.Text as spec;

use flow_exits::marked;
use sc_base::List;
use sc_flow::Expression;
use sc_gather::Context;
use sc_typed::{TExpr, What};

// Whether each temp is marked that an expression of the text names.
#[cycle(text)]
fn text_is_marked(marks: &[bool], here: &Context, e: &TExpr) -> bool
    ensures { result ≡ spec.each_named (marking.marked marks.now) (exp (seen.structs_of here.now) e.now) }
{
    match &e.what {
        What::Comma(a, b) | What::Assign(_, _, a, b) => {
            text_is_marked(marks, here, a.get()) && text_is_marked(marks, here, b.get())
        }
        What::Binary(_, a, b) | What::Index(a, b) => {
            text_is_marked(marks, here, a.get()) && text_is_marked(marks, here, b.get())
        }
        What::Cond(a, b, c) => {
            text_is_marked(marks, here, a.get())
                && (text_is_marked(marks, here, b.get()) && text_is_marked(marks, here, c.get()))
        }
        What::Call(f, args) => text_is_marked(marks, here, f.get())
            && all_marked(marks, here, args),
        What::Cast(a) | What::Convert(a) => text_is_marked(marks, here, a.get()),
        What::Unary(_, a) => text_is_marked(marks, here, a.get()),
        What::PreInc(_, a) | What::PostInc(_, a) => text_is_marked(marks, here, a.get()),
        What::SizeofExpr(a, _) | What::Field(a, _, _, _) => text_is_marked(marks, here, a.get()),
        What::SizeofType(_) | What::Param(_) | What::Local(_) | What::Global(_) => true,
        What::Function(_, _) | What::Int(_) | What::Char(_) | What::Str(_) => true,
        What::Temp(n) | What::TempPlace(n) => marked(marks, *n as usize),
    }
}

// Whether each temp is marked that one of the arguments names.
#[cycle(text)]
fn all_marked(marks: &[bool], here: &Context, args: &List<TExpr>) -> bool
    ensures { result ≡ spec.all_named (marking.marked marks.now) (arguments_of (seen.structs_of here.now) args.now) }
{
    for e in args.as_slice() {
        if !text_is_marked(marks, here, e) {
            return false;
        }
    }
    true
}

// Whether each temp is marked that an expression names whose operands are kept in the temps `x` and `y`.
fn over_is_marked(marks: &[bool], here: &Context, e: &TExpr, x: u32, y: u32) -> bool
    ensures { result ≡ spec.each_over (marking.marked marks.now) (exp (seen.structs_of here.now) e.now) x y }
{
    let (x, y) = (x as usize, y as usize);
    match &e.what {
        What::Assign(_, _, _, _) => marked(marks, x) && marked(marks, y),
        What::Binary(_, _, _) => marked(marks, x) && marked(marks, y),
        What::Index(_, _) => marked(marks, x) && marked(marks, y),
        What::Cast(_) | What::Convert(_) => marked(marks, x),
        What::Unary(_, _) => marked(marks, x),
        What::PreInc(_, _) | What::PostInc(_, _) => marked(marks, x),
        What::Field(_, _, _, _) => marked(marks, x),
        What::Comma(_, _) | What::Cond(_, _, _) => text_is_marked(marks, here, e),
        What::Call(_, _) => text_is_marked(marks, here, e),
        What::SizeofExpr(_, _) | What::SizeofType(_) => true,
        What::Param(_) | What::Local(_) | What::Global(_) => true,
        What::Function(_, _) | What::Int(_) | What::Char(_) | What::Str(_) => true,
        What::Temp(n) | What::TempPlace(n) => marked(marks, *n as usize),
    }
}

/// Whether each temp is marked that the expression of a node names.
#[tactic(auto, using(crate::proofs::Named::named_over))]
pub fn names_marked(marks: &[bool], here: &Context, e: &Expression) -> bool
    ensures { result ≡ spec.each_named (marking.marked marks.now) (seen.expression (seen.structs_of here.now) e.now) }
{
    match e {
        Expression::Source(e) => text_is_marked(marks, here, e),
        Expression::Over(e, x, y) => over_is_marked(marks, here, e, *x, *y),
        Expression::Temp(n, _) => marked(marks, *n as usize),
        Expression::TempPlace(n, _) => marked(marks, *n as usize),
        Expression::Former(n, _) => marked(marks, *n as usize),
        Expression::Truth(_, _) => true,
        Expression::Nothing => true,
    }
}
