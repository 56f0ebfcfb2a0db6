// The functions that an expression calls by name.

ghost use Rattle.std.specs.Prelude.{◌≡◌, true, slice_set};
ghost use Rattle.sc_world.specs.View as view;
ghost use Rattle.sc_gather.specs.Seen as seen;
ghost use Rattle.program_plan.specs.Marks as spec;

use sc_base::List;
use sc_gather::{Context, Effect};
use sc_typed::{TExpr, What};

// Marks a function; a number that no function has is passed over.
fn mark(marks: &mut [bool], function: u32)
    ensures { marks.new ≡ slice_set marks.old function true }
{
    let at = function as usize;
    if at < marks.len() {
        marks[at] = true;
    }
}

fn is_unknown(effect: Effect) -> bool
    ensures { result ≡ spec.is_unknown (seen.meaning effect) }
{
    match effect {
        Effect::Unknown => true,
        Effect::Operation(_) | Effect::Try(_, _) | Effect::Allocate(_) => false,
        Effect::Release | Effect::Ends | Effect::Expect | Effect::Known(_) => false,
    }
}

// Whether a call of `f` means a body, if its name does: a name with a meaning of its own does not. Where no callee
// has a summary, nothing is known of a call exactly where its name has no such meaning.
fn means_body(here: &Context, f: &TExpr) -> bool
    ensures { result ≡ spec.means_body (seen.source_of here.now) (view.exp (seen.source_of here.now).structs f.now) }
{
    let alone = Context {
        kept: &[],
        verdicts: &[],
        ..*here
    };
    is_unknown(alone.effect(f, &[], &f.ctype))
}

// Marks the function that a call of `f` means.
fn called(marks: &mut [bool], here: &Context, f: &TExpr)
    ensures { marks.new ≡ spec.marked marks.old
        (spec.called_if (spec.means_body (seen.source_of here.now) (view.exp (seen.source_of here.now).structs f.now))
        (view.exp (seen.source_of here.now).structs f.now)) }
{
    match &f.what {
        What::Function(_, body) => match body {
            None => {}
            Some(number) => {
                if means_body(here, f) {
                    mark(marks, *number);
                }
            }
        },
        What::Comma(_, _) | What::Binary(_, _, _) | What::Index(_, _) => {}
        What::Assign(_, _, _, _) | What::Cond(_, _, _) => {}
        What::Cast(_) | What::Unary(_, _) | What::Convert(_) => {}
        What::PreInc(_, _) | What::PostInc(_, _) => {}
        What::SizeofExpr(_, _) | What::SizeofType(_) => {}
        What::Call(_, _) | What::Field(_, _, _, _) => {}
        What::Param(_) | What::Local(_) | What::Global(_) | What::Str(_) => {}
        What::Int(_) | What::Char(_) => {}
        What::Temp(_) | What::TempPlace(_) => {}
    }
}

/// Marks the functions that an expression calls by name.
#[cycle(expression)]
pub fn expression(marks: &mut [bool], here: &Context, e: &TExpr)
    ensures { marks.new ≡ spec.mark_exp (seen.source_of here.now)
        (view.exp (seen.source_of here.now).structs e.now) marks.old }
{
    match &e.what {
        What::Comma(a, b) | What::Binary(_, a, b) | What::Index(a, b) => {
            expression(marks, here, a.get());
            expression(marks, here, b.get())
        }
        What::Assign(_, _, a, b) => {
            expression(marks, here, a.get());
            expression(marks, here, b.get())
        }
        What::Cond(a, b, c) => {
            expression(marks, here, a.get());
            expression(marks, here, b.get());
            expression(marks, here, c.get())
        }
        What::Cast(a) | What::Convert(a) => expression(marks, here, a.get()),
        What::Unary(_, a) | What::PreInc(_, a) | What::PostInc(_, a) => {
            expression(marks, here, a.get())
        }
        What::SizeofExpr(a, _) => expression(marks, here, a.get()),
        What::Field(a, _, _, _) => expression(marks, here, a.get()),
        What::Call(f, args) => {
            expression(marks, here, f.get());
            arguments(marks, here, args);
            called(marks, here, f.get())
        }
        What::SizeofType(_) | What::Param(_) | What::Local(_) | What::Global(_) => {}
        What::Function(_, _) | What::Int(_) | What::Char(_) | What::Str(_) => {}
        What::Temp(_) | What::TempPlace(_) => {}
    }
}

// Marks the functions that the arguments of a call call.
#[cycle(expression)]
fn arguments(marks: &mut [bool], here: &Context, args: &List<TExpr>)
    ensures { marks.new ≡ spec.mark_exps (seen.source_of here.now)
        (seen.arguments_of (seen.source_of here.now).structs args.now) marks.old }
{
    for e in args.as_slice() {
        expression(marks, here, e);
    }
}
