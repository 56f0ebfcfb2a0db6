// Calls (C11 6.5.2.2), once the callee and the arguments are typed.

ghost use Rattle.std.specs.Prelude.{◌≡◌, IfOk};
ghost use Rattle.sc_rules.specs.Gives.{Gives};
ghost use Rattle.sc_typing.specs.Tables as tables;
ghost use Rattle.sc_typing.specs.Typing as spec;

use crate::Tables;
use sc_base::{List, NameId, OutOfMemory};
use sc_calls::{BuiltinName, builtin_call, call, prototype};
use sc_names::name_means;
use sc_rules::Walk;
use sc_tree::ctype::Signature;
use sc_tree::expr::Place;
use sc_typed::TExpr;
use std::alloc::Global;

/// What is called.
#[derive(Drop)]
pub enum Callee {
    /// A built-in function, by its name.
    Builtin(BuiltinName),
    /// A function or a pointer to one; `None` where there is a fault in it.
    Value(Option<TExpr>),
}

// Whether a name means anything.
pub fn is_declared(walk: &Walk, name: NameId) -> bool
    ensures { spec.is_declared name walk.now ≡ (result, walk.now) }
{
    match name_means(walk, name) {
        None => false,
        Some(_) => true,
    }
}

// The prototype in sight of a name.
fn visible_prototype(
    alloc: Global,
    walk: &Walk,
    name: NameId,
) -> Result<Option<Signature>, OutOfMemory>
    ensures { IfOk result (λ x. spec.visible_prototype name walk.now ≡ (x, walk.now)) }
{
    prototype(alloc, name_means(walk, name))
}

// A call of what is called with these arguments.
pub fn finish_call(
    alloc: Global,
    walk: &mut Walk,
    here: &Tables,
    p: Place,
    f: Callee,
    given: List<Option<TExpr>>,
) -> Result<Option<TExpr>, OutOfMemory>
    ensures { Gives (spec.finish_call (tables.here_of here.now) p f given walk.old) result walk.new }
{
    match f {
        Callee::Value(f) => call(alloc, walk, here.widths(), p, f, given),
        Callee::Builtin(b) => {
            let visible = visible_prototype(alloc, walk, b.name)?;
            builtin_call(alloc, walk, here.widths(), b, visible, p, given)
        }
    }
}
