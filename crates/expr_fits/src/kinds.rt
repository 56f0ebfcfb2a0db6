//! What the temps of a graph keep.

ghost use Rattle.std.specs.Prelude.{◌≡◌};
ghost use Rattle.run_values.specs.Seen.{want_of};
ghost use Rattle.sc_world.specs.View.{type};
ghost use Rattle.expr_fits.specs.Here as here;
ghost use Rattle.expr_fits.specs.Kept.{kinds_of};

use run_values::Want;
use run_world::same_type;
use sc_tree::ctype::CType;

/// What a temp keeps: a value of a type, or the place of an object of a type.
#[derive(Clone, Copy)]
pub enum Kind<'t> {
    Value(&'t CType),
    Place(&'t CType),
}

/// Whether the temp with that number keeps what is wanted, of that type.
#[tactic(auto, using(crate::proofs::Temps::get_kind))]
pub fn keeps(kinds: &[Kind], number: u32, want: Want, t: &CType) -> bool
    ensures { result ≡ here.keeps (kinds_of kinds.now) number (want_of want) (type t.now) }
{
    match kinds.get(number as usize) {
        None => false,
        Some(Kind::Value(u)) => matches!(want, Want::Value) && same_type(u, t),
        Some(Kind::Place(u)) => matches!(want, Want::Place) && same_type(u, t),
    }
}
