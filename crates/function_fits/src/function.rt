// Whether a function fits its layout.

ghost use Rattle.std.specs.Prelude.{◌≡◌, ◌<◌, ◌^◌, length, true};
ghost use Rattle.run_laws.specs.Fits as laws;
ghost use Rattle.run_laws.specs.Functions.{FunctionFits};
ghost use Rattle.layout_base.specs.Seen as placed;
ghost use Rattle.function_fits.specs.Functions as spec;
ghost use Rattle.function_fits.specs.Laid.{layout_of, source_of};

use crate::calls::may_give;
use crate::laid::Laid;
use crate::statements::statement_fits;
use layout_base::Ground;
use layout_lookup::Lookup;

// Whether its result is an integer, a pointer or nothing.
#[tactic(auto, unfolding(sc_gather::specs::Seen::source_of, sc_world::specs::Programs::source_by))]
fn result_fits(laid: &Laid) -> bool
    ensures { result ≡ laws.may_give (source_of laid.now).result }
{
    match laid.function.function() {
        None => true,
        Some(function) => may_give(&function.result),
    }
}

// Whether its body fits; one that is not taken is empty.
fn body_fits(laid: &Laid) -> bool
    requires few { length (layout_of laid.now).locations < 2 ^ 32 }
    ensures { result ≡ spec.statement_fits (source_of laid.now) (layout_of laid.now) (source_of laid.now).body }
{
    match laid.function.body() {
        None => true,
        Some(body) => statement_fits(laid, body),
    }
}

/// Whether the function at hand fits its layout, so that its runs never meet a value of another type than that of its
/// expression. Each member and each index of an array in it takes time that is linear in the number of locations; all
/// else is linear in its text.
#[tactic(auto, unfolding(layout_base::specs::Seen::ground_of))]
pub fn function_fits<'p, 'm, 'f>(ground: &Ground<'p, 'm, 'f>, layout: &Lookup<'p, 'f>) -> bool
    requires few { length (placed.layout_of layout.now.places.now).locations < 2 ^ 32 }
    ensures exactly { result ≡ spec.function_fits
        (placed.ground_of ground.now).source (placed.layout_of layout.now.places.now) }
    ensures fits { result ≡ true → FunctionFits
        (placed.ground_of ground.now).source (placed.layout_of layout.now.places.now) }
{
    let laid = Laid {
        function: ground.here,
        layout,
    };
    result_fits(&laid) && body_fits(&laid)
}
