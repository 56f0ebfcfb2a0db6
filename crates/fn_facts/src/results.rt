//! What a run gives.

ghost use Rattle.std.specs.Prelude.{◌≡◌, ◌≤◌, true, length, IfOk};
ghost use Rattle.bit_net.specs.Runs.{Grown, Always};
ghost use Rattle.gl_store.specs.Meets.{Meets, val_top};
ghost use Rattle.run_store.specs.Concrete.{Cell};
ghost use Rattle.sc_world.specs.Known as known;
ghost use Rattle.sc_world.specs.Shows as spec;
ghost use Rattle.sc_world.specs.Tree as tree;
ghost use Rattle.sc_world.specs.World as worlds;
ghost use Rattle.run_world.specs.Seen.{env};
ghost use Rattle.fn_facts.specs.Seen as seen;
ghost use Rattle.fn_facts.specs.Showing.{IsTruth, ShowsAtExit};

use crate::around::Around;
use bit_net::{Gate, Net, OutOfMemory};
use bit_words::is_zero;
use gl_sets::{points, points_are_guards};
use gl_store::Val;
use sc_gather::{is_integer, is_pointer};
use sum_rows::Gives;

/// Holds where a value is neither 0 nor null.
#[tactic(auto, using(crate::proofs::Truths::truth_laws))]
pub fn is_true(net: &mut Net, val: &Val) -> Result<Gate, OutOfMemory>
    requires val { val_top val.now ≤ length net.old }
    ensures grown { Grown net.old net.new }
    ensures ok { IfOk result (λ r. IsTruth net.new val.now r.at) }
{
    match val {
        Val::Word(word) => {
            let zero = is_zero(net, word)?;
            net.not(zero)
        }
        Val::Set(set) => {
            points_are_guards();
            let null = points(net, set, 0);
            net.not(null)
        }
        Val::Unit => Ok(net.constant(false)),
    }
}

// Whether the function gives a number or a pointer.
#[tactic(auto, unfolding(run_world::specs::Seen::env, layout_base::specs::Seen::ground_of, sc_gather::specs::Seen::source_of, sc_world::specs::Programs::source_by))]
fn gives_cell(around: &Around) -> bool
    ensures { result ≡ seen.has_bit (env around.now.here).source.result }
{
    match around.here.ground.here.function() {
        None => false,
        Some(function) => is_integer(&function.result) || is_pointer(&function.result),
    }
}

/// Whether the function gives a pointer.
#[tactic(auto, unfolding(run_world::specs::Seen::env, layout_base::specs::Seen::ground_of, sc_gather::specs::Seen::source_of, sc_world::specs::Programs::source_by))]
pub fn gives_pointer(around: &Around) -> bool
    ensures { result ≡ tree.is_pointer (env around.now.here).source.result }
{
    match around.here.ground.here.function() {
        None => false,
        Some(function) => is_pointer(&function.result),
    }
}

// Holds where a function that gives a number or a pointer gives this.
#[tactic(auto, using(crate::proofs::Truths::gift_laws))]
fn gives_such(
    around: &Around,
    net: &mut Net,
    truth: Gate,
    wanted: Gives,
) -> Result<Gate, OutOfMemory>
    requires truth { IsTruth net.old around.now.encoded.now.result truth.at }
    requires cell { seen.has_bit (env around.now.here).source.result ≡ true }
    ensures grown { Grown net.old net.new }
    ensures ok { IfOk result (λ r. ShowsAtExit around.now net.new (λ o. known.same_gives wanted (spec.result o)) r.at) }
{
    let _encoded = around.encoded;
    match wanted {
        Gives::Nothing => Ok(net.constant(false)),
        Gives::Zero => net.not(truth),
        Gives::NotZero => Ok(truth),
    }
}

/// Holds where a run that comes to the function's end gives this. `truth` holds where what it gives is neither 0 nor null.
#[tactic(auto, using(crate::proofs::Truths::gift_laws))]
pub fn gives(
    around: &Around,
    net: &mut Net,
    truth: Gate,
    wanted: Gives,
) -> Result<Gate, OutOfMemory>
    requires truth { IsTruth net.old around.now.encoded.now.result truth.at }
    ensures grown { Grown net.old net.new }
    ensures ok { IfOk result (λ r. ShowsAtExit around.now net.new (λ o. known.same_gives wanted (spec.result o)) r.at) }
{
    if gives_cell(around) {
        gives_such(around, net, truth, wanted)
    } else {
        Ok(net.constant(matches!(wanted, Gives::Nothing)))
    }
}
