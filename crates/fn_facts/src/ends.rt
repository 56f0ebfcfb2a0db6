//! How a run ends.

ghost use Rattle.std.specs.Prelude.{◌≡◌, ◌<◌, ◌≤◌, length, IfOk};
ghost use Rattle.bit_net.specs.Runs.{Grown, Gives};
ghost use Rattle.gate_runs.specs.Stands.{told, gates_top};
ghost use Rattle.sc_world.specs.Shows as spec;
ghost use Rattle.fn_facts.specs.Seen as seen;
ghost use Rattle.fn_facts.specs.Showing.{IsReady, Shows};

use crate::around::{Around, count, is_outer};
use bit_net::{Gate, Net, OutOfMemory};

/// Holds where the run comes to the function's end.
pub fn exits(around: &Around, net: &mut Net) -> Result<Gate, OutOfMemory>
    requires ready { IsReady around.now net.old }
    ensures grown { Grown net.old net.new }
    ensures ok { IfOk result (λ r. Shows around.now net.new spec.exits r.at) }
{
    let exits = net.not(around.encoded.fates.over)?;
    Ok(exits)
}

// The gate with a number; the constant false past the end.
pub(crate) fn gate_or_never(net: &Net, gates: &[Gate], k: u32) -> Gate
    requires { gates_top gates.now ≤ length net.now }
    ensures { Gives net.now result.at (λ choice v. told v gates.now k) }
{
    let k = k as usize;
    if k < gates.len() {
        gates[k]
    } else {
        net.constant(false)
    }
}

// Holds where the run ends by an error at a location, which the caller knows or not.
fn fails_at(around: &Around, net: &Net, at: u32) -> Gate
    requires ready { IsReady around.now net.now }
    ensures { Shows around.now net.now (λ o. seen.fails_at o.ended at) result.at }
{
    gate_or_never(net, around.encoded.fates.bads.as_slice(), at)
}

/// Holds where the run ends by an error at a location, and the caller knows the location.
#[tactic(auto, using(crate::proofs::Ending::no_error_shown))]
pub fn errs_at(around: &Around, net: &Net, at: u32) -> Gate
    requires ready { IsReady around.now net.now }
    ensures { Shows around.now net.now (λ o. spec.errs_at o.ended at) result.at }
{
    if is_outer(around, at) {
        fails_at(around, net, at)
    } else {
        net.constant(false)
    }
}

/// Holds where the run ends by an error at a location that the caller does not know.
#[tactic(auto, using(crate::proofs::Ending::no_inner_shown))]
pub fn ends_at(around: &Around, net: &Net, at: u32) -> Gate
    requires ready { IsReady around.now net.now }
    ensures { Shows around.now net.now (λ o. spec.is_it at (spec.ends_inner o.ended)) result.at }
{
    if is_outer(around, at) {
        net.constant(false)
    } else {
        fails_at(around, net, at)
    }
}

/// Holds where the run ends by an error that the caller knows.
pub fn errs_known(around: &Around, net: &mut Net) -> Result<Gate, OutOfMemory>
    requires ready { IsReady around.now net.old }
    ensures grown { Grown net.old net.new }
    ensures ok { IfOk result (λ r. Shows around.now net.new (λ o. seen.errs_known o.ended) r.at) }
{
    let mut some = net.constant(false);
    for k in 0..count(around) {
        let here = errs_at(around, net, k as u32);
        let more = net.or(some, here)?;
        some = more;
    }
    Ok(some)
}
