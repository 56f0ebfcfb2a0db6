//! Questions that need no walks over pointers.

ghost use Rattle.std.specs.Prelude.{◌≡◌, ◌&&◌, ◌<◌, ◌^◌, length, bytes_eq, IfOk};
ghost use Rattle.bit_net.specs.Runs.{Grown};
ghost use Rattle.run_store.specs.declared.Flag.TheVariants as flags;
ghost use Rattle.sc_world.specs.Paths as paths;
ghost use Rattle.sc_world.specs.Shows as spec;
ghost use Rattle.location_texts.specs.Seen as spelled;
ghost use Rattle.fn_facts.specs.Seen as seen;
ghost use Rattle.fn_facts.specs.Showing.{IsReady, Shows};

use crate::around::{Around, count, param_object};
use crate::ends::{ends_at, gate_or_never};
use crate::joining::at_exit;
use crate::marks::has;
use bit_net::{Gate, Net, OutOfMemory};
use location_texts::{Texts, text_at};
use run_store::Flag;
use std::alloc::Global;

/// Holds where the run touches a location, and comes to the function's end or to an error that the caller knows. `OutOfMemory` comes also
/// where there is no location with that number. `known` holds where the run ends by such an error.
pub fn touches(around: &Around, net: &mut Net, known: Gate, at: u32) -> Result<Gate, OutOfMemory>
    requires ready { IsReady around.now net.old }
    requires known { Shows around.now net.old (λ o. seen.errs_known o.ended) known.at }
    ensures grown { Grown net.old net.new }
    ensures ok { IfOk result (λ r. Shows around.now net.new (λ o. spec.is_rowed o.ended && spec.has o flags.Touched at) r.at) }
{
    if at as usize >= count(around) {
        return Err(OutOfMemory);
    }
    let marked = has(around, net, Flag::Touched, at);
    let exits = at_exit(around, net, marked)?;
    let fates = &around.encoded.fates;
    let noted = gate_or_never(net, fates.touched.as_slice(), at);
    let touched = net.and(fates.stopped, noted)?;
    let errs = net.and(known, touched)?;
    let touches = net.or(exits, errs)?;
    Ok(touches)
}

/// Holds where the run comes to the function's end and has written the cell of a location.
pub fn writes(around: &Around, net: &mut Net, at: u32) -> Result<Gate, OutOfMemory>
    requires ready { IsReady around.now net.old }
    ensures grown { Grown net.old net.new }
    ensures ok { IfOk result (λ r. Shows around.now net.new (λ o. spec.exits o && spec.has o flags.Written at) r.at) }
{
    let written = has(around, net, Flag::Written, at);
    at_exit(around, net, written)
}

/// Holds where the run comes to the function's end and has written the pointer that a parameter points to.
pub fn sets(around: &Around, net: &mut Net, n: u32) -> Result<Gate, OutOfMemory>
    requires ready { IsReady around.now net.old }
    ensures grown { Grown net.old net.new }
    ensures ok { IfOk result (λ r. Shows around.now net.new (λ o. spec.exits o && spec.has o flags.Written (spec.param_object o n)) r.at) }
{
    let sets = writes(around, net, param_object(around, n))?;
    Ok(sets)
}

// Whether a location has that text.
fn has_text(alloc: Global, texts: &Texts, at: u32, text: &[u8]) -> Result<bool, OutOfMemory>
    ensures { IfOk result (λ b. b ≡ bytes_eq (paths.text_at (spelled.texts texts.now) at) text.now) }
{
    match text_at(alloc, texts, at) {
        Ok(found) => Ok(found.as_slice() == text),
        Err(_) => Err(OutOfMemory),
    }
}

// Holds where the run ends by an error at a location of that text that the caller does not know.
fn ends_with_text(
    around: &Around,
    texts: &Texts,
    net: &Net,
    at: u32,
    text: &[u8],
) -> Result<Gate, OutOfMemory>
    requires ready { IsReady around.now net.now }
    ensures { IfOk result (λ r. Shows around.now net.now
        (λ o. bytes_eq (paths.text_at (spelled.texts texts.now) at) text.now && spec.is_it at (spec.ends_inner o.ended)) r.at) }
{
    let same = has_text(net.alloc(), texts, at, text)?;
    if same {
        return Ok(ends_at(around, net, at));
    }
    Ok(net.constant(false))
}

/// Holds where the run ends by an error at a location that the caller does not know, and that has this text.
pub fn ends_at_text(
    around: &Around,
    texts: &Texts,
    net: &mut Net,
    text: &[u8],
) -> Result<Gate, OutOfMemory>
    requires ready { IsReady around.now net.old }
    ensures grown { Grown net.old net.new }
    ensures ok { IfOk result (λ r. Shows around.now net.new
        (λ o. spec.text_is (spelled.texts texts.now) text.now (spec.ends_inner o.ended)) r.at) }
{
    let mut some = net.constant(false);
    for k in 0..count(around) {
        let here = ends_with_text(around, texts, net, k as u32, text)?;
        let more = net.or(some, here)?;
        some = more;
    }
    Ok(some)
}
