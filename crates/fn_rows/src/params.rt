// What is read of a function's parameters.

ghost use Rattle.std.specs.Prelude.{◌≡◌, ◌+◌, ◌<◌, ◌≤◌, ◌++◌, ◌||◌, [], IfOk, OnOk, length};
ghost use Rattle.sc_world.specs.Programs.{types_of};
ghost use Rattle.sc_world.specs.Shows.{entry_params, entry_params_from};
ghost use Rattle.sc_world.specs.Tree as tree;
ghost use Rattle.sc_world.specs.View.{type};
ghost use Rattle.sc_gather.specs.Seen as seen;
ghost use Rattle.fn_rows.specs.Params as spec;

use sc_base::OutOfMemory;
use sc_gather::{Context, is_integer, is_pointer, target};
use sc_tree::ctype::CType;
use sc_typed::Param;
use std::alloc::Global;

/// What a parameter has to point to.
#[derive(Clone, Copy)]
pub(crate) enum PointsTo {
    Anything,
    Pointer,
}

/// The parameters of the function at hand.
#[tactic(auto, unfolding(sc_gather::specs::Seen::source_of, sc_world::specs::Programs::source_by))]
pub(crate) fn params<'p>(here: &Context<'p, '_>) -> &'p [Param]
    ensures { types_of result.now ≡ (seen.source_of here.now).params }
{
    match here.function() {
        None => &[],
        Some(function) => function.params.as_slice(),
    }
}

/// Whether a type is an integer or a pointer.
pub(crate) fn is_scalar(t: &CType) -> bool
    ensures { result ≡ (tree.is_integer (type t.now) || tree.is_pointer (type t.now)) }
{
    is_integer(t) || is_pointer(t)
}

// One more of at most three, if it is an integer or a pointer.
fn counted(n: u8, param: &Param) -> u8
    requires { n ≤ 3 }
    ensures counted { result ≡ spec.counted n (tree.is_integer (type param.now.ctype) || tree.is_pointer (type param.now.ctype)) }
    ensures few { result ≤ 3 }
{
    if n < 3 && is_scalar(&param.ctype) {
        n + 1
    } else {
        n
    }
}

// How many of the first three integers and pointers there are.
#[tactic(auto, using(crate::proofs::Counts::entry_counts))]
fn count_entry(params: &[Param]) -> u8
    ensures bits { result ≡ length (entry_params_from 3 0 (types_of params.now)) }
    ensures few { result ≤ 3 }
{
    let mut n = 0;
    for param in params {
        n = counted(n, param);
    }
    n
}

/// The number of entry bits.
pub(crate) fn entry_bits(here: &Context) -> u8
    ensures bits { result ≡ length (entry_params (seen.source_of here.now)) }
    ensures few { result ≤ 3 }
{
    count_entry(params(here))
}

fn points_to_pointer(t: &CType) -> bool
    ensures { result ≡ tree.is_pointer (tree.target_or_void (type t.now)) }
{
    match target(t) {
        None => false,
        Some(target) => is_pointer(target),
    }
}

fn points(t: &CType, to: PointsTo) -> bool
    ensures { result ≡ spec.points to (type t.now) }
{
    match to {
        PointsTo::Anything => is_pointer(t),
        PointsTo::Pointer => points_to_pointer(t),
    }
}

/// A place in a list as a number of 32 bits. Where it does not fit, that counts as want of memory.
pub(crate) fn number(k: usize) -> Result<u32, OutOfMemory>
    ensures { IfOk result (λ n. n ≡ k) }
{
    match u32::try_from(k) {
        Ok(n) => Ok(n),
        Err(_) => Err(OutOfMemory),
    }
}

// Puts the number of a parameter that points to that.
fn put_param(found: &mut Vec<u32>, to: PointsTo, k: usize, param: &Param) -> Result<(), OutOfMemory>
    ensures { OnOk result (found.new.items ≡ found.old.items ++ spec.number_if (spec.points to (type param.now.ctype)) k) }
{
    if points(&param.ctype, to) {
        found.push(number(k)?)?;
    }
    Ok(())
}

/// The numbers of the parameters that point to that.
pub(crate) fn pointing(
    alloc: Global,
    params: &[Param],
    to: PointsTo,
) -> Result<Vec<u32>, OutOfMemory>
    ensures { IfOk result (λ ns. ns.items ≡ spec.pointing to 0 (types_of params.now)) }
{
    let mut found = Vec::new(alloc);
    for k in 0..params.len() {
        put_param(&mut found, to, k, &params[k])?;
    }
    Ok(found)
}
