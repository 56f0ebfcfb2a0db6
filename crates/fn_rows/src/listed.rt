// What is listed in a summary: locations and parameters for which some run answers yes.

ghost use Rattle.std.specs.Prelude.{◌≡◌, IfOk};
ghost use Rattle.sc_world.specs.Verdict as spec;
ghost use Rattle.sc_gather.specs.Seen as seen;
ghost use Rattle.location_texts.specs.Seen as named;

use crate::asking::{Listed, those};
use crate::locations::{Which, meant};
use crate::params::{PointsTo, params, pointing};
use location_texts::Texts;
use run_questions::Answerer;
use sc_base::OutOfMemory;
use sc_gather::Context;
use std::alloc::Global;

/// The locations that the caller knows and that some run touches.
pub fn touched<A: Answerer>(
    alloc: Global,
    here: &Context,
    texts: &Texts,
    asks: &mut A,
) -> Result<Vec<u32>, OutOfMemory>
    ensures touched { IfOk result (λ ns. ns.items
        ≡ spec.touched (seen.source_of here.now) (named.texts texts.now) (A.answers asks.old)) }
    ensures answers { A.answers asks.new ≡ A.answers asks.old }
{
    let all = meant(alloc, texts.places, Which::Outer)?;
    let listed = those(alloc, asks, Listed::Touches, all.as_slice())?;
    Ok(listed)
}

/// The cells that the caller knows and that some run writes.
pub(crate) fn written<A: Answerer>(
    alloc: Global,
    here: &Context,
    texts: &Texts,
    asks: &mut A,
) -> Result<Vec<u32>, OutOfMemory>
    ensures written { IfOk result (λ ns. ns.items
        ≡ spec.written (seen.source_of here.now) (named.texts texts.now) (A.answers asks.old)) }
    ensures answers { A.answers asks.new ≡ A.answers asks.old }
{
    let all = meant(alloc, texts.places, Which::OuterCells)?;
    let listed = those(alloc, asks, Listed::Writes, all.as_slice())?;
    Ok(listed)
}

/// The parameters whose objects some run frees or lets escape.
pub(crate) fn changed<A: Answerer>(
    alloc: Global,
    here: &Context,
    texts: &Texts,
    asks: &mut A,
) -> Result<Vec<u32>, OutOfMemory>
    ensures changed { IfOk result (λ ns. ns.items
        ≡ spec.changed (seen.source_of here.now) (named.texts texts.now) (A.answers asks.old)) }
    ensures answers { A.answers asks.new ≡ A.answers asks.old }
{
    let all = pointing(alloc, params(here), PointsTo::Anything)?;
    let listed = those(alloc, asks, Listed::Changes, all.as_slice())?;
    Ok(listed)
}

/// The parameters to whose pointers some run writes.
pub(crate) fn set_params<A: Answerer>(
    alloc: Global,
    here: &Context,
    texts: &Texts,
    asks: &mut A,
) -> Result<Vec<u32>, OutOfMemory>
    ensures set_params { IfOk result (λ ns. ns.items
        ≡ spec.set_params (seen.source_of here.now) (named.texts texts.now) (A.answers asks.old)) }
    ensures answers { A.answers asks.new ≡ A.answers asks.old }
{
    let all = pointing(alloc, params(here), PointsTo::Pointer)?;
    let listed = those(alloc, asks, Listed::Sets, all.as_slice())?;
    Ok(listed)
}
