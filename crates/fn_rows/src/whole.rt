// The summary of a function.

ghost use Rattle.std.specs.Prelude.{◌≡◌, IfOk};
ghost use Rattle.sc_world.specs.Verdict as spec;
ghost use Rattle.sc_gather.specs.Seen as seen;
ghost use Rattle.location_texts.specs.Seen as named;
ghost use Rattle.fn_rows.specs.Parts.{AreParts};

use crate::items::{put_exit, put_locks, put_outs, put_params};
use crate::params::entry_bits;
use crate::parts::Parts;
use crate::writes::writes;
use location_texts::Texts;
use run_questions::Answerer;
use sc_base::{List, OutOfMemory};
use sc_gather::Context;
use std::alloc::Global;
use sum_rows::{ItemRows, Summary};

// The items: the end first, then locations, then parameters, then the pointers that parameters point to.
fn items<A: Answerer>(
    alloc: Global,
    here: &Context,
    texts: &Texts,
    asks: &mut A,
    parts: &Parts,
    touched: &[u32],
) -> Result<List<ItemRows>, OutOfMemory>
    requires parts { AreParts (seen.source_of here.now) parts.now }
    requires touched { touched.now ≡ spec.touched (seen.source_of here.now) (named.texts texts.now) (A.answers asks.old) }
    ensures items { IfOk result (λ items. items
        ≡ (spec.summary (seen.source_of here.now) (named.texts texts.now) (A.answers asks.old)).items) }
    ensures answers { A.answers asks.new ≡ A.answers asks.old }
{
    let mut found = Vec::new(alloc);
    put_exit(alloc, here, texts, asks, parts, &mut found)?;
    put_locks(alloc, here, texts, asks, parts, touched, &mut found)?;
    put_params(alloc, here, texts, asks, parts, &mut found)?;
    put_outs(alloc, here, texts, asks, parts, &mut found)?;
    Ok(List::from_vec(found))
}

/// The summary of the function at hand, from its answers. `parts` has what its rows are made of, and `touched` the
/// locations that the caller knows and that some run touches.
pub fn summary<A: Answerer>(
    alloc: Global,
    here: &Context,
    texts: &Texts,
    asks: &mut A,
    parts: &Parts,
    touched: &[u32],
) -> Result<Summary, OutOfMemory>
    requires parts { AreParts (seen.source_of here.now) parts.now }
    requires touched { touched.now ≡ spec.touched (seen.source_of here.now) (named.texts texts.now) (A.answers asks.old) }
    ensures summary { IfOk result (λ sum. sum
        ≡ spec.summary (seen.source_of here.now) (named.texts texts.now) (A.answers asks.old)) }
    ensures answers { A.answers asks.new ≡ A.answers asks.old }
{
    let items = items(alloc, here, texts, asks, parts, touched)?;
    let writes = writes(alloc, here, texts, asks)?;
    Ok(Summary {
        bits: entry_bits(here),
        items,
        writes,
    })
}
