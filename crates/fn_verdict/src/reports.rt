// The reports of a function, and its verdict.

ghost use Rattle.std.specs.Prelude.{◌≡◌, IfOk};
ghost use Rattle.sc_world.specs.Verdict as spec;
ghost use Rattle.sc_gather.specs.Seen as seen;
ghost use Rattle.location_texts.specs.Seen as named;
ghost use Rattle.fn_rows.specs.Parts.{AreParts};

use crate::ambiguous::put_all_ambiguous;
use crate::double::put_doubles;
use crate::inner::put_inners;
use crate::leaks::put_leaks;
use crate::pairs::pairs;
use fn_rows::{Parts, parts_of, summary, touched};
use location_texts::Texts;
use run_questions::Answerer;
use sc_base::{List, OutOfMemory};
use sc_gather::Context;
use std::alloc::Global;
use sum_rows::{Report, Verdict};

// The reports: each kind by location or place.
fn reports<A: Answerer>(
    alloc: Global,
    here: &Context,
    texts: &Texts,
    asks: &mut A,
    parts: &Parts,
    touched: &[u32],
) -> Result<List<Report>, OutOfMemory>
    requires parts { AreParts (seen.source_of here.now) parts.now }
    requires touched { touched.now ≡ spec.touched (seen.source_of here.now) (named.texts texts.now) (A.answers asks.old) }
    ensures reports { IfOk result (λ rs. rs
        ≡ spec.reports (seen.source_of here.now) (named.texts texts.now) (A.answers asks.old)) }
    ensures answers { A.answers asks.new ≡ A.answers asks.old }
{
    let pairs = pairs(alloc, parts)?;
    let mut found = Vec::new(alloc);
    put_doubles(alloc, here, texts, asks, parts, touched, &mut found)?;
    put_all_ambiguous(alloc, texts, asks, pairs.as_slice(), touched, &mut found)?;
    put_inners(alloc, texts, asks, &mut found)?;
    put_leaks(alloc, texts.places, asks, &mut found)?;
    Ok(List::from_vec(found))
}

/// The verdict of the function at hand, made of nothing but answers to questions: its summary and its reports. `texts`
/// has its layout, and `asks` answers questions to its runs.
pub fn verdict<A: Answerer>(
    alloc: Global,
    here: &Context,
    texts: &Texts,
    asks: &mut A,
) -> Result<Verdict, OutOfMemory>
    ensures verdict { IfOk result (λ v. v
        ≡ spec.done_with (seen.source_of here.now) (named.texts texts.now) (A.answers asks.old)) }
    ensures answers { A.answers asks.new ≡ A.answers asks.old }
{
    let parts = parts_of(alloc, here)?;
    let touched = touched(alloc, here, texts, asks)?;
    let summary = summary(alloc, here, texts, asks, &parts, touched.as_slice())?;
    let reports = reports(alloc, here, texts, asks, &parts, touched.as_slice())?;
    Ok(Verdict::Done(summary, reports))
}
