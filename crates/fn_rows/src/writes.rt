// Cells that a function writes.

ghost use Rattle.std.specs.Prelude.{◌≡◌, IfOk, map};
ghost use Rattle.sc_world.specs.Paths.{Texts as Names};
ghost use Rattle.sc_world.specs.Verdict as spec;
ghost use Rattle.sc_world.specs.Verdict.{Answers};
ghost use Rattle.layout_base.specs.Seen as laid;
ghost use Rattle.sc_gather.specs.Seen as seen;
ghost use Rattle.location_texts.specs.Seen as named;

use crate::listed::written;
use layout_base::{Kind, Location};
use location_texts::{Texts, path_of};
use run_questions::Answerer;
use sc_base::{List, OutOfMemory};
use sc_gather::{Context, integer_bits};
use std::alloc::Global;
use sum_rows::Write;

// The bits of a cell; 0 of a pointer.
#[tactic(auto, unfolding(sc_gather::specs::Seen::source_of, sc_world::specs::Programs::source_by))]
fn width(here: &Context, location: Location) -> u32
    ensures { (x : Names) (q : Answers) → result ≡ spec.width_of (seen.source_of here.now) x q (laid.location_of location.entry).type }
{
    match location.kind {
        Kind::Stub | Kind::Void => 0,
        Kind::Of(t) => integer_bits(here.program.widths, t),
    }
}

fn write_of(alloc: Global, here: &Context, texts: &Texts, at: u32) -> Result<Write, OutOfMemory>
    ensures { (q : Answers) → IfOk result (λ w. w ≡ spec.write_of (seen.source_of here.now) (named.texts texts.now) q at) }
{
    let path = path_of(alloc, texts.places, at)?;
    Ok(Write {
        path,
        width: width(here, texts.places.location(at)),
    })
}

/// The cells that the caller knows and that some run writes.
pub(crate) fn writes<A: Answerer>(
    alloc: Global,
    here: &Context,
    texts: &Texts,
    asks: &mut A,
) -> Result<List<Write>, OutOfMemory>
    ensures writes { IfOk result (λ ws. ws
        ≡ map (spec.write_of (seen.source_of here.now) (named.texts texts.now) (A.answers asks.old))
        (spec.written (seen.source_of here.now) (named.texts texts.now) (A.answers asks.old))) }
    ensures answers { A.answers asks.new ≡ A.answers asks.old }
{
    let written = written(alloc, here, texts, asks)?;
    let mut found = Vec::new(alloc);
    for at in &written {
        found.push(write_of(alloc, here, texts, *at)?)?;
    }
    Ok(List::from_vec(found))
}
