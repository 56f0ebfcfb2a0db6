// Reports of errors at locations that the caller does not know, one for each text.

ghost use Rattle.std.specs.Prelude.{◌≡◌, ◌++◌, [], IfOk, OnOk, bytes_eq, length};
ghost use Rattle.std.specs.List.{list_any, range_with_len};
ghost use Rattle.location_texts.specs.Seen as named;
ghost use Rattle.fn_verdict.specs.Inner as inner;

use fn_rows::numbers;
use location_texts::{Texts, text_at};
use run_questions::{Answerer, Query};
use sc_base::{List, OutOfMemory};
use std::alloc::Global;
use sum_rows::Report;

// Whether that text is among these.
fn has_text(found: &[List<u8>], text: &[u8]) -> bool
    ensures { result ≡ list_any (bytes_eq text.now) found.now }
{
    for other in found {
        if text == other.as_slice() {
            return true;
        }
    }
    false
}

// Puts a text that is not there. There are few: as many as locations at most, of which a function has 256.
fn put_text(found: &mut Vec<List<u8>>, text: List<u8>) -> Result<(), OutOfMemory>
    ensures { OnOk result (found.new.items ≡ inner.with_text text found.old.items) }
{
    if !has_text(found.as_slice(), text.as_slice()) {
        found.push(text)?;
    }
    Ok(())
}

// Puts the text of a location at which some run ends.
fn put_ending<A: Answerer>(
    alloc: Global,
    texts: &Texts,
    asks: &mut A,
    at: u32,
    found: &mut Vec<List<u8>>,
) -> Result<(), OutOfMemory>
    ensures found { OnOk result (found.new.items
        ≡ inner.with_ending (named.texts texts.now) (A.answers asks.old) at found.old.items) }
    ensures answers { A.answers asks.new ≡ A.answers asks.old }
{
    if asks.some(Query::EndsAt(at))? {
        put_text(found, List::from_vec(text_at(alloc, texts, at)?))?;
    }
    Ok(())
}

// The texts of the locations at which some run ends that the caller does not know, each once.
fn endings<A: Answerer>(
    alloc: Global,
    texts: &Texts,
    asks: &mut A,
) -> Result<Vec<List<u8>>, OutOfMemory>
    ensures texts { IfOk result (λ ts. ts.items ≡ inner.endings (named.texts texts.now) (A.answers asks.old) []
        (range_with_len 0 (length (named.texts texts.now).layout.locations))) }
    ensures answers { A.answers asks.new ≡ A.answers asks.old }
{
    let all = numbers(alloc, texts.places.count())?;
    let mut found = Vec::new(alloc);
    for at in &all {
        put_ending(alloc, texts, asks, *at, &mut found)?;
    }
    Ok(found)
}

/// Puts the reports of such errors.
pub(crate) fn put_inners<A: Answerer>(
    alloc: Global,
    texts: &Texts,
    asks: &mut A,
    found: &mut Vec<Report>,
) -> Result<(), OutOfMemory>
    ensures found { OnOk result (found.new.items ≡ found.old.items
        ++ inner.inners (named.texts texts.now) (A.answers asks.old)) }
    ensures answers { A.answers asks.new ≡ A.answers asks.old }
{
    let endings = endings(alloc, texts, asks)?;
    for text in &endings {
        found.push(Report::Inner(asks.shown(Query::Errs(text.as_slice()))?))?;
    }
    Ok(())
}
