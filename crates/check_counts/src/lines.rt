// The seven lines.

ghost use Rattle.std.specs.Prelude.{◌≡◌, ◌++◌, IfOk, OnOk};
ghost use Rattle.check_counts.specs.Counts as spec;

use crate::counts::Counts;
use sc_base::OutOfMemory;
use std::alloc::Global;

// Puts the line of a count.
#[tactic(auto, unfolding(crate::specs::Counts::line))]
fn put_line(alloc: Global, out: &mut Vec<u8>, word: &str, n: usize) -> Result<(), OutOfMemory>
    ensures { OnOk result (out.new.items ≡ out.old.items ++ spec.line word.now n) }
{
    let line = format!(in alloc; "{word} {n}\n")?;
    out.extend_from_slice(line.as_bytes())?;
    Ok(())
}

/// The seven lines of these counts.
///
/// # Errors
///
/// `OutOfMemory` where memory is refused.
#[tactic(auto, unfolding(crate::specs::Counts::counts_text))]
pub fn text(alloc: Global, counts: &Counts) -> Result<Vec<u8>, OutOfMemory>
    ensures { IfOk result (λ t. t.items ≡ spec.counts_text counts.now) }
{
    let mut out = Vec::new(alloc);
    put_line(alloc, &mut out, "functions", counts.functions)?;
    put_line(alloc, &mut out, "skipped", counts.skipped)?;
    put_line(alloc, &mut out, "rows", counts.rows)?;
    put_line(alloc, &mut out, "double", counts.reports.double)?;
    put_line(alloc, &mut out, "ambiguous", counts.reports.ambiguous)?;
    put_line(alloc, &mut out, "inner", counts.reports.inner)?;
    put_line(alloc, &mut out, "leak", counts.reports.leak)?;
    Ok(out)
}
