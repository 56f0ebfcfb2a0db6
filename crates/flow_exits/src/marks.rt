//! Marks on temps.

ghost use Rattle.std.specs.Prelude.{◌≡◌, ◌<◌, ◌||◌, ℕ, false, length, replicate, IfOk};
ghost use Rattle.flow_exits.specs.Marks as spec;
ghost use Rattle.flow_exits.specs.Exits.{is_that};

use sc_base::OutOfMemory;
use std::alloc::Global;

/// So many temps without a mark.
pub fn unmarked(alloc: Global, count: usize) -> Result<Vec<bool>, OutOfMemory>
    ensures { IfOk result (λ r. r.items ≡ replicate count false) }
{
    let marks = vec![in alloc; false; count]?;
    Ok(marks)
}

/// Whether the temp with that number is marked.
pub fn marked(marks: &[bool], temp: usize) -> bool
    ensures { result ≡ spec.marked marks.now temp }
{
    temp < marks.len() && marks[temp]
}

/// Marks a temp, if one is given.
pub fn mark(marks: &mut [bool], temp: Option<u32>)
    ensures { (m : ℕ) → m < length marks.old → spec.marked marks.new m ≡ (is_that m temp || spec.marked marks.old m) }
{
    if let Some(temp) = temp {
        if (temp as usize) < marks.len() {
            marks[temp as usize] = true;
        }
    }
}
