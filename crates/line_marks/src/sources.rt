//! From which line of which source a line comes.

ghost use Rattle.std.specs.Prelude.{◌≡◌, ◌≤◌, ◌<◌, IfSome, length};
ghost use Rattle.std.specs.Option.{option_copied};
ghost use Rattle.std.specs.List.{AllWithin};
ghost use Rattle.std.specs.List.Sorted.{IsNonDecreasingBy};
ghost use Rattle.line_marks.specs.Sources as spec;

use crate::marks::{LineMarks, Mark};

/// A line of a source. Its name is a lossless copy of the bytes of the marker, which need not be UTF-8.
#[derive(Clone, Copy)]
pub struct Source<'a> {
    pub name: &'a [u8],
    pub line: u64,
}

/// How many marks stand above a line, of marks in the order of their lines.
fn count_above(marks: &[Mark], line: u32) -> usize
    requires { IsNonDecreasingBy (λ m. m.at) marks.now }
    ensures within { result ≤ length marks.now }
    ensures above { AllWithin (λ m. m.at < line) marks.now 0 result }
    ensures below { AllWithin (λ m. line ≤ m.at) marks.now result (length marks.now) }
{
    let mut low = 0;
    let mut high = marks.len();
    while low < high {
        let middle = low + (high - low) / 2;
        if marks[middle].at < u64::from(line) {
            low = middle + 1;
        } else {
            high = middle;
        }
    }
    low
}

/// The last mark above a line, of marks in the order of their lines.
fn mark_above(marks: &[Mark], line: u32) -> Option<&Mark>
    requires { IsNonDecreasingBy (λ m. m.at) marks.now }
    ensures mark { option_copied result ≡ spec.mark_above line marks.now }
    ensures above { IfSome result (λ m. m.now.at < line) }
{
    let count = count_above(marks, line);
    if count == 0 {
        return None;
    }
    Some(&marks[count - 1])
}

impl LineMarks {
    /// The source of a line of the file with that name.
    pub fn source<'a>(&'a self, own: &'a [u8], line: u32) -> Source<'a>
        ensures name { result.name.now ≡ (spec.origin self.now own.now line).name }
        ensures line { result.line ≡ (spec.origin self.now own.now line).line }
    {
        match mark_above(self.marks.as_slice(), line) {
            Some(mark) => Source {
                name: mark.marker.name.as_slice(),
                line: u64::from(mark.marker.line) + (u64::from(line) - (mark.at + 1)),
            },
            None => Source {
                name: own,
                line: u64::from(line),
            },
        }
    }

    /// The name of the file that was preprocessed, of a file with that name.
    pub fn main_name<'a>(&'a self, own: &'a [u8]) -> &'a [u8]
        ensures { result.now ≡ spec.main_name self.now own.now }
    {
        match self.marks.first() {
            Some(mark) => mark.marker.name.as_slice(),
            None => own,
        }
    }
}
