// What the JSON of a check reads beside the verdicts.

use line_marks::LineMarks;
use sc_typed::Program;
use std::alloc::Global;

/// What the JSON of a check reads beside the verdicts.
#[derive(Clone, Copy)]
pub struct Check<'a> {
    pub alloc: Global,
    pub program: &'a Program,
    /// The line marks of each file, in the order of the files. A file that has none here is its own source.
    pub marks: &'a [LineMarks],
    /// How often a loop may turn.
    pub depth: u32,
    /// How far pointers are followed at entry.
    pub reach: u32,
}
