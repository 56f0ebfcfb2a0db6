// What is told of a run.

use report_text::Ending;
use sum_rows::Event;

/// A run, and how it ended.
#[derive(Clone, Copy)]
pub struct Ran<'r> {
    pub choice: &'r [bool],
    pub events: &'r [Event],
    /// The text of the location of its error; empty where it has none.
    pub location: &'r [u8],
    pub ending: Ending,
}
