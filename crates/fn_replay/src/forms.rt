// The form in which a run is told.

use line_marks::LineMarks;

/// The form in which a run is told.
#[derive(Clone, Copy)]
pub enum Form<'a> {
    /// Text: a line for each event, and one that says how the run ended.
    Text,
    /// JSON, with the places of sources by the line markers of all files, in the order of the files.
    Json(&'a [LineMarks]),
}
