// Places: in the file that was read, and in the source.

ghost use Rattle.std.specs.Prelude.{◌≡◌, ◌++◌, OnOk};
ghost use Rattle.json.specs.Tree.{json_tokens};
ghost use Rattle.json_places.specs.Places as spec;

use crate::check::Check;
use json_text::JsonText;
use line_marks::Source;
use report_text::file_text;
use sc_base::{OutOfMemory, Pos};

// The source of a line of the file with that number.
#[tactic(auto, unfolding(line_marks::specs::Sources::mark_above))]
fn source_at<'a>(check: &Check<'a>, file: u32, line: u32) -> Source<'a>
    ensures name { result.name.now ≡ (spec.source_at check.now.program.now check.now.marks.now file line).name }
    ensures line { result.line ≡ (spec.source_at check.now.program.now check.now.marks.now file line).line }
{
    let own = file_text(check.program, file).as_bytes();
    match check.marks.get(file as usize) {
        Some(marks) => marks.source(own, line),
        None => Source {
            name: own,
            line: u64::from(line),
        },
    }
}

/// The source of the file with that number that was read.
pub fn main_source<'a>(check: &Check<'a>, file: u32) -> &'a [u8]
    ensures { result.now ≡ spec.main_source check.now.program.now check.now.marks.now file }
{
    let own = file_text(check.program, file).as_bytes();
    match check.marks.get(file as usize) {
        Some(marks) => marks.main_name(own),
        None => own,
    }
}

// A line of a source.
fn put_source(text: &mut JsonText, source: Source) -> Result<(), OutOfMemory>
    ensures { OnOk result (text.new ≡ text.old
        ++ json_tokens (spec.source_value (record { name = source.entry.name.now; line = source.entry.line }))) }
{
    text.begin_object()?;
    text.bytes_member("file", source.name)?;
    text.count_member("line", source.line)?;
    text.end_object()?;
    Ok(())
}

/// Puts a place.
pub fn put_place(text: &mut JsonText, check: &Check, at: Pos) -> Result<(), OutOfMemory>
    ensures { OnOk result (text.new ≡ text.old
        ++ json_tokens (spec.place_value check.now.program.now check.now.marks.now at)) }
{
    text.begin_object()?;
    text.word_member("file", file_text(check.program, at.file))?;
    text.count_member("line", u64::from(at.line))?;
    text.count_member("column", u64::from(at.col))?;
    text.key("source")?;
    put_source(text, source_at(check, at.file, at.line))?;
    text.end_object()?;
    Ok(())
}

/// Whether a place stands in another source than that of its file.
#[tactic(auto, unfolding(crate::specs::Places::is_in_header))]
pub fn is_in_header(check: &Check, at: Pos) -> bool
    ensures { result ≡ spec.is_in_header check.now.program.now check.now.marks.now at }
{
    source_at(check, at.file, at.line).name != main_source(check, at.file)
}
