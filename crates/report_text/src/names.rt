//! Names, files and places. What the program does not have has no bytes.

ghost use Rattle.std.specs.Prelude.{◌≡◌, ◌++◌, OnOk};
ghost use Rattle.report_text.specs.Names as spec;

use crate::put::{put, put_place};
use sc_base::{NameId, OutOfMemory, Pos};
use sc_typed::{Param, Program};

/// The text of a name.
pub fn name_text(program: &Program, name: NameId) -> &str
    ensures { result.now ≡ spec.name_text program.now name }
{
    if (name.at as usize) < program.names.len() {
        program.names.text(name)
    } else {
        ""
    }
}

/// The name of a file.
pub fn file_text(program: &Program, file: u32) -> &str
    ensures { result.now ≡ spec.file_text program.now file }
{
    match program.files.as_slice().get(file as usize) {
        Some(name) => name_text(program, *name),
        None => "",
    }
}

/// The name of a parameter.
pub fn param_text<'a>(program: &'a Program, params: &[Param], n: u32) -> &'a str
    ensures { result.now ≡ spec.param_text program.now params.now n }
{
    match params.get(n as usize) {
        Some(param) => name_text(program, param.name),
        None => "",
    }
}

/// The name of a global.
pub fn global_text(program: &Program, n: u32) -> &str
    ensures { result.now ≡ spec.global_text program.now n }
{
    match program.globals.as_slice().get(n as usize) {
        Some(global) => name_text(program, global.name),
        None => "",
    }
}

/// Puts the file, the line and the column of a place.
pub(crate) fn put_place_in_file(
    out: &mut Vec<u8>,
    program: &Program,
    at: Pos,
) -> Result<(), OutOfMemory>
    ensures { OnOk result (out.new.items ≡ out.old.items ++ spec.place_in_file program.now at) }
{
    put(out, file_text(program, at.file).as_bytes())?;
    put(out, b":")?;
    put_place(out, at)
}
