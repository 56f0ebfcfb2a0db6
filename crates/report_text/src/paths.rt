//! The text of a path.

ghost use Rattle.std.specs.Prelude.{◌≡◌, ◌++◌, IfOk, OnOk, option_map};
ghost use Rattle.sc_world.specs.Paths.{bracketed, field_text, step_text};
ghost use Rattle.report_text.specs.Names as names;
ghost use Rattle.report_text.specs.Paths as spec;

use crate::names::{global_text, name_text, param_text};
use crate::put::{put, put_number};
use sc_base::OutOfMemory;
use sc_typed::{Param, Program};
use std::alloc::Global;
use std::marker::Model;
use sum_rows::{Path, Root, Step};

/// A text so far, and where it is that of the target of a pointer also the pointer's text.
///
/// A step copies the text so far. A path has few steps: no more than pointers are followed and structs are nested.
#[derive(Drop)]
struct Spelled {
    text: Vec<u8>,
    of_target: Option<Vec<u8>>,
}

impl Model for Spelled {
    ghost use Rattle.std.specs.Prelude.{option_map};
    ghost use Rattle.sc_world.specs.Paths as paths;

    ghost Value = { paths.Spelled };

    ghost view = { λ s. record { text = s.text.items; of_target = option_map (λ t. t.items) s.of_target } };
}

/// Puts a text, in round brackets where it begins with `*`.
fn put_bracketed(out: &mut Vec<u8>, text: &[u8]) -> Result<(), OutOfMemory>
    ensures { OnOk result (out.new.items ≡ out.old.items ++ bracketed text.now) }
{
    match text.first() {
        Some(b'*') => {
            put(out, b"(")?;
            put(out, text)?;
            put(out, b")")
        }
        _ => put(out, text),
    }
}

/// The member with that name of what is spelled so far.
fn field(alloc: Global, spelled: &Spelled, name: &str) -> Result<Vec<u8>, OutOfMemory>
    ensures { IfOk result (λ t. t.items ≡ field_text spelled.now.of_target spelled.now.text name.now) }
{
    let mut text = Vec::new(alloc);
    match &spelled.of_target {
        Some(pointer) => {
            put_bracketed(&mut text, pointer)?;
            put(&mut text, b"->")?;
        }
        None => {
            put_bracketed(&mut text, &spelled.text)?;
            put(&mut text, b".")?;
        }
    }
    put(&mut text, name.as_bytes())?;
    Ok(text)
}

/// The text behind one step more.
fn after_step(
    alloc: Global,
    program: &Program,
    spelled: Spelled,
    step: Step,
) -> Result<Spelled, OutOfMemory>
    ensures { IfOk result (λ s. s ≡ step_text program.now.names step spelled) }
{
    match step {
        Step::Deref => {
            let mut text = Vec::from_slice(alloc, b"*")?;
            put(&mut text, &spelled.text)?;
            Ok(Spelled {
                text,
                of_target: Some(spelled.text),
            })
        }
        Step::Field(name) => Ok(Spelled {
            text: field(alloc, &spelled, name_text(program, name))?,
            of_target: None,
        }),
        Step::Elem(k) => {
            let mut text = Vec::new(alloc);
            put_bracketed(&mut text, &spelled.text)?;
            put(&mut text, b"[")?;
            put_number(&mut text, k)?;
            put(&mut text, b"]")?;
            Ok(Spelled {
                text,
                of_target: None,
            })
        }
    }
}

/// The name of a root.
fn root_text<'a>(program: &'a Program, params: &[Param], root: Root) -> &'a str
    ensures { result.now ≡ spec.root_text program.now params.now root }
{
    match root {
        Root::Param(n) => param_text(program, params, n),
        Root::Global(n) => global_text(program, n),
    }
}

/// Puts the text of a path that begins at one of these parameters, or at a global.
pub fn put_path(
    out: &mut Vec<u8>,
    alloc: Global,
    program: &Program,
    params: &[Param],
    path: &Path,
) -> Result<(), OutOfMemory>
    ensures { OnOk result (out.new.items ≡ out.old.items ++ spec.path_text program.now params.now path.now) }
{
    let mut spelled = Spelled {
        text: Vec::from_slice(alloc, root_text(program, params, path.root).as_bytes())?,
        of_target: None,
    };
    for step in path.steps.as_slice() {
        spelled = after_step(alloc, program, spelled, *step)?;
    }
    put(out, &spelled.text)
}
