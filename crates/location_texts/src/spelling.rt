// The text of a location, step by step.

ghost use Rattle.std.specs.Prelude.{◌≡◌, ◌++◌, codes, decimal, IfOk, OnOk};
ghost use Rattle.sc_world.specs.Paths as spec;

use crate::put::{put, put_number};
use sc_base::{NameId, Names, OutOfMemory};
use std::alloc::Global;
use std::marker::Model;
use sum_rows::Step;

/// A text, and where it is that of the target of a pointer also the pointer's text.
#[derive(Drop)]
pub(crate) struct Spelled {
    pub(crate) text: Vec<u8>,
    pub(crate) of_target: Option<Vec<u8>>,
}

impl Model for Spelled {
    ghost use Rattle.std.specs.Prelude.{option_map};
    ghost use Rattle.sc_world.specs.Paths as paths;

    ghost Value = { paths.Spelled };

    ghost view = { λ s. record { text = s.text.items; of_target = option_map (λ t. t.items) s.of_target } };
}

/// A text that is no target's.
pub(crate) fn plain(text: Vec<u8>) -> Spelled
    ensures { result ≡ spec.spelled text.items }
{
    Spelled {
        text,
        of_target: None,
    }
}

/// The text of a name.
pub(crate) fn name_text(names: &Names, name: NameId) -> &[u8]
    ensures { result.now ≡ spec.name_text names.now name }
{
    if (name.at as usize) < names.len() {
        names.text(name).as_bytes()
    } else {
        b""
    }
}

// Puts a text, in round brackets where it begins with `*`.
fn put_bracketed(out: &mut Vec<u8>, text: &[u8]) -> Result<(), OutOfMemory>
    ensures { OnOk result (out.new.items ≡ out.old.items ++ spec.bracketed text.now) }
{
    match text.first() {
        Some(b'*') => {
            put(out, b"(")?;
            put(out, text)?;
            put(out, b")")
        }
        _ => put(out, text),
    }
}

// The text of the member with that name.
fn field_text(alloc: Global, whole: &Spelled, name: &[u8]) -> Result<Vec<u8>, OutOfMemory>
    ensures { IfOk result (λ t. t.items ≡ spec.field_text whole.now.of_target whole.now.text name.now) }
{
    let mut text = Vec::new(alloc);
    match &whole.of_target {
        Some(pointer) => {
            put_bracketed(&mut text, pointer)?;
            put(&mut text, b"->")?;
        }
        None => {
            put_bracketed(&mut text, &whole.text)?;
            put(&mut text, b".")?;
        }
    }
    put(&mut text, name)?;
    Ok(text)
}

// The text of the element with that number.
fn element_text(alloc: Global, whole: &[u8], k: u32) -> Result<Vec<u8>, OutOfMemory>
    ensures { IfOk result (λ t. t.items ≡ spec.bracketed whole.now ++ (codes "[" ++ (decimal k ++ codes "]"))) }
{
    let mut text = Vec::new(alloc);
    put_bracketed(&mut text, whole)?;
    put(&mut text, b"[")?;
    put_number(&mut text, k)?;
    put(&mut text, b"]")?;
    Ok(text)
}

/// The text behind one step more. It copies the text so far.
pub(crate) fn step_text(
    alloc: Global,
    names: &Names,
    step: Step,
    whole: Spelled,
) -> Result<Spelled, OutOfMemory>
    ensures { IfOk result (λ s. s ≡ spec.step_text names.now step whole) }
{
    match step {
        Step::Deref => {
            let mut text = Vec::from_slice(alloc, b"*")?;
            put(&mut text, &whole.text)?;
            Ok(Spelled {
                text,
                of_target: Some(whole.text),
            })
        }
        Step::Field(name) => Ok(plain(field_text(alloc, &whole, name_text(names, name))?)),
        Step::Elem(k) => Ok(plain(element_text(alloc, &whole.text, k)?)),
    }
}
