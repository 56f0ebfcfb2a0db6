// Texts of locations.

ghost use Rattle.std.specs.Prelude.{◌≡◌, ◌++◌, IfOk, codes, map, slice_index_or};
ghost use Rattle.sc_world.specs.Paths as spec;
ghost use Rattle.program_verdicts.specs.Verdicts.{names_of};
ghost use Rattle.layout_base.specs.Seen as laid;
ghost use Rattle.location_texts.specs.Seen as seen;

use crate::origins::{call_pos, origin_at};
use crate::put::{put, put_place};
use crate::spelling::{Spelled, name_text, plain, step_text};
use layout_base::Places;
use sc_base::{NameId, Names, OutOfMemory};
use sc_typed::{Function, Global as Variable, Param, Program};
use sc_world::Origin;
use std::alloc::Global;
use sum_rows::Step;

/// What the texts of a function's locations read: the names of the program, those of the function, and its layout.
#[derive(Clone, Copy)]
pub struct Texts<'p, 'f> {
    pub program: &'p Program,
    pub function: &'p Function,
    pub places: &'f Places<'p>,
}

// The name of the parameter or local with that number; the first name of the program where it has none.
fn name_at(params: &[Param], n: u32) -> NameId
    ensures { result ≡ slice_index_or (names_of params.now) n (record { at = 0 }) }
{
    match params.get(n as usize) {
        None => NameId { at: 0 },
        Some(param) => param.name,
    }
}

// The name of the global with that number.
fn global_name(globals: &[Variable], n: u32) -> NameId
    ensures { result ≡ slice_index_or (map (λ g. g.name) globals.now) n (record { at = 0 }) }
{
    match globals.get(n as usize) {
        None => NameId { at: 0 },
        Some(global) => global.name,
    }
}

// The name as a text.
fn named(alloc: Global, names: &Names, name: NameId) -> Result<Spelled, OutOfMemory>
    ensures { IfOk result (λ s. s ≡ spec.spelled (spec.name_text names.now name)) }
{
    Ok(plain(Vec::from_slice(alloc, name_text(names, name))?))
}

// The text of an object that a call gives.
fn call_text(alloc: Global, places: &Places, occurrence: u32) -> Result<Vec<u8>, OutOfMemory>
    ensures { IfOk result (λ t. t.items
        ≡ codes "call@" ++ spec.place_text (spec.site_of (laid.layout_of places.now) occurrence).pos) }
{
    let mut text = Vec::new(alloc);
    put(&mut text, b"call@")?;
    put_place(&mut text, call_pos(places, occurrence))?;
    Ok(text)
}

// The text of a location that is not reached from another one.
fn begun(alloc: Global, texts: &Texts, origin: Origin) -> Result<Spelled, OutOfMemory>
    ensures { IfOk result (λ s. s ≡ seen.begun (seen.texts texts.now) origin) }
{
    let names = &texts.program.names;
    match origin {
        Origin::Param(n) => named(alloc, names, name_at(texts.function.params.as_slice(), n)),
        Origin::Global(n) => named(
            alloc,
            names,
            global_name(texts.program.globals.as_slice(), n),
        ),
        Origin::Local(n) => named(alloc, names, name_at(texts.function.locals.as_slice(), n)),
        Origin::Call(k) => Ok(plain(call_text(alloc, texts.places, k)?)),
        Origin::Literal(_) | Origin::Function(_) | Origin::Target(_) | Origin::Part(_, _) => Ok(
            plain(Vec::new(alloc)),
        ),
    }
}

// The text of a location, upward over so many locations at most.
#[tactic(auto, using(crate::proofs::Steps::spelled_steps))]
fn spelled_by(alloc: Global, texts: &Texts, most: usize, at: u32) -> Result<Spelled, OutOfMemory>
    ensures { IfOk result (λ s. s ≡ spec.spelled_by most (seen.texts texts.now) at) }
{
    if most == 0 {
        return Ok(plain(Vec::new(alloc)));
    }
    let names = &texts.program.names;
    let origin = origin_at(texts.places, at);
    match origin {
        Origin::Target(up) => {
            let whole = spelled_by(alloc, texts, most - 1, up)?;
            step_text(alloc, names, Step::Deref, whole)
        }
        Origin::Part(up, step) => {
            let whole = spelled_by(alloc, texts, most - 1, up)?;
            step_text(alloc, names, step, whole)
        }
        Origin::Param(_)
        | Origin::Global(_)
        | Origin::Local(_)
        | Origin::Literal(_)
        | Origin::Function(_)
        | Origin::Call(_) => begun(alloc, texts, origin),
    }
}

/// The text of a location.
pub fn text_at(alloc: Global, texts: &Texts, at: u32) -> Result<Vec<u8>, OutOfMemory>
    ensures { IfOk result (λ t. t.items ≡ spec.text_at (seen.texts texts.now) at) }
{
    let whole = spelled_by(alloc, texts, texts.places.count(), at)?;
    Ok(whole.text)
}
