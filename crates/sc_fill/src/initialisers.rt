// Initialisers of locals on values that have their types (C11 6.7.9).

ghost use Rattle.std.specs.Prelude.{◌≡◌, true, IfOk};
ghost use Rattle.std.specs.Option.{option_copied};
ghost use Rattle.sc_rules.specs.Gives.{Gives};
ghost use Rattle.sc_fill.specs.Initialisers as spec;

use crate::filling::spread;
use crate::parts::is_string;
use sc_base::{IllTyped, List, OutOfMemory, Pos, Unsupported};
use sc_rules::{Walk, converted, unsupported, value};
use sc_tree::ctype::{CType, Widths};
use sc_typed::{InitStep, TExpr, TInit, TInitItem};
use sc_types::is_array;
use std::alloc::Global;

// Whether each value is there.
fn all_there(values: &[Option<TExpr>]) -> bool
    ensures { result ≡ spec.all_there values.now }
{
    values.iter().all(|value| value.is_some())
}

// Those values that are there.
fn those_there(alloc: Global, values: List<Option<TExpr>>) -> Result<List<TExpr>, OutOfMemory>
    ensures { IfOk result (λ present. present ≡ spec.those_there values) }
{
    let mut present = List::new(alloc);
    for value in values.into_vec() {
        if let Some(value) = value {
            present.push(value)?;
        }
    }
    Ok(present)
}

// The value of an expression, if it is there.
fn value_if(alloc: Global, walk: &mut Walk, e: Option<TExpr>) -> Result<Option<TExpr>, OutOfMemory>
    ensures { Gives (spec.value_if e walk.old) result walk.new }
{
    match e {
        None => Ok(None),
        Some(e) => value(alloc, walk, e),
    }
}

// Looks at each value, and makes nothing.
fn each_value(
    alloc: Global,
    walk: &mut Walk,
    values: List<Option<TExpr>>,
) -> Result<Option<TInit>, OutOfMemory>
    ensures { Gives (spec.each_value values walk.old) result walk.new }
{
    for e in values.into_vec() {
        drop(value_if(alloc, walk, e)?);
    }
    Ok(None)
}

fn braces(items: Option<List<TInitItem>>) -> Option<TInit>
    ensures { result ≡ spec.braces items }
{
    match items {
        None => None,
        Some(items) => Some(TInit::Braces(items)),
    }
}

// Values that are all there, for an object of that type.
fn spread_whole(
    alloc: Global,
    walk: &mut Walk,
    w: Widths,
    at: Pos,
    t: &CType,
    values: List<TExpr>,
) -> Result<Option<TInit>, OutOfMemory>
    ensures { Gives (spec.spread_whole w at t.now values walk.old) result walk.new }
{
    let items = spread(alloc, walk, w, at, t, values)?;
    Ok(braces(items))
}

/// The initialiser in braces of a local of that type, whose name stands at that place; a type is `None` where it has no
/// size, and a value where it has a fault. A string for an array of characters is not taken.
#[tactic(auto, using(crate::proofs::Values::whole, crate::proofs::Values::gap))]
pub fn spread_if(
    alloc: Global,
    walk: &mut Walk,
    w: Widths,
    at: Pos,
    t: Option<&CType>,
    values: List<Option<TExpr>>,
) -> Result<Option<TInit>, OutOfMemory>
    ensures { Gives (spec.spread_if w at (option_copied t.entry) values walk.old) result walk.new }
{
    match t {
        None => each_value(alloc, walk, values),
        Some(t) => {
            if all_there(values.as_slice()) {
                let values = those_there(alloc, values)?;
                spread_whole(alloc, walk, w, at, t, values)
            } else {
                each_value(alloc, walk, values)
            }
        }
    }
}

fn is_array_if(t: Option<&CType>) -> bool
    ensures { result ≡ spec.is_array_if (option_copied t.entry) }
{
    match t {
        None => false,
        Some(t) => is_array(t),
    }
}

// A value as one of the type of a local.
fn value_as(
    alloc: Global,
    walk: &mut Walk,
    w: Widths,
    at: Pos,
    t: Option<&CType>,
    e: Option<TExpr>,
) -> Result<Option<TExpr>, OutOfMemory>
    ensures { Gives (spec.value_as w at (option_copied t.entry) e walk.old) result walk.new }
{
    match e {
        None => Ok(None),
        Some(e) => match t {
            None => {
                drop(e);
                Ok(None)
            }
            Some(t) => converted(alloc, walk, w, IllTyped::Operand, at, t, e),
        },
    }
}

/// The value of an initialiser without braces of a local of that type, whose name stands at that place; `None` is a
/// type without size. A string for an array is not taken.
pub fn one_value(
    alloc: Global,
    walk: &mut Walk,
    w: Widths,
    at: Pos,
    t: Option<&CType>,
    e: TExpr,
) -> Result<Option<TExpr>, OutOfMemory>
    ensures { Gives (spec.one_value w at (option_copied t.entry) e walk.old) result walk.new }
{
    if is_string(&e) && is_array_if(t) {
        drop(e);
        Ok(unsupported(walk, Unsupported::Init, at))
    } else {
        let e = value(alloc, walk, e)?;
        value_as(alloc, walk, w, at, t, e)
    }
}

/// The initialiser without braces of that value.
pub fn one(e: Option<TExpr>) -> Option<TInit>
    ensures { result ≡ spec.one e }
{
    match e {
        None => None,
        Some(e) => Some(TInit::One(e)),
    }
}

// One more than the number of the element that a way leads to or through; 0 where it leads to none.
fn index_of(way: &Option<List<InitStep>>) -> u64
    ensures { result ≡ spec.index_of way.now }
{
    match way {
        None => 0,
        Some(way) => match way.as_slice() {
            [] => 0,
            [InitStep::Field(_), ..] => 0,
            [InitStep::Elem(k), ..] => u64::from(*k) + 1,
        },
    }
}

fn greatest(items: &[TInitItem]) -> u64
    ensures { result ≡ spec.greatest items.now }
{
    let mut most = 0;
    for item in items {
        most = most.max(index_of(&item.way));
    }
    most
}

/// The number of elements of an array that its initialiser in braces sets (C11 6.7.9, 22); `None` of any other. One of
/// 2^32 is refused as too much for memory.
pub fn elements_set(init: &Option<TInit>) -> Result<Option<u32>, OutOfMemory>
    ensures { IfOk result (λ count. count ≡ spec.elements_set init.now) }
{
    match init {
        None => Ok(None),
        Some(TInit::One(_)) => Ok(None),
        Some(TInit::Braces(items)) => {
            let count = greatest(items.as_slice());
            if count > u64::from(u32::MAX) {
                return Err(OutOfMemory);
            }
            Ok(Some(count as u32))
        }
    }
}
