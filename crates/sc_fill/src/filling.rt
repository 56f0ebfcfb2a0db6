// Values spread over the parts of an object: which part each value sets (C11 6.7.9, 17 to 21).

ghost use Rattle.std.specs.Prelude.{◌≡◌, ◌∷◌, [], ◌++◌, length, true, IfOk, OnOk};
ghost use Rattle.sc_tree.specs.declared.ctype.CType.{out-CType};
ghost use Rattle.sc_rules.specs.Gives.{Gives};
ghost use Rattle.sc_fill.specs.Filling as spec;

use crate::parts::{is_char_array, is_string, members_given};
use crate::queue::Queue;
use sc_base::{IllTyped, List, OutOfMemory, Pos, Unsupported};
use sc_rules::{Walk, converted, unsupported, value};
use sc_tree::ctype::{CType, Widths};
use sc_typed::{InitStep, TExpr, TInitItem};
use sc_types::same;
use std::alloc::Global;

/// The items that values became, `None` where one has a fault, and the values that are left.
#[derive(Drop)]
pub struct Filling {
    pub items: Option<List<TInitItem>>,
    pub left: Queue<TExpr>,
}

// The items and one more; `None` where one has a fault.
fn with_item(
    way: Option<List<InitStep>>,
    e: Option<TExpr>,
    items: Option<List<TInitItem>>,
) -> Result<Option<List<TInitItem>>, OutOfMemory>
    ensures { IfOk result (λ more. more ≡ spec.with_item way e items) }
{
    match e {
        None => {
            drop(way);
            drop(items);
            Ok(None)
        }
        Some(value) => match items {
            None => {
                drop(way);
                drop(value);
                Ok(None)
            }
            Some(mut items) => {
                items.push(TInitItem { value, way })?;
                Ok(Some(items))
            }
        },
    }
}

// Whether an array of that length has no element with that number.
fn is_full(length: Option<u32>, k: usize) -> bool
    ensures { result ≡ spec.is_full length k }
{
    match length {
        None => false,
        Some(length) => k >= length as usize,
    }
}

// Whether the first value stands for a whole object of that type.
fn is_whole(whole: bool, t: &CType, left: &Queue<TExpr>) -> bool
    ensures { result ≡ spec.is_whole whole t.now (spec.first_of left.now) }
{
    match left.first() {
        None => false,
        Some(e) => whole && same(&e.ctype, t),
    }
}

fn begins_with_string(left: &Queue<TExpr>) -> bool
    ensures { result ≡ spec.begins_with_string (spec.first_of left.now) }
{
    match left.first() {
        None => false,
        Some(e) => is_string(e),
    }
}

// The steps once more.
fn copied(way: &Vec<InitStep>) -> Result<List<InitStep>, OutOfMemory>
    ensures { IfOk result (λ copy. copy ≡ way.now.items) }
{
    let copy = way.clone()?;
    Ok(List::from_vec(copy))
}

// A value as one of a type; `None` where it has a fault.
fn converted_if(
    alloc: Global,
    walk: &mut Walk,
    w: Widths,
    at: Pos,
    t: &CType,
    e: Option<TExpr>,
) -> Result<Option<TExpr>, OutOfMemory>
    ensures { Gives (spec.converted_if w at t.now e walk.old) result walk.new }
{
    match e {
        None => Ok(None),
        Some(e) => converted(alloc, walk, w, IllTyped::Operand, at, t, e),
    }
}

// A value for a scalar to which that way leads.
fn put_value(
    alloc: Global,
    walk: &mut Walk,
    w: Widths,
    at: Pos,
    t: &CType,
    way: &Vec<InitStep>,
    left: Queue<TExpr>,
    items: Option<List<TInitItem>>,
    e: TExpr,
) -> Result<Filling, OutOfMemory>
    ensures { Gives (spec.put_value w at t.now way.now.items left items e walk.old) result walk.new }
{
    match copied(way) {
        Err(fault) => {
            drop(e);
            Err(fault)
        }
        Ok(way) => {
            let e = value(alloc, walk, e)?;
            let e = converted_if(alloc, walk, w, at, t, e)?;
            let items = with_item(Some(way), e, items)?;
            Ok(Filling { items, left })
        }
    }
}

// A scalar takes one value.
fn put(
    alloc: Global,
    walk: &mut Walk,
    w: Widths,
    at: Pos,
    t: &CType,
    way: &Vec<InitStep>,
    filling: Filling,
) -> Result<Filling, OutOfMemory>
    ensures { Gives (spec.put w at t.now way.now.items filling walk.old) result walk.new }
{
    let Filling { items, mut left } = filling;
    match left.pop() {
        None => Ok(Filling { items, left }),
        Some(e) => put_value(alloc, walk, w, at, t, way, left, items, e),
    }
}

// A string for an array of characters is not taken.
fn refused(walk: &mut Walk, at: Pos, filling: Filling) -> Result<Filling, OutOfMemory>
    ensures { Gives (spec.refused at filling walk.old) result walk.new }
{
    let Filling { items, mut left } = filling;
    drop(left.pop());
    let e = unsupported(walk, Unsupported::Init, at);
    let items = with_item(None, e, items)?;
    Ok(Filling { items, left })
}

// The element or member to which that step leads takes values.
#[cycle(fill)]
fn part(
    alloc: Global,
    walk: &mut Walk,
    w: Widths,
    at: Pos,
    deep: u32,
    t: &CType,
    step: InitStep,
    way: &mut Vec<InitStep>,
    filling: Filling,
) -> Result<Filling, OutOfMemory>
    ensures filled { Gives (spec.fill w at deep t.now (way.old.items ++ step ∷ []) true filling walk.old) result walk.new }
    ensures way { OnOk result (way.new.items ≡ way.old.items) }
{
    way.push(step)?;
    let filling = fill(alloc, walk, w, at, deep, t, way, true, filling)?;
    way.pop();
    Ok(filling)
}

// The elements of an array take values, as long as there are any.
#[cycle(fill)]
fn elements(
    alloc: Global,
    walk: &mut Walk,
    w: Widths,
    at: Pos,
    deep: u32,
    t: &CType,
    bound: Option<u32>,
    way: &mut Vec<InitStep>,
    mut filling: Filling,
) -> Result<Filling, OutOfMemory>
    ensures filled { Gives (spec.elements w at (spec.fill w at deep t.now) bound (length filling.left) 0 way.old.items filling walk.old) result walk.new }
    ensures way { OnOk result (way.new.items ≡ way.old.items) }
{
    for k in 0..filling.left.len() {
        if is_full(bound, k) {
            return Ok(filling);
        }
        if k > u32::MAX as usize {
            return Err(OutOfMemory);
        }
        let before = filling.left.len();
        let step = InitStep::Elem(k as u32);
        filling = part(alloc, walk, w, at, deep, t, step, way, filling)?;
        if filling.left.len() == before {
            return Ok(filling);
        }
    }
    Ok(filling)
}

// The members of a struct or union take values.
#[cycle(fill)]
fn members(
    alloc: Global,
    walk: &mut Walk,
    w: Widths,
    at: Pos,
    deep: u32,
    members: &[(u32, CType)],
    way: &mut Vec<InitStep>,
    mut filling: Filling,
) -> Result<Filling, OutOfMemory>
    ensures filled { Gives (spec.members w at (spec.fill w at deep) members.now way.old.items filling walk.old) result walk.new }
    ensures way { OnOk result (way.new.items ≡ way.old.items) }
{
    for (k, t) in members {
        let step = InitStep::Field(*k);
        filling = part(alloc, walk, w, at, deep, t, step, way, filling)?;
    }
    Ok(filling)
}

// An array of that element type takes values.
#[cycle(fill)]
fn fill_array(
    alloc: Global,
    walk: &mut Walk,
    w: Widths,
    at: Pos,
    deep: u32,
    t: &CType,
    element: &CType,
    bound: Option<u32>,
    way: &mut Vec<InitStep>,
    filling: Filling,
) -> Result<Filling, OutOfMemory>
    ensures filled { Gives (spec.fill_array w at (spec.fill w at deep element.now) t.now bound way.old.items filling walk.old) result walk.new }
    ensures way { OnOk result (way.new.items ≡ way.old.items) }
{
    if is_char_array(t) && begins_with_string(&filling.left) {
        refused(walk, at, filling)
    } else {
        elements(alloc, walk, w, at, deep, element, bound, way, filling)
    }
}

// A struct or union takes values.
#[cycle(fill)]
fn fill_struct(
    alloc: Global,
    walk: &mut Walk,
    w: Widths,
    at: Pos,
    deep: u32,
    t: &CType,
    way: &mut Vec<InitStep>,
    whole: bool,
    filling: Filling,
) -> Result<Filling, OutOfMemory>
    ensures filled { Gives (spec.fill_struct w at (spec.fill w at deep) t.now way.old.items whole filling walk.old) result walk.new }
    ensures way { OnOk result (way.new.items ≡ way.old.items) }
{
    if is_whole(whole, t, &filling.left) {
        put(alloc, walk, w, at, t, way, filling)
    } else {
        let given = members_given(alloc, walk.structs.as_slice(), t)?;
        members(alloc, walk, w, at, deep, given.as_slice(), way, filling)
    }
}

// An object takes values by the outermost layer of its type; its parts go no deeper than so many levels.
#[cycle(fill)]
fn fill_layer(
    alloc: Global,
    walk: &mut Walk,
    w: Widths,
    at: Pos,
    deep: u32,
    t: &CType,
    way: &mut Vec<InitStep>,
    whole: bool,
    filling: Filling,
) -> Result<Filling, OutOfMemory>
    ensures filled { Gives (spec.fill_layer w at (spec.fill w at deep) t.now (out-CType t.now) way.old.items whole filling walk.old) result walk.new }
    ensures way { OnOk result (way.new.items ≡ way.old.items) }
{
    match t {
        CType::Array(element, length) => {
            fill_array(
                alloc,
                walk,
                w,
                at,
                deep,
                t,
                element.get(),
                *length,
                way,
                filling,
            )
        }
        CType::Struct(_) | CType::Union(_) => {
            fill_struct(alloc, walk, w, at, deep, t, way, whole, filling)
        }
        CType::Void
        | CType::Bool
        | CType::Int(_)
        | CType::Ptr(_)
        | CType::Func(_)
        | CType::Opaque(_) => put(alloc, walk, w, at, t, way, filling),
    }
}

// An object takes values, no deeper than so many structs and arrays in one another.
#[cycle(fill)]
#[tactic(auto, using(crate::proofs::Deeper::deeper, crate::proofs::Deeper::none_left, crate::proofs::Deeper::none_deep))]
fn fill(
    alloc: Global,
    walk: &mut Walk,
    w: Widths,
    at: Pos,
    deep: u32,
    t: &CType,
    way: &mut Vec<InitStep>,
    whole: bool,
    filling: Filling,
) -> Result<Filling, OutOfMemory>
    ensures filled { Gives (spec.fill w at deep t.now way.old.items whole filling walk.old) result walk.new }
    ensures way { OnOk result (way.new.items ≡ way.old.items) }
{
    if deep == 0 {
        return Ok(filling);
    }
    if filling.left.len() == 0 {
        return Ok(filling);
    }
    fill_layer(alloc, walk, w, at, deep - 1, t, way, whole, filling)
}

// A value beyond the last part is evaluated and sets nothing.
fn put_beyond(
    alloc: Global,
    walk: &mut Walk,
    e: TExpr,
    items: Option<List<TInitItem>>,
) -> Result<Option<List<TInitItem>>, OutOfMemory>
    ensures { Gives (spec.put_beyond e items walk.old) result walk.new }
{
    let e = value(alloc, walk, e)?;
    with_item(None, e, items)
}

// The values beyond the last part.
fn beyond(
    alloc: Global,
    walk: &mut Walk,
    mut left: Queue<TExpr>,
    mut items: Option<List<TInitItem>>,
) -> Result<Option<List<TInitItem>>, OutOfMemory>
    ensures { Gives (spec.beyond left items walk.old) result walk.new }
{
    while let Some(e) = left.pop() {
        items = put_beyond(alloc, walk, e, items)?;
    }
    Ok(items)
}

/// The items that values in braces become for an object of that type, whose name stands at that place; `None` where
/// one has a fault.
pub fn spread(
    alloc: Global,
    walk: &mut Walk,
    w: Widths,
    at: Pos,
    t: &CType,
    values: List<TExpr>,
) -> Result<Option<List<TInitItem>>, OutOfMemory>
    ensures { Gives (spec.spread w at t.now values walk.old) result walk.new }
{
    let begun = Filling {
        items: Some(List::new(alloc)),
        left: Queue::new(values),
    };
    let mut way = Vec::new(alloc);
    let filled = fill(alloc, walk, w, at, 256, t, &mut way, false, begun)?;
    let Filling { items, left } = filled;
    beyond(alloc, walk, left, items)
}
