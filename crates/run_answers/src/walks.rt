// Walks over pointer cells from object to object; from one that is freed a walk goes nowhere.

ghost use Rattle.std.specs.Prelude.{◌≡◌, ◌&&◌, not, true, IfOk};
ghost use Rattle.run_store.specs.declared.Flag.TheVariants as flags;
ghost use Rattle.sc_world.specs.Shows as spec;
ghost use Rattle.run_answers.specs.Seen as seen;

use crate::over::{Over, count, has, is_pointer_cell, object_of, root_at, value_now};
use run_store::Flag;
use sc_base::OutOfMemory;
use std::alloc::Global;

/// Whether an object is among these.
pub fn is_among(objects: &[u32], n: u32) -> bool
    ensures { result ≡ spec.is_among objects.now n }
{
    objects.iter().any(|m| n == *m)
}

// Whether it is that object.
fn is_it(n: u32, object: Option<u32>) -> bool
    ensures { result ≡ spec.is_it n object }
{
    match object {
        None => false,
        Some(m) => n == m,
    }
}

// Whether an object is among these, and not freed.
fn may_lead(over: &Over, objects: &[u32], object: u32) -> bool
    ensures { result ≡ (not (spec.has (seen.over over.now) flags.Freed object) && spec.is_among objects.now object) }
{
    !has(over, Flag::Freed, object) && is_among(objects, object)
}

// Whether one of these objects leads to that one by the pointer cell at a location.
#[tactic(auto, unfolding(crate::specs::Seen::leads_at))]
fn leads_at(over: &Over, objects: &[u32], to: u32, at: u32) -> bool
    ensures { result ≡ seen.leads_at (seen.over over.now) objects.now to at }
{
    is_pointer_cell(over, at)
        && (is_it(to, object_of(over, value_now(over, at)))
            && may_lead(over, objects, root_at(over, at)))
}

// Whether one of these objects leads to that one.
#[tactic(auto, using(crate::proofs::Leading::lead_steps))]
fn some_leads(over: &Over, objects: &[u32], to: u32) -> bool
    requires { seen.HasFew over.now }
    ensures { result ≡ seen.some_leads (seen.over over.now) objects.now to }
{
    for k in 0..count(over) {
        if leads_at(over, objects, to, k as u32) {
            return true;
        }
    }
    false
}

// Whether an object is among these, or one of these leads to it.
#[tactic(auto, unfolding(crate::specs::Seen::comes_next))]
fn comes_next(over: &Over, objects: &[u32], n: u32) -> bool
    requires { seen.HasFew over.now }
    ensures { result ≡ seen.comes_next (seen.over over.now) objects.now n }
{
    is_among(objects, n) || some_leads(over, objects, n)
}

// These objects, and those to which one of them leads.
#[tactic(auto, using(crate::proofs::Walked::next_steps))]
fn one_further(alloc: Global, over: &Over, objects: &[u32]) -> Result<Vec<u32>, OutOfMemory>
    requires { seen.HasFew over.now }
    ensures { IfOk result (λ v. v.items ≡ seen.further (seen.over over.now) objects.now) }
{
    let mut next = Vec::new(alloc);
    for k in 0..count(over) {
        let n = k as u32;
        if comes_next(over, objects, n) {
            next.push(n)?;
        }
    }
    Ok(next)
}

// Whether the lists are one.
#[tactic(auto, using(crate::proofs::Walked::same_steps))]
fn is_same(a: &[u32], b: &[u32]) -> bool
    ensures { result ≡ true → a.now ≡ b.now }
{
    if a.len() != b.len() {
        return false;
    }
    for i in 0..a.len() {
        if a[i] != b[i] {
            return false;
        }
    }
    true
}

/// The objects to which walks lead from these, which are among them.
#[tactic(auto, using(crate::proofs::Walked::walk_steps))]
pub fn reached(alloc: Global, over: &Over, from: Vec<u32>) -> Result<Vec<u32>, OutOfMemory>
    requires { seen.HasFew over.now }
    ensures { IfOk result (λ v. v.items ≡ seen.reached (seen.over over.now) from.items) }
{
    let mut objects = from;
    for _ in 0..count(over) {
        let next = one_further(alloc, over, objects.as_slice())?;
        if is_same(next.as_slice(), objects.as_slice()) {
            return Ok(objects);
        }
        objects = next;
    }
    Ok(objects)
}
