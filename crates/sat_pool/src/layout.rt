// Blocks in one list of literals: a header, whose variable is the length of the clause and whose
// sign says whether it was dropped, and then the literals.

ghost use Rattle.std.specs.Prelude.{◌≡◌, ◌+◌, ◌-◌, ◌<◌, ◌≤◌, [], ◌∷◌, ◌++◌, true, false, length, slice_set, vec_capacity, IfOk, OnErr};
ghost use Rattle.sat_pool.specs.Region.{live, IsTable};
ghost use Rattle.sat_pool.specs.Layout.{cell, lits_at, HasBlock, flat, blocks, end_of, live_part, noted};

use sat_base::{Lit, OutOfMemory};

/// Appends a live block with these literals, and gives the place where it begins.
pub fn append_block(list: &mut Vec<Lit>, clause: &[Lit]) -> Result<usize, OutOfMemory>
    ensures ok { IfOk result (λ at. (at ≡ length list.old.items)
        × (list.new.items ≡ list.old.items ++ record { var = length clause.now; neg = false } ∷ clause.now)) }
    ensures err { OnErr result (list.new.items ≡ list.old.items) }
{
    let at = list.len();
    list.push(Lit {
        var: clause.len(),
        neg: false,
    })?;
    match list.extend_from_slice(clause) {
        Ok(()) => Ok(at),
        Err(_) => {
            list.truncate(at);
            Err(OutOfMemory)
        }
    }
}

/// The literals of the block that begins at this place.
pub fn lits_at(list: &[Lit], at: usize) -> &[Lit]
    requires { HasBlock list.now at }
    ensures { result.now ≡ lits_at list.now at }
{
    let len = list[at].var;
    let rest = &list[at + 1..];
    &rest[..len]
}

/// Marks the block that begins at this place as dropped.
pub fn mark_dropped(list: &mut Vec<Lit>, at: usize)
    requires { at < length list.old.items }
    ensures { list.new.items ≡ slice_set list.old.items at (record { var = (cell list.old.items at).var; neg = true }) }
{
    list[at].neg = true;
}

/// Copies the block that begins at this place to the end of the copy, if it is live, and notes where
/// it went. Gives the place where the next block begins.
fn copy_block(list: &[Lit], at: usize, copy: &mut Vec<Lit>, places: &mut Vec<usize>) -> usize
    requires block { HasBlock list.now at }
    requires table { length places.old.items ≡ length list.now }
    requires room { length copy.old.items + (length list.now - at) ≤ vec_capacity copy.old }
    ensures next { result ≡ end_of list.now at }
    ensures copied { copy.new.items ≡ copy.old.items ++ live_part list.now at }
    ensures noted { places.new.items ≡ noted list.now at places.old.items (length copy.old.items) }
    ensures capacity { vec_capacity copy.old ≤ vec_capacity copy.new }
{
    let header = list[at];
    let end = at + 1 + header.var;
    if !header.neg {
        places[at] = copy.len();
        copy.extend_from_slice(&list[at..end]).unwrap();
    }
    end
}

/// Copies the live blocks, in their order, and notes where each of them went.
pub fn copy_live(list: &[Lit], copy: &mut Vec<Lit>, places: &mut Vec<usize>)
    requires whole { flat (blocks list.now) ≡ list.now }
    requires empty { copy.old.items ≡ [] }
    requires room { length list.now ≤ vec_capacity copy.old }
    requires table { length places.old.items ≡ length list.now }
    ensures copied { copy.new.items ≡ flat (live (blocks list.now)) }
    ensures noted { IsTable (blocks list.now) places.new.items }
    ensures table { length places.new.items ≡ length places.old.items }
{
    let mut at = 0;
    while at < list.len() {
        at = copy_block(list, at, copy, places);
    }
}
