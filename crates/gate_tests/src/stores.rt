//! Worked stores: one cell that is marked; three cells and two pointers over all choices of four inputs, beside a store by hand; and
//! what a caller's proof looks like after a read, a write and a merge.
ghost use Rattle.std.specs.Prelude.{◌≡◌, ℕ, ◌<◌, ◌≤◌, List, ◌∷◌, [], length, IfOk, OnOk, if◌then◌else◌};
ghost use Rattle.bit_net.specs.Circuit.{input_count};
ghost use Rattle.bit_net.specs.Runs.{Grown, Always};
ghost use Rattle.bit_words.specs.Number.{top};
ghost use Rattle.gl_sets.specs.Guards.{Points, guards_top};
ghost use Rattle.run_store.specs.Concrete.{Place, Numbers, Pointers, load, write};
ghost use Rattle.gl_store.specs.Meets.{MeetsAll, val_top, locations_top, kinds};

use crate::values::{are_values, value};
use bit_net::{Gate, Net, OutOfMemory};
use bit_words::{Word, constant};
use gl_sets::{Set, join};
use gl_store::{Flag, Shape, Store, Val, merge};
use std::alloc::Global;

/// The bits of a number.
fn word(net: &Net, width: usize, number: u64) -> Result<Vec<Gate>, OutOfMemory>
    ensures { IfOk result (λ r. top r.items ≤ length net.now) }
{
    let word = constant(net, number, width)?;
    Ok(word.bits)
}

/// The number that a word spells; none of another value.
fn number(net: &Net, choice: &[bool], val: &Val) -> Option<u64>
    requires { length choice.now ≡ input_count net.now }
{
    match val {
        Val::Word(word) => {
            let mut number = 0u64;
            for bit in &word.bits {
                number = (number << 1) | u64::from(value(net, choice, *bit)?);
            }
            Some(number)
        }
        _ => None,
    }
}

fn is_marked(alloc: Global) -> Result<bool, OutOfMemory> {
    let mut net = Net::new(alloc, 1)?;
    let shape = Shape {
        cells: [8].to_vec(alloc)?,
    };
    let mut store = Store::new(&mut net, &shape)?;
    let input = net.input(0);
    store.mark(&mut net, input, 0, Flag::Freed)?;
    let freed = store.flag(0, Flag::Freed);
    let escaped = store.flag(0, Flag::Escaped);
    let holds = are_values(&net, &[true], &[(freed, true), (escaped, false)]);
    Ok(holds && are_values(&net, &[false], &[(freed, false)]))
}

#[test]
fn marks_where_the_input_holds(rt: HostRuntime) {
    assert!(rt; is_marked(rt.alloc()) == Ok(true));
}

/// A store of a number and a pointer.
fn number_and_pointer(alloc: Global, net: &mut Net) -> Result<Store, OutOfMemory>
    ensures same { net.new ≡ net.old }
    ensures below { IfOk result (λ r. locations_top r.locations.items ≤ length net.new) }
{
    let shape = Shape {
        cells: [8, 255].to_vec(alloc)?,
    };
    Store::new(net, &shape)
}

/// Marks the first location where the input holds.
fn mark_first(net: &mut Net, store: &mut Store) -> Result<(), OutOfMemory>
    requires inputs { input_count net.old ≡ 1 }
    requires store { locations_top store.old.locations.items ≤ length net.old }
    ensures grown { Grown net.old net.new }
    ensures below { OnOk result (locations_top store.new.locations.items ≤ length net.new) }
{
    let input = net.input(0);
    let pointer = join(net, input, &Set::one(net, 1), &Set::one(net, 0))?;
    let always = net.constant(true);
    store.mark_where(net, always, &pointer, Flag::Freed)
}

/// Whether the first location is marked where the input holds, and no other one.
fn first_is_marked(net: &Net, store: &Store) -> bool
    requires inputs { input_count net.now ≡ 1 }
    requires store { locations_top store.now.locations.items ≤ length net.now }
{
    store.flag_anywhere(net, 0, Flag::Freed) == net.input(0)
        && store.flag_anywhere(net, 1, Flag::Freed) == net.constant(false)
        && store.flag_anywhere(net, 2, Flag::Freed) == net.constant(false)
}

fn is_marked_where_it_leads(alloc: Global) -> Result<bool, OutOfMemory> {
    let mut net = Net::new(alloc, 1)?;
    let mut store = number_and_pointer(alloc, &mut net)?;
    mark_first(&mut net, &mut store)?;
    let same = store.try_clone(&net)?;
    Ok(first_is_marked(&net, &same))
}

#[test]
fn marks_where_the_pointer_leads(rt: HostRuntime) {
    assert!(rt; is_marked_where_it_leads(rt.alloc()) == Ok(true));
}

/// A store of three cells of 8 bits, at targets 1 to 3, and of two pointers, at targets 4 and 5.
fn cells_and_pointers(alloc: Global, net: &mut Net) -> Result<Store, OutOfMemory>
    ensures same { net.new ≡ net.old }
    ensures kinds { IfOk result (λ r. kinds r.locations.items ≡ Numbers 8 ∷ Numbers 8 ∷ Numbers 8 ∷ Pointers ∷ Pointers ∷ []) }
    ensures below { IfOk result (λ r. locations_top r.locations.items ≤ length net.new) }
{
    let shape = Shape {
        cells: [8, 8, 8, 255, 255].to_vec(alloc)?,
    };
    let store = Store::new(net, &shape)?;
    Ok(store)
}

/// Makes the pointer at a target point to `first` where `c` holds, else to `second`.
fn aim(
    net: &mut Net,
    store: &mut Store,
    at: u32,
    c: Gate,
    first: u32,
    second: u32,
) -> Result<(), OutOfMemory>
    requires store { locations_top store.old.locations.items ≤ length net.old }
    requires c { c.at < length net.old }
    ensures grown { Grown net.old net.new }
    ensures below { OnOk result (locations_top store.new.locations.items ≤ length net.new) }
{
    let always = net.constant(true);
    let place = Set::one(net, at);
    let aimed = join(net, c, &Set::one(net, first), &Set::one(net, second))?;
    store.store(net, always, &place, &Val::Set(aimed))?;
    Ok(())
}

/// The pointer that is read at a target, null where there is none.
fn pointer(net: &mut Net, store: &Store, at: u32) -> Result<Set, OutOfMemory>
    requires { locations_top store.now.locations.items ≤ length net.old }
    ensures grown { Grown net.old net.new }
    ensures below { IfOk result (λ r. guards_top r.pairs.items ≤ length net.new) }
{
    let place = Set::one(net, at);
    let found = store.load(net, &place, 255)?;
    match found {
        Val::Set(set) => Ok(set),
        _ => Ok(Set::one(net, 0)),
    }
}

/// Where `live` holds, writes a number of 8 bits at what the pointer at a target points to.
fn write_through(
    net: &mut Net,
    store: &mut Store,
    live: Gate,
    at: u32,
    number: u64,
) -> Result<(), OutOfMemory>
    requires store { locations_top store.old.locations.items ≤ length net.old }
    requires live { live.at < length net.old }
    ensures grown { Grown net.old net.new }
    ensures below { OnOk result (locations_top store.new.locations.items ≤ length net.new) }
{
    let to = pointer(net, store, at)?;
    let val = Val::Word(Word {
        bits: word(net, 8, number)?,
    });
    store.store(net, live, &to, &val)?;
    Ok(())
}

/// What is read at a target as a number of 8 bits.
fn cell(net: &mut Net, store: &Store, at: u32) -> Result<Val, OutOfMemory>
    requires { locations_top store.now.locations.items ≤ length net.old }
    ensures { Grown net.old net.new }
{
    let place = Set::one(net, at);
    let found = store.load(net, &place, 8)?;
    Ok(found)
}

/// What is read as a number of 8 bits where the pointer at a target points to.
fn cell_through(net: &mut Net, store: &Store, at: u32) -> Result<Val, OutOfMemory>
    requires { locations_top store.now.locations.items ≤ length net.old }
    ensures { Grown net.old net.new }
{
    let to = pointer(net, store, at)?;
    let found = store.load(net, &to, 8)?;
    Ok(found)
}

/// The same store by hand, for one choice: what is left in the three cells, and what the two pointers then lead to.
fn by_hand(choice: &[bool; 4]) -> [u64; 5] {
    let mut cells = [0u64; 3];
    let first = if choice[0] { 0 } else { 1 };
    let second = if choice[1] { 1 } else { 2 };
    if choice[2] {
        cells[first] = 5;
    }
    if choice[3] {
        cells[second] = 200;
    }
    [cells[0], cells[1], cells[2], cells[first], cells[second]]
}

/// The first pointer points to cell 0 or 1, the second to cell 1 or 2, as the first two inputs say.
fn aimed(alloc: Global, net: &mut Net) -> Result<Store, OutOfMemory>
    requires { input_count net.old ≡ 4 }
    ensures grown { Grown net.old net.new }
    ensures below { IfOk result (λ r. locations_top r.locations.items ≤ length net.new) }
{
    let first = net.input(0);
    let second = net.input(1);
    let mut store = cells_and_pointers(alloc, net)?;
    aim(net, &mut store, 4, first, 1, 2)?;
    aim(net, &mut store, 5, second, 2, 3)?;
    Ok(store)
}

/// Then, where the third input holds, 5 is written through the first pointer, and where the fourth holds, 200 through the second.
fn written(alloc: Global, net: &mut Net) -> Result<Store, OutOfMemory>
    requires { input_count net.old ≡ 4 }
    ensures grown { Grown net.old net.new }
    ensures below { IfOk result (λ r. locations_top r.locations.items ≤ length net.new) }
{
    let first = net.input(2);
    let second = net.input(3);
    let mut store = aimed(alloc, net)?;
    write_through(net, &mut store, first, 4, 5)?;
    write_through(net, &mut store, second, 5, 200)?;
    Ok(store)
}

/// What is read in the three cells, and where the two pointers lead to.
fn read(net: &mut Net, store: &Store) -> Result<[Val; 5], OutOfMemory>
    requires { locations_top store.now.locations.items ≤ length net.old }
    ensures { Grown net.old net.new }
{
    let first = cell(net, store, 1)?;
    let second = cell(net, store, 2)?;
    let third = cell(net, store, 3)?;
    let through_first = cell_through(net, store, 4)?;
    let through_second = cell_through(net, store, 5)?;
    Ok([first, second, third, through_first, through_second])
}

/// Whether what was read is what the store by hand has, for one choice.
fn agrees(net: &Net, choice: &[bool; 4], found: &[Val; 5]) -> bool
    requires { input_count net.now ≡ 4 }
{
    let expected = by_hand(choice);
    for i in 0..5 {
        if number(net, choice, &found[i]) != Some(expected[i]) {
            return false;
        }
    }
    true
}

/// The same for each choice.
fn agrees_on_all(net: &Net, found: &[Val; 5]) -> bool
    requires { input_count net.now ≡ 4 }
{
    for number in 0..16u32 {
        let choice = [
            number % 2 == 1,
            number / 2 % 2 == 1,
            number / 4 % 2 == 1,
            number / 8 % 2 == 1,
        ];
        if !agrees(net, &choice, found) {
            return false;
        }
    }
    true
}

fn is_written_through(alloc: Global) -> Result<bool, OutOfMemory> {
    let mut net = Net::new(alloc, 4)?;
    let store = written(alloc, &mut net)?;
    let found = read(&mut net, &store)?;
    Ok(agrees_on_all(&net, &found))
}

#[test]
fn writes_through_two_pointers(rt: HostRuntime) {
    assert!(rt; is_written_through(rt.alloc()) == Ok(true));
}

/// What a caller's proof looks like after three calls in a row: where `live` holds, the number at `from` is written at `to`, and the
/// store is then merged with that of another branch.
fn copied_in_a_branch(
    net: &mut Net,
    live: Gate,
    store: &mut Store,
    from: &Set,
    to: &Set,
    c: Gate,
    other: &Store,
) -> Result<Store, OutOfMemory>
    requires kinds { kinds store.old.locations.items ≡ kinds other.now.locations.items }
    requires store { locations_top store.old.locations.items ≤ length net.old }
    requires other { locations_top other.now.locations.items ≤ length net.old }
    requires from { guards_top from.now.pairs.items ≤ length net.old }
    requires to { guards_top to.now.pairs.items ≤ length net.old }
    requires live { live.at < length net.old }
    requires c { c.at < length net.old }
    ensures grown { Grown net.old net.new }
    ensures below { IfOk result (λ r. locations_top r.locations.items ≤ length net.new) }
    ensures same { IfOk result (λ r. kinds r.locations.items ≡ kinds store.old.locations.items) }
    ensures value { IfOk result (λ r. Always net.new (λ choice v. (ps qs : List Place) (t u : ℕ) → MeetsAll v store.old.locations.items ps
        → MeetsAll v other.now.locations.items qs → Points v from.now.pairs.items t → Points v to.now.pairs.items u
        → MeetsAll v r.locations.items (if v c.at then if v live.at then write ps u (load ps (Numbers 8) t) else ps else qs))) }
{
    let found = store.load(net, from, 8)?;
    store.store(net, live, to, &found)?;
    let merged = merge(net, c, store, other)?;
    Ok(merged)
}

/// The blank store with 5 in cell 1.
fn with_five(alloc: Global, net: &mut Net) -> Result<Store, OutOfMemory>
    ensures grown { Grown net.old net.new }
    ensures kinds { IfOk result (λ r. kinds r.locations.items ≡ Numbers 8 ∷ Numbers 8 ∷ Numbers 8 ∷ Pointers ∷ Pointers ∷ []) }
    ensures below { IfOk result (λ r. locations_top r.locations.items ≤ length net.new) }
{
    let mut store = cells_and_pointers(alloc, net)?;
    let always = net.constant(true);
    let at = Set::one(net, 1);
    let five = Val::Word(Word {
        bits: word(net, 8, 5)?,
    });
    store.store(net, always, &at, &five)?;
    Ok(store)
}

/// Whether the number is 5 where both inputs hold, and else 0.
fn is_five_in_the_branch(net: &Net, found: &Val) -> bool
    requires { input_count net.now ≡ 2 }
{
    for choice in 0..4u32 {
        let want = if choice == 3 { 5 } else { 0 };
        if number(net, &[choice % 2 == 1, choice / 2 == 1], found) != Some(want) {
            return false;
        }
    }
    true
}

/// The store of the branch has 5 in cell 1, which is copied to cell 2 where the first input holds; the other store is blank.
fn is_copied(alloc: Global) -> Result<bool, OutOfMemory> {
    let mut net = Net::new(alloc, 2)?;
    let live = net.input(0);
    let branch = net.input(1);
    let from = Set::one(&net, 1);
    let to = Set::one(&net, 2);
    let other = cells_and_pointers(alloc, &mut net)?;
    let mut store = with_five(alloc, &mut net)?;
    let merged = copied_in_a_branch(&mut net, live, &mut store, &from, &to, branch, &other)?;
    let found = cell(&mut net, &merged, 2)?;
    Ok(is_five_in_the_branch(&net, &found))
}

#[test]
fn copies_in_a_branch(rt: HostRuntime) {
    assert!(rt; is_copied(rt.alloc()) == Ok(true));
}
