// Declarations at file scope (C11 6.9): what one declared stays, or goes and leaves a note.

ghost use Rattle.std.specs.Prelude.{◌≡◌, take, slice_set, OnOk};
ghost use Rattle.sc_typed.specs.Extents.{struct_at};
ghost use Rattle.sc_declare.specs.Numbers.{keys_of};
ghost use Rattle.sc_files.specs.Notes as spec;

use crate::scope::{forget, keep};
use sc_base::{List, OutOfMemory, Skip};
use sc_declare::GlobalNumbers;
use sc_rules::Walk;
use std::alloc::Global;
use std::mem;
use struct_table::Structs;

/// How much there was of what a declaration adds to, before it.
#[derive(Clone, Copy, Debug, PartialEq, Eq)]
pub struct Before {
    /// How many globals.
    pub globals: usize,
    /// How many records of globals.
    pub records: usize,
    /// How many functions that are local to a file.
    pub local_functions: usize,
}

/// What a walk has before a declaration.
pub fn so_far(walk: &Walk) -> Before
    ensures { result ≡ spec.so_far walk.now }
{
    Before {
        globals: walk.globals.len(),
        records: walk.records.len(),
        local_functions: walk.local_functions.len(),
    }
}

// The first so many items.
fn truncate<T: Drop>(alloc: Global, items: &mut List<T>, count: usize)
    ensures { items.new ≡ take count items.old }
{
    let mut all = mem::replace(items, List::new(alloc)).into_vec();
    all.truncate(count);
    *items = List::from_vec(all);
}

// Makes the struct with that number incomplete, if there is one.
fn make_incomplete(alloc: Global, structs: &mut Structs, number: usize) -> Result<(), OutOfMemory>
    ensures { OnOk result (structs.new ≡ slice_set structs.old number (spec.incomplete (struct_at structs.old number))) }
{
    let union = match structs.as_slice().get(number) {
        None => return Ok(()),
        Some(definition) => definition.union,
    };
    structs.put(alloc, number, union)
}

// Makes the structs of those numbers incomplete.
fn incomplete_at(alloc: Global, structs: &mut Structs, numbers: &[u32]) -> Result<(), OutOfMemory>
    ensures { OnOk result (structs.new ≡ spec.incomplete_at numbers.now structs.old) }
{
    for number in numbers {
        make_incomplete(alloc, structs, *number as usize)?;
    }
    Ok(())
}

// Takes back what a declaration with a fault declared.
fn take_back(
    alloc: Global,
    walk: &mut Walk,
    numbers: &mut GlobalNumbers,
    before: Before,
) -> Result<(), OutOfMemory>
    requires { numbers.old ≡ keys_of walk.old.globals }
    ensures taken { OnOk result (walk.new ≡ spec.taken_back before walk.old) }
    ensures tied { OnOk result (numbers.new ≡ keys_of walk.new.globals) }
{
    forget(&mut walk.names)?;
    forget(&mut walk.tags)?;
    let completed = mem::replace(&mut walk.completed, List::new(alloc));
    incomplete_at(alloc, &mut walk.structs, completed.as_slice())?;
    truncate(alloc, &mut walk.globals, before.globals);
    truncate(alloc, &mut walk.records, before.records);
    truncate(alloc, &mut walk.local_functions, before.local_functions);
    numbers.truncate(before.globals);
    walk.first = None;
    Ok(())
}

// Keeps what a declaration without a fault declared.
fn keep_walk(alloc: Global, walk: &mut Walk) -> Result<(), OutOfMemory>
    ensures { OnOk result (walk.new ≡ spec.kept_walk walk.old) }
{
    keep(&mut walk.names)?;
    keep(&mut walk.tags)?;
    walk.completed = List::new(alloc);
    walk.first = None;
    Ok(())
}

/// Ends a declaration at file scope, before which the walk had that much. Without a fault what it declared stays. Else
/// its first fault is put behind the notes, and all that it declared goes.
///
/// `numbers` has the numbers of the globals of `walk`, before and after. Where memory is refused none of the three is of
/// further use.
pub fn end_declaration(
    alloc: Global,
    walk: &mut Walk,
    numbers: &mut GlobalNumbers,
    before: Before,
    notes: &mut List<Skip>,
) -> Result<(), OutOfMemory>
    requires { numbers.old ≡ keys_of walk.old.globals }
    ensures noted { OnOk result (spec.noted_in before notes.old walk.old ≡ (notes.new, walk.new)) }
    ensures tied { OnOk result (numbers.new ≡ keys_of walk.new.globals) }
{
    match walk.first {
        None => keep_walk(alloc, walk),
        Some(fault) => {
            notes.push(fault.skip)?;
            take_back(alloc, walk, numbers, before)
        }
    }
}

/// Begins a file: no name is declared. It takes no memory.
pub fn begin_file(walk: &mut Walk)
    ensures { spec.begin_file walk.old ≡ (tt, walk.new) }
{
    walk.names.clear();
    walk.tags.clear();
}
