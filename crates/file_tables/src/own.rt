// The names of which a file has its own meaning, by the numbers of files.

ghost use Rattle.std.specs.Prelude.{◌≡◌, ℕ, ◌≤◌, [], ◌∷◌, ◌++◌, length, slice_index_or, IfOk, OnOk};
ghost use Rattle.file_tables.specs.Filled.{own_names};
ghost use Rattle.file_tables.specs.Own as spec;

use sc_base::{List, OutOfMemory};
use sc_program::Bodied;
use sc_rules::Record;
use std::alloc::Global;

/// The names of that file.
pub fn names_in(lists: &Vec<List<u32>>, file: u32) -> &[u32]
    ensures { result.now ≡ own_names lists.now.items file }
{
    match lists.get(file as usize) {
        None => &[],
        Some(names) => names.as_slice(),
    }
}

// Makes room for so many files; new ones have no names.
#[tactic(auto, using(crate::proofs::Entries::entry_behind))]
fn grow(alloc: Global, lists: &mut Vec<List<u32>>, count: usize) -> Result<(), OutOfMemory>
    ensures kept { OnOk result ((f : ℕ) → slice_index_or lists.new.items f [] ≡ slice_index_or lists.old.items f []) }
    ensures room { OnOk result (count ≤ length lists.new.items) }
{
    while lists.len() < count {
        lists.push(List::new(alloc))?;
    }
    Ok(())
}

// Adds a name to a file.
fn add(alloc: Global, lists: &mut Vec<List<u32>>, file: u32, name: u32) -> Result<(), OutOfMemory>
    ensures { OnOk result (spec.IsAdded (spec.one_name file name) lists.old.items lists.new.items) }
{
    let at = file as usize;
    grow(alloc, lists, at + 1)?;
    lists[at].push(name)?;
    Ok(())
}

fn add_record(
    alloc: Global,
    lists: &mut Vec<List<u32>>,
    declared: &Record,
) -> Result<(), OutOfMemory>
    ensures { OnOk result (spec.IsAdded (λ f. spec.own_records f (declared.now ∷ [])) lists.old.items lists.new.items) }
{
    if declared.is_static {
        add(alloc, lists, declared.file, declared.name.at)
    } else {
        Ok(())
    }
}

fn add_bodies(
    alloc: Global,
    lists: &mut Vec<List<u32>>,
    bodies: &[Bodied],
) -> Result<(), OutOfMemory>
    ensures { OnOk result (spec.IsAdded (λ f. spec.own_bodies f bodies.now) lists.old.items lists.new.items) }
{
    for body in bodies {
        add(alloc, lists, body.file, body.name)?;
    }
    Ok(())
}

fn add_records(
    alloc: Global,
    lists: &mut Vec<List<u32>>,
    records: &[Record],
) -> Result<(), OutOfMemory>
    ensures { OnOk result (spec.IsAdded (λ f. spec.own_records f records.now) lists.old.items lists.new.items) }
{
    for declared in records {
        add_record(alloc, lists, declared)?;
    }
    Ok(())
}

/// The names of each file of which it has its own meaning: those with a body there, and of its `static` variables.
pub fn own_lists(
    alloc: Global,
    bodies: &[Bodied],
    records: &[Record],
) -> Result<Vec<List<u32>>, OutOfMemory>
    ensures { IfOk result (λ lists. (f : ℕ) → own_names lists.items f ≡ spec.own_bodies f bodies.now ++ spec.own_records f records.now) }
{
    let mut lists = Vec::new(alloc);
    add_bodies(alloc, &mut lists, bodies)?;
    add_records(alloc, &mut lists, records)?;
    Ok(lists)
}

/// The names of all bodies.
pub fn body_names(alloc: Global, bodies: &[Bodied]) -> Result<List<u32>, OutOfMemory>
    ensures { IfOk result (λ names. names ≡ spec.names_of_bodies bodies.now) }
{
    let mut names = List::new(alloc);
    for body in bodies {
        names.push(body.name)?;
    }
    Ok(names)
}

/// The names of all declarations of variables.
pub fn record_names(alloc: Global, records: &[Record]) -> Result<List<u32>, OutOfMemory>
    ensures { IfOk result (λ names. names ≡ spec.names_of_records records.now) }
{
    let mut names = List::new(alloc);
    for declared in records {
        names.push(declared.name.at)?;
    }
    Ok(names)
}
