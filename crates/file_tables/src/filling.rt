// Entries of tables by the numbers of names. A table grows to the greatest number that has an entry.

ghost use Rattle.std.specs.Prelude.{◌≡◌, ℕ, ◌≤◌, None, false, length, slice_index_or, IfOk, OnOk};
ghost use Rattle.std.specs.Option.{option_copied};
ghost use Rattle.sc_program.specs.Tables.{body_in, local_in};
ghost use Rattle.sc_program.specs.Types.{type_of};
ghost use Rattle.file_tables.specs.Filled.{IsPut, IsRewritten};

use sc_base::{NameId, OutOfMemory};
use sc_program::{BodyNumbers, GlobalTypes, LocalNames};
use sc_tree::ctype::CType;
use sc_types::copy_type;
use std::alloc::Global;

// Makes room for so many entries; new ones are empty.
#[tactic(auto, using(crate::proofs::Entries::entry_behind))]
fn grow<T: Drop>(table: &mut Vec<Option<T>>, count: usize) -> Result<(), OutOfMemory>
    ensures kept { OnOk result ((n : ℕ) → slice_index_or table.new.items n None ≡ slice_index_or table.old.items n None) }
    ensures room { OnOk result (count ≤ length table.new.items) }
{
    while table.len() < count {
        table.push(None)?;
    }
    Ok(())
}

// Sets the entry of a name.
#[tactic(auto, using(crate::proofs::Entries::entry_set))]
fn put<T: Drop>(table: &mut Vec<Option<T>>, name: u32, value: Option<T>) -> Result<(), OutOfMemory>
    ensures { OnOk result (IsPut None name value table.old.items table.new.items) }
{
    let at = name as usize;
    grow(table, at + 1)?;
    table[at] = value;
    Ok(())
}

// Makes room for so many flags; new ones are not set.
#[tactic(auto, using(crate::proofs::Entries::entry_behind))]
fn grow_flags(flags: &mut Vec<bool>, count: usize) -> Result<(), OutOfMemory>
    ensures kept { OnOk result ((n : ℕ) → slice_index_or flags.new.items n false ≡ slice_index_or flags.old.items n false) }
    ensures room { OnOk result (count ≤ length flags.new.items) }
{
    while flags.len() < count {
        flags.push(false)?;
    }
    Ok(())
}

// Sets the flag of a name.
#[tactic(auto, using(crate::proofs::Entries::entry_set))]
fn put_flag(flags: &mut Vec<bool>, name: u32, value: bool) -> Result<(), OutOfMemory>
    ensures { OnOk result (IsPut false name value flags.old.items flags.new.items) }
{
    let at = name as usize;
    grow_flags(flags, at + 1)?;
    flags[at] = value;
    Ok(())
}

/// Sets for each of these names the number of the body that it means in that file.
pub fn set_bodies(
    table: &mut Vec<Option<u32>>,
    numbers: &BodyNumbers,
    file: u32,
    names: &[u32],
) -> Result<(), OutOfMemory>
    ensures { OnOk result (IsRewritten None (body_in numbers.now) file names.now table.old.items table.new.items) }
{
    for name in names {
        let number = numbers.get(file, NameId { at: *name });
        put(table, *name, number)?;
    }
    Ok(())
}

/// Sets for each of these names whether it is local to that file.
pub fn set_locals(
    flags: &mut Vec<bool>,
    local: &LocalNames,
    file: u32,
    names: &[u32],
) -> Result<(), OutOfMemory>
    ensures { OnOk result (IsRewritten false (local_in local.now) file names.now flags.old.items flags.new.items) }
{
    for name in names {
        let is_local = local.contains(file, NameId { at: *name });
        put_flag(flags, *name, is_local)?;
    }
    Ok(())
}

// A copy of a type, where there is one.
fn copied(alloc: Global, t: Option<&CType>) -> Result<Option<CType>, OutOfMemory>
    ensures { IfOk result (λ x. x ≡ option_copied t.entry) }
{
    match t {
        None => Ok(None),
        Some(t) => Ok(Some(copy_type(alloc, t)?)),
    }
}

/// Sets for each of these names the type of the variable that it means in that file.
pub fn set_types(
    alloc: Global,
    table: &mut Vec<Option<CType>>,
    types: &GlobalTypes,
    file: u32,
    names: &[u32],
) -> Result<(), OutOfMemory>
    ensures { OnOk result (IsRewritten None (type_of types.now) file names.now table.old.items table.new.items) }
{
    for name in names {
        let t = copied(alloc, types.get(file, NameId { at: *name }))?;
        put(table, *name, t)?;
    }
    Ok(())
}
