// Variables with linkage over all files. Declarations are found by hash, so each is looked at once for each table.

ghost use Rattle.std.specs.Prelude.{◌≡◌, ℕ, [], IfOk, OnOk, if◌then◌else◌};
ghost use Rattle.std.specs.Option.{option_copied};
ghost use Rattle.sc_program.specs.Firsts.{or_else};
ghost use Rattle.sc_program.specs.Places.{place_of};
ghost use Rattle.sc_program.specs.Globals as spec;
ghost use Rattle.sc_program.specs.Tables as table;
ghost use Rattle.sc_program.specs.Types.{type_of};

use crate::firsts::{Firsts, number};
use sc_base::{List, NameId, OutOfMemory};
use sc_rules::Record;
use sc_tree::ctype::{CType, Widths};
use sc_typed::StructDef;
use sc_types::extent;
use std::alloc::Global;
use std::marker::Model;

/// Which names of variables are local to which files (C11 6.2.2, 3). Contracts see the table, of
/// which `local_in` is the test.
#[derive(Drop)]
pub struct LocalNames {
    names: Firsts,
}

impl Model for LocalNames {
    ghost use Rattle.sc_program.specs.Places.{Table};

    ghost Value = { Table };

    ghost view = { λ l. l.names };
}

fn note_local(names: &mut Firsts, declared: &Record) -> Result<(), OutOfMemory>
    ensures { OnOk result (names.new ≡ table.with_local declared.now names.old) }
{
    if declared.is_static {
        names.note(declared.name.at, Some(declared.file), 0)
    } else {
        Ok(())
    }
}

// The table of these declarations.
fn note_locals(alloc: Global, records: &[Record]) -> Result<Firsts, OutOfMemory>
    ensures { IfOk result (λ names. names ≡ table.with_locals records.now []) }
{
    let mut names = Firsts::new(alloc);
    for declared in records {
        note_local(&mut names, declared)?;
    }
    Ok(names)
}

impl LocalNames {
    /// The names that these declarations make local to a file.
    #[tactic(auto, using(crate::proofs::RecordTable::local_found))]
    pub fn of(alloc: Global, records: &[Record]) -> Result<LocalNames, OutOfMemory>
        ensures { IfOk result (λ names. (file name : ℕ) → table.local_in names file name ≡ spec.is_local_global records.now file name) }
    {
        let names = note_locals(alloc, records)?;
        Ok(LocalNames { names })
    }

    /// Whether a name is local to a file. It takes no memory.
    pub fn contains(&self, file: u32, name: NameId) -> bool
        ensures { result ≡ table.local_in self.now file name.at }
    {
        self.names.get(name.at, Some(file)).is_some()
    }

    // The file with which a name goes: the one to which it is local, if it is.
    fn file_of(&self, file: u32, name: NameId) -> Option<u32>
        ensures { result ≡ (if table.local_in self.now file name.at then Some file else None) }
    {
        if self.contains(file, name) {
            Some(file)
        } else {
            None
        }
    }
}

fn is_open(t: &CType) -> bool
    ensures { result ≡ spec.is_open t.now }
{
    matches!(t, CType::Array(_, None))
}

// Whether a type has a size and is no array without length.
fn is_settled(w: Widths, structs: &[StructDef], t: &CType) -> bool
    ensures { result ≡ spec.is_settled w structs.now t.now }
{
    extent(w, structs, t).is_some() && !is_open(t)
}

// Notes the number of a declaration, where the test holds.
fn note_record(
    places: &mut Firsts,
    k: u32,
    local: &LocalNames,
    declared: &Record,
    test: bool,
) -> Result<(), OutOfMemory>
    ensures { OnOk result (places.new ≡ table.noted_if test (table.key_of (table.local_in local.now) declared.now) k places.old) }
{
    if test {
        let file = local.file_of(declared.file, declared.name);
        places.note(declared.name.at, file, k)
    } else {
        Ok(())
    }
}

// The number of the first declaration of each variable.
fn first_places(
    alloc: Global,
    local: &LocalNames,
    records: &[Record],
) -> Result<Firsts, OutOfMemory>
    ensures { IfOk result (λ places. places ≡ table.with_records spec.any_record (table.local_in local.now) 0 records.now []) }
{
    let mut places = Firsts::new(alloc);
    for (k, declared) in records.iter().enumerate() {
        note_record(&mut places, number(k)?, local, declared, true)?;
    }
    Ok(places)
}

// The number of the first declaration of each variable whose type is settled.
fn settled_places(
    alloc: Global,
    w: Widths,
    structs: &[StructDef],
    local: &LocalNames,
    records: &[Record],
) -> Result<Firsts, OutOfMemory>
    ensures { IfOk result (λ places. places ≡ table.with_records (spec.has_settled w structs.now) (table.local_in local.now) 0 records.now []) }
{
    let mut places = Firsts::new(alloc);
    for (k, declared) in records.iter().enumerate() {
        let settled = is_settled(w, structs, &declared.ctype);
        note_record(&mut places, number(k)?, local, declared, settled)?;
    }
    Ok(places)
}

// The number for a key in the first of two tables that has one.
fn place_in(settled: &Firsts, any: &Firsts, name: NameId, file: Option<u32>) -> Option<u32>
    ensures { result ≡ or_else (place_of (name.at, file) settled.now) (place_of (name.at, file) any.now) }
{
    match settled.get(name.at, file) {
        Some(place) => Some(place),
        None => any.get(name.at, file),
    }
}

// The type of the declaration with that number.
fn type_at(records: &[Record], place: Option<u32>) -> Option<&CType>
    ensures { option_copied result ≡ table.type_at records.now place }
{
    match place {
        None => None,
        Some(place) => match records.get(place as usize) {
            None => None,
            Some(declared) => Some(&declared.ctype),
        },
    }
}

/// The types that all files give their variables. Contracts see them by `type_of`, for each file and name.
#[derive(Drop)]
pub struct GlobalTypes {
    records: List<Record>,
    local: LocalNames,
    settled: Firsts,
    any: Firsts,
}

impl GlobalTypes {
    /// The types of the variables that are declared so, where the structs are those.
    #[tactic(auto, using(crate::proofs::RecordTable::type_found))]
    pub fn of(
        alloc: Global,
        w: Widths,
        structs: &[StructDef],
        records: List<Record>,
    ) -> Result<GlobalTypes, OutOfMemory>
        ensures { IfOk result (λ types. (file name : ℕ) → type_of types file name ≡ spec.type_over_all w structs.now records file name) }
    {
        let local = LocalNames::of(alloc, records.as_slice())?;
        let settled = settled_places(alloc, w, structs, &local, records.as_slice())?;
        let any = first_places(alloc, &local, records.as_slice())?;
        Ok(GlobalTypes {
            records,
            local,
            settled,
            any,
        })
    }

    /// The type of the variable that a name means in a file: that of its first declaration whose type has a size and is
    /// no array without length, else that of its first declaration. It takes no memory.
    pub fn get(&self, file: u32, name: NameId) -> Option<&CType>
        ensures { option_copied result ≡ type_of self.now file name.at }
    {
        let file = self.local.file_of(file, name);
        type_at(
            self.records.as_slice(),
            place_in(&self.settled, &self.any, name, file),
        )
    }
}
