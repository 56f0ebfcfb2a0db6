// The tables of the file at hand.

ghost use Rattle.std.specs.Prelude.{◌≡◌, ℕ, [], None, false, IfOk, OnOk};
ghost use Rattle.sc_program.specs.Bodies.{body_named};
ghost use Rattle.sc_program.specs.Globals.{is_local_global, type_over_all};
ghost use Rattle.sc_program.specs.Tables.{body_in, local_in};
ghost use Rattle.sc_program.specs.Types.{type_of};
ghost use Rattle.file_tables.specs.Filled.{Fills, IsTable, IsRewritten};
ghost use Rattle.file_tables.specs.Linkage as linked;
ghost use Rattle.file_tables.specs.Linkage.{AreTables, AreTurned};
ghost use Rattle.file_tables.specs.Own.{names_of_bodies};

use crate::filling::{set_bodies, set_locals, set_types};
use crate::own::{body_names, names_in, own_lists, record_names};
use sc_base::{List, OutOfMemory};
use sc_program::{Bodied, BodyNumbers, GlobalTypes, LocalNames};
use sc_rules::Record;
use sc_tree::ctype::{CType, Widths};
use sc_typed::StructDef;
use std::alloc::Global;

/// What the names of a program mean in its files, with the tables of the file at hand.
#[derive(Drop)]
pub struct FileTables {
    file: u32,
    bodies: Vec<Option<u32>>,
    locals: Vec<bool>,
    globals: Vec<Option<CType>>,
    numbers: BodyNumbers,
    local: LocalNames,
    types: GlobalTypes,
    own: Vec<List<u32>>,
}

// The table of bodies of one file made that of another.
#[tactic(auto, using(crate::proofs::Entries::turned))]
fn turn_bodies(
    table: &mut Vec<Option<u32>>,
    numbers: &BodyNumbers,
    own: &Vec<List<u32>>,
    before: u32,
    file: u32,
) -> Result<(), OutOfMemory>
    requires { IsTable None own.now.items (body_in numbers.now) before table.old.items }
    ensures { OnOk result (IsTable None own.now.items (body_in numbers.now) file table.new.items) }
{
    set_bodies(table, numbers, file, names_in(own, before))?;
    set_bodies(table, numbers, file, names_in(own, file))
}

// The flags of one file made those of another.
#[tactic(auto, using(crate::proofs::Entries::turned))]
fn turn_locals(
    flags: &mut Vec<bool>,
    local: &LocalNames,
    own: &Vec<List<u32>>,
    before: u32,
    file: u32,
) -> Result<(), OutOfMemory>
    requires { IsTable false own.now.items (local_in local.now) before flags.old.items }
    ensures { OnOk result (IsTable false own.now.items (local_in local.now) file flags.new.items) }
{
    set_locals(flags, local, file, names_in(own, before))?;
    set_locals(flags, local, file, names_in(own, file))
}

// The table of types of one file made that of another.
#[tactic(auto, using(crate::proofs::Entries::turned))]
fn turn_types(
    alloc: Global,
    table: &mut Vec<Option<CType>>,
    types: &GlobalTypes,
    own: &Vec<List<u32>>,
    before: u32,
    file: u32,
) -> Result<(), OutOfMemory>
    requires { IsTable None own.now.items (type_of types.now) before table.old.items }
    ensures { OnOk result (IsTable None own.now.items (type_of types.now) file table.new.items) }
{
    set_types(alloc, table, types, file, names_in(own, before))?;
    set_types(alloc, table, types, file, names_in(own, file))
}

// The table of bodies of the file 0, where those are the names of all bodies.
fn first_bodies(
    alloc: Global,
    bodies: &[Bodied],
    numbers: &BodyNumbers,
) -> Result<Vec<Option<u32>>, OutOfMemory>
    ensures { IfOk result (λ table. IsRewritten None (body_in numbers.now) 0 (names_of_bodies bodies.now) [] table.items) }
{
    let names = body_names(alloc, bodies)?;
    let mut table = Vec::new(alloc);
    set_bodies(&mut table, numbers, 0, names.as_slice())?;
    Ok(table)
}

// The flags of the file 0, where those are the names of all declarations.
fn first_locals(alloc: Global, names: &[u32], local: &LocalNames) -> Result<Vec<bool>, OutOfMemory>
    ensures { IfOk result (λ flags. IsRewritten false (local_in local.now) 0 names.now [] flags.items) }
{
    let mut flags = Vec::new(alloc);
    set_locals(&mut flags, local, 0, names)?;
    Ok(flags)
}

// The table of types of the file 0, where those are the names of all declarations.
fn first_types(
    alloc: Global,
    names: &[u32],
    types: &GlobalTypes,
) -> Result<Vec<Option<CType>>, OutOfMemory>
    ensures { IfOk result (λ table. IsRewritten None (type_of types.now) 0 names.now [] table.items) }
{
    let mut table = Vec::new(alloc);
    set_types(alloc, &mut table, types, 0, names)?;
    Ok(table)
}

impl FileTables {
    /// The tables of a program with these bodies and these declarations of variables, where the structs are those. The
    /// file at hand is that with the number 0.
    pub fn of(
        alloc: Global,
        w: Widths,
        structs: &[StructDef],
        bodies: &[Bodied],
        records: List<Record>,
    ) -> Result<FileTables, OutOfMemory>
        ensures tables { IfOk result (λ t. AreTables t) }
        ensures file { IfOk result (λ t. linked.file_of t ≡ 0) }
        ensures body { IfOk result (λ t. (file name : ℕ) → linked.body t file name ≡ body_named bodies.now file name) }
        ensures locals { IfOk result (λ t. (file name : ℕ) → linked.is_local t file name ≡ is_local_global records file name) }
        ensures types { IfOk result (λ t. (file name : ℕ) → linked.global_type t file name ≡ type_over_all w structs.now records file name) }
    {
        let own = own_lists(alloc, bodies, records.as_slice())?;
        let names = record_names(alloc, records.as_slice())?;
        let numbers = BodyNumbers::of(alloc, bodies)?;
        let local = LocalNames::of(alloc, records.as_slice())?;
        let body_table = first_bodies(alloc, bodies, &numbers)?;
        let locals = first_locals(alloc, names.as_slice(), &local)?;
        let types = GlobalTypes::of(alloc, w, structs, records)?;
        let globals = first_types(alloc, names.as_slice(), &types)?;
        Ok(FileTables {
            file: 0,
            bodies: body_table,
            locals,
            globals,
            numbers,
            local,
            types,
            own,
        })
    }

    /// The tables of another file. They are made from those of the file at hand, by a look at the names of which one
    /// of the two files has its own meaning.
    pub fn turn_to(self, alloc: Global, file: u32) -> Result<FileTables, OutOfMemory>
        requires { AreTables self }
        ensures { IfOk result (λ t. AreTurned self file t) }
    {
        let FileTables {
            file: before,
            mut bodies,
            mut locals,
            mut globals,
            numbers,
            local,
            types,
            own,
        } = self;
        turn_bodies(&mut bodies, &numbers, &own, before, file)?;
        turn_locals(&mut locals, &local, &own, before, file)?;
        turn_types(alloc, &mut globals, &types, &own, before, file)?;
        Ok(FileTables {
            file,
            bodies,
            locals,
            globals,
            numbers,
            local,
            types,
            own,
        })
    }

    /// The number of the file at hand.
    pub fn file(&self) -> u32
        ensures { result ≡ linked.file_of self.now }
    {
        self.file
    }

    /// The number of the body that each name means in the file at hand.
    pub fn bodies(&self) -> &[Option<u32>]
        requires { AreTables self.now }
        ensures { Fills None (linked.body self.now) (linked.file_of self.now) result.now }
    {
        self.bodies.as_slice()
    }

    /// Whether a variable of each name is local to the file at hand.
    pub fn locals(&self) -> &[bool]
        requires { AreTables self.now }
        ensures { Fills false (linked.is_local self.now) (linked.file_of self.now) result.now }
    {
        self.locals.as_slice()
    }

    /// The type over all files of the variable with each name, of the file's own where it is local to the file at hand.
    pub fn globals(&self) -> &[Option<CType>]
        requires { AreTables self.now }
        ensures { Fills None (linked.global_type self.now) (linked.file_of self.now) result.now }
    {
        self.globals.as_slice()
    }
}
