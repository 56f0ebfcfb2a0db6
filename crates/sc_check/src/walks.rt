// The two walks over all files.

ghost use Rattle.std.specs.Prelude.{◌≡◌, IfOk, OnOk};
ghost use Rattle.file_tables.specs.Linkage.{file_of, AreTables, AreTurned};
ghost use Rattle.sc_declare.specs.Numbers.{keys_of};
ghost use Rattle.sc_typing.specs.Tables as tables;
ghost use Rattle.sc_check.specs.Files as files;
ghost use Rattle.sc_check.specs.Heres.{alone_here, linked_here, known_here};
ghost use Rattle.sc_check.specs.Left.{file_left, files_left};
ghost use Rattle.sc_check.specs.Parts.{made, found};
ghost use Rattle.sc_check.specs.Typed as spec;

use crate::files::file;
use crate::passing::pass_file;
use file_tables::FileTables;
use sc_base::{List, OutOfMemory, Skip};
use sc_declare::GlobalNumbers;
use sc_program::Bodied;
use sc_rules::{Builtin, Record, Walk};
use sc_tree::ctype::Widths;
use sc_tree::unit::Unit;
use sc_typed::Function;
use sc_typing::Tables;
use scopes::Scopes;
use std::alloc::Global;
use struct_table::Structs;

/// The tables of a file of which nothing is known of other files.
#[tactic(auto, unfolding(sc_typing::specs::Tables::here_of))]
pub fn alone_tables<'a>(w: Widths, file: u32, builtins: &'a [Option<Builtin>]) -> Tables<'a>
    ensures { tables.here_of result ≡ alone_here w builtins.entry.now file }
{
    Tables {
        widths: w,
        file,
        builtins,
        bodies: &[],
        locals: &[],
        settled: false,
        globals: &[],
    }
}

// The tables of the file at hand.
fn linked_tables<'a>(
    w: Widths,
    builtins: &'a [Option<Builtin>],
    linked: &'a FileTables,
) -> Tables<'a>
    requires { AreTables linked.now }
    ensures { tables.here_of result ≡ linked_here w builtins.entry.now linked.entry.now (file_of linked.entry.now) }
{
    Tables {
        widths: w,
        file: linked.file(),
        builtins,
        bodies: linked.bodies(),
        locals: linked.locals(),
        settled: true,
        globals: linked.globals(),
    }
}

// A walk at its beginning, with these structs.
fn new_walk(alloc: Global, structs: Structs) -> Walk
    ensures { result ≡ record spec.no_walk { structs = structs } }
{
    Walk {
        names: Scopes::new(alloc),
        tags: Scopes::new(alloc),
        structs,
        met: 0,
        completed: List::new(alloc),
        globals: List::new(alloc),
        records: List::new(alloc),
        local_functions: List::new(alloc),
        locals: List::new(alloc),
        first: None,
    }
}

// One file in the first walk.
fn first_file(
    alloc: Global,
    walk: &mut Walk,
    numbers: &mut GlobalNumbers,
    w: Widths,
    builtins: &[Option<Builtin>],
    x: &Unit,
) -> Result<(), OutOfMemory>
    requires { numbers.old ≡ keys_of walk.old.globals }
    ensures left { OnOk result (walk.new ≡ file_left (alone_here w builtins.now x.now.file) x.now.segments walk.old) }
    ensures tied { OnOk result (numbers.new ≡ keys_of walk.new.globals) }
{
    let here = alone_tables(w, x.file, builtins);
    pass_file(alloc, walk, numbers, &here, x.segments.as_slice())
}

// The walk that the first walk over all files leaves.
#[tactic(auto, using(crate::proofs::Left::next_file))]
fn passed(
    alloc: Global,
    w: Widths,
    builtins: &[Option<Builtin>],
    units: &[Unit],
) -> Result<Walk, OutOfMemory>
    ensures { IfOk result (λ walk. walk ≡ files_left (alone_here w builtins.now) units.now spec.no_walk) }
{
    let mut walk = new_walk(alloc, Structs::new(alloc));
    let mut numbers = GlobalNumbers::new(alloc);
    for x in units {
        first_file(alloc, &mut walk, &mut numbers, w, builtins, x)?;
    }
    Ok(walk)
}

/// The first walk, behind which it is known what the variables and functions of all files are.
#[tactic(auto, using(crate::proofs::Left::walked))]
pub fn first_walk(
    alloc: Global,
    w: Widths,
    builtins: &[Option<Builtin>],
    units: &[Unit],
) -> Result<Walk, OutOfMemory>
    ensures { IfOk result (λ walk. walk
        ≡ (spec.walk_files (alone_here w builtins.now) spec.nothing_made units.now spec.no_walk).1) }
{
    passed(alloc, w, builtins, units)
}

// One file in the second walk: the tables become those of the file.
fn second_file(
    alloc: Global,
    walk: &mut Walk,
    numbers: &mut GlobalNumbers,
    w: Widths,
    builtins: &[Option<Builtin>],
    linked: FileTables,
    functions: &mut List<Function>,
    notes: &mut List<Skip>,
    x: &Unit,
) -> Result<FileTables, OutOfMemory>
    requires tied { numbers.old ≡ keys_of walk.old.globals }
    requires tables { AreTables linked }
    ensures turned { IfOk result (λ t. AreTurned linked x.now.file t) }
    ensures made { OnOk result (files.file_in (linked_here w builtins.now linked x.now.file)
        (made functions.old notes.old) x.now.segments walk.old ≡ (made functions.new notes.new, walk.new)) }
    ensures tied { OnOk result (numbers.new ≡ keys_of walk.new.globals) }
{
    let linked = linked.turn_to(alloc, x.file)?;
    let here = linked_tables(w, builtins, &linked);
    file(
        alloc,
        walk,
        numbers,
        &here,
        functions,
        notes,
        x.segments.as_slice(),
    )?;
    Ok(linked)
}

// The second walk, which begins with these structs: the functions, the notes and the walk that it leaves.
fn linked_walk(
    alloc: Global,
    w: Widths,
    builtins: &[Option<Builtin>],
    linked: FileTables,
    structs: Structs,
    units: &[Unit],
) -> Result<(List<Function>, (List<Skip>, Walk)), OutOfMemory>
    requires { AreTables linked }
    ensures { IfOk result (λ r. found r
        ≡ spec.walk_files (linked_here w builtins.now linked) spec.nothing_made units.now
        (record spec.no_walk { structs = structs })) }
{
    let mut walk = new_walk(alloc, structs);
    let mut numbers = GlobalNumbers::new(alloc);
    let mut functions = List::new(alloc);
    let mut notes = List::new(alloc);
    let mut tables = linked;
    for x in units {
        tables = second_file(
            alloc,
            &mut walk,
            &mut numbers,
            w,
            builtins,
            tables,
            &mut functions,
            &mut notes,
            x,
        )?;
    }
    Ok((functions, (notes, walk)))
}

// The second walk, behind a first one that left these structs and declarations of variables.
fn walk_behind(
    alloc: Global,
    w: Widths,
    builtins: &[Option<Builtin>],
    structs: Structs,
    records: List<Record>,
    bodies: &[Bodied],
    units: &[Unit],
) -> Result<(List<Function>, (List<Skip>, Walk)), OutOfMemory>
    ensures { IfOk result (λ r. found r
        ≡ spec.walk_files (known_here w builtins.now structs records bodies.now) spec.nothing_made
        units.now (record spec.no_walk { structs = structs })) }
{
    let linked = FileTables::of(alloc, w, structs.as_slice(), bodies, records)?;
    linked_walk(alloc, w, builtins, linked, structs, units)
}

// What the second walk wants of the first. The rest is dropped, before the second begins.
fn left_of(first: Walk) -> (Structs, List<Record>)
    ensures structs { result.0 ≡ first.structs }
    ensures records { result.1 ≡ first.records }
{
    let Walk {
        structs,
        records,
        ..
    } = first;
    (structs, records)
}

/// The second walk, behind a first one that left the other walk: the functions, the notes and the walk that it leaves.
pub fn second_walk(
    alloc: Global,
    w: Widths,
    builtins: &[Option<Builtin>],
    first: Walk,
    bodies: &[Bodied],
    units: &[Unit],
) -> Result<(List<Function>, (List<Skip>, Walk)), OutOfMemory>
    ensures { IfOk result (λ r. found r
        ≡ spec.walk_files (known_here w builtins.now first.structs first.records bodies.now) spec.nothing_made
        units.now (record spec.no_walk { structs = first.structs })) }
{
    let (structs, records) = left_of(first);
    walk_behind(alloc, w, builtins, structs, records, bodies, units)
}
