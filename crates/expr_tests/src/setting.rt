// A function of a small file, with what its runs and its gates read.

ghost use Rattle.std.specs.Prelude.{IfOk};
ghost use Rattle.fsm_spec.specs.Table.{IsWhole};
ghost use Rattle.layout_base.specs.Seen as laid;
ghost use Rattle.run_laws.specs.Proper.{IsClosed};

use fsm_spec::{MachineSpec, locks, whole_machines};
use layout_base::{Ground, Places};
use name_interner::Interner;
use places::{PlaceAnswer, places};
use run_laws::layouts_are_closed;
use sc_base::{List, OutOfMemory};
use sc_check::check;
use sc_gather::{Context, Found};
use sc_interp::Machine;
use sc_lexer::{LexAnswer, tokens};
use sc_parse_unit::unit;
use sc_tree::ctype::Widths;
use sc_tree::unit::Unit;
use sc_typed::Program;
use std::alloc::Global;

/// More bytes than any text here has, and more names.
const MANY: usize = 1000000;

/// There are no loops here, and so one turn of each is all.
const DEPTH: u32 = 1;

/// So many steps behind a pointer have locations.
const REACH: u32 = 2;

// The segments of a file.
fn read(alloc: Global, names: &mut Interner, text: &[u8]) -> Result<Unit, LexAnswer> {
    if names.len() > MANY || text.len() > MANY {
        return Err(LexAnswer::OutOfMemory);
    }
    let found = tokens(alloc, names, 0, text)?;
    Ok(unit(alloc, &found)?)
}

/// The typed program of a file; none of what is no file.
pub fn checked(alloc: Global, text: &[u8], widths: Widths) -> Option<Program> {
    let mut names = Interner::new(alloc);
    let mut units = Vec::new(alloc);
    units.push(read(alloc, &mut names, text).ok()?).ok()?;
    let files = List::new(alloc);
    let names = names.into_names().ok()?;
    check(alloc, names, files, units.as_slice(), widths, None).ok()
}

/// The machine of locks.
pub fn machine(alloc: Global) -> Result<MachineSpec, fsm_spec::OutOfMemory>
    ensures { IfOk result IsWhole }
{
    whole_machines();
    locks(alloc)
}

/// What is read of the program, for its first function.
pub fn context<'p, 'm>(program: &'p Program, machine: &'m MachineSpec) -> Context<'p, 'm>
    requires { IsWhole machine.now }
    ensures { IsWhole result.machine.now }
{
    Context {
        program,
        machine,
        tries: true,
        function: 0,
        kept: &[],
        verdicts: &[],
        depth: DEPTH,
        reach: REACH,
    }
}

/// The layout of the first function.
pub fn laid_out(alloc: Global, program: &Program) -> Result<Places<'_>, PlaceAnswer>
    ensures { IfOk result (λ p. IsClosed (laid.layout_of p)) }
{
    layouts_are_closed();
    places(alloc, program, 0, &[], &[], DEPTH, REACH)
}

/// Nothing that a text names: neither runs nor gates read any of it.
pub fn nothing<'p>(alloc: Global) -> Found<'p> {
    Found {
        nodes: 0,
        fields: Vec::new(alloc),
        globals: Vec::new(alloc),
        literals: Vec::new(alloc),
        sites: Vec::new(alloc),
    }
}

/// The memory of the runs.
#[tactic(auto, unfolding(layout_base::specs::Seen::ground_of, sc_gather::specs::Seen::source_of, sc_world::specs::Programs::source_by))]
pub fn reserved<'p, 'm, 'f>(
    alloc: Global,
    here: &'f Context<'p, 'm>,
    found: &'f Found<'p>,
    places: &'f Places<'p>,
) -> Result<Machine<'p, 'm, 'f>, OutOfMemory>
    requires whole { IsWhole here.now.machine.now }
    requires closed { IsClosed (laid.layout_of places.now) }
{
    Machine::reserve(alloc, Ground { here, found }, places)
}
