// A function of a small file, with what its runs and walks read.

ghost use Rattle.std.specs.Prelude.{IfOk};
ghost use Rattle.fsm_spec.specs.Table.{IsWhole};
ghost use Rattle.layout_base.specs.Seen as laid;
ghost use Rattle.run_laws.specs.Proper.{IsClosed};

use fsm_spec::{MachineSpec, locks, whole_machines};
use layout_base::{Ground, Places};
use name_interner::Interner;
use places::{PlaceAnswer, places};
use run_laws::layouts_are_closed;
use sc_base::{List, OutOfMemory};
use sc_check::check;
use sc_gather::{Context, Found};
use sc_interp::Machine;
use sc_lexer::{LexAnswer, tokens};
use sc_parse_unit::unit;
use sc_tree::ctype::Widths;
use sc_tree::unit::Unit;
use sc_typed::Program;
use std::alloc::Global;
use sum_rows::Verdict;

/// More bytes than any text here has, and more names.
const MANY: usize = 1000000;

/// A function of a program, with the callees whose summaries it uses.
#[derive(Clone, Copy)]
pub struct Given<'p> {
    pub program: &'p Program,
    pub function: u32,
    pub kept: &'p [u32],
    pub verdicts: &'p [Verdict],
}

// The segments of a file.
fn read(alloc: Global, names: &mut Interner, text: &str) -> Result<Unit, LexAnswer> {
    if names.len() > MANY || text.len() > MANY {
        return Err(LexAnswer::OutOfMemory);
    }
    let found = tokens(alloc, names, 0, text.as_bytes())?;
    Ok(unit(alloc, &found)?)
}

/// The typed program of a file.
pub fn checked(alloc: Global, text: &str) -> Option<Program> {
    let mut names = Interner::new(alloc);
    let mut units = Vec::new(alloc);
    units.push(read(alloc, &mut names, text).ok()?).ok()?;
    let files = List::new(alloc);
    let names = names.into_names().ok()?;
    check(alloc, names, files, units.as_slice(), Widths::Ilp32, None).ok()
}

/// The machine of locks.
pub fn machine(alloc: Global) -> Result<MachineSpec, fsm_spec::OutOfMemory>
    ensures { IfOk result IsWhole }
{
    whole_machines();
    locks(alloc)
}

/// What is read of the program, with so many turns of each loop.
pub fn context<'p, 'm>(given: Given<'p>, machine: &'m MachineSpec, depth: u32) -> Context<'p, 'm>
    requires { IsWhole machine.now }
    ensures { IsWhole result.machine.now }
{
    Context {
        program: given.program,
        machine,
        tries: true,
        function: given.function,
        kept: given.kept,
        verdicts: given.verdicts,
        depth,
        reach: 2,
    }
}

/// Its layout.
pub fn laid_out<'p>(alloc: Global, given: Given<'p>, depth: u32) -> Result<Places<'p>, PlaceAnswer>
    ensures { IfOk result (λ p. IsClosed (laid.layout_of p)) }
{
    layouts_are_closed();
    places(
        alloc,
        given.program,
        given.function,
        given.kept,
        given.verdicts,
        depth,
        2,
    )
}

/// Nothing that a text names: neither run nor walk reads any of it.
pub fn nothing<'p>(alloc: Global) -> Found<'p> {
    Found {
        nodes: 0,
        fields: Vec::new(alloc),
        globals: Vec::new(alloc),
        literals: Vec::new(alloc),
        sites: Vec::new(alloc),
    }
}

/// The memory of the runs.
#[tactic(auto, unfolding(layout_base::specs::Seen::ground_of, sc_gather::specs::Seen::source_of, sc_world::specs::Programs::source_by))]
pub fn reserved<'p, 'm, 'f>(
    alloc: Global,
    here: &'f Context<'p, 'm>,
    found: &'f Found<'p>,
    places: &'f Places<'p>,
) -> Result<Machine<'p, 'm, 'f>, OutOfMemory>
    requires whole { IsWhole here.now.machine.now }
    requires closed { IsClosed (laid.layout_of places.now) }
{
    Machine::reserve(alloc, Ground { here, found }, places)
}
