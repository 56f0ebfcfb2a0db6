// Runs of a function of a small file, and their text.

ghost use Rattle.std.specs.Prelude.{IfOk};
ghost use Rattle.fsm_spec.specs.Table.{IsWhole};
ghost use Rattle.layout_base.specs.Seen as laid;
ghost use Rattle.run_laws.specs.Proper.{IsClosed};

use fsm_spec::{MachineSpec, locks, whole_machines};
use layout_base::{Ground, Places};
use location_texts::{Texts, text_at};
use name_interner::Interner;
use places::{PlaceAnswer, places};
use report_text::{Ending, replay};
use run_laws::layouts_are_closed;
use sc_base::{List, OutOfMemory};
use sc_check::check;
use sc_gather::{Context, Found};
use sc_interp::{Machine, Outcome};
use sc_lexer::{LexAnswer, tokens};
use sc_parse_unit::unit;
use sc_tree::ctype::Widths;
use sc_tree::unit::Unit;
use sc_typed::Program;
use std::alloc::Global;
use sum_rows::{Event, Verdict};

/// More bytes than any text here has, and more names.
const MANY: usize = 1000000;

/// A function of a program, with the callees whose summaries it uses.
#[derive(Clone, Copy)]
pub struct Given<'p> {
    pub program: &'p Program,
    pub function: u32,
    pub kept: &'p [u32],
    pub verdicts: &'p [Verdict],
}

// The segments of a file.
fn read(alloc: Global, names: &mut Interner, text: &str) -> Result<Unit, LexAnswer> {
    if names.len() > MANY || text.len() > MANY {
        return Err(LexAnswer::OutOfMemory);
    }
    let found = tokens(alloc, names, 0, text.as_bytes())?;
    Ok(unit(alloc, &found)?)
}

/// The typed program of a file.
pub fn checked(alloc: Global, text: &str) -> Option<Program> {
    let mut names = Interner::new(alloc);
    let mut units = Vec::new(alloc);
    units.push(read(alloc, &mut names, text).ok()?).ok()?;
    let files = List::new(alloc);
    let names = names.into_names().ok()?;
    check(alloc, names, files, units.as_slice(), Widths::Ilp32, None).ok()
}

/// The program with its first function alone.
pub fn first(program: &Program) -> Given<'_> {
    Given {
        program,
        function: 0,
        kept: &[],
        verdicts: &[],
    }
}

/// The machine of locks.
pub fn machine(alloc: Global) -> Result<MachineSpec, fsm_spec::OutOfMemory>
    ensures { IfOk result IsWhole }
{
    whole_machines();
    locks(alloc)
}

/// What is read of the program, with two turns of each loop.
pub fn context<'p, 'm>(given: Given<'p>, machine: &'m MachineSpec) -> Context<'p, 'm>
    requires { IsWhole machine.now }
    ensures { IsWhole result.machine.now }
{
    Context {
        program: given.program,
        machine,
        tries: true,
        function: given.function,
        kept: given.kept,
        verdicts: given.verdicts,
        depth: 2,
        reach: 2,
    }
}

/// Its layout.
pub fn laid_out<'p>(alloc: Global, given: Given<'p>) -> Result<Places<'p>, PlaceAnswer>
    ensures { IfOk result (λ p. IsClosed (laid.layout_of p)) }
{
    layouts_are_closed();
    places(
        alloc,
        given.program,
        given.function,
        given.kept,
        given.verdicts,
        2,
        2,
    )
}

/// Nothing that a text names: a run reads none of it.
pub fn nothing<'p>(alloc: Global) -> Found<'p> {
    Found {
        nodes: 0,
        fields: Vec::new(alloc),
        globals: Vec::new(alloc),
        literals: Vec::new(alloc),
        sites: Vec::new(alloc),
    }
}

/// The memory of the runs.
#[tactic(auto, unfolding(layout_base::specs::Seen::ground_of, sc_gather::specs::Seen::source_of, sc_world::specs::Programs::source_by))]
pub fn reserved<'p, 'm, 'f>(
    alloc: Global,
    here: &'f Context<'p, 'm>,
    found: &'f Found<'p>,
    places: &'f Places<'p>,
) -> Result<Machine<'p, 'm, 'f>, OutOfMemory>
    requires whole { IsWhole here.now.machine.now }
    requires closed { IsClosed (laid.layout_of places.now) }
{
    Machine::reserve(alloc, Ground { here, found }, places)
}

// The number of a hexadecimal digit.
fn digit(byte: u8) -> u8 {
    if byte >= b'a' {
        (byte - b'a').wrapping_add(10)
    } else if byte >= b'0' {
        byte - b'0'
    } else {
        0
    }
}

/// The bits that hexadecimal digits spell, of each digit the high bit first.
pub fn bits_of(alloc: Global, spelled: &str) -> Result<Vec<bool>, OutOfMemory> {
    let mut bits = Vec::new(alloc);
    for byte in spelled.as_bytes() {
        let number = digit(*byte);
        bits.push(number & 8 != 0)?;
        bits.push(number & 4 != 0)?;
        bits.push(number & 2 != 0)?;
        bits.push(number & 1 != 0)?;
    }
    Ok(bits)
}

/// So many of the bits.
pub fn up_to(bits: &[bool], length: usize) -> &[bool] {
    if length <= bits.len() {
        &bits[..length]
    } else {
        bits
    }
}

/// What the texts of locations read.
pub fn texts<'p, 'f>(given: Given<'p>, places: &'f Places<'p>) -> Option<Texts<'p, 'f>> {
    match given
        .program
        .functions
        .as_slice()
        .get(given.function as usize)
    {
        None => None,
        Some(function) => Some(Texts {
            program: given.program,
            function,
            places,
        }),
    }
}

// The text of a location; none of no location.
fn location(alloc: Global, texts: Option<Texts>, at: Option<u32>) -> Result<Vec<u8>, OutOfMemory> {
    match (texts, at) {
        (Some(texts), Some(at)) => text_at(alloc, &texts, at),
        _ => Ok(Vec::new(alloc)),
    }
}

// The location of its error.
fn error_at(outcome: Outcome) -> Option<u32> {
    match outcome {
        Outcome::Error(at) | Outcome::Inner(at) => Some(at),
        Outcome::Exit(_) | Outcome::Aside(_) => None,
    }
}

fn ending(outcome: Outcome) -> Ending {
    match outcome {
        Outcome::Exit(_) => Ending::Exit,
        Outcome::Error(_) => Ending::Error,
        Outcome::Inner(_) => Ending::Inner,
        Outcome::Aside(reason) => Ending::Aside(reason),
    }
}

// The text of a run.
fn written(
    alloc: Global,
    given: Given,
    places: &Places,
    trace: &[Event],
    outcome: Outcome,
) -> Result<Vec<u8>, OutOfMemory> {
    let text = location(alloc, texts(given, places), error_at(outcome))?;
    replay(
        alloc,
        given.program,
        trace,
        ending(outcome),
        text.as_slice(),
    )
}

/// The text of the run on the choice that these digits spell.
pub fn replayed(alloc: Global, given: Given, spelled: &str) -> Option<Vec<u8>> {
    let Ok(table) = machine(alloc) else {
        return None;
    };
    let here = context(given, &table);
    let Ok(laid) = laid_out(alloc, given) else {
        return None;
    };
    let found = nothing(alloc);
    let Ok(mut runs) = reserved(alloc, &here, &found, &laid) else {
        return None;
    };
    let Ok(bits) = bits_of(alloc, spelled) else {
        return None;
    };
    let outcome = runs.run(up_to(bits.as_slice(), laid.choice_len()));
    written(alloc, given, &laid, runs.trace(), outcome).ok()
}

/// Whether there is such a text.
pub fn is_text(found: Option<Vec<u8>>, want: &str) -> bool {
    match found {
        Some(found) => found.as_slice() == want.as_bytes(),
        None => false,
    }
}

/// Whether the run of the first function of a file, on that choice, has that text.
pub fn is_replayed(alloc: Global, text: &str, spelled: &str, want: &str) -> bool {
    match checked(alloc, text) {
        Some(program) => is_text(replayed(alloc, first(&program), spelled), want),
        None => false,
    }
}
