// A function of a small program, with what its runs and its gates read.

ghost use Rattle.std.specs.Prelude.{IfSome};
ghost use Rattle.fn_analysis.specs.Analysis.{HasWholeMachine};
ghost use Rattle.fsm_spec.specs.Table.{IsWhole};
ghost use Rattle.layout_base.specs.Seen as laid;
ghost use Rattle.run_laws.specs.Proper.{IsClosed};

use fsm_spec::{MachineSpec, locks, whole_machines};
use layout_base::Places;
use name_interner::Interner;
use places::places;
use run_laws::layouts_are_closed;
use sc_base::{List, NameId, Names};
use sc_check::check;
use sc_gather::Context;
use sc_lexer::{LexAnswer, tokens};
use sc_parse_unit::unit;
use sc_tree::ctype::Widths;
use sc_tree::unit::Unit;
use sc_typed::Program;
use std::alloc::Global;

/// More bytes than any text here has, and more names.
const MANY: usize = 1000000;

// The machine of states that a text spells.
fn spelled(alloc: Global, text: &str) -> Option<MachineSpec>
    ensures { IfSome result IsWhole }
{
    whole_machines();
    match fsm_spec::machine(alloc, text.as_bytes()) {
        Ok(machine) => Some(machine),
        Err(_) => None,
    }
}

/// The machine of states that a text spells; that of locks where the text is empty.
pub fn machine(alloc: Global, text: &str) -> Option<MachineSpec>
    ensures { IfSome result IsWhole }
{
    if !text.is_empty() {
        return spelled(alloc, text);
    }
    whole_machines();
    match locks(alloc) {
        Ok(machine) => Some(machine),
        Err(_) => None,
    }
}

// The segments of a file.
fn read(alloc: Global, names: &mut Interner, text: &str) -> Result<Unit, LexAnswer> {
    if names.len() > MANY || text.len() > MANY {
        return Err(LexAnswer::OutOfMemory);
    }
    let found = tokens(alloc, names, 0, text.as_bytes())?;
    Ok(unit(alloc, &found)?)
}

// The typed program of one file, with that machine; with that of locks where there is none.
#[tactic(auto, using(crate::proofs::Wholeness::whole_if_given))]
fn checked(
    alloc: Global,
    names: Names,
    files: List<NameId>,
    units: &[Unit],
    machine: Option<MachineSpec>,
) -> Option<Program>
    requires { IfSome machine IsWhole }
    ensures { IfSome result (λ p. HasWholeMachine p) }
{
    whole_machines();
    match check(alloc, names, files, units, Widths::Ilp32, machine) {
        Ok(program) => Some(program),
        Err(_) => None,
    }
}

// What a file was read as.
#[derive(Drop)]
struct Reading {
    names: Names,
    units: Vec<Unit>,
}

// These segments, with the names that were met.
fn with_names(alloc: Global, names: Interner, unit: Unit) -> Option<Reading> {
    let mut units = Vec::new(alloc);
    units.push(unit).ok()?;
    match names.into_names() {
        Ok(names) => Some(Reading { names, units }),
        Err(_) => None,
    }
}

// What this text is read as.
fn read_alone(alloc: Global, text: &str) -> Option<Reading> {
    let mut names = Interner::new(alloc);
    match read(alloc, &mut names, text) {
        Ok(unit) => with_names(alloc, names, unit),
        Err(_) => None,
    }
}

// The same of its text.
fn typed(alloc: Global, text: &str, machine: Option<MachineSpec>) -> Option<Program>
    requires { IfSome machine IsWhole }
    ensures { IfSome result (λ p. HasWholeMachine p) }
{
    match read_alone(alloc, text) {
        Some(Reading { names, units }) => {
            checked(alloc, names, List::new(alloc), units.as_slice(), machine)
        }
        None => None,
    }
}

/// The typed program of a file, with the machine that the second text spells; with that of locks where that is empty.
pub fn program(alloc: Global, text: &str, machine: &str) -> Option<Program>
    ensures { IfSome result (λ p. HasWholeMachine p) }
{
    if machine.is_empty() {
        return typed(alloc, text, None);
    }
    let given = spelled(alloc, machine)?;
    typed(alloc, text, Some(given))
}

/// The layout of the function at hand.
#[tactic(auto, using(crate::proofs::Layouts::closed_if))]
pub fn laid_out<'p>(alloc: Global, here: &Context<'p, '_>) -> Option<Places<'p>>
    ensures { IfSome result (λ p. IsClosed (laid.layout_of p)) }
{
    layouts_are_closed();
    match places(
        alloc,
        here.program,
        here.function,
        here.kept,
        here.verdicts,
        here.depth,
        here.reach,
    ) {
        Ok(laid) => Some(laid),
        Err(_) => None,
    }
}
