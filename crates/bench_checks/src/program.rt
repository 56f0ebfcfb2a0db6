// The typed program of the generated text, with its plan.

ghost use Rattle.std.specs.Prelude.{◌≡◌, IfErr, IfOk};
ghost use Rattle.whole_checks.specs.Typed.{Sources as Checked};
ghost use Rattle.whole_checks.specs.Planned.{IsPlanned, Says};
ghost use Rattle.bench_checks.specs.Bench.{sources_of, Lacks, IsGenerated, HasNoProgram};
ghost use Rattle.bench_checks.specs.declared.program.NoProgram.TheVariants.{OutOfMemory as NoMemory};

use crate::trees::input;
use plan_core::Plan;
use sc_base::{LimitKind, OutOfMemory};
use sc_input::{Input, Refusal};
use sc_tree::ctype::Widths;
use sc_typed::Program;
use std::alloc::Global;
use whole_checks::{NoPlan, Sources, planned};

/// Why there is no program.
#[derive(Debug, Drop)]
pub enum NoProgram {
    /// The text gives no trees.
    Refused(Refusal<'static>),
    /// A function of this name has a second body.
    Twice(Vec<u8>),
    /// A limit, and the count that passes it.
    Beyond(LimitKind, u64),
    /// Memory was refused.
    OutOfMemory,
}

impl From<OutOfMemory> for NoProgram {
    ghost from_gives = { λ _ e. e ≡ NoMemory };

    fn from(_refused: OutOfMemory) -> Self {
        NoProgram::OutOfMemory
    }
}

// Why there is no program where there is no plan.
fn unplanned(why: NoPlan) -> NoProgram
    ensures { (s : Checked) → Says s why → Lacks s result }
{
    match why {
        NoPlan::Twice(name) => NoProgram::Twice(name),
        NoPlan::Beyond(kind, count) => NoProgram::Beyond(kind, count),
        NoPlan::OutOfMemory => NoProgram::OutOfMemory,
    }
}

// The typed program of these trees, with its plan.
fn typed(alloc: Global, input: Input) -> Result<(Program, Plan), NoPlan>
    ensures made { IfOk result (λ made. IsPlanned (sources_of input) made.0 made.1) }
    ensures said { IfErr result (Says (sources_of input)) }
{
    let Input {
        names,
        files,
        units,
        ..
    } = input;
    let sources = Sources {
        names,
        files,
        units: units.as_slice(),
        widths: Widths::Ilp32,
        machine: None,
    };
    planned(alloc, sources)
}

// The same, or why there is none.
fn program_of(alloc: Global, input: Input) -> Result<(Program, Plan), NoProgram>
    ensures made { IfOk result (λ made. IsPlanned (sources_of input) made.0 made.1) }
    ensures none { IfErr result (Lacks (sources_of input)) }
{
    match typed(alloc, input) {
        Ok(made) => Ok(made),
        Err(why) => Err(unplanned(why)),
    }
}

/// The typed program of the text that is generated for this number of functions and this seed, with its plan. It has
/// the widths of ILP32, and its machine of states is that of locks.
///
/// # Errors
///
/// `Refused` where the text gives no trees, `Twice` and `Beyond` where they give no program with a plan, for the first
/// of these reasons. `OutOfMemory` may come at any time.
pub fn generated(alloc: Global, count: u32, seed: u32) -> Result<(Program, Plan), NoProgram>
    ensures made { IfOk result (λ made. IsGenerated count seed made.0 made.1) }
    ensures none { IfErr result (HasNoProgram count seed) }
{
    match input(alloc, count, seed) {
        Ok(input) => program_of(alloc, input),
        Err(why) => Err(NoProgram::Refused(why)),
    }
}
