// The typed program of all files, and its plan.

ghost use Rattle.std.specs.Prelude.{◌≡◌, [], IfErr, IfOk, slice_index_or};
ghost use Rattle.whole_checks.specs.Planned.{IsPlanned, Says};
ghost use Rattle.whole_checks.specs.Seen as seen;
ghost use Rattle.whole_checks.specs.declared.planning.NoPlan.TheVariants.{OutOfMemory as NoMemory};

use crate::sources::Sources;
use plan_core::Plan;
use program_plan::{PlanAnswer, plan};
use sc_base::{LimitKind, NameId, Names, OutOfMemory};
use sc_check::{CheckAnswer, check};
use sc_typed::Program;
use std::alloc::Global;

/// Why there is no plan.
#[derive(Debug, Drop)]
pub enum NoPlan {
    /// A function of this name has a second body.
    Twice(Vec<u8>),
    /// A limit, and the count that passes it.
    Beyond(LimitKind, u64),
    /// Memory was refused.
    OutOfMemory,
}

impl From<OutOfMemory> for NoPlan {
    ghost from_gives = { λ _ e. e ≡ NoMemory };

    fn from(_refused: OutOfMemory) -> Self {
        NoPlan::OutOfMemory
    }
}

// The text of a name; none where there is no such name.
fn name_text(alloc: Global, names: &Names, name: NameId) -> Result<Vec<u8>, OutOfMemory>
    ensures { IfOk result (λ t. t.items ≡ slice_index_or names.now name.at []) }
{
    if (name.at as usize) < names.len() {
        Ok(names.text(name).as_bytes().to_vec(alloc)?)
    } else {
        Ok(Vec::new(alloc))
    }
}

/// The typed program of all files, and its plan; or the first reason why there is none.
///
/// # Errors
///
/// `Twice` and `Beyond` exactly where this is said of the files in place of a text; `OutOfMemory` where memory is refused.
#[tactic(auto, unfolding(crate::specs::Said::said))]
pub fn planned(alloc: Global, sources: Sources<'_>) -> Result<(Program, Plan), NoPlan>
    ensures made { IfOk result (λ made. IsPlanned (seen.sources sources.entry) made.0 made.1) }
    ensures said { IfErr result (Says (seen.sources sources.entry)) }
{
    let Sources {
        names,
        files,
        units,
        widths,
        machine,
    } = sources;
    let program = match check(alloc, names, files, units, widths, machine) {
        Ok(program) => program,
        Err(CheckAnswer::Duplicate(names, name)) => {
            let text = name_text(alloc, &names, name)?;
            return Err(NoPlan::Twice(text));
        }
        Err(CheckAnswer::Limit(kind, count)) => {
            return Err(NoPlan::Beyond(kind, count));
        }
        Err(CheckAnswer::OutOfMemory) => return Err(NoPlan::OutOfMemory),
    };
    if program.functions.len() > u32::MAX as usize {
        return Err(NoPlan::OutOfMemory);
    }
    match plan(alloc, &program) {
        Ok(plan) => Ok((program, plan)),
        Err(PlanAnswer::Limit(kind, count)) => Err(NoPlan::Beyond(kind, count)),
        Err(PlanAnswer::OutOfMemory) => Err(NoPlan::OutOfMemory),
    }
}
