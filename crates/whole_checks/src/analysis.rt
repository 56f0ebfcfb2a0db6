// The analysis of a program's functions, as a work over its plan.

ghost use Rattle.std.specs.Prelude.{◌≡◌, ◌<◌, ◌^◌, length};
ghost use Rattle.program_verdicts.specs.CallGraph as graph;
ghost use Rattle.program_verdicts.specs.Verdicts.{verdict_in};
ghost use Rattle.whole_checks.specs.Said.{HasWholeMachine};

use fn_analysis::analyse;
use plan_core::Plan;
use program_verdicts::verdicts_by_callees;
use sc_base::{OutOfMemory, RowList};
use sc_typed::Program;
use std::alloc::Global;
use sum_rows::Verdict;
use summary_db::Work;
use verdict_copies::copies;

/// The analysis of a program's functions. Each verdict is made of those of the function's kept callees.
#[derive(Drop)]
pub struct Analysis<'p> {
    pub alloc: Global,
    pub program: &'p Program,
    pub plan: &'p Plan,
    /// How often a loop may turn.
    pub depth: u32,
    /// How far pointers are followed at entry.
    pub reach: u32,
    ghost planned: { plan.now ≡ graph.plan program.now },
    ghost whole: { HasWholeMachine program.now.machine },
}

impl Work for Analysis<'_> {
    type Out = Verdict;

    ghost rows = { λ w. w.plan.now.callees };

    ghost defined = { λ w. verdict_in w.program.now w.depth w.reach };

    fn row(&self, function: u32, given: &RowList<Verdict>) -> Result<Verdict, OutOfMemory> {
        verdicts_by_callees();
        let verdicts = copies(self.alloc, given.list.as_slice())?;
        analyse(
            self.alloc,
            self.program,
            function,
            self.plan.callees_of(function),
            verdicts.as_slice(),
            self.depth,
            self.reach,
        )
    }
}
