// Who answers questions about the runs of a function by gates.

ghost use Rattle.std.specs.Prelude.{◌≡◌, [], length};
ghost use Rattle.bit_net.specs.Circuit.{input_count};

use bit_net::Net;
use fn_gated::{Gated, ask_first, ask_some};
use fn_runs::{Runs, nothing_shown};
use gate_questions::Questions;
use run_questions::{Answerer, Query};
use sat_base::Solver;
use sc_base::OutOfMemory;
use std::alloc::Global;
use std::marker::Model;
use sum_rows::Shown;

/// Who answers questions about the runs of a function by gates. Contracts see who makes the gates, and so the function.
#[derive(Drop)]
pub struct Solving<'p, 'm, 'f, G: Gated + Drop, S: Solver> {
    runs: Runs<'p, 'm, 'f>,
    gates: G,
    net: Net,
    questions: Questions<S>,
    /// No memory was refused within a question.
    usable: bool,
}

impl<'p, 'm, 'f, G: Gated + Drop, S: Solver> Model for Solving<'p, 'm, 'f, G, S> {
    ghost use Rattle.fn_answers.specs.Solved.{IsSolving};

    ghost Value = { G };

    ghost coded = { G.code };

    ghost view = { λ a. a.gates };

    ghost invariant = { λ a. IsSolving a.runs (G.source a.gates) (G.texts a.gates) (G.ready a.gates) a.net a.questions a.usable };
}

impl<'p, 'm, 'f, G: Gated + Drop, S: Solver> Solving<'p, 'm, 'f, G, S> {
    ghost use Rattle.fn_runs.specs.Runs.{source_of, texts_of, layout_of};

    /// Who answers about these runs. `gates` makes the gates of questions to them in the net, whose inputs are the bits of a choice; the
    /// solver has no clauses; `lanes` has a word for each bit, its values in 64 choices that may be any.
    pub fn new(
        alloc: Global,
        runs: Runs<'p, 'm, 'f>,
        gates: G,
        net: Net,
        solver: S,
        lanes: Vec<u64>,
    ) -> Solving<'p, 'm, 'f, G, S>
        requires source { G.source gates ≡ source_of runs }
        requires texts { G.texts gates ≡ texts_of runs }
        requires ready { G.ready gates net }
        requires inputs { input_count net ≡ (layout_of runs).bits }
        requires clauses { S.clauses solver ≡ [] }
        requires lanes { length lanes.items ≡ (layout_of runs).bits }
        ensures source { G.source result ≡ source_of runs.entry }
        ensures texts { G.texts result ≡ texts_of runs.entry }
    {
        let questions = Questions::new(alloc, solver, lanes);
        Solving {
            runs,
            gates,
            net,
            questions,
            usable: true,
        }
    }
}

impl<G: Gated + Drop, S: Solver> Answerer for Solving<'_, '_, '_, G, S> {
    ghost use Rattle.sc_world.specs.Verdict as spec;

    ghost answers = { λ a. spec.answers (G.source a) (G.texts a) };

    fn some(&mut self, asked: Query) -> Result<bool, OutOfMemory> {
        if !self.usable {
            return Err(OutOfMemory);
        }
        self.usable = false;
        match ask_some(&mut self.gates, &mut self.net, &mut self.questions, asked) {
            Ok(holds) => {
                self.usable = true;
                Ok(holds)
            }
            Err(_) => Err(OutOfMemory),
        }
    }

    fn shown(&mut self, asked: Query) -> Result<Shown, OutOfMemory> {
        if !self.usable {
            return Err(OutOfMemory);
        }
        self.usable = false;
        let found = match ask_first(&mut self.gates, &mut self.net, &mut self.questions, asked) {
            Ok(found) => found,
            Err(_) => return Err(OutOfMemory),
        };
        self.usable = true;
        match found {
            Some(choice) => self.runs.show(choice.as_slice()),
            None => Ok(nothing_shown(self.runs.alloc)),
        }
    }
}
