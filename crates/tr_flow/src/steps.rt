// Who makes gates, as a walk over a graph asks for it.

ghost use Rattle.std.specs.Prelude.{◌≡◌, true};
ghost use Rattle.expr_fits.specs.Around.{exp_of};
ghost use Rattle.flow_keeps.specs.Reads.{named};
ghost use Rattle.flow_graph.specs.Conditions.{temps_of};
ghost use Rattle.sc_flow.specs.Over.{over};
ghost use Rattle.tr_flow.specs.Taken as spec;

use crate::calling::call;
use crate::evaluating::evaluate;
use crate::stepping::Stepping;
use bit_net::{Gate, Net, OutOfMemory};
use expr_fits::{Arity, Around, arity_of};
use flow_gates::Steps;
use flow_keeps::Reads;
use flow_turns::{Made, Temps};
use gl_store::Store;
use run_world::Here;
use sc_flow::{Calling, Expression, Numbers, Want};
use sc_typed::TExpr;
use sc_world::Origin;

// The temps of an expression over kept operands.
#[tactic(auto, using(crate::proofs::Over::reads_none, crate::proofs::Over::reads_one, crate::proofs::Over::reads_two))]
fn read_over(around: &Around, e: &TExpr, x: u32, y: u32) -> Reads
    requires { spec.is_over (exp_of around.now e.now) ≡ true }
    ensures { named result ≡ temps_of (over (exp_of around.now e.now) x y) }
{
    match arity_of(around, e) {
        Arity::Nullary => Reads {
            first: None,
            second: None,
        },
        Arity::Unary => Reads {
            first: Some(x),
            second: None,
        },
        Arity::Binary => Reads {
            first: Some(x),
            second: Some(y),
        },
    }
}

impl Steps for Stepping<'_, '_, '_, '_> {
    ghost use Rattle.tr_flow.specs.Seen as of;
    ghost use Rattle.tr_flow.specs.Taken as spec;

    ghost source = { λ a. of.source_of a };

    ghost layout = { λ a. of.layout_of a };

    ghost takes = { λ a e. spec.takes (of.source_of a) e };

    ghost makes = { λ a c. spec.makes (of.source_of a) (of.layout_of a) c };

    #[tactic(auto, unfolding(run_world::specs::Seen::env))]
    fn reads(&self, e: &Expression) -> Reads {
        let here = Here {
            ground: self.given,
            places: self.layout.places,
            choice: &[],
            turn: 0,
        };
        let around = Around {
            here: &here,
            layout: self.layout,
            temps: &[],
        };
        match e {
            Expression::Over(e, x, y) => read_over(&around, e, *x, *y),
            Expression::Temp(x, _) | Expression::TempPlace(x, _) | Expression::Former(x, _) => {
                Reads {
                    first: Some(*x),
                    second: None,
                }
            }
            Expression::Source(_) | Expression::Truth(_, _) | Expression::Nothing => Reads {
                first: None,
                second: None,
            },
        }
    }

    fn local(&self, number: u32) -> u32 {
        self.layout.location_of(Origin::Local(number))
    }

    fn evaluate(
        &self,
        net: &mut Net,
        store: &mut Store,
        temps: &Temps,
        on: Gate,
        want: Want,
        e: &Expression,
    ) -> Result<Made, OutOfMemory> {
        evaluate(self, net, store, temps, on, want, e)
    }

    fn call(
        &self,
        net: &mut Net,
        store: &mut Store,
        temps: &Temps,
        on: Gate,
        calling: &Calling,
        arguments: Numbers,
    ) -> Result<Made, OutOfMemory> {
        call(self, net, store, temps, on, calling, arguments)
    }
}
