// The runs of a function.

ghost use Rattle.std.specs.Prelude.{◌≡◌, IfOk};
ghost use Rattle.fsm_spec.specs.Table.{IsWhole};
ghost use Rattle.layout_base.specs.Seen as laid;
ghost use Rattle.run_laws.specs.Proper.{IsClosed};
ghost use Rattle.location_texts.specs.Seen as named;

use layout_base::Ground;
use location_texts::Texts;
use sc_base::OutOfMemory;
use sc_interp::Machine;
use sc_typed::{Function, Program};
use std::alloc::Global;

/// The runs of a function.
#[derive(Drop)]
pub struct Runs<'p, 'm, 'f> {
    pub alloc: Global,
    pub machine: Machine<'p, 'm, 'f>,
    /// What its locations are called by.
    pub program: &'p Program,
    pub function: &'p Function,
}

impl<'p, 'm, 'f> Runs<'p, 'm, 'f> {
    ghost use Rattle.fn_runs.specs.Runs.{source_of, texts_of};

    /// The runs of the function at hand. `given` has what is read of the program, and `texts` the layout, which is one that
    /// `places` gives. The machine of states is one that a file spells, or that of locks.
    pub fn new(
        alloc: Global,
        given: Ground<'p, 'm, 'f>,
        texts: Texts<'p, 'f>,
    ) -> Result<Runs<'p, 'm, 'f>, OutOfMemory>
        requires whole { IsWhole (laid.ground_of given).source.machine }
        requires closed { IsClosed (laid.layout_of texts.places.now) }
        ensures source { IfOk result (λ r. source_of r ≡ (laid.ground_of given.entry).source) }
        ensures texts { IfOk result (λ r. texts_of r ≡ named.texts texts.entry) }
    {
        let machine = Machine::reserve(alloc, given, texts.places)?;
        Ok(Runs {
            alloc,
            machine,
            program: texts.program,
            function: texts.function,
        })
    }
}
