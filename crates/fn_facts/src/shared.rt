//! What all rows of a function read.

ghost use Rattle.std.specs.Prelude.{IfOk};
ghost use Rattle.bit_net.specs.Runs.{Grown};
ghost use Rattle.fn_facts.specs.Showing.{AreShared, IsReady};

use crate::around::Around;
use crate::ends::errs_known;
use crate::numbers::entry_number;
use crate::results::is_true;
use bit_net::{Gate, Net, OutOfMemory};
use bit_words::Word;

/// Gates that all rows of a function read.
#[derive(Drop)]
pub struct Shared {
    /// The entry bits as a number.
    pub given: Word,
    /// Holds where the value that the function gives is neither 0 nor null.
    pub truth: Gate,
    /// Holds where the run ends by an error that the caller knows.
    pub known: Gate,
}

impl Shared {
    /// The gates that all rows of a function read. They are made once.
    pub fn new(around: &Around, net: &mut Net) -> Result<Shared, OutOfMemory>
        requires ready { IsReady around.now net.old }
        ensures grown { Grown net.old net.new }
        ensures ok { IfOk result (λ r. AreShared around.now net.new r) }
    {
        let given = entry_number(around, net)?;
        let truth = is_true(net, &around.encoded.result)?;
        let known = errs_known(around, net)?;
        Ok(Shared {
            given,
            truth,
            known,
        })
    }
}
