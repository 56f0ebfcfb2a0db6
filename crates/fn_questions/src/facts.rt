//! What is known of a function before questions are asked.

ghost use Rattle.std.specs.Prelude.{◌≡◌, ◌<◌, ◌^◌, false, length, IfOk, IfSome, IsTrue, MatchOption};
ghost use Rattle.bit_net.specs.Runs.{Grown};
ghost use Rattle.flow_ends.specs.Encoded.{IsEncoded};
ghost use Rattle.location_texts.specs.Seen as spelled;
ghost use Rattle.run_world.specs.Seen.{env};
ghost use Rattle.walk_laws.specs.Objects.{HasObjects};
ghost use Rattle.fn_questions.specs.Asking.{IsReadyToAsk, errs_at_locations as errs_there};

use crate::erring::errs_at_locations;
use bit_net::{Gate, Net, OutOfMemory};
use error_laws::errors_are_at_locations;
use fn_facts::{Around, Shared};
use fn_walks::Walk;
use location_texts::Texts;
use sum_rows::Row;

/// How a row of a location begins, as a gate.
#[derive(Clone, Copy, Debug)]
pub struct Begun {
    pub at: u32,
    pub row: Row,
    /// Holds where the row begins so.
    pub gate: Gate,
}

impl Begun {
    /// Whether a row of a location begins so.
    pub fn is_begin_of(&self, at: u32, row: Row) -> bool
        ensures at { IsTrue result → self.now.at ≡ at }
        ensures given { IsTrue result → self.now.row.given ≡ row.given }
        ensures before { IsTrue result → self.now.row.before ≡ row.before }
        ensures all { self.now.at ≡ at → self.now.row.given ≡ row.given → self.now.row.before ≡ row.before → IsTrue result }
    {
        self.at == at && self.row.given == row.given && self.row.before == row.before
    }
}

/// How a row of a location ends, as a gate.
#[derive(Clone, Copy, Debug)]
pub struct Ended {
    pub at: u32,
    pub row: Row,
    /// Holds where the run comes to the function's end, and the row ends so.
    pub gate: Gate,
}

impl Ended {
    /// Whether a row of a location ends so.
    pub fn is_end_of(&self, at: u32, row: Row) -> bool
        ensures at { IsTrue result → self.now.at ≡ at }
        ensures gives { IsTrue result → self.now.row.result ≡ row.result }
        ensures after { IsTrue result → self.now.row.after ≡ row.after }
        ensures all { self.now.at ≡ at → self.now.row.result ≡ row.result → self.now.row.after ≡ row.after → IsTrue result }
    {
        self.at == at && self.row.result == row.result && self.row.after == row.after
    }
}

/// What is known of a function before questions are asked.
#[derive(Drop)]
pub struct Facts<'p, 'm, 'f> {
    /// The function, and its runs as gates.
    pub around: Around<'p, 'm, 'f>,
    /// What texts of locations read.
    pub texts: Texts<'p, 'f>,
    /// What all rows read.
    pub shared: Shared,
    /// How the row of a location begins that was asked for last: rows that begin alike are asked for one after the other.
    pub begun: Option<Begun>,
    /// How rows of one location end, as far as they were asked for: many rows that begin otherwise end alike.
    pub ended: Vec<Ended>,
    /// The walks over pointers that were asked for last: all rows of an item need the same ones.
    pub walk: Option<Walk>,
}

impl<'p, 'm, 'f> Facts<'p, 'm, 'f> {
    /// What is known of a function whose runs were made gates of this net. `None` comes exactly where there is no location and a call acts by
    /// a summary with an item of a location that is reached from a global: no question is answered by gates then.
    pub fn new(
        around: Around<'p, 'm, 'f>,
        texts: Texts<'p, 'f>,
        net: &mut Net,
    ) -> Result<Option<Facts<'p, 'm, 'f>>, OutOfMemory>
        requires few { length around.here.places.now.locations.items < 2 ^ 32 }
        requires objects { HasObjects (env around.here).layout }
        requires texts { (spelled.texts texts).layout ≡ (env around.here).layout }
        requires encoded { IsEncoded (env around.here).source (env around.here).layout net.old around.encoded.now }
        ensures grown { Grown net.old net.new }
        ensures ok { IfOk result (λ r. MatchOption r (errs_there (env around.entry.here).source (env around.entry.here).layout ≡ false) (λ f. IsReadyToAsk net.new f)) }
        ensures around { IfOk result (λ r. IfSome r (λ f. f.around ≡ around.entry)) }
        ensures spelled { IfOk result (λ r. IfSome r (λ f. f.texts ≡ texts.entry)) }
    {
        if !errs_at_locations(&around) {
            return Ok(None);
        }
        errors_are_at_locations();
        let shared = Shared::new(&around, net)?;
        let ended = Vec::new(net.alloc());
        Ok(Some(Facts {
            around,
            texts,
            shared,
            begun: None,
            ended,
            walk: None,
        }))
    }
}
