//! The text of one run.

ghost use Rattle.std.specs.Prelude.{◌≡◌, ◌++◌, OnOk, IfOk};
ghost use Rattle.report_text.specs.Replays as spec;

use crate::put::put;
use crate::shown::put_trace;
use sc_base::OutOfMemory;
use sc_typed::Program;
use sc_world::Reason;
use std::alloc::Global;
use sum_rows::Event;

/// How a run ended.
#[derive(Clone, Copy, Debug, PartialEq, Eq)]
pub enum Ending {
    /// The function came to its end.
    Exit,
    /// With an error at a location that the caller knows.
    Error,
    /// With an error at a location that the caller does not know.
    Inner,
    /// The run is set aside.
    Aside(Reason),
}

fn reason_word(reason: Reason) -> &'static [u8]
    ensures { result.now ≡ spec.reason_word reason }
{
    match reason {
        Reason::Null => b"null",
        Reason::Reach => b"reach",
        Reason::Freed => b"freed",
        Reason::Type => b"type",
        Reason::Index => b"index",
        Reason::Divide => b"divide",
        Reason::Shift => b"shift",
        Reason::Depth => b"depth",
        Reason::Alias => b"alias",
        Reason::NoRow => b"norow",
        Reason::NoReturn => b"noreturn",
    }
}

fn put_ending(out: &mut Vec<u8>, ending: Ending, location: &[u8]) -> Result<(), OutOfMemory>
    ensures { OnOk result (out.new.items ≡ out.old.items ++ spec.ending_text ending location.now) }
{
    match ending {
        Ending::Exit => put(out, b"exit"),
        Ending::Error => {
            put(out, b"error ")?;
            put(out, location)
        }
        Ending::Inner => {
            put(out, b"inner ")?;
            put(out, location)
        }
        Ending::Aside(reason) => {
            put(out, b"aside ")?;
            put(out, reason_word(reason))
        }
    }
}

#[tactic(auto, unfolding(crate::specs::Replays::ending_line))]
fn put_ending_line(out: &mut Vec<u8>, ending: Ending, location: &[u8]) -> Result<(), OutOfMemory>
    ensures { OnOk result (out.new.items ≡ out.old.items ++ spec.ending_line ending location.now) }
{
    put(out, b"outcome ")?;
    put_ending(out, ending, location)?;
    put(out, b"\n")
}

/// The text of one run: a line for each event, and a last line that says how it ended. `location` is the text of
/// the location of its error; a run without an error has none.
pub fn replay(
    alloc: Global,
    program: &Program,
    events: &[Event],
    ending: Ending,
    location: &[u8],
) -> Result<Vec<u8>, OutOfMemory>
    ensures { IfOk result (λ t. t.items ≡ spec.replay_text program.now events.now ending location.now) }
{
    let mut out = Vec::new(alloc);
    put_trace(&mut out, program, b"", location, events)?;
    put_ending_line(&mut out, ending, location)?;
    Ok(out)
}
