//! A text read from its first line to its last.

ghost use Rattle.std.specs.Prelude.{◌^◌, ◌-◌, ◌<◌, length, IfOk};
ghost use Rattle.drat_text.specs.Certificate.{IsBelow};
ghost use Rattle.drat_text.specs.Reading.{Answers, spelled};

use crate::expecting::Reader;
use crate::fault::Stop;
use crate::parts::Parts;
use crate::{Certificate, ReadError};
use std::alloc::Global;

/// The certificate that the bytes of a file spell. It goes over the bytes once, and copies none of them.
///
/// # Errors
///
/// `Malformed` has the line of the first word that breaks the form; where the end of the file breaks it, the last
/// line.
#[tactic(auto, unfolding(crate::specs::Reading::spelled))]
pub fn read(alloc: Global, bytes: &[u8]) -> Result<Certificate, ReadError>
    requires { length bytes.now < 2 ^ 32 - 1 }
    ensures spelled { Answers result (spelled bytes.now) }
    ensures below { IfOk result (λ contents. IsBelow contents) }
{
    let mut reader = Reader::new(alloc);
    let mut lines = Parts::lines(bytes);
    let mut passed: u32 = 0;
    while let Some(line) = lines.next() {
        passed += 1;
        match reader.take_line(line) {
            Ok(()) => {}
            Err(Stop::Form) => return Err(ReadError::Malformed { line: passed }),
            Err(Stop::Memory) => return Err(ReadError::Memory),
        }
    }
    match reader.finish() {
        Some(certificate) => Ok(certificate),
        None => Err(ReadError::Malformed { line: passed }),
    }
}
