// What the bytes of a file are.

ghost use Rattle.std.specs.Prelude.{◌^◌, ◌-◌, ◌<◌, length, IfOk};
ghost use Rattle.drat_text.specs.Certificate.{IsBelow};
ghost use Rattle.drat_text.specs.Reading.{Answers, spelled};
ghost use Rattle.verify_runs.specs.Finding.{IsFinding, IsJudged};

use drat_text::{Certificate, ReadError, read};
use rup_check::{Checked, check_proof};
use sat_base::OutOfMemory;
use std::alloc::Global;

/// The greatest length of a file.
const MOST_BYTES: usize = 268_435_456;

/// What the bytes of a file are.
#[derive(Clone, Copy, Debug, PartialEq, Eq)]
pub enum Finding {
    /// They are too many.
    TooLong,
    /// This line breaks the form of a certificate.
    Malformed { line: u32 },
    /// A certificate, with so many clauses and steps.
    Accepted { clauses: usize, steps: usize },
    /// This step, counted from 1, is the first that is not allowed; or all are allowed, the last does not add the
    /// empty clause, and this is one more than their number.
    Rejected { step: usize },
}

// What the checker says of the steps.
fn judge(alloc: Global, certificate: &Certificate) -> Result<Finding, OutOfMemory>
    requires { IsBelow certificate.now }
    ensures { IfOk result (IsJudged certificate.now) }
{
    let clauses = certificate.clauses();
    let steps = certificate.steps();
    match check_proof(alloc, certificate.vars(), clauses, steps)? {
        Checked::Yes => Ok(Finding::Accepted {
            clauses: clauses.clauses().len(),
            steps: steps.len(),
        }),
        Checked::No(step) => Ok(Finding::Rejected { step: step + 1 }),
    }
}

// What these bytes spell. Their memory is given back.
fn read_and_free(alloc: Global, bytes: Vec<u8>) -> Result<Certificate, ReadError>
    requires { length bytes.items < 2 ^ 32 - 1 }
    ensures spelled { Answers result (spelled bytes.items) }
    ensures below { IfOk result (λ contents. IsBelow contents) }
{
    read(alloc, bytes.as_slice())
}

/// What these bytes of a file are. Their memory is given back before the steps are checked.
pub fn find(alloc: Global, bytes: Vec<u8>) -> Result<Finding, OutOfMemory>
    ensures { IfOk result (IsFinding bytes.items) }
{
    if bytes.len() > MOST_BYTES {
        return Ok(Finding::TooLong);
    }
    match read_and_free(alloc, bytes) {
        Ok(certificate) => judge(alloc, &certificate),
        Err(ReadError::Malformed { line }) => Ok(Finding::Malformed { line }),
        Err(ReadError::Memory) => Err(OutOfMemory),
    }
}
