//! What comes in and what goes out: a file read whole, and bytes written whole, over any files and any sink.
#![tactic(auto)]

ghost use Rattle.std.specs.Prelude.{◌≡◌, ◌≤◌, Ok, Err, false, IfOk, MatchResult};
ghost use Rattle.sc_base.specs.Causes.{Rose};
ghost use Rattle.sc_base.specs.Held.{is_named, IsRead};
ghost use Rattle.sc_base.specs.Taken.{Appends, GotFront};
ghost use Rattle.transfer.specs.declared.ReadError.TheVariants as errors;

use sc_base::{Failed, Files, OutOfMemory, Sink};
use std::alloc::{AllocError, Global};

/// Why a file was not read.
#[derive(Clone, Copy, Debug, PartialEq, Eq)]
pub enum ReadError {
    /// The file is missing, or a read failed.
    Failed,
    /// Memory was refused.
    OutOfMemory,
}

impl From<Failed> for ReadError {
    ghost from_gives = { λ _ e. e ≡ errors.Failed };

    fn from(_failed: Failed) -> ReadError {
        ReadError::Failed
    }
}

impl From<AllocError> for ReadError {
    ghost from_gives = { λ _ e. e ≡ errors.OutOfMemory };

    fn from(_refused: AllocError) -> ReadError {
        ReadError::OutOfMemory
    }
}

/// How many bytes are asked for at once.
const CHUNK: usize = 4096;

/// The bytes of the file of that name, of which no more than the limit are read.
///
/// # Errors
///
/// Failed comes only where the count of faults rose in this call, or stands at its greatest value, and the name is no firm one.
pub fn read_file<F: Files>(
    alloc: Global,
    files: &mut F,
    name: &str,
    limit: usize,
) -> Result<Vec<u8>, ReadError>
    ensures read { IfOk result (λ bytes. IsRead limit (F.held files.old) name.now bytes.items) }
    ensures failed { result ≡ Err errors.Failed → Rose (F.faults files.old) (F.faults files.new) × (is_named name.now (F.firm files.old) ≡ false) }
    ensures held { F.held files.new ≡ F.held files.old }
    ensures firm { F.firm files.new ≡ F.firm files.old }
    ensures later { F.faults files.old ≤ F.faults files.new }
{
    files.start(name)?;
    let mut bytes = Vec::new(alloc);
    let mut room = [0; CHUNK];
    while bytes.len() < limit {
        let space = CHUNK.min(limit - bytes.len());
        let count = files.read(&mut room[..space])?;
        if count == 0 {
            break;
        }
        bytes.extend_from_slice(&room[..count])?;
    }
    Ok(bytes)
}

/// Writes all the bytes.
///
/// # Errors
///
/// Failed comes only where the sink's count of faults rose in this call, or stands at its greatest value. The sink has got a
/// proper front of the bytes then.
pub fn write_all<S: Sink>(sink: &mut S, bytes: &[u8]) -> Result<(), Failed>
    ensures { MatchResult result
        (λ _. Appends (S.taken sink.old) (S.taken sink.new) bytes.now)
        (λ _. GotFront (record { faults_before = S.faults sink.old; faults_after = S.faults sink.new; before = S.taken sink.old; after = S.taken sink.new }) bytes.now) }
{
    let mut written = 0;
    while written < bytes.len() {
        written += sink.write(&bytes[written..])?;
    }
    Ok(())
}
