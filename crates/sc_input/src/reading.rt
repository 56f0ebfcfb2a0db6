// The input of a check, file after file.

ghost use Rattle.std.specs.Prelude.{◌≡◌, ◌≤◌, [], length, map, option_map, IfErr, IfOk};
ghost use Rattle.sc_input.specs.Input.{most_files, so_far, Answers, Begins, Give, IsOpen, RefuseBegin, Stops};

use crate::input::{Input, Reading, with_file};
use crate::machine::{with_machine, without_machine};
use crate::refusal::Refusal;
use sc_base::Files;
use std::alloc::Global;

/// So many files may be named.
const MOST_FILES: usize = 64;

// What these files make of what was read before them.
fn with_files<'a, F: Files>(
    alloc: Global,
    files: &mut F,
    start: Reading,
    named: &[&'a str],
) -> Result<Reading, Refusal<'a>>
    requires room { IsOpen (so_far start) }
    requires first { start.units ≡ [] }
    requires few { length named.now ≤ most_files }
    ensures read { IfOk result (λ reading. Give (F.held files.old) (so_far start) (map (λ name. name.now) named.now) (so_far reading)) }
    ensures stops { IfErr result (Stops (record { held = F.held files.old; firm = F.firm files.old; faults_before = F.faults files.old; faults_after = F.faults files.new }) (so_far start) (map (λ name. name.now) named.now)) }
    ensures held { F.held files.new ≡ F.held files.old }
    ensures firm { F.firm files.new ≡ F.firm files.old }
    ensures later { F.faults files.old ≤ F.faults files.new }
{
    let mut reading = start;
    for name in named {
        reading = with_file(alloc, files, reading, *name)?;
    }
    Ok(reading)
}

// The input where there are not too many files.
fn begun<'a, F: Files>(
    alloc: Global,
    files: &mut F,
    machine: Option<&'a str>,
) -> Result<Reading, Refusal<'a>>
    ensures begins { IfOk result (λ reading. Begins (F.held files.old) (option_map (λ name. name.now) machine.entry) (so_far reading)) }
    ensures room { IfOk result (λ reading. IsOpen (so_far reading) × (reading.units ≡ [])) }
    ensures refused { IfErr result (RefuseBegin (record { held = F.held files.old; firm = F.firm files.old; faults_before = F.faults files.old; faults_after = F.faults files.new }) (option_map (λ name. name.now) machine.entry)) }
    ensures held { F.held files.new ≡ F.held files.old }
    ensures firm { F.firm files.new ≡ F.firm files.old }
    ensures later { F.faults files.old ≤ F.faults files.new }
{
    match machine {
        Some(name) => with_machine(alloc, files, name),
        None => Ok(without_machine(alloc)),
    }
}

/// The input of a check: the machine of the file of that name, if one is named, and then these files in order.
///
/// # Errors
///
/// The first refusal: more than 64 files; of the machine file and then of each file in order, that it was not read,
/// that all files so far have more than 8,388,608 bytes, and that it has no machine or no tokens. `Unread` comes only
/// if the count of faults rose in this call, or stands at its greatest value, and the name is not firm. `OutOfMemory`
/// may come at any time.
pub fn read_input<'a, F: Files>(
    alloc: Global,
    files: &mut F,
    machine: Option<&'a str>,
    named: &[&'a str],
) -> Result<Input, Refusal<'a>>
    ensures answers { Answers (record { held = F.held files.old; firm = F.firm files.old; faults_before = F.faults files.old; faults_after = F.faults files.new })
        (option_map (λ name. name.now) machine.entry) (map (λ name. name.now) named.now) result }
    ensures held { F.held files.new ≡ F.held files.old }
    ensures firm { F.firm files.new ≡ F.firm files.old }
    ensures later { F.faults files.old ≤ F.faults files.new }
{
    if named.len() > MOST_FILES {
        return Err(Refusal::Files(named.len() as u64));
    }
    let start = begun(alloc, files, machine)?;
    let reading = with_files(alloc, files, start, named)?;
    Ok(reading.into_input()?)
}
