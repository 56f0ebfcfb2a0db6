// The functions with bodies of all files. They are found by hash, so each is looked at once.

ghost use Rattle.std.specs.Prelude.{◌≡◌, ℕ, [], IfOk, OnOk};
ghost use Rattle.sc_program.specs.Bodies as spec;
ghost use Rattle.sc_program.specs.Tables as table;

use crate::firsts::{Firsts, number};
use sc_base::{NameId, OutOfMemory};
use std::alloc::Global;
use std::marker::Model;

/// A function with a body: its file, its name, and whether it is local to the file.
#[derive(Clone, Copy, Debug, PartialEq, Eq)]
pub struct Bodied {
    pub file: u32,
    pub name: u32,
    pub local: bool,
}

// Whether a body clashes with one of those that have numbers.
fn clashes(numbers: &Firsts, body: Bodied) -> bool
    ensures { result ≡ table.clashes body numbers.now }
{
    numbers.get(body.name, Some(body.file)).is_some()
        || (!body.local && numbers.get(body.name, None).is_some())
}

// Notes the number of a body: as one of its file, and as an external one.
fn note_body(numbers: &mut Firsts, k: u32, body: Bodied) -> Result<(), OutOfMemory>
    ensures { OnOk result (numbers.new ≡ table.with_body k body numbers.old) }
{
    numbers.note(body.name, Some(body.file), k)?;
    if body.local {
        return Ok(());
    }
    numbers.note(body.name, None, k)
}

// The first body that clashes with one before it.
fn clash_behind(alloc: Global, bodies: &[Bodied]) -> Result<Option<u32>, OutOfMemory>
    ensures { IfOk result (λ name. name ≡ table.clash_behind 0 bodies.now []) }
{
    let mut numbers = Firsts::new(alloc);
    for (k, body) in bodies.iter().enumerate() {
        if clashes(&numbers, *body) {
            return Ok(Some(body.name));
        }
        note_body(&mut numbers, number(k)?, *body)?;
    }
    Ok(None)
}

/// The name of the first function with a body that clashes with one before it: both have one name, and are both
/// external or in one file (C11 6.9, 3 and 5).
#[tactic(auto, using(crate::proofs::BodyTable::clash_found))]
pub fn first_clash(alloc: Global, bodies: &[Bodied]) -> Result<Option<u32>, OutOfMemory>
    ensures { IfOk result (λ name. name ≡ spec.first_clash [] bodies.now) }
{
    clash_behind(alloc, bodies)
}

// The table of these bodies.
fn number_bodies(alloc: Global, bodies: &[Bodied]) -> Result<Firsts, OutOfMemory>
    ensures { IfOk result (λ numbers. numbers ≡ table.with_bodies 0 bodies.now []) }
{
    let mut numbers = Firsts::new(alloc);
    for (k, body) in bodies.iter().enumerate() {
        note_body(&mut numbers, number(k)?, *body)?;
    }
    Ok(numbers)
}

/// The numbers of the functions with bodies, by file and name. Contracts see the table, of which
/// `body_in` says the number that a name means in a file.
#[derive(Drop)]
pub struct BodyNumbers {
    numbers: Firsts,
}

impl Model for BodyNumbers {
    ghost use Rattle.sc_program.specs.Places.{Table};

    ghost Value = { Table };

    ghost view = { λ b. b.numbers };
}

impl BodyNumbers {
    /// The numbers of those bodies, of which the first has the number 0.
    #[tactic(auto, using(crate::proofs::BodyTable::body_found))]
    pub fn of(alloc: Global, bodies: &[Bodied]) -> Result<BodyNumbers, OutOfMemory>
        ensures { IfOk result (λ numbers. (file name : ℕ) → table.body_in numbers file name ≡ spec.body_named bodies.now file name) }
    {
        let numbers = number_bodies(alloc, bodies)?;
        Ok(BodyNumbers { numbers })
    }

    /// The number of the body that a name means in a file: one in this file, else an external one. It takes no memory.
    pub fn get(&self, file: u32, name: NameId) -> Option<u32>
        ensures { result ≡ table.body_in self.now file name.at }
    {
        match self.numbers.get(name.at, Some(file)) {
            Some(number) => Some(number),
            None => self.numbers.get(name.at, None),
        }
    }
}

/// Whether so many functions with bodies are more than a program may have.
pub fn is_too_many(count: usize) -> bool
    ensures { result ≡ spec.is_too_many count }
{
    count > 4096
}
