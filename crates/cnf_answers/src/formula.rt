// The formula that is read: DIMACS CNF, as in the text of a certificate.

ghost use Rattle.std.specs.Prelude.{◌≡◌, ◌++◌, OnOk, codes};
ghost use Rattle.cnf_answers.specs.Formula.{with_divider, IsRead};

use drat_text::{Certificate, ReadError, read};
use std::alloc::{AllocError, Global};
use thiserror::Error;

/// The greatest length of a formula's text.
const MOST_BYTES: usize = 268_435_456;

/// Why a text gave no formula.
#[derive(Clone, Copy, Debug, PartialEq, Eq, Error)]
pub enum FormulaError {
    #[error("the formula has more than 268435456 bytes")]
    TooLong,
    /// The line of the first word that breaks the form, counted from 1.
    #[error("line {line} breaks the form of a formula")]
    Malformed { line: u32 },
    #[error("out of memory")]
    Memory,
}

/// Puts the line `c drat` behind a formula.
fn divide(text: &mut Vec<u8>) -> Result<(), AllocError>
    ensures { OnOk result (text.new.items ≡ with_divider text.old.items) }
{
    text.extend_from_slice(b"\nc drat\n")
}

/// The formula that a text spells, as a certificate without steps.
pub fn read_formula(alloc: Global, mut text: Vec<u8>) -> Result<Certificate, FormulaError>
    ensures { IsRead text.items result }
{
    if text.len() > MOST_BYTES {
        return Err(FormulaError::TooLong);
    }
    if divide(&mut text).is_err() {
        return Err(FormulaError::Memory);
    }
    match read(alloc, &text) {
        Ok(formula) => Ok(formula),
        Err(ReadError::Malformed { line }) => Err(FormulaError::Malformed { line }),
        Err(ReadError::Memory) => Err(FormulaError::Memory),
    }
}
