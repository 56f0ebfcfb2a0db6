//! Formulas in DIMACS CNF and what is written of them. Their models and their shortest certificates were worked out by
//! hand.

use cnf_answers::{Certified, Decided, FormulaError, certify, decide, read_formula};
use std::alloc::{AllocError, Global};

// Whether this line of the text breaks the form; 0 where none does.
fn breaks(alloc: Global, text: &str, line: u32) -> Result<bool, AllocError> {
    match read_formula(alloc, text.as_bytes().to_vec(alloc)?) {
        Ok(_) => Ok(line == 0),
        Err(FormulaError::Malformed { line: found }) => Ok(found == line),
        Err(_) => Ok(false),
    }
}

fn lines_are_named(alloc: Global) -> Result<bool, AllocError> {
    Ok(
        breaks(alloc, "c a\np cnf 2 2\n1 -2\n0 2 0", 0)?
            && breaks(alloc, "p cnf 2 1\n1 x 0\n", 2)?
            && breaks(alloc, "p cnf 2 1\n1 0\n2 0\n", 3)?,
    )
}

// Whether these are the values of the model that is found; an empty text where there is none.
fn has_values(alloc: Global, text: &str, values: &[u8]) -> Result<bool, AllocError> {
    let Ok(formula) = read_formula(alloc, text.as_bytes().to_vec(alloc)?) else {
        return Ok(false);
    };
    match decide(alloc, &formula) {
        Ok(Decided::Model(text)) => Ok(!values.is_empty() && text.as_slice() == values),
        Ok(Decided::NoModel) => Ok(values.is_empty()),
        Err(_) => Ok(false),
    }
}

// Whether this text is given: the values of a model, or a certificate that there is none.
fn has_text(alloc: Global, text: &str, expected: &[u8]) -> Result<bool, AllocError> {
    let Ok(formula) = read_formula(alloc, text.as_bytes().to_vec(alloc)?) else {
        return Ok(false);
    };
    match certify(alloc, &formula) {
        Ok(Certified::Model(text)) | Ok(Certified::Refuted(text)) => {
            Ok(text.as_slice() == expected)
        }
        Err(_) => Ok(false),
    }
}

fn small_ones_are_decided(alloc: Global) -> Result<bool, AllocError> {
    let one_model = "p cnf 2 2\n1 -2 0\n2 0\n";
    let no_model = "p cnf 1 2\n1 0\n-1 0\n";
    Ok(
        has_values(alloc, one_model, b"v 1 2 0\n")?
            && has_text(alloc, one_model, b"v 1 2 0\n")?
            && has_values(alloc, no_model, b"")?
            && has_text(alloc, no_model, b"p cnf 1 2\n1 0\n-1 0\nc drat\n0\n")?,
    )
}

#[test]
fn lines_that_break_the_form_are_named(rt: HostRuntime) {
    assert!(rt; matches!(lines_are_named(rt.alloc()), Ok(true)));
}

#[test]
fn small_formulas_are_decided(rt: HostRuntime) {
    assert!(rt; matches!(small_ones_are_decided(rt.alloc()), Ok(true)));
}
