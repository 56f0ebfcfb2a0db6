//! Texts and what they spell, worked out by hand from the definition.

use drat_text::{Certificate, ReadError, read, write};
use sat_base::{Lit, Step};
use std::alloc::Global;

/// The longest text of these tests.
const LONGEST: usize = 1000;

/// The line that breaks the form; none where no line does.
fn broken_line(alloc: Global, text: &str) -> Option<u32> {
    if text.len() > LONGEST {
        return None;
    }
    match read(alloc, text.as_bytes()) {
        Err(ReadError::Malformed { line }) => Some(line),
        Err(ReadError::Memory) => Some(0),
        Ok(_) => None,
    }
}

/// Whether these literals are those of the numbers, which count variables from 1.
fn are_numbers(lits: &[Lit], numbers: &[i64]) -> bool {
    if lits.len() != numbers.len() {
        return false;
    }
    for (lit, number) in lits.iter().zip(numbers) {
        let at = (lit.var % LONGEST) as i64 + 1;
        if *number != (if lit.neg { -at } else { at }) {
            return false;
        }
    }
    true
}

/// Whether this is the second step of `READ`.
fn is_dropped(steps: &[Step]) -> bool {
    match steps {
        [_, Step::Drop(_), _] => true,
        _ => false,
    }
}

const READ: &str = "p cnf 2 2\n1 -2 0\n2 0\nc drat\n-2 0\nd 1 -2 0\n0\n";

fn is_read(certificate: &Certificate) -> bool {
    match certificate.clauses().clauses() {
        [first, _] => {
            certificate.vars() == 2
                && are_numbers(first.lits(), &[1, -2])
                && is_dropped(certificate.steps())
        }
        _ => false,
    }
}

#[test]
fn a_certificate_is_read(rt: HostRuntime) {
    let certificate = read(rt.alloc(), READ.as_bytes());
    assert!(rt; matches!(&certificate, Ok(certificate) if is_read(certificate)));
}

const WRITTEN: &str = "p cnf 2 2\n1 -2 0\n0\nc drat\n-2 0\nd 1 -2 0\n0\n";

/// Whether the certificate of this text is written as the text.
fn is_kept(alloc: Global) -> bool {
    let Ok(certificate) = read(alloc, WRITTEN.as_bytes()) else {
        return false;
    };
    match write(alloc, &certificate) {
        Ok(written) => written.as_slice() == WRITTEN.as_bytes(),
        Err(_) => false,
    }
}

#[test]
fn what_is_written_was_read(rt: HostRuntime) {
    assert!(rt; is_kept(rt.alloc()));
}

/// Texts that have the form.
const WHOLE: &[&str] = &[
    "p cnf 0 0\nc drat",
    "c a comment\np cnf\n 1\t01\r\nc\n1\x0c\n0\nc  drat \r\n0\n",
    "p cnf 2 2 1 2 0 -1 0\nc drat\nd\n1 2\n0 0",
    "p cnf 2147483647 0\nc drat\n2147483647 -1 0",
];

#[test]
fn words_may_stand_anywhere(rt: HostRuntime) {
    for text in WHOLE {
        assert!(rt; broken_line(rt.alloc(), text) == None);
    }
}

/// Texts, and the line of the first word that breaks the form.
const BROKEN: &[(&str, u32)] = &[
    ("", 1),
    ("\n\n", 3),
    ("1 0\n", 1),
    ("p dnf 1 1\n", 1),
    ("p cnf x 1\n", 1),
    ("p cnf\n1 2147483648\n", 2),
    (" c\np cnf 0 0\nc drat", 1),
    ("p cnf 1 1\n2 0\nc drat\n", 2),
    ("p cnf 1 1\n-\n", 2),
    ("p cnf 1 1\n-0\n", 2),
    ("p cnf 1 1\n00\n", 2),
    ("p cnf 1 1\n+1\n", 2),
    ("p cnf 1 1\nd 1 0\n", 2),
    ("p cnf 1 1\n1 p\n", 2),
    ("p cnf 2 2\n1 2 0\n-1 2 0\n2 0\n0\n", 4),
    ("p cnf 1 1\n1 0\n", 3),
    ("p cnf 1 1\n1\nc drat\n", 3),
    ("c drat\np cnf 0 0\n", 1),
    ("p cnf 1 0\nc drat\n1 0\nc drat\n", 4),
    ("p cnf 1 0\nc drat\n1 d 0\n", 3),
    ("p cnf 1 0\nc drat\nd\n", 4),
    ("p cnf 1 0\nc drat\n1", 3),
];

#[test]
fn the_first_word_that_breaks_the_form_has_its_line(rt: HostRuntime) {
    for &(text, line) in BROKEN {
        assert!(rt; broken_line(rt.alloc(), text) == Some(line), "{text}");
    }
}
