//! Expressions, types and declarators: which tree a list of tokens spells, if it spells one.
//!
//! `specs/Reading.antt` has the reading as functions on lists of tokens. Two laws tie it to
//! `sc_tree/specs/Grammar.antt`: what is read is spelled (`sound`), and what is spelled is read
//! (`complete`). The code gives what the functions give: `grammar` reads trees up to a height over a
//! function that reads those lower by one, `primary`, `suffixes`, `prefix`, `chain`, `conditional`,
//! `assignment` and `comma` read expressions, `pieces`, `records` and `enums` specifiers, `direct` and
//! `parameters` declarators, and `parse` ties the knot. `span` has the expression that a span of tokens is.
#![tactic(auto)]

mod assignment;
mod chain;
mod comma;
mod complete;
mod conditional;
mod direct;
mod enums;
mod found;
mod grammar;
mod parameters;
mod parse;
mod pieces;
mod prefix;
mod primary;
mod records;
mod sound;
mod span;
mod suffixes;

pub use complete::{
    how_phrases_begin, one_declarator, one_expression, one_type, reading_is_complete,
};
pub use found::{Declared, Found, Operand, Phrase, Wanted};
pub use grammar::node;
pub use parse::{read_declarator, read_expr, read_specs};
pub use sound::reading_is_spelled;
pub use span::{Parsed, expr};
