//! The tests in which solver and checker of certificates meet: what the solver logs is accepted, and what a slow
//! checker, written from the definition, says of certificates with one change is what `rup_check` says. `small`
//! has the tests of `rup_check` alone, `verifying` whole runs of `saturn_verify`, and `certificates` those of the
//! text of a certificate. `asked` and `first_choices` ask questions about nets of gates, with the splitting solver
//! and the learning one.
#![tactic(auto)]

#[cfg(test)]
mod asked;
#[cfg(test)]
mod certificates;
#[cfg(test)]
mod changed;
#[cfg(test)]
mod first_choices;
#[cfg(test)]
mod formulas;
#[cfg(test)]
mod refuted;
#[cfg(test)]
mod slow;
#[cfg(test)]
mod small;
#[cfg(test)]
mod verifying;
