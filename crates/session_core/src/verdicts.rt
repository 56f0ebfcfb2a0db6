// Equal reports and verdicts.

ghost use Rattle.std.specs.Prelude.{◌≡◌, ◌↔◌, IsTrue, map};
ghost use Rattle.std.specs.Arc.{arc_value};

use crate::same::Same;
use std::sync::Arc;
use sum_rows::{Event, Report, Shown, Verdict, What};

impl Same for What {
    fn is_same(&self, other: &Self) -> bool {
        self == other
    }
}

impl Same for Event {
    fn is_same(&self, other: &Self) -> bool {
        self.line == other.line && self.col == other.col && self.what.is_same(&other.what)
    }
}

impl Same for Shown {
    fn is_same(&self, other: &Self) -> bool {
        self.choice.is_same(&other.choice)
            && self.trace.is_same(&other.trace)
            && self.text.is_same(&other.text)
    }
}

// Whether two reports of two runs each are equal in all three parts.
fn same_pair(paths: bool, one: bool, other: bool) -> bool
    ensures { IsTrue result ↔ (IsTrue paths × IsTrue one × IsTrue other) }
{
    paths && one && other
}

impl Same for Report {
    fn is_same(&self, other: &Self) -> bool {
        match (self, other) {
            (Report::Double(at, runs), Report::Double(to, others)) => {
                at.is_same(to) && runs.is_same(others)
            }
            (Report::Ambiguous(at, one, two), Report::Ambiguous(to, three, four)) => {
                same_pair(at.is_same(to), one.is_same(three), two.is_same(four))
            }
            (Report::Inner(one), Report::Inner(two)) => one.is_same(two),
            (Report::Leak(at, one), Report::Leak(to, two)) => at.is_same(to) && one.is_same(two),
            (Report::Double(_, _), Report::Ambiguous(_, _, _) | Report::Inner(_)) => false,
            (Report::Double(_, _), Report::Leak(_, _)) => false,
            (Report::Ambiguous(_, _, _), Report::Double(_, _) | Report::Inner(_)) => false,
            (Report::Ambiguous(_, _, _), Report::Leak(_, _)) => false,
            (Report::Inner(_), Report::Double(_, _) | Report::Ambiguous(_, _, _)) => false,
            (Report::Inner(_), Report::Leak(_, _)) => false,
            (Report::Leak(_, _), Report::Double(_, _) | Report::Ambiguous(_, _, _)) => false,
            (Report::Leak(_, _), Report::Inner(_)) => false,
        }
    }
}

impl Same for Verdict {
    fn is_same(&self, other: &Self) -> bool {
        match (self, other) {
            (Verdict::Skipped(one), Verdict::Skipped(two)) => one.is_same(two),
            (Verdict::Done(one, reports), Verdict::Done(two, others)) => {
                one.is_same(two) && reports.is_same(others)
            }
            (Verdict::Skipped(_), Verdict::Done(_, _)) => false,
            (Verdict::Done(_, _), Verdict::Skipped(_)) => false,
        }
    }
}

/// Whether two verdicts are equal: the same skip, or the same summary and the same reports with the same runs.
pub fn same_verdict(one: &Verdict, other: &Verdict) -> bool
    ensures { IsTrue result ↔ (one.now ≡ other.now) }
{
    one.is_same(other)
}

/// Whether two lists of shared verdicts have as many, and equal ones at each place.
pub fn same_verdicts(one: &[Arc<Verdict>], other: &[Arc<Verdict>]) -> bool
    ensures { IsTrue result ↔ (map arc_value one.now ≡ map arc_value other.now) }
{
    if one.len() != other.len() {
        return false;
    }
    for k in 0..one.len() {
        if !same_verdict(&one[k], &other[k]) {
            return false;
        }
    }
    true
}
