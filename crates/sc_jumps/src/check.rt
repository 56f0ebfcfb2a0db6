// Which labels and jumps are not taken.

ghost use Rattle.std.specs.Prelude.{◌≡◌};
ghost use Rattle.sc_jumps.specs.Jumps as spec;

use crate::{Goto, Inward, Jumps};
use sc_base::{IllTyped, Pos, Unsupported};
use sc_rules::{Walk, holds_or, ill_typed_at, unsupported_at};

/// Notes the faults of the labels and jumps of a body: a label that stands twice, a `goto` to a label that does not
/// stand in the body (both are not C), and a `goto` to a label that is no later item of a block round it. It takes
/// no memory.
pub fn check_jumps(walk: &mut Walk, jumps: &Jumps)
    ensures { spec.jumps_of jumps.now walk.old ≡ (tt, walk.new) }
{
    labels_differ(walk, jumps.again());
    gotos_lead(walk, jumps);
}

fn labels_differ(walk: &mut Walk, again: &[Pos])
    ensures { spec.labels_differ again.now walk.old ≡ (tt, walk.new) }
{
    for pos in again {
        holds_or(walk, false, ill_typed_at(IllTyped::Again, *pos));
    }
}

fn gotos_lead(walk: &mut Walk, jumps: &Jumps)
    ensures { spec.gotos_lead jumps.now jumps.now.gotos walk.old ≡ (tt, walk.new) }
{
    for goto in jumps.gotos() {
        leads_to(walk, jumps, goto);
    }
}

fn leads_to(walk: &mut Walk, jumps: &Jumps, goto: &Goto) -> bool
    ensures { spec.leads_to (spec.label_of goto.now.name jumps.now) goto.now walk.old ≡ (result, walk.new) }
{
    match jumps.label(goto.name) {
        None => holds_or(walk, false, ill_typed_at(IllTyped::Label, goto.pos)),
        Some(way) => holds_or(
            walk,
            is_ahead(way.as_slice(), goto.way.as_slice()),
            unsupported_at(Unsupported::Goto, goto.pos),
        ),
    }
}

fn same_step(s: Inward, t: Inward) -> bool
    ensures { result ≡ spec.same_step s t }
{
    match (s, t) {
        (Inward::Item(m), Inward::Item(n)) => m == n,
        (Inward::Part(m), Inward::Part(n)) => m == n,
        _ => false,
    }
}

// Whether a label stands ahead of a `goto`.
fn is_ahead(label: &[Inward], goto: &[Inward]) -> bool
    ensures { result ≡ spec.is_ahead label.now goto.now }
{
    match (label, goto) {
        ([Inward::Item(m)], [Inward::Item(n), ..]) => n < m,
        ([s, label @ ..], [t, goto @ ..]) => same_step(*s, *t) && is_ahead(label, goto),
        _ => false,
    }
}
