//! The cone of a gate: the gates that it reads, those that these read, and so on down to gates that are loaded.
ghost use Rattle.std.specs.Prelude.{◌≡◌, ◌<◌, ◌≤◌, ◌+◌, ◌&&◌, ℕ, true, false, length, replicate, slice_set, is_none, IfOk};
ghost use Rattle.clause_builder.specs.Cones.{lit_at, is_marked, with_operands, EachOperand, IsClosedAt, IsClosing, IsCone};

use crate::node_lits::plain_node;
use bit_net::{Gate, Net, Node};
use sat_base::{Lit, OutOfMemory};
use std::alloc::Global;

/// Marks the gates that a node reads.
fn mark_operands(marks: &mut [bool], node: Node)
    requires { EachOperand (λ a. a < length marks.old) node }
    ensures { marks.new ≡ with_operands node marks.old }
{
    match node {
        Node::Constant(_) => {}
        Node::Input(_) => {}
        Node::Not(a) => marks[a.at] = true,
        Node::And(a, b) => mark_both(marks, a, b),
        Node::Or(a, b) => mark_both(marks, a, b),
        Node::Xor(a, b) => mark_both(marks, a, b),
        Node::Mux(c, a, b) => {
            marks[c.at] = true;
            mark_both(marks, a, b)
        }
    }
}

/// Marks two gates.
fn mark_both(marks: &mut [bool], a: Gate, b: Gate)
    requires a { a.at < length marks.old }
    requires b { b.at < length marks.old }
    ensures { marks.new ≡ slice_set (slice_set marks.old a.at true) b.at true }
{
    marks[a.at] = true;
    marks[b.at] = true;
}

/// Whether a gate is marked and not loaded.
pub fn is_open(lits: &[Option<Lit>], marks: &[bool], at: usize) -> bool
    requires marks { at < length marks.now }
    requires lits { at < length lits.now }
    ensures { result ≡ (is_marked marks.now at && is_none (lit_at lits.now at)) }
{
    marks[at] && lits[at].is_none()
}

/// Where gate `at` is marked and not loaded, marks the gates that it reads.
fn close_at(net: &Net, lits: &[Option<Lit>], marks: &mut [bool], at: usize)
    requires at { at < length marks.old }
    requires gates { length marks.old ≤ length net.now }
    requires lits { length marks.old ≤ length lits.now }
    ensures { IsClosing net.now lits.now at marks.old marks.new }
{
    if !is_open(lits, marks, at) {
        return;
    }
    net.sound();
    let read = net.node(Gate { at });
    let node = plain_node(read);
    mark_operands(marks, node);
}

/// Closes the marks, from the last gate down to the first.
fn close_all(net: &Net, lits: &[Option<Lit>], marks: &mut [bool])
    requires gates { length marks.old ≤ length net.now }
    requires lits { length marks.old ≤ length lits.now }
    ensures kept { (g : ℕ) → is_marked marks.old g ≡ true → is_marked marks.new g ≡ true }
    ensures closed { (g : ℕ) → g < length marks.old → IsClosedAt net.now lits.now marks.new g }
{
    let mut at = marks.len();
    while at > 0 {
        at -= 1;
        close_at(net, lits, marks, at);
    }
}

/// So many gates, of which one is marked.
fn first_mark(alloc: Global, at: usize, count: usize) -> Result<Vec<bool>, OutOfMemory>
    requires { at < count }
    ensures { IfOk result (λ marks. marks.items ≡ slice_set (replicate count false) at true) }
{
    let mut marks = vec![in alloc; false; count]?;
    marks[at] = true;
    Ok(marks)
}

/// The cone of a gate, as a mark for each gate up to it.
pub fn cone(
    alloc: Global,
    net: &Net,
    lits: &[Option<Lit>],
    gate: Gate,
) -> Result<Vec<bool>, OutOfMemory>
    requires gate { gate.at < length net.now }
    requires lits { gate.at < length lits.now }
    ensures { IfOk result (λ marks. IsCone net.now lits.now gate.at marks.items) }
{
    let mut marks = first_mark(alloc, gate.at, gate.at + 1)?;
    close_all(net, lits, marks.as_mut_slice());
    Ok(marks)
}
