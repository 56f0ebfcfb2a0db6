//! The cone of a gate.

ghost use Rattle.std.specs.Prelude.{◌≡◌, ◌<◌, ◌≤◌, ℕ, true, false, length, replicate, slice_set, IfOk};
ghost use Rattle.net_goals.specs.Cones.{EachOperand, IsClosedAt, IsClosing, IsCone, is_marked, with_operands};

use bit_net::{Gate, Net, Node};
use sat_base::OutOfMemory;
use std::alloc::Global;

// Marks two gates.
fn mark_both(marks: &mut [bool], a: Gate, b: Gate)
    requires a { a.at < length marks.old }
    requires b { b.at < length marks.old }
    ensures { marks.new ≡ slice_set (slice_set marks.old a.at true) b.at true }
{
    marks[a.at] = true;
    marks[b.at] = true;
}

// Marks the gates that a node reads.
fn mark_operands(marks: &mut [bool], node: Node)
    requires { EachOperand (λ a. a < length marks.old) node }
    ensures { marks.new ≡ with_operands node marks.old }
{
    match node {
        Node::Constant(_) => {}
        Node::Input(_) => {}
        Node::Not(a) => marks[a.at] = true,
        Node::And(a, b) => mark_both(marks, a, b),
        Node::Or(a, b) => mark_both(marks, a, b),
        Node::Xor(a, b) => mark_both(marks, a, b),
        Node::Mux(c, a, b) => {
            marks[c.at] = true;
            mark_both(marks, a, b)
        }
    }
}

// Where a gate is marked, marks the gates that it reads.
fn close_at(net: &Net, marks: &mut [bool], at: usize)
    requires at { at < length marks.old }
    requires gates { length marks.old ≤ length net.now }
    ensures { IsClosing net.now at marks.old marks.new }
{
    if !marks[at] {
        return;
    }
    net.sound();
    let node = net.node(Gate { at });
    mark_operands(marks, node);
}

// Closes the marks, from the last gate down to the first.
fn close_all(net: &Net, marks: &mut [bool])
    requires gates { length marks.old ≤ length net.now }
    ensures width { length marks.new ≡ length marks.old }
    ensures kept { (g : ℕ) → is_marked marks.old g ≡ true → is_marked marks.new g ≡ true }
    ensures closed { (g : ℕ) → g < length marks.old → IsClosedAt net.now marks.new g }
{
    let mut at = marks.len();
    while at > 0 {
        at -= 1;
        close_at(net, marks, at);
    }
}

// So many gates, of which one is marked.
fn first_mark(alloc: Global, at: usize, count: usize) -> Result<Vec<bool>, OutOfMemory>
    requires { at < count }
    ensures { IfOk result (λ marks. marks.items ≡ slice_set (replicate count false) at true) }
{
    let mut marks = vec![in alloc; false; count]?;
    marks[at] = true;
    Ok(marks)
}

/// The cone of a gate, as a mark for each gate up to it.
pub fn cone(alloc: Global, net: &Net, gate: Gate) -> Result<Vec<bool>, OutOfMemory>
    requires gate { gate.at < length net.now }
    ensures { IfOk result (λ marks. IsCone net.now gate.at marks.items) }
{
    let _gates = net.len();
    let mut marks = first_mark(alloc, gate.at, gate.at + 1)?;
    close_all(net, marks.as_mut_slice());
    Ok(marks)
}
