//! Gates evaluated for 64 choices at once.
ghost use Rattle.std.specs.Prelude.{◌≡◌, ℕ, ◌<◌, if◌then◌else◌, List, length, OnOk};
ghost use Rattle.bit_net.specs.declared.nodes.Node.{Node};
ghost use Rattle.bit_net.specs.Value.{table};
ghost use Rattle.bit_net.specs.Circuit.{input_count, ReadsBelow};
ghost use Rattle.bit_net.specs.Runs.{Grown};
ghost use Rattle.bit_net.specs.Lanes.{bit, lane, AreLanes};

use crate::OutOfMemory;
use crate::nodes::{Gate, Net, Node};

impl Net {
    /// Writes the words of the gates that have none yet. Bit k of the word of a gate is its value for choice k, where bit k of the
    /// word of an input is the bit of choice k. After a refusal the words so far are right.
    pub fn lanes_into(&self, inputs: &[u64], words: &mut Vec<u64>) -> Result<(), OutOfMemory>
        requires inputs { length inputs.now ≡ input_count self.now }
        requires words { AreLanes self.now inputs.now words.old.items }
        ensures words { AreLanes self.now inputs.now words.new.items }
        ensures ok { OnOk result (length words.new.items ≡ length self.now) }
    {
        self.sound();
        for g in words.len()..self.len() {
            let word = word_of(self.node(Gate { at: g }), inputs, words);
            words.push(word)?;
        }
        Ok(())
    }
}

/// Words that were right stay so while the net grows.
pub fn lanes_stay()
    ensures { (old new : List Node) (inputs words : List ℕ) → Grown old new → AreLanes old inputs words → AreLanes new inputs words }
{}

/// The word of a node, from the words of the gates before it.
fn word_of(node: Node, inputs: &[u64], seen: &[u64]) -> u64
    requires { ReadsBelow (length seen.now) (length inputs.now) node }
    ensures { (k : ℕ) → k < 64 → bit result k ≡ table (lane inputs.now k) (lane seen.now k) node }
{
    match node {
        Node::Constant(true) => u64::MAX,
        Node::Constant(false) => 0,
        Node::Input(k) => inputs[k],
        Node::Not(a) => !seen[a.at],
        Node::And(a, b) => seen[a.at] & seen[b.at],
        Node::Or(a, b) => seen[a.at] | seen[b.at],
        Node::Xor(a, b) => seen[a.at] ^ seen[b.at],
        Node::Mux(c, a, b) => mux(seen[c.at], seen[a.at], seen[b.at]),
    }
}

/// The bits of `a` where `c` has ones, and those of `b` where it has none.
fn mux(c: u64, a: u64, b: u64) -> u64
    ensures { (k : ℕ) → k < 64 → bit result k ≡ (if bit c k then bit a k else bit b k) }
{
    (c & a) | (!c & b)
}
