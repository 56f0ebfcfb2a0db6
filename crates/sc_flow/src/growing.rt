// A graph while it grows, from its end to its beginning. A node's number is how many nodes were there before it.

ghost use Rattle.std.specs.Prelude.{◌≡◌, ◌+◌, List, length, IfOk};
ghost use Rattle.sc_world.specs.Source.{Struct};
ghost use Rattle.flow_graph.specs.Growing as spec;
ghost use Rattle.sc_flow.specs.Seen as seen;

use crate::node::Node;
use sc_base::OutOfMemory;
use sc_gather::Context;
use std::alloc::Global;

/// The nodes so far, the oldest first, and how many temps and slots are taken.
#[derive(Drop)]
pub struct Growing<'p> {
    pub nodes: Vec<Node<'p>>,
    pub temps: u32,
    pub slots: u32,
}

/// How far a graph has grown.
#[derive(Clone, Copy)]
pub struct Reached {
    pub nodes: usize,
    pub temps: u32,
}

// A count as one of 32 bits. More are answered as want of memory.
pub fn counted(n: usize) -> Result<u32, OutOfMemory>
    ensures { IfOk result (λ k. k ≡ n) }
{
    match u32::try_from(n) {
        Ok(k) => Ok(k),
        Err(_) => Err(OutOfMemory),
    }
}

// A sum in 32 bits.
pub fn added(a: u32, b: u32) -> Result<u32, OutOfMemory>
    ensures { IfOk result (λ n. n ≡ a + b) }
{
    match a.checked_add(b) {
        Some(n) => Ok(n),
        None => Err(OutOfMemory),
    }
}

impl<'p> Growing<'p> {
    // No node yet.
    #[tactic(auto, unfolding(crate::specs::Seen::growing))]
    pub fn new(alloc: Global) -> Growing<'p>
        ensures { (structs : List Struct) → seen.growing structs result ≡ spec.empty }
    {
        Growing {
            nodes: Vec::new(alloc),
            temps: 0,
            slots: 0,
        }
    }

    // One node more: its number.
    #[tactic(auto, unfolding(crate::specs::Seen::growing), using(crate::proofs::Nodes::put_step, crate::proofs::Nodes::put_length))]
    pub fn put(&mut self, here: &Context, node: Node<'p>) -> Result<u32, OutOfMemory>
        ensures { IfOk result (λ at. (at, seen.growing (seen.structs_of here.now) self.new)
            ≡ spec.put (seen.node (seen.structs_of here.now) node.entry) (seen.growing (seen.structs_of here.now) self.old)) }
    {
        let at = counted(self.nodes.len())?;
        self.nodes.push(node)?;
        Ok(at)
    }

    // So many new temps: the number of the first one.
    #[tactic(auto, unfolding(crate::specs::Seen::growing))]
    pub fn fresh(&mut self, here: &Context, n: u32) -> Result<u32, OutOfMemory>
        ensures { IfOk result (λ x. (x, seen.growing (seen.structs_of here.now) self.new)
            ≡ spec.fresh n (seen.growing (seen.structs_of here.now) self.old)) }
    {
        let first = self.temps;
        self.temps = added(first, n)?;
        Ok(first)
    }

    // So many new slots: the number of the first one.
    #[tactic(auto, unfolding(crate::specs::Seen::growing))]
    pub fn fresh_slots(&mut self, here: &Context, n: u32) -> Result<u32, OutOfMemory>
        ensures { IfOk result (λ x. (x, seen.growing (seen.structs_of here.now) self.new)
            ≡ spec.fresh_slots n (seen.growing (seen.structs_of here.now) self.old)) }
    {
        let first = self.slots;
        self.slots = added(first, n)?;
        Ok(first)
    }

    // How far it has grown.
    #[tactic(auto, unfolding(crate::specs::Seen::growing), using(crate::proofs::Nodes::put_length))]
    pub fn reached(&self, here: &Context) -> Reached
        ensures nodes { result.nodes ≡ length (seen.growing (seen.structs_of here.now) self.now).nodes }
        ensures temps { result.temps ≡ (seen.growing (seen.structs_of here.now) self.now).temps }
    {
        Reached {
            nodes: self.nodes.len(),
            temps: self.temps,
        }
    }

    // Takes back what was made since it had grown so far.
    #[tactic(auto, unfolding(crate::specs::Seen::growing), using(crate::proofs::Nodes::rest_is))]
    pub fn take_back(&mut self, here: &Context, reached: Reached)
        ensures { seen.growing (seen.structs_of here.now) self.new
            ≡ seen.back reached.nodes reached.temps (seen.growing (seen.structs_of here.now) self.old) }
    {
        self.nodes.truncate(reached.nodes);
        self.temps = reached.temps;
    }
}
