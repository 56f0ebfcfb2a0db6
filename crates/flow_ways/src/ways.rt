//! The ways that wait at nodes, and the branches that parted them.
ghost use Rattle.std.specs.Prelude.{◌≡◌, ℕ, ◌+◌, ◌<◌, ◌≤◌, max, nat_eq, Bool, true, false, ◌&&◌, ◌||◌, List, [], ◌∷◌, ◌++◌, if◌then◌else◌, length, slice_index_or, slice_get, Some, None, MatchOption, IfOk, OnOk, IfSome};
ghost use Rattle.bit_net.specs.Runs.{Grown, Gives, Always};
ghost use Rattle.flow_ways.specs.Held.{any, held, held_with, AllSplit, AreSplits, ways_top, splits_top};
ghost use Rattle.flow_ways.specs.Sibling.{sibling, node_with, other_side};
ghost use Rattle.flow_ways.specs.Steps.{AreWithin, Leaves, Comes, Branches};

use bit_net::{Gate, Net, OutOfMemory};

/// One way to a node.
#[derive(Clone, Copy, Debug, PartialEq, Eq)]
pub struct Way {
    /// The number of the node at which the way waits.
    pub node: usize,

    /// Holds for the choices that take this way.
    pub gate: Gate,

    /// The number of the branch of which the way is one side, as a hint: `come` looks there, and compares gates.
    pub split: usize,
}

/// A branch, by the gates of its two sides.
#[derive(Debug, Drop)]
pub struct Split {
    pub hit: Gate,
    pub miss: Gate,

    /// The ways that came to the branch.
    pub before: Vec<Way>,
}

/// The ways that wait at nodes, and all branches so far.
#[derive(Debug, Drop)]
pub struct Ways {
    pub waits: Vec<Way>,
    pub splits: Vec<Split>,
}

/// The number of a branch that there is not, for a way that no branch made.
const NO_SPLIT: usize = 0xffff_ffff;

/// Holds where a gate of one of the ways holds.
pub fn any_of(net: &mut Net, ways: &[Way]) -> Result<Gate, OutOfMemory>
    requires { ways_top ways.now ≤ length net.old }
    ensures grown { Grown net.old net.new }
    ensures ok { IfOk result (λ r. Gives net.new r.at (λ choice v. any v ways.now)) }
{
    let mut all = net.constant(false);
    for way in ways {
        all = net.or(all, way.gate)?;
    }
    Ok(all)
}

/// Puts a way that waits beside those at the node, or beside the others.
fn sort_way(
    node: usize,
    way: Way,
    here: &mut Vec<Way>,
    rest: &mut Vec<Way>,
) -> Result<(), OutOfMemory>
    ensures here { OnOk result (here.new.items ≡ (if nat_eq way.node node then here.old.items ++ way ∷ [] else here.old.items)) }
    ensures rest { OnOk result (rest.new.items ≡ (if nat_eq way.node node then rest.old.items else rest.old.items ++ way ∷ [])) }
{
    if way.node == node {
        here.push(way)?;
        Ok(())
    } else {
        rest.push(way)?;
        Ok(())
    }
}

impl Ways {
    /// One way waits at the node, for every choice; there are no branches yet.
    pub fn begin(net: &Net, node: usize) -> Result<Ways, OutOfMemory>
        ensures splits { IfOk result (λ r. r.splits.items ≡ []) }
        ensures within { IfOk result (λ r. AreWithin (length net.now) r) }
        ensures held { IfOk result (λ r. Always net.now (λ choice v. (q : ℕ) → held v r.waits.items q ≡ nat_eq node q)) }
    {
        let gate = net.constant(true);
        let mut waits = Vec::new(net.alloc());
        waits.push(Way {
            node,
            gate,
            split: NO_SPLIT,
        })?;
        Ok(Ways {
            waits,
            splits: Vec::new(net.alloc()),
        })
    }

    /// Takes the ways that wait at a node.
    pub fn leave(&mut self, net: &Net, node: usize) -> Result<Vec<Way>, OutOfMemory>
        ensures ok { IfOk result (λ r. Leaves node self.old self.new r.items) }
        ensures taken { IfOk result (λ r. ways_top r.items ≤ ways_top self.old.waits.items) }
        ensures within { OnOk result (ways_top self.new.waits.items ≤ ways_top self.old.waits.items) }
    {
        let mut here = Vec::new(net.alloc());
        let mut rest = Vec::new(net.alloc());
        for way in &self.waits {
            sort_way(node, *way, &mut here, &mut rest)?;
        }
        self.waits = rest;
        Ok(here)
    }

    /// Lets the ways wait at a node. Two sides of one branch that meet there give the ways from before the branch, and so on.
    pub fn come(&mut self, node: usize, ways: Vec<Way>) -> Result<(), OutOfMemory>
        ensures ok { OnOk result (Comes node ways.items self.old self.new) }
        ensures within { OnOk result (ways_top self.new.waits.items ≤ max (max (ways_top self.old.waits.items) (ways_top ways.items)) (splits_top self.old.splits.items)) }
    {
        let mut todo = ways;
        for _ in 0..u64::MAX {
            match todo.pop() {
                Some(way) => self.turn(node, way, &mut todo)?,
                None => return Ok(()),
            }
        }
        self.settle(node, &todo)?;
        Ok(())
    }

    /// Parts the ways by a test: for the choices where it holds they come to `hit`, for the others to `miss`. `gate` is the gate of
    /// the ways. A side that no choice takes gets no way, and then there is no branch.
    pub fn branch(
        &mut self,
        net: &mut Net,
        ways: Vec<Way>,
        gate: Gate,
        test: Gate,
        hit: usize,
        miss: usize,
    ) -> Result<(), OutOfMemory>
        requires ways { ways_top ways.items ≤ length net.old }
        requires gate { Gives net.old gate.at (λ choice v. any v ways.items) }
        requires test { test.at < length net.old }
        requires within { AreWithin (length net.old) self.old }
        requires splits { AreSplits net.old self.old.splits.items }
        ensures grown { Grown net.old net.new }
        ensures within { OnOk result (AreWithin (length net.new) self.new) }
        ensures splits { OnOk result (AreSplits net.new self.new.splits.items) }
        ensures ok { OnOk result (Always net.new (λ choice v. Branches v ways.items test.at hit miss self.old.waits.items self.new.waits.items)) }
    {
        let hits = net.and(gate, test)?;
        if hits.at == gate.at {
            return self.come(hit, ways);
        }
        let fails = net.not(test)?;
        let misses = net.and(gate, fails)?;
        if misses.at == gate.at {
            return self.come(miss, ways);
        }
        self.part(net, ways, hits, misses, hit, miss)
    }

    /// The node at which the other side of the branch waits that made this way. Ways that no run takes any more may go on there.
    pub fn sibling(&self, way: Way) -> Option<usize>
        ensures { result ≡ sibling self.now.waits.items self.now.splits.items way }
    {
        match self.other_side(way) {
            Some(other) => self.node_with(other),
            None => None,
        }
    }

    /// The node at which a way with this gate waits.
    fn node_with(&self, gate: Gate) -> Option<usize>
        ensures { result ≡ node_with gate.at self.now.waits.items }
    {
        for k in 0..self.waits.len() {
            let way = self.waits[k];
            if way.gate.at == gate.at {
                return Some(way.node);
            }
        }
        None
    }

    /// Makes a branch of the two sides, and lets each come to its node.
    fn part(
        &mut self,
        net: &Net,
        ways: Vec<Way>,
        hits: Gate,
        misses: Gate,
        hit: usize,
        miss: usize,
    ) -> Result<(), OutOfMemory>
        requires ways { ways_top ways.items ≤ length net.now }
        requires hits { hits.at < length net.now }
        requires misses { misses.at < length net.now }
        requires sides { Always net.now (λ choice v. (v hits.at || v misses.at) ≡ any v ways.items) }
        requires within { AreWithin (length net.now) self.old }
        requires splits { AreSplits net.now self.old.splits.items }
        ensures within { OnOk result (AreWithin (length net.now) self.new) }
        ensures splits { OnOk result (AreSplits net.now self.new.splits.items) }
        ensures ok { OnOk result (Always net.now (λ choice v. (q : ℕ) → held v self.new.waits.items q ≡ (held v self.old.waits.items q || (nat_eq hit q && v hits.at) || (nat_eq miss q && v misses.at)))) }
    {
        let split = self.splits.len();
        self.splits.push(Split {
            hit: hits,
            miss: misses,
            before: ways,
        })?;
        self.come_alone(
            net,
            Way {
                node: hit,
                gate: hits,
                split,
            },
        )?;
        self.come_alone(
            net,
            Way {
                node: miss,
                gate: misses,
                split,
            },
        )?;
        Ok(())
    }

    /// Lets one way come to its node.
    fn come_alone(&mut self, net: &Net, way: Way) -> Result<(), OutOfMemory>
        ensures ok { OnOk result (Comes way.node (way ∷ []) self.old self.new) }
        ensures within { OnOk result (ways_top self.new.waits.items ≤ max (max (ways_top self.old.waits.items) (way.gate.at + 1)) (splits_top self.old.splits.items)) }
    {
        let mut alone = Vec::new(net.alloc());
        alone.push(way)?;
        self.come(way.node, alone)?;
        Ok(())
    }

    /// One way comes to the node. Where the other side of its branch waits there, both give way to what led to the branch.
    fn turn(&mut self, node: usize, way: Way, todo: &mut Vec<Way>) -> Result<(), OutOfMemory>
        ensures splits { OnOk result (self.new.splits.items ≡ self.old.splits.items) }
        ensures ok { OnOk result ((v : ℕ → Bool) → AllSplit v self.old.splits.items → (q : ℕ) → held_with v self.new.waits.items node todo.new.items q ≡ held_with v self.old.waits.items node (way ∷ todo.old.items) q) }
        ensures waits { OnOk result (ways_top self.new.waits.items ≤ max (ways_top self.old.waits.items) (way.gate.at + 1)) }
        ensures todo { OnOk result (ways_top todo.new.items ≤ max (ways_top todo.old.items) (splits_top self.old.splits.items)) }
    {
        match self.other_side(way) {
            Some(other) => self.meet(node, way, other, todo),
            None => self.wait(node, way),
        }
    }

    /// The way waits at the node.
    fn wait(&mut self, node: usize, way: Way) -> Result<(), OutOfMemory>
        ensures splits { OnOk result (self.new.splits.items ≡ self.old.splits.items) }
        ensures ok { OnOk result ((v : ℕ → Bool) (q : ℕ) → held v self.new.waits.items q ≡ (held v self.old.waits.items q || (nat_eq node q && v way.gate.at))) }
        ensures waits { OnOk result (ways_top self.new.waits.items ≤ max (ways_top self.old.waits.items) (way.gate.at + 1)) }
    {
        self.waits.push(Way {
            node,
            gate: way.gate,
            split: way.split,
        })?;
        Ok(())
    }

    /// The way comes to a node at which the other side of its branch may wait.
    fn meet(
        &mut self,
        node: usize,
        way: Way,
        other: Gate,
        todo: &mut Vec<Way>,
    ) -> Result<(), OutOfMemory>
        requires split { way.split < length self.old.splits.items }
        requires sides { (v : ℕ → Bool) → AllSplit v self.old.splits.items → (s : Split) → (v way.gate.at || v other.at) ≡ any v (slice_index_or self.old.splits.items way.split s).before.items }
        ensures splits { OnOk result (self.new.splits.items ≡ self.old.splits.items) }
        ensures ok { OnOk result ((v : ℕ → Bool) → AllSplit v self.old.splits.items → (q : ℕ) → held_with v self.new.waits.items node todo.new.items q ≡ held_with v self.old.waits.items node (way ∷ todo.old.items) q) }
        ensures waits { OnOk result (ways_top self.new.waits.items ≤ max (ways_top self.old.waits.items) (way.gate.at + 1)) }
        ensures todo { OnOk result (ways_top todo.new.items ≤ max (ways_top todo.old.items) (splits_top self.old.splits.items)) }
    {
        match self.find(node, other) {
            Some(k) => {
                todo.extend_from_slice(&self.splits[way.split].before)?;
                self.waits.remove(k);
                Ok(())
            }
            None => self.wait(node, way),
        }
    }

    /// The gate of the other side of the branch that made the way.
    fn other_side(&self, way: Way) -> Option<Gate>
        ensures is { MatchOption result (other_side way.gate.at (slice_get self.now.splits.items way.split) ≡ None) (λ other. other_side way.gate.at (slice_get self.now.splits.items way.split) ≡ Some other.at) }
        ensures split { IfSome result (λ other. way.split < length self.now.splits.items) }
        ensures sides { IfSome result (λ other. (v : ℕ → Bool) → AllSplit v self.now.splits.items → (s : Split) → (v way.gate.at || v other.at) ≡ any v (slice_index_or self.now.splits.items way.split s).before.items) }
    {
        if way.split >= self.splits.len() {
            return None;
        }
        let split = &self.splits[way.split];
        if split.hit.at == way.gate.at {
            return Some(split.miss);
        }
        if split.miss.at == way.gate.at {
            return Some(split.hit);
        }
        None
    }

    /// Where a way with this gate stands among those that wait, if one waits at this node.
    fn find(&self, node: usize, gate: Gate) -> Option<usize>
        ensures place { IfSome result (λ k. k < length self.now.waits.items) }
        ensures node { IfSome result (λ k. (w : Way) → (slice_index_or self.now.waits.items k w).node ≡ node) }
        ensures gate { IfSome result (λ k. (w : Way) → (slice_index_or self.now.waits.items k w).gate.at ≡ gate.at) }
    {
        for k in 0..self.waits.len() {
            let way = self.waits[k];
            if way.node == node && way.gate.at == gate.at {
                return Some(k);
            }
        }
        None
    }

    /// Each of the ways waits at the node.
    fn settle(&mut self, node: usize, ways: &[Way]) -> Result<(), OutOfMemory>
        ensures ok { OnOk result (Comes node ways.now self.old self.new) }
        ensures within { OnOk result (ways_top self.new.waits.items ≤ max (ways_top self.old.waits.items) (ways_top ways.now)) }
    {
        for way in ways {
            self.wait(node, *way)?;
        }
        Ok(())
    }
}
