//! Guarded sets: made of one target, joined by a gate, and read at a target.
ghost use Rattle.std.specs.Prelude.{◌≡◌, ℕ, ◌<◌, ◌≤◌, Bool, true, false, List, ◌++◌, ◌∷◌, [], length, take, IfOk, OnOk, IsTrue, Some, slice_get, ◌↔◌};
ghost use Rattle.gl_sets.specs.declared.pairs.Pair.{Pair as Pairs};
ghost use Rattle.bit_net.specs.declared.nodes.Node.TheVariants.{Constant};
ghost use Rattle.bit_net.specs.Runs.{Runs, Grown, Gives, Always};
ghost use Rattle.gl_sets.specs.Guards.{Points, guard, has_target, targets_differ, guards_top};
ghost use Rattle.gl_sets.specs.Sets.{IsGood, IsJoin, IsMadeSoFar, chosen_guard};

use crate::Pair;
use bit_net::{Gate, Net, Node, OutOfMemory, runs_fit_tables};
use smallvec::SmallVec;

/// A guarded set.
#[derive(Drop)]
pub struct Set {
    pub pairs: SmallVec<Pair, 4>,
    ghost differ: { targets_differ pairs.items ≡ true },
}

impl Set {
    /// The set that points to this target for every choice.
    #[tactic(auto, using(crate::proofs::GuardLemmas::guard_laws))]
    pub fn one(net: &Net, target: u32) -> Set
        ensures good { IsGood net.now result.pairs.items }
        ensures points { Always net.now (λ choice v. Points v result.pairs.items target) }
    {
        let mut pairs = SmallVec::new(net.alloc());
        pairs.push_reserved(Pair {
            guard: net.constant(true),
            target,
        });
        Set { pairs }
    }

    /// The same set once more.
    pub fn try_clone(&self, net: &Net) -> Result<Set, OutOfMemory>
        ensures { IfOk result (λ r. r.pairs.items ≡ self.now.pairs.items) }
    {
        let pairs = SmallVec::from_slice(net.alloc(), self.pairs.as_slice())?;
        Ok(Set { pairs })
    }
}

/// Whether the gate is a constant false, and so holds for no choice.
pub fn is_never(net: &Net, gate: Gate) -> bool
    requires { gate.at < length net.now }
    ensures exact { IsTrue result ↔ (slice_get net.now gate.at ≡ Some (Constant false)) }
    ensures never { IsTrue result → Always net.now (λ choice v. v gate.at ≡ false) }
{
    net.sound();
    runs_fit_tables();
    match net.node(gate) {
        Node::Constant(b) => !b,
        _ => false,
    }
}

/// The guard of the target's pair, or the constant false where there is none.
#[tactic(auto, using(crate::proofs::GuardLemmas::guard_laws))]
pub fn points(net: &Net, s: &Set, target: u32) -> Gate
    requires { guards_top s.now.pairs.items ≤ length net.now }
    ensures { Gives net.now result.at (λ choice v. guard v s.now.pairs.items target) }
{
    for pair in s.pairs.as_slice() {
        if pair.target == target {
            return pair.guard;
        }
    }
    net.constant(false)
}

/// The set that points to what `a` points to where `c` holds, else to what `b` points to.
pub fn join(net: &mut Net, c: Gate, a: &Set, b: &Set) -> Result<Set, OutOfMemory>
    requires c { c.at < length net.old }
    requires a { guards_top a.now.pairs.items ≤ length net.old }
    requires b { guards_top b.now.pairs.items ≤ length net.old }
    ensures grown { Grown net.old net.new }
    ensures ok { IfOk result (λ r. IsJoin net.new c.at a.now.pairs.items b.now.pairs.items r.pairs.items) }
    ensures good { IsGood net.old a.now.pairs.items → IsGood net.old b.now.pairs.items → IfOk result (λ r. IsGood net.new r.pairs.items) }
{
    let mut pairs = SmallVec::new(net.alloc());
    for pair in a.pairs.as_slice() {
        join_target(net, c, a, b, *pair, &mut pairs)?;
    }
    for pair in b.pairs.as_slice() {
        join_target(net, c, a, b, *pair, &mut pairs)?;
    }
    Ok(Set { pairs })
}

/// Adds the target of a pair to those of a join, under the guard that it has in the set that `c` chooses, unless it is there or
/// that guard never holds.
fn join_target(
    net: &mut Net,
    c: Gate,
    a: &Set,
    b: &Set,
    pair: Pair,
    pairs: &mut SmallVec<Pair, 4>,
) -> Result<(), OutOfMemory>
    requires c { c.at < length net.old }
    requires a { guards_top a.now.pairs.items ≤ length net.old }
    requires b { guards_top b.now.pairs.items ≤ length net.old }
    ensures grown { Grown net.old net.new }
    ensures ok { OnOk result ((seen : List Pairs)
        → IsMadeSoFar net.old (λ v t. chosen_guard v c.at a.now.pairs.items b.now.pairs.items t) seen pairs.old.items
        → IsMadeSoFar net.new (λ v t. chosen_guard v c.at a.now.pairs.items b.now.pairs.items t) (seen ++ pair ∷ []) pairs.new.items) }
{
    let target = pair.target;
    let guard = net.mux(c, points(net, a, target), points(net, b, target))?;
    add_target(net, Pair { guard, target }, pairs)?;
    Ok(())
}

/// Adds a pair, unless its target is there already or its guard never holds.
pub fn add_target(net: &Net, pair: Pair, pairs: &mut SmallVec<Pair, 4>) -> Result<(), OutOfMemory>
    requires { pair.guard.at < length net.now }
    ensures { OnOk result ((of : (ℕ → Bool) → ℕ → Bool) (seen : List Pairs)
        → ((choice v : ℕ → Bool) → Runs net.now choice v → v pair.guard.at ≡ of v pair.target)
        → IsMadeSoFar net.now of seen pairs.old.items → IsMadeSoFar net.now of (seen ++ pair ∷ []) pairs.new.items) }
{
    if holds_target(pairs.as_slice(), pair.target) {
        return Ok(());
    }
    if is_never(net, pair.guard) {
        return Ok(());
    }
    pairs.push(pair)?;
    Ok(())
}

/// Whether some pair has the target.
#[tactic(auto, using(crate::proofs::GuardLemmas::guard_laws))]
fn holds_target(pairs: &[Pair], target: u32) -> bool
    ensures { result ≡ has_target pairs.now target }
{
    for pair in pairs {
        if pair.target == target {
            return true;
        }
    }
    false
}
