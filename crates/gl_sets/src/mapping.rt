//! Sets whose targets go elsewhere, and the test of what a set points to. A set has few targets, so the targets of a set are looked
//! for by going over it; each pair costs one or two gates at most.
ghost use Rattle.std.specs.Prelude.{◌≡◌, ℕ, ◌<◌, ◌≤◌, ◌+◌, ◌&&◌, ◌||◌, length, All, IfOk, OnOk};
ghost use Rattle.bit_net.specs.Runs.{Grown, Gives};
ghost use Rattle.gl_sets.specs.Guards.{guard, guards_top, with_targets};
ghost use Rattle.gl_sets.specs.Sets.{IsGood, IsMoved, IsMovedSoFar, IsWhere};

use crate::Pair;
use crate::sets::{Set, add_target};
use bit_net::{Gate, Net, OutOfMemory};
use smallvec::SmallVec;

/// The set that points to where the target of `s` goes: `targets` has, for each pair of `s`, the new target. Pairs whose targets go
/// to one place share one guard.
pub fn moved(net: &mut Net, s: &Set, targets: &[u32]) -> Result<Set, OutOfMemory>
    requires wide { length targets.now ≡ length s.now.pairs.items }
    requires s { guards_top s.now.pairs.items ≤ length net.old }
    ensures grown { Grown net.old net.new }
    ensures ok { IfOk result (λ r. IsMoved net.new s.now.pairs.items targets.now r.pairs.items) }
    ensures good { IsGood net.old s.now.pairs.items → IfOk result (λ r. IsGood net.new r.pairs.items) }
{
    let mut pairs = SmallVec::new(net.alloc());
    for i in 0..targets.len() {
        move_target(net, s.pairs.as_slice(), targets, i, &mut pairs)?;
    }
    Ok(Set { pairs })
}

/// Adds the target at a place under the guards of all pairs that go there, unless it is there already or none of these ever holds.
fn move_target(
    net: &mut Net,
    ps: &[Pair],
    targets: &[u32],
    i: usize,
    pairs: &mut SmallVec<Pair, 4>,
) -> Result<(), OutOfMemory>
    requires wide { length targets.now ≡ length ps.now }
    requires place { i < length ps.now }
    requires ps { guards_top ps.now ≤ length net.old }
    ensures grown { Grown net.old net.new }
    ensures ok { OnOk result (IsMovedSoFar net.old ps.now targets.now i pairs.old.items → IsMovedSoFar net.new ps.now targets.now (i + 1) pairs.new.items) }
{
    let target = targets[i];
    let guard = guard_of(net, ps, targets, target)?;
    add_target(net, Pair { guard, target }, pairs)?;
    Ok(())
}

/// Holds where the guard of some pair that goes to the target holds.
fn guard_of(net: &mut Net, ps: &[Pair], targets: &[u32], target: u32) -> Result<Gate, OutOfMemory>
    requires wide { length targets.now ≡ length ps.now }
    requires ps { guards_top ps.now ≤ length net.old }
    ensures grown { Grown net.old net.new }
    ensures ok { IfOk result (λ r. Gives net.new r.at (λ choice v. guard v (with_targets ps.now targets.now) target)) }
{
    let mut some = net.constant(false);
    for i in 0..targets.len() {
        let more = or_if(net, some, ps[i].guard, targets[i] == target)?;
        some = more;
    }
    Ok(some)
}

/// Holds where `some` does, and with `here` also where the guard does.
fn or_if(net: &mut Net, some: Gate, guard: Gate, here: bool) -> Result<Gate, OutOfMemory>
    requires some { some.at < length net.old }
    requires guard { guard.at < length net.old }
    ensures grown { Grown net.old net.new }
    ensures ok { IfOk result (λ r. Gives net.new r.at (λ choice v. v some.at || (here && v guard.at))) }
{
    if here { net.or(some, guard) } else { Ok(some) }
}

/// Holds where the set points to a target whose test holds: `tests` has a gate for each pair of `s`.
pub fn where_target(net: &mut Net, s: &Set, tests: &[Gate]) -> Result<Gate, OutOfMemory>
    requires wide { length tests.now ≡ length s.now.pairs.items }
    requires s { guards_top s.now.pairs.items ≤ length net.old }
    requires tests { All (λ g. g.at < length net.old) tests.now }
    ensures grown { Grown net.old net.new }
    ensures ok { IfOk result (λ r. IsWhere net.new s.now.pairs.items tests.now r.at) }
{
    where_pair(net, s.pairs.as_slice(), tests)
}

/// Holds where the guard of some pair and its test hold.
fn where_pair(net: &mut Net, ps: &[Pair], tests: &[Gate]) -> Result<Gate, OutOfMemory>
    requires wide { length tests.now ≡ length ps.now }
    requires ps { guards_top ps.now ≤ length net.old }
    requires tests { All (λ g. g.at < length net.old) tests.now }
    ensures grown { Grown net.old net.new }
    ensures ok { IfOk result (λ r. IsWhere net.new ps.now tests.now r.at) }
{
    let mut some = net.constant(false);
    for i in 0..tests.len() {
        let more = or_both(net, some, ps[i].guard, tests[i])?;
        some = more;
    }
    Ok(some)
}

/// Holds where `some` does, or both of the others do.
fn or_both(net: &mut Net, some: Gate, guard: Gate, test: Gate) -> Result<Gate, OutOfMemory>
    requires some { some.at < length net.old }
    requires guard { guard.at < length net.old }
    requires test { test.at < length net.old }
    ensures grown { Grown net.old net.new }
    ensures ok { IfOk result (λ r. Gives net.new r.at (λ choice v. v some.at || (v guard.at && v test.at))) }
{
    let both = net.and(guard, test)?;
    net.or(some, both)
}
