//! Two sets joined by an input, and the guards of the result, at each choice.
ghost use Rattle.std.specs.Prelude.{◌≡◌, ◌<◌, ◌≤◌, ◌↔◌, All, IsTrue, length, IfOk};
ghost use Rattle.bit_net.specs.Circuit.{input_count};
ghost use Rattle.bit_net.specs.Runs.{Grown};
ghost use Rattle.gl_sets.specs.Guards.{guards_top};

use crate::values::are_values;
use bit_net::{Gate, Net, OutOfMemory};
use gl_sets::{Set, good_sets_stay_good, join, moved, points, points_are_guards, where_target};
use std::alloc::Global;

/// The set of target 1 where the input holds, else of target 2.
fn joined(net: &mut Net) -> Result<Set, OutOfMemory>
    requires { input_count net.old ≡ 1 }
    ensures grown { Grown net.old net.new }
    ensures below { IfOk result (λ r. guards_top r.pairs.items ≤ length net.new) }
{
    let input = net.input(0);
    join(net, input, &Set::one(net, 1), &Set::one(net, 2))
}

fn is_joined(net: &Net, joined: &Set) -> bool
    requires inputs { input_count net.now ≡ 1 }
    requires below { guards_top joined.now.pairs.items ≤ length net.now }
{
    let at_one = points(net, joined, 1);
    let at_two = points(net, joined, 2);
    let at_null = points(net, joined, 0);
    are_values(
        net,
        &[true],
        &[(at_one, true), (at_two, false), (at_null, false)],
    ) && are_values(net, &[false], &[(at_one, false), (at_two, true)])
}

/// Targets that both sides have stand once.
fn is_joined_again(net: &mut Net, joined: &Set) -> Result<bool, OutOfMemory>
    requires inputs { input_count net.old ≡ 1 }
    requires below { guards_top joined.now.pairs.items ≤ length net.old }
{
    let input = net.input(0);
    let again = join(net, input, joined, &Set::one(net, 1))?;
    Ok(again.pairs.len() == 1)
}

/// Targets that are never chosen do not stand at all.
fn is_always_one(net: &mut Net, joined: &Set) -> Result<bool, OutOfMemory>
    requires { guards_top joined.now.pairs.items ≤ length net.old }
{
    let always = net.constant(true);
    let first = join(net, always, &Set::one(net, 1), joined)?;
    Ok(first.pairs.len() == 1 && points(net, &first, 1) == always)
}

/// Two targets that go to one place share a guard.
fn is_moved_together(net: &mut Net, joined: &Set) -> Result<bool, OutOfMemory>
    requires { guards_top joined.now.pairs.items ≤ length net.old }
{
    if joined.pairs.as_slice().len() != 2 {
        return Ok(false);
    }
    let together = moved(net, joined, &[5, 5])?;
    Ok(together.pairs.len() == 1 && points(net, &together, 5) == net.constant(true))
}

/// Else each keeps its own.
fn is_moved_apart(net: &mut Net, joined: &Set) -> Result<bool, OutOfMemory>
    requires inputs { input_count net.old ≡ 1 }
    requires below { guards_top joined.now.pairs.items ≤ length net.old }
{
    if joined.pairs.as_slice().len() != 2 {
        return Ok(false);
    }
    let input = net.input(0);
    let apart = moved(net, joined, &[5, 6])?;
    Ok(points(net, &apart, 5) == input)
}

/// Whether these are gates of a net with this number of gates.
fn all_below(gates: &[Gate], count: usize) -> bool
    ensures { IsTrue result ↔ All (λ g. g.at < count) gates.now }
{
    gates.iter().all(|gate| gate.at < count)
}

/// The test of the target decides.
fn target_decides(net: &mut Net, joined: &Set) -> Result<bool, OutOfMemory>
    requires inputs { input_count net.old ≡ 1 }
    requires below { guards_top joined.now.pairs.items ≤ length net.old }
{
    let tests = [net.constant(true), net.constant(false)];
    if joined.pairs.as_slice().len() != 2 || !all_below(&tests, net.len()) {
        return Ok(false);
    }
    let input = net.input(0);
    let found = where_target(net, joined, &tests)?;
    Ok(found == input)
}

/// What is asked of the set.
#[derive(Clone, Copy)]
enum Question {
    Joined,
    JoinedAgain,
    AlwaysOne,
    MovedTogether,
    MovedApart,
    Target,
}

/// Whether the set is as it should be, in a net of its own.
fn holds(alloc: Global, question: Question) -> Result<bool, OutOfMemory> {
    let mut net = Net::new(alloc, 1)?;
    let joined = joined(&mut net)?;
    match question {
        Question::Joined => Ok(is_joined(&net, &joined)),
        Question::JoinedAgain => is_joined_again(&mut net, &joined),
        Question::AlwaysOne => is_always_one(&mut net, &joined),
        Question::MovedTogether => is_moved_together(&mut net, &joined),
        Question::MovedApart => is_moved_apart(&mut net, &joined),
        Question::Target => target_decides(&mut net, &joined),
    }
}

#[test]
fn joins_by_an_input(rt: HostRuntime) {
    assert!(rt; holds(rt.alloc(), Question::Joined) == Ok(true));
}

#[test]
fn keeps_sets_short(rt: HostRuntime) {
    assert!(rt; holds(rt.alloc(), Question::JoinedAgain) == Ok(true));
    assert!(rt; holds(rt.alloc(), Question::AlwaysOne) == Ok(true));
    points_are_guards();
    good_sets_stay_good();
}

#[test]
fn moves_targets(rt: HostRuntime) {
    assert!(rt; holds(rt.alloc(), Question::MovedTogether) == Ok(true));
    assert!(rt; holds(rt.alloc(), Question::MovedApart) == Ok(true));
}

#[test]
fn asks_where_the_target_is(rt: HostRuntime) {
    assert!(rt; holds(rt.alloc(), Question::Target) == Ok(true));
}
