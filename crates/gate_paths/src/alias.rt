// Whether two items are at one location.

ghost use Rattle.std.specs.Prelude.{◌≡◌, ℕ, ◌<◌, ◌≤◌, ◌&&◌, ◌||◌, length, IfOk};
ghost use Rattle.bit_net.specs.Runs.{Gives, Grown};
ghost use Rattle.gl_sets.specs.Guards.{guards_top};
ghost use Rattle.gate_paths.specs.Alias.{Meet, MeetSome, MeetTwice, guard_at};
ghost use Rattle.gate_paths.specs.Gathered.{AreItemsBelow};

use crate::gathered::Found;
use bit_net::{Gate, Net, OutOfMemory};
use gl_sets::{Pair, Set, points};

// Holds where `some` does, and where a pair and the set have one location.
fn or_meet(net: &mut Net, some: Gate, pair: Pair, b: &Set) -> Result<Gate, OutOfMemory>
    requires some { some.at < length net.old }
    requires pair { pair.guard.at < length net.old }
    requires b { guards_top b.now.pairs.items ≤ length net.old }
    ensures grown { Grown net.old net.new }
    ensures ok { IfOk result (λ r. Gives net.new r.at
        (λ choice v. v some.at || (v pair.guard.at && guard_at v b.now.pairs.items pair.target))) }
{
    if pair.target == 0 {
        return Ok(some);
    }
    let both = net.and(pair.guard, points(net, b, pair.target))?;
    let more = net.or(some, both)?;
    Ok(more)
}

// Holds where both sets point to one location. What is missing meets nothing.
fn meet(net: &mut Net, a: &[Pair], b: &Set) -> Result<Gate, OutOfMemory>
    requires a { guards_top a.now ≤ length net.old }
    requires b { guards_top b.now.pairs.items ≤ length net.old }
    ensures grown { Grown net.old net.new }
    ensures ok { IfOk result (λ r. Meet net.new a.now b.now.pairs.items r.at) }
{
    let mut some = net.constant(false);
    for pair in a {
        let more = or_meet(net, some, *pair, b)?;
        some = more;
    }
    Ok(some)
}

// Holds where an item is at the location of one of others.
fn meet_some(net: &mut Net, a: &Set, others: &[Found]) -> Result<Gate, OutOfMemory>
    requires a { guards_top a.now.pairs.items ≤ length net.old }
    requires others { AreItemsBelow net.old others.now }
    ensures grown { Grown net.old net.new }
    ensures ok { IfOk result (λ r. MeetSome net.new a.now.pairs.items others.now r.at) }
{
    let mut some = net.constant(false);
    for other in others {
        let met = meet(net, a.pairs.as_slice(), &other.at)?;
        let more = net.or(some, met)?;
        some = more;
    }
    Ok(some)
}

/// Holds where two of the items are at one location.
pub fn meet_twice(net: &mut Net, found: &[Found]) -> Result<Gate, OutOfMemory>
    requires found { AreItemsBelow net.old found.now }
    ensures grown { Grown net.old net.new }
    ensures ok { IfOk result (λ r. MeetTwice net.new found.now r.at) }
{
    let mut some = net.constant(false);
    for k in 0..found.len() {
        let met = meet_some(net, &found[k].at, &found[k + 1..])?;
        let more = net.or(some, met)?;
        some = more;
    }
    Ok(some)
}
