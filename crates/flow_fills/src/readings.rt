//! What was read of cells, where a gate holds, and else what was read of others.

ghost use Rattle.std.specs.Prelude.{◌≡◌, ◌<◌, ◌≤◌, max, length, IfOk};
ghost use Rattle.bit_net.specs.Runs.{Grown};
ghost use Rattle.gl_store.specs.Meets.{val_top};
ghost use Rattle.gate_copies.specs.Readings.{guarded_top, readings_top};
ghost use Rattle.flow_fills.specs.Merged.{AreMerged, IsGuardedBy, IsGuardedOne, IsOneOf, vals_at};

use bit_net::{Gate, Net, OutOfMemory};
use gate_copies::{Guarded, Reading};

// A value that counts where it does and the gate holds besides.
fn guard(net: &mut Net, when: Gate, guarded: &Guarded) -> Result<Guarded, OutOfMemory>
    requires when { when.at < length net.old }
    requires guarded { guarded.now.when.at < length net.old }
    requires val { val_top guarded.now.val ≤ length net.old }
    ensures grown { Grown net.old net.new }
    ensures ok { IfOk result (λ r. IsGuardedOne net.new when.at guarded.now r) }
{
    let both = net.and(when, guarded.when)?;
    let val = guarded.val.try_clone(net)?;
    Ok(Guarded { when: both, val })
}

// The values, each of which counts where it does and the gate holds besides.
fn guard_all(net: &mut Net, when: Gate, vals: &[Guarded]) -> Result<Vec<Guarded>, OutOfMemory>
    requires when { when.at < length net.old }
    requires vals { guarded_top vals.now ≤ length net.old }
    ensures grown { Grown net.old net.new }
    ensures ok { IfOk result (λ r. IsGuardedBy net.new when.at vals.now r.items) }
{
    let mut made = Vec::new(net.alloc());
    for guarded in vals {
        let both = guard(net, when, guarded)?;
        made.push(both)?;
    }
    Ok(made)
}

// The new values where the gate holds, and the old ones where not.
fn one_of(
    net: &mut Net,
    when: Gate,
    new: &[Guarded],
    old: &[Guarded],
) -> Result<Reading, OutOfMemory>
    requires when { when.at < length net.old }
    requires new { guarded_top new.now ≤ length net.old }
    requires old { guarded_top old.now ≤ length net.old }
    ensures grown { Grown net.old net.new }
    ensures ok { IfOk result (λ r. IsOneOf net.new when.at new.now old.now r.vals.items) }
{
    let off = net.not(when)?;
    let mut vals = guard_all(net, when, new)?;
    let mut others = guard_all(net, off, old)?;
    vals.append(&mut others)?;
    Ok(Reading { vals })
}

// The values of the reading with that number; none where there is none.
fn vals_at(readings: &[Reading], number: usize) -> &[Guarded]
    ensures { result.now ≡ vals_at readings.now number }
{
    match readings.get(number) {
        Some(reading) => reading.vals.as_slice(),
        None => &[],
    }
}

fn greater(a: usize, b: usize) -> usize
    ensures { result ≡ max a b }
{
    if a < b { b } else { a }
}

/// What was read of new cells, where the gate holds, and what was read of old ones, where not.
pub fn merged(
    net: &mut Net,
    when: Gate,
    new: &[Reading],
    old: &[Reading],
) -> Result<Vec<Reading>, OutOfMemory>
    requires when { when.at < length net.old }
    requires new { readings_top new.now ≤ length net.old }
    requires old { readings_top old.now ≤ length net.old }
    ensures grown { Grown net.old net.new }
    ensures ok { IfOk result (λ r. AreMerged net.new when.at new.now old.now r.items) }
{
    let mut made = Vec::new(net.alloc());
    for number in 0..greater(new.len(), old.len()) {
        let reading = one_of(net, when, vals_at(new, number), vals_at(old, number))?;
        made.push(reading)?;
    }
    Ok(made)
}
