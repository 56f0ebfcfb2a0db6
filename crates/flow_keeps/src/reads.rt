//! The temps that a node reads.

ghost use Rattle.std.specs.Prelude.{◌≡◌, ◌<◌, ◌≤◌, ◌&&◌, false, [], ◌∷◌, length, MatchOption, IfOk};
ghost use Rattle.bit_net.specs.Runs.{Grown, Gives};
ghost use Rattle.gate_runs.specs.Stands.{gates_top, told};
ghost use Rattle.flow_turns.specs.Kept.{AreTemps, is_kept};
ghost use Rattle.flow_keeps.specs.Reads.{AllKept, IsNamed, each_sure, named, one_of};

use bit_net::{Gate, Net, OutOfMemory};
use flow_turns::Temps;

/// At most two temps.
#[derive(Clone, Copy, Debug)]
pub struct Reads {
    pub first: Option<u32>,
    pub second: Option<u32>,
}

/// Whether some node has kept the temp.
pub fn was_kept(temps: &Temps, temp: usize) -> bool
    ensures { result ≡ is_kept temps.now temp }
{
    match temps.kept.get(temp) {
        Some(kept) => *kept,
        None => false,
    }
}

// A temp, unless some node has kept it, or there is none.
fn unless_kept(temps: &Temps, temp: Option<u32>) -> Option<u32>
    ensures { MatchOption result (AllKept temps.now (one_of temp)) (λ m. (IsNamed m (one_of temp)) × (is_kept temps.now m ≡ false)) }
{
    match temp {
        None => None,
        Some(temp) => if was_kept(temps, temp as usize) {
            None
        } else {
            Some(temp)
        },
    }
}

/// A temp that is read and that no node has kept.
pub fn unkept(temps: &Temps, reads: Reads) -> Option<u32>
    ensures { MatchOption result (AllKept temps.now (named reads)) (λ m. (IsNamed m (named reads)) × (is_kept temps.now m ≡ false)) }
{
    match unless_kept(temps, reads.first) {
        Some(temp) => Some(temp),
        None => unless_kept(temps, reads.second),
    }
}

// The gate with a number, one that never holds where there is none.
fn gate_or_never(net: &Net, gates: &[Gate], k: usize) -> Gate
    requires { gates_top gates.now ≤ length net.now }
    ensures { Gives net.now result.at (λ choice v. told v gates.now k) }
{
    if k < gates.len() {
        gates[k]
    } else {
        net.constant(false)
    }
}

// Holds where the gate does and this temp may be used.
fn and_sure(net: &mut Net, temps: &Temps, gate: Gate, temp: u32) -> Result<Gate, OutOfMemory>
    requires temps { AreTemps net.old temps.now }
    requires gate { gate.at < length net.old }
    ensures grown { Grown net.old net.new }
    ensures ok { IfOk result (λ r. Gives net.new r.at (λ choice v. v gate.at && each_sure v temps.now (temp ∷ []))) }
{
    let sure = gate_or_never(net, temps.sure.as_slice(), temp as usize);
    let both = net.and(gate, sure)?;
    Ok(both)
}

// Holds where the gate does and the temp may be used.
fn sure_of(net: &mut Net, temps: &Temps, gate: Gate, temp: Option<u32>) -> Result<Gate, OutOfMemory>
    requires temps { AreTemps net.old temps.now }
    requires gate { gate.at < length net.old }
    ensures grown { Grown net.old net.new }
    ensures ok { IfOk result (λ r. Gives net.new r.at (λ choice v. v gate.at && each_sure v temps.now (one_of temp))) }
{
    match temp {
        None => Ok(gate),
        Some(temp) => and_sure(net, temps, gate, temp),
    }
}

/// Holds where the gate does and each temp that is read may be used.
pub fn surely(net: &mut Net, temps: &Temps, gate: Gate, reads: Reads) -> Result<Gate, OutOfMemory>
    requires temps { AreTemps net.old temps.now }
    requires gate { gate.at < length net.old }
    ensures grown { Grown net.old net.new }
    ensures ok { IfOk result (λ r. Gives net.new r.at (λ choice v. v gate.at && each_sure v temps.now (named reads))) }
{
    let first = sure_of(net, temps, gate, reads.first)?;
    let both = sure_of(net, temps, first, reads.second)?;
    Ok(both)
}
