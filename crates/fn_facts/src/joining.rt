//! Facts that are joined.

ghost use Rattle.std.specs.Prelude.{◌&&◌, ◌||◌, ◌<◌, length, IfOk};
ghost use Rattle.bit_net.specs.Runs.{Grown};
ghost use Rattle.sc_world.specs.Shows as spec;
ghost use Rattle.fn_facts.specs.Showing.{Fact, IsReady, Shows, ShowsAtExit};

use crate::around::Around;
use crate::ends::exits;
use bit_net::{Gate, Net, OutOfMemory};

/// Holds where both facts are facts of the run.
pub fn both(around: &Around, net: &mut Net, a: Gate, b: Gate) -> Result<Gate, OutOfMemory>
    requires a { a.at < length net.old }
    requires b { b.at < length net.old }
    ensures grown { Grown net.old net.new }
    ensures below { IfOk result (λ r. r.at < length net.new) }
    ensures ok { (of also : Fact) → Shows around.now net.old of a.at → Shows around.now net.old also b.at
        → IfOk result (λ r. Shows around.now net.new (λ o. of o && also o) r.at) }
    ensures exit { (of also : Fact) → ShowsAtExit around.now net.old of a.at → ShowsAtExit around.now net.old also b.at
        → IfOk result (λ r. ShowsAtExit around.now net.new (λ o. of o && also o) r.at) }
{
    let _encoded = around.encoded;
    net.and(a, b)
}

/// Holds where one of the facts, or both, are facts of the run.
pub fn either(around: &Around, net: &mut Net, a: Gate, b: Gate) -> Result<Gate, OutOfMemory>
    requires a { a.at < length net.old }
    requires b { b.at < length net.old }
    ensures grown { Grown net.old net.new }
    ensures below { IfOk result (λ r. r.at < length net.new) }
    ensures ok { (of also : Fact) → Shows around.now net.old of a.at → Shows around.now net.old also b.at
        → IfOk result (λ r. Shows around.now net.new (λ o. of o || also o) r.at) }
    ensures exit { (of also : Fact) → ShowsAtExit around.now net.old of a.at → ShowsAtExit around.now net.old also b.at
        → IfOk result (λ r. ShowsAtExit around.now net.new (λ o. of o || also o) r.at) }
{
    let _encoded = around.encoded;
    net.or(a, b)
}

/// Holds where the run comes to the function's end with a fact of its end.
pub fn at_exit(around: &Around, net: &mut Net, part: Gate) -> Result<Gate, OutOfMemory>
    requires ready { IsReady around.now net.old }
    requires part { part.at < length net.old }
    ensures grown { Grown net.old net.new }
    ensures below { IfOk result (λ r. r.at < length net.new) }
    ensures ok { (of : Fact) → ShowsAtExit around.now net.old of part.at
        → IfOk result (λ r. Shows around.now net.new (λ o. spec.exits o && of o) r.at) }
{
    let exits = exits(around, net)?;
    net.and(exits, part)
}
