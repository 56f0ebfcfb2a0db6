// The entry bits of a known call.

ghost use Rattle.std.specs.Prelude.{◌≡◌, ℕ, ◌<◌, ◌≤◌, length, IfOk};
ghost use Rattle.bit_net.specs.Runs.{Grown};
ghost use Rattle.gate_objects.specs.Escapes.{AreBelow};
ghost use Rattle.gate_rows.specs.Entries.{AreEntryBits};

use bit_net::{Net, OutOfMemory};
use bit_words::Word;
use gate_values::truth;
use gl_store::Val;

// So many arguments have an entry bit at most.
const MOST: usize = 3;

// How many of so many arguments have an entry bit.
fn entry_count(count: usize) -> usize
    ensures few { result ≤ 3 }
    ensures within { result ≤ count }
    ensures all { result < 3 → count ≤ result }
{
    if count < MOST { count } else { MOST }
}

/// The entry bits: which of the first three arguments are not 0 and not null, the first one highest.
pub fn entry_bits(net: &mut Net, args: &[Val]) -> Result<Word, OutOfMemory>
    requires args { AreBelow net.old args.now }
    ensures grown { Grown net.old net.new }
    ensures ok { IfOk result (λ r. AreEntryBits net.new args.now r.bits.items) }
{
    let mut bits = Vec::new(net.alloc());
    let count = entry_count(args.len());
    for i in 0..count {
        let bit = truth(net, &args[i])?;
        bits.push(bit)?;
    }
    Ok(Word { bits })
}
