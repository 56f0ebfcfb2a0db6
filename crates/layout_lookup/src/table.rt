// A table that keeps the first value of each key.

ghost use Rattle.std.specs.Prelude.{◌≡◌, OnOk};
ghost use Rattle.std.specs.HashMap.{get};
ghost use Rattle.layout_lookup.specs.Firsts.{or_else, some_if};

use sc_base::OutOfMemory;
use std::collections::HashMap;
use std::hash::Hash;

/// Notes the value of a key, if the key has none yet.
pub fn note<K: Hash + Eq + Drop, V: Drop>(
    table: &mut HashMap<K, V>,
    key: K,
    value: V,
) -> Result<(), OutOfMemory>
    ensures { OnOk result ((q : K) → get K.eq table.new q ≡ or_else (get K.eq table.old q) (some_if (K.eq q key) value)) }
{
    if !table.contains_key(&key) {
        table.insert(key, value)?;
    }
    Ok(())
}

/// The value of a key.
pub fn find<K: Hash + Eq + Copy, V: Copy>(table: &HashMap<K, V>, key: K) -> Option<V>
    ensures { result ≡ get K.eq table.now key }
{
    table.get(&key).copied()
}
