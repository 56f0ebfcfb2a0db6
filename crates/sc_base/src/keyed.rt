// Values under different keys, in the order in which they came. They are found by hash.

ghost use Rattle.std.specs.Prelude.{◌≡◌, [], ◌∷◌, ◌++◌, not, is_some, IfOk, OnOk, OnErr};
ghost use Rattle.std.specs.Map.{lookup};
ghost use Rattle.std.specs.Option.{option_copied};
ghost use Rattle.sc_base.specs.Numbers.{insert_pair};

use crate::{Numbers, OutOfMemory};
use std::alloc::Global;
use std::hash::Hash;
use std::marker::Model;

/// Values under different keys, in the order in which they came. Contracts see the list of keys with their values.
#[derive(Debug, Drop)]
pub struct Keyed<K: Hash + Eq, V> {
    keys: Numbers<K>,
    values: Vec<V>,
}

impl<K: Hash + Eq, V> Model for Keyed<K, V> {
    ghost use Rattle.std.specs.Prelude.{◌≡◌, List, length};
    ghost use Rattle.std.specs.List.{zip};

    ghost Value = { List (K × V) };

    ghost view = { λ k. zip k.keys k.values.items };

    ghost invariant = { λ k. length k.keys ≡ length k.values.items };
}

impl<K: Hash + Eq, V> Keyed<K, V> {
    /// No value yet. It takes no memory.
    pub fn new(alloc: Global) -> Keyed<K, V>
        ensures { result ≡ [] }
    {
        Keyed {
            keys: Numbers::new(alloc),
            values: Vec::new(alloc),
        }
    }

    /// The value under that key.
    pub fn get(&self, key: &K) -> Option<&V>
        ensures { option_copied result ≡ lookup (K.eq key.now) self.now }
    {
        self.values.get(self.keys.number(key))
    }

    /// Whether there is a value under that key.
    #[tactic(auto, using(crate::proofs::KeyedValues::value_there))]
    pub fn contains(&self, key: &K) -> bool
        ensures { result ≡ is_some (lookup (K.eq key.now) self.now) }
    {
        self.keys.contains(key)
    }

    /// Puts a value behind the others under a key that has none, and says whether it had none. Where memory is
    /// refused nothing changes.
    #[tactic(auto, using(crate::proofs::KeyedValues::value_there, crate::proofs::KeyedValues::zip_behind))]
    pub fn insert(&mut self, key: K, value: V) -> Result<bool, OutOfMemory>
    where
        K: Copy + Drop,
        V: Drop,
        ensures new { IfOk result (λ new. new ≡ not (is_some (lookup (K.eq key) self.old))) }
        ensures ok { OnOk result (self.new ≡ insert_pair K.eq self.old key value) }
        ensures err { OnErr result (self.new ≡ self.old) }
    {
        self.values.reserve(1)?;
        let new = self.keys.insert(key)?;
        if new {
            self.values.push(value)?;
        }
        Ok(new)
    }
}
