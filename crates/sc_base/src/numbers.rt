// Different keys, each with its number. Numbers are found by hash, so a look-up costs the same however many keys there
// are.

ghost use Rattle.std.specs.Prelude.{◌≡◌, [], ◌++◌, not, length, take, IfNone, IfOk, OnOk, OnErr};
ghost use Rattle.std.specs.List.{list_any, position_or_len};
ghost use Rattle.std.specs.Option.{option_to_list};
ghost use Rattle.sc_base.specs.Numbers.{insert_key};

use crate::OutOfMemory;
use std::alloc::Global;
use std::collections::HashMap;
use std::hash::Hash;
use std::marker::Model;

/// Different keys in the order in which they came. The number of a key is its place. Contracts see the list of the
/// keys.
#[derive(Debug, Drop)]
pub struct Numbers<K: Hash + Eq> {
    keys: Vec<K>,
    index: HashMap<K, usize>,
}

impl<K: Hash + Eq> Model for Numbers<K> {
    ghost use Rattle.std.specs.Prelude.{List};
    ghost use Rattle.std.specs.HashMap.{get};
    ghost use Rattle.sc_base.specs.Numbers.{IsNumbered};

    ghost Value = { List K };

    ghost view = { λ n. n.keys.items };

    ghost invariant = { λ n. IsNumbered K.eq (get K.eq n.index) n.keys.items };
}

impl<K: Hash + Eq> Numbers<K> {
    /// No key yet. It takes no memory.
    pub fn new(alloc: Global) -> Numbers<K>
        ensures { result ≡ [] }
    {
        Numbers {
            keys: Vec::new(alloc),
            index: HashMap::new(alloc),
        }
    }

    /// The number of keys.
    pub fn len(&self) -> usize
        ensures { result ≡ length self.now }
    {
        self.keys.len()
    }

    /// Whether the key is one of them.
    pub fn contains(&self, key: &K) -> bool
        ensures { result ≡ list_any (K.eq key.now) self.now }
    {
        self.index.contains_key(key)
    }

    /// The number of the key; where it is none of them, the number that it would get.
    pub fn number(&self, key: &K) -> usize
        ensures { result ≡ position_or_len (K.eq key.now) self.now }
    {
        match self.index.get(key) {
            None => self.keys.len(),
            Some(number) => *number,
        }
    }

    /// Puts the key behind the others where it is not there yet, and says whether it is a new one. Where memory is
    /// refused nothing changes.
    pub fn insert(&mut self, key: K) -> Result<bool, OutOfMemory>
    where
        K: Copy + Drop,
        ensures new { IfOk result (λ new. new ≡ not (list_any (K.eq key) self.old)) }
        ensures ok { OnOk result (self.new ≡ insert_key K.eq self.old key) }
        ensures err { OnErr result (self.new ≡ self.old) }
    {
        if self.contains(&key) {
            return Ok(false);
        }
        self.keys.reserve(1)?;
        self.index.insert(key, self.keys.len())?;
        self.keys.push(key)?;
        Ok(true)
    }

    // Takes the last key off.
    fn pop(&mut self) -> Option<K>
    where
        K: Drop,
        ensures last { self.old ≡ self.new ++ option_to_list result }
        ensures empty { IfNone result (self.old ≡ []) }
    {
        let key = self.keys.pop()?;
        let _ = self.index.remove(&key);
        Some(key)
    }

    /// Forgets all keys behind the first so many. It takes no memory.
    #[tactic(auto, using(crate::proofs::KeyNumbers::one_less, std::proofs::lemmas::List::take_all))]
    pub fn truncate(&mut self, count: usize)
    where
        K: Drop,
        ensures { self.new ≡ take count self.old }
    {
        while self.len() > count {
            let _ = self.pop();
        }
    }
}
