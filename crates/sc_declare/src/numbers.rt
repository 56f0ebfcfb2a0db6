// The numbers of globals (C11 6.2.2), found by hash: how many globals a program has does not matter.

ghost use Rattle.std.specs.Prelude.{◌≡◌, [], take, IfOk, OnOk, OnErr};
ghost use Rattle.std.specs.List.{list_any};
ghost use Rattle.sc_declare.specs.Numbers.{is_key, place_of, with_key};

use sc_base::{Numbers, OutOfMemory};
use sc_rules::GlobalKey;
use std::alloc::Global;
use std::marker::Model;

/// The numbers of the globals of a walk. Contracts see the list of their keys, in the order of the globals.
#[derive(Drop)]
pub struct GlobalNumbers {
    keys: Numbers<(u32, Option<u32>)>,
}

impl Model for GlobalNumbers {
    ghost use Rattle.std.specs.Prelude.{List, map};
    ghost use Rattle.sc_rules.specs.declared.walk.GlobalKey.{GlobalKey as Key};
    ghost use Rattle.sc_declare.specs.Numbers.{key_at};

    ghost Value = { List Key };

    ghost view = { λ n. map key_at n.keys };
}

impl GlobalNumbers {
    /// No global yet. It takes no memory.
    pub fn new(alloc: Global) -> GlobalNumbers
        ensures { result ≡ [] }
    {
        GlobalNumbers {
            keys: Numbers::new(alloc),
        }
    }

    /// Whether there is a global with that key.
    pub fn contains(&self, key: GlobalKey) -> bool
        ensures { result ≡ list_any (is_key key) self.now }
    {
        self.keys.contains(&(key.name.at, key.file))
    }

    /// The number of the global with that key; where there is none, the number that it would get. One of 2^32 and
    /// more is refused as too much for memory.
    pub fn number(&self, key: GlobalKey) -> Result<u32, OutOfMemory>
        ensures { IfOk result (λ number. number ≡ place_of key self.now) }
    {
        let number = self.keys.number(&(key.name.at, key.file));
        if number > u32::MAX as usize {
            return Err(OutOfMemory);
        }
        Ok(number as u32)
    }

    /// The number behind all others for a key that has none. Where memory is refused nothing changes.
    pub fn add(&mut self, key: GlobalKey) -> Result<(), OutOfMemory>
        ensures ok { OnOk result (self.new ≡ with_key self.old key) }
        ensures err { OnErr result (self.new ≡ self.old) }
    {
        self.keys.insert((key.name.at, key.file))?;
        Ok(())
    }

    /// Forgets all behind the first so many, as where a declaration is taken back. It takes no memory.
    pub fn truncate(&mut self, count: usize)
        ensures { self.new ≡ take count self.old }
    {
        self.keys.truncate(count);
    }
}
