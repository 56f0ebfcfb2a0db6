//! The declarations in force, as a stack whose top is the latest. An index by hash finds the latest
//! entry of a name; each entry keeps which entry the index held before it, so that taking an entry off
//! brings the hidden one back at the cost of one look-up.

ghost use Rattle.std.specs.Prelude.{◌≡◌, ℕ, ◌+◌, ◌^◌, ◌<◌, [], ◌∷◌, ◌++◌, nat_eq, length, take, drop, if◌then◌else◌, Option, Some, None, IsSome, IfOk, OnOk, OnErr, IfSome, IfNone};
ghost use Rattle.std.specs.Option.{option_copied, option_to_list};
ghost use Rattle.std.specs.Map.{lookup, update};
ghost use Rattle.std.specs.HashMap.{get};

use sc_base::OutOfMemory;
use std::alloc::Global;
use std::collections::HashMap;
use std::marker::Model;

/// A declaration: a name, what it means, and the number of the entry that it hides.
#[derive(Drop)]
pub struct Entry<T> {
    pub name: u32,
    pub value: T,
    pub hidden: Option<usize>,
}

/// The declarations in force. Contracts see the names with what they mean, the latest first.
#[derive(Drop)]
pub struct Stack<T> {
    entries: Vec<Entry<T>>,
    index: HashMap<u32, usize>,
}

impl<T> Model for Stack<T> {
    ghost use Rattle.std.specs.Prelude.{List, ℕ, nat_eq, map, reverse};
    ghost use Rattle.std.specs.HashMap.{get};

    ghost Value = { List (ℕ × T) };

    ghost use Rattle.scopes.specs.Stack.{named, IsIndexed};

    ghost view = { λ s. map named (reverse s.entries.items) };

    ghost invariant = { λ s. IsIndexed (get nat_eq s.index) (reverse s.entries.items) };
}

impl<T> Stack<T> {
    /// No declaration. It takes no memory yet.
    pub fn new(alloc: Global) -> Stack<T>
        ensures { result ≡ [] }
    {
        Stack {
            entries: Vec::new(alloc),
            index: HashMap::new(alloc),
        }
    }

    /// The number of declarations.
    pub fn len(&self) -> usize
        ensures { result ≡ length self.now }
    {
        self.entries.len()
    }

    /// What the latest declaration of a name says.
    pub fn get(&self, name: u32) -> Option<&T>
        ensures { option_copied result ≡ lookup (nat_eq name) self.now }
    {
        let index = *self.index.get(&name)?;
        Some(&self.entries[index].value)
    }

    /// The same among the latest `count` declarations alone.
    pub fn get_among(&self, name: u32, count: usize) -> Option<&T>
        ensures { option_copied result ≡ lookup (nat_eq name) (take count self.now) }
    {
        let index = *self.index.get(&name)?;
        if self.entries.len() - index <= count {
            Some(&self.entries[index].value)
        } else {
            None
        }
    }

    /// Puts a declaration on top. Where memory is refused nothing changes.
    pub fn push(&mut self, name: u32, value: T) -> Result<(), OutOfMemory>
    where
        T: Drop,
        ensures ok { OnOk result (self.new ≡ (name, value) ∷ self.old) }
        ensures err { OnErr result (self.new ≡ self.old) }
        ensures small { length self.new < 2 ^ 64 }
    {
        self.entries.reserve(1)?;
        let hidden = self.index.insert(name, self.entries.len())?;
        self.entries.push(Entry {
            name,
            value,
            hidden,
        })?;
        Ok(())
    }

    /// Takes the top declaration off. What it hid stands again.
    pub fn pop(&mut self) -> Option<(u32, T)>
        ensures top { self.old ≡ option_to_list result ++ self.new }
        ensures empty { IfNone result (self.old ≡ []) }
    {
        let Entry {
            name,
            value,
            hidden,
        } = self.entries.pop()?;
        restore(&mut self.index, name, hidden);
        Some((name, value))
    }

    /// Takes all declarations off.
    pub fn clear(&mut self)
    where
        T: Drop,
        ensures { self.new ≡ [] }
    {
        self.entries.clear();
        self.index.clear();
    }
}

// Sets the index of a name that is there back to what it was, which takes no memory.
fn restore(index: &mut HashMap<u32, usize>, name: u32, hidden: Option<usize>)
    requires { IsSome (get nat_eq index.old name) }
    ensures { (other : ℕ) → get nat_eq index.new other ≡ update nat_eq (get nat_eq index.old) name hidden other }
{
    match hidden {
        Some(number) => {
            let _ = index.insert(name, number);
        }
        None => {
            let _ = index.remove(&name);
        }
    }
}
