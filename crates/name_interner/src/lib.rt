//! Names get their numbers while files are cut into tokens: each text is kept once, and its number is its place in the
//! order in which texts came. Behind the last file the texts go up as a plain table, `Names` of `sc_base`.
#![tactic(auto)]

ghost use Rattle.std.specs.Prelude.{◌≡◌, ◌+◌, ◌-◌, ◌^◌, ◌<◌, ◌∷◌, ◌++◌, [], Some, true, false, length, map, slice_get, string_bytes, IsTrue, IfOk, OnErr, MatchOption};
ghost use Rattle.sc_base.specs.Held.{is_named};
ghost use Rattle.sc_base.specs.Names.{place_of, with_text, all_different};

use indexmap::IndexSet;
use sc_base::{NameId, Names, OutOfMemory};
use std::alloc::Global;
use std::marker::Model;

/// The texts of the names that were met so far. Contracts see the list of them, in which all are different.
#[derive(Drop)]
pub struct Interner {
    alloc: Global,
    texts: IndexSet<String>,
}

impl Model for Interner {
    ghost use Rattle.std.specs.Prelude.{List, ℕ, map, string_bytes, IsTrue};
    ghost use Rattle.sc_base.specs.Names.{all_different};

    ghost Value = { List (List ℕ) };

    ghost view = { λ n. map string_bytes n.texts.keys };

    ghost invariant = { λ n. IsTrue (all_different (map string_bytes n.texts.keys)) };
}

impl Interner {
    /// No text yet. It takes no memory.
    pub fn new(alloc: Global) -> Interner
        ensures { result ≡ [] }
    {
        Interner {
            alloc,
            texts: IndexSet::new(alloc),
        }
    }

    /// The number of texts.
    pub fn len(&self) -> usize
        ensures count { result ≡ length self.now }
        ensures different { IsTrue (all_different self.now) }
    {
        self.texts.len()
    }

    /// The place of this text, which goes behind the others where it is not there yet. Where
    /// memory is refused the texts stay as they were.
    pub fn intern(&mut self, text: &str) -> Result<NameId, OutOfMemory>
        requires { length self.old < 2 ^ 32 - 1 }
        ensures place { IfOk result (λ id. id.at ≡ place_of text.now self.old) }
        ensures texts { IfOk result (λ _. self.new ≡ with_text self.old text.now) }
        ensures stands { IfOk result (λ id. slice_get self.new id.at ≡ Some text.now) }
        ensures err { OnErr result (self.new ≡ self.old) }
        ensures different { IsTrue (all_different self.new) }
    {
        if let Some(at) = found(&self.texts, text) {
            return Ok(NameId { at: at as u32 });
        }
        let at = append(&mut self.texts, String::from_str(self.alloc, text)?)?;
        Ok(NameId { at: at as u32 })
    }

    /// The texts as a plain table, each at its place.
    pub fn into_names(self) -> Result<Names, OutOfMemory>
        ensures { IfOk result (λ names. names ≡ self) }
    {
        let Interner { alloc, texts } = self;
        let mut table = Vec::with_capacity(alloc, texts.len())?;
        for text in texts {
            table.push(text)?;
        }
        Ok(Names::from_texts(table))
    }
}

// The place of a text that is there.
fn found(texts: &IndexSet<String>, text: &str) -> Option<usize>
    ensures { MatchOption result (is_named text.now (map string_bytes texts.now.keys) ≡ false)
        (λ at. (is_named text.now (map string_bytes texts.now.keys) ≡ true) × (at ≡ place_of text.now (map string_bytes texts.now.keys)) × (at < length texts.now.keys)
        × (slice_get (map string_bytes texts.now.keys) at ≡ Some text.now)) }
{
    texts.get_index_of(text)
}

// Puts a text that is not there behind the others.
fn append(texts: &mut IndexSet<String>, text: String) -> Result<usize, OutOfMemory>
    requires { is_named (string_bytes text) (map string_bytes texts.old.keys) ≡ false }
    ensures place { IfOk result (λ at. at ≡ length texts.old.keys) }
    ensures texts { IfOk result (λ _. texts.new.keys ≡ texts.old.keys ++ text ∷ []) }
    ensures err { OnErr result (texts.new.keys ≡ texts.old.keys) }
{
    let (at, _) = texts.insert_full(text)?;
    Ok(at)
}
