// Names by number: each text is kept once, and the trees carry its place in their stead.

ghost use Rattle.std.specs.Prelude.{◌≡◌, ◌<◌, [], Some, length, map, slice_get, string_bytes, IsTrue};
ghost use Rattle.sc_base.specs.Names.{all_different};

use crate::NameId;
use std::alloc::Global;
use std::marker::Model;

/// The texts of names, each at its place. Contracts see the list of them, in which all are different.
#[derive(Debug, Drop)]
pub struct Names {
    texts: Vec<String>,
}

impl Model for Names {
    ghost use Rattle.std.specs.Prelude.{List, ℕ, map, string_bytes, IsTrue};
    ghost use Rattle.sc_base.specs.Names.{all_different};

    ghost Value = { List (List ℕ) };

    ghost view = { λ n. map string_bytes n.texts.items };

    ghost invariant = { λ n. IsTrue (all_different (map string_bytes n.texts.items)) };
}

impl Names {
    /// No text yet. It takes no memory.
    pub fn new(alloc: Global) -> Names
        ensures { result ≡ [] }
    {
        Names {
            texts: Vec::new(alloc),
        }
    }

    /// These texts, all different, each at its place. It takes no memory.
    pub fn from_texts(texts: Vec<String>) -> Names
        requires { IsTrue (all_different (map string_bytes texts.items)) }
        ensures { result ≡ map string_bytes texts.items }
    {
        Names { texts }
    }

    /// The number of texts.
    pub fn len(&self) -> usize
        ensures count { result ≡ length self.now }
        ensures different { IsTrue (all_different self.now) }
    {
        self.texts.len()
    }

    /// The text at that place.
    pub fn text(&self, id: NameId) -> &str
        requires { id.at < length self.now }
        ensures text { slice_get self.now id.at ≡ Some result.now }
        ensures different { IsTrue (all_different self.now) }
    {
        self.texts[id.at as usize].as_str()
    }
}
