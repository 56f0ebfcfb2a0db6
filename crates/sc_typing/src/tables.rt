// What stays the same on the way through a file, as tables.

ghost use Rattle.std.specs.Prelude.{◌≡◌};
ghost use Rattle.std.specs.Option.{option_copied};
ghost use Rattle.sc_typing.specs.Tables as spec;

use sc_base::NameId;
use sc_rules::Builtin;
use sc_tree::ctype::{CType, Widths};

/// What stays the same on the way through a file. Each list goes by the numbers of names; behind its end there is
/// nothing.
#[derive(Clone, Copy)]
pub struct Tables<'a> {
    pub widths: Widths,
    /// The number of the file.
    pub file: u32,
    /// The built-in function that a name means where it is called.
    pub builtins: &'a [Option<Builtin>],
    /// The number of the body that a name means in this file.
    pub bodies: &'a [Option<u32>],
    /// Whether a variable of that name is local to this file.
    pub locals: &'a [bool],
    /// The types of the globals over all files are known already.
    pub settled: bool,
    /// The type over all files of the global with that name: of the file's own where it is local to it.
    pub globals: &'a [Option<CType>],
}

impl Tables<'_> {
    /// The widths of the target.
    #[tactic(auto, unfolding(crate::specs::Tables::here_of))]
    pub fn widths(&self) -> Widths
        ensures { result ≡ (spec.here_of self.now).widths }
    {
        self.widths
    }

    /// The number of the file.
    #[tactic(auto, unfolding(crate::specs::Tables::here_of))]
    pub fn file(&self) -> u32
        ensures { result ≡ (spec.here_of self.now).file }
    {
        self.file
    }

    /// The built-in function that a name means where it is called.
    #[tactic(auto, unfolding(crate::specs::Tables::here_of))]
    pub fn builtin(&self, name: NameId) -> Option<Builtin>
        ensures { result ≡ (spec.here_of self.now).builtin name.at }
    {
        match self.builtins.get(name.at as usize) {
            None => None,
            Some(meaning) => *meaning,
        }
    }

    /// The number of the body that a name means in this file.
    #[tactic(auto, unfolding(crate::specs::Tables::here_of))]
    pub fn body(&self, name: NameId) -> Option<u32>
        ensures { result ≡ (spec.here_of self.now).body name.at }
    {
        match self.bodies.get(name.at as usize) {
            None => None,
            Some(number) => *number,
        }
    }

    /// Whether a variable of that name is local to this file.
    #[tactic(auto, unfolding(crate::specs::Tables::here_of))]
    pub fn is_local(&self, name: NameId) -> bool
        ensures { result ≡ (spec.here_of self.now).is_local name.at }
    {
        match self.locals.get(name.at as usize) {
            None => false,
            Some(local) => *local,
        }
    }

    /// Whether the types of the globals over all files are known already.
    #[tactic(auto, unfolding(crate::specs::Tables::here_of))]
    pub fn settled(&self) -> bool
        ensures { result ≡ (spec.here_of self.now).settled }
    {
        self.settled
    }

    /// The type over all files of the global with that name: of the file's own where it is local to it.
    #[tactic(auto, unfolding(crate::specs::Tables::here_of))]
    pub fn global_type(&self, name: NameId) -> Option<&CType>
        ensures { option_copied result ≡ (spec.here_of self.now).global_type name.at }
    {
        match self.globals.get(name.at as usize) {
            None => None,
            Some(t) => t.as_ref(),
        }
    }
}
