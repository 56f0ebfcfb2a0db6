// What is checked.

use fsm_spec::MachineSpec;
use sc_base::{List, NameId, Names};
use sc_tree::ctype::Widths;
use sc_tree::unit::Unit;

/// The trees of all files, with the widths of the target.
#[derive(Drop)]
pub struct Sources<'a> {
    /// The texts of all names.
    pub names: Names,
    /// The names of the files.
    pub files: List<NameId>,
    /// Their trees.
    pub units: &'a [Unit],
    /// The widths of `long` and of pointers.
    pub widths: Widths,
    /// The machine of states whose operations stand in place of those on locks, if there is one.
    pub machine: Option<MachineSpec>,
}
