// A typed program: its structs, globals and functions over all files, and the notes on what was left
// out of it.

use crate::TStmt;
use fsm_spec::MachineSpec;
use sc_base::{List, NameId, Names, Pos, Skip};
use sc_tree::ctype::{CType, Widths};

/// A typed program. Structs, globals and functions go by their place in these lists.
#[derive(Drop)]
pub struct Program {
    /// The texts of all names.
    pub names: Names,
    /// The names of the files, in their order.
    pub files: List<NameId>,
    pub widths: Widths,
    /// The machine whose operations stand in place of those on locks, where one is given.
    pub machine: Option<MachineSpec>,
    /// Structs and unions, in the order of their first mention.
    pub structs: List<StructDef>,
    /// Globals, in the order of their first declaration.
    pub globals: List<Global>,
    /// Functions with bodies, in the order of files and places.
    pub functions: List<Function>,
    /// Why declarations at file scope were left out, in their order.
    pub notes: List<Skip>,
}

/// How much room a type takes, in bytes (C11 6.5.3.4).
#[derive(Clone, Copy, Debug, PartialEq, Eq)]
pub struct Extent {
    pub size: u64,
    pub align: u64,
}

/// A struct or a union (C11 6.7.2.1).
#[derive(Drop)]
pub struct StructDef {
    /// It is a union.
    pub union: bool,
    /// Its members in their order; `None` while it is incomplete.
    pub fields: Option<List<FieldDef>>,
    /// Its size and alignment; `None` while it is incomplete or where it is too large.
    pub extent: Option<Extent>,
}

/// A member of a struct or a union.
#[derive(Drop)]
pub struct FieldDef {
    /// `None` for a bit field without a name, and for an unnamed struct or union.
    pub name: Option<NameId>,
    pub ctype: CType,
    /// The width of a bit field.
    pub bits: Option<u32>,
}

/// A variable with linkage, one for all its declarations (C11 6.2.2).
#[derive(Drop)]
pub struct Global {
    pub name: NameId,
    pub ctype: CType,
    /// The file to which it is local.
    pub file: Option<u32>,
}

/// A parameter or a local of a function.
#[derive(Drop)]
pub struct Param {
    pub name: NameId,
    pub ctype: CType,
}

/// A function with a body. Where its body is skipped it has no parameters and no locals here, and its
/// result is `void`.
#[derive(Drop)]
pub struct Function {
    pub name: NameId,
    /// The place of its name.
    pub pos: Pos,
    pub params: List<Param>,
    pub result: CType,
    /// All variables of the body without linkage, in the order of the text.
    pub locals: List<Param>,
    pub body: TBody,
}

/// The body of a function: its block, or the first thing in it that is not taken.
#[derive(Drop)]
pub enum TBody {
    Tree(TStmt),
    Skipped(Skip),
}
