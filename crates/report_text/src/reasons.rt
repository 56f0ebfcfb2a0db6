//! Why something is passed over, in words.

ghost use Rattle.std.specs.Prelude.{◌≡◌, ◌++◌, OnOk, codes};
ghost use Rattle.sc_world.specs.Paths.{place_text};
ghost use Rattle.report_text.specs.Reasons as spec;

use crate::names::put_place_in_file;
use crate::put::{put, put_number, put_place};
use sc_base::{IllTyped, LimitKind, OutOfMemory, Pos, Skip, Unsupported};
use sc_typed::Program;

#[tactic(auto, unfolding(crate::specs::Reasons::unsupported_word))]
pub fn unsupported_word(kind: Unsupported) -> &'static [u8]
    ensures { result.now ≡ spec.unsupported_word kind }
{
    match kind {
        Unsupported::Float => b"float",
        Unsupported::Wide => b"wide",
        Unsupported::VaList => b"valist",
        Unsupported::Odd => b"odd",
        Unsupported::Union => b"union",
        Unsupported::BitField => b"bitfield",
        Unsupported::Anon => b"anon",
        Unsupported::Arith => b"arith",
        Unsupported::Order => b"order",
        Unsupported::Cast => b"cast",
        Unsupported::Struct => b"struct",
        Unsupported::Static => b"static",
        Unsupported::Vla => b"vla",
        Unsupported::Init => b"init",
        Unsupported::Goto => b"goto",
        Unsupported::Variadic => b"variadic",
        Unsupported::Call => b"call",
    }
}

#[tactic(auto, unfolding(crate::specs::Reasons::ill_typed_word))]
pub fn ill_typed_word(kind: IllTyped) -> &'static [u8]
    ensures { result.now ≡ spec.ill_typed_word kind }
{
    match kind {
        IllTyped::Name => b"name",
        IllTyped::Field => b"field",
        IllTyped::Label => b"label",
        IllTyped::Operand => b"operand",
        IllTyped::Lvalue => b"lvalue",
        IllTyped::Call => b"call",
        IllTyped::Return => b"return",
        IllTyped::Constant => b"constant",
        IllTyped::Incomplete => b"incomplete",
        IllTyped::Again => b"again",
    }
}

#[tactic(auto, unfolding(crate::specs::Reasons::limit_word))]
pub fn limit_word(kind: LimitKind) -> &'static [u8]
    ensures { result.now ≡ spec.limit_word kind }
{
    match kind {
        LimitKind::Files => b"files",
        LimitKind::Input => b"input",
        LimitKind::Functions => b"functions",
        LimitKind::Edges => b"edges",
        LimitKind::Params => b"params",
        LimitKind::Nodes => b"nodes",
        LimitKind::Locations => b"locations",
    }
}

/// Puts the sort of a reason, its kind and its place.
fn put_placed(out: &mut Vec<u8>, sort: &[u8], kind: &[u8], at: Pos) -> Result<(), OutOfMemory>
    ensures { OnOk result (out.new.items ≡ out.old.items ++ (sort.now ++ (kind.now ++ (codes " " ++ place_text at)))) }
{
    put(out, sort)?;
    put(out, kind)?;
    put(out, b" ")?;
    put_place(out, at)
}

/// Puts the reason of a skipped function.
pub(crate) fn put_reason(out: &mut Vec<u8>, skip: Skip) -> Result<(), OutOfMemory>
    ensures { OnOk result (out.new.items ≡ out.old.items ++ spec.reason_text skip) }
{
    match skip {
        Skip::Grammar { pos } => {
            put(out, b"grammar ")?;
            put_place(out, pos)
        }
        Skip::Unsupported { kind, pos } => {
            put_placed(out, b"unsupported ", unsupported_word(kind), pos)
        }
        Skip::IllTyped { kind, pos } => { put_placed(out, b"illtyped ", ill_typed_word(kind), pos) }
        Skip::Limit { kind, count } => {
            put(out, b"limit ")?;
            put(out, limit_word(kind))?;
            put(out, b" ")?;
            put_number(out, count)
        }
    }
}

/// Puts the line of a note: the sort of its reason, and a kind.
#[tactic(auto, unfolding(crate::specs::Reasons::note_line))]
fn put_note_line(
    out: &mut Vec<u8>,
    program: &Program,
    at: Pos,
    sort: &[u8],
    kind: &[u8],
) -> Result<(), OutOfMemory>
    ensures { OnOk result (out.new.items ≡ out.old.items ++ spec.note_line program.now at (sort.now ++ kind.now)) }
{
    put(out, b"note ")?;
    put_place_in_file(out, program, at)?;
    put(out, b" ")?;
    put(out, sort)?;
    put(out, kind)?;
    put(out, b"\n")
}

/// Puts the line of a note; nothing for a limit.
pub(crate) fn put_note(out: &mut Vec<u8>, program: &Program, note: Skip) -> Result<(), OutOfMemory>
    ensures { OnOk result (out.new.items ≡ out.old.items ++ spec.note_text program.now note) }
{
    match note {
        Skip::Grammar { pos } => put_note_line(out, program, pos, b"grammar", b""),
        Skip::Unsupported { kind, pos } => {
            put_note_line(out, program, pos, b"unsupported ", unsupported_word(kind))
        }
        Skip::IllTyped { kind, pos } => {
            put_note_line(out, program, pos, b"illtyped ", ill_typed_word(kind))
        }
        Skip::Limit { .. } => Ok(()),
    }
}
