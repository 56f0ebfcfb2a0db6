// The first fault: of all faults of a function, or of a declaration at file scope, the one that a skip names.

ghost use Rattle.std.specs.Prelude.{◌≡◌};
ghost use Rattle.sc_rules.specs.Faults as spec;

use crate::Fault;
use sc_base::{IllTyped, Pos, Skip, Unsupported};

fn unsupported_rank(kind: Unsupported) -> u32
    ensures { result ≡ spec.unsupported_rank kind }
{
    match kind {
        Unsupported::Float => 1,
        Unsupported::Wide => 2,
        Unsupported::VaList => 3,
        Unsupported::Odd => 4,
        Unsupported::Union => 5,
        Unsupported::BitField => 6,
        Unsupported::Anon => 7,
        Unsupported::Arith => 8,
        Unsupported::Order => 9,
        Unsupported::Cast => 10,
        Unsupported::Struct => 11,
        Unsupported::Static => 12,
        Unsupported::Vla => 13,
        Unsupported::Init => 14,
        Unsupported::Goto => 15,
        Unsupported::Variadic => 16,
        Unsupported::Call => 17,
    }
}

fn ill_typed_rank(kind: IllTyped) -> u32
    ensures { result ≡ spec.ill_typed_rank kind }
{
    match kind {
        IllTyped::Name => 18,
        IllTyped::Field => 19,
        IllTyped::Label => 20,
        IllTyped::Operand => 21,
        IllTyped::Lvalue => 22,
        IllTyped::Call => 23,
        IllTyped::Return => 24,
        IllTyped::Constant => 25,
        IllTyped::Incomplete => 26,
        IllTyped::Again => 27,
    }
}

// The order of skips at one place.
fn skip_rank(skip: Skip) -> u32
    ensures { result ≡ spec.skip_rank skip }
{
    match skip {
        Skip::Grammar { .. } => 0,
        Skip::Unsupported { kind, .. } => unsupported_rank(kind),
        Skip::IllTyped { kind, .. } => ill_typed_rank(kind),
        Skip::Limit { .. } => 28,
    }
}

/// Whether a fault counts before another: by line, then by column, then by the order of skips.
pub fn is_before(f: Fault, g: Fault) -> bool
    ensures { result ≡ spec.is_before f g }
{
    if f.pos.line == g.pos.line {
        if f.pos.col == g.pos.col {
            skip_rank(f.skip) < skip_rank(g.skip)
        } else {
            f.pos.col < g.pos.col
        }
    } else {
        f.pos.line < g.pos.line
    }
}

/// The first of a fault and of the one that was first before. Of two that are equal in the order the earlier
/// found one stays.
pub fn with_fault(first: Option<Fault>, f: Fault) -> Option<Fault>
    ensures { result ≡ spec.with_fault first f }
{
    match first {
        None => Some(f),
        Some(g) => Some(if is_before(f, g) { f } else { g }),
    }
}

/// The fault of what C allows and this checker does not take.
pub fn unsupported_at(kind: Unsupported, pos: Pos) -> Fault
    ensures { result ≡ spec.unsupported_at kind pos }
{
    Fault {
        pos,
        skip: Skip::Unsupported { kind, pos },
    }
}

/// The fault of what C does not allow.
pub fn ill_typed_at(kind: IllTyped, pos: Pos) -> Fault
    ensures { result ≡ spec.ill_typed_at kind pos }
{
    Fault {
        pos,
        skip: Skip::IllTyped { kind, pos },
    }
}
