// How many bits a value has.

ghost use Rattle.std.specs.Prelude.{◌≡◌, ◌≤◌};
ghost use Rattle.sc_world.specs.Tree as spec;
ghost use Rattle.sc_world.specs.View.{type};
ghost use Rattle.run_world.specs.Seen as seen;

use run_world::Here;
use sc_tree::ctype::CType;
use sc_types::kind_bits;

/// The bits of a value of an integer type: 1 of `_Bool`; 0 of any other type.
#[tactic(auto, unfolding(run_world::specs::Seen::env, layout_base::specs::Seen::ground_of, sc_gather::specs::Seen::source_of, sc_world::specs::Programs::source_by))]
pub fn integer_bits(here: &Here, t: &CType) -> u32
    ensures value { result ≡ spec.int_bits (seen.env here.now).source.widths (type t.now) }
    ensures bound { result ≤ 64 }
{
    match t {
        CType::Bool => 1,
        CType::Int(kind) => kind_bits(here.ground.here.program.widths, *kind),
        CType::Void
        | CType::Ptr(_)
        | CType::Array(_, _)
        | CType::Struct(_)
        | CType::Union(_)
        | CType::Func(_)
        | CType::Opaque(_) => 0,
    }
}
