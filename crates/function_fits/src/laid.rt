// What the test reads.

ghost use Rattle.std.specs.Prelude.{◌≡◌};
ghost use Rattle.sc_world.specs.Tree as tree;
ghost use Rattle.sc_world.specs.Layout as layouts;
ghost use Rattle.sc_world.specs.View as view;
ghost use Rattle.function_fits.specs.Laid.{exp_of, layout_of, source_of};

use layout_base::Kind;
use layout_lookup::Lookup;
use run_world::same_type;
use sc_base::NameId;
use sc_gather::Context;
use sc_tree::ctype::CType;
use sc_typed::TExpr;

/// A function that is laid out.
#[derive(Clone, Copy)]
pub struct Laid<'a, 'p, 'm, 'f> {
    /// The function, in its program.
    pub function: &'a Context<'p, 'm>,
    /// Its layout.
    pub layout: &'a Lookup<'p, 'f>,
}

/// The type of an expression.
pub fn type_of<'e>(laid: &Laid, e: &'e TExpr) -> &'e CType
    ensures { view.type result.now ≡ tree.type_of (exp_of laid.now e.now) }
{
    laid.function.type_of(e)
}

/// The name of a member, by the numbers of its struct and of it.
pub fn member_name(laid: &Laid, number: u32, member: u32) -> NameId
    ensures { result ≡ view.member_name (source_of laid.now).structs number member }
{
    laid.function.member_name(number, member)
}

/// Whether a location has that type.
pub fn has_type(laid: &Laid, at: u32, t: &CType) -> bool
    ensures { result ≡ layouts.has_type (layouts.location (layout_of laid.now) at) (view.type t.now) }
{
    match laid.layout.places.location(at).kind {
        Kind::Stub => false,
        Kind::Void => matches!(t, CType::Void),
        Kind::Of(u) => same_type(u, t),
    }
}
