//! What a walk reads.

ghost use Rattle.std.specs.Prelude.{◌≡◌};
ghost use Rattle.sc_world.specs.Tree as tree;
ghost use Rattle.sc_world.specs.View as view;
ghost use Rattle.expr_fits.specs.Around.{exp_of, source_of};

use gl_store::Val;
use layout_lookup::Lookup;
use run_world::Here;
use sc_base::NameId;
use sc_tree::ctype::CType;
use sc_typed::TExpr;

/// What a walk reads and never changes.
#[derive(Clone, Copy)]
pub struct Around<'a, 'p, 'm, 'f> {
    /// The program and the function.
    pub here: &'a Here<'p, 'm, 'f>,
    /// The layout of the function.
    pub layout: &'a Lookup<'p, 'f>,
    /// What was kept under each number.
    pub temps: &'a [Val],
}

/// The type of an expression.
#[tactic(auto, unfolding(run_world::specs::Seen::env, layout_base::specs::Seen::ground_of))]
pub fn type_of<'e>(around: &Around, e: &'e TExpr) -> &'e CType
    ensures { view.type result.now ≡ tree.type_of (exp_of around.now e.now) }
{
    let here = around.here;
    here.ground.here.type_of(e)
}

/// The name of a member, by the numbers of its struct and of it.
#[tactic(auto, unfolding(run_world::specs::Seen::env, layout_base::specs::Seen::ground_of))]
pub fn member_name(around: &Around, number: u32, member: u32) -> NameId
    ensures { result ≡ view.member_name (source_of around.now).structs number member }
{
    let here = around.here;
    here.ground.here.member_name(number, member)
}
