//! What compound assignment, `++` and `--` make of values (C11 6.5.2.4, 6.5.3.1, 6.5.16.2).

ghost use Rattle.std.specs.Prelude.{◌≡◌, ℕ, ◌≤◌, true, Some, length, IfOk};
ghost use Rattle.bit_net.specs.Runs.{Grown};
ghost use Rattle.gl_store.specs.Meets.{val_kind, val_top};
ghost use Rattle.gate_runs.specs.Stands.{AreEnds};
ghost use Rattle.sc_world.specs.Eval as spec;
ghost use Rattle.sc_world.specs.Tree as tree;
ghost use Rattle.sc_world.specs.View.{type};
ghost use Rattle.sc_world.specs.World.{kind_of_type};
ghost use Rattle.run_world.specs.Seen as seen;
ghost use Rattle.gate_changes.specs.Changes.{CombineFits, Combines, Counts};

use bit_net::{Net, OutOfMemory};
use gate_runs::Ends;
use gate_values::number;
use gl_store::Val;
use run_entry::integer_bits;
use run_world::Here;
use sc_tree::ctype::{CType, IntKind};
use sc_tree::op::{BinaryOp, Step};
use sc_types::promoted;
use tr_expr::{converted, operation};

// The operator by which `++` or `--` counts.
fn one_step(step: Step) -> BinaryOp
    ensures { result ≡ spec.one_step step }
{
    match step {
        Step::Up => BinaryOp::Add,
        Step::Down => BinaryOp::Sub,
    }
}

// The type in which `++` counts: the promoted one.
fn promoted_type(t: &CType) -> CType
    ensures { type result ≡ tree.promoted_type (type t.now) }
{
    match t {
        CType::Int(kind) => CType::Int(promoted(*kind)),
        CType::Void
        | CType::Bool
        | CType::Ptr(_)
        | CType::Array(_, _)
        | CType::Struct(_)
        | CType::Union(_)
        | CType::Func(_)
        | CType::Opaque(_) => CType::Int(IntKind::Int),
    }
}

/// What `+=` and its kin make of the value on the left, of type `t`, and that on the right, of type `u`, where the operator
/// works in that type. What the operator does not take sets the run aside.
pub fn combined(
    here: &Here,
    net: &mut Net,
    ends: &mut Ends,
    op: BinaryOp,
    works: &CType,
    t: &CType,
    u: &CType,
    x: &Val,
    y: &Val,
) -> Result<Val, OutOfMemory>
    requires fits { CombineFits (seen.env here.now).source op (type works.now) (type t.now) (type u.now) }
    requires left { val_kind x.now ≡ kind_of_type (seen.env here.now).source (Some (type t.now)) }
    requires right { val_kind y.now ≡ kind_of_type (seen.env here.now).source (Some (type u.now)) }
    requires ends { AreEnds net.old ends.old }
    requires x { val_top x.now ≤ length net.old }
    requires y { val_top y.now ≤ length net.old }
    ensures grown { Grown net.old net.new }
    ensures ready { IfOk result (λ r. AreEnds net.new ends.new) }
    ensures locations { length ends.new.bads.items ≡ length ends.old.bads.items }
    ensures ok { IfOk result (λ r. Combines (seen.env here.now).source
        net.new op (type works.now) (type t.now) x.now y.now ends.old ends.new r) }
{
    let left = converted(here, net, t, works, x)?;
    let made = operation(here, net, ends, op, works, u, works, &left, y)?;
    let back = converted(here, net, works, t, &made)?;
    Ok(back)
}

/// What `++` or `--` makes of a value of an integer type.
#[tactic(auto, using(crate::proofs::Changing::count_fits, crate::proofs::Changing::one_fits))]
pub fn counted(
    here: &Here,
    net: &mut Net,
    ends: &mut Ends,
    step: Step,
    t: &CType,
    x: &Val,
) -> Result<Val, OutOfMemory>
    requires t { tree.is_integer (type t.now) ≡ true }
    requires kind { val_kind x.now ≡ kind_of_type (seen.env here.now).source (Some (type t.now)) }
    requires ends { AreEnds net.old ends.old }
    requires x { val_top x.now ≤ length net.old }
    ensures grown { Grown net.old net.new }
    ensures ready { IfOk result (λ r. AreEnds net.new ends.new) }
    ensures locations { length ends.new.bads.items ≡ length ends.old.bads.items }
    ensures ok { IfOk result (λ r. Counts (seen.env here.now).source net.new step (type t.now) x.now ends.old ends.new r) }
{
    let works = promoted_type(t);
    let one = number(net, 1, integer_bits(here, &works))?;
    let made = combined(here, net, ends, one_step(step), &works, t, &works, x, &one)?;
    Ok(made)
}
