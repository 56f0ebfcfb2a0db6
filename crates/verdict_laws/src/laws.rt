// What holds of the verdict and of the layout of every function.

ghost use Rattle.std.specs.Prelude.{◌≡◌, ℕ, Some, Ok, slice_get};
ghost use Rattle.sc_typed.specs.declared.program.Program.{Program};
ghost use Rattle.sc_typed.specs.declared.program.Function.{Function};
ghost use Rattle.sc_world.specs.Source.{Source};
ghost use Rattle.sc_world.specs.Layout.{Layout};
ghost use Rattle.sc_world.specs.Places.{places};
ghost use Rattle.sc_world.specs.Paths.{Texts};
ghost use Rattle.sc_world.specs.Programs.{types_of};
ghost use Rattle.sc_world.specs.Verdict.{Answers, done_with, verdict_of};
ghost use Rattle.program_verdicts.specs.Verdicts.{verdict_in};
ghost use Rattle.verdict_laws.specs.Fits.{Fits, AreTypedParams, global_types};
ghost use Rattle.verdict_laws.specs.Bits.{EachOfOne, things};

use program_verdicts::verdicts_by_callees;

/// What a verdict holds fits its function, whatever the runs answer: the entry bits are those of the parameters, there
/// are at most 300 items and 256 written cells, the parameters are of the right kinds, each path begins at a parameter
/// and a Deref or at a global, and each width is that of an integer or 0. A skipped function's verdict fits it.
pub fn verdicts_fit()
    ensures given { (s : Source) (x : Texts) (q : Answers) → places s ≡ Ok x.layout → AreTypedParams s.params
        → Fits s.widths s.params s.globals (done_with s x q) }
    ensures of_function { (s : Source) (x : Layout → Texts) → ((p : Layout) → (x p).layout ≡ p)
        → AreTypedParams s.params → Fits s.widths s.params s.globals (verdict_of s x) }
    ensures of_program { (p : Program) (depth reach f : ℕ) (g : Function) → slice_get p.functions f ≡ Some g
        → AreTypedParams (types_of g.params)
        → Fits p.widths (types_of g.params) (global_types p) (verdict_in p depth reach f) }
{
    verdicts_by_callees();
}

/// In the layout of a function each bit of the choice belongs to exactly one thing: to a cell, to a state at entry, to a
/// call in one turn, or to what a call says of an item or a written path of its callee; and no thing has another bit.
pub fn each_bit_is_of_one_thing()
    ensures { (s : Source) (p : Layout) → places s ≡ Ok p → EachOfOne p.bits (things s p) }
{}
