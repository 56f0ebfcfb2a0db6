// What holds of the layout of every function and of the store of every run.

ghost use Rattle.std.specs.Prelude.{◌≡◌, ℕ, ◌<◌, List, Bool, true, IfOk, Ok, length};
ghost use Rattle.fsm_spec.specs.Table.{IsWhole};
ghost use Rattle.sc_world.specs.Source.{Source};
ghost use Rattle.sc_world.specs.Layout.{Layout, location, is_outer};
ghost use Rattle.sc_world.specs.Places.{places};
ghost use Rattle.sc_world.specs.World as world;
ghost use Rattle.sc_world.specs.World.{World, Env};
ghost use Rattle.sc_world.specs.Tree.{Exp, Stm, type_of};
ghost use Rattle.sc_world.specs.Eval as eval;
ghost use Rattle.sc_world.specs.Exec as exec;
ghost use Rattle.sc_world.specs.Paths.{Texts};
ghost use Rattle.sc_world.specs.Shows as query;
ghost use Rattle.sc_world.specs.Verdict as verdict;
ghost use Rattle.world_laws.specs.Runs.{HasAllRowsOfRuns};
ghost use Rattle.run_laws.specs.Keeps.{Keeps};
ghost use Rattle.run_laws.specs.Proper.{IsClosed, KeepsInside, PointsInside, IsProper};
ghost use Rattle.run_laws.specs.Fits.{Fits, IsValueOf, IsPlaceOf};
ghost use Rattle.run_laws.specs.Functions.{FunctionFits};
ghost use Rattle.run_laws.specs.Example as example;

use world_laws::rows_are_those_of_runs;

/// The objects that the layout of a function names are among its locations.
pub fn layouts_are_closed()
    ensures { (s : Source) → IfOk (places s) IsClosed }
{}

/// The store is proper at entry and after every expression and every statement, whatever they give and however they
/// end, and so at the end of a run: no pointer leads out of the layout, each cell is of the kind that the type of its
/// location has, and each location is in a state of the machine, or in any state where callers do not know it. What
/// expressions and functions give points into the layout, too. This is asked of no program: only of the layout that its
/// objects be locations, and of the machine that its targets be states.
pub fn worlds_stay_proper()
    ensures entry { (s : Source) (p : Layout) (choice : List Bool) → IsWhole s.machine → IsClosed p
        → IsProper s p (world.entry_world s p choice) }
    ensures expressions { (env : Env) (e : Exp) (want : eval.Want) → IsWhole env.source.machine → IsClosed env.layout
        → KeepsInside env → Keeps (IsProper env.source env.layout) (eval.eval e want env) }
    ensures statements { (env : Env) (x : Stm) → IsWhole env.source.machine → IsClosed env.layout
        → KeepsInside env → Keeps (IsProper env.source env.layout) (exec.exec x env) }
    ensures runs { (s : Source) (p : Layout) (choice : List Bool) → IsWhole s.machine → IsClosed p
        → IsProper s p (exec.run s p choice).1 }
    ensures values { (env : Env) (e : Exp) (want : eval.Want) (w : World) → IsWhole env.source.machine
        → IsClosed env.layout → KeepsInside env → 0 < length env.layout.locations
        → IsProper env.source env.layout w → IfOk (eval.eval e want env w).0 (PointsInside env.layout) }
    ensures results { (s : Source) (p : Layout) (choice : List Bool) → IsWhole s.machine → IsClosed p
        → 0 < length p.locations → IfOk (exec.run s p choice).0 (PointsInside p) }
{}

/// The rows of a location that callers know are exactly those that the run of some choice of the defined length has.
pub fn rows_of_locations_are_those_of_runs()
    ensures laid { (s : Source) (x : Texts) (at : ℕ) → IsWhole s.machine → places s ≡ Ok x.layout
        → is_outer (location x.layout at) ≡ true
        → HasAllRowsOfRuns s x (query.Locks at) (verdict.lock_rows s x (verdict.answers s x) at) }
    ensures closed { (s : Source) (x : Texts) (at : ℕ) → IsWhole s.machine → IsClosed x.layout
        → is_outer (location x.layout at) ≡ true
        → HasAllRowsOfRuns s x (query.Locks at) (verdict.lock_rows s x (verdict.answers s x) at) }
{
    layouts_are_closed();
    worlds_stay_proper();
    rows_are_those_of_runs();
}

/// From a proper world an expression that fits the layout gives a value of its type; and where its place is wanted, a
/// pointer to a location of its type, or to the stub of a string or a function. Its operands fit too: so no number
/// stands where a pointer is wanted, no operator gets an operand that it does not take, and no place leads out of the
/// layout.
pub fn values_are_of_their_types()
    ensures values { (env : Env) (e : Exp) (w : World) → IsWhole env.source.machine → IsClosed env.layout
        → KeepsInside env → Fits env.layout eval.Value e → IsProper env.source env.layout w
        → IfOk (eval.eval e eval.Value env w).0 (IsValueOf env.source (type_of e)) }
    ensures places { (env : Env) (e : Exp) (w : World) → IsWhole env.source.machine → IsClosed env.layout
        → KeepsInside env → Fits env.layout eval.Place' e → IsProper env.source env.layout w
        → IfOk (eval.eval e eval.Place' env w).0 (IsPlaceOf env.layout (type_of e)) }
{}

/// The result of a run of a function that fits is a value of the type of its result.
pub fn results_are_of_their_types()
    ensures { (s : Source) (p : Layout) (choice : List Bool) → IsWhole s.machine → IsClosed p → FunctionFits s p
        → IfOk (exec.run s p choice).0 (IsValueOf s s.result) }
{}

/// What the laws on types ask can be met: a function of three statements fits its layout.
pub fn a_function_fits()
    ensures laid { places example.given ≡ Ok example.laid }
    ensures fits { FunctionFits example.given example.laid }
{}
