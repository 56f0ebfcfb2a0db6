// What holds of the rows and the reports of every function.

ghost use Rattle.std.specs.Prelude.{◌≡◌, ◌↔◌, ◌&&◌, ℕ, Bool, true, List, All, AllPairs, Contains, ◌<◌, length, map};
ghost use Rattle.sc_world.specs.Source.{Source};
ghost use Rattle.sc_world.specs.Layout.{is_outer, is_cell};
ghost use Rattle.sc_world.specs.Paths.{Texts, text_at};
ghost use Rattle.sc_world.specs.World.{states};
ghost use Rattle.sc_world.specs.Known.{row};
ghost use Rattle.sc_base.specs.declared.pos.Pos.{Pos};
ghost use Rattle.sum_rows.specs.declared.row.State.TheVariants as state;
ghost use Rattle.sum_rows.specs.declared.row.Gives.{Gives};
ghost use Rattle.sum_rows.specs.declared.row.Gives.TheVariants as gives;
ghost use Rattle.sc_world.specs.Shows as query;
ghost use Rattle.sc_world.specs.Verdict as verdict;
ghost use Rattle.sc_world.specs.Verdict.{Answers};
ghost use Rattle.world_laws.specs.Runs.{SomeRun, HasRowsOfRuns, HasAllRowsOfRuns, HasLocationsOfRuns, HasNumbersOfRuns, IsBounded};
ghost use Rattle.world_laws.specs.Order.{IsRowBefore};
ghost use Rattle.world_laws.specs.Shown.{IsRightReport};
ghost use Rattle.world_laws.specs.Reported.{HasReport, IsDoubleAt, IsAmbiguousAt, IsInnerOf, IsLeakAt};

use sc_world::the_first_choice;

/// The rows of an item are exactly those that the run of some choice of the defined length has; of a location this is
/// said of the rows between states of the machine, and to an error. Exactly those locations and parameters have an item,
/// and exactly those cells are written, of which some run says so.
pub fn rows_are_those_of_runs()
    ensures some { (s : Source) (x : Texts) (q : query.Query)
        → ((verdict.answers s x).some q ≡ true) ↔ SomeRun s x q }
    ensures exits { (s : Source) (x : Texts)
        → HasAllRowsOfRuns s x query.Exits (verdict.exit_rows s x (verdict.answers s x)) }
    ensures locks { (s : Source) (x : Texts) (at : ℕ)
        → HasRowsOfRuns s x (query.Locks at) (verdict.lock_candidates s)
        (verdict.lock_rows s x (verdict.answers s x) at) }
    ensures params { (s : Source) (x : Texts) (n : ℕ)
        → HasAllRowsOfRuns s x (query.Params n) (verdict.param_item s x (verdict.answers s x) n).rows }
    ensures outs { (s : Source) (x : Texts) (n : ℕ)
        → HasAllRowsOfRuns s x (query.Outs n) (verdict.out_item s x (verdict.answers s x) n).rows }
    ensures touched { (s : Source) (x : Texts)
        → HasLocationsOfRuns s x query.Touches is_outer (verdict.touched s x (verdict.answers s x)) }
    ensures changed { (s : Source) (x : Texts)
        → HasNumbersOfRuns s x query.Changes (verdict.params_from s x (verdict.answers s x) 0 s.params)
        (verdict.changed s x (verdict.answers s x)) }
    ensures set { (s : Source) (x : Texts)
        → HasNumbersOfRuns s x query.Sets (verdict.out_params_from s x (verdict.answers s x) 0 s.params)
        (verdict.set_params s x (verdict.answers s x)) }
    ensures written { (s : Source) (x : Texts)
        → HasLocationsOfRuns s x query.Writes (λ l. is_outer l && is_cell l) (verdict.written s x (verdict.answers s x)) }
{
    the_first_choice();
}

/// The rows of each item of a summary stand in the order of printing, each once.
pub fn rows_are_in_order()
    ensures { (s : Source) (x : Texts) (q : Answers)
        → All (λ i. AllPairs IsRowBefore i.rows) (verdict.summary s x q).items }
{}

/// Each run that a report shows has the least choice, of the defined length, whose run shows what the report says.
pub fn shown_choices_are_least()
    ensures { (s : Source) (x : Texts) → All (IsRightReport s x) (verdict.reports s x (verdict.answers s x)) }
{
    the_first_choice();
}

/// Each error that the rules name has its report: a touched location with an error row from every state, or with two rows
/// that differ in the state after alone; a run that ends in an error at a location that callers do not know; and a run
/// that loses an object of a call.
pub fn each_error_has_its_report()
    ensures double { (s : Source) (x : Texts) (at given : ℕ)
        → Contains (verdict.touched s x (verdict.answers s x)) at → Contains (verdict.givens s) given
        → ((k : ℕ) → k < states s → SomeRun s x (query.Locks at (row given (state.At k) gives.Nothing state.Bad)))
        → HasReport s x (IsDoubleAt x at) }
    ensures ambiguous { (s : Source) (x : Texts) (at given k one other : ℕ) (g : Gives)
        → Contains (verdict.touched s x (verdict.answers s x)) at → Contains (verdict.givens s) given
        → k < states s → Contains (verdict.results s) g → one < other → other < states s
        → SomeRun s x (query.Locks at (row given (state.At k) g (state.At one)))
        → SomeRun s x (query.Locks at (row given (state.At k) g (state.At other)))
        → HasReport s x (IsAmbiguousAt x at) }
    ensures inner { (s : Source) (x : Texts) (at : ℕ) → at < length x.layout.locations
        → SomeRun s x (query.EndsAt at) → HasReport s x (IsInnerOf s x (text_at x at)) }
    ensures leak { (s : Source) (x : Texts) (p : Pos) → Contains (map (λ c. c.pos) x.layout.sites) p
        → SomeRun s x (query.Leaks p) → HasReport s x (IsLeakAt s x p) }
{
    the_first_choice();
}

/// A run that is set aside answers no question.
pub fn set_aside_shows_nothing()
    ensures { (s : Source) (x : Texts) (q : query.Query) (c : List Bool) → verdict.shows s x q c ≡ true
        → IsBounded (verdict.run_over s x.layout c).ended }
{}
