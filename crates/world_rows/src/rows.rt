// Worked rows: functions whose locations, choices, runs and verdicts were computed by another program, and that the
// definitions give just so. Each row is the clause of a function that does nothing.

ghost use Rattle.std.specs.Prelude.{◌≡◌, Ok};
ghost use Rattle.sc_world.specs.Places.{places};
ghost use Rattle.sc_world.specs.Verdict.{verdict_of};
ghost use Rattle.world_rows.specs.Rows.{ran};
ghost use Rattle.world_rows.specs.Lock as taken_row;
ghost use Rattle.world_rows.specs.DoubleLock as double_lock_row;
ghost use Rattle.world_rows.specs.Trylock as trylock_row;
ghost use Rattle.world_rows.specs.TrylockUntold as trylock_untold_row;
ghost use Rattle.world_rows.specs.TwoPaths as two_paths_row;
ghost use Rattle.world_rows.specs.TwoCalls as two_calls_row;
ghost use Rattle.world_rows.specs.LocalLock as local_lock_row;
ghost use Rattle.world_rows.specs.Freed as freed_row;
ghost use Rattle.world_rows.specs.OutKept as out_kept_row;
ghost use Rattle.world_rows.specs.OutLeak as out_leak_row;
ghost use Rattle.world_rows.specs.LongLp64 as long_lp64_row;
ghost use Rattle.world_rows.specs.ThreeStates as three_states_row;
ghost use Rattle.world_rows.specs.Division as division_row;
ghost use Rattle.world_rows.specs.Loop as two_turns_row;
ghost use Rattle.world_rows.specs.Fallthrough as fallthrough_row;
ghost use Rattle.world_rows.specs.GotoLeak as goto_leak_row;
ghost use Rattle.world_rows.specs.Reach as reach_row;
ghost use Rattle.world_rows.specs.Parts as parts_row;

/// A lock that is taken.
pub fn taken()
    ensures layout { places taken_row.given ≡ Ok taken_row.laid }
    ensures run_taken { ran taken_row.given taken_row.laid taken_row.choice_taken ≡ taken_row.run_taken }
    ensures run_double { ran taken_row.given taken_row.laid taken_row.choice_double ≡ taken_row.run_double }
    ensures run_null { ran taken_row.given taken_row.laid taken_row.choice_null ≡ taken_row.run_null }
    ensures found { verdict_of taken_row.given taken_row.texts ≡ taken_row.found_out }
{}

/// A lock that is taken twice where the first parameter holds.
pub fn double_lock()
    ensures layout { places double_lock_row.given ≡ Ok double_lock_row.laid }
    ensures run_error { ran double_lock_row.given double_lock_row.laid double_lock_row.choice_error ≡ double_lock_row.run_error }
    ensures run_end { ran double_lock_row.given double_lock_row.laid double_lock_row.choice_end ≡ double_lock_row.run_end }
    ensures found { verdict_of double_lock_row.given double_lock_row.texts ≡ double_lock_row.found_out }
{}

/// A lock that is tried, and a result that tells whether it was taken.
pub fn trylock()
    ensures layout { places trylock_row.given ≡ Ok trylock_row.laid }
    ensures found { verdict_of trylock_row.given trylock_row.texts ≡ trylock_row.found_out }
{}

/// A lock that is tried, and a result that does not tell it.
pub fn trylock_untold()
    ensures layout { places trylock_untold_row.given ≡ Ok trylock_untold_row.laid }
    ensures found { verdict_of trylock_untold_row.given trylock_untold_row.texts ≡ trylock_untold_row.found_out }
{}

/// Two locks of a callee that are one lock of the caller.
pub fn two_paths()
    ensures layout { places two_paths_row.given ≡ Ok two_paths_row.laid }
    ensures run_alias { ran two_paths_row.given two_paths_row.laid two_paths_row.choice_alias ≡ two_paths_row.run_alias }
    ensures found { verdict_of two_paths_row.given two_paths_row.texts ≡ two_paths_row.found_out }
{}

/// A lock that is taken by two calls.
pub fn two_calls()
    ensures layout { places two_calls_row.given ≡ Ok two_calls_row.laid }
    ensures found { verdict_of two_calls_row.given two_calls_row.texts ≡ two_calls_row.found_out }
{}

/// A lock of a local that is taken twice.
pub fn local_lock()
    ensures layout { places local_lock_row.given ≡ Ok local_lock_row.laid }
    ensures found { verdict_of local_lock_row.given local_lock_row.texts ≡ local_lock_row.found_out }
{}

/// A parameter that is freed.
pub fn freed()
    ensures layout { places freed_row.given ≡ Ok freed_row.laid }
    ensures run_freed { ran freed_row.given freed_row.laid freed_row.choice_freed ≡ freed_row.run_freed }
    ensures run_null { ran freed_row.given freed_row.laid freed_row.choice_null ≡ freed_row.run_null }
{}

/// A pointer behind a parameter that is set to null or kept.
pub fn out_kept()
    ensures layout { places out_kept_row.given ≡ Ok out_kept_row.laid }
    ensures run_set { ran out_kept_row.given out_kept_row.laid out_kept_row.choice_set ≡ out_kept_row.run_set }
    ensures run_kept { ran out_kept_row.given out_kept_row.laid out_kept_row.choice_kept ≡ out_kept_row.run_kept }
{}

/// An object that a callee gives through a parameter, and that is lost.
pub fn out_leak()
    ensures layout { places out_leak_row.given ≡ Ok out_leak_row.laid }
    ensures run_zeros { ran out_leak_row.given out_leak_row.laid out_leak_row.choice_zeros ≡ out_leak_row.run_zeros }
    ensures run_ones { ran out_leak_row.given out_leak_row.laid out_leak_row.choice_ones ≡ out_leak_row.run_ones }
    ensures found { verdict_of out_leak_row.given out_leak_row.texts ≡ out_leak_row.found_out }
{}

/// A signed long against an unsigned int, where long has 64 bits.
pub fn long_lp64()
    ensures layout { places long_lp64_row.given ≡ Ok long_lp64_row.laid }
    ensures run_ones { ran long_lp64_row.given long_lp64_row.laid long_lp64_row.choice_ones ≡ long_lp64_row.run_ones }
    ensures run_zeros { ran long_lp64_row.given long_lp64_row.laid long_lp64_row.choice_zeros ≡ long_lp64_row.run_zeros }
    ensures found { verdict_of long_lp64_row.given long_lp64_row.texts ≡ long_lp64_row.found_out }
{}

/// A machine of three states.
pub fn three_states()
    ensures layout { places three_states_row.given ≡ Ok three_states_row.laid }
    ensures run_ones { ran three_states_row.given three_states_row.laid three_states_row.choice_ones ≡ three_states_row.run_ones }
    ensures found { verdict_of three_states_row.given three_states_row.texts ≡ three_states_row.found_out }
{}

/// A division: of the least number by -1, by 0, and of it by 2.
pub fn division()
    ensures layout { places division_row.given ≡ Ok division_row.laid }
    ensures run_overflows { ran division_row.given division_row.laid division_row.choice_overflows ≡ division_row.run_overflows }
    ensures run_by_zero { ran division_row.given division_row.laid division_row.choice_by_zero ≡ division_row.run_by_zero }
    ensures run_exits { ran division_row.given division_row.laid division_row.choice_exits ≡ division_row.run_exits }
{}

/// A loop of two turns.
pub fn two_turns()
    ensures layout { places two_turns_row.given ≡ Ok two_turns_row.laid }
    ensures run_ones { ran two_turns_row.given two_turns_row.laid two_turns_row.choice_ones ≡ two_turns_row.run_ones }
    ensures run_zeros { ran two_turns_row.given two_turns_row.laid two_turns_row.choice_zeros ≡ two_turns_row.run_zeros }
{}

/// A switch whose first case falls through.
pub fn fallthrough()
    ensures layout { places fallthrough_row.given ≡ Ok fallthrough_row.laid }
    ensures run_first { ran fallthrough_row.given fallthrough_row.laid fallthrough_row.choice_first ≡ fallthrough_row.run_first }
    ensures run_zeros { ran fallthrough_row.given fallthrough_row.laid fallthrough_row.choice_zeros ≡ fallthrough_row.run_zeros }
{}

/// A goto that leaves an object behind.
pub fn goto_leak()
    ensures layout { places goto_leak_row.given ≡ Ok goto_leak_row.laid }
    ensures run_ones { ran goto_leak_row.given goto_leak_row.laid goto_leak_row.choice_ones ≡ goto_leak_row.run_ones }
    ensures run_zeros { ran goto_leak_row.given goto_leak_row.laid goto_leak_row.choice_zeros ≡ goto_leak_row.run_zeros }
{}

/// A list that is followed to the reach.
pub fn reach()
    ensures layout { places reach_row.given ≡ Ok reach_row.laid }
    ensures run_ones { ran reach_row.given reach_row.laid reach_row.choice_ones ≡ reach_row.run_ones }
    ensures run_zeros { ran reach_row.given reach_row.laid reach_row.choice_zeros ≡ reach_row.run_zeros }
{}

/// A struct with an array, a global, a string and a function as values, and a loop with calls.
pub fn parts()
    ensures layout { places parts_row.given ≡ Ok parts_row.laid }
    ensures run_ones { ran parts_row.given parts_row.laid parts_row.choice_ones ≡ parts_row.run_ones }
    ensures run_zeros { ran parts_row.given parts_row.laid parts_row.choice_zeros ≡ parts_row.run_zeros }
{}
