//! What holds of every call graph and of every order of claims and publications. Each law is the
//! clause of a function that does nothing.

ghost use Rattle.std.specs.Prelude.{◌≡◌, ◌↔◌, ℕ, List, true};
ghost use Rattle.plan_core.specs.Graph.{Reaches, reaches, IsCut, is_cut, IsGraph, IsPlan, plan_of};
ghost use Rattle.plan_core.specs.Core.{Event, run, start, applied, mark_of, IsSound, IsOnce, CalleesFirst};

/// The tests of the definition are what they are named for: one function reaches another exactly
/// where it is that function or a walk of calls leads there, and an edge is cut exactly where its
/// callee reaches its caller and does not stand behind it in program order.
pub fn reaching()
    ensures walks { (rows : List (List ℕ)) (f g : ℕ) → (reaches rows f g ≡ true) ↔ Reaches rows f g }
    ensures cuts { (rows : List (List ℕ)) (f g : ℕ) → (is_cut rows f g ≡ true) ↔ IsCut rows f g }
{}

/// The plan of a call graph is well formed. Above all, its kept edges have no cycle.
pub fn no_cycle()
    ensures { (rows : List (List ℕ)) → IsGraph rows → IsPlan (plan_of rows).callees }
{}

/// Whatever claims and publications any number of workers try, in whatever order, beginning where
/// every function is free: the state is sound; each function is claimed at most once and published
/// at most once, by its owner and after its claim; and where it is claimed, its kept callees were
/// published before. Nothing is said of time, of fairness or of progress.
pub fn every_order()
    ensures sound { (rows : List (List ℕ)) (events : List Event) → IsSound rows (mark_of (run rows (start rows) events)) }
    ensures once { (rows : List (List ℕ)) (events : List Event) (f : ℕ) → IsOnce f (applied rows (start rows) events) }
    ensures callees_first { (rows : List (List ℕ)) (events : List Event) → IsPlan rows → CalleesFirst rows (applied rows (start rows) events) }
{}
