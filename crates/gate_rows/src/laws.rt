//! What the clauses on rows that are sought mean for a caller: laws, with no code.

ghost use Rattle.std.specs.Prelude.{◌≡◌, ℕ, Bool, Option, List};
ghost use Rattle.std.specs.List.{list_any};
ghost use Rattle.bit_words.specs.Number.{number};
ghost use Rattle.sum_rows.specs.declared.row.Row.{Row as Rows};
ghost use Rattle.sum_rows.specs.declared.row.State.{State as States};
ghost use Rattle.sum_rows.specs.declared.row.State.TheVariants as state;
ghost use Rattle.sc_world.specs.World.{Env, states};
ghost use Rattle.sc_world.specs.Known.{from_state, out_state, param_state, row, same_state, stands, stands_if};
ghost use Rattle.gate_rows.specs.declared.sought.Sought.{Sought as Soughts};
ghost use Rattle.gate_rows.specs.Sought.{gives_of, is_from, is_out, is_side, is_some_state, is_sought, is_spelt, param_number, pointer_number, pointer_state, state_number};

/// Which states the numbers of a choice name, and the states of a machine.
pub fn numbers_name_states()
    ensures machine { (n : ℕ) (x : States) → is_spelt n (state_number x) ≡ same_state (state.At n) x }
    ensures param { (n : ℕ) (x : States) → is_spelt n (param_number x) ≡ is_some_state (param_state n) x }
    ensures pointer { (n : ℕ) (x : States) → is_spelt n (pointer_number x) ≡ is_some_state (pointer_state n) x }
    ensures out { (n : ℕ) (x : States) → is_out n x ≡ same_state (out_state n) x }
{}

/// A row that is sought stands exactly where the definition has it: from one state to another; to a state that the choice may name; and from
/// the state at hand, where any state has the rows of each state.
pub fn rows_stand_as_defined()
    ensures one { (v : ℕ → Bool) (q : Soughts) (b a : States) (rows : List Rows)
        → ((x : States) → is_side v q.before x ≡ same_state b x) → ((x : States) → is_side v q.after x ≡ same_state a x)
        → list_any (is_sought v q) rows ≡ stands (row (number v q.given.now) b (gives_of v q.result) a) rows }
    ensures named { (v : ℕ → Bool) (q : Soughts) (a : Option States) (rows : List Rows)
        → ((x : States) → is_side v q.before x ≡ same_state state.Nil x) → ((x : States) → is_side v q.after x ≡ is_some_state a x)
        → list_any (is_sought v q) rows ≡ stands_if (number v q.given.now) (gives_of v q.result) a rows }
    ensures any { (v : ℕ → Bool) (q : Soughts) (env : Env) (before : ℕ) (a : States) (rows : List Rows)
        → ((x : States) → is_side v q.before x ≡ is_from (states env.source) before (state_number x)) → ((x : States) → is_side v q.after x ≡ same_state a x)
        → list_any (is_sought v q) rows ≡ from_state env (number v q.given.now) before (gives_of v q.result) a rows }
{}
