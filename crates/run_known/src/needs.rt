// The rows that the choice needs.

ghost use Rattle.std.specs.Prelude.{◌≡◌, ◌<◌, ◌≤◌, ◌+◌, ◌^◌, Ok, length, map};
ghost use Rattle.std.specs.List.{list_all};
ghost use Rattle.fsm_spec.specs.Table as table;
ghost use Rattle.sc_world.specs.Known as spec;
ghost use Rattle.sc_world.specs.World.{states, number_at};
ghost use Rattle.layout_base.specs.Seen as laid;
ghost use Rattle.run_world.specs.Seen as world;
ghost use Rattle.run_paths.specs.Seen as paths;
ghost use Rattle.run_known.specs.Seen as seen;

use crate::acting::Acting;
use crate::given::Given;
use crate::rows::{Side, Sought, stands};
use run_entry::number_at;
use run_paths::{Found, Sort, argument, is_of, spot_at, spot_behind};
use run_world::{Here, Value, World, state_of};
use sum_rows::{Gives, Item, ItemRows, Row, State};

// Any state.
const ANY: u64 = 15;

// The number of states of the machine.
#[tactic(auto, unfolding(run_world::specs::Seen::env, layout_base::specs::Seen::ground_of, sc_gather::specs::Seen::source_of, sc_world::specs::Programs::source_by))]
fn states(here: &Here) -> usize
    ensures { result ≡ states (world.env here.now).source }
{
    here.ground.here.machine.states()
}

fn bits_of_states(states: usize) -> u32
    ensures value { result ≡ table.bits_of_states states }
    ensures most { result ≤ 3 }
{
    if states <= 2 {
        1
    } else if states <= 4 {
        2
    } else {
        3
    }
}

fn state_of_number(states: usize, n: u64) -> u64
    ensures { result ≡ table.state_of_number states n }
{
    let states = states as u64;
    if n < states {
        n
    } else {
        states.saturating_sub(1)
    }
}

// The number of so many bits behind one.
#[tactic(auto, using(crate::proofs::Bits::behind))]
fn number_behind(choice: &[bool], bit: u32, width: u32) -> u64
    requires { width ≤ 64 }
    ensures { result ≡ number_at choice.now (bit + 1) width }
{
    if choice.is_empty() {
        0
    } else {
        number_at(&choice[1..], bit, width)
    }
}

/// The state of a location afterwards, by the choice.
#[tactic(auto, unfolding(run_world::specs::Seen::env))]
pub fn state_after(here: &Here, lock: &Found) -> u64
    ensures { result ≡ spec.state_after (world.env here.now) (paths.locked lock.now) }
{
    let states = states(here);
    state_of_number(
        states,
        number_behind(here.choice, lock.bit, bits_of_states(states)),
    )
}

// Whether the row stands that leads from any state: one from some state.
#[tactic(auto, using(crate::proofs::Ranges::ranges))]
fn from_any(here: &Here, given: u8, gives: Gives, after: Side, rows: &[Row]) -> bool
    ensures { result ≡ spec.from_state (world.env here.now) given 15 gives (seen.sought after) rows.now }
{
    for n in 0..states(here) as u64 {
        let sought = Sought {
            given,
            before: Side::Numbered(n),
            result: gives,
            after,
        };
        if stands(sought, rows) {
            return true;
        }
    }
    false
}

// Whether the row stands that leads from a state; from any state, a row from some state.
fn from_state(here: &Here, given: u8, before: u64, gives: Gives, after: Side, rows: &[Row]) -> bool
    ensures { result ≡ spec.from_state (world.env here.now) given before gives (seen.sought after) rows.now }
{
    if before == ANY {
        from_any(here, given, gives, after, rows)
    } else {
        let sought = Sought {
            given,
            before: Side::Numbered(before),
            result: gives,
            after,
        };
        stands(sought, rows)
    }
}

fn lock_stands(here: &Here, store: &World, given: u8, gives: Gives, lock: &Found) -> bool
    ensures { spec.lock_stands (world.env here.now) given gives (paths.locked lock.now) (world.world store.now)
        ≡ (Ok result, world.world store.now) }
{
    let before = state_of(here, store, lock.at);
    let after = Side::Numbered(state_after(here, lock));
    from_state(here, given, before, gives, after, lock.rows)
}

// Whether the rows of all locations stand.
#[tactic(auto, using(crate::proofs::LockRows::lock_rows))]
fn locks_stand(here: &Here, store: &World, given: u8, gives: Gives, locks: &[Found]) -> bool
    ensures { spec.locks_stand (world.env here.now) given gives (map paths.locked locks.now)
        (world.world store.now) ≡ (Ok result, world.world store.now) }
{
    let mut all = true;
    for lock in locks {
        let stands = lock_stands(here, store, given, gives, lock);
        all = all && stands;
    }
    all
}

/// What becomes of a parameter's object, by a number of the choice; none where it names nothing.
#[tactic(auto, using(crate::proofs::Numbers::param_state_many))]
pub fn param_state(number: u64) -> Option<State>
    ensures { result ≡ spec.param_state number }
{
    match number {
        0 => Some(State::Held),
        1 => Some(State::Escaped),
        2 => Some(State::Freed),
        _ => None,
    }
}

/// What a pointer that a parameter points to is afterwards, by a number of the choice.
#[tactic(auto, using(crate::proofs::Numbers::out_state_many))]
pub fn out_state(number: u64) -> State
    ensures { result ≡ spec.out_state number }
{
    match number {
        0 => State::Null,
        1 => State::Fresh,
        2 => State::Other,
        _ => State::Same,
    }
}

fn stands_if(given: u8, gives: Gives, after: Option<State>, rows: &[Row]) -> bool
    ensures { result ≡ spec.stands_if given gives after rows.now }
{
    match after {
        None => false,
        Some(state) => {
            let sought = Sought {
                given,
                before: Side::Named(State::Nil),
                result: gives,
                after: Side::Named(state),
            };
            stands(sought, rows)
        }
    }
}

// Whether the row of a parameter stands where its argument is not null.
#[tactic(auto, unfolding(run_world::specs::Seen::env))]
fn param_stands(
    here: &Here,
    arguments: &[Value],
    given: u8,
    gives: Gives,
    spot: usize,
    item: &ItemRows,
) -> bool
    ensures { result ≡ spec.param_stands (world.env here.now)
        (map world.cell arguments.now) given gives spot item.now }
{
    match &item.item {
        Item::Param(n) => {
            !argument(arguments, *n).is_true()
                || stands_if(
                    given,
                    gives,
                    param_state(number_at(here.choice, spot_at(here.places, spot).bit, 2)),
                    item.rows.as_slice(),
                )
        }
        Item::Exit | Item::Lock(_) | Item::Out(_) => true,
    }
}

// Whether the rows of all parameters stand, from that spot on.
fn params_stand(
    here: &Here,
    arguments: &[Value],
    given: u8,
    gives: Gives,
    spot: usize,
    items: &[ItemRows],
) -> bool
    requires spot { spot < 2 ^ 62 }
    requires few { length items.now < 2 ^ 32 }
    ensures { result ≡ spec.params_stand (world.env here.now)
        (map world.cell arguments.now) given gives spot items.now }
{
    let mut k = spot;
    for x in items {
        if !param_stands(here, arguments, given, gives, k, x) {
            return false;
        }
        k = spot_behind(is_of(Sort::Param, &x.item), k);
    }
    true
}

#[tactic(auto, unfolding(run_world::specs::Seen::env))]
fn out_stands(here: &Here, given: u8, gives: Gives, out: &Found) -> bool
    ensures { result ≡ spec.out_stands (world.env here.now) given gives (paths.outed out.now) }
{
    let sought = Sought {
        given,
        before: Side::Named(State::Nil),
        result: gives,
        after: Side::Named(out_state(number_at(here.choice, out.bit, 2))),
    };
    stands(sought, out.rows)
}

// Whether the rows of all pointers that parameters point to stand.
fn outs_stand(here: &Here, given: u8, gives: Gives, outs: &[Found]) -> bool
    ensures { result ≡ list_all (spec.out_stands (world.env here.now) given gives) (map paths.outed outs.now) }
{
    for out in outs {
        if !out_stands(here, given, gives, out) {
            return false;
        }
    }
    true
}

// The rows of the end, which is the first item.
fn exit_rows(items: &[ItemRows]) -> &[Row]
    ensures { result.now ≡ spec.exit_rows items.now }
{
    match items {
        [] => &[],
        [first, ..] => match first.item {
            Item::Exit => first.rows.as_slice(),
            Item::Lock(_) | Item::Param(_) | Item::Out(_) => &[],
        },
    }
}

/// Whether all rows stand that the choice needs.
pub fn rows_stand(here: &Here, store: &World, acting: &Acting, given: Given) -> bool
    requires params { acting.now.params ≡ spec.param_spot (seen.acting acting.now) }
    requires spot { acting.now.params < 2 ^ 62 }
    requires few { length acting.now.summary.now.items < 2 ^ 32 }
    ensures { spec.rows_stand (world.env here.now) (seen.acting acting.now) (seen.given given)
        (world.world store.now) ≡ (Ok result, world.world store.now) }
{
    let items = acting.summary.items.as_slice();
    let locks = locks_stand(here, store, acting.given, given.result, acting.locks);
    let end = Sought {
        given: acting.given,
        before: Side::Named(State::Nil),
        result: given.result,
        after: Side::Named(given.kind),
    };
    stands(end, exit_rows(items))
        && (locks
            && (params_stand(
                here,
                acting.arguments,
                acting.given,
                given.result,
                acting.params,
                items,
            ) && outs_stand(here, acting.given, given.result, acting.outs)))
}
