//! What is left behind a run, run after run, and questions to a run that is over.

use crate::runs::{
    Given, bits_of, checked, context, first, laid_out, machine, nothing, reserved, texts, up_to,
};
use run_answers::says;
use run_questions::Query;
use run_store::Flag;
use run_world::Value;
use sc_base::{OutOfMemory, Pos};
use sc_interp::{Machine, Outcome};
use sc_world::Reason;
use std::alloc::Global;
use sum_rows::{Gives, Row, State};

const UNLOCKED: State = State::At(0);

const LOCKED: State = State::At(1);

const TAKER: &str =
    "typedef struct{int v;}spinlock_t;\nvoid f(_Bool c,spinlock_t*l){spin_lock(l);if(c)spin_lock(l);}";

/// A choice, how its run ends, the state of the lock then, whether it was touched, and how many events there were.
const LEFT: &[(&str, Outcome, u64, bool, usize)] = &[
    ("c", Outcome::Error(2), 1, true, 4),
    ("4", Outcome::Exit(Value::Nothing), 1, true, 3),
    ("0", Outcome::Aside(Reason::Null), 0, false, 1),
    ("2", Outcome::Aside(Reason::Null), 1, false, 1),
    ("6", Outcome::Error(2), 1, true, 2),
    ("c", Outcome::Error(2), 1, true, 4),
];

// Whether the run on these bits ends so and leaves that, whatever ran before on this memory.
fn leaves(
    runs: &mut Machine,
    bits: &[bool],
    outcome: Outcome,
    state: u64,
    touched: bool,
    events: usize,
) -> bool {
    runs.run(bits) == outcome
        && runs.state(2) == state
        && runs.has_mark(2, Flag::Touched) == touched
        && runs.trace().len() == events
}

// Whether each of the runs does in turn, on one memory.
fn leave_all(alloc: Global, runs: &mut Machine) -> Result<bool, OutOfMemory> {
    for &(spelled, outcome, state, touched, events) in LEFT {
        let bits = bits_of(alloc, spelled)?;
        let choice = up_to(bits.as_slice(), runs.places.choice_len());
        if !leaves(runs, choice, outcome, state, touched, events) {
            return Ok(false);
        }
    }
    Ok(true)
}

// Location 2 is the lock that `l` points to.
fn begin_anew(alloc: Global, given: Given) -> bool {
    let Ok(table) = machine(alloc) else {
        return false;
    };
    let here = context(given, &table);
    let Ok(laid) = laid_out(alloc, given) else {
        return false;
    };
    let found = nothing(alloc);
    match reserved(alloc, &here, &found, &laid) {
        Ok(mut runs) => leave_all(alloc, &mut runs) == Ok(true),
        Err(_) => false,
    }
}

#[test]
fn each_run_begins_anew(rt: HostRuntime) {
    let program = checked(rt.alloc(), TAKER);
    assert!(rt; matches!(&program, Some(program) if begin_anew(rt.alloc(), first(program))));
}

/// A function, the choice of a run of it, and what it gives.
const GIVEN: &[(&str, &str, Value)] = &[
    (
        "int f(int a,int b){return a/b;}",
        "8000000000000002",
        Value::Number(32, 3221225472),
    ),
    (
        "int f(int a,int b){return a%b;}",
        "fffffff900000002",
        Value::Number(32, 4294967295),
    ),
    (
        "int f(int a){return a>>1;}",
        "fffffff8",
        Value::Number(32, 4294967292),
    ),
    (
        "int f(unsigned a){return a>>1;}",
        "fffffff8",
        Value::Number(32, 2147483644),
    ),
    (
        "int f(void){int x;x=2147483647;x=x+1;return x<0;}",
        "",
        Value::Number(32, 1),
    ),
    (
        "int f(int a){return(a=1)&&(a=0)||a;}",
        "00000005",
        Value::Number(32, 0),
    ),
    (
        "int f(int a){a=0&&(a=7);return a;}",
        "00000005",
        Value::Number(32, 0),
    ),
    (
        "int f(int a){int b;b=a++;return b*10+a;}",
        "00000005",
        Value::Number(32, 56),
    ),
    (
        "int f(int n){switch(n){case 1:n=5;case 2:break;default:return 0;}return n;}",
        "00000001",
        Value::Number(32, 5),
    ),
    (
        "int f(void){int a[3]={1,2};return a[1]*10+a[2];}",
        "",
        Value::Number(32, 20),
    ),
    (
        "struct s{int a;int b;};int f(void){struct s x;struct s y;x.a=1;x.b=2;y=x;return y.b;}",
        "",
        Value::Number(32, 2),
    ),
    (
        "int f(int a){goto l;a=1;l:return a;}",
        "00000009",
        Value::Number(32, 9),
    ),
    ("int f(void){}", "", Value::Number(32, 0)),
    ("char*f(void){}", "", Value::Pointer(None)),
    ("_Bool f(int a){return a;}", "00000100", Value::Number(1, 1)),
    (
        "char f(int a){return a;}",
        "000001ff",
        Value::Number(8, 255),
    ),
];

// How the run of a function ends, on the choice that these digits spell.
fn ends(alloc: Global, given: Given, spelled: &str) -> Option<Outcome> {
    let Ok(table) = machine(alloc) else {
        return None;
    };
    let here = context(given, &table);
    let Ok(laid) = laid_out(alloc, given) else {
        return None;
    };
    let found = nothing(alloc);
    let Ok(mut runs) = reserved(alloc, &here, &found, &laid) else {
        return None;
    };
    let bits = bits_of(alloc, spelled).ok()?;
    Some(runs.run(up_to(bits.as_slice(), laid.choice_len())))
}

fn gives(alloc: Global, text: &str, spelled: &str) -> Option<Outcome> {
    let program = checked(alloc, text)?;
    ends(alloc, first(&program), spelled)
}

#[test]
fn functions_give_values(rt: HostRuntime) {
    for &(text, spelled, value) in GIVEN {
        let found = gives(rt.alloc(), text, spelled);
        assert!(rt; found == Some(Outcome::Exit(value)), "{text} {spelled}");
    }
}

fn row(given: u8, before: State, after: State) -> Row {
    Row {
        given,
        before,
        result: Gives::Nothing,
        after,
    }
}

// The answer of the run on this choice.
fn answer(
    alloc: Global,
    given: Given,
    runs: &mut Machine,
    choice: &[bool],
    query: Query,
) -> Result<bool, OutOfMemory> {
    let outcome = runs.run(choice);
    match texts(given, runs.places) {
        None => Ok(false),
        Some(texts) => says(alloc, &texts, &runs.over(choice, outcome), query),
    }
}

// The same, on the choice that these digits spell.
fn answers(alloc: Global, given: Given, spelled: &str, query: Query) -> Option<bool> {
    let Ok(table) = machine(alloc) else {
        return None;
    };
    let here = context(given, &table);
    let Ok(laid) = laid_out(alloc, given) else {
        return None;
    };
    let found = nothing(alloc);
    let Ok(mut runs) = reserved(alloc, &here, &found, &laid) else {
        return None;
    };
    let bits = bits_of(alloc, spelled).ok()?;
    let choice = up_to(bits.as_slice(), laid.choice_len());
    answer(alloc, given, &mut runs, choice, query).ok()
}

fn asked(alloc: Global, text: &str, spelled: &str, query: Query) -> Option<bool> {
    let program = checked(alloc, text)?;
    answers(alloc, first(&program), spelled, query)
}

#[test]
fn a_run_answers_on_its_lock(rt: HostRuntime) {
    // The answers of the run that takes the lock once, and of the one that takes it twice.
    let questions = [
        (Query::Touches(2), true, true),
        (Query::Writes(2), false, false),
        (Query::Exits(row(1, State::Nil, State::Nil)), true, false),
        (Query::Exits(row(3, State::Nil, State::Nil)), false, false),
        (Query::Locks(2, row(1, UNLOCKED, LOCKED)), true, false),
        (Query::Locks(2, row(1, LOCKED, LOCKED)), false, false),
        (Query::Locks(2, row(3, UNLOCKED, State::Bad)), false, true),
        (Query::Locks(2, row(3, LOCKED, State::Bad)), false, false),
        (Query::EndsAt(2), false, false),
    ];
    for (query, once, twice) in questions {
        assert!(rt; asked(rt.alloc(), TAKER, "4", query) == Some(once));
        assert!(rt; asked(rt.alloc(), TAKER, "c", query) == Some(twice));
    }
}

const FREER: &str = "void f(char*p){kfree(p);}";

const KEEPER: &str = "void f(int n){char*p=kmalloc(8,0);if(n)goto out;kfree(p);out:;}";

#[test]
fn a_run_answers_on_its_object(rt: HostRuntime) {
    let lost = Query::Leaks(Pos {
        file: 0,
        line: 1,
        col: 22,
    });
    let freed = Query::Params(0, row(1, State::Nil, State::Freed));
    for (text, choice, query, want) in [
        (KEEPER, "00000001800", lost, true),
        (KEEPER, "00000000800", lost, false),
        (KEEPER, "00000001000", lost, false),
        (FREER, "800", freed, true),
        (FREER, "000", freed, false),
    ] {
        assert!(rt;
            asked(rt.alloc(), text, choice, query) == Some(want),
            "{choice}"
        );
    }
}
