//! Calls that act by a summary, which is written by hand.

use crate::runs::{Given, checked, is_text, replayed};
use sc_base::{List, OutOfMemory};
use sc_typed::Program;
use std::alloc::Global;
use sum_rows::{Gives, Item, ItemRows, Path, Root, Row, State, Step, Summary, Verdict, Write};

const UNLOCKED: State = State::At(0);

const LOCKED: State = State::At(1);

// What the parameter with that number points to.
fn behind(alloc: Global, param: u32) -> Result<Path, OutOfMemory> {
    let steps = vec![in alloc; Step::Deref]?;
    Ok(Path {
        root: Root::Param(param),
        steps: List::from_vec(steps),
    })
}

fn row(given: u8, before: State, after: State) -> Row {
    Row {
        given,
        before,
        result: Gives::Nothing,
        after,
    }
}

fn item(alloc: Global, item: Item, rows: &[Row]) -> Result<ItemRows, OutOfMemory> {
    let mut list = List::new(alloc);
    for row in rows {
        list.push(*row)?;
    }
    Ok(ItemRows { item, rows: list })
}

// The end of a function with one row.
fn ends(alloc: Global, given: u8) -> Result<ItemRows, OutOfMemory> {
    item(alloc, Item::Exit, &[row(given, State::Nil, State::Nil)])
}

fn done(alloc: Global, bits: u8, items: Vec<ItemRows>, writes: List<Write>) -> Verdict {
    let summary = Summary {
        bits,
        items: List::from_vec(items),
        writes,
    };
    Verdict::Done(summary, List::new(alloc))
}

// The verdict of `void g(spinlock_t*l){spin_lock(l);}`.
fn locks_once(alloc: Global) -> Result<Verdict, OutOfMemory> {
    let rows = [row(1, UNLOCKED, LOCKED), row(1, LOCKED, State::Bad)];
    let locks = item(alloc, Item::Lock(behind(alloc, 0)?), &rows)?;
    let items = vec![in alloc; ends(alloc, 1)?, locks]?;
    Ok(done(alloc, 1, items, List::new(alloc)))
}

// The verdict of `void g(spinlock_t*a,spinlock_t*b){spin_lock(a);spin_lock(b);}`.
fn locks_both(alloc: Global) -> Result<Verdict, OutOfMemory> {
    let of_a = [
        row(2, LOCKED, State::Bad),
        row(3, UNLOCKED, LOCKED),
        row(3, LOCKED, State::Bad),
    ];
    let of_b = [row(3, UNLOCKED, LOCKED), row(3, LOCKED, State::Bad)];
    let a = item(alloc, Item::Lock(behind(alloc, 0)?), &of_a)?;
    let b = item(alloc, Item::Lock(behind(alloc, 1)?), &of_b)?;
    let items = vec![in alloc; ends(alloc, 3)?, a, b]?;
    Ok(done(alloc, 2, items, List::new(alloc)))
}

// What the parameter 0 points to is written.
fn written(alloc: Global) -> Result<List<Write>, OutOfMemory> {
    let mut writes = List::new(alloc);
    writes.push(Write {
        path: behind(alloc, 0)?,
        width: 0,
    })?;
    Ok(writes)
}

// The verdict of `void mk(char**o){*o=kmalloc(4,0);}`.
fn makes_one(alloc: Global) -> Result<Verdict, OutOfMemory> {
    let rows = [
        row(1, State::Nil, State::Null),
        row(1, State::Nil, State::Fresh),
    ];
    let out = item(alloc, Item::Out(0), &rows)?;
    let items = vec![in alloc; ends(alloc, 1)?, out]?;
    let writes = written(alloc)?;
    Ok(done(alloc, 1, items, writes))
}

/// The verdict of a function that writes the pointer behind its parameter, without a row.
pub fn writes_only(alloc: Global) -> Result<Vec<Verdict>, OutOfMemory> {
    let out = item(alloc, Item::Out(0), &[])?;
    let items = vec![in alloc; out]?;
    let writes = written(alloc)?;
    Ok(vec![in alloc; done(alloc, 1, items, writes)]?)
}

// Whether the run of the second function of a file, which uses the summary of the first, has that text.
fn is_second(
    alloc: Global,
    text: &str,
    verdict: Result<Verdict, OutOfMemory>,
    choice: &str,
    want: &str,
) -> bool {
    match (checked(alloc, text), verdict) {
        (Some(program), Ok(verdict)) => is_text(second(alloc, &program, verdict, choice), want),
        _ => false,
    }
}

fn second(alloc: Global, program: &Program, verdict: Verdict, choice: &str) -> Option<Vec<u8>> {
    let verdicts = vec![in alloc; verdict].ok()?;
    let given = Given {
        program,
        function: 1,
        kept: &[0],
        verdicts: verdicts.as_slice(),
    };
    replayed(alloc, given, choice)
}

const TWICE: &str =
    "typedef struct{int v;}spinlock_t;\nvoid g(spinlock_t*l){spin_lock(l);}\nvoid h(spinlock_t*l){g(l);g(l);}";

/// A choice of a run of it, and the text of that run.
const CALLS: &[(&str, &str)] = &[
    (
        "98",
        "3:22 call g\n3:27 call g\n3:27 error *l\noutcome error *l\n",
    ),
    ("e0", "3:22 call g\n3:22 error *l\noutcome error *l\n"),
    ("80", "3:22 call g\noutcome aside norow\n"),
    ("00", "3:22 call g\noutcome aside norow\n"),
    ("90", "3:22 call g\n3:27 call g\noutcome aside norow\n"),
];

#[test]
fn a_lock_is_taken_twice_by_calls(rt: HostRuntime) {
    for &(choice, want) in CALLS {
        let verdict = locks_once(rt.alloc());
        assert!(rt;
            is_second(rt.alloc(), TWICE, verdict, choice, want),
            "{choice}"
        );
    }
}

const SAME: &str =
    "typedef struct{int v;}spinlock_t;\nvoid g(spinlock_t*a,spinlock_t*b){spin_lock(a);spin_lock(b);}\nvoid h(spinlock_t*p){g(p,p);}";

/// A choice of a run of it, and the text of that run.
const ALIASES: &[(&str, &str)] = &[
    ("80", "3:22 call g\noutcome aside alias\n"),
    ("c0", "3:22 call g\noutcome aside alias\n"),
    ("00", "3:22 call g\noutcome aside norow\n"),
];

#[test]
fn two_paths_lead_to_one_lock(rt: HostRuntime) {
    for &(choice, want) in ALIASES {
        let verdict = locks_both(rt.alloc());
        assert!(rt;
            is_second(rt.alloc(), SAME, verdict, choice, want),
            "{choice}"
        );
    }
}

const MAKER: &str =
    "void mk(char**o){*o=kmalloc(4,0);}\nvoid use(_Bool c){char*p;mk(&p);if(c)kfree(p);}";

/// A choice of a run of it, and the text of that run.
const OUTS: &[(&str, &str)] = &[
    ("000", "2:26 call mk\n2:33 if 0\n2:47 end\noutcome exit\n"),
    ("200", "2:26 call mk\n2:33 if 0\n2:47 end\noutcome exit\n"),
    ("400", "2:26 call mk\noutcome aside norow\n"),
    ("600", "2:26 call mk\noutcome aside norow\n"),
    (
        "a00",
        "2:26 call mk\n2:33 if 1\n2:38 call kfree\n2:47 end\noutcome exit\n",
    ),
    (
        "800",
        "2:26 call mk\n2:33 if 1\n2:38 call kfree\n2:47 end\noutcome exit\n",
    ),
];

#[test]
fn an_object_is_given_through_a_parameter(rt: HostRuntime) {
    for &(choice, want) in OUTS {
        let verdict = makes_one(rt.alloc());
        assert!(rt;
            is_second(rt.alloc(), MAKER, verdict, choice, want),
            "{choice}"
        );
    }
}

const CYCLE: &str = "void g(int n);void f(int n){if(n)g(n-1);}void g(int n){f(n);}";

/// A choice of a run of it, and the text of that run.
const KEPT: &[(&str, &str)] = &[
    (
        "00000001",
        "1:29 if 1\n1:34 call g\n1:41 end\noutcome exit\n",
    ),
    ("00000002", "1:29 if 1\n1:34 call g\noutcome aside norow\n"),
];

// The text of a run of the first function of a file, whose call of the second one is kept. That one comes to its end
// where it is given 0.
fn kept(alloc: Global, choice: &str) -> Option<Vec<u8>> {
    let program = checked(alloc, CYCLE)?;
    let verdicts = ends_only(alloc).ok()?;
    let given = Given {
        program: &program,
        function: 0,
        kept: &[1],
        verdicts: verdicts.as_slice(),
    };
    replayed(alloc, given, choice)
}

fn ends_only(alloc: Global) -> Result<Vec<Verdict>, OutOfMemory> {
    let items = vec![in alloc; ends(alloc, 0)?]?;
    Ok(vec![in alloc; done(alloc, 1, items, List::new(alloc))]?)
}

#[test]
fn an_edge_of_a_cycle_is_kept(rt: HostRuntime) {
    for &(choice, want) in KEPT {
        assert!(rt; is_text(kept(rt.alloc(), choice), want), "{choice}");
    }
}
