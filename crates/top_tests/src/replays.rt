// Replays of runs: each has its text, and as JSON its value. Where there is none, each reason has its line.

use crate::rows::{Call, INTERRUPTS, Ran, Row, rows, run};
use saturn_top::Status;
use sc_base::OutOfMemory;
use std::alloc::Global;

/// A lock that is taken twice where the condition holds.
const DOUBLE: &str =
    "typedef struct{int v;}spinlock_t;\nvoid f(_Bool c,spinlock_t*l){spin_lock(l);if(c)spin_lock(l);}";

const DIVIDE: &str = "int f(int a,int b){return a/b;}";

/// Replays, however their runs end: each has its text, and is clean.
pub const REPLAYS: &[Row] = rows![
    "the first path of a double lock": Clean ["saturn_run", "--function", "f", "--choice", "c", "a.c"] [("a.c", DOUBLE)] => "\
2:30 call spin_lock
2:43 if 1
2:48 call spin_lock
2:48 error *l
outcome error *l
",
    "the second path of a double lock": Clean ["saturn_run", "--choice", "e", "--function", "f", "a.c"] [("a.c", DOUBLE)] => "\
2:30 call spin_lock
2:30 error *l
outcome error *l
",
    "a lesser choice": Clean ["saturn_run", "--function", "f", "--choice", "4", "a.c"] [("a.c", DOUBLE)] => "\
2:30 call spin_lock
2:43 if 0
2:61 end
outcome exit
",
    "a division by zero": Clean ["saturn_run", "--function", "f", "--choice", "8000000000000000", "a.c"] [("a.c", DIVIDE)] => "outcome aside divide\n",
    "a quotient that is too large": Clean ["saturn_run", "--function", "f", "--choice", "80000000ffffffff", "a.c"]
        [("a.c", DIVIDE)] => "outcome aside divide\n",
    "a quotient": Clean ["saturn_run", "--function", "f", "--choice", "8000000000000002", "a.c"] [("a.c", DIVIDE)] => "1:20 return\noutcome exit\n",
    "no bits": Clean ["saturn_run", "--function", "f", "--choice", "none", "a.c"] [("a.c", "void f(void){}")] => "1:14 end\noutcome exit\n",
    "a function of the second file, by the rows of one of the first": Clean ["saturn_run", "--function", "h", "--choice", "98", "a.c", "b.c"]
        [("a.c", "typedef struct{int v;}spinlock_t;\nvoid g(spinlock_t*l){spin_lock(l);}"), ("b.c", "typedef struct{int v;}spinlock_t;\nvoid g(spinlock_t*l);\nvoid h(spinlock_t*l){g(l);g(l);}")] => "\
3:22 call g
3:27 call g
3:27 error *l
outcome error *l
",
    "the first of two functions of one name": Clean ["saturn_run", "--function", "f", "--choice", "none", "a.c", "b.c"]
        [("a.c", "static void f(void){}"), ("b.c", "static void f(_Bool b){}")] => "1:21 end\noutcome exit\n",
    "the operations of a machine": Clean ["saturn_run", "--machine", "m", "--function", "f", "--choice", "8", "a.c"]
        [("a.c", "struct h{int x;};\nvoid f(struct h*p){irq_on(p);irq_on(p);irq_on(p);}"), ("m", INTERRUPTS)] => "\
2:20 call irq_on
2:30 call irq_on
2:40 call irq_on
2:40 error *p
outcome error *p
",
];

/// Replays as JSON. The values were worked out from `docs/JSON.md` and the texts of the same runs.
pub const JSON_REPLAYS: &[Row] = rows![
    "an error, and what its choice says": Clean ["saturn_run", "--format", "json", "--function", "f", "--choice", "c", "a.c"]
        [("a.c", DOUBLE)] => "\
{\"format\":\"nalvegop run\",\"version\":1,\"options\":{\"depth\":2,\"reach\":2,\"model\":\"ilp32\",\"machine\":\"lock\",\"states\":[\"U\",\"L\"]},\
\"function\":{\"name\":\"f\",\"place\":{\"file\":\"a.c\",\"line\":2,\"column\":6,\"source\":{\"file\":\"a.c\",\"line\":2}},\"in_header\":false},\
\"run\":{\"choice\":\"c\",\"location\":\"*l\",\"events\":[{\"place\":{\"file\":\"a.c\",\"line\":2,\"column\":30,\"source\":{\"file\":\"a.c\",\
\"line\":2}},\"kind\":\"call\",\"callee\":\"spin_lock\"},{\"place\":{\"file\":\"a.c\",\"line\":2,\"column\":43,\"source\":{\"file\":\"a.c\",\
\"line\":2}},\"kind\":\"if\",\"holds\":true},{\"place\":{\"file\":\"a.c\",\"line\":2,\"column\":48,\"source\":{\"file\":\"a.c\",\"line\":2}},\
\"kind\":\"call\",\"callee\":\"spin_lock\"},{\"place\":{\"file\":\"a.c\",\"line\":2,\"column\":48,\"source\":{\"file\":\"a.c\",\"line\":2}},\
\"kind\":\"error\"}],\"says\":[{\"kind\":\"cell\",\"location\":\"c\",\"value\":{\"number\":\"1\"}},{\"kind\":\"cell\",\"location\":\"l\",\
\"value\":{\"object\":\"*l\"}},{\"kind\":\"state\",\"location\":\"*l\",\"value\":{\"state\":\"U\"}}]},\"outcome\":\"error\"}",
    "a run that is set aside": Clean ["saturn_run", "--function", "f", "--choice", "8000000000000000", "a.c", "--model", "lp64", "--depth", "3", "--reach", "1", "--format=json"]
        [("a.c", DIVIDE)] => "\
{\"format\":\"nalvegop run\",\"version\":1,\"options\":{\"depth\":3,\"reach\":1,\"model\":\"lp64\",\"machine\":\"lock\",\"states\":[\"U\",\"L\"]},\
\"function\":{\"name\":\"f\",\"place\":{\"file\":\"a.c\",\"line\":1,\"column\":5,\"source\":{\"file\":\"a.c\",\"line\":1}},\"in_header\":false},\
\"run\":{\"choice\":\"8000000000000000\",\"location\":\"\",\"events\":[],\"says\":[{\"kind\":\"cell\",\"location\":\"a\",\
\"value\":{\"number\":\"-2147483648\"}},{\"kind\":\"cell\",\"location\":\"b\",\"value\":{\"number\":\"0\"}}]},\"outcome\":{\"aside\":\"divide\"}}",
    "a run without bits that comes to its end": Clean ["saturn_run", "--format", "json", "--function", "f", "--choice", "none", "a.c"]
        [("a.c", "void f(void){}")] => "\
{\"format\":\"nalvegop run\",\"version\":1,\"options\":{\"depth\":2,\"reach\":2,\"model\":\"ilp32\",\"machine\":\"lock\",\"states\":[\"U\",\"L\"]},\
\"function\":{\"name\":\"f\",\"place\":{\"file\":\"a.c\",\"line\":1,\"column\":6,\"source\":{\"file\":\"a.c\",\"line\":1}},\"in_header\":false},\
\"run\":{\"choice\":\"none\",\"location\":\"\",\"events\":[{\"place\":{\"file\":\"a.c\",\"line\":1,\"column\":14,\"source\":{\"file\":\"a.c\",\
\"line\":1}},\"kind\":\"end\"}],\"says\":[]},\"outcome\":\"exit\"}",
    "known calls behind a line marker": Clean ["saturn_run", "--format", "json", "--function", "h", "--choice", "98", "a.c", "b.c"]
        [("a.c", "typedef struct{int v;}spinlock_t;\nvoid g(spinlock_t*l){spin_lock(l);}"), ("b.c", "# 10 \"src/h.c\"\ntypedef struct{int v;}spinlock_t;\nvoid g(spinlock_t*l);\nvoid h(spinlock_t*l){g(l);g(l);}")] => "\
{\"format\":\"nalvegop run\",\"version\":1,\"options\":{\"depth\":2,\"reach\":2,\"model\":\"ilp32\",\"machine\":\"lock\",\"states\":[\"U\",\"L\"]},\
\"function\":{\"name\":\"h\",\"place\":{\"file\":\"b.c\",\"line\":4,\"column\":6,\"source\":{\"file\":\"src/h.c\",\"line\":12}},\"in_header\":false},\
\"run\":{\"choice\":\"98\",\"location\":\"*l\",\"events\":[{\"place\":{\"file\":\"b.c\",\"line\":4,\"column\":22,\"source\":{\"file\":\"src/h.c\",\
\"line\":12}},\"kind\":\"call\",\"callee\":\"g\"},{\"place\":{\"file\":\"b.c\",\"line\":4,\"column\":27,\"source\":{\"file\":\"src/h.c\",\
\"line\":12}},\"kind\":\"call\",\"callee\":\"g\"},{\"place\":{\"file\":\"b.c\",\"line\":4,\"column\":27,\"source\":{\"file\":\"src/h.c\",\
\"line\":12}},\"kind\":\"error\"}],\"says\":[{\"kind\":\"cell\",\"location\":\"l\",\"value\":{\"object\":\"*l\"}},{\"kind\":\"state\",\
\"location\":\"*l\",\"value\":{\"state\":\"U\"}},{\"kind\":\"item\",\"place\":{\"file\":\"b.c\",\"line\":4,\"column\":22,\
\"source\":{\"file\":\"src/h.c\",\"line\":12}},\"turn\":0,\"item\":\"state\",\"path\":{\"text\":\"*l\",\"root\":{\"kind\":\"parameter\",\"number\":0,\
\"name\":\"l\"},\"steps\":[\"target\"]},\"value\":{\"state\":\"L\"}},{\"kind\":\"item\",\"place\":{\"file\":\"b.c\",\"line\":4,\"column\":27,\
\"source\":{\"file\":\"src/h.c\",\"line\":12}},\"turn\":0,\"item\":\"state\",\"path\":{\"text\":\"*l\",\"root\":{\"kind\":\"parameter\",\"number\":0,\
\"name\":\"l\"},\"steps\":[\"target\"]},\"value\":\"error\"}]},\"outcome\":\"error\"}",
    "a choice that is refused as in text": Refused ["saturn_run", "--format", "json", "--function", "f", "--choice", "5", "a.c"]
        [("a.c", DOUBLE)] => "saturn_run: bad choice\n",
];

/// Where there is no run: each reason has its line.
pub const UNREPLAYED: &[Row] = rows![
    "digits of another length": Refused ["saturn_run", "--function", "f", "--choice", "41", "a.c"] [("a.c", DOUBLE)] => "saturn_run: bad choice\n",
    "a bit behind the last one": Refused ["saturn_run", "--function", "f", "--choice", "5", "a.c"] [("a.c", DOUBLE)] => "saturn_run: bad choice\n",
    "a capital letter": Refused ["saturn_run", "--function", "f", "--choice", "C", "a.c"] [("a.c", DOUBLE)] => "saturn_run: bad choice\n",
    "a choice of no bits where there are three": Refused ["saturn_run", "--function", "f", "--choice", "none", "a.c"]
        [("a.c", DOUBLE)] => "saturn_run: bad choice\n",
    "a choice of the second of two functions of one name": Refused ["saturn_run", "--function", "f", "--choice", "none", "b.c", "a.c"]
        [("a.c", "static void f(void){}"), ("b.c", "static void f(_Bool b){}")] => "saturn_run: bad choice\n",
    "no such function": Refused ["saturn_run", "--function", "q", "--choice", "4", "a.c"] [("a.c", DOUBLE)] => "saturn_run: no function q\n",
    "a skipped function": Refused ["saturn_run", "--function", "g", "--choice", "4", "a.c"]
        [("a.c", "void g(char*q){double x;x=0;}")] => "saturn_run: skipped g\n",
    "a second body, before the name is looked for": Refused ["saturn_run", "--function", "q", "--choice", "4", "a.c"]
        [("a.c", "void f(void){}\nvoid f(void){}")] => "saturn_run: duplicate f\n",
    "a byte that begins no token": Refused ["saturn_run", "--function", "f", "--choice", "4", "a.c"] [("a.c", "int x=@;")] => "saturn_run: a.c:1:7: lexical\n",
    "no such file": ReadFault ["saturn_run", "--function", "f", "--choice", "4", "b.c"] [("a.c", DOUBLE)] => "saturn_run: cannot read b.c\n",
];

// A replay by these words of the first file of a row, where the output has this room.
fn replay(alloc: Global, words: &[&str], room: usize) -> Result<Ran, OutOfMemory> {
    run(alloc, Call::Replay, words, &[("a.c", DOUBLE)], &[], room)
}

// What is wrong with them the text of `clap` says, of which nothing is compared.
fn are_bad(alloc: Global, words: &[&str]) -> bool {
    match replay(alloc, words, 10_000) {
        Ok(ran) => ran.only_erred(Status::BadWords),
        Err(_) => false,
    }
}

#[test]
fn the_function_the_choice_and_a_file_are_needed(rt: HostRuntime) {
    let bad: [&[&str]; 3] = [
        &["saturn_run", "--function", "f", "a.c"],
        &["saturn_run", "--choice", "4", "a.c"],
        &["saturn_run", "--function", "f", "--choice", "4"],
    ];
    for words in bad {
        assert!(rt; are_bad(rt.alloc(), words));
    }
}

fn is_helped(alloc: Global) -> bool {
    match replay(alloc, &["saturn_run", "--help"], 10_000) {
        Ok(ran) => ran.only_told(Status::Helped),
        Err(_) => false,
    }
}

#[test]
fn help_of_a_replay_goes_to_the_output(rt: HostRuntime) {
    assert!(rt; is_helped(rt.alloc()));
}

// Whether a sink of 20 bytes has the front of the text of the first path.
fn has_the_front(alloc: Global) -> bool {
    let words = ["saturn_run", "--function", "f", "--choice", "c", "a.c"];
    match replay(alloc, &words, 20) {
        Ok(ran) => ran.ended(Status::WriteFault, b"2:30 call spin_lock\n", b""),
        Err(_) => false,
    }
}

#[test]
fn a_full_sink_has_the_front_of_a_replay(rt: HostRuntime) {
    assert!(rt; has_the_front(rt.alloc()));
}
