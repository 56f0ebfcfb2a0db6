//! Single functions, each kind of expression among them (C11 6.5, 6.3).

use crate::beside::{Tally, beside};
use run_world::Value;
use sc_interp::Outcome;
use sc_tree::ctype::Widths;
use std::alloc::Global;
use std::process::Abort;

// A text, on how many choices its function is tried, and on how many of them it comes to its end, as an independent program
// counted them that follows the same rules.
type Row = (&'static str, u64, u64);

fn is_beside(alloc: Global, text: &str, choices: u64, exits: u64) -> bool {
    match beside(alloc, text, Widths::Ilp32) {
        Some(tally) => tally.choices == choices && tally.exits == exits,
        None => false,
    }
}

fn all_beside(rt: &impl Abort, alloc: Global, rows: &[Row]) {
    for &(text, choices, exits) in rows {
        assert!(rt; is_beside(alloc, text, choices, exits), "{text}");
    }
}

// On the last choice all bits are set.
fn is_last(tally: Option<Tally>, value: Value, targets: usize) -> bool {
    match tally {
        Some(tally) => tally.last == Some(Outcome::Exit(value)) && tally.targets == targets,
        None => false,
    }
}

#[test]
fn one_more_than_255_is_256(rt: HostRuntime) {
    let sum = beside(
        rt.alloc(),
        "int f(unsigned char x){return x+1;}",
        Widths::Ilp32,
    );
    assert!(rt; is_last(sum, Value::Number(32, 256), 0));
}

#[test]
fn the_place_of_a_parameter_is_its_location_alone(rt: HostRuntime) {
    let place = beside(
        rt.alloc(),
        "unsigned char*f(unsigned char x){return&x;}",
        Widths::Ilp32,
    );
    assert!(rt; is_last(place, Value::Pointer(Some(0)), 1));
}

const NUMBERS: &[Row] = &[
    ("int f(unsigned char x){return x+1;}", 256, 256),
    ("int f(char a,_Bool b){return a/b;}", 512, 256),
    ("int f(char a,_Bool b){return a%b;}", 512, 256),
    ("int f(char a){return 1<<a;}", 256, 32),
    ("unsigned f(char a){return-1<1u;}", 256, 256),
    ("_Bool f(char a){return a;}", 256, 256),
    ("_Bool f(char a){_Bool b;b=a;return b;}", 256, 256),
    ("int f(char a){int x;x=3;x+=x+=a;return x;}", 256, 256),
    ("int f(char a){return a+++a;}", 256, 256),
    ("int f(char a){return a+++(a=3)+--a;}", 256, 256),
    ("int f(_Bool a,_Bool b){return((void)(a=b),a)+!b-~a;}", 4, 4),
    (
        "int f(_Bool a){return sizeof(a+1)+sizeof(int[3])+'a';}",
        2,
        2,
    ),
    (
        "int f(_Bool a,_Bool b){int x[2];x[a]=x[b]=3;x[a]+=x[1]++;return x[0]*5+x[1];}",
        4,
        4,
    ),
    (
        "int f(unsigned char i){_Bool a[3];a[i]=1;return a[2];}",
        256,
        3,
    ),
];

#[test]
fn numbers(rt: HostRuntime) {
    all_beside(&rt, rt.alloc(), NUMBERS);
}

const POINTERS: &[Row] = &[
    ("unsigned char*f(unsigned char x){return&x;}", 256, 256),
    ("_Bool f(_Bool*p){return*p;}", 8, 4),
    ("_Bool f(_Bool*p){return p[1];}", 8, 0),
    ("_Bool f(_Bool*p,_Bool a){return p[a];}", 16, 4),
    ("_Bool f(_Bool*p){int i;i=0;return p[i++]+p[i-1];}", 8, 4),
    (
        "int f(signed char i){_Bool a[3];a[i]=1;return a[2];}",
        256,
        3,
    ),
    ("_Bool f(_Bool**p){return**p;}", 32, 8),
    ("_Bool f(_Bool**p){*p=0;return**p;}", 32, 0),
    ("char f(void*p){return*(char*)p;}", 4, 0),
    ("_Bool*f(_Bool a){_Bool x[2];return&x[a];}", 2, 2),
    ("_Bool*f(_Bool a){_Bool x[2];return x;}", 2, 2),
    ("_Bool f(_Bool*p){(void)*p;return!p;}", 8, 4),
    (
        "int h(void);_Bool f(void){int(*p)(void);p=h;return p==h;}",
        1,
        1,
    ),
    ("char f(void){return*\"a\";}", 1, 0),
];

#[test]
fn pointers(rt: HostRuntime) {
    all_beside(&rt, rt.alloc(), POINTERS);
}

const OBJECTS: &[Row] = &[
    (
        "struct s{_Bool x;_Bool y[2];};int f(struct s*p){struct s g;g=*p;return g.y[1];}",
        128,
        64,
    ),
    (
        "struct s{_Bool x,y;};int f(struct s*p,struct s*q){*p=*q;return p->y;}",
        256,
        64,
    ),
    (
        "struct s{_Bool x;struct t{_Bool z;}y;};int f(struct s*p){struct t g;g=p->y;p->y=g;(*p).x=p->y.z;return p->x;}",
        128,
        64,
    ),
    (
        "struct s{_Bool x;};struct s g;_Bool f(struct s*p){*p=g=*p;return g.x;}",
        128,
        64,
    ),
    (
        "struct s{_Bool x;};struct s*f(struct s*p,_Bool*q){q=&p->x;*q=1;return p;}",
        128,
        64,
    ),
    (
        "struct s{_Bool x;};_Bool f(struct s*p){return(&*p)->x,(*&p->x)--,&p->x==&(*p).x;}",
        16,
        8,
    ),
];

#[test]
fn objects(rt: HostRuntime) {
    all_beside(&rt, rt.alloc(), OBJECTS);
}

const WITHOUT_GATES: &[&str] = &[
    "int h(void);int f(void){return h();}",
    "_Bool f(_Bool a,_Bool b){return a&&b;}",
    "_Bool f(_Bool a,_Bool b){return 1+(a||b);}",
    "int f(_Bool a){int x;x=a?1:2;return x;}",
];

#[test]
fn calls_and_branches_have_no_gates(rt: HostRuntime) {
    for &text in WITHOUT_GATES {
        assert!(rt; beside(rt.alloc(), text, Widths::Ilp32).is_none(), "{text}");
    }
}
