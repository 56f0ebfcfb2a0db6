//! Functions that a generator makes, over numbers, pointers, arrays and structs.

use crate::beside::beside;
use crate::generate::{Forms, Grammar, Numbers, function};
use sc_tree::ctype::Widths;
use std::alloc::Global;

/// So many functions are made of each grammar.
const FUNCTIONS: u32 = 170;

/// Their parts are at most so deep.
const DEPTH: u32 = 3;

const NONE: Forms = Forms {
    leaves: &[],
    inner: &[],
};

// Of numbers alone.
const NUMBERS: Grammar = Grammar {
    head: "long long f(_Bool a,_Bool b,_Bool c,_Bool d){int u;unsigned char w;long long v;short x;",
    integers: Forms {
        leaves: &[
            "0",
            "3",
            "(-1)",
            "5u",
            "'a'",
            "300ll",
            "sizeof(long)",
            "a",
            "(a-b*2)",
            "(a*4+b*2+c)",
            "(c*2+d)",
            "u",
            "w",
            "v",
            "x",
        ],
        inner: &[
            "(I+I)",
            "(I-I)",
            "(I*I)",
            "(I / I)",
            "(I%I)",
            "(I<<I)",
            "(I>>I)",
            "(I&I)",
            "(I^I)",
            "(I|I)",
            "(I<I)",
            "(I>I)",
            "(I<=I)",
            "(I>=I)",
            "(I==I)",
            "(I!=I)",
            "(-I)",
            "(~I)",
            "(!I)",
            "(+I)",
            "(_Bool)(I)",
            "(char)(I)",
            "(unsigned char)(I)",
            "(unsigned short)(I)",
            "(int)(I)",
            "(unsigned)(I)",
            "(long)(I)",
            "(unsigned long)(I)",
            "(I,I)",
            "sizeof(I)",
            "(L=I)",
            "(L*=I)",
            "(L/=I)",
            "(L%=I)",
            "(L+=I)",
            "(L-=I)",
            "(L<<=I)",
            "(L>>=I)",
            "(L&=I)",
            "(L^=I)",
            "(L|=I)",
            "(++L)",
            "(--L)",
            "(L++)",
            "(L--)",
        ],
    },
    numbers: Forms {
        leaves: &["a", "u", "w", "v", "x"],
        inner: &[],
    },
    pointers: NONE,
    variables: NONE,
    objects: NONE,
};

// Of pointers to numbers.
const POINTERS: Grammar = Grammar {
    head: "int f(_Bool a,_Bool*p,_Bool*q){",
    integers: Forms {
        leaves: &["0", "1", "(-1)", "a", "*p", "*q", "p[0]", "q[a]", "(!p)"],
        inner: &[
            "(I+I)",
            "(I-I)",
            "(I<<I)",
            "(I / I)",
            "(I==I)",
            "(I<I)",
            "(!I)",
            "(~I)",
            "(I,I)",
            "(L=I)",
            "(L+=I)",
            "(L^=I)",
            "(L/=I)",
            "(++L)",
            "(L--)",
            "L",
            "(P==P)",
            "(P!=P)",
            "(!P)",
            "(_Bool)(P)",
            "(V=P,I)",
            "(*(V=P))",
            "(P==0)",
        ],
    },
    numbers: Forms {
        leaves: &["a", "(*p)", "(*q)", "p[0]"],
        inner: &["(*P)", "(P)[I]", "a"],
    },
    pointers: Forms {
        leaves: &["p", "q", "(&a)"],
        inner: &["(V=P)", "(&*P)", "(I,P)", "(V=0)", "(&(P)[I])"],
    },
    variables: Forms {
        leaves: &["p", "q"],
        inner: &[],
    },
    objects: NONE,
};

// Of structs and arrays, in a parameter's object and in a global.
const OBJECTS: Grammar = Grammar {
    head: "struct s{_Bool x;_Bool y[2];};struct s g;int f(_Bool a,struct s*p){",
    integers: Forms {
        leaves: &[
            "0",
            "1",
            "a",
            "p->x",
            "g.x",
            "p->y[a]",
            "g.y[1]",
            "(*p->y)",
            "(sizeof g)",
        ],
        inner: &[
            "(I+I)", "(I-I)", "(I==I)", "(I>I)", "(!I)", "(I,I)", "(L=I)", "(L-=I)", "(L|=I)",
            "(--L)", "(L++)", "L", "(P==P)", "(!P)", "(O=O,I)", "(O=O).x", "(p=&O,I)", "(p==&O)",
        ],
    },
    numbers: Forms {
        leaves: &["a", "p->x", "g.y[0]", "p->y[1]"],
        inner: &[
            "(O).x",
            "(O).y[I]",
            "(&O)->x",
            "(&O)->y[I]",
            "(*P)",
            "(P)[I]",
        ],
    },
    pointers: Forms {
        leaves: &["(&p->x)", "(&g.x)", "p->y", "(&g.y[1])", "(&a)"],
        inner: &["(O).y", "(&(O).x)", "(&(O).y[I])", "(&L)"],
    },
    variables: NONE,
    objects: Forms {
        leaves: &["g", "(*p)"],
        inner: &["g", "(*p)", "(*&O)", "p[I]", "(*(I,p))"],
    },
};

// How many choices all made functions were tried on, in both widths, and on how many of them they come to their end; none
// where one of them does not agree with its runs.
fn all_beside(alloc: Global, grammar: &Grammar, seed: u64) -> Option<(u64, u64)> {
    let mut numbers = Numbers { state: seed };
    let mut choices = 0u64;
    let mut exits = 0u64;
    for _function in 0..FUNCTIONS {
        let Ok(text) = function(alloc, grammar, &mut numbers, DEPTH) else {
            return None;
        };
        for widths in [Widths::Ilp32, Widths::Lp64] {
            let tally = beside(alloc, text.as_str(), widths)?;
            choices = choices.saturating_add(tally.choices);
            exits = exits.saturating_add(tally.exits);
        }
    }
    Some((choices, exits))
}

// Some runs come to their end, and some do not.
fn agree(alloc: Global, grammar: &Grammar, seed: u64) -> bool {
    match all_beside(alloc, grammar, seed) {
        Some((choices, exits)) => 0 < exits && exits < choices,
        None => false,
    }
}

#[test]
fn numbers(rt: HostRuntime) {
    assert!(rt; agree(rt.alloc(), &NUMBERS, 1));
}

#[test]
fn pointers(rt: HostRuntime) {
    assert!(rt; agree(rt.alloc(), &POINTERS, 2));
}

#[test]
fn objects(rt: HostRuntime) {
    assert!(rt; agree(rt.alloc(), &OBJECTS, 3));
}
