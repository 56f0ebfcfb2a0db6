//! Calls: operations of locks, objects, calls of which nothing is known, and kept callees that act by a summary.

use crate::beside::{Tally, all_beside, second_beside};
use crate::summaries::{locks_once, makes_one, negates};

const LOCKS: &[(&str, [Tally; 3])] = &[
    (
        "typedef struct{int v;}spinlock_t;void f(_Bool c,spinlock_t*l){spin_lock(l);if(c)spin_lock(l);spin_unlock(l);}",
        [(8, 1); 3],
    ),
    (
        "typedef struct{int v;}spinlock_t;_Bool f(spinlock_t*l,spinlock_t*m){if(spin_trylock(l)){spin_unlock(l);return 1;}spin_lock(m);return 0;}",
        [(32, 7); 3],
    ),
    (
        "typedef struct{int v;}spinlock_t;void f(spinlock_t*l,_Bool c){while(c){spin_lock(l);if(!c)break;spin_unlock(l);c=0;}}",
        [(8, 5); 3],
    ),
    (
        "typedef struct{int v;}spinlock_t;struct s{spinlock_t l;struct s*n;};void f(struct s*p){spin_lock(&p->l);spin_unlock(&p->n->l);}",
        [(512, 32); 3],
    ),
    (
        "typedef struct{int v;}spinlock_t;void f(_Bool c){spinlock_t s;spin_lock(&s);if(c)spin_lock(&s);}",
        [(2, 1); 3],
    ),
];

#[test]
fn operations_of_locks(rt: HostRuntime) {
    all_beside(&rt, rt.alloc(), LOCKS);
}

const OBJECTS: &[(&str, [Tally; 3])] = &[
    (
        "void f(_Bool n){char*p=kmalloc(8,0);if(n)goto out;kfree(p);out:;}",
        [(1024, 1024); 3],
    ),
    ("char f(char*p){kfree(p);return*p;}", [(1024, 0); 3]),
    ("void f(_Bool n){if(n)exit(1);}", [(2, 1); 3]),
    ("void m(char**o,_Bool c){if(c)*o=0;}", [(8192, 6144); 3]),
];

#[test]
fn objects_made_and_freed(rt: HostRuntime) {
    all_beside(&rt, rt.alloc(), OBJECTS);
}

const UNKNOWN: &[(&str, [Tally; 3])] = &[
    (
        "_Bool ask(_Bool*p);_Bool f(_Bool a){_Bool r=ask(&a);return r+a;}",
        [(4, 4); 3],
    ),
    (
        "_Bool f(_Bool(*g)(_Bool),_Bool a){return g(a)+(*g)(!a);}",
        [(32, 16); 3],
    ),
    (
        "_Bool ask(_Bool a,_Bool b);_Bool f(_Bool a){return ask(ask(a,0),a&&ask(1,a));}",
        [(16, 16); 3],
    ),
    (
        "_Bool*at(_Bool*p);_Bool f(_Bool a){_Bool*p=at(&a);*p=1;return a;}",
        [(8, 4); 3],
    ),
    (
        "typedef _Bool(*fn)(_Bool);fn pick(void);_Bool f(_Bool a){return pick()(a);}",
        [(8, 8); 3],
    ),
];

#[test]
fn calls_of_which_nothing_is_known(rt: HostRuntime) {
    all_beside(&rt, rt.alloc(), UNKNOWN);
}

const TAKERS: &[(&str, [Tally; 3])] = &[
    (
        "typedef struct{int v;}spinlock_t;void g(spinlock_t*l){spin_lock(l);}void h(spinlock_t*l){g(l);g(l);}",
        [(64, 0); 3],
    ),
    (
        "typedef struct{int v;}spinlock_t;void g(spinlock_t*l){spin_lock(l);}void h(_Bool c,spinlock_t*l){while(c){g(l);c=0;}if(!c)g(l);}",
        [(128, 4), (512, 16), (2048, 64)],
    ),
    (
        "typedef struct{int v;}spinlock_t;void g(spinlock_t*l){spin_lock(l);}void h(_Bool c,spinlock_t*l,spinlock_t*m){g(c?l:m);g(l);}",
        [(512, 1); 3],
    ),
];

#[test]
fn a_kept_callee_locks(rt: HostRuntime) {
    for &(text, tallies) in TAKERS {
        let verdict = locks_once(rt.alloc());
        assert!(rt;
            second_beside(&rt, rt.alloc(), text, verdict, tallies),
            "{text}"
        );
    }
}

const MAKERS: &[(&str, [Tally; 3])] = &[
    (
        "void mk(char**o){*o=kmalloc(4,0);}void use(_Bool c){char*p;mk(&p);if(c)kfree(p);}",
        [(2048, 1024); 3],
    ),
    (
        "void mk(char**o){*o=kmalloc(4,0);}void use(_Bool c){char*p=0;char*q=0;mk(c?&p:&q);if(p==q)kfree(p);}",
        [(2048, 1024); 3],
    ),
];

#[test]
fn a_kept_callee_gives_through_a_parameter(rt: HostRuntime) {
    for &(text, tallies) in MAKERS {
        let verdict = makes_one(rt.alloc());
        assert!(rt;
            second_beside(&rt, rt.alloc(), text, verdict, tallies),
            "{text}"
        );
    }
}

const NEGATIONS: &[(&str, [Tally; 3])] = &[
    (
        "_Bool not(_Bool a){return!a;}_Bool f(_Bool a){return not(a)&&not(not(a));}",
        [(16, 5); 3],
    ),
    (
        "_Bool not(_Bool a){return!a;}char f(_Bool a){char r=0;do r+=not(a);while(not(r));return r;}",
        [(8, 1), (32, 4), (128, 16)],
    ),
];

#[test]
fn a_kept_callee_gives_a_result(rt: HostRuntime) {
    for &(text, tallies) in NEGATIONS {
        let verdict = negates(rt.alloc());
        assert!(rt;
            second_beside(&rt, rt.alloc(), text, verdict, tallies),
            "{text}"
        );
    }
}
