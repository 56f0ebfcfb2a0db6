//! Calls, by what they do.

use crate::programs::{Row, SPINLOCK, all_hold, rows};

const LOCKS: &[Row] = rows![
    [[8, 1, 3]; 3] => "void f(_Bool c,spinlock_t*l){spin_lock(l);if(c)spin_lock(l);spin_unlock(l);}",
    [[32, 7, 3]; 3] => "_Bool f(spinlock_t*l,spinlock_t*m){if(spin_trylock(l)){spin_unlock(l);return 1;}spin_lock(m);return 0;}",
    [[8, 5, 1]; 3] => "void f(spinlock_t*l,_Bool c){while(c){spin_lock(l);if(!c)break;spin_unlock(l);c=0;}}",
    [[512, 32, 160]; 3] => "struct s{spinlock_t l;struct s*n;};void f(struct s*p){spin_lock(&p->l);spin_unlock(&p->n->l);}",
    [[2, 1, 1]; 3] => "void f(_Bool c){spinlock_t s;spin_lock(&s);if(c)spin_lock(&s);}",
    [[32, 12, 20]; 3] => "spinlock_t g[2];_Bool f(_Bool i){mutex_lock(&g[i]);mutex_unlock(g);return pthread_mutex_trylock(&g[1])==16;}",
];

#[test]
fn operations_of_locks(rt: HostRuntime) {
    all_hold(&rt, rt.alloc(), SPINLOCK, "", LOCKS);
}

// Objects that are made and freed, and calls that do not return.
const ALLOCS: &[Row] = rows![
    [[8, 8, 0]; 3] => "void f(_Bool n){_Bool*p=kmalloc(1,0);if(n)goto out;kfree(p);out:;}",
    [[8, 0, 0]; 3] => "_Bool f(_Bool*p){kfree(p);return*p;}",
    [[8, 4, 0]; 3] => "void f(_Bool*p){free(p);free(p);}",
    [[128, 96, 0]; 3] => "void m(_Bool**o,_Bool c){if(c)*o=kzalloc(1,0);}",
    [[8, 8, 0]; 3] => "_Bool*f(_Bool n){_Bool*p=malloc(1);if(p)*p=n;return p;}",
    [[8, 6, 0], [32, 28, 0], [128, 120, 0]] => "_Bool f(_Bool c){_Bool*p=0;while(c){p=malloc(1);c=!p;}return p==0;}",
    [[2, 1, 0]; 3] => "void f(_Bool n){if(n)exit(1);}",
];

#[test]
fn allocations(rt: HostRuntime) {
    all_hold(&rt, rt.alloc(), "", "", ALLOCS);
}

// Calls of which nothing is known, which lets objects escape; and a call that gives its first argument.
const UNKNOWN: &[Row] = rows![
    [[4, 4, 0]; 3] => "_Bool ask(_Bool*p);_Bool f(_Bool a){_Bool r=ask(&a);return r+a;}",
    [[32, 16, 0]; 3] => "_Bool f(_Bool(*g)(_Bool),_Bool a){return g(a)+(*g)(!a);}",
    [[8, 4, 0]; 3] => "_Bool*at(_Bool*p);_Bool f(_Bool a){_Bool*p=at(&a);*p=1;return a;}",
    [[4, 4, 0]; 3] => "void keep(void*p);_Bool f(void){_Bool*p=malloc(1);keep(p);if(p)*p=0;return!p;}",
    [[4, 4, 0]; 3] => "_Bool f(_Bool a,_Bool b){return __builtin_expect(a,0)?b:__builtin_expect(!b,1);}",
    [[16, 8, 0]; 3] => "struct s{_Bool a;_Bool b;};struct s*get(void);_Bool f(_Bool c){struct s y=*get();y.a=c;return y.b;}",
];

#[test]
fn calls_of_which_nothing_is_known(rt: HostRuntime) {
    all_hold(&rt, rt.alloc(), "", "", UNKNOWN);
}

// Calls by the summary of the callee: one lock, two that may be one, a try, objects that are given through a parameter, given as the
// result and freed, what is written, and globals.
const KNOWN: &[Row] = rows![
    [[132, 5, 19]; 3] => "typedef struct{int v;}spinlock_t;void g(spinlock_t*l){spin_lock(l);}void h(_Bool c,spinlock_t*l){g(l);if(c)g(l);}",
    [[144, 1, 13]; 3] => "typedef struct{int v;}spinlock_t;void g(spinlock_t*a,spinlock_t*b){spin_lock(a);spin_unlock(b);}void h(_Bool c,spinlock_t*l){g(l,c?l:0);spin_unlock(l);}",
    [[48, 2, 5]; 3] =>
        "typedef struct{int v;}spinlock_t;void g(spinlock_t*a,spinlock_t*b){spin_lock(a);spin_lock(b);}\
        void h(_Bool c){spinlock_t x,y;spin_lock(&x);spin_unlock(&x);spin_lock(&y);spin_unlock(&y);g(&x,c?&x:&y);}",
    [[40, 6, 1]; 3] => "typedef struct{int v;}spinlock_t;_Bool t(spinlock_t*l){return spin_trylock(l);}void h(spinlock_t*l){if(t(l))spin_unlock(l);else spin_unlock(l);}",
    [[144, 72, 0]; 3] => "void mk(_Bool**o){*o=kmalloc(1,0);}void use(_Bool c){_Bool*p;mk(&p);if(c)kfree(p);}",
    [[144, 72, 0]; 3] => "void mk(_Bool**o){*o=kmalloc(1,0);}void use(_Bool c){_Bool*p=0;_Bool*q=0;mk(c?&p:&q);if(p==q)kfree(p);}",
    [[24, 14, 0]; 3] => "_Bool*mk(_Bool n){if(n)return 0;return malloc(1);}void use(_Bool c){_Bool*p=mk(c);if(p)free(p);}",
    [[40, 32, 0]; 3] => "void drop(_Bool*p){free(p);}void use(_Bool c){_Bool*p=malloc(1);if(c)drop(p);if(p)*p=1;}",
    [[12, 8, 0]; 3] => "void set(_Bool*p){*p=1;}_Bool f(_Bool a){_Bool b=0;set(a?&a:&b);return a+b;}",
    [[640, 448, 0]; 3] => "_Bool*kept;void hold(_Bool*p){kept=p;}void f(void){_Bool*p=malloc(1);hold(p);}",
    [[10, 3, 0], [34, 6, 0], [130, 18, 0]] => "_Bool not(_Bool a){return!a;}char f(_Bool a){char r=0;do r+=not(a);while(not(r));return r;}",
    [[66, 5, 19]; 3] => "typedef struct{int v;}spinlock_t;spinlock_t g;void take(void){spin_lock(&g);}void f(_Bool c){take();if(c)take();spin_unlock(&g);}",
];

#[test]
fn calls_by_summaries(rt: HostRuntime) {
    all_hold(&rt, rt.alloc(), "", "", KNOWN);
}

/// A machine of three states.
const INTERRUPTS: &str = "\
machine irq
states off on nested
op irq_on void off>on on>nested nested>!
op irq_off void off>! on>off nested>on
op irq_ask zero off>off on>! nested>!
";

const STATES: &[Row] = rows![
    [[8, 1, 3]; 3] => "struct h{_Bool x;};void f(struct h*p){irq_on(p);irq_on(p);}",
    [[256, 68, 52], [512, 140, 108], [1024, 284, 220]] => "struct h{_Bool x;};_Bool ask(void);void f(struct h*p){while(ask()){irq_on(p);if(p->x)break;irq_off(p);}irq_off(p);}",
    [[1, 0, 1]; 3] => "struct h{_Bool x;};_Bool f(void){struct h s;irq_on(&s);return irq_ask(&s);}",
    [[1032, 28, 138]; 3] => "struct h{_Bool x;};void up(struct h*p){irq_on(p);}void f(struct h*p,_Bool c){up(p);if(c)up(p);irq_off(p);}",
];

#[test]
fn operations_of_a_machine(rt: HostRuntime) {
    all_hold(&rt, rt.alloc(), "", INTERRUPTS, STATES);
}
