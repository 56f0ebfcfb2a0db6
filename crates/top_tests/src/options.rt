// What options change.

use crate::rows::{INTERRUPTS, LOCK_MACHINE, Row, rows};

pub const OPTIONS: &[Row] = rows![
    "long against unsigned of 32 bits": Clean ["saturn_check", "--model", "ilp32", "a.c"]
        [("a.c", "typedef struct{int v;}spinlock_t;\nvoid f(spinlock_t*l){spin_lock(l);if((long)-1<1u)spin_lock(l);}")] => "\
function f at a.c:2:6
  entry l
  exits
    1 -> -
  lock *l
    1 U -> - L
    1 L -> - !
total functions 1 skipped 0 rows 3 reports 0
",
    "long against unsigned of 64 bits": Reports ["saturn_check", "--model", "lp64", "a.c"]
        [("a.c", "typedef struct{int v;}spinlock_t;\nvoid f(spinlock_t*l){spin_lock(l);if((long)-1<1u)spin_lock(l);}")] => "\
function f at a.c:2:6
  entry l
  exits no
  lock *l
    1 U -> - !
    1 L -> - !
  report double *l
    choice 8
    2:22 call spin_lock
    2:35 if 1
    2:50 call spin_lock
    2:50 error *l
    choice c
    2:22 call spin_lock
    2:22 error *l
total functions 1 skipped 0 rows 2 reports 1
",
    "machine of three states": Clean ["saturn_check", "--machine", "m", "a.c"]
        [("a.c", "struct h{int x;};\nvoid f(struct h*p){irq_on(p);irq_on(p);}"), ("m", INTERRUPTS)] => "\
function f at a.c:2:6
  entry p
  exits
    1 -> -
  irq *p
    1 off -> - nested
    1 on -> - !
    1 nested -> - !
total functions 1 skipped 0 rows 4 reports 0
",
    "machine left by every state": Reports ["saturn_check", "--machine", "m", "a.c"]
        [("a.c", "struct h{int x;};\nvoid f(struct h*p){irq_on(p);irq_on(p);irq_on(p);}"), ("m", INTERRUPTS)] => "\
function f at a.c:2:6
  entry p
  exits no
  irq *p
    1 off -> - !
    1 on -> - !
    1 nested -> - !
  report double *p
    choice 8
    2:20 call irq_on
    2:30 call irq_on
    2:40 call irq_on
    2:40 error *p
    choice a
    2:20 call irq_on
    2:30 call irq_on
    2:30 error *p
    choice c
    2:20 call irq_on
    2:20 error *p
total functions 1 skipped 0 rows 3 reports 1
",
    "machine lock lock taken at exit": Clean ["saturn_check", "--machine", "m", "a.c"]
        [("a.c", "typedef struct{int v;}spinlock_t;\nvoid f(_Bool c,spinlock_t*l){spin_lock(l);}"), ("m", LOCK_MACHINE)] => "\
function f at a.c:2:6
  entry c l
  exits
    01 -> -
    11 -> -
  lock *l
    01 U -> - L
    01 L -> - !
    11 U -> - L
    11 L -> - !
total functions 1 skipped 0 rows 6 reports 0
",
    "machine lock double lock under a condition": Reports ["saturn_check", "--machine", "m", "a.c"]
        [("a.c", "typedef struct{int v;}spinlock_t;\nvoid f(_Bool c,spinlock_t*l){spin_lock(l);if(c)spin_lock(l);}"), ("m", LOCK_MACHINE)] => "\
function f at a.c:2:6
  entry c l
  exits
    01 -> -
  lock *l
    01 U -> - L
    01 L -> - !
    11 U -> - !
    11 L -> - !
  report double *l
    choice c
    2:30 call spin_lock
    2:43 if 1
    2:48 call spin_lock
    2:48 error *l
    choice e
    2:30 call spin_lock
    2:30 error *l
total functions 1 skipped 0 rows 5 reports 1
",
    "machine lock double lock by two calls": Reports ["saturn_check", "--machine", "m", "a.c"]
        [("a.c", "typedef struct{int v;}spinlock_t;\nvoid g(spinlock_t*l){spin_lock(l);}\nvoid h(spinlock_t*l){g(l);g(l);}"), ("m", LOCK_MACHINE)] => "\
function g at a.c:2:6
  entry l
  exits
    1 -> -
  lock *l
    1 U -> - L
    1 L -> - !
function h at a.c:3:6
  entry l
  exits no
  lock *l
    1 U -> - !
    1 L -> - !
  report double *l
    choice 98
    3:22 call g
    3:27 call g
    3:27 error *l
    choice e0
    3:22 call g
    3:22 error *l
total functions 2 skipped 0 rows 5 reports 1
",
];
