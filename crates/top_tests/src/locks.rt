// Locks: each row is one that a run has.

use crate::rows::{Row, rows};

pub const LOCKS: &[Row] = rows![
    "lock taken at exit": Clean ["saturn_check", "a.c"] [("a.c", "typedef struct{int v;}spinlock_t;\nvoid f(_Bool c,spinlock_t*l){spin_lock(l);}")] => "\
function f at a.c:2:6
  entry c l
  exits
    01 -> -
    11 -> -
  lock *l
    01 U -> - L
    01 L -> - !
    11 U -> - L
    11 L -> - !
total functions 1 skipped 0 rows 6 reports 0
",
    "double lock under a condition": Reports ["saturn_check", "a.c"]
        [("a.c", "typedef struct{int v;}spinlock_t;\nvoid f(_Bool c,spinlock_t*l){spin_lock(l);if(c)spin_lock(l);}")] => "\
function f at a.c:2:6
  entry c l
  exits
    01 -> -
  lock *l
    01 U -> - L
    01 L -> - !
    11 U -> - !
    11 L -> - !
  report double *l
    choice c
    2:30 call spin_lock
    2:43 if 1
    2:48 call spin_lock
    2:48 error *l
    choice e
    2:30 call spin_lock
    2:30 error *l
total functions 1 skipped 0 rows 5 reports 1
",
    "trylock told by the result": Clean ["saturn_check", "a.c"]
        [("a.c", "typedef struct{int v;}spinlock_t;\nint f(spinlock_t*l){if(spin_trylock(l))return 1;return 0;}")] => "\
function f at a.c:2:5
  entry l
  exits
    1 -> 0
    1 -> 1
  lock *l
    1 U -> 0 U
    1 U -> 1 L
    1 L -> 0 L
total functions 1 skipped 0 rows 5 reports 0
",
    "trylock not told by the result": Reports ["saturn_check", "a.c"]
        [("a.c", "typedef struct{int v;}spinlock_t;\nint f(spinlock_t*l){if(spin_trylock(l))return 0;return 0;}")] => "\
function f at a.c:2:5
  entry l
  exits
    1 -> 0
  lock *l
    1 U -> 0 U
    1 U -> 0 L
    1 L -> 0 L
  report ambiguous *l
    choice 8
    2:24 call spin_trylock
    2:21 if 0
    2:49 return
    choice a
    2:24 call spin_trylock
    2:21 if 1
    2:40 return
total functions 1 skipped 0 rows 4 reports 1
",
    "two lock paths to one lock": Clean ["saturn_check", "a.c"]
        [("a.c", "typedef struct{int v;}spinlock_t;\nvoid g(spinlock_t*a,spinlock_t*b){spin_lock(a);spin_lock(b);}\nvoid h(spinlock_t*p){g(p,p);}")] => "\
function g at a.c:2:6
  entry a b
  exits
    11 -> -
  lock *a
    10 L -> - !
    11 U -> - L
    11 L -> - !
  lock *b
    11 U -> - L
    11 L -> - !
function h at a.c:3:6
  entry p
  exits no
total functions 2 skipped 0 rows 6 reports 0
",
    "double lock by two calls": Reports ["saturn_check", "a.c"]
        [("a.c", "typedef struct{int v;}spinlock_t;\nvoid g(spinlock_t*l){spin_lock(l);}\nvoid h(spinlock_t*l){g(l);g(l);}")] => "\
function g at a.c:2:6
  entry l
  exits
    1 -> -
  lock *l
    1 U -> - L
    1 L -> - !
function h at a.c:3:6
  entry l
  exits no
  lock *l
    1 U -> - !
    1 L -> - !
  report double *l
    choice 98
    3:22 call g
    3:27 call g
    3:27 error *l
    choice e0
    3:22 call g
    3:22 error *l
total functions 2 skipped 0 rows 5 reports 1
",
    "double lock of a local": Reports ["saturn_check", "a.c"]
        [("a.c", "typedef struct{int v;}spinlock_t;\nvoid f(void){spinlock_t s;spin_lock(&s);spin_lock(&s);}")] => "\
function f at a.c:2:6
  entry -
  exits no
  report inner s
    choice none
    2:27 call spin_lock
    2:41 call spin_lock
    2:41 error s
total functions 1 skipped 0 rows 0 reports 1
",
    "narrow loop of two turns": Clean ["saturn_check", "--depth", "2", "a.c"]
        [("a.c", "typedef struct{int v;}spinlock_t;\nvoid f(spinlock_t*l,unsigned char n){int i;spin_lock(l);for(i=0;i<n;i++)if(i==2)spin_lock(l);}")] => "\
function f at a.c:2:6
  entry l n
  exits
    10 -> -
    11 -> -
  lock *l
    10 U -> - L
    10 L -> - !
    11 U -> - L
    11 L -> - !
total functions 1 skipped 0 rows 6 reports 0
",
    "narrow loop of three turns": Reports ["saturn_check", "--depth", "3", "a.c"]
        [("a.c", "typedef struct{int v;}spinlock_t;\nvoid f(spinlock_t*l,unsigned char n){int i;spin_lock(l);for(i=0;i<n;i++)if(i==2)spin_lock(l);}")] => "\
function f at a.c:2:6
  entry l n
  exits
    10 -> -
    11 -> -
  lock *l
    10 U -> - L
    10 L -> - !
    11 U -> - L
    11 U -> - !
    11 L -> - !
  report double *l
    choice 818
    2:44 call spin_lock
    2:57 loop 1
    2:73 if 0
    2:57 loop 1
    2:73 if 0
    2:57 loop 1
    2:73 if 1
    2:81 call spin_lock
    2:81 error *l
    choice 80c
    2:44 call spin_lock
    2:44 error *l
total functions 1 skipped 0 rows 7 reports 1
",
    "narrow mutual recursion": Clean ["saturn_check", "a.c"]
        [("a.c", "typedef struct{int v;}spinlock_t;\nvoid b(spinlock_t*l,_Bool n);\nvoid a(spinlock_t*l,_Bool n){spin_unlock(l);if(n)b(l,!n);}\nvoid b(spinlock_t*l,_Bool n){spin_lock(l);a(l,n);}")] => "\
function a at a.c:3:6
  entry l n
  exits
    10 -> -
    11 -> -
  lock *l
    10 U -> - !
    10 L -> - U
    11 U -> - !
    11 L -> - L
  param l
    10 -> - held
    11 -> - escaped
function b at a.c:4:6
  entry l n
  exits
    10 -> -
    11 -> -
  lock *l
    10 U -> - L
    10 L -> - !
    11 U -> - L
    11 L -> - !
  param l
    10 -> - escaped
    11 -> - escaped
total functions 2 skipped 0 rows 16 reports 0
",
    "promotion and unsigned comparison": Reports ["saturn_check", "a.c"]
        [("a.c", "typedef struct{int v;}spinlock_t;\nvoid f(spinlock_t*l,unsigned char x){spin_lock(l);if(x+1==256)spin_lock(l);if(-1<1u)spin_lock(l);}")] => "\
function f at a.c:2:6
  entry l x
  exits
    10 -> -
    11 -> -
  lock *l
    10 U -> - L
    10 L -> - !
    11 U -> - L
    11 U -> - !
    11 L -> - !
  report double *l
    choice ff8
    2:38 call spin_lock
    2:51 if 1
    2:63 call spin_lock
    2:63 error *l
    choice 80c
    2:38 call spin_lock
    2:38 error *l
total functions 1 skipped 0 rows 7 reports 1
",
];
