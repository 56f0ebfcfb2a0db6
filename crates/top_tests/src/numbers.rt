// Functions with numbers of 32 and 64 bits: too many choices to try each, so that the solver has to answer.

use crate::rows::{LOCK_MACHINE, Row, rows};

/// A function of a driver, as it comes out of the preprocessor.
pub const DRIVER: &str = "\
# 1 \"drivers/ring.c\"
# 1 \"include/kernel.h\" 1 3
typedef unsigned int u32;
typedef struct { volatile int slock; } spinlock_t;
struct mutex { int owner; };
extern int printk(const char *fmt, ...) __attribute__((format(printf, 1, 2)));
extern void *kmalloc(u32 size, int flags);
extern void kfree(const void *p);
# 9 \"drivers/ring.c\" 2
struct ring {
 spinlock_t lock;
 struct mutex open;
 u32 *slots;
 char *label;
 int users;
};
static int ring_setup(struct ring *r, u32 count, int flags)
{
 u32 *slots;
 char *label;
 char *scratch;
 int err = -12;
 mutex_lock(&r->open);
 if (r->users) {
  err = -16;
  goto out;
 }
 slots = kmalloc(count * sizeof(u32), flags);
 if (!slots)
  goto out;
 label = kmalloc(16, flags);
 if (!label)
  goto out_slots;
 scratch = kmalloc(64, flags);
 if (!scratch) {
  printk(\"ring: no scratch\\n\");
  goto out_slots;
 }
 spin_lock(&r->lock);
 r->slots = slots;
 r->label = label;
 r->users = 1;
 spin_unlock(&r->lock);
 kfree(scratch);
 mutex_unlock(&r->open);
 return 0;
out_slots:
 kfree(slots);
out:
 printk(\"ring: setup failed %d\\n\", err);
 mutex_unlock(&r->open);
 return err;
}
";

pub const NUMBERS: &[Row] = rows![
    "signed sum wraps": Reports ["saturn_check", "a.c"]
        [("a.c", "typedef struct{int v;}spinlock_t;\nvoid f(spinlock_t*l,int x){spin_lock(l);if(x+1<x)spin_lock(l);}")] => "\
function f at a.c:2:6
  entry l x
  exits
    10 -> -
    11 -> -
  lock *l
    10 U -> - L
    10 L -> - !
    11 U -> - L
    11 U -> - !
    11 L -> - !
  report double *l
    choice bfffffff8
    2:28 call spin_lock
    2:41 if 1
    2:50 call spin_lock
    2:50 error *l
    choice 80000000c
    2:28 call spin_lock
    2:28 error *l
total functions 1 skipped 0 rows 7 reports 1
",
    "unsigned sum wraps": Reports ["saturn_check", "a.c"]
        [("a.c", "typedef struct{int v;}spinlock_t;\nvoid f(spinlock_t*l,unsigned x){spin_lock(l);if(x+1<x)spin_lock(l);}")] => "\
function f at a.c:2:6
  entry l x
  exits
    10 -> -
    11 -> -
  lock *l
    10 U -> - L
    10 L -> - !
    11 U -> - L
    11 U -> - !
    11 L -> - !
  report double *l
    choice ffffffff8
    2:33 call spin_lock
    2:46 if 1
    2:55 call spin_lock
    2:55 error *l
    choice 80000000c
    2:33 call spin_lock
    2:33 error *l
total functions 1 skipped 0 rows 7 reports 1
",
    "division sets aside": Clean ["saturn_check", "a.c"] [("a.c", "int f(int a,int b){return a/b;}")] => "\
function f at a.c:1:5
  entry a b
  exits
    01 -> 0
    11 -> 0
    11 -> 1
total functions 1 skipped 0 rows 3 reports 0
",
    "switch that falls through": Reports ["saturn_check", "a.c"]
        [("a.c", "typedef struct{int v;}spinlock_t;\nvoid f(spinlock_t*l,int k){spin_lock(l);switch(k){case 1:spin_unlock(l);case 2:spin_unlock(l);}}")] => "\
function f at a.c:2:6
  entry l k
  exits
    10 -> -
    11 -> -
  lock *l
    10 U -> - L
    10 L -> - !
    11 U -> - U
    11 U -> - L
    11 U -> - !
    11 L -> - !
  report double *l
    choice 800000008
    2:28 call spin_lock
    2:41 switch 1
    2:58 call spin_unlock
    2:80 call spin_unlock
    2:80 error *l
    choice 80000000c
    2:28 call spin_lock
    2:28 error *l
  report ambiguous *l
    choice 800000010
    2:28 call spin_lock
    2:41 switch 2
    2:80 call spin_unlock
    2:96 end
    choice 800000018
    2:28 call spin_lock
    2:41 switch 3
    2:96 end
total functions 1 skipped 0 rows 8 reports 2
",
    "loop of two turns misses the third": Clean ["saturn_check", "--depth", "2", "a.c"]
        [("a.c", "typedef struct{int v;}spinlock_t;\nvoid f(spinlock_t*l,int n){int i;spin_lock(l);for(i=0;i<n;i++)if(i==2)spin_lock(l);}")] => "\
function f at a.c:2:6
  entry l n
  exits
    10 -> -
    11 -> -
  lock *l
    10 U -> - L
    10 L -> - !
    11 U -> - L
    11 L -> - !
total functions 1 skipped 0 rows 6 reports 0
",
    "loop of three turns finds the double lock": Reports ["saturn_check", "--depth", "3", "a.c"]
        [("a.c", "typedef struct{int v;}spinlock_t;\nvoid f(spinlock_t*l,int n){int i;spin_lock(l);for(i=0;i<n;i++)if(i==2)spin_lock(l);}")] => "\
function f at a.c:2:6
  entry l n
  exits
    10 -> -
    11 -> -
  lock *l
    10 U -> - L
    10 L -> - !
    11 U -> - L
    11 U -> - !
    11 L -> - !
  report double *l
    choice 800000018
    2:34 call spin_lock
    2:47 loop 1
    2:63 if 0
    2:47 loop 1
    2:63 if 0
    2:47 loop 1
    2:63 if 1
    2:71 call spin_lock
    2:71 error *l
    choice 80000000c
    2:34 call spin_lock
    2:34 error *l
total functions 1 skipped 0 rows 7 reports 1
",
    "list beyond the reach": Clean ["saturn_check", "--reach", "2", "a.c"]
        [("a.c", "struct s{struct s*n;int v;};\nint f(struct s*p){return p->n->n->v;}")] => "\
function f at a.c:2:5
  entry p
  exits no
total functions 1 skipped 0 rows 0 reports 0
",
    "list within the reach": Clean ["saturn_check", "--reach", "3", "a.c"]
        [("a.c", "struct s{struct s*n;int v;};\nint f(struct s*p){return p->n->n->v;}")] => "\
function f at a.c:2:5
  entry p
  exits
    1 -> 0
    1 -> 1
total functions 1 skipped 0 rows 2 reports 0
",
    "fresh result": Clean ["saturn_check", "a.c"] [("a.c", "char*f(int n){return malloc(n);}")] => "\
function f at a.c:1:6
  entry n
  exits
    0 -> 0 null
    0 -> 1 fresh
    1 -> 0 null
    1 -> 1 fresh
total functions 1 skipped 0 rows 4 reports 0
",
    "leak behind a goto": Reports ["saturn_check", "a.c"] [("a.c", "void f(int n){char*p=kmalloc(8,0);if(n)goto out;kfree(p);out:;}")] => "\
function f at a.c:1:6
  entry n
  exits
    0 -> -
    1 -> -
  report leak 1:22
    choice 00000001800
    1:22 call kmalloc
    1:35 if 1
    1:40 goto out
    1:63 end
total functions 1 skipped 0 rows 2 reports 1
",
    "no leak with the free behind the label": Clean ["saturn_check", "a.c"] [("a.c", "void f(int n){char*p=kmalloc(8,0);if(n)goto out;out:kfree(p);}")] => "\
function f at a.c:1:6
  entry n
  exits
    0 -> -
    1 -> -
total functions 1 skipped 0 rows 2 reports 0
",
    "driver leaks on an error path": Reports ["saturn_check", "ring.c"] [("ring.c", DRIVER)] => "\
function ring_setup at ring.c:17:12
  entry r count flags
  exits
    100 -> 0
    100 -> 1
    101 -> 0
    101 -> 1
    110 -> 0
    110 -> 1
    111 -> 0
    111 -> 1
  lock r->lock
    100 U -> 0 U
    100 U -> 1 U
    100 L -> - !
    100 L -> 1 L
    101 U -> 0 U
    101 U -> 1 U
    101 L -> - !
    101 L -> 1 L
    110 U -> 0 U
    110 U -> 1 U
    110 L -> - !
    110 L -> 1 L
    111 U -> 0 U
    111 U -> 1 U
    111 L -> - !
    111 L -> 1 L
  lock r->open
    100 U -> 0 U
    100 U -> 1 U
    100 L -> - !
    101 U -> 0 U
    101 U -> 1 U
    101 L -> - !
    110 U -> 0 U
    110 U -> 1 U
    110 L -> - !
    111 U -> 0 U
    111 U -> 1 U
    111 L -> - !
  writes r->slots
  writes r->label
  writes r->users
  report leak 31:10
    choice 800000000000000000000000000000000000100000000800000000000000000000
    23:2 call mutex_lock
    24:2 if 0
    28:10 call kmalloc
    29:2 if 0
    31:10 call kmalloc
    32:2 if 0
    34:12 call kmalloc
    35:2 if 1
    36:3 call printk
    37:3 goto out_slots
    48:2 call kfree
    50:2 call printk
    51:2 call mutex_unlock
    52:2 return
total functions 1 skipped 0 rows 36 reports 1
",
    "skipped callee is unknown": Clean ["saturn_check", "a.c"] [("a.c", "void g(char*q){double x;x=0;}\nvoid f(int n){char*p=malloc(n);g(p);}")] => "\
function g at a.c:1:6
  skipped unsupported float 1:23
function f at a.c:2:6
  entry n
  exits
    0 -> -
    1 -> -
total functions 2 skipped 1 rows 2 reports 0
",
    "unsigned into a long of 32 bits": Reports ["saturn_check", "--model", "ilp32", "a.c"]
        [("a.c", "typedef struct{int v;}spinlock_t;\nvoid f(spinlock_t*l,unsigned x){long y=x;spin_lock(l);if(y<0)spin_lock(l);}")] => "\
function f at a.c:2:6
  entry l x
  exits
    10 -> -
    11 -> -
  lock *l
    10 U -> - L
    10 L -> - !
    11 U -> - L
    11 U -> - !
    11 L -> - !
  report double *l
    choice c00000000
    2:42 call spin_lock
    2:55 if 1
    2:62 call spin_lock
    2:62 error *l
    choice 80000000c
    2:42 call spin_lock
    2:42 error *l
total functions 1 skipped 0 rows 7 reports 1
",
    "unsigned into a long of 64 bits": Clean ["saturn_check", "--model", "lp64", "a.c"]
        [("a.c", "typedef struct{int v;}spinlock_t;\nvoid f(spinlock_t*l,unsigned x){long y=x;spin_lock(l);if(y<0)spin_lock(l);}")] => "\
function f at a.c:2:6
  entry l x
  exits
    10 -> -
    11 -> -
  lock *l
    10 U -> - L
    10 L -> - !
    11 U -> - L
    11 L -> - !
total functions 1 skipped 0 rows 6 reports 0
",
    "long long under ilp32": Clean ["saturn_check", "--model", "ilp32", "a.c"] [("a.c", "int f(long long x){return x==4294967296;}")] => "\
function f at a.c:1:5
  entry x
  exits
    0 -> 0
    1 -> 0
    1 -> 1
total functions 1 skipped 0 rows 3 reports 0
",
    "long long under lp64": Clean ["saturn_check", "--model", "lp64", "a.c"] [("a.c", "int f(long long x){return x==4294967296;}")] => "\
function f at a.c:1:5
  entry x
  exits
    0 -> 0
    1 -> 0
    1 -> 1
total functions 1 skipped 0 rows 3 reports 0
",
    "machine lock loop of three turns": Reports ["saturn_check", "--depth", "3", "--machine", "m", "a.c"]
        [("a.c", "typedef struct{int v;}spinlock_t;\nvoid f(spinlock_t*l,int n){int i;spin_lock(l);for(i=0;i<n;i++)if(i==2)spin_lock(l);}"), ("m", LOCK_MACHINE)] => "\
function f at a.c:2:6
  entry l n
  exits
    10 -> -
    11 -> -
  lock *l
    10 U -> - L
    10 L -> - !
    11 U -> - L
    11 U -> - !
    11 L -> - !
  report double *l
    choice 800000018
    2:34 call spin_lock
    2:47 loop 1
    2:63 if 0
    2:47 loop 1
    2:63 if 0
    2:47 loop 1
    2:63 if 1
    2:71 call spin_lock
    2:71 error *l
    choice 80000000c
    2:34 call spin_lock
    2:34 error *l
total functions 1 skipped 0 rows 7 reports 1
",
    "machine lock switch that falls through": Reports ["saturn_check", "--machine", "m", "a.c"]
        [("a.c", "typedef struct{int v;}spinlock_t;\nvoid f(spinlock_t*l,int k){spin_lock(l);switch(k){case 1:spin_unlock(l);case 2:spin_unlock(l);}}"), ("m", LOCK_MACHINE)] => "\
function f at a.c:2:6
  entry l k
  exits
    10 -> -
    11 -> -
  lock *l
    10 U -> - L
    10 L -> - !
    11 U -> - U
    11 U -> - L
    11 U -> - !
    11 L -> - !
  report double *l
    choice 800000008
    2:28 call spin_lock
    2:41 switch 1
    2:58 call spin_unlock
    2:80 call spin_unlock
    2:80 error *l
    choice 80000000c
    2:28 call spin_lock
    2:28 error *l
  report ambiguous *l
    choice 800000010
    2:28 call spin_lock
    2:41 switch 2
    2:80 call spin_unlock
    2:96 end
    choice 800000018
    2:28 call spin_lock
    2:41 switch 3
    2:96 end
total functions 1 skipped 0 rows 8 reports 2
",
];
