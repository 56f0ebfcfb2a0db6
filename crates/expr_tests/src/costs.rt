//! How many gates expressions take.

use crate::beside::beside;
use sc_tree::ctype::Widths;
use std::alloc::Global;

// A function, and how many gates its expressions take at most.
type Row = (&'static str, usize);

// Of a number of 32 bits: a mask with a constant and a test of the sign take no gates, a comparison with a constant at most
// two for each bit, a sum five. An index is compared with eight constants; what is read, or written, takes at most a gate for
// each bit and place, and what is written one more for each place: twice 8 * 64, 256, 264, and 160 for the sum. Behind a
// pointer with one target a number takes at most a gate for each bit, and a pointer two.
const ROWS: &[Row] = &[
    ("int f(int x){return x&7;}", 0),
    ("int f(int x){return x<0;}", 0),
    ("int f(int x){return x==5;}", 64),
    ("int f(int x,int y){return x+y;}", 160),
    (ELEMENTS, 1704),
    (RING, 100),
];

const ELEMENTS: &str = "int a[8];int f(unsigned i,unsigned j,int x){a[i]=a[j]+x;return 0;}";

// The same with an array beside it.
const MORE: &str =
    "int z[64];int a[8];int f(unsigned i,unsigned j,int x){a[i]=a[j]+x;return z[9]-z[9];}";

// The expressions of a function of a driver, over an object that a parameter leads to.
const RING: &str = "\
typedef unsigned u32;
typedef struct { volatile int slock; } spinlock_t;
struct mutex { int owner; };
struct ring { spinlock_t lock; struct mutex open; u32 *slots; char *label; int users; };
int f(struct ring *r, u32 count)
{
 u32 *slots;
 char *label;
 int err;
 &r->open;
 r->users;
 err = -16;
 count * sizeof(u32);
 !slots;
 &r->lock;
 r->slots = slots;
 r->label = label;
 r->users = 1;
 return err;
}
";

fn gates(alloc: Global, text: &str) -> Option<usize> {
    Some(beside(alloc, text, Widths::Ilp32)?.gates)
}

fn takes_at_most(alloc: Global, text: &str, most: usize) -> bool {
    match gates(alloc, text) {
        Some(gates) => gates <= most,
        None => false,
    }
}

#[test]
fn gates_of_expressions(rt: HostRuntime) {
    for &(text, most) in ROWS {
        assert!(rt; takes_at_most(rt.alloc(), text, most), "{text}");
    }
}

#[test]
fn what_lies_beside_costs_nothing(rt: HostRuntime) {
    let alone = gates(rt.alloc(), ELEMENTS);
    assert!(rt; alone.is_some());
    assert!(rt; gates(rt.alloc(), MORE) == alone);
}
