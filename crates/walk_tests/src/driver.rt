//! A function of a driver, with a mutex, a lock, three objects and `goto`: walked beside its runs on some choices, since
//! it has 262 bits.

use crate::beside::first_agrees_on;

const RING: &str = "\
# 1 \"drivers/ring.c\"
# 1 \"include/kernel.h\" 1 3
typedef unsigned int u32;
typedef struct { volatile int slock; } spinlock_t;
struct mutex { int owner; };
extern int printk(const char *fmt, ...) __attribute__((format(printf, 1, 2)));
extern void *kmalloc(u32 size, int flags);
extern void kfree(const void *p);
# 9 \"drivers/ring.c\" 2
struct ring {
 spinlock_t lock;
 struct mutex open;
 u32 *slots;
 char *label;
 int users;
};
static int ring_setup(struct ring *r, u32 count, int flags)
{
 u32 *slots;
 char *label;
 char *scratch;
 int err = -12;
 mutex_lock(&r->open);
 if (r->users) {
  err = -16;
  goto out;
 }
 slots = kmalloc(count * sizeof(u32), flags);
 if (!slots)
  goto out;
 label = kmalloc(16, flags);
 if (!label)
  goto out_slots;
 scratch = kmalloc(64, flags);
 if (!scratch) {
  printk(\"ring: no scratch\\n\");
  goto out_slots;
 }
 spin_lock(&r->lock);
 r->slots = slots;
 r->label = label;
 r->users = 1;
 spin_unlock(&r->lock);
 kfree(scratch);
 mutex_unlock(&r->open);
 return 0;
out_slots:
 kfree(slots);
out:
 printk(\"ring: setup failed %d\\n\", err);
 mutex_unlock(&r->open);
 return err;
}
";

// The first bit says that `ring` is there; the others that the first, the second and the third object are given.
const CHOICES: &[(&[usize], bool)] = &[
    (&[], false),
    (&[0], true),
    (&[0, 147], true),
    (&[0, 147, 180], true),
    (&[0, 147, 180, 189], true),
    (&[147, 180, 189], false),
];

#[test]
fn a_driver_gives_up_and_succeeds(rt: HostRuntime) {
    for &(set, exits) in CHOICES {
        let agreed = first_agrees_on(&rt, rt.alloc(), RING, set);
        assert!(rt; agreed == Some(exits), "{set:?}");
    }
}
