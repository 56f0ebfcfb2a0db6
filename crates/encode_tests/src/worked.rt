//! Worked rows: programs whose verdicts were found by hand; other tests hold their whole texts.

use crate::programs::{Row, SPINLOCK, all_hold, rows};

// Locks: taken at the end, taken twice, tried, two paths to one lock, callees and turns of a loop.
const LOCKS: &[Row] = rows![
    [[8, 2, 2]; 3] => "void f(_Bool c,spinlock_t*l){spin_lock(l);}",
    [[8, 1, 3]; 3] => "void f(_Bool c,spinlock_t*l){spin_lock(l);if(c)spin_lock(l);}",
    [[8, 4, 0]; 3] => "_Bool f(spinlock_t*l){if(spin_trylock(l))return 1;return 0;}",
    [[8, 4, 0]; 3] => "_Bool f(spinlock_t*l){if(spin_trylock(l))return 0;return 0;}",
    [[80, 1, 5]; 3] => "void g(spinlock_t*a,spinlock_t*b){spin_lock(a);spin_lock(b);}void h(spinlock_t*p){g(p,p);}",
    [[68, 1, 11]; 3] => "void g(spinlock_t*l){spin_lock(l);}void h(spinlock_t*l){g(l);g(l);}",
    [[1024, 255, 257]; 3] => "void f(spinlock_t*l,char k){spin_lock(l);switch(k){case 1:spin_unlock(l);case 2:spin_unlock(l);}}",
    [[1024, 2, 256], [1024, 3, 256], [1024, 3, 509]] => "void f(spinlock_t*l,unsigned char n){int i;spin_lock(l);for(i=0;i<n;i++)if(i==2)spin_lock(l);}",
    [[1, 0, 1]; 3] => "void f(void){spinlock_t s;spin_lock(&s);spin_lock(&s);}",
];

// Objects: lost, given back, freed for the caller, and given through a parameter.
const OBJECTS: &[Row] = rows![
    [[8, 8, 0]; 3] => "void f(_Bool n){_Bool*p=kmalloc(1,0);if(n)goto out;kfree(p);out:;}",
    [[8, 8, 0]; 3] => "void f(_Bool n){_Bool*p=kmalloc(1,0);if(n)goto out;out:kfree(p);}",
    [[8, 8, 0]; 3] => "void f(_Bool c){_Bool*p=kmalloc(1,0);if(c)kfree(p);}",
    [[8, 8, 0]; 3] => "void f(_Bool*p){kfree(p);}",
    [[8, 8, 0]; 3] => "_Bool*f(_Bool n){return malloc(n);}",
    [[64, 48, 0]; 3] => "void m(_Bool**o,_Bool c){if(c)*o=0;}",
];

// A machine of three states, left from each of them.
const STATES: &[Row] = rows![
    [[8, 1, 3]; 3] => "struct h{int x;};void f(struct h*p){irq_on(p);irq_on(p);}",
    [[8, 0, 4]; 3] => "struct h{int x;};void f(struct h*p){irq_on(p);irq_on(p);irq_on(p);}",
];

const INTERRUPTS: &str = "\
machine irq
states off on nested
op irq_on void off>on on>nested nested>!
op irq_off void off>! on>off nested>on
";

#[test]
fn worked_programs(rt: HostRuntime) {
    all_hold(&rt, rt.alloc(), SPINLOCK, "", LOCKS);
    all_hold(&rt, rt.alloc(), "", "", OBJECTS);
    all_hold(&rt, rt.alloc(), "", INTERRUPTS, STATES);
}
