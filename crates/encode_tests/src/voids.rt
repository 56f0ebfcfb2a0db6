//! What functions of type `void` return, and calls that give another type than they are declared with.

use crate::programs::{Row, all_hold, rows};

// `return f();` in a function of type `void`, and casts to `void`.
const VOIDS: &[Row] = rows![
    [[8, 2, 2]; 3] => "typedef struct{int v;}spinlock_t;void f(spinlock_t*l,_Bool c){if(c)return spin_lock(l);return spin_unlock(l);}",
    [[36, 6, 7]; 3] => "typedef struct{int v;}spinlock_t;void g(spinlock_t*l){return spin_lock(l);}void f(_Bool c,spinlock_t*l){if(c)return g(l);spin_unlock(l);}",
    [[16, 12, 0]; 3] => "void put(_Bool*p);void f(_Bool*p,_Bool c){if(c)return put(p);*p=c;}",
    [[16, 16, 0]; 3] => "void f(_Bool*p,_Bool c){return c?free(p):(void)0;}",
    [[2, 1, 0]; 3] => "void f(_Bool n){return n?exit(1):(void)n;}",
    [[8, 7, 0], [16, 16, 0], [32, 32, 0]] => "_Bool next(void);void g(void);void f(_Bool c){while(next()){if(c)return g();c=1;}}",
    [[2, 2, 0]; 3] => "void g(void);void f(_Bool c){return(c=!c,g());}",
    [[8, 8, 0]; 3] => "void f(_Bool*p){return(void)free(p);}",
    [[32, 32, 0]; 3] => "void f(void(*g)(_Bool*),_Bool*p){return g(p);}",
    [[4, 4, 0]; 3] => "void f(_Bool a,_Bool b){_Bool s[2]={a,b};return(void)s;}",
    [[16, 8, 0]; 3] => "void f(_Bool a,_Bool*p){return(void)(*p=a);}",
    [[4, 2, 0]; 3] => "void f(void*p){return(void)*p;}",
    [[72, 52, 0]; 3] => "void set(_Bool*p){*p=1;}void f(_Bool a,_Bool*p){return a?set(p):set(&a);}",
];

#[test]
fn returns_of_void(rt: HostRuntime) {
    all_hold(&rt, rt.alloc(), "", "", VOIDS);
}

// A call of an allocating function gives a pointer, whatever is declared.
const DECLARED: &[Row] = rows![
    [[2, 2, 0]; 3] => "int malloc(int n);_Bool f(void){return malloc(1)==0;}",
    [[4, 4, 0]; 3] => "int malloc(int n);_Bool f(_Bool c){return(malloc)(1)&&c;}",
];

#[test]
fn allocators_of_int(rt: HostRuntime) {
    all_hold(&rt, rt.alloc(), "", "", DECLARED);
}
