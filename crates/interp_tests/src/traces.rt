//! Runs that come to their end, or to an error of locks.

use crate::runs::is_replayed;

/// A file, the choice of a run of its first function, and the text of that run.
const RUNS: &[(&str, &str, &str)] = &[
    (
        "typedef struct{int v;}spinlock_t;\nvoid f(_Bool c,spinlock_t*l){spin_lock(l);if(c)spin_lock(l);}",
        "c",
        "2:30 call spin_lock\n2:43 if 1\n2:48 call spin_lock\n2:48 error *l\noutcome error *l\n",
    ),
    (
        "typedef struct{int v;}spinlock_t;\nvoid f(_Bool c,spinlock_t*l){spin_lock(l);if(c)spin_lock(l);}",
        "4",
        "2:30 call spin_lock\n2:43 if 0\n2:61 end\noutcome exit\n",
    ),
    (
        "typedef struct{int v;}spinlock_t;\nvoid f(spinlock_t*l){spin_lock(l);}",
        "c",
        "2:22 call spin_lock\n2:22 error *l\noutcome error *l\n",
    ),
    (
        "typedef struct{int v;}spinlock_t;\nvoid f(void){spinlock_t s;spin_lock(&s);spin_lock(&s);}",
        "",
        "2:27 call spin_lock\n2:41 call spin_lock\n2:41 error s\noutcome inner s\n",
    ),
    (
        "typedef struct{int v;}spinlock_t;\nint f(spinlock_t*l){if(spin_trylock(l))return 1;return 0;}",
        "a",
        "2:24 call spin_trylock\n2:21 if 1\n2:40 return\noutcome exit\n",
    ),
    (
        "typedef struct{int v;}spinlock_t;\nint f(spinlock_t*l){if(spin_trylock(l))return 1;return 0;}",
        "e",
        "2:24 call spin_trylock\n2:21 if 0\n2:49 return\noutcome exit\n",
    ),
    (
        "typedef struct{int v;}spinlock_t;\nvoid f(spinlock_t*l,int k){spin_lock(l);switch(k){case 1:spin_unlock(l);case 2:spin_unlock(l);}}",
        "800000008",
        "2:28 call spin_lock\n2:41 switch 1\n2:58 call spin_unlock\n2:80 call spin_unlock\n2:80 error *l\noutcome error *l\n",
    ),
    (
        "typedef struct{int v;}spinlock_t;\nvoid f(spinlock_t*l,int k){spin_lock(l);switch(k){case 1:spin_unlock(l);case 2:spin_unlock(l);}}",
        "800000010",
        "2:28 call spin_lock\n2:41 switch 2\n2:80 call spin_unlock\n2:96 end\noutcome exit\n",
    ),
    (
        "int f(int a,int b){return a/b;}",
        "8000000000000002",
        "1:20 return\noutcome exit\n",
    ),
    (
        "void f(int n){char*p=kmalloc(8,0);if(n)goto out;kfree(p);out:;}",
        "00000001800",
        "1:22 call kmalloc\n1:35 if 1\n1:40 goto out\n1:63 end\noutcome exit\n",
    ),
    (
        "void f(int n){char*p=kmalloc(8,0);if(n)goto out;kfree(p);out:;}",
        "00000000000",
        "1:22 call kmalloc\n1:35 if 0\n1:49 call kfree\n1:63 end\noutcome exit\n",
    ),
    (
        "void f(int n){int i;for(i=0;i<n;i++);}",
        "00000002",
        "1:21 loop 1\n1:21 loop 1\n1:21 loop 0\n1:38 end\noutcome exit\n",
    ),
    (
        "void f(_Bool c){do;while(c);}",
        "0",
        "1:17 loop 0\n1:29 end\noutcome exit\n",
    ),
    (
        "void f(int n){int i;for(i=0;i<2;i++){int j;for(j=0;j<2;j++)if(j==n)break;}}",
        "00000001",
        "1:21 loop 1\n1:44 loop 1\n1:60 if 0\n1:44 loop 1\n1:60 if 1\n1:21 loop 1\n1:44 loop 1\n1:60 if 0\n1:44 loop 1\n1:60 if 1\n1:21 loop 0\n1:75 end\noutcome exit\n",
    ),
    (
        "int f(int n){switch(n){case 1:n=5;case 2:break;default:return 0;}return n;}",
        "00000001",
        "1:14 switch 1\n1:66 return\noutcome exit\n",
    ),
    (
        "int f(int n){switch(n){case 1:n=5;case 2:break;default:return 0;}return n;}",
        "00000003",
        "1:14 switch 3\n1:56 return\noutcome exit\n",
    ),
    (
        "int f(int n){return n?unknown(n):7;}",
        "0000000000000000",
        "1:14 return\noutcome exit\n",
    ),
    (
        "int f(int n){return n?unknown(n):7;}",
        "0000000100000005",
        "1:23 call unknown\n1:14 return\noutcome exit\n",
    ),
    (
        "int f(int a,int b){return a%b;}",
        "fffffff900000002",
        "1:20 return\noutcome exit\n",
    ),
    (
        "int f(int a,int n){return a<<n;}",
        "000000010000001f",
        "1:20 return\noutcome exit\n",
    ),
    (
        "int f(int i){int a[2];a[0]=1;return a[i];}",
        "00000001",
        "1:30 return\noutcome exit\n",
    ),
    (
        "void f(char*p){kfree(p);kfree(p);}",
        "000",
        "1:16 call kfree\n1:25 call kfree\n1:34 end\noutcome exit\n",
    ),
    (
        "void f(char*p){unknown(p);*p=1;}",
        "80000000000",
        "1:16 call unknown\n1:32 end\noutcome exit\n",
    ),
    (
        "void f(int n){if(n)f(n-1);}",
        "00000001",
        "1:15 if 1\n1:20 call f\n1:27 end\noutcome exit\n",
    ),
    (
        "void m(char**o,_Bool c){if(c)*o=0;}",
        "d888",
        "1:25 if 1\n1:35 end\noutcome exit\n",
    ),
    (
        "void m(char**o,_Bool c){if(c)*o=0;}",
        "9408",
        "1:25 if 0\n1:35 end\noutcome exit\n",
    ),
    (
        "void f(void(*g)(int)){if(g)g(1);}",
        "8",
        "1:23 if 1\n1:28 call *\n1:33 end\noutcome exit\n",
    ),
    (
        "void f(int n){if(n)exit(1);}",
        "00000000",
        "1:15 if 0\n1:28 end\noutcome exit\n",
    ),
];

#[test]
fn runs_to_an_end(rt: HostRuntime) {
    for &(text, choice, want) in RUNS {
        assert!(rt;
            is_replayed(rt.alloc(), text, choice, want),
            "{text} {choice}"
        );
    }
}
