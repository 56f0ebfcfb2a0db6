//! For each reason to set a run aside, functions and choices that are.

use crate::runs::is_replayed;

/// A file, the choice of a run of its first function, and the text of that run. Of the eleven reasons `alias` and
/// `norow`, which calls by summaries have, are in `known`.
const ASIDES: &[(&str, &str, &str)] = &[
    (
        "typedef struct{int v;}spinlock_t;\nvoid f(_Bool c,spinlock_t*l){spin_lock(l);if(c)spin_lock(l);}",
        "8",
        "2:30 call spin_lock\noutcome aside null\n",
    ),
    ("void f(int*p){*p=1;}", "000000000", "outcome aside null\n"),
    (
        "char f(char*p){return p[1];}",
        "000",
        "outcome aside null\n",
    ),
    (
        "char f(char***p){return***p;}",
        "c0",
        "outcome aside null\n",
    ),
    (
        "char f(char***p){return***p;}",
        "d0",
        "outcome aside reach\n",
    ),
    (
        "void f(char*p){kfree(p);*p=1;}",
        "800",
        "1:16 call kfree\noutcome aside freed\n",
    ),
    (
        "void f(char*p){kfree(p);*p=1;}",
        "000",
        "1:16 call kfree\noutcome aside null\n",
    ),
    (
        "void f(char*p){kfree(p);kfree(p);}",
        "800",
        "1:16 call kfree\n1:25 call kfree\noutcome aside freed\n",
    ),
    (
        "void f(void){char c;kfree(&c);}",
        "",
        "1:21 call kfree\noutcome aside freed\n",
    ),
    (
        "char f(int*p){return*(char*)p;}",
        "800000000",
        "outcome aside type\n",
    ),
    (
        "int f(int i){int a[2];a[0]=1;return a[i];}",
        "00000002",
        "outcome aside index\n",
    ),
    (
        "int f(int i){int a[2];a[0]=1;return a[i];}",
        "ffffffff",
        "outcome aside index\n",
    ),
    (
        "char f(char*p){return p[1];}",
        "800",
        "outcome aside index\n",
    ),
    (
        "int f(int a,int b){return a/b;}",
        "80000000ffffffff",
        "outcome aside divide\n",
    ),
    (
        "int f(int a,int b){return a/b;}",
        "8000000000000000",
        "outcome aside divide\n",
    ),
    (
        "int f(int a,int b){return a%b;}",
        "80000000ffffffff",
        "outcome aside divide\n",
    ),
    (
        "int f(int a,int n){return a<<n;}",
        "0000000100000020",
        "outcome aside shift\n",
    ),
    (
        "int f(int a,int n){return a<<n;}",
        "00000001ffffffff",
        "outcome aside shift\n",
    ),
    (
        "void f(void){while(1);}",
        "",
        "1:14 loop 1\n1:14 loop 1\n1:14 loop 1\noutcome aside depth\n",
    ),
    (
        "void f(int n){int i;for(i=0;i<n;i++);}",
        "00000003",
        "1:21 loop 1\n1:21 loop 1\n1:21 loop 1\noutcome aside depth\n",
    ),
    (
        "void f(_Bool c){do;while(c);}",
        "8",
        "1:17 loop 1\n1:17 loop 1\noutcome aside depth\n",
    ),
    (
        "void f(int n){if(n)exit(1);}",
        "00000001",
        "1:15 if 1\n1:20 call exit\noutcome aside noreturn\n",
    ),
    (
        "typedef struct{int v;}spinlock_t;\nvoid f(spinlock_t*l){spin_lock(l);}",
        "0",
        "2:22 call spin_lock\noutcome aside null\n",
    ),
    (
        "void f(char*p){unknown(p);*p=1;}",
        "00000000000",
        "1:16 call unknown\noutcome aside null\n",
    ),
];

#[test]
fn runs_that_are_set_aside(rt: HostRuntime) {
    for &(text, choice, want) in ASIDES {
        assert!(rt;
            is_replayed(rt.alloc(), text, choice, want),
            "{text} {choice}"
        );
    }
}
