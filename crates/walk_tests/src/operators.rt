//! Expressions (C11 6.5) that a graph takes apart: `&&`, `||`, `? :`, and operators over calls.

use crate::beside::{Tally, all_beside};

const LOGICAL: &[(&str, [Tally; 3])] = &[
    (
        "_Bool f(_Bool a,_Bool b,_Bool c){return a&&b||c;}",
        [(8, 8); 3],
    ),
    (
        "_Bool f(_Bool a,_Bool b,_Bool c){if(!(a||b)&&c)return 1;return 0;}",
        [(8, 8); 3],
    ),
    (
        "_Bool ask(void);_Bool f(_Bool a){_Bool r;r=a&&ask()||!ask();return r;}",
        [(8, 8); 3],
    ),
    (
        "_Bool ask(void);char f(void){char r=0;while(ask()&&(r<2||ask()))r++;return r;}",
        [(16, 12), (64, 60), (256, 252)],
    ),
    (
        "_Bool f(_Bool*p,_Bool*q){return p&&*p&&q&&*q;}",
        [(64, 64); 3],
    ),
    (
        "int f(_Bool a,_Bool b){return(a&&b)+(a||b)*2;}",
        [(4, 4); 3],
    ),
    (
        "char f(char a,_Bool b){return a/(b&&a)+a%(b||0);}",
        [(512, 255); 3],
    ),
    ("int f(_Bool a,_Bool b){return 1<<(a&&b)*40;}", [(4, 3); 3]),
];

#[test]
fn logical_operators(rt: HostRuntime) {
    all_beside(&rt, rt.alloc(), LOGICAL);
}

const CONDITIONAL: &[(&str, [Tally; 3])] = &[
    (
        "char f(_Bool a,_Bool b){return a?b?1:2:b?3:4;}",
        [(4, 4); 3],
    ),
    (
        "_Bool f(_Bool a,_Bool*p,_Bool*q){*(a?p:q)=1;return*(a?q:p);}",
        [(128, 32); 3],
    ),
    (
        "_Bool ask(void);char f(_Bool a){return(a?ask():2)+(ask()?a:3);}",
        [(8, 8); 3],
    ),
    ("void f(_Bool a,_Bool*p){a?*p=0:(a=1);}", [(16, 12); 3]),
    ("_Bool f(_Bool a,_Bool*p){return(a?p:0)==0;}", [(16, 16); 3]),
];

#[test]
fn conditional_operators(rt: HostRuntime) {
    all_beside(&rt, rt.alloc(), CONDITIONAL);
}

const OPERANDS: &[(&str, [Tally; 3])] = &[
    (
        "_Bool ask(void);int f(_Bool a){int r;r=-ask()+~ask();r+=!ask();r*=ask()-a;return r;}",
        [(32, 32); 3],
    ),
    (
        "_Bool ask(void);_Bool f(_Bool i){_Bool a[2]={1,0};a[ask()]=i;a[ask()]+=ask();a[i]-=ask();return a[ask()];}",
        [(64, 64); 3],
    ),
    (
        "_Bool ask(void);_Bool f(_Bool i){_Bool a[2];a[0]=0;a[1]=1;a[ask()]++;--a[ask()];return a[i];}",
        [(8, 8); 3],
    ),
    (
        "_Bool ask(void);int f(void){return sizeof(ask())+sizeof(char);}",
        [(2, 2); 3],
    ),
    (
        "_Bool ask(void);char f(void){return(char)(int)ask()+(ask(),3);}",
        [(4, 4); 3],
    ),
    (
        "_Bool ask(void);_Bool f(_Bool a,_Bool b){a=b=ask();(ask(),a)?a:b;return a|=ask();}",
        [(32, 32); 3],
    ),
];

#[test]
fn operators_over_calls(rt: HostRuntime) {
    all_beside(&rt, rt.alloc(), OPERANDS);
}

const GIVEN: &[(&str, [Tally; 3])] = &[
    (
        "struct s{_Bool x;_Bool y[2];};struct s*get(void);_Bool ask(void);_Bool f(void){get()->x=ask();return get()->y[ask()];}",
        [(1024, 256); 3],
    ),
    (
        "struct s{_Bool x;};struct s*get(void);_Bool f(void){struct s a;a=*get();*get()=a;return(*get()).x;}",
        [(64, 8); 3],
    ),
    (
        "_Bool*at(void);_Bool f(_Bool a){*at()=a;(*at())++;++*at();return*at();}",
        [(512, 32); 3],
    ),
    (
        "struct s{_Bool x[2];};struct s*get(void);_Bool f(void){_Bool*p=get()->x;_Bool*q=&get()->x[1];return p==q;}",
        [(64, 16); 3],
    ),
    (
        "struct s{_Bool x;};struct s*get(void);struct s*f(void){struct s*p;p=get();p->x+=1;p->x=(*p).x&&get()->x;return p?p:get();}",
        [(64, 16); 3],
    ),
];

#[test]
fn objects_that_calls_give(rt: HostRuntime) {
    all_beside(&rt, rt.alloc(), GIVEN);
}
