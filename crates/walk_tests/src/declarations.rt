//! Declarations (C11 6.7), with initialisers (C11 6.7.9).

use crate::beside::{Tally, all_beside};

const VALUES: &[(&str, [Tally; 3])] = &[
    (
        "_Bool f(_Bool a){_Bool b=a,c=!b;{_Bool b=c;c=b;}return b+c;}",
        [(2, 2); 3],
    ),
    (
        "_Bool ask(void);char f(_Bool a){char b=ask()?a:2,c=a&&ask();return b+c;}",
        [(8, 8); 3],
    ),
    (
        "struct s{_Bool a;_Bool b;};_Bool f(struct s*p){struct s x=*p;return x.a+x.b;}",
        [(64, 32); 3],
    ),
    (
        "struct s{_Bool a;_Bool b;};struct s*get(void);_Bool f(_Bool c){struct s y=*get();y.a=c;return y.b;}",
        [(16, 8); 3],
    ),
];

#[test]
fn locals_with_one_value(rt: HostRuntime) {
    all_beside(&rt, rt.alloc(), VALUES);
}

const BRACES: &[(&str, [Tally; 3])] = &[
    (
        "char f(char a){char x[3]={1,a};return x[0]+x[1]+x[2];}",
        [(256, 256); 3],
    ),
    (
        "struct t{_Bool b;char c[2];};struct s{char a;struct t d;};char f(_Bool a){struct s x={1,a,2};return x.a+x.d.b+x.d.c[0]+x.d.c[1];}",
        [(2, 2); 3],
    ),
    (
        "struct s{_Bool a;_Bool b;};_Bool f(struct s*p){struct s x=*p;struct s y[2]={x,1};return y[0].a+y[1].b;}",
        [(64, 32); 3],
    ),
    (
        "struct s{_Bool a;_Bool b;};struct u{struct s x;_Bool c;};_Bool f(struct s*p){struct u y={*p,1};struct u z={};return y.x.a+y.c+z.c;}",
        [(16, 8); 3],
    ),
    (
        "char f(_Bool i){char a[3]={'a','b'};char*s=\"xy\";char*t[2]={s};return a[i]+(t[i]!=0);}",
        [(2, 2); 3],
    ),
];

#[test]
fn values_in_braces(rt: HostRuntime) {
    all_beside(&rt, rt.alloc(), BRACES);
}

const CALLS: &[(&str, [Tally; 3])] = &[
    (
        "_Bool ask(void);char f(void){char x[2]={ask(),ask()&&ask()};char y=ask()?x[0]:x[1];return y;}",
        [(16, 16); 3],
    ),
    (
        "struct s{_Bool a;_Bool b;};struct s*get(void);_Bool ask(void);_Bool f(void){struct s x={ask(),1};struct s z[2]={*get(),ask()};return x.a+z[1].a;}",
        [(16, 8); 3],
    ),
    (
        "_Bool ask(void);char f(void){char r=0;while(ask()){char k=ask();char a[2]={k};r+=a[0]+a[1];}return r;}",
        [(8, 6), (32, 28), (128, 120)],
    ),
];

#[test]
fn calls_in_braces(rt: HostRuntime) {
    all_beside(&rt, rt.alloc(), CALLS);
}
