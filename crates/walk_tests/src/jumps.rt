//! Jumps (C11 6.8.6).

use crate::beside::{Tally, all_beside};

const BREAKS: &[(&str, [Tally; 3])] = &[
    (
        "_Bool ask(void);char f(void){char r=0;while(ask()){if(ask())break;if(ask())continue;r++;}return r;}",
        [(16, 14), (128, 124), (1024, 1016)],
    ),
    (
        "_Bool ask(void);void f(_Bool a){do{if(a)continue;if(ask())break;}while(ask());}",
        [(8, 5), (32, 27), (128, 119)],
    ),
    (
        "_Bool ask(void);char f(void){char r=0;for(;ask();r++){if(ask())continue;break;}return r;}",
        [(8, 7), (32, 31), (128, 127)],
    ),
    (
        "_Bool f(_Bool a){for(;;){for(;;){if(a)break;a=1;continue;}break;}return a;}",
        [(2, 1), (2, 2), (2, 2)],
    ),
];

#[test]
fn breaks_and_continues(rt: HostRuntime) {
    all_beside(&rt, rt.alloc(), BREAKS);
}

const GOTOS: &[(&str, [Tally; 3])] = &[
    (
        "_Bool f(_Bool a){if(a)goto out;a=1;out:return a;}",
        [(2, 2); 3],
    ),
    (
        "_Bool ask(void);char f(_Bool a){char r=0;while(ask()){{if(a)goto next;}r=2;next:r++;if(ask())goto out;}r+=8;out:return r;}",
        [(16, 14), (64, 62), (256, 254)],
    ),
    (
        "char f(_Bool a,_Bool b){char r=1;if(a)goto one;if(b)goto two;r=2;one:r+=4;two:three:r*=2;goto four;r=0;four:return r;}",
        [(4, 4); 3],
    ),
    (
        "char f(_Bool a){for(;;){switch(a){case 0:goto out;default:goto in;}in:break;}return 1;out:return 2;}",
        [(2, 2); 3],
    ),
];

#[test]
fn gotos(rt: HostRuntime) {
    all_beside(&rt, rt.alloc(), GOTOS);
}

const BACKWARD: &[(&str, [Tally; 3])] = &[("void f(_Bool a){l:if(a)goto l;}", [(1, 1); 3])];

#[test]
fn a_function_that_is_not_taken(rt: HostRuntime) {
    all_beside(&rt, rt.alloc(), BACKWARD);
}

const RETURNS: &[(&str, [Tally; 3])] = &[
    ("void f(_Bool a){if(a)return;a=1;}", [(2, 2); 3]),
    ("_Bool f(_Bool a){if(a)return a;}", [(2, 2); 3]),
    ("char*f(_Bool a,char*p){if(a)return p;}", [(2048, 2048); 3]),
    ("int f(_Bool a){return a?1:2;}", [(2, 2); 3]),
    ("void f(void){}", [(1, 1); 3]),
    ("_Bool ask(void);_Bool f(void){return ask();}", [(2, 2); 3]),
];

#[test]
fn returns(rt: HostRuntime) {
    all_beside(&rt, rt.alloc(), RETURNS);
}
