//! Operations of machines of two to eight states. One of three states is among the calls.

use crate::programs::{HANDLE, Machined, all_hold_over, rows};

const SMALL: &[Machined] = &[
    Machined {
        spelled: "\
machine gate
states shut open
op gate_open void shut>open open>!
op gate_shut zero shut>! open>shut
op gate_toggle void shut>open open>shut
",
        rows: rows![
            [[8, 1, 3]; 3] => "void f(struct h*p,_Bool c){gate_open(p);if(c)gate_toggle(p);gate_shut(p);}",
            [[4, 1, 1]; 3] => "_Bool f(struct h*p){struct h s;gate_toggle(&s);return gate_shut(&s)==gate_shut(p);}",
            [[132, 7, 5]; 3] => "void g(struct h*p){gate_toggle(p);}void f(struct h*p,_Bool c){g(p);if(c)g(p);gate_open(p);}",
        ],
    },
    Machined {
        spelled: "\
machine file
states closed read write done
op file_open void closed>read read>! write>! done>read
op file_write zero closed>! read>write write>write done>!
op file_close void closed>! read>done write>done done>!
op file_lose void closed>! read>! write>! done>!
",
        rows: rows![
            [[16, 4, 4]; 3] => "void f(struct h*p,_Bool c){file_open(p);if(c)file_write(p);file_close(p);}",
            [[64, 36, 8], [256, 148, 40], [1024, 596, 168]] => "_Bool ask(void);void f(struct h*p){while(ask()){file_open(p);if(ask())continue;file_close(p);}}",
            [[72, 4, 10]; 3] => "void g(struct h*p){file_open(p);file_write(p);}void f(struct h*p){g(p);file_close(p);}",
            [[2, 2, 0]; 3] => "void f(_Bool c){struct h s,t;struct h*p=c?&s:&t;file_write(p);file_close(&s);}",
            [[2, 1, 1]; 3] => "void f(_Bool c){struct h s;if(c)file_lose(&s);file_close(&s);}",
        ],
    },
];

const MIDDLE: &[Machined] = &[
    Machined {
        spelled: "\
machine depth
states n0 n1 n2 n3 n4
op up void n0>n1 n1>n2 n2>n3 n3>n4 n4>!
op down void n0>! n1>n0 n2>n1 n3>n2 n4>n3
op top zero n0>! n1>! n2>! n3>! n4>n0
",
        rows: rows![
            [[32, 6, 10]; 3] => "void f(struct h*p,_Bool c){up(p);up(p);if(c)down(p);}",
            [[272, 11, 36]; 3] => "void g(struct h*p){up(p);}void f(struct h*p){g(p);down(p);}",
            [[16, 0, 16]; 3] => "_Bool f(struct h*p){struct h s;down(&s);down(&s);return top(p);}",
            [[512, 92, 132]; 3] => "void f(struct h*p,struct h*q,_Bool c){up(c?p:q);down(p);}",
        ],
    },
    Machined {
        spelled: "\
machine door
states a b c d e f
op left void a>f b>a c>b d>c e>d f>e
op right zero a>b b>c c>d d>e e>f f>a
op only_d void a>! b>! c>! d>d e>! f>!
",
        rows: rows![
            [[64, 9, 14], [256, 48, 68], [1024, 205, 294]] => "_Bool ask(void);void f(struct h*p){do{left(p);if(ask())only_d(p);}while(ask());}",
            [[272, 2, 63]; 3] => "void g(struct h*p){only_d(p);right(p);}void f(struct h*p){left(p);g(p);}",
            [[2, 1, 1]; 3] => "_Bool f(_Bool c){struct h s;only_d(&s);right(&s);if(c)only_d(&s);return 1;}",
        ],
    },
];

const LARGE: &[Machined] = &[
    Machined {
        spelled: "\
machine week
states mo tu we th fr sa su
op next void mo>tu tu>we we>th th>fr fr>sa sa>su su>mo
op rest zero mo>! tu>! we>! th>! fr>! sa>sa su>su
op work void mo>mo tu>tu we>we th>th fr>fr sa>! su>!
",
        rows: rows![
            [[32, 8, 8]; 3] => "void f(struct h*p,_Bool c){next(p);if(c)rest(p);else work(p);}",
            [[288, 22, 53]; 3] => "void g(struct h*p,_Bool c){if(c)rest(p);}void f(struct h*p){next(p);g(p,1);}",
            [[16, 8, 8]; 3] => "struct h k;void f(_Bool c){struct h s;rest(&s);next(&s);next(c?&s:&k);work(&s);}",
        ],
    },
    Machined {
        spelled: "\
machine bits
states s0 s1 s2 s3 s4 s5 s6 s7
op shift void s0>s0 s1>s2 s2>s4 s3>s6 s4>! s5>! s6>! s7>!
op set zero s0>s1 s1>! s2>s3 s3>! s4>s5 s5>! s6>s7 s7>!
op full void s0>! s1>! s2>! s3>! s4>! s5>! s6>! s7>s0
",
        rows: rows![
            [[32, 4, 12]; 3] => "void f(struct h*p,_Bool c){set(p);shift(p);if(c)set(p);}",
            [[64, 3, 27], [128, 7, 56], [256, 14, 114]] => "_Bool ask(void);void f(struct h*p){set(p);while(ask()){shift(p);set(p);}full(p);}",
            [[528, 10, 70]; 3] => "void g(struct h*p){set(p);}void f(struct h*p,_Bool c){g(p);if(c)shift(p);}",
            [[2, 0, 2]; 3] => "void f(_Bool c){struct h s;full(&s);set(&s);if(c)shift(&s);full(&s);}",
        ],
    },
];

#[test]
fn machines_of_two_and_four_states(rt: HostRuntime) {
    all_hold_over(&rt, rt.alloc(), HANDLE, SMALL);
}

#[test]
fn machines_of_five_and_six_states(rt: HostRuntime) {
    all_hold_over(&rt, rt.alloc(), HANDLE, MIDDLE);
}

#[test]
fn machines_of_seven_and_eight_states(rt: HostRuntime) {
    all_hold_over(&rt, rt.alloc(), HANDLE, LARGE);
}
