//! Statements (C11 6.8.2 to 6.8.5): expressions, blocks, `if`, loops, `switch`.

use crate::beside::{Tally, all_beside};

const EXPRESSIONS: &[(&str, [Tally; 3])] = &[
    (
        "void f(_Bool a,_Bool*p){;a;*p;-a;!a;~a+a;(a,*p);a<<a;a<*p;a==*p;p==0;&a==p;}",
        [(16, 8); 3],
    ),
    (
        "void f(char a){a*3;a/2;a%5;a-a;a&6;a|a;a^1;a>>1;}",
        [(256, 256); 3],
    ),
    ("int f(_Bool a){a++;++a;a--;--a;return a;}", [(2, 2); 3]),
    (
        "struct s{_Bool x;_Bool y[2];};_Bool f(struct s*p,_Bool k){p->x;p->y[k];p[0].x;(*p).y[1];return p->y[k];}",
        [(1024, 512); 3],
    ),
];

#[test]
fn expressions_alone(rt: HostRuntime) {
    all_beside(&rt, rt.alloc(), EXPRESSIONS);
}

const ASSIGNMENTS: &[(&str, [Tally; 3])] = &[
    (
        "_Bool f(_Bool a,_Bool*p){_Bool b;b=a;*p=b;a=*p=!a;return a;}",
        [(16, 8); 3],
    ),
    (
        "int f(char a){int b;b=a;b+=a;b-=1;b*=a;b/=3;b%=7;b<<=2;b>>=1;b&=a;b^=5;b|=a;return b;}",
        [(256, 256); 3],
    ),
    (
        "int f(char a){int b;b=7;b/=a;b<<=a;return b;}",
        [(256, 31); 3],
    ),
    (
        "struct s{_Bool x;_Bool*p;};void f(struct s*a,_Bool c){struct s b;b=*a;b.x=c;*a=b;}",
        [(32, 16); 3],
    ),
    (
        "_Bool f(char i,_Bool c){_Bool a[2];a[0]=c;a[i]=!c;a[i]+=1;return a[0];}",
        [(512, 4); 3],
    ),
];

#[test]
fn assignments(rt: HostRuntime) {
    all_beside(&rt, rt.alloc(), ASSIGNMENTS);
}

const BLOCKS: &[(&str, [Tally; 3])] = &[(
    "_Bool f(_Bool a){{_Bool a=0;{_Bool a=1;a=!a;}}{}return a;}",
    [(2, 2); 3],
)];

#[test]
fn blocks(rt: HostRuntime) {
    all_beside(&rt, rt.alloc(), BLOCKS);
}

const IFS: &[(&str, [Tally; 3])] = &[
    ("_Bool f(_Bool a){if(a)return 1;return 0;}", [(2, 2); 3]),
    (
        "_Bool f(_Bool a,_Bool b){if(a){if(b)a=0;else b=1;}else if(b)a=1;return a;}",
        [(4, 4); 3],
    ),
    (
        "_Bool f(_Bool a,_Bool*p){if(p)if(*p)a=!a;else;return a;}",
        [(16, 16); 3],
    ),
];

#[test]
fn ifs(rt: HostRuntime) {
    all_beside(&rt, rt.alloc(), IFS);
}

const WHILES: &[(&str, [Tally; 3])] = &[
    (
        "void f(char n){char i;i=0;while(i<n)i++;}",
        [(256, 130), (256, 131), (256, 132)],
    ),
    (
        "void f(_Bool a,_Bool b){while(a){while(b)b=0;a=0;}}",
        [(4, 4); 3],
    ),
    ("void f(_Bool a){while(a);}", [(2, 1); 3]),
    (
        "_Bool ask(void);void f(void){while(ask())while(ask());}",
        [(16, 11), (512, 417), (65536, 58703)],
    ),
];

#[test]
fn whiles(rt: HostRuntime) {
    all_beside(&rt, rt.alloc(), WHILES);
}

const DOS: &[(&str, [Tally; 3])] = &[
    ("void f(_Bool a){do;while(a);}", [(2, 1); 3]),
    (
        "_Bool ask(void);_Bool f(void){_Bool a;do a=ask();while(a);return a;}",
        [(2, 1), (4, 3), (8, 7)],
    ),
    (
        "_Bool ask(void);void f(void){do do;while(ask());while(ask());}",
        [(4, 1), (64, 33), (4096, 2919)],
    ),
];

#[test]
fn dos(rt: HostRuntime) {
    all_beside(&rt, rt.alloc(), DOS);
}

const FORS: &[(&str, [Tally; 3])] = &[
    (
        "void f(char n){char i;for(i=0;i<n;i++);}",
        [(256, 130), (256, 131), (256, 132)],
    ),
    ("void f(_Bool a){for(;;)if(a)return;}", [(2, 1); 3]),
    (
        "_Bool ask(void);void f(void){for(ask();ask();ask());}",
        [(16, 12), (64, 56), (256, 240)],
    ),
    (
        "char f(_Bool a){char s=0;for(char i=0;i<2;i++)for(char j=i;j<2;j++){if(a)continue;s+=j;}return s;}",
        [(2, 0), (2, 2), (2, 2)],
    ),
];

#[test]
fn fors(rt: HostRuntime) {
    all_beside(&rt, rt.alloc(), FORS);
}

const SWITCHES: &[(&str, [Tally; 3])] = &[
    (
        "char f(char n){char r=0;switch(n){case 1:r=1;case 2:r=2;break;default:r=3;case 4:r+=4;}return r;}",
        [(256, 256); 3],
    ),
    (
        "char f(char n){switch(n){case -1:return 1;case 'a':return 2;}return 0;}",
        [(256, 256); 3],
    ),
    (
        "char f(_Bool a,_Bool b){switch(a+b){default:return 9;case 0:{a=1;break;}case 2:switch(b){case 1:a=0;break;default:return 8;}b=0;}return a*2+b;}",
        [(4, 4); 3],
    ),
    (
        "_Bool f(_Bool a){switch(a){}switch(a){default:;}switch(a){a=0;case 1:break;}return a;}",
        [(2, 2); 3],
    ),
    (
        "char f(_Bool a){char r=0;for(char i=0;i<3;i++)switch(i){case 0:continue;case 1:if(a)break;r=5;default:r++;}return r;}",
        [(2, 0), (2, 0), (2, 2)],
    ),
    (
        "_Bool ask(void);char f(void){char r=0;switch(ask()+ask()){case 1:r=1;default:r+=2;}return r;}",
        [(4, 4); 3],
    ),
];

#[test]
fn switches(rt: HostRuntime) {
    all_beside(&rt, rt.alloc(), SWITCHES);
}
