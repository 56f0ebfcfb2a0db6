//! Functions whose bodies are expressions, as statements of a graph (C11 6.5, 6.3). They are the rows of the tests of expressions.

use crate::programs::{Row, all_hold, rows};

// Integers.
const NUMBERS: &[Row] = rows![
    [[256, 256, 0]; 3] => "int f(unsigned char x){return x+1;}",
    [[512, 256, 0]; 3] => "int f(char a,_Bool b){return a/b;}",
    [[512, 256, 0]; 3] => "int f(char a,_Bool b){return a%b;}",
    [[256, 32, 0]; 3] => "int f(char a){return 1<<a;}",
    [[256, 256, 0]; 3] => "unsigned f(char a){return-1<1u;}",
    [[256, 256, 0]; 3] => "_Bool f(char a){return a;}",
    [[256, 256, 0]; 3] => "_Bool f(char a){_Bool b;b=a;return b;}",
    [[256, 256, 0]; 3] => "int f(char a){int x;x=3;x+=x+=a;return x;}",
    [[256, 256, 0]; 3] => "int f(char a){return a+++a;}",
    [[256, 256, 0]; 3] => "int f(char a){return a+++(a=3)+--a;}",
    [[4, 4, 0]; 3] => "int f(_Bool a,_Bool b){return((void)(a=b),a)+!b-~a;}",
    [[2, 2, 0]; 3] => "int f(_Bool a){return sizeof(a+1)+sizeof(int[3])+'a';}",
    [[4, 4, 0]; 3] => "int f(_Bool a,_Bool b){int x[2];x[a]=x[b]=3;x[a]+=x[1]++;return x[0]*5+x[1];}",
    [[256, 3, 0]; 3] => "int f(unsigned char i){_Bool a[3];a[i]=1;return a[2];}",
];

#[test]
fn numbers(rt: HostRuntime) {
    all_hold(&rt, rt.alloc(), "", "", NUMBERS);
}

// Pointers, and what they point to.
const POINTERS: &[Row] = rows![
    [[256, 256, 0]; 3] => "unsigned char*f(unsigned char x){return&x;}",
    [[8, 4, 0]; 3] => "_Bool f(_Bool*p){return*p;}",
    [[8, 0, 0]; 3] => "_Bool f(_Bool*p){return p[1];}",
    [[16, 4, 0]; 3] => "_Bool f(_Bool*p,_Bool a){return p[a];}",
    [[8, 4, 0]; 3] => "_Bool f(_Bool*p){int i;i=0;return p[i++]+p[i-1];}",
    [[256, 3, 0]; 3] => "int f(signed char i){_Bool a[3];a[i]=1;return a[2];}",
    [[32, 8, 0]; 3] => "_Bool f(_Bool**p){return**p;}",
    [[32, 0, 0]; 3] => "_Bool f(_Bool**p){*p=0;return**p;}",
    [[4, 0, 0]; 3] => "char f(void*p){return*(char*)p;}",
    [[2, 2, 0]; 3] => "_Bool*f(_Bool a){_Bool x[2];return&x[a];}",
    [[2, 2, 0]; 3] => "_Bool*f(_Bool a){_Bool x[2];return x;}",
    [[8, 4, 0]; 3] => "_Bool f(_Bool*p){(void)*p;return!p;}",
    [[1, 1, 0]; 3] => "int h(void);_Bool f(void){int(*p)(void);p=h;return p==h;}",
    [[1, 0, 0]; 3] => "char f(void){return*\"a\";}",
];

#[test]
fn pointers(rt: HostRuntime) {
    all_hold(&rt, rt.alloc(), "", "", POINTERS);
}

// Structs, whole and by their members.
const OBJECTS: &[Row] = rows![
    [[128, 64, 0]; 3] => "struct s{_Bool x;_Bool y[2];};int f(struct s*p){struct s g;g=*p;return g.y[1];}",
    [[256, 64, 0]; 3] => "struct s{_Bool x,y;};int f(struct s*p,struct s*q){*p=*q;return p->y;}",
    [[128, 64, 0]; 3] => "struct s{_Bool x;struct t{_Bool z;}y;};int f(struct s*p){struct t g;g=p->y;p->y=g;(*p).x=p->y.z;return p->x;}",
    [[128, 64, 0]; 3] => "struct s{_Bool x;};struct s g;_Bool f(struct s*p){*p=g=*p;return g.x;}",
    [[128, 64, 0]; 3] => "struct s{_Bool x;};struct s*f(struct s*p,_Bool*q){q=&p->x;*q=1;return p;}",
    [[16, 8, 0]; 3] => "struct s{_Bool x;};_Bool f(struct s*p){return(&*p)->x,(*&p->x)--,&p->x==&(*p).x;}",
];

#[test]
fn objects(rt: HostRuntime) {
    all_hold(&rt, rt.alloc(), "", "", OBJECTS);
}
