//! Files in which no function is skipped and no declaration leaves a note.

use crate::found::{Found, checked};
use sc_tree::ctype::Widths;

const WHOLE: &[&str] = &[
    "double(*p)(double);typedef double F(float);",
    "extern struct s x;extern void y;",
    "union s{int a;};void f(void){struct s*p;p=0;}",
    "enum e x;int f(enum e*p){return*p;}",
    "double d=1.5;int x=y;",
    "static int f(void);int f(void){return 1;}",
    "extern int a[];int b[sizeof a==12?1:-1];int a[3];",
    "extern int x;int f(void){return x;}",
    "int g(int,int,int,int,int,int,int,int,int,...);",
    "enum{A=4294967295u,B};int a[B==0?1:-1];",
    "void g(void);void f(void){return g();}",
    "double d;void g();void f(void){double a[3];g(&d,&a[1],a);sizeof d;}",
    "int f(void){int a[]={1,2,3};return sizeof a==12;}",
    "void f(void){int a[1]={1,2};}",
    "enum{Z};char*f(void){return Z;}char*g(void){return sizeof(int[0]);}",
    "enum{A=6&3*2,B=1||1/0,C=1?2:1/0};",
    "union u{int a;}x,y;void f(void){x=y;spin_lock(&x);}",
    "void f(void){g(1);g(2,3);}",
    "void*realloc();void f(void){realloc;}",
    "void f(int a){switch(a){case 1:goto l;default:;l:;}}",
    "int f(long long x){return x==4294967296;}",
    "typedef struct{int v;}spinlock_t;void f(_Bool c,spinlock_t*l){spin_lock(l);if(c)spin_lock(l);}",
    "void free(char*);void f(int*p){free(p);free(0);}",
    "void f(int(*p)[2],char*q){p==0;q==(void*)p;!q;q&&p;}",
    "void f(char*p,_Bool b){b=p;if(p)while(p)do;while(p);}",
    "void f(void){for(int i=0;i<3;++i)break;while(1)continue;}",
    "int f(int x){switch(x){case 1:switch(x){case 1:default:;}default:return 0;}}",
    "extern int a[];extern int a[3];int f();int f(int);static int g(void);static int g();",
    "void f(char c){switch(c){case 1:case 257:;}}",
    "void f(void){extern int x;extern int x;int g(void);int g();}",
];

fn is_whole(found: Option<Found>) -> bool {
    match found {
        Some(found) => found.skipped == 0 && found.note == None,
        None => false,
    }
}

#[test]
fn whole_files_are_taken(rt: HostRuntime) {
    for &text in WHOLE {
        assert!(rt;
            is_whole(checked(rt.alloc(), Widths::Ilp32, text)),
            "{text}"
        );
        assert!(rt; is_whole(checked(rt.alloc(), Widths::Lp64, text)), "{text}");
    }
}

#[test]
fn a_typedef_and_a_function(rt: HostRuntime) {
    let text =
        "typedef struct{int v;}spinlock_t;\nvoid f(_Bool c,spinlock_t*l){spin_lock(l);if(c)spin_lock(l);}";
    let found = checked(rt.alloc(), Widths::Ilp32, text);
    assert!(rt; is_whole(found));
    assert!(rt; matches!(found, Some(found) if found.functions == 1 && found.globals == 0));
}
