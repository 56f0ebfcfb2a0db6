//! Functions that are skipped: each kind by its smallest file, with the column of its place.

use crate::found::{checked, column, is_skipped};
use sc_base::{IllTyped, LimitKind, Skip, Unsupported};
use sc_tree::ctype::Widths;

/// What is not taken: the file, why its last function is skipped, and the column where that stands.
const NOT_TAKEN: &[(&str, Unsupported, u32)] = &[
    ("void g(char*q){double x;x=0;}", Unsupported::Float, 23),
    ("double f(void){}", Unsupported::Float, 8),
    ("void f(double x){y}", Unsupported::Float, 15),
    (
        "double d;int f(int x){return 1+(d);}",
        Unsupported::Float,
        33,
    ),
    ("double d;void f(int x){(d)=x;}", Unsupported::Float, 24),
    ("double d;void f(int x){x=d;}", Unsupported::Float, 26),
    ("void f(void(*g)(double)){g(1);}", Unsupported::Float, 28),
    ("void f(float x){}", Unsupported::Float, 14),
    ("void f(void){long double x;}", Unsupported::Float, 26),
    ("void f(void){18446744073709551616;}", Unsupported::Wide, 14),
    (
        "void f(void){18446744073709551616u;}",
        Unsupported::Wide,
        14,
    ),
    ("void f(void){0x10000000000000000;}", Unsupported::Wide, 14),
    ("void f(__builtin_va_list a){}", Unsupported::VaList, 26),
    (
        "__builtin_va_list v;void f(void){v;}",
        Unsupported::VaList,
        34,
    ),
    (
        "void f(void){__builtin_va_list v;}",
        Unsupported::VaList,
        32,
    ),
    ("__builtin_va_list f(void){}", Unsupported::VaList, 19),
    ("void f(void){1.5;}", Unsupported::Odd, 14),
    ("void f(void){L\"a\";}", Unsupported::Odd, 14),
    ("void f(void){u\"a\";}", Unsupported::Odd, 14),
    ("void f(void){\"a\"U\"b\";}", Unsupported::Odd, 14),
    (
        "union u{int a;}x;int f(void){return x.a;}",
        Unsupported::Union,
        39,
    ),
    (
        "union u{int a;};int f(union u*p){return p->a;}",
        Unsupported::Union,
        44,
    ),
    (
        "struct s{int a:3;}x;int f(void){return x.a;}",
        Unsupported::BitField,
        42,
    ),
    (
        "struct s{int a:3;};int f(struct s*p){return p->a;}",
        Unsupported::BitField,
        48,
    ),
    (
        "struct s{struct{int a;};}x;int f(void){return x.a;}",
        Unsupported::Anon,
        49,
    ),
    (
        "struct s{struct{int a;};};int f(struct s*p){return p->a;}",
        Unsupported::Anon,
        55,
    ),
    ("void f(char*p){p+1;}", Unsupported::Arith, 17),
    ("void f(char*p){-p;}", Unsupported::Arith, 16),
    ("void f(char*p){p++;}", Unsupported::Arith, 17),
    ("void f(char*p){1+p;}", Unsupported::Arith, 17),
    ("void f(char*p,char*q){p-q;}", Unsupported::Arith, 24),
    ("void f(char*p){+p;}", Unsupported::Arith, 16),
    ("void f(char*p){p+=1;}", Unsupported::Arith, 17),
    ("void f(char*p){p-=1;}", Unsupported::Arith, 17),
    ("void f(char*p){++p;}", Unsupported::Arith, 16),
    ("void f(char*p){--p;}", Unsupported::Arith, 16),
    ("void f(char*p){p--;}", Unsupported::Arith, 17),
    ("int f(char*p){return p<3;}", Unsupported::Order, 23),
    ("void f(char*p,char*q){p>q;}", Unsupported::Order, 24),
    ("void f(char*p,char*q){p<=q;}", Unsupported::Order, 24),
    ("void f(char*p,char*q){p>=q;}", Unsupported::Order, 24),
    ("int f(char*p){return(int)p;}", Unsupported::Cast, 21),
    (
        "struct s{int a;}x;void f(void){(char*)x;}",
        Unsupported::Cast,
        32,
    ),
    ("char*f(int x){return(char*)x;}", Unsupported::Cast, 21),
    (
        "struct s{int a;};void f(struct s x){}",
        Unsupported::Struct,
        34,
    ),
    (
        "struct s{int a;}x;void f(void){g(x);}",
        Unsupported::Struct,
        34,
    ),
    (
        "struct s{int a;};struct s f(void){}",
        Unsupported::Struct,
        27,
    ),
    (
        "struct s{int a;}x;void f(int c){c?x:x;}",
        Unsupported::Struct,
        35,
    ),
    (
        "struct s{int a;};void f(struct s(*g)(void)){g();}",
        Unsupported::Struct,
        45,
    ),
    ("void f(void){static int x;}", Unsupported::Static, 25),
    (
        "void f(void){static extern int x;}",
        Unsupported::Static,
        32,
    ),
    ("void f(int n,int a[n]){}", Unsupported::Vla, 18),
    ("void f(int n){int a[n];}", Unsupported::Vla, 19),
    ("void f(int n){sizeof(int[n]);}", Unsupported::Vla, 22),
    ("void f(void){char a[]=\"x\";}", Unsupported::Init, 19),
    ("void f(void){char a[2]=L\"x\";}", Unsupported::Init, 19),
    ("void f(void){int a[2]={[0]=1};}", Unsupported::Init, 18),
    (
        "struct s{int a;char b[4];};void f(void){struct s x={1,\"abc\"};}",
        Unsupported::Init,
        50,
    ),
    (
        "struct s{int a;};void f(void){struct s x={.a=1};}",
        Unsupported::Init,
        40,
    ),
    ("void f(void){int a[1]={{1}};}", Unsupported::Init, 18),
    ("void f(void){l:;goto l;}", Unsupported::Goto, 17),
    ("void f(void){goto l;{l:;}}", Unsupported::Goto, 14),
    ("void f(int a,...){}", Unsupported::Variadic, 6),
    ("int f;void f(int a,...){}", Unsupported::Variadic, 12),
    ("void f(void){realloc();}", Unsupported::Call, 14),
    ("void f(void){setjmp();}", Unsupported::Call, 14),
    ("void f(void){sigsetjmp();}", Unsupported::Call, 14),
];

#[test]
fn what_is_not_taken_is_skipped(rt: HostRuntime) {
    for &(text, kind, col) in NOT_TAKEN {
        let pos = column(col);
        let want = Skip::Unsupported { kind, pos };
        assert!(rt; is_skipped(rt.alloc(), Widths::Ilp32, text, want), "{text}");
    }
}

/// What C does not allow, in the same form.
const NOT_ALLOWED: &[(&str, IllTyped, u32)] = &[
    ("void f(void){x;}", IllTyped::Name, 14),
    ("void f(void){g();g;}", IllTyped::Name, 18),
    ("void*f(void){return malloc;}", IllTyped::Name, 21),
    ("void f(void){{int x;}x;}", IllTyped::Name, 22),
    ("struct s{int a;}x;void f(void){x.b;}", IllTyped::Field, 34),
    (
        "struct s;void f(void*p,struct s*q){*p;*q=*q;q->a;}",
        IllTyped::Field,
        48,
    ),
    (
        "struct s{int a;};void f(struct s*p){p->b;}",
        IllTyped::Field,
        40,
    ),
    ("void f(void){goto l;}", IllTyped::Label, 14),
    (
        "void g(void){l:;}void f(void){goto l;}",
        IllTyped::Label,
        31,
    ),
    ("int f(int p){return p.x;}", IllTyped::Operand, 23),
    (
        "struct s{int a;}x;void f(void){x+1;}",
        IllTyped::Operand,
        33,
    ),
    ("int g(char*);void f(int x){(g)(x);}", IllTyped::Operand, 28),
    (
        "int f(char*p){return __builtin_expect(p,0);}",
        IllTyped::Operand,
        22,
    ),
    ("void f(int x){kfree(0);kfree(x);}", IllTyped::Operand, 24),
    ("void f(char*p){int y=p;}", IllTyped::Operand, 20),
    ("int f(int c,char*p){return c?p:1;}", IllTyped::Operand, 29),
    (
        "int f(int c,char*p){return c?p:(unsigned char)300;}",
        IllTyped::Operand,
        29,
    ),
    ("int f(int*a){return 0[a];}", IllTyped::Operand, 22),
    ("char x;void f(char*p){1=p;}", IllTyped::Operand, 24),
    ("void f(int x){*x;}", IllTyped::Operand, 15),
    ("struct s{int a;}x;void f(void){!x;}", IllTyped::Operand, 32),
    ("void f(char*p){~p;}", IllTyped::Operand, 16),
    ("void f(char*p){p*2;}", IllTyped::Operand, 17),
    ("void f(char*p){p<<1;}", IllTyped::Operand, 17),
    (
        "struct s{int a;}x;void f(void){x&&1;}",
        IllTyped::Operand,
        33,
    ),
    ("void f(char*p,int x){p==x;}", IllTyped::Operand, 23),
    ("void f(char*p){p*=2;}", IllTyped::Operand, 17),
    ("void f(char*p,int x){p=x;}", IllTyped::Operand, 23),
    (
        "struct s{int a;}x;void f(void){x->a;}",
        IllTyped::Operand,
        35,
    ),
    (
        "struct s{int a;}x;void f(void){if(x);}",
        IllTyped::Operand,
        32,
    ),
    (
        "struct s{int a;}x;void f(void){while(x);}",
        IllTyped::Operand,
        32,
    ),
    (
        "struct s{int a;}x;void f(void){do;while(x);}",
        IllTyped::Operand,
        32,
    ),
    (
        "struct s{int a;}x;void f(void){for(;x;);}",
        IllTyped::Operand,
        32,
    ),
    ("void f(char*p){switch(p){}}", IllTyped::Operand, 16),
    (
        "struct s{int a;}x;void f(void){(struct s)x;}",
        IllTyped::Operand,
        32,
    ),
    (
        "int g(int,int);void f(char*p){g(y,p);}",
        IllTyped::Operand,
        31,
    ),
    ("void f(void){1=2;}", IllTyped::Lvalue, 15),
    ("void f(char*p){1=x;}", IllTyped::Lvalue, 17),
    ("void f(void){int a[2];a=0;}", IllTyped::Lvalue, 24),
    (
        "struct s{int x;}a,b;int f(void){(a=b).x=1;return(a=b).x;}",
        IllTyped::Lvalue,
        40,
    ),
    ("void f(void){1+=2;}", IllTyped::Lvalue, 15),
    ("void f(void){++1;}", IllTyped::Lvalue, 14),
    ("void f(void){1--;}", IllTyped::Lvalue, 15),
    ("void f(void){&1;}", IllTyped::Lvalue, 14),
    ("void f(int x){x();}", IllTyped::Call, 15),
    ("void g(int);void f(void){g();}", IllTyped::Call, 26),
    ("int g();int g(int);void f(void){g();}", IllTyped::Call, 33),
    ("int g(int);int g();void f(void){g();}", IllTyped::Call, 33),
    (
        "void kfree(void);void f(char*p){kfree(p);}",
        IllTyped::Call,
        33,
    ),
    (
        "int g(int a){x;return 0;}int f(void){return g(1,2);}",
        IllTyped::Call,
        45,
    ),
    ("void g(void);void f(void){g(1);}", IllTyped::Call, 27),
    ("void f(void){spin_lock();}", IllTyped::Call, 14),
    ("void f(void){return 1;}", IllTyped::Return, 14),
    ("char*f(int x){return x;}", IllTyped::Return, 15),
    ("void*f(int x){return x+1;}", IllTyped::Return, 15),
    (
        "void f(int x){switch(x){case 1:;case 1:;}}",
        IllTyped::Constant,
        33,
    ),
    (
        "void f(int a){switch(a){case 1:break;case 2:continue;}}",
        IllTyped::Constant,
        45,
    ),
    ("void f(int x){switch(x){case x:;}}", IllTyped::Constant, 25),
    (
        "void f(int x){switch(x){default:;default:;}}",
        IllTyped::Constant,
        34,
    ),
    ("void f(void){break;}", IllTyped::Constant, 14),
    ("void f(void){continue;}", IllTyped::Constant, 14),
    ("void f(void){int a[-1];}", IllTyped::Constant, 20),
    ("void f(void){int a[4294967296];}", IllTyped::Constant, 20),
    (
        "void f(int x){(struct{int a:x;}*)0;}",
        IllTyped::Constant,
        29,
    ),
    (
        "void f(int x){(struct{int a:-1;}*)0;}",
        IllTyped::Constant,
        29,
    ),
    (
        "void f(int x){sizeof(struct{int a:x;});}",
        IllTyped::Constant,
        35,
    ),
    ("void f(int x){sizeof(enum{A=x});}", IllTyped::Constant, 27),
    (
        "void f(unsigned x){switch(x){case -1:;case 4294967295:;}}",
        IllTyped::Constant,
        39,
    ),
    (
        "struct s;void f(void){struct s x;}",
        IllTyped::Incomplete,
        32,
    ),
    (
        "struct s{char a[2147483647];_Bool b;};void f(void){sizeof(struct s);}",
        IllTyped::Incomplete,
        52,
    ),
    (
        "struct s;void f(void){sizeof(struct s);}",
        IllTyped::Incomplete,
        23,
    ),
    ("void f(void){void x;}", IllTyped::Incomplete, 19),
    (
        "void free(_Bool);void f(char*p){free(p);}",
        IllTyped::Operand,
        38,
    ),
    (
        "void free(int);void f(void){free(0);}",
        IllTyped::Operand,
        29,
    ),
    (
        "int spin_trylock(_Bool,int);void f(char**p){spin_trylock(*p,1);}",
        IllTyped::Operand,
        58,
    ),
    ("void f(int a){int a;}", IllTyped::Again, 19),
    ("void f(void){int x;extern int x;}", IllTyped::Again, 31),
    ("void f(void){l:;l:;}", IllTyped::Again, 17),
    ("void f(int a,int a){}", IllTyped::Again, 18),
    (
        "int f;void f(int a,int b,int c,int d,int e,int g,int h,int i,int j){}",
        IllTyped::Again,
        12,
    ),
];

#[test]
fn what_c_does_not_allow_is_skipped(rt: HostRuntime) {
    for &(text, kind, col) in NOT_ALLOWED {
        let pos = column(col);
        let want = Skip::IllTyped { kind, pos };
        assert!(rt; is_skipped(rt.alloc(), Widths::Lp64, text, want), "{text}");
    }
}

#[test]
fn a_body_without_a_tree_is_skipped(rt: HostRuntime) {
    let found = checked(rt.alloc(), Widths::Ilp32, "void f(void){int x;x=1}");
    let pos = column(13);
    assert!(rt; matches!(found, Some(found) if found.skip == Some(Skip::Grammar { pos })));
}

#[test]
fn a_function_has_eight_parameters(rt: HostRuntime) {
    let eight = "void f(int a,int b,int c,int d,int e,int g,int h,int i){}";
    let found = checked(rt.alloc(), Widths::Ilp32, eight);
    assert!(rt; matches!(found, Some(found) if found.skip == None));
    let nine = "void f(int a,int b,int c,int d,int e,int g,int h,int i,int j){}";
    let found = checked(rt.alloc(), Widths::Ilp32, nine);
    let kind = LimitKind::Params;
    let want = Some(Skip::Limit { kind, count: 9 });
    assert!(rt; matches!(found, Some(found) if found.skip == want));
}
