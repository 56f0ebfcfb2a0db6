//! Sizes, alignments, kinds and constants (C11 6.3.1, 6.4.4.1, 6.5, 6.6), each as the length of an array, for
//! both widths.

use crate::found::checked;
use sc_tree::ctype::Widths;
use std::alloc::Global;

fn length(alloc: Global, widths: Widths, text: &str) -> Option<u32> {
    checked(alloc, widths, text)?.length
}

// Whether the last variable of a file has that length in ILP32, and that in LP64.
fn has_lengths(alloc: Global, text: &str, small: u32, large: u32) -> bool {
    length(alloc, Widths::Ilp32, text) == Some(small)
        && length(alloc, Widths::Lp64, text) == Some(large)
}

/// Types: the file, and the length of its last variable in ILP32 and in LP64.
const SIZES: &[(&str, u32, u32)] = &[
    ("int a[sizeof(_Bool)];", 1, 1),
    ("int a[sizeof(short)];", 2, 2),
    ("int a[sizeof(int)];", 4, 4),
    ("int a[sizeof(long)];", 4, 8),
    ("int a[sizeof(long long)];", 8, 8),
    ("int a[sizeof(char*)];", 4, 8),
    ("int a[sizeof(void(*)(void))];", 4, 8),
    ("int a[sizeof(void)];", 1, 1),
    ("int a[sizeof(float)];", 4, 4),
    ("int a[sizeof(double)];", 8, 8),
    ("int a[sizeof(long double)];", 12, 16),
    ("int a[sizeof(__builtin_va_list)];", 4, 24),
    ("enum e{A};int a[sizeof(enum e)];", 4, 4),
    ("int a[sizeof(short[3])];", 6, 6),
    ("struct s{char c;int i;};int a[sizeof(struct s)];", 8, 8),
    ("struct s{char c;long l;};int a[sizeof(struct s)];", 8, 16),
    (
        "struct s{char c;double d;};int a[sizeof(struct s)];",
        12,
        16,
    ),
    ("struct s{int i;char c;};int a[sizeof(struct s)];", 8, 8),
    (
        "struct s{char c;char*p;short h;};int a[sizeof(struct s)];",
        12,
        24,
    ),
    ("union u{char c[5];int i;};int a[sizeof(union u)];", 8, 8),
    ("struct s{char c;int i:3;};int a[sizeof(struct s)];", 8, 8),
    ("int a[sizeof \"abc\"];", 4, 4),
    ("int a[sizeof 'a'];", 4, 4),
    ("int a[sizeof sizeof 1];", 4, 8),
    ("int b[3];int a[sizeof b];", 12, 12),
    ("int a[sizeof(float)*2];", 8, 8),
    ("struct s{char c;float f;};int a[sizeof(struct s)];", 8, 8),
    (
        "struct s{char c;long long l;};int a[sizeof(struct s)];",
        12,
        16,
    ),
    (
        "struct s{char c;long double d;};int a[sizeof(struct s)];",
        16,
        32,
    ),
    (
        "struct s{char c;__builtin_va_list v;};int a[sizeof(struct s)];",
        8,
        32,
    ),
    (
        "struct s{char c;short h[3];};int a[sizeof(struct s)];",
        8,
        8,
    ),
    ("struct s{char c;int:0;};int a[sizeof(struct s)];", 1, 1),
    ("struct s{};int a[sizeof(struct s)+1];", 1, 1),
    ("extern int b[];int a[sizeof b+1];", 1, 1),
    ("int b[3];int a[sizeof*&b];", 12, 12),
    ("int b[3];int a[sizeof(0,b)];", 4, 8),
    ("int a[sizeof\"a\"\"\\0\"];", 3, 3),
    (
        "struct s{char c;int:0;long long l;char d:3;};int a[sizeof(struct s)];",
        16,
        24,
    ),
    (
        "union u{char c;int:0;long long l;char d:3;};int a[sizeof(union u)];",
        8,
        8,
    ),
    // An alignment shows behind a character.
    (
        "struct s{char c;int:0;long long l;char d:3;};struct t{char c;struct s s;};int a[sizeof(struct t)];",
        20,
        32,
    ),
    (
        "union u{char c;int:0;long long l;char d:3;};struct t{char c;union u u;};int a[sizeof(struct t)];",
        12,
        16,
    ),
    (
        "struct s{};struct t{char c;struct s s;};int a[sizeof(struct t)];",
        1,
        1,
    ),
    ("struct s{char c;_Bool b;};int a[sizeof(struct s)];", 2, 2),
    ("struct s{char c;short h;};int a[sizeof(struct s)];", 4, 4),
    (
        "struct s{char c;int i[3];};int a[sizeof(struct s)];",
        16,
        16,
    ),
    ("extern double b[];int a[sizeof b+1];", 1, 1),
    (
        "struct s{char c;double d[];};int a[sizeof(struct s)];",
        4,
        8,
    ),
    ("char b[2147483647];int a[sizeof b==2147483647?1:2];", 1, 1),
];

#[test]
fn types_have_sizes(rt: HostRuntime) {
    for &(text, small, large) in SIZES {
        assert!(rt; has_lengths(rt.alloc(), text, small, large), "{text}");
    }
}

/// Constants, in the same form.
const CONSTANTS: &[(&str, u32, u32)] = &[
    ("int a[sizeof 2147483647];", 4, 4),
    ("int a[sizeof 2147483648];", 8, 8),
    ("int a[sizeof 0x80000000];", 4, 4),
    ("int a[sizeof 0x100000000];", 8, 8),
    ("int a[sizeof 4294967295u];", 4, 4),
    ("int a[sizeof 1l];", 4, 8),
    ("int a[sizeof 1ll];", 8, 8),
    ("int a[sizeof(char)*3-1];", 2, 2),
    ("int a[-1<1u?1:2];", 2, 2),
    ("int a[(long)-1<1u?1:2];", 2, 1),
    ("int a[(long)-1<1ul?1:2];", 2, 2),
    ("int a[(long long)-1<1ul?1:2];", 1, 2),
    ("int a[(unsigned short)-1<0?1:2];", 2, 2),
    ("int a[sizeof((short)1+(short)1)];", 4, 4),
    ("int a[sizeof(1?1:1l)];", 4, 8),
    ("int a[sizeof(1<<1l)];", 4, 4),
    ("int a[sizeof(1<2l)];", 4, 4),
    ("int a[sizeof(1&&1l)];", 4, 4),
    ("int a[sizeof(!1l)];", 4, 4),
    ("int a[sizeof(-(char)1)];", 4, 4),
    ("int a[sizeof(~1l)];", 4, 8),
    ("int a[sizeof(1l>>1)];", 4, 8),
    ("int a[sizeof(1*1l)];", 4, 8),
    ("int a[sizeof(1ull|1l)];", 8, 8),
    ("int a[(char)255<0?1:2];", 1, 1),
    ("int a[(_Bool)256+1];", 2, 2),
    ("int a[(unsigned char)257];", 1, 1),
    ("int a[-7/2+7];", 4, 4),
    ("int a[-7%2+7];", 6, 6),
    ("int a[(-8>>1)+8];", 4, 4),
    ("int a[~0u>>31];", 1, 1),
    ("int a[1?2:1/0];", 2, 2),
    ("int a['\\377'<0?1:2];", 1, 1),
    ("int a['\\377'==-1?1:2];", 1, 1),
    ("enum{A=3,B};int a[B];", 4, 4),
    ("int a[]={1,2,3};", 3, 3),
    ("int a[]={1,[6]=2,3};", 8, 8),
    ("char a[]=\"abc\";", 4, 4),
    ("int a[][2]={1,2,3};", 2, 2),
    ("int a[sizeof 037777777777];", 4, 4),
    ("int a[sizeof 4294967296u];", 8, 8),
    ("int a[sizeof 2147483648l];", 8, 8),
    ("int a[sizeof 0x80000000l];", 4, 8),
    ("int a[sizeof 0x8000000000000000];", 8, 8),
    ("int a[sizeof(1+1l)];", 4, 8),
    ("int a[sizeof(1-1l)];", 4, 8),
    ("int a[sizeof(7/1l)];", 4, 8),
    ("int a[sizeof(7%1l)];", 4, 8),
    ("int a[sizeof(1&1l)];", 4, 8),
    ("int a[sizeof(1^1l)];", 4, 8),
    ("int a[sizeof(1u+1l)];", 4, 8),
    ("int a[sizeof(1==1l)];", 4, 4),
    ("int a[sizeof(1!=1l)];", 4, 4),
    ("int a[sizeof(1>2l)];", 4, 4),
    ("int a[sizeof(1<=2l)];", 4, 4),
    ("int a[sizeof(1>=2l)];", 4, 4),
    ("int a[sizeof(1||1l)];", 4, 4),
    ("int a[sizeof(+(char)1)];", 4, 4),
    ("int a[sizeof((short)1>>1l)];", 4, 4),
    ("int a[(unsigned char)1-2<0?1:2];", 1, 1),
    ("int a[(long)4294967296==0?1:2];", 1, 2),
    ("int a[(1u<<31)/0x40000000];", 2, 2),
    ("int a[7u%4];", 3, 3),
    ("int a[(1^3)+(1|2)+(6&3)];", 7, 7),
    ("int a[2147483647+1<0?1:2];", 1, 1),
    ("int a[2147483647+1==-2147483647-1?1:2];", 1, 1),
    ("int a[(-7>>1)+7];", 3, 3),
    ("int a[-1<1?1:2];", 1, 1),
    ("int a[(0u-1)/0x10000000];", 15, 15),
    ("int a[1||1/0];", 1, 1),
    ("int a[(unsigned char)300];", 44, 44),
];

#[test]
fn constants_have_kinds_and_values(rt: HostRuntime) {
    for &(text, small, large) in CONSTANTS {
        assert!(rt; has_lengths(rt.alloc(), text, small, large), "{text}");
    }
}

/// Types of expressions that are no constants, in the same form.
const KINDS: &[(&str, u32, u32)] = &[
    ("char c;int a[sizeof(c=1l)];", 1, 1),
    ("long l;int a[sizeof(l+=1)];", 4, 8),
    ("short s;int a[sizeof(s<<=1l)];", 2, 2),
    ("char c;int a[sizeof(c++)];", 1, 1),
    ("char c;int a[sizeof(--c)];", 1, 1),
    ("int*q;int a[sizeof*(1?0:q)];", 4, 4),
    ("int*q;int a[sizeof*(1?q:(void*)0)];", 4, 4),
    ("int*p;void*q;int a[sizeof*(1?p:q)];", 1, 1),
    ("int*p;char*q;int a[sizeof*(1?p:q)];", 4, 4),
    ("int*p;char*q;int a[sizeof*(1?q:p)];", 1, 1),
    ("void g(void);int a[sizeof(1?g():g())];", 1, 1),
    ("int b[3];int a[sizeof(1?b:0)];", 4, 8),
    ("int a[sizeof(g())];", 4, 4),
    ("int a[sizeof(malloc(1))];", 4, 8),
    (
        "char spin_trylock(char*);int a[sizeof(spin_trylock(0))];",
        4,
        4,
    ),
    ("int a[sizeof(__builtin_expect(1,1))];", 4, 8),
    ("int*q;int a[sizeof*(1?(unsigned char)256:q)];", 4, 4),
];

#[test]
fn expressions_have_types(rt: HostRuntime) {
    for &(text, small, large) in KINDS {
        assert!(rt; has_lengths(rt.alloc(), text, small, large), "{text}");
    }
}
