//! What small files fall into: each statement and declaration of the grammar that is easily read
//! otherwise, where a fault is placed, and how high a tree may be.

use name_interner::Interner;
use sc_base::{OutOfMemory, Pos, Skip};
use sc_lexer::{LexAnswer, tokens};
use sc_parse_unit::unit;
use sc_tree::expr::Expr;
use sc_tree::stmt::Stmt;
use sc_tree::unit::{Body, Segment, Unit};
use std::alloc::Global;

/// What a segment is, with the line and the column where it, or its body, is skipped.
#[derive(Clone, Copy, PartialEq, Eq)]
enum Shape {
    Decl,
    Function,
    NoBody(u32, u32),
    NoSegment(u32, u32),
    Other,
}

fn units(alloc: Global, text: &str) -> Result<Unit, LexAnswer> {
    if text.len() > 1000000 {
        return Err(LexAnswer::OutOfMemory);
    }
    let mut names = Interner::new(alloc);
    let found = tokens(alloc, &mut names, 0, text.as_bytes())?;
    Ok(unit(alloc, &found)?)
}

fn seen(segment: &Segment) -> Shape {
    match segment {
        Segment::Decl(_) => Shape::Decl,
        Segment::Function(_, body) => body_seen(body.get()),
        Segment::Skipped(Skip::Grammar { pos }) => Shape::NoSegment(pos.line, pos.col),
        _ => Shape::Other,
    }
}

fn body_seen(body: &Body) -> Shape {
    match body {
        Body::Tree(_) => Shape::Function,
        Body::Skipped(Skip::Grammar { pos }) => Shape::NoBody(pos.line, pos.col),
        _ => Shape::Other,
    }
}

fn are_seen(segments: &[Segment], want: &[Shape]) -> bool {
    if segments.len() != want.len() {
        return false;
    }
    for (segment, shape) in segments.iter().zip(want) {
        if seen(segment) != *shape {
            return false;
        }
    }
    true
}

/// Whether these are the segments of a file.
fn has(alloc: Global, text: &str, want: &[Shape]) -> bool {
    match units(alloc, text) {
        Ok(found) => are_seen(found.segments.as_slice(), want),
        Err(_) => false,
    }
}

const DECL: Shape = Shape::Decl;

const FUNCTION: Shape = Shape::Function;

/// The first segment spells nothing.
const NOTHING: Shape = Shape::NoSegment(1, 1);

/// Declarations with a type and without: the file, and its segments.
const TYPES: &[(&str, &[Shape])] = &[
    ("", &[]),
    (";", &[DECL]),
    ("int x", &[NOTHING]),
    ("foo bar;", &[NOTHING]),
    ("static x;", &[NOTHING]),
    ("long static unsigned static long x;", &[DECL]),
    ("int ***p;", &[DECL]),
    ("int x __attribute__[3];", &[DECL]),
    ("int x __attribute__ const((a));", &[NOTHING]),
    ("int a[1$];", &[NOTHING]),
    ("double d=1.5;int x=y;", &[DECL, DECL]),
    ("#define x \\\n foo;", &[Shape::NoSegment(2, 2)]),
];

#[test]
fn a_declaration_has_a_type(rt: HostRuntime) {
    for &(text, want) in TYPES {
        assert!(rt; has(rt.alloc(), text, want), "{text}");
    }
}

/// Initialisers and bodies of types: the file, and its segments.
const BRACES: &[(&str, &[Shape])] = &[
    ("int a[2]={1,2,};", &[DECL]),
    ("int a[2]={,};", &[NOTHING]),
    ("int a[2]={[1]=2};", &[DECL]),
    ("int a[2]={[1]2};", &[NOTHING]),
    ("int f(void){int x[2]={};return x[1];}", &[FUNCTION]),
    ("struct s{};int a[sizeof(struct s)==0?1:-1];", &[DECL, DECL]),
    ("enum e{};", &[NOTHING]),
    ("typedef int T;enum{T};", &[DECL, DECL]),
    ("void f(void){int x=sizeof(struct{int a;});}", &[FUNCTION]),
    ("void f(void){struct t{int a;}*x;}", &[Shape::NoBody(1, 13)]),
];

#[test]
fn initialisers_and_bodies_of_types_are_read(rt: HostRuntime) {
    for &(text, want) in BRACES {
        assert!(rt; has(rt.alloc(), text, want), "{text}");
    }
}

/// Names of types: the file, and its segments.
const TYPEDEFS: &[(&str, &[Shape])] = &[
    ("typedef void V;int f(V);", &[DECL, DECL]),
    ("typedef int T=;int T;", &[NOTHING, DECL]),
    (
        "typedef int T,U[sizeof(T)];U T;",
        &[DECL, Shape::NoSegment(1, 28)],
    ),
    (
        "typedef int T;int g(int x);int f(int(T));int h(void){return f(g);}",
        &[DECL, DECL, DECL, FUNCTION],
    ),
    ("typedef int T;void f(void){T:;}", &[DECL, FUNCTION]),
    (
        "typedef int T;void f(void){typedef int U;}",
        &[DECL, Shape::NoBody(1, 27)],
    ),
    (
        "struct s{static int a;};int f(extern int x){return(inline int)x;}",
        &[DECL, FUNCTION],
    ),
];

#[test]
fn a_typedef_name_is_a_type_behind_its_declarator(rt: HostRuntime) {
    for &(text, want) in TYPEDEFS {
        assert!(rt; has(rt.alloc(), text, want), "{text}");
    }
}

/// Bodies that are read, and such as are skipped: the file, and its segments.
const BODIES: &[(&str, &[Shape])] = &[
    ("void f(void){int x;x=1}", &[Shape::NoBody(1, 13)]),
    ("int f(int p){return p.x;}", &[FUNCTION]),
    ("void f(double x){y}", &[Shape::NoBody(1, 17)]),
    ("int(*f(void))[3]{return 0;}int x;", &[NOTHING]),
    ("void f(int a){if(a)int x;}", &[Shape::NoBody(1, 14)]),
    ("void f(int a){case 1:;}", &[Shape::NoBody(1, 14)]),
    ("void f(int a){switch(a){case 1:;default:;}}", &[FUNCTION]),
    (
        "void f(int a){switch(a){{case 1:;}}}",
        &[Shape::NoBody(1, 14)],
    ),
    ("void f(int n){for(int i=0;i<n;i++);}", &[FUNCTION]),
    ("void f(int n){do n--;while(n);for(;;)break;}", &[FUNCTION]),
];

#[test]
fn a_body_is_skipped_at_its_brace(rt: HostRuntime) {
    for &(text, want) in BODIES {
        assert!(rt; has(rt.alloc(), text, want), "{text}");
    }
}

#[test]
fn a_bracket_without_a_partner_is_refused(rt: HostRuntime) {
    let found = units(rt.alloc(), "int a[;");
    let want = Pos {
        file: 0,
        line: 1,
        col: 6,
    };
    assert!(rt; matches!(found, Err(LexAnswer::Unbalanced(pos)) if pos == want));
}

/// The items of the body of the last segment.
fn items(found: &Unit) -> &[Stmt] {
    match found.segments.as_slice() {
        [.., Segment::Function(_, body)] => items_of(body.get()),
        _ => &[],
    }
}

fn items_of(body: &Body) -> &[Stmt] {
    let Body::Tree(block) = body else {
        return &[];
    };
    match block.get() {
        Stmt::Block(items, _, _) => items.as_slice(),
        _ => &[],
    }
}

/// The place of a statement that is an expression.
fn place(stmt: &Stmt) -> Pos {
    match stmt {
        Stmt::Expr(_, pos) => *pos,
        _ => Pos {
            file: 0,
            line: 0,
            col: 0,
        },
    }
}

/// Whether a statement is a call.
fn is_call(stmt: &Stmt) -> bool {
    match stmt {
        Stmt::Expr(Some(e), _) => matches!(e.get(), Expr::Call(_, _, _)),
        _ => false,
    }
}

const CALLS: &str =
    "typedef struct{int v;}spinlock_t;\nvoid f(_Bool c,spinlock_t*l){spin_lock(l);if(c)spin_lock(l);}";

/// A call at the second line's column 30, and one behind an `if` at its column 43.
fn are_calls(items: &[Stmt]) -> bool {
    match items {
        [call, Stmt::If(test, then, None, second)] => {
            let first = place(call);
            is_call(call)
                && matches!(test.get(), Expr::Name(_, _))
                && is_call(then.get())
                && (first.line, first.col, second.line, second.col) == (2, 30, 2, 43)
        }
        _ => false,
    }
}

#[test]
fn calls_behind_a_typedef_are_read(rt: HostRuntime) {
    assert!(rt; has(rt.alloc(), CALLS, &[DECL, FUNCTION]));
    let found = units(rt.alloc(), CALLS);
    assert!(rt; matches!(&found, Ok(found) if are_calls(items(found))));
}

fn is_nearest(items: &[Stmt]) -> bool {
    match items {
        [Stmt::If(_, then, None, _)] => matches!(then.get(), Stmt::If(_, _, Some(_), _)),
        _ => false,
    }
}

#[test]
fn an_else_belongs_to_the_nearest_if(rt: HostRuntime) {
    let found = units(rt.alloc(), "void f(int a,int b){if(a)if(b);else;}");
    assert!(rt; matches!(&found, Ok(found) if is_nearest(items(found))));
}

/// A function whose body is so many times the one text, then the middle, then as often the other.
fn body_of(
    alloc: Global,
    count: usize,
    one: &str,
    middle: &str,
    other: &str,
    end: &str,
) -> Result<String, OutOfMemory> {
    let mut text = String::new(alloc);
    text.push_str("void f(void){")?;
    for _ in 0..count {
        text.push_str(one)?;
    }
    text.push_str(middle)?;
    for _ in 0..count {
        text.push_str(other)?;
    }
    text.push_str(end)?;
    Ok(text)
}

/// Whether a function that returns `1` in so many pairs of brackets has that shape.
fn has_height(alloc: Global, pairs: usize, want: Shape) -> bool {
    match body_of(alloc, pairs, "(", "1", ")", ";}") {
        Ok(text) => has(alloc, text.as_str(), &[want]),
        Err(_) => false,
    }
}

#[test]
fn a_body_is_at_most_128_high(rt: HostRuntime) {
    let skipped = Shape::NoBody(1, 13);
    assert!(rt; has_height(rt.alloc(), 125, FUNCTION));
    assert!(rt; has_height(rt.alloc(), 126, skipped));
    assert!(rt; has_height(rt.alloc(), 100000, skipped));
}

/// How many items the body of the last function of a file has.
fn count(alloc: Global, text: &str) -> Option<usize> {
    match units(alloc, text) {
        Ok(found) => Some(items(&found).len()),
        Err(_) => None,
    }
}

fn count_of_empty(alloc: Global, statements: usize) -> Option<usize> {
    let text = body_of(alloc, statements, ";", "", "", "}").ok()?;
    count(alloc, text.as_str())
}

#[test]
fn a_body_may_have_4096_statements(rt: HostRuntime) {
    assert!(rt; count_of_empty(rt.alloc(), 4095) == Some(4095));
    assert!(rt; count_of_empty(rt.alloc(), 4096) == Some(4096));
}

const DRIVER: &str = "# 1 \"drivers/ring.c\"
# 1 \"include/kernel.h\" 1 3
typedef unsigned int u32;
typedef struct { volatile int slock; } spinlock_t;
struct mutex { int owner; };
extern int printk(const char *fmt, ...) __attribute__((format(printf, 1, 2)));
extern void *kmalloc(u32 size, int flags);
extern void kfree(const void *p);
# 9 \"drivers/ring.c\" 2
struct ring {
 spinlock_t lock;
 struct mutex open;
 u32 *slots;
 char *label;
 int users;
};
static int ring_setup(struct ring *r, u32 count, int flags)
{
 u32 *slots;
 char *label;
 char *scratch;
 int err = -12;
 mutex_lock(&r->open);
 if (r->users) {
  err = -16;
  goto out;
 }
 slots = kmalloc(count * sizeof(u32), flags);
 if (!slots)
  goto out;
 label = kmalloc(16, flags);
 if (!label)
  goto out_slots;
 scratch = kmalloc(64, flags);
 if (!scratch) {
  printk(\"ring: no scratch\\n\");
  goto out_slots;
 }
 spin_lock(&r->lock);
 r->slots = slots;
 r->label = label;
 r->users = 1;
 spin_unlock(&r->lock);
 kfree(scratch);
 mutex_unlock(&r->open);
 return 0;
out_slots:
 kfree(slots);
out:
 printk(\"ring: setup failed %d\\n\", err);
 mutex_unlock(&r->open);
 return err;
}
";

#[test]
fn no_segment_of_a_driver_is_skipped(rt: HostRuntime) {
    let want = [DECL, DECL, DECL, DECL, DECL, DECL, DECL, FUNCTION];
    assert!(rt; has(rt.alloc(), DRIVER, &want));
    assert!(rt; count(rt.alloc(), DRIVER) == Some(24));
}

fn declarations(alloc: Global, count: usize) -> Result<String, OutOfMemory> {
    let mut text = String::new(alloc);
    text.push_str("void f(void){")?;
    for number in 0..count {
        let line = format!(in alloc; "int a{number};")?;
        text.push_str(line.as_str())?;
    }
    text.push_str("}")?;
    Ok(text)
}

fn count_of_declarations(alloc: Global, declared: usize) -> Option<usize> {
    let text = declarations(alloc, declared).ok()?;
    count(alloc, text.as_str())
}

#[test]
fn a_body_may_have_257_declarations(rt: HostRuntime) {
    assert!(rt; count_of_declarations(rt.alloc(), 256) == Some(256));
    assert!(rt; count_of_declarations(rt.alloc(), 257) == Some(257));
}
