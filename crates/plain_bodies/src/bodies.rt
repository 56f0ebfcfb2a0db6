// Whether a body leaves nothing behind.

ghost use Rattle.std.specs.Prelude.{◌≡◌, ◌&&◌, map};
ghost use Rattle.sc_tree.specs.declared.decl.Init.{out-Init};
ghost use Rattle.sc_declarations.specs.Declarations.{is_alone};
ghost use Rattle.sc_declarations.specs.Initialisers.{item_expression};
ghost use Rattle.plain_bodies.specs.Plain as spec;

use crate::tags::is_tagged;
use sc_base::{Boxed, List, NameId};
use sc_declare::has_extern;
use sc_parts::aggregate_kind;
use sc_rules::{Tag, TagKind};
use sc_tree::decl::{Decl, Init, InitDeclarator, InitItem};
use sc_tree::expr::{Aggregate, Base, Declarator, EnumSpec, Expr, Head, Specs};
use sc_tree::stmt::{ForHead, ForStart, Stmt};
use scopes::Scopes;

// An expression.
#[cycle(plain)]
fn expression(tags: &Scopes<Tag>, e: &Expr) -> bool
    ensures { result ≡ spec.plain tags.now e.now }
{
    match e {
        Expr::Comma(a, b, _) => expression(tags, a.get()) && expression(tags, b.get()),
        Expr::Assign(_, a, b, _) => expression(tags, a.get()) && expression(tags, b.get()),
        Expr::Cond(a, b, c, _) => {
            expression(tags, a.get()) && (expression(tags, b.get()) && expression(tags, c.get()))
        }
        Expr::Binary(_, a, b, _) => expression(tags, a.get()) && expression(tags, b.get()),
        Expr::Cast(h, a, _) => head(tags, h.get()) && expression(tags, a.get()),
        Expr::Unary(_, a, _) => expression(tags, a.get()),
        Expr::PreInc(_, a, _) => expression(tags, a.get()),
        Expr::SizeofExpr(a, _) => expression(tags, a.get()),
        Expr::SizeofType(h, _) => head(tags, h.get()),
        Expr::Index(a, b, _) => expression(tags, a.get()) && expression(tags, b.get()),
        Expr::Call(f, es, _) => expression(tags, f.get()) && expressions(tags, es),
        Expr::Field(a, _, _, _) => expression(tags, a.get()),
        Expr::PostInc(_, a, _) => expression(tags, a.get()),
        Expr::Name(_, _) | Expr::Int(_, _) | Expr::Char(_, _) | Expr::Odd(_) | Expr::Str(_, _) =>
            true,
    }
}

// The arguments of a call.
#[cycle(plain)]
fn expressions(tags: &Scopes<Tag>, es: &List<Expr>) -> bool
    ensures { result ≡ spec.all_of (map (spec.plain tags.now) es.now) }
{
    for e in es.as_slice() {
        if !expression(tags, e) {
            return false;
        }
    }
    true
}

// A name as a tag that stands.
fn named(tags: &Scopes<Tag>, kind: TagKind, name: Option<NameId>) -> bool
    ensures { result ≡ spec.named tags.now kind name }
{
    match name {
        None => false,
        Some(name) => is_tagged(tags, kind, name),
    }
}

// A struct or union.
fn aggregate(tags: &Scopes<Tag>, a: &Aggregate) -> bool
    ensures { result ≡ spec.plain_aggregate tags.now a.now }
{
    match &a.body {
        Some(_) => false,
        None => named(tags, aggregate_kind(a.union), a.tag),
    }
}

// An enumeration.
fn enumeration(tags: &Scopes<Tag>, e: &EnumSpec) -> bool
    ensures { result ≡ spec.plain_enum tags.now e.now }
{
    match &e.body {
        Some(_) => false,
        None => named(tags, TagKind::Enum, e.tag),
    }
}

// What specifiers name.
fn specifiers(tags: &Scopes<Tag>, s: &Specs) -> bool
    ensures { result ≡ spec.plain_specs tags.now s.now }
{
    match &s.base {
        Base::Words(_) | Base::Named(_, _) => true,
        Base::Struct(a) => aggregate(tags, a.get()),
        Base::Enum(e) => enumeration(tags, e.get()),
    }
}

// A type.
#[cycle(plain)]
fn head(tags: &Scopes<Tag>, h: &Head) -> bool
    ensures { result ≡ spec.plain_head tags.now h.now }
{
    specifiers(tags, &h.specs) && declarator(tags, &h.declarator)
}

// What a declarator makes of a type.
#[cycle(plain)]
fn declarator(tags: &Scopes<Tag>, d: &Declarator) -> bool
    ensures { result ≡ spec.plain_declarator tags.now d.now }
{
    match d {
        Declarator::Name(_) => true,
        Declarator::Pointer(d) => declarator(tags, d.get()),
        Declarator::Array(d, None) => declarator(tags, d.get()),
        Declarator::Array(d, Some(n)) => declarator(tags, d.get()) && expression(tags, n.get()),
        Declarator::Func(_, _, _) => false,
    }
}

// An expression that may be left out.
fn expression_if(tags: &Scopes<Tag>, e: &Option<Boxed<Expr>>) -> bool
    ensures { result ≡ spec.plain_if tags.now e.now }
{
    match e {
        None => true,
        Some(e) => expression(tags, e.get()),
    }
}

// An item in braces: an expression without designators.
fn item(tags: &Scopes<Tag>, x: &InitItem) -> bool
    ensures { result ≡ spec.plain_part_if tags.now (item_expression x.now) }
{
    match x.designators.as_slice() {
        [] => match &x.init {
            Init::One(e) => expression(tags, e.get()),
            Init::List(_) => false,
        },
        [_, ..] => false,
    }
}

// The items in braces.
fn braces(tags: &Scopes<Tag>, xs: &List<InitItem>) -> bool
    ensures { result ≡ spec.plain_items tags.now xs.now }
{
    for x in xs.as_slice() {
        if !item(tags, x) {
            return false;
        }
    }
    true
}

// An initialiser.
fn initialiser(tags: &Scopes<Tag>, x: &Init) -> bool
    ensures { result ≡ spec.init_plain tags.now (out-Init x.now) }
{
    match x {
        Init::One(e) => expression(tags, e.get()),
        Init::List(items) => braces(tags, items),
    }
}

// An initialiser that may be left out.
fn initialiser_if(tags: &Scopes<Tag>, x: &Option<Boxed<Init>>) -> bool
    ensures { result ≡ spec.plain_init tags.now x.now }
{
    match x {
        None => true,
        Some(x) => initialiser(tags, x.get()),
    }
}

// A declarator with its initialiser.
fn part(tags: &Scopes<Tag>, d: &InitDeclarator) -> bool
    ensures { result ≡ (spec.plain_declarator tags.now d.now.declarator && spec.plain_init tags.now d.now.init) }
{
    declarator(tags, &d.declarator) && initialiser_if(tags, &d.init)
}

// The declarators of a declaration.
fn parts(tags: &Scopes<Tag>, ds: &List<InitDeclarator>) -> bool
    ensures { result ≡ spec.plain_parts tags.now ds.now }
{
    for d in ds.as_slice() {
        if !part(tags, d) {
            return false;
        }
    }
    true
}

// Whether there is no declarator.
fn no_part(ds: &[InitDeclarator]) -> bool
    ensures { result ≡ is_alone ds.now }
{
    match ds {
        [] => true,
        [_, ..] => false,
    }
}

// A declaration in a body.
fn declaration(tags: &Scopes<Tag>, d: &Decl) -> bool
    ensures { result ≡ spec.plain_declaration tags.now d.now }
{
    (!no_part(d.parts.as_slice()) && !has_extern(d.specs.storage.as_slice()))
        && (specifiers(tags, &d.specs) && parts(tags, &d.parts))
}

// What stands before the first `;` of a `for`.
fn start(tags: &Scopes<Tag>, f: &ForStart) -> bool
    ensures { result ≡ spec.plain_start tags.now f.now }
{
    match f {
        ForStart::Nothing => true,
        ForStart::Expr(e) => expression(tags, e.get()),
        ForStart::Decl(d, _) => declaration(tags, d.get()),
    }
}

/// Whether a statement leaves nothing behind, where these are the tags: no variable with linkage is declared in it, and
/// no type is written with another tag, with members or enumerators, or with the parameters of a function.
#[cycle(statement)]
pub fn is_plain(tags: &Scopes<Tag>, s: &Stmt) -> bool
    ensures { result ≡ spec.plain_statement tags.now s.now }
{
    match s {
        Stmt::Block(xs, _, _) => items(tags, xs),
        Stmt::Decl(d, _) => declaration(tags, d.get()),
        Stmt::Expr(e, _) => expression_if(tags, e),
        Stmt::If(e, x, None, _) => expression(tags, e.get()) && is_plain(tags, x.get()),
        Stmt::If(e, x, Some(y), _) => {
            expression(tags, e.get()) && (is_plain(tags, x.get()) && is_plain(tags, y.get()))
        }
        Stmt::While(e, x, _) => expression(tags, e.get()) && is_plain(tags, x.get()),
        Stmt::Do(x, e, _) => is_plain(tags, x.get()) && expression(tags, e.get()),
        Stmt::For(h, x, _) => loop_plain(tags, h, x.get()),
        Stmt::Switch(e, xs, _, _) => expression(tags, e.get()) && items(tags, xs.get()),
        Stmt::Case(e, _) => expression(tags, e.get()),
        Stmt::Return(e, _) => expression_if(tags, e),
        Stmt::Label(_, x, _) => is_plain(tags, x.get()),
        Stmt::Default(_) | Stmt::Goto(_, _) | Stmt::Break(_) | Stmt::Continue(_) => true,
    }
}

// A `for`.
#[cycle(statement)]
fn loop_plain(tags: &Scopes<Tag>, h: &ForHead, x: &Stmt) -> bool
    ensures { result ≡ spec.loop_plain tags.now h.now (spec.plain_statement tags.now x.now) }
{
    start(tags, h.start.get())
        && (expression_if(tags, h.test.get())
            && (expression_if(tags, h.step.get()) && is_plain(tags, x)))
}

// The items of a block or a `switch`.
#[cycle(statement)]
fn items(tags: &Scopes<Tag>, xs: &List<Stmt>) -> bool
    ensures { result ≡ spec.all_of (map (spec.plain_statement tags.now) xs.now) }
{
    for x in xs.as_slice() {
        if !is_plain(tags, x) {
            return false;
        }
    }
    true
}
