// Calls (C11 6.5.2.2): how many arguments a function takes, and what becomes of each.
//
// What a branch does not use is dropped by a call of `drop`: each drop of an expression that is not written out costs
// the check of its function ten seconds, and several of them more than their sum.

ghost use Rattle.std.specs.Prelude.{◌≡◌, ◌∷◌, IfOk};
ghost use Rattle.std.specs.Option.{option_copied};
ghost use Rattle.sc_rules.specs.Gives.{Gives};
ghost use Rattle.sc_calls.specs.Calls as spec;

use sc_base::{Boxed, IllTyped, List, NameId, OutOfMemory, Pos, Unsupported};
use sc_rules::{
    Builtin, Entity, Given, Walk, convert, converted, ill_typed, node, promote, unsupported, value,
};
use sc_tree::ctype::{CType, IntKind, Signature, Widths};
use sc_tree::expr::Place;
use sc_typed::{TExpr, What};
use sc_types::{
    copy_signature, copy_type, copy_types, is_aggregate, is_integer, is_null_constant, is_pointer,
};
use std::alloc::Global;

/// A function with that result of whose arguments nothing is said.
pub fn with_result(t: CType) -> Signature
    ensures { result ≡ spec.with_result t }
{
    Signature {
        result: t,
        params: None,
        variadic: false,
    }
}

/// The type of a function with that result of whose arguments nothing is said.
pub fn unknown_function(alloc: Global, t: CType) -> Result<CType, OutOfMemory>
    ensures { IfOk result (λ x. x ≡ spec.unknown_function t) }
{
    Ok(CType::Func(Boxed::new(alloc, with_result(t))?))
}

// The signature of a function type.
fn function_signature(t: &CType) -> Option<&Signature>
    ensures { option_copied result ≡ spec.function_signature t.now }
{
    match t {
        CType::Func(signature) => Some(signature.get()),
        _ => None,
    }
}

/// The signature of the function that is called: of a function, or of what a pointer points to.
pub fn called_signature(t: &CType) -> Option<&Signature>
    ensures { option_copied result ≡ spec.called_signature t.now }
{
    match t {
        CType::Func(signature) => Some(signature.get()),
        CType::Ptr(pointed) => function_signature(pointed.get()),
        _ => None,
    }
}

// A copy of that signature.
fn copy_called(alloc: Global, t: &CType) -> Result<Option<Signature>, OutOfMemory>
    ensures { IfOk result (λ x. x ≡ spec.called_signature t.now) }
{
    match called_signature(t) {
        None => Ok(None),
        Some(signature) => Ok(Some(copy_signature(alloc, signature)?)),
    }
}

// Whether a function takes that many arguments.
fn takes_many(s: &Signature, count: usize) -> bool
    ensures { result ≡ spec.takes_many s.now count }
{
    match &s.params {
        None => true,
        Some(types) => count == types.len() || (s.variadic && types.len() < count),
    }
}

// An argument for which no parameter stands: the default argument promotions.
fn promoted_argument(
    alloc: Global,
    walk: &mut Walk,
    at: Pos,
    a: TExpr,
) -> Result<Option<TExpr>, OutOfMemory>
    ensures { Gives (spec.promoted_argument at a walk.old) result walk.new }
{
    if is_integer(&a.ctype) {
        Ok(Some(promote(alloc, a)?))
    } else if is_pointer(&a.ctype) {
        Ok(Some(a))
    } else {
        drop(a);
        Ok(ill_typed(walk, IllTyped::Operand, at))
    }
}

// An argument that is no struct or union, as its parameter asks where there is one.
fn argument_to(
    alloc: Global,
    walk: &mut Walk,
    w: Widths,
    at: Pos,
    t: Option<&CType>,
    a: TExpr,
) -> Result<Option<TExpr>, OutOfMemory>
    ensures { Gives (spec.argument_to w at (option_copied t.entry) a walk.old) result walk.new }
{
    match t {
        None => promoted_argument(alloc, walk, at, a),
        Some(t) => converted(alloc, walk, w, IllTyped::Operand, at, t, a),
    }
}

// An argument, as its parameter asks where there is one; `None` where a fault stands in it.
fn argument(
    alloc: Global,
    walk: &mut Walk,
    w: Widths,
    at: Pos,
    t: Option<&CType>,
    a: Option<TExpr>,
) -> Result<Option<TExpr>, OutOfMemory>
    ensures { Gives (spec.argument w at (option_copied t.entry) a walk.old) result walk.new }
{
    match a {
        None => Ok(None),
        Some(a) => {
            if is_aggregate(&a.ctype) {
                let first = a.place.first;
                drop(a);
                Ok(unsupported(walk, Unsupported::Struct, first))
            } else {
                argument_to(alloc, walk, w, at, t, a)
            }
        }
    }
}

// The arguments so far and one more; `None` where one is missing.
fn with_last(all: Option<List<TExpr>>, a: Option<TExpr>) -> Result<Option<List<TExpr>>, OutOfMemory>
    ensures { IfOk result (λ x. x ≡ spec.with_last all a) }
{
    match all {
        None => {
            drop(a);
            Ok(None)
        }
        Some(mut all) => match a {
            None => Ok(None),
            Some(a) => {
                all.push(a)?;
                Ok(Some(all))
            }
        },
    }
}

// The parameter in front.
fn front(types: &[CType]) -> Option<&CType>
    ensures { option_copied result ≡ spec.front types.now }
{
    match types {
        [] => None,
        [t, ..] => Some(t),
    }
}

// The parameters behind the one in front.
fn behind(types: &[CType]) -> &[CType]
    ensures { result.now ≡ spec.behind types.now }
{
    match types {
        [] => types,
        [_, rest @ ..] => rest,
    }
}

// The arguments of a call, each as its parameter asks.
#[tactic(auto, using(crate::proofs::Arguments::behind_one, crate::proofs::Arguments::behind_none, crate::proofs::Arguments::behind_end))]
fn arguments(
    alloc: Global,
    walk: &mut Walk,
    w: Widths,
    at: Pos,
    params: &[CType],
    given: List<Option<TExpr>>,
) -> Result<Option<List<TExpr>>, OutOfMemory>
    ensures { Gives (spec.arguments w at params.now given walk.old) result walk.new }
{
    let mut types = params;
    let mut all = Some(List::from_vec(Vec::with_capacity(alloc, given.len())?));
    for a in given.into_vec() {
        let a = argument(alloc, walk, w, at, front(types), a)?;
        all = with_last(all, a)?;
        types = behind(types);
    }
    Ok(all)
}

// A call with its arguments, which have to be there.
fn finished_call(
    alloc: Global,
    p: Place,
    t: CType,
    f: TExpr,
    arguments: Option<List<TExpr>>,
) -> Result<Option<TExpr>, OutOfMemory>
    ensures { IfOk result (λ x. x ≡ spec.finished_call p t f arguments) }
{
    match arguments {
        None => {
            drop(t);
            drop(f);
            Ok(None)
        }
        Some(arguments) => {
            let f = Boxed::new(alloc, f)?;
            Ok(Some(node(What::Call(f, arguments), t, p)))
        }
    }
}

// A call whose result is no struct or union, which is not taken.
fn call_with(
    alloc: Global,
    walk: &mut Walk,
    p: Place,
    t: CType,
    f: TExpr,
    arguments: Option<List<TExpr>>,
) -> Result<Option<TExpr>, OutOfMemory>
    ensures { Gives (spec.call_with p t f arguments walk.old) result walk.new }
{
    if is_aggregate(&t) {
        drop(t);
        drop(f);
        drop(arguments);
        Ok(unsupported(walk, Unsupported::Struct, p.first))
    } else {
        finished_call(alloc, p, t, f, arguments)
    }
}

// The types of the parameters; none where nothing is said of them.
fn params_of(s: &Signature) -> &[CType]
    ensures { result.now ≡ spec.params_of s.now }
{
    match &s.params {
        None => &[],
        Some(types) => types.as_slice(),
    }
}

// A call of a function with that signature, which takes so many arguments.
fn call_taken(
    alloc: Global,
    walk: &mut Walk,
    w: Widths,
    s: Signature,
    p: Place,
    f: TExpr,
    given: List<Option<TExpr>>,
) -> Result<Option<TExpr>, OutOfMemory>
    ensures { Gives (spec.call_taken w s p f given walk.old) result walk.new }
{
    match arguments(alloc, walk, w, p.first, params_of(&s), given) {
        Err(e) => {
            drop(s);
            drop(f);
            Err(e)
        }
        Ok(all) => call_with(alloc, walk, p, s.result, f, all),
    }
}

// A call of what has that signature; `None` is that of no function.
fn call_as(
    alloc: Global,
    walk: &mut Walk,
    w: Widths,
    s: Option<Signature>,
    p: Place,
    f: TExpr,
    given: List<Option<TExpr>>,
) -> Result<Option<TExpr>, OutOfMemory>
    ensures { Gives (spec.call_as w s p f given walk.old) result walk.new }
{
    match s {
        None => {
            drop(f);
            drop(given);
            Ok(ill_typed(walk, IllTyped::Call, p.first))
        }
        Some(s) => {
            if takes_many(&s, given.len()) {
                call_taken(alloc, walk, w, s, p, f, given)
            } else {
                drop(s);
                drop(f);
                drop(given);
                Ok(ill_typed(walk, IllTyped::Call, p.first))
            }
        }
    }
}

/// `f ( given )` (C11 6.5.2.2). `f` is a function or a value, the arguments are values; `None` where a fault
/// stands in one. Each argument that has a type is judged, whatever faults the others have.
pub fn call(
    alloc: Global,
    walk: &mut Walk,
    w: Widths,
    p: Place,
    f: Option<TExpr>,
    given: List<Option<TExpr>>,
) -> Result<Option<TExpr>, OutOfMemory>
    ensures { Gives (spec.call w p f given walk.old) result walk.new }
{
    match f {
        None => Ok(None),
        Some(f) => match copy_called(alloc, &f.ctype) {
            Err(e) => {
                drop(f);
                drop(given);
                Err(e)
            }
            Ok(s) => call_as(alloc, walk, w, s, p, f, given),
        },
    }
}

// Whether an expression is the name of a function.
fn is_function_name(e: &TExpr) -> bool
    ensures { result ≡ spec.is_function_name e.now }
{
    matches!(&e.what, What::Function(_, _))
}

/// What is called: the name of a function stays what it is, anything else is a value.
pub fn callee(alloc: Global, walk: &mut Walk, e: TExpr) -> Result<Option<TExpr>, OutOfMemory>
    ensures { Gives (spec.callee e walk.old) result walk.new }
{
    if is_function_name(&e) {
        Ok(Some(e))
    } else {
        value(alloc, walk, e)
    }
}

// How a built-in function takes its arguments.
fn given_of(b: Builtin) -> Given
    ensures { result ≡ spec.given_of b }
{
    match b {
        Builtin::Nothing(given)
        | Builtin::Int(given)
        | Builtin::Long(given)
        | Builtin::Object(given) => given,
        Builtin::Refused => Given::Any,
    }
}

// What a built-in function gives.
fn builtin_result(alloc: Global, b: Builtin) -> Result<CType, OutOfMemory>
    ensures { IfOk result (λ x. x ≡ spec.builtin_result b) }
{
    match b {
        Builtin::Nothing(_) | Builtin::Refused => Ok(CType::Void),
        Builtin::Int(_) => Ok(CType::Int(IntKind::Int)),
        Builtin::Long(_) => Ok(CType::Int(IntKind::Long)),
        Builtin::Object(_) => Ok(CType::Ptr(Boxed::new(alloc, CType::Void)?)),
    }
}

// Whether a built-in function takes that many arguments.
fn has_count(given: Given, count: usize) -> bool
    ensures { result ≡ spec.has_count given count }
{
    match given {
        Given::Any => true,
        Given::Pointer => 0 < count,
        Given::Two => count == 2,
    }
}

/// The signature of a prototype that is in sight: it limits and converts the arguments of a built-in function
/// too. `None` where the name means no function.
pub fn prototype(alloc: Global, visible: Option<&Entity>) -> Result<Option<Signature>, OutOfMemory>
    ensures { IfOk result (λ x. x ≡ spec.prototype (option_copied visible.entry)) }
{
    match visible {
        Some(Entity::Function(t, _)) => copy_called(alloc, t),
        _ => Ok(None),
    }
}

// The signature of a prototype, or else that of a function of whose arguments nothing is said.
fn signature_or(t: CType, visible: Option<Signature>) -> Signature
    ensures { result ≡ spec.signature_or t visible }
{
    match visible {
        None => with_result(t),
        Some(signature) => signature,
    }
}

// The types of a built-in function's parameters; none where nothing is said of them.
fn builtin_params(alloc: Global, given: Given, s: &Signature) -> Result<List<CType>, OutOfMemory>
    ensures { IfOk result (λ x. x ≡ spec.builtin_params given s.now) }
{
    match given {
        Given::Two => {
            let mut types = List::new(alloc);
            types.push(CType::Int(IntKind::Long))?;
            types.push(CType::Int(IntKind::Long))?;
            Ok(types)
        }
        Given::Any | Given::Pointer => match &s.params {
            None => Ok(List::new(alloc)),
            Some(types) => copy_types(alloc, types),
        },
    }
}

// A first argument that is a pointer, or a null constant that becomes one.
fn pointer_argument(
    alloc: Global,
    walk: &mut Walk,
    w: Widths,
    at: Pos,
    a: TExpr,
) -> Result<Option<TExpr>, OutOfMemory>
    ensures { Gives (spec.pointer_argument w at a walk.old) result walk.new }
{
    if is_pointer(&a.ctype) {
        Ok(Some(a))
    } else if is_null_constant(w, &a) {
        match Boxed::new(alloc, CType::Void) {
            Err(e) => {
                drop(a);
                Err(e)
            }
            Ok(void) => {
                let t = CType::Ptr(void);
                Ok(Some(convert(alloc, a, t)?))
            }
        }
    } else {
        drop(a);
        Ok(ill_typed(walk, IllTyped::Operand, at))
    }
}

// The arguments behind a first one that has to be a pointer where it has a type.
fn pointer_first(
    alloc: Global,
    walk: &mut Walk,
    w: Widths,
    at: Pos,
    first: Option<TExpr>,
    mut rest: Vec<Option<TExpr>>,
) -> Result<Option<List<Option<TExpr>>>, OutOfMemory>
    ensures { Gives (spec.first_pointer w at (first ∷ rest.items) walk.old) result walk.new }
{
    match first {
        None => {
            rest.insert(0, None)?;
            Ok(Some(List::from_vec(rest)))
        }
        Some(a) => match pointer_argument(alloc, walk, w, at, a)? {
            None => Ok(None),
            Some(a) => {
                rest.insert(0, Some(a))?;
                Ok(Some(List::from_vec(rest)))
            }
        },
    }
}

// The arguments, of which the first has to be a pointer where it has a type.
#[tactic(auto, using(std::proofs::lemmas::List::drop_more))]
fn first_pointer(
    alloc: Global,
    walk: &mut Walk,
    w: Widths,
    at: Pos,
    given: List<Option<TExpr>>,
) -> Result<Option<List<Option<TExpr>>>, OutOfMemory>
    ensures { Gives (spec.first_pointer w at given walk.old) result walk.new }
{
    let mut rest = given.into_vec();
    if rest.is_empty() {
        Ok(Some(List::from_vec(rest)))
    } else {
        let first = rest.remove(0);
        pointer_first(alloc, walk, w, at, first, rest)
    }
}

// The arguments of a built-in function as it takes them.
fn builtin_arguments(
    alloc: Global,
    walk: &mut Walk,
    w: Widths,
    takes: Given,
    at: Pos,
    given: List<Option<TExpr>>,
) -> Result<Option<List<Option<TExpr>>>, OutOfMemory>
    ensures { Gives (spec.builtin_arguments w takes at given walk.old) result walk.new }
{
    match takes {
        Given::Pointer => first_pointer(alloc, walk, w, at, given),
        Given::Any | Given::Two => Ok(Some(given)),
    }
}

/// A name with a meaning of its own, where it is called.
#[derive(Clone, Copy)]
pub struct BuiltinName {
    pub name: NameId,
    pub meaning: Builtin,
    /// Where the name stands.
    pub place: Place,
}

// The built-in function as what is called.
fn builtin_callee(alloc: Global, b: BuiltinName) -> Result<TExpr, OutOfMemory>
    ensures { IfOk result (λ x. x ≡ spec.builtin_callee b.name b.meaning b.place) }
{
    let t = builtin_result(alloc, b.meaning)?;
    let t = unknown_function(alloc, t)?;
    Ok(node(What::Function(b.name, None), t, b.place))
}

// The call of a built-in function with arguments that are converted.
fn finished_builtin(
    alloc: Global,
    b: BuiltinName,
    p: Place,
    all: Option<List<TExpr>>,
) -> Result<Option<TExpr>, OutOfMemory>
    ensures { IfOk result (λ x. x ≡ spec.finished_call p (spec.builtin_result b.meaning) (spec.builtin_callee b.name b.meaning b.place) all) }
{
    let t = builtin_result(alloc, b.meaning)?;
    let f = builtin_callee(alloc, b)?;
    finished_call(alloc, p, t, f, all)
}

// The place of a first argument that is no pointer.
fn no_pointer(all: &[TExpr]) -> Option<Pos>
    ensures { result ≡ spec.no_pointer all.now }
{
    match all.first() {
        None => None,
        Some(a) => {
            if is_pointer(&a.ctype) {
                None
            } else {
                Some(a.place.first)
            }
        }
    }
}

// The arguments as they are passed: an operation, a try and a release act on a pointer, which a prototype in sight may
// have made another value.
fn passed(walk: &mut Walk, takes: Given, all: Option<List<TExpr>>) -> Option<List<TExpr>>
    ensures { spec.passed takes all walk.old ≡ (result, walk.new) }
{
    let all = all?;
    match takes {
        Given::Any | Given::Two => Some(all),
        Given::Pointer => match no_pointer(all.as_slice()) {
            None => Some(all),
            Some(at) => ill_typed(walk, IllTyped::Operand, at),
        },
    }
}

// A call of a built-in function with arguments as it takes them.
fn builtin_given(
    alloc: Global,
    walk: &mut Walk,
    w: Widths,
    b: BuiltinName,
    s: &Signature,
    p: Place,
    given: Option<List<Option<TExpr>>>,
) -> Result<Option<TExpr>, OutOfMemory>
    ensures { Gives (spec.builtin_given w b.name b.meaning s.now b.place p given walk.old) result walk.new }
{
    match given {
        None => Ok(None),
        Some(given) => {
            let types = builtin_params(alloc, given_of(b.meaning), s)?;
            let all = arguments(alloc, walk, w, p.first, types.as_slice(), given)?;
            let all = passed(walk, given_of(b.meaning), all);
            finished_builtin(alloc, b, p, all)
        }
    }
}

// A call of a built-in function that has that signature.
fn builtin_as(
    alloc: Global,
    walk: &mut Walk,
    w: Widths,
    b: BuiltinName,
    s: &Signature,
    p: Place,
    given: List<Option<TExpr>>,
) -> Result<Option<TExpr>, OutOfMemory>
    ensures { Gives (spec.builtin_as w b.name b.meaning s.now b.place p given walk.old) result walk.new }
{
    let takes = given_of(b.meaning);
    if has_count(takes, given.len()) && takes_many(s, given.len()) {
        let given = builtin_arguments(alloc, walk, w, takes, p.first, given)?;
        builtin_given(alloc, walk, w, b, s, p, given)
    } else {
        Ok(ill_typed(walk, IllTyped::Call, p.first))
    }
}

// A call of a built-in function that is taken.
fn builtin_taken(
    alloc: Global,
    walk: &mut Walk,
    w: Widths,
    b: BuiltinName,
    visible: Option<Signature>,
    p: Place,
    given: List<Option<TExpr>>,
) -> Result<Option<TExpr>, OutOfMemory>
    ensures { Gives (spec.builtin_as w b.name b.meaning (spec.signature_or (spec.builtin_result b.meaning) visible) b.place p given walk.old) result walk.new }
{
    let t = builtin_result(alloc, b.meaning)?;
    let s = signature_or(t, visible);
    builtin_as(alloc, walk, w, b, &s, p, given)
}

/// A call of a built-in function. `visible` is the signature of a prototype of its name that is in sight: it
/// limits and converts the arguments too. The arguments are values; `None` where a fault stands in one.
pub fn builtin_call(
    alloc: Global,
    walk: &mut Walk,
    w: Widths,
    b: BuiltinName,
    visible: Option<Signature>,
    p: Place,
    given: List<Option<TExpr>>,
) -> Result<Option<TExpr>, OutOfMemory>
    ensures { Gives (spec.builtin_call w b.name b.meaning visible b.place p given walk.old) result walk.new }
{
    match b.meaning {
        Builtin::Refused => Ok(unsupported(walk, Unsupported::Call, b.place.token)),
        Builtin::Nothing(_) | Builtin::Int(_) | Builtin::Long(_) | Builtin::Object(_) => {
            builtin_taken(alloc, walk, w, b, visible, p, given)
        }
    }
}
