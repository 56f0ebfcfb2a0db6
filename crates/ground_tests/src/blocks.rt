//! A file's names as C11 6.2.1 has them, with what they mean as a text: each call once, at a type
//! with heap values.

use sc_base::{NameId, OutOfMemory};
use scopes::Scopes;
use std::alloc::Global;

const X: NameId = NameId { at: 7 };

const Y: NameId = NameId { at: 3 };

fn is_text(found: Option<&String>, text: &str) -> bool {
    match found {
        Some(found) => found.as_str() == text,
        None => false,
    }
}

fn declare(
    scopes: &mut Scopes<String>,
    alloc: Global,
    name: NameId,
    text: &str,
) -> Result<(), OutOfMemory> {
    scopes.declare(name, String::from_str(alloc, text)?)
}

// Keeps what was declared; whether no block is open.
fn keep(scopes: &mut Scopes<String>) -> bool {
    let is_file = scopes.is_file();
    if is_file {
        scopes.keep();
    }
    is_file
}

// The same where it is forgotten.
fn forget(scopes: &mut Scopes<String>) -> bool {
    let is_file = scopes.is_file();
    if is_file {
        scopes.forget();
    }
    is_file
}

// Ends the innermost block; whether there was one.
fn drop_block(scopes: &mut Scopes<String>) -> bool {
    let is_file = scopes.is_file();
    if !is_file {
        scopes.drop_block();
    }
    !is_file
}

// int x; void f(void) { char x; } int g = x;
fn hides(scopes: &mut Scopes<String>, alloc: Global) -> Result<bool, OutOfMemory> {
    declare(scopes, alloc, X, "int")?;
    let kept = keep(scopes);
    scopes.open()?;
    let outer = is_text(scopes.get(X), "int") && scopes.get_here(X).is_none();
    declare(scopes, alloc, X, "char")?;
    let inner = is_text(scopes.get(X), "char") && is_text(scopes.get_here(X), "char");
    let dropped = drop_block(scopes);
    Ok(kept && outer && inner && dropped && is_text(scopes.get(X), "int"))
}

#[test]
fn an_inner_name_hides_the_outer_one_up_to_the_end_of_its_block(rt: HostRuntime) {
    let mut scopes = Scopes::new(rt.alloc());
    assert!(rt; hides(&mut scopes, rt.alloc()) == Ok(true));
}

// Closes the innermost block and opens it again; whether its names were not seen in between.
fn reopens(scopes: &mut Scopes<String>) -> Result<bool, OutOfMemory> {
    if scopes.is_file() {
        return Ok(false);
    }
    let block = scopes.close()?;
    let closed = scopes.is_file() && scopes.get(X).is_none();
    scopes.reopen(block)?;
    Ok(closed)
}

// void f(short x, float y) {..}: the scope of the parameters opens again for the body
fn opens_again(scopes: &mut Scopes<String>, alloc: Global) -> Result<bool, OutOfMemory> {
    scopes.open()?;
    declare(scopes, alloc, X, "long")?;
    declare(scopes, alloc, X, "short")?;
    declare(scopes, alloc, Y, "float")?;
    let reopened = reopens(scopes)?;
    Ok(reopened && is_text(scopes.get_here(X), "short") && is_text(scopes.get(Y), "float"))
}

#[test]
fn a_block_that_was_closed_opens_again(rt: HostRuntime) {
    let mut scopes = Scopes::new(rt.alloc());
    assert!(rt; opens_again(&mut scopes, rt.alloc()) == Ok(true));
}

// a declaration that is skipped takes its names back, one that is taken keeps them
fn is_forgotten(scopes: &mut Scopes<String>, alloc: Global) -> Result<bool, OutOfMemory> {
    declare(scopes, alloc, X, "int")?;
    let kept = keep(scopes);
    declare(scopes, alloc, X, "char")?;
    declare(scopes, alloc, Y, "long")?;
    let forgotten = forget(scopes);
    let first = is_text(scopes.get(X), "int") && scopes.get(Y).is_none();
    scopes.clear();
    Ok(kept && forgotten && first && scopes.get(X).is_none())
}

#[test]
fn a_declaration_is_kept_or_forgotten(rt: HostRuntime) {
    let mut scopes = Scopes::new(rt.alloc());
    assert!(rt; is_forgotten(&mut scopes, rt.alloc()) == Ok(true));
}
