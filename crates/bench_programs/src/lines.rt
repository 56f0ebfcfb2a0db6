// The text of a generated program.

ghost use Rattle.std.specs.Prelude.{◌≡◌, ◌++◌, ◌≤◌, IfOk, OnOk, MatchOption, None, Some};
ghost use Rattle.bench_programs.specs.Programs as spec;

use crate::put::{put, put_numbered};
use crate::shape::Shape;
use sc_base::OutOfMemory;
use std::alloc::Global;

// What stands before the function's number.
fn head(shape: Shape) -> &'static [u8]
    ensures { result.now ≡ spec.head shape }
{
    match shape {
        Shape::Tries => b"int f",
        Shape::Makes => b"char*f",
        Shape::Paired
        | Shape::Twice
        | Shape::Loses
        | Shape::Locks
        | Shape::Unlocks
        | Shape::Frees => b"void f",
    }
}

// What stands between its number and that of the function before it, of a shape that calls that one.
fn call(shape: Shape) -> Option<&'static [u8]>
    ensures { MatchOption result (spec.call shape ≡ None) (λ bytes. spec.call shape ≡ Some bytes.now) }
{
    match shape {
        Shape::Unlocks => Some(b"(spinlock_t*l){f"),
        Shape::Frees => Some(b"(int n){char*p=f"),
        Shape::Paired | Shape::Twice | Shape::Tries | Shape::Loses | Shape::Locks | Shape::Makes =>
            None,
    }
}

// What stands behind the last number.
fn tail(shape: Shape) -> &'static [u8]
    ensures { result.now ≡ spec.tail shape }
{
    match shape {
        Shape::Paired => b"(spinlock_t*l){spin_lock(l);spin_unlock(l);}\n",
        Shape::Twice => b"(_Bool c,spinlock_t*l){spin_lock(l);if(c)spin_lock(l);}\n",
        Shape::Tries => b"(spinlock_t*l){return spin_trylock(l);}\n",
        Shape::Loses => b"(int n){char*p=kmalloc(n,0);if(n)kfree(p);}\n",
        Shape::Locks => b"(spinlock_t*l){spin_lock(l);}\n",
        Shape::Unlocks => b"(l);spin_unlock(l);}\n",
        Shape::Makes => b"(int n){char*p=malloc(n);return p;}\n",
        Shape::Frees => b"(n);if(p&&n)free(p);}\n",
    }
}

// Puts the call of the function before the one with that number, of a shape that has one.
fn put_call(out: &mut Vec<u8>, shape: Shape, number: u32) -> Result<(), OutOfMemory>
    ensures { OnOk result (out.new.items ≡ out.old.items ++ spec.called (spec.call shape) number) }
{
    match call(shape) {
        None => Ok(()),
        Some(bytes) => put_numbered(out, bytes, number.saturating_sub(1)),
    }
}

// Puts the function with that number.
fn put_function(out: &mut Vec<u8>, seed: u32, number: u32) -> Result<(), OutOfMemory>
    ensures { OnOk result (out.new.items ≡ out.old.items ++ spec.function_text seed number) }
{
    let shape = Shape::of(number, seed);
    put_numbered(out, head(shape), number)?;
    put_call(out, shape, number)?;
    put(out, tail(shape))
}

/// The text of a program of `count` functions, in which eight shapes of functions come in turn: a line that says what a
/// lock is, and then a line for each function.
///
/// # Errors
///
/// `OutOfMemory` where memory is refused.
#[tactic(auto, unfolding(crate::specs::Programs::bench_text))]
pub fn bench_text(alloc: Global, count: u32, seed: u32) -> Result<Vec<u8>, OutOfMemory>
    ensures { IfOk result (λ text. text.items ≡ spec.bench_text count seed) }
{
    let mut out = Vec::new(alloc);
    put(&mut out, b"typedef struct{int v;}spinlock_t;\n")?;
    for number in 0..count {
        put_function(&mut out, seed, number)?;
    }
    Ok(out)
}
