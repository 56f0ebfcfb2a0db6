// The lines that the program writes.

ghost use Rattle.std.specs.Prelude.{◌≡◌, ◌++◌, OnOk, IfOk};
ghost use Rattle.verify_runs.specs.Lines.{malformed_line, accepted_line, rejected_line, line_of, unread_line};

use crate::finding::Finding;
use itoa::{Buffer, Integer};
use std::alloc::{AllocError, Global};

fn put(out: &mut Vec<u8>, bytes: &[u8]) -> Result<(), AllocError>
    ensures { OnOk result (out.new.items ≡ out.old.items ++ bytes.now) }
{
    out.extend_from_slice(bytes)
}

fn put_number<I: Integer>(out: &mut Vec<u8>, n: I) -> Result<(), AllocError>
    ensures { OnOk result (out.new.items ≡ out.old.items ++ I.text n) }
{
    let mut buffer = Buffer::new();
    put(out, buffer.format(n).as_bytes())
}

fn malformed_line(alloc: Global, name: &[u8], line: u32) -> Result<Vec<u8>, AllocError>
    ensures { IfOk result (λ text. text.items ≡ malformed_line name.now line) }
{
    let mut text = b"saturn_verify: ".to_vec(alloc)?;
    put(&mut text, name)?;
    put(&mut text, b":")?;
    put_number(&mut text, line)?;
    put(&mut text, b": malformed\n")?;
    Ok(text)
}

fn accepted_line(alloc: Global, clauses: usize, steps: usize) -> Result<Vec<u8>, AllocError>
    ensures { IfOk result (λ text. text.items ≡ accepted_line clauses steps) }
{
    let mut text = b"verified ".to_vec(alloc)?;
    put_number(&mut text, clauses)?;
    put(&mut text, b" ")?;
    put_number(&mut text, steps)?;
    put(&mut text, b"\n")?;
    Ok(text)
}

fn rejected_line(alloc: Global, step: usize) -> Result<Vec<u8>, AllocError>
    ensures { IfOk result (λ text. text.items ≡ rejected_line step) }
{
    let mut text = b"rejected ".to_vec(alloc)?;
    put_number(&mut text, step)?;
    put(&mut text, b"\n")?;
    Ok(text)
}

/// The line for what the file of this name is.
pub fn line_of(alloc: Global, name: &str, finding: Finding) -> Result<Vec<u8>, AllocError>
    ensures { IfOk result (λ text. text.items ≡ line_of name.now finding) }
{
    match finding {
        Finding::TooLong => b"saturn_verify: limit input 268435457\n".to_vec(alloc),
        Finding::Malformed { line } => malformed_line(alloc, name.as_bytes(), line),
        Finding::Accepted { clauses, steps } => accepted_line(alloc, clauses, steps),
        Finding::Rejected { step } => rejected_line(alloc, step),
    }
}

/// The line for a file that was not read.
pub fn unread_line(alloc: Global, name: &str) -> Result<Vec<u8>, AllocError>
    ensures { IfOk result (λ text. text.items ≡ unread_line name.now) }
{
    let mut text = b"saturn_verify: cannot read ".to_vec(alloc)?;
    put(&mut text, name.as_bytes())?;
    put(&mut text, b"\n")?;
    Ok(text)
}
