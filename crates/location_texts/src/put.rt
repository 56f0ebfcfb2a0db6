// Bytes and numbers behind the bytes that are there already.

ghost use Rattle.std.specs.Prelude.{◌≡◌, ◌++◌, OnOk};
ghost use Rattle.sc_world.specs.Paths.{place_text};

use itoa::{Buffer, Integer};
use sc_base::{OutOfMemory, Pos};

/// Puts bytes.
pub(crate) fn put(out: &mut Vec<u8>, bytes: &[u8]) -> Result<(), OutOfMemory>
    ensures { OnOk result (out.new.items ≡ out.old.items ++ bytes.now) }
{
    out.extend_from_slice(bytes)?;
    Ok(())
}

/// Puts a number in decimal digits.
pub(crate) fn put_number<I: Integer>(out: &mut Vec<u8>, n: I) -> Result<(), OutOfMemory>
    ensures { OnOk result (out.new.items ≡ out.old.items ++ I.text n) }
{
    let mut buffer = Buffer::new();
    put(out, buffer.format(n).as_bytes())
}

/// Puts the line and the column of a place.
pub(crate) fn put_place(out: &mut Vec<u8>, at: Pos) -> Result<(), OutOfMemory>
    ensures { OnOk result (out.new.items ≡ out.old.items ++ place_text at) }
{
    put_number(out, at.line)?;
    put(out, b":")?;
    put_number(out, at.col)
}
