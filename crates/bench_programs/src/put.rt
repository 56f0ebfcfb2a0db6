// Bytes and numbers behind the bytes that are there already.

ghost use Rattle.std.specs.Fmt.{decimal};
ghost use Rattle.std.specs.Prelude.{◌≡◌, ◌++◌, OnOk};

use itoa::{Buffer, Integer};
use sc_base::OutOfMemory;

/// Puts bytes.
pub(crate) fn put(out: &mut Vec<u8>, bytes: &[u8]) -> Result<(), OutOfMemory>
    ensures { OnOk result (out.new.items ≡ out.old.items ++ bytes.now) }
{
    out.extend_from_slice(bytes)?;
    Ok(())
}

/// Puts bytes and then a number in decimal digits.
pub(crate) fn put_numbered(out: &mut Vec<u8>, bytes: &[u8], n: u32) -> Result<(), OutOfMemory>
    ensures { OnOk result (out.new.items ≡ out.old.items ++ (bytes.now ++ decimal n)) }
{
    let mut buffer = Buffer::new();
    put(out, bytes)?;
    put(out, buffer.format(n).as_bytes())
}
