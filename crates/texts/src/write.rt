// Texts and numbers, appended.
ghost use Rattle.std.specs.Prelude.{◌≡◌, ◌++◌, decimal, OnOk};

use grid::Memory;
use itoa::Buffer;

/// Writes a text at the end.
pub fn put(out: &mut Vec<u8>, text: &[u8]) -> Result<(), Memory>
    ensures { OnOk result (out.new.items ≡ out.old.items ++ text.now) }
{
    out.extend_from_slice(text)?;
    Ok(())
}

/// Writes a number at the end.
pub fn put_number(out: &mut Vec<u8>, n: u64) -> Result<(), Memory>
    ensures { OnOk result (out.new.items ≡ out.old.items ++ decimal n) }
{
    let mut buffer = Buffer::new();
    put(out, buffer.format(n).as_bytes())
}
