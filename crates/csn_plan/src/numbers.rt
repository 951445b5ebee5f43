//! Numbers in the lines that are written.

ghost use Rattle.std.specs.Prelude.{◌≡◌, ◌++◌, List, ℕ, map, OnOk, OnErr};
ghost use Rattle.std.specs.Fmt.{decimal};
ghost use Rattle.csn_plan.specs.Compiled.{spaced};

use itoa::Buffer;
use std::alloc::AllocError;

/// Writes a number in decimal.
pub fn push_number(out: &mut Vec<u8>, number: u32) -> Result<(), AllocError>
    ensures ok { OnOk result (out.new.items ≡ out.old.items ++ decimal number) }
    ensures err { OnErr result (out.new.items ≡ out.old.items) }
{
    let mut buffer = Buffer::new();
    out.extend_from_slice(buffer.format(number).as_bytes())
}

/// Writes numbers, with a space before each.
pub fn push_numbers(numbers: &[u32], out: &mut Vec<u8>) -> Result<(), AllocError>
    ensures ok { OnOk result (out.new.items ≡ out.old.items ++ spaced (map decimal numbers.now)) }
    ensures err { OnErr result ((tail : List ℕ) × (out.new.items ≡ out.old.items ++ tail)) }
{
    for number in numbers {
        out.push(b' ')?;
        push_number(out, *number)?;
    }
    Ok(())
}
