ghost use Rattle.std.specs.Prelude.{◌≡◌, ◌+◌, ◌≤◌, ◌++◌, OnOk, length, vec_len, vec_capacity};
ghost use Rattle.csn_movetext.specs.Kept.{Extends};

use csn_bits::NoMemory;

/// Room for so many more bytes, so that these can be pushed with no further test.
#[inline(always)]
pub(crate) fn room(out: &mut Vec<u8>, more: usize) -> Result<(), NoMemory>
    ensures room { OnOk result (vec_len out.new + more ≤ vec_capacity out.new) }
    ensures items { out.new.items ≡ out.old.items }
{
    if out.capacity() - out.len() < more {
        make_room(out, more)?;
    }
    Ok(())
}

// Room for so many more bytes, where there is none.
#[cold]
#[inline(never)]
fn make_room(out: &mut Vec<u8>, more: usize) -> Result<(), NoMemory>
    ensures room { OnOk result (vec_len out.new + more ≤ vec_capacity out.new) }
    ensures items { out.new.items ≡ out.old.items }
{
    out.reserve(more)?;
    Ok(())
}

/// Adds a text.
#[inline(always)]
pub(crate) fn push_text(out: &mut Vec<u8>, text: &[u8]) -> Result<(), NoMemory>
    ensures text { OnOk result (out.new.items ≡ out.old.items ++ text.now) }
    ensures extends { Extends out.old.items out.new.items }
{
    room(out, text.len())?;
    push_within(out, text)
}

/// Adds a text that there is room for. Most have a few bytes, which need no copy.
#[inline(always)]
pub(crate) fn push_within(out: &mut Vec<u8>, text: &[u8]) -> Result<(), NoMemory>
    requires room { vec_len out.old + length text.now ≤ vec_capacity out.old }
    ensures text { OnOk result (out.new.items ≡ out.old.items ++ text.now) }
    ensures extends { Extends out.old.items out.new.items }
{
    match text {
        [] => {}
        [byte] => out.push_reserved(*byte),
        [first, second] => {
            out.push_reserved(*first);
            out.push_reserved(*second);
        }
        [first, second, third] => {
            out.push_reserved(*first);
            out.push_reserved(*second);
            out.push_reserved(*third);
        }
        [first, second, third, fourth] => {
            out.push_reserved(*first);
            out.push_reserved(*second);
            out.push_reserved(*third);
            out.push_reserved(*fourth);
        }
        _ => out.extend_from_slice(text)?,
    }
    Ok(())
}
