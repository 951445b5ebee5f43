//! Buffers of the caller.

ghost use Rattle.std.specs.Prelude.{◌≡◌};
ghost use Rattle.csn_rule.specs.Buffers.{copied};

/// Copies as many items, which may be bytes, as there is room for; the rest of the buffer stays.
pub fn copy_into<T: Copy>(items: &[T], out: &mut [T])
    ensures { out.new ≡ copied items.now out.old }
{
    let most = items.len().min(out.len());
    out[..most].copy_from_slice(&items[..most]);
}
