//! The path of a misfit, in an array of the caller.

ghost use Rattle.std.specs.Prelude.{◌≡◌, ◌≤◌, length};
ghost use Rattle.csn_rule.specs.Buffers.{copied};

use csn_encode::Path;

/// Copies as many steps of a path as there is room for; the rest of the array stays.
pub fn copy_path(path: &Path, out: &mut [u32])
    ensures { out.new ≡ copied path.now out.old }
{
    let most = out.len().min(path.len() as usize);
    for i in 0..most {
        out[i] = path.get(i as u32);
    }
}
