//! Which of several names is most like one that is wanted.

ghost use Rattle.std.specs.Prelude.{◌≡◌, ◌-◌, ◌+◌, ◌/◌, ◌≤◌, ◌↔◌, IsTrue, length, max, reverse};
ghost use Rattle.csn_reasons.specs.Alike.{common};

/// How many bytes two names have alike at their beginning.
fn alike_first(a: &[u8], b: &[u8]) -> usize
    ensures { result ≡ common a.now b.now }
{
    let most = a.len().min(b.len());
    for at in 0..most {
        if a[at] != b[at] {
            return at;
        }
    }
    most
}

/// How many bytes two names have alike at their end.
fn alike_last(a: &[u8], b: &[u8]) -> usize
    ensures { result ≡ common (reverse a.now) (reverse b.now) }
{
    let most = a.len().min(b.len());
    for back in 0..most {
        if a[a.len() - 1 - back] != b[b.len() - 1 - back] {
            return back;
        }
    }
    most
}

/// How many bytes of the longer name stand between what both begin with and what both end with.
pub(crate) fn apart(a: &[u8], b: &[u8]) -> usize
    ensures { result ≡ max (length a.now) (length b.now) - common a.now b.now - common (reverse a.now) (reverse b.now) }
{
    let longer = a.len().max(b.len());
    longer
        .saturating_sub(alike_first(a, b))
        .saturating_sub(alike_last(a, b))
}

/// Whether two names that are so far apart are like each other.
pub(crate) fn is_near(apart: usize, wanted: &[u8]) -> bool
    ensures { IsTrue result ↔ (apart ≤ length wanted.now / 4 + 1) }
{
    apart.saturating_sub(1) <= wanted.len() / 4
}
