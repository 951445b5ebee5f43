ghost use Rattle.std.specs.Prelude.{◌≡◌, ◌↔◌, [], true, false, IsTrue, slice_index_or};

/// What a draw goes towards.
#[derive(Clone, Copy)]
pub(crate) struct Aim<'a> {
    /// For each node whether a block is wanted that goes through it.
    pub wanted: &'a [bool],
    /// Whether what is not wanted is to have few bits.
    pub short: bool,
    /// How many bits are drawn at most, where fewer than that are asked for.
    pub most: u32,
}

impl<'a> Aim<'a> {
    /// Any block of at most so many bits.
    pub fn any(most: u32) -> Aim<'a>
        ensures wanted { result.wanted.now ≡ [] }
        ensures short { result.short ≡ false }
        ensures most { result.most ≡ most }
    {
        Aim {
            wanted: &[],
            short: false,
            most,
        }
    }
}

/// Whether a block is wanted that goes through a node.
pub(crate) fn is_wanted(wanted: &[bool], i: u16) -> bool
    ensures { IsTrue result ↔ (slice_index_or wanted.now i false ≡ true) }
{
    let i = usize::from(i);
    i < wanted.len() && wanted[i]
}
