ghost use Rattle.std.specs.Prelude.{◌≡◌, ◌++◌, [], ◌∷◌, IfOk, OnOk};
ghost use Rattle.csn_places.specs.Origins.{at};

use csn_bits::NoMemory;
use csn_desc::Listed;
use csn_lexer::MOST_TEXT;
use std::alloc::Global;

/// Where a node comes from.
#[derive(Drop)]
pub struct Origin {
    /// The place in the text, in bytes from 0, of the first token of the part that gives the node.
    pub place: u32,
    /// The places of the names that were put in round the part, the outermost first. At each of them stands
    /// the `<` of a name, and the part or the next of these names stands in the rule of that name.
    pub names: PutIn,
}

/// The places of names in the text, in bytes from 0.
pub type PutIn = Listed<u32, MOST_TEXT>;

/// The same places, again.
fn copy(alloc: Global, names: &PutIn) -> Result<PutIn, NoMemory>
    ensures { IfOk result (λ copied. copied ≡ names.now) }
{
    let mut copied = PutIn::new(alloc);
    for at in 0..names.len() {
        copied.add(*names.get(at))?;
    }
    Ok(copied)
}

/// The same places, and one name more that is put in.
pub(crate) fn with_name(alloc: Global, names: &PutIn, place: u32) -> Result<PutIn, NoMemory>
    ensures { IfOk result (λ more. more ≡ names.now ++ place ∷ []) }
{
    let mut more = copy(alloc, names)?;
    more.add(place)?;
    Ok(more)
}

/// Adds where a node comes from.
pub(crate) fn push_origin(
    alloc: Global,
    names: &PutIn,
    place: u32,
    out: &mut Vec<Origin>,
) -> Result<(), NoMemory>
    ensures { OnOk result (out.new.items ≡ out.old.items ++ at place names.now ∷ []) }
{
    let names = copy(alloc, names)?;
    out.push(Origin { place, names })?;
    Ok(())
}
