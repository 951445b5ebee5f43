ghost use Rattle.std.specs.Prelude.{◌≡◌, ◌≤◌, [], length, IfOk, IfErr};
ghost use Rattle.csn_bits.specs.declared.feed.TheConstants.{MOST_LINE};
ghost use Rattle.csn_treetext.specs.declared.version.Version.TheVariants.{First, Second};
ghost use Rattle.csn_treetext.specs.Place.{IsTextOf, TreeText, OldText, IsFaultOf};

use crate::fault::TextFault;
use crate::next::{Next, Taken};
use crate::source::Source;
use crate::stack::Stack;
use crate::steps::take;
use crate::version::Version;
use csn_desc::Tree;
use std::alloc::Global;

/// The tree of a text in the second version.
pub fn read_tree(alloc: Global, text: &[u8]) -> Result<Tree, TextFault>
    requires { length text.now ≤ MOST_LINE }
    ensures ok { IfOk result (λ tree. TreeText tree text.now) }
    ensures refused { IfErr result (λ fault. IsFaultOf Second text.now fault) }
{
    read_text(alloc, Version::Second, text)
}

/// The tree of a text in the first version.
pub fn read_old_tree(alloc: Global, text: &[u8]) -> Result<Tree, TextFault>
    requires { length text.now ≤ MOST_LINE }
    ensures ok { IfOk result (λ tree. OldText tree text.now) }
    ensures refused { IfErr result (λ fault. IsFaultOf First text.now fault) }
{
    read_text(alloc, Version::First, text)
}

fn read_text(alloc: Global, version: Version, text: &[u8]) -> Result<Tree, TextFault>
    requires { length text.now ≤ MOST_LINE }
    ensures ok { IfOk result (λ tree. IsTextOf version tree text.now) }
    ensures refused { IfErr result (λ fault. IsFaultOf version text.now fault) }
{
    let source = Source {
        alloc,
        version,
        text,
    };
    let mut stack = Stack::new(alloc);
    read_source(source, &mut stack)
}

// The tree of what is read, where nothing has begun.
fn read_source(source: Source, stack: &mut Stack) -> Result<Tree, TextFault>
    requires line { length source.text.now ≤ MOST_LINE }
    requires nothing { stack.old ≡ [] }
    ensures ok { IfOk result (λ tree. IsTextOf source.entry.version tree source.entry.text.now) }
    ensures refused { IfErr result (λ fault. IsFaultOf source.entry.version source.entry.text.now fault) }
{
    let mut next = Next::Start;
    let mut at = 0;
    while at < source.text.len() {
        match take(source, stack, next, at)? {
            Taken::Up(other, end) => {
                next = other;
                at = end;
            }
            Taken::Whole(tree, end) => return whole(source.text, tree, end),
            Taken::Refused(place) => return Err(fault_at(place)),
        }
    }
    Err(fault_at(at))
}

// The tree whose text ends at a place, where a text ends there too.
fn whole(text: &[u8], tree: Tree, end: usize) -> Result<Tree, TextFault>
    requires { end ≤ MOST_LINE }
    ensures ok { IfOk result (λ whole. (whole ≡ tree) × (end ≡ length text.now)) }
    ensures refused { IfErr result (λ fault. (fault ≡ TextFault.Place end) × ¬ (end ≡ length text.now)) }
{
    if end == text.len() {
        Ok(tree)
    } else {
        Err(fault_at(end))
    }
}

// The fault at a place in a line.
fn fault_at(place: usize) -> TextFault
    requires { place ≤ MOST_LINE }
    ensures { result ≡ TextFault.Place place }
{
    TextFault::Place {
        place: place as u32,
    }
}
