//! Nodes all of whose bits can be read at once.

ghost use Rattle.std.specs.Prelude.{◌≡◌, ℕ, ◌<◌, ◌≤◌, IsTrue, [], length, replicate, slice_get, None, Some, IfOk, IfSome};
ghost use Rattle.csn_bits.specs.Numbers.{low_bits};
ghost use Rattle.csn_desc.specs.Nodes.{DescV};
ghost use Rattle.csn_desc.specs.TreeV.{TreeV};
ghost use Rattle.csn_desc.specs.Values.{Values};
ghost use Rattle.csn_desc.specs.Spelled.{symbol_bit};
ghost use Rattle.csn_desc.specs.Formed.{IsDescription};
ghost use Rattle.csn_desc.specs.Means.{NMeans};
ghost use Rattle.csn_certify.specs.Layouts.{HasLayout, AreLayouts};
ghost use Rattle.csn_certify.specs.LayoutParts.{IsShort, HasNodeLayout, HavePartsLayout, IsJoined};

use csn_bits::NoMemory;
use csn_desc::{Count, Desc, Node, Parts, Run, Symbol};
use std::alloc::Global;

/// The most bits that are read at once.
const MOST_WIDTH: u32 = 56;

/// How a node is laid out whose strings have as many bits each: the first of them are the same in all, and the others
/// any.
#[derive(Clone, Copy, Debug, PartialEq, Eq)]
pub struct Layout {
    /// How many bits there are.
    pub width: u32,
    /// How many of them, the first ones, are the same in all strings.
    pub fixed: u32,
    /// The number that these write.
    pub number: u64,
}

impl Layout {
    /// Whether the last bits of a number, as many as the layout has, are a string of the node, where no others are set.
    #[inline(always)]
    pub fn admits(&self, number: u64) -> bool
        requires within { self.now.fixed ≤ self.now.width }
        requires few { self.now.width ≤ 56 }
        ensures { IsTrue result → (d : DescV) (i o : ℕ) (v : Values) → HasLayout d i self.now
            → (t : TreeV) × NMeans d i o v (low_bits self.now.width number) t }
    {
        number >> (self.width - self.fixed) == self.number
    }

    /// No bits.
    fn empty() -> Layout
        ensures null { (d : DescV) → HasNodeLayout d Node.Null result }
        ensures parts { (d : DescV) → HavePartsLayout d [] result }
        ensures short { IsShort result }
    {
        Layout {
            width: 0,
            fixed: 0,
            number: 0,
        }
    }

    /// Another layout behind this one, where these are one.
    fn then(self, behind: Layout) -> Option<Layout>
        requires first { IsShort self }
        requires behind { IsShort behind }
        ensures short { IfSome result IsShort }
        ensures joined { IfSome result (IsJoined self behind) }
    {
        let width = self.width + behind.width;
        if width > MOST_WIDTH {
            return None;
        }
        if self.fixed == self.width {
            return Some(Layout {
                width,
                fixed: self.fixed + behind.fixed,
                number: self.number << behind.fixed | behind.number,
            });
        }
        if behind.fixed > 0 {
            return None;
        }
        Some(Layout {
            width,
            fixed: self.fixed,
            number: self.number,
        })
    }
}

/// The layouts of all nodes of a description, where they have one. Its nodes are gone through once, the last one first.
pub(crate) fn layouts(alloc: Global, desc: &Desc) -> Result<Vec<Option<Layout>>, NoMemory>
    ensures { IfOk result (λ layouts. AreLayouts desc.now layouts.items) }
{
    let count = desc.len();
    let mut layouts = no_layouts(alloc, count)?;
    for i in (0..count).rev() {
        let layout = layout_of(desc, i, layouts.as_slice());
        layouts[usize::from(i)] = layout;
    }
    Ok(layouts)
}

/// No layout of any of so many nodes.
fn no_layouts(alloc: Global, count: u16) -> Result<Vec<Option<Layout>>, NoMemory>
    ensures { IfOk result (λ layouts. layouts.items ≡ replicate count None) }
{
    Ok(vec![in alloc; None; usize::from(count)]?)
}

/// The layout of node `i`, by those of its parts.
fn layout_of(desc: &Desc, i: u16, layouts: &[Option<Layout>]) -> Option<Layout>
    requires description { IsDescription desc.now }
    requires node { i < length desc.now.nodes }
    requires layouts { AreLayouts desc.now layouts.now }
    ensures { IfSome result (HasLayout desc.now i) }
{
    if desc.counts(i) {
        return None;
    }
    match desc.node(i) {
        Node::Lits(run) => literal(run),
        Node::Null => Some(Layout::empty()),
        Node::Field { unit, count } => field(*unit, *count),
        Node::Seq(parts) => sequence(parts, layouts),
        Node::Named { part, .. } => layouts[usize::from(*part)],
        _ => None,
    }
}

/// The layout of a literal, where its bits are the same at all places.
fn literal(run: &Run) -> Option<Layout>
    ensures { IfSome result (λ layout. (d : DescV) → HasNodeLayout d (Node.Lits run.now) layout) }
{
    let width = run.len();
    if width > MOST_WIDTH {
        return None;
    }
    let mut number = 0;
    for at in 0..width {
        number = 2 * number + same_bit(*run.get(at))?;
    }
    Some(Layout {
        width,
        fixed: width,
        number,
    })
}

/// The bit that a symbol stands for, where it is the same at all places.
fn same_bit(symbol: Symbol) -> Option<u64>
    ensures { IfSome result (λ bit. (place : ℕ) → symbol_bit symbol place ≡ bit) }
{
    match symbol {
        Symbol::Zero => Some(0),
        Symbol::One => Some(1),
        Symbol::Low | Symbol::High => None,
    }
}

/// The layout of a field, where it has a constant number of units.
fn field(unit: u8, count: Count) -> Option<Layout>
    ensures { IfSome result (λ layout. (d : DescV) → HasNodeLayout d (Node.Field unit count) layout) }
{
    let Count::Fixed(n) = count else {
        return None;
    };
    let width = u64::from(unit) * u64::from(n);
    if width > u64::from(MOST_WIDTH) {
        return None;
    }
    Some(Layout {
        width: width as u32,
        fixed: 0,
        number: 0,
    })
}

/// The layout of a sequence, by those of its parts.
fn sequence(parts: &Parts, layouts: &[Option<Layout>]) -> Option<Layout>
    requires nodes { (at part : ℕ) → slice_get parts.now at ≡ Some part → part < length layouts.now }
    requires layouts { (d : DescV) × AreLayouts d layouts.now }
    ensures { IfSome result (λ layout. (d : DescV) → AreLayouts d layouts.now → HavePartsLayout d parts.now layout) }
{
    let mut behind = Layout::empty();
    for at in (0..parts.len()).rev() {
        let part = layouts[usize::from(parts.get(at))]?;
        behind = part.then(behind)?;
    }
    Some(behind)
}
