//! The nodes that have no parts, written along the text of their tree.

ghost use Rattle.std.specs.Prelude.{◌≡◌, ℕ, ◌*◌, ◌<◌, ◌≤◌, Some, length, IfSome};
ghost use Rattle.csn_json.specs.declared.form.TreeForm.TheVariants.{Text as TextForm};
ghost use Rattle.csn_encode.specs.Following.{BeginsWith};
ghost use Rattle.csn_encode.specs.Writing.{AddsNode};
ghost use Rattle.csn_bits.specs.Octets.{most_bits};
ghost use Rattle.csn_desc.specs.declared.node.Count.{Count as CountV};
ghost use Rattle.csn_bits.specs.declared.packed.TheConstants.{MOST_ADDED};
ghost use Rattle.csn_desc.specs.declared.node.Node.TheVariants as node;
ghost use Rattle.csn_desc.specs.Nodes.{DescV};
ghost use Rattle.csn_desc.specs.Values.{Values, count_of};

use crate::draft::Draft;
use crate::text::{behind, behind_nothing, leaf, number};
use csn_bits::{MOST_ADDED, MOST_BITS};
use csn_desc::{Reading, Run, Symbol};
use csn_json::TreeForm;
use std::alloc::Global;

impl Draft {
    /// Writes the tree of a literal.
    pub fn literal_text<'a>(
        &mut self,
        form: TreeForm,
        run: &Run,
        text: &'a [u8],
    ) -> Option<&'a [u8]>
        ensures { IfSome result (λ rest. BeginsWith form text.now (λ t. (d : DescV) (v : Values) → AddsNode d (node.Lits run.now) v t self.old self.new) rest.now) }
    {
        let rest = behind_nothing(form, text)?;
        let Ok(()) = self.spell(run) else {
            return None;
        };
        Some(rest)
    }

    /// Writes the tree of a node that takes no bits.
    pub fn null_text<'a>(&mut self, form: TreeForm, text: &'a [u8]) -> Option<&'a [u8]>
        requires { length self.old.bits ≤ most_bits }
        ensures { IfSome result (λ rest. BeginsWith form text.now (λ t. (d : DescV) (v : Values) → AddsNode d node.Null v t self.old self.new) rest.now) }
    {
        behind_nothing(form, text)
    }

    /// Writes the tree of a spare bit.
    pub fn spare_text<'a>(
        &mut self,
        form: TreeForm,
        alloc: Global,
        symbol: Symbol,
        reading: Reading,
        text: &'a [u8],
    ) -> Option<&'a [u8]>
        ensures { IfSome result (λ rest. BeginsWith form text.now (λ t. (d : DescV) (v : Values)
            → d.reading ≡ reading → AddsNode d (node.Spare symbol) v t self.old self.new) rest.now) }
    {
        let (tree, rest) = leaf(form, alloc, text)?;
        self.spare(symbol, reading, &tree).ok()?;
        Some(rest)
    }

    /// Writes the tree of spare padding.
    pub fn padding_text<'a>(
        &mut self,
        form: TreeForm,
        alloc: Global,
        reading: Reading,
        text: &'a [u8],
    ) -> Option<&'a [u8]>
        ensures { IfSome result (λ rest. BeginsWith form text.now (λ t. (d : DescV) (v : Values)
            → d.reading ≡ reading → AddsNode d node.Pad v t self.old self.new) rest.now) }
    {
        let (tree, rest) = leaf(form, alloc, text)?;
        self.padding(reading, &tree).ok()?;
        Some(rest)
    }

    /// Writes the tree of a rest of any bits.
    pub fn rest_text<'a>(
        &mut self,
        form: TreeForm,
        alloc: Global,
        text: &'a [u8],
    ) -> Option<&'a [u8]>
        ensures { IfSome result (λ rest. BeginsWith form text.now (λ t. (d : DescV) (v : Values) → AddsNode d node.Rest v t self.old self.new) rest.now) }
    {
        let (tree, rest) = leaf(form, alloc, text)?;
        self.rest(&tree).ok()?;
        Some(rest)
    }

    /// Writes the tree of a field that has so many bits.
    pub fn field_text<'a>(
        &mut self,
        form: TreeForm,
        alloc: Global,
        wanted: u32,
        text: &'a [u8],
    ) -> Option<&'a [u8]>
        ensures { IfSome result
            (λ rest. BeginsWith form text.now (λ t. (d : DescV) (v : Values) (unit : ℕ) (count : CountV) (n : ℕ)
            → count_of v count ≡ Some n → wanted ≡ unit * n → AddsNode d (node.Field unit count)
            v t self.old self.new) rest.now) }
    {
        match form {
            TreeForm::Text if 0 < wanted && wanted <= MOST_ADDED => self.number_text(wanted, text),
            _ => self.wide_field_text(form, alloc, wanted, text),
        }
    }

    // The same in a text, of so few bits that it has a number.
    fn number_text<'a>(&mut self, wanted: u32, text: &'a [u8]) -> Option<&'a [u8]>
        requires some { 0 < wanted }
        requires few { wanted ≤ MOST_ADDED }
        ensures { IfSome result
            (λ rest. BeginsWith TextForm text.now (λ t. (d : DescV) (v : Values) (unit : ℕ) (count : CountV) (n : ℕ)
            → count_of v count ≡ Some n → wanted ≡ unit * n → AddsNode d (node.Field unit count)
            v t self.old self.new) rest.now) }
    {
        let (width, value_text) = number(text)?;
        if width != u64::from(wanted) || wanted > MOST_BITS - self.bits.len() {
            return None;
        }
        let (value, rest) = number(behind(value_text, b'\'')?)?;
        if value >> wanted != 0 {
            return None;
        }
        let Ok(()) = self.bits.add(value, wanted) else {
            return None;
        };
        Some(rest)
    }

    // The same, by the tree of the field.
    fn wide_field_text<'a>(
        &mut self,
        form: TreeForm,
        alloc: Global,
        wanted: u32,
        text: &'a [u8],
    ) -> Option<&'a [u8]>
        ensures { IfSome result
            (λ rest. BeginsWith form text.now (λ t. (d : DescV) (v : Values) (unit : ℕ) (count : CountV) (n : ℕ)
            → count_of v count ≡ Some n → wanted ≡ unit * n → AddsNode d (node.Field unit count)
            v t self.old self.new) rest.now) }
    {
        let (tree, rest) = leaf(form, alloc, text)?;
        self.field(wanted, &tree).ok()?;
        Some(rest)
    }
}
