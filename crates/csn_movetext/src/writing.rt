ghost use Rattle.std.specs.Prelude.{◌≡◌, ◌≤◌};
ghost use Rattle.csn_json.specs.Forms.{gap};
ghost use Rattle.csn_movetext.specs.Openings.{leaf_width};
ghost use Rattle.csn_movetext.specs.Told.{IsTold};

use crate::digits::{push_number, push_octets};
use crate::room::{push_within, room};
use crate::template::Template;
use csn_bits::NoMemory;
use csn_desc::{Count, Node};
use csn_json::TreeForm;

/// The most bits of a leaf that is written as one number.
const MOST_HELD: u32 = 64;

/// What is written of a tree while the moves of its block come.
#[derive(Drop)]
pub(crate) struct Writing {
    pub out: Vec<u8>,
    /// Whether the last move left a node.
    left: bool,
    /// Whether the open leaf has more bits than are held, so that its first octets are written.
    long: bool,
    /// How many of its bits are held, the last ones, and the number that they write.
    held: u32,
    bits: u64,
    ghost few: { held ≤ 64 },
}

impl Writing {
    ghost use Rattle.std.specs.Prelude.{◌≡◌, ℕ, ◌+◌, ◌*◌, ◌<◌, ◌≤◌, ◌^◌, ◌++◌, List, Option, Some, true, false};
    ghost use Rattle.std.specs.Prelude.{codes, length, take, OnOk, vec_len, vec_capacity};
    ghost use Rattle.csn_bits.specs.Octets.{IsBits};
    ghost use Rattle.csn_bits.specs.Numbers.{low_bits, number_of};
    ghost use Rattle.csn_bits.specs.Line.{written};
    ghost use Rattle.csn_json.specs.Forms.{octets_sign, gap_after};
    ghost use Rattle.csn_movetext.specs.Templates.{filled};
    ghost use Rattle.csn_movetext.specs.Writing.{WritingV, bits_text, entered, has_width, shut, passed, part_left, closed, left_node, gathering};
    ghost use Rattle.csn_movetext.specs.Kept.{KeptV, kept_of, Shows, Flushed, sign, Extends};

    /// Nothing of a tree, behind these bytes.
    pub fn new(out: Vec<u8>) -> Writing
        ensures { kept_of result ≡ record { text = out.items; left = false; long = false; held = 0; bits = 0 } }
    {
        Writing {
            out,
            left: false,
            long: false,
            held: 0,
            bits: 0,
        }
    }

    /// Nothing of a tree again, behind the first of the bytes.
    pub fn restart(&mut self, start: usize)
        ensures { kept_of self.new ≡ record { text = take start self.old.out.items; left = false; long = false; held = 0; bits = 0 } }
    {
        self.out.truncate(start);
        self.left = false;
        self.long = false;
        self.held = 0;
        self.bits = 0;
    }

    /// A node with this opening is entered.
    #[inline(always)]
    pub fn enter(&mut self, form: TreeForm, opening: &[u8]) -> Result<(), NoMemory>
        ensures entered { OnOk result ((w next : WritingV) → Shows form (kept_of self.old) w
            → entered form opening.now w ≡ Some next → Shows form (kept_of self.new) next) }
        ensures extends { Extends self.old.out.items self.new.out.items }
    {
        room(&mut self.out, opening.len() + 1)?;
        if self.left {
            self.out.push_reserved(gap(form));
            self.left = false;
        }
        push_within(&mut self.out, opening)
    }

    /// Whether bits of a leaf are held or written.
    #[inline(always)]
    pub fn is_open(&self) -> bool
        ensures held { result ≡ false → self.now.held ≡ 0 }
        ensures long { result ≡ false → self.now.long ≡ false }
    {
        self.long || self.held > 0
    }

    /// All of a node is written at once as a text, for the bits that a number ends in.
    #[inline(always)]
    pub fn whole(&mut self, template: &Template, number: u64) -> Result<(), NoMemory>
        ensures whole { OnOk result (kept_of self.new ≡ record {
          text = self.old.out.items ++ (gap_after TreeForm.Text self.old.left ++ filled template.now number);
          left = true;
          long = self.old.long;
          held = self.old.held;
          bits = self.old.bits;
        }) }
        ensures extends { Extends self.old.out.items self.new.out.items }
    {
        self.part(TreeForm::Text)?;
        self.left = true;
        template.write(&mut self.out, number)
    }

    // What stands before a node, where the last move left one.
    #[inline(always)]
    fn part(&mut self, form: TreeForm) -> Result<(), NoMemory>
        ensures part { OnOk result (kept_of self.new ≡ record {
          text = self.old.out.items ++ gap_after form self.old.left;
          left = self.old.left;
          long = self.old.long;
          held = self.old.held;
          bits = self.old.bits;
        }) }
        ensures extends { Extends self.old.out.items self.new.out.items }
    {
        room(&mut self.out, 1)?;
        if self.left {
            self.out.push_reserved(gap(form));
        }
        Ok(())
    }

    /// The open leaf takes the last `count` bits of a number.
    pub fn take(&mut self, form: TreeForm, number: u64, count: u32) -> Result<(), NoMemory>
        requires few { count ≤ 56 }
        ensures took { OnOk result ((w : WritingV) → Shows form (kept_of self.old) w
            → Shows form (kept_of self.new) (gathering w (low_bits count number))) }
        ensures extends { Extends self.old.out.items self.new.out.items }
    {
        let value = number % (1 << count);
        if self.held + count > MOST_HELD {
            self.octets(form)?;
            self.add(value, count);
            return Ok(());
        }
        self.add(value, count);
        Ok(())
    }

    /// A node is left.
    #[inline(always)]
    pub fn leave(&mut self, form: TreeForm, node: &Node) -> Result<(), NoMemory>
        ensures left_node { OnOk result ((w next : WritingV) → Shows form (kept_of self.old) w
            → left_node form node.now w ≡ Some next → Shows form (kept_of self.new) next) }
        ensures extends { Extends self.old.out.items self.new.out.items }
    {
        match node {
            Node::Seq(_) | Node::Times { .. } | Node::Many(_) | Node::Trunc(_) => {
                Ok(self.shut(b']')?)
            }
            Node::Spare(_) => self.close(form, true),
            Node::Field { .. } => self.close(form, is_told(node)),
            Node::Pad => self.close(form, false),
            Node::Rest => self.close(form, false),
            Node::Choice(_) | Node::Named { .. } => Ok(self.leave_part(form)?),
            Node::Lits(_) | Node::Null | Node::Window { .. } => {
                self.pass();
                Ok(())
            }
        }
    }

    // A node is left that writes one byte then.
    #[inline(always)]
    fn shut(&mut self, byte: u8) -> Result<(), NoMemory>
        ensures shut { OnOk result ((form : TreeForm) (w next : WritingV) → Shows form (kept_of self.old) w
            → shut byte w ≡ Some next → Shows form (kept_of self.new) next) }
        ensures extends { Extends self.old.out.items self.new.out.items }
    {
        room(&mut self.out, 1)?;
        self.out.push_reserved(byte);
        self.left = true;
        Ok(())
    }

    // A node is left whose part has a number or a label.
    #[inline(always)]
    fn leave_part(&mut self, form: TreeForm) -> Result<(), NoMemory>
        ensures part_left { OnOk result ((w next : WritingV) → Shows form (kept_of self.old) w → part_left form w ≡ Some next
            → Shows form (kept_of self.new) next) }
        ensures extends { Extends self.old.out.items self.new.out.items }
    {
        match form {
            TreeForm::Text => self.pass(),
            TreeForm::Json => self.shut(b'}')?,
        }
        Ok(())
    }

    // A node that writes nothing where it is left.
    #[inline(always)]
    fn pass(&mut self)
        ensures passed { (form : TreeForm) (w next : WritingV) → Shows form (kept_of self.old) w → passed w ≡ Some next
            → Shows form (kept_of self.new) next }
        ensures extends { Extends self.old.out.items self.new.out.items }
    {
        self.left = true;
    }

    // Holds more bits.
    fn add(&mut self, value: u64, count: u32)
        requires room { self.now.held + count ≤ 64 }
        requires few { count ≤ 56 }
        requires value { value < 2 ^ count }
        ensures held { self.new.held ≡ self.old.held + count }
        ensures bits { self.old.bits < 2 ^ self.old.held → self.new.bits ≡ self.old.bits * 2 ^ count + value }
        ensures out { self.new.out.items ≡ self.old.out.items }
        ensures left { self.new.left ≡ self.old.left }
        ensures long { self.new.long ≡ self.old.long }
    {
        self.bits = self.bits << count | value;
        self.held += count;
    }

    // Writes the sign before the octets of a leaf, where they are not begun.
    fn begin_long(&mut self, form: TreeForm) -> Result<(), NoMemory>
        ensures out { OnOk result (self.new.out.items ≡ self.old.out.items ++ sign form self.old.long) }
        ensures long { OnOk result (self.new.long ≡ true) }
        ensures held { self.new.held ≡ self.old.held }
        ensures bits { self.new.bits ≡ self.old.bits }
        ensures left { self.new.left ≡ self.old.left }
        ensures extends { Extends self.old.out.items self.new.out.items }
    {
        if !self.long {
            match form {
                TreeForm::Text => self.out.push(b'x')?,
                TreeForm::Json => {}
            }
            self.long = true;
        }
        Ok(())
    }

    // Writes the whole octets of the held bits.
    fn octets(&mut self, form: TreeForm) -> Result<(), NoMemory>
        ensures flushed { OnOk result ((b : List ℕ) → IsBits b → length b ≡ self.old.held → number_of b ≡ self.old.bits
            → Flushed (self.old.out.items ++ sign form self.old.long) self.new.out.items b self.new.held self.new.bits) }
        ensures few { OnOk result (self.new.held < 8) }
        ensures long { OnOk result (self.new.long ≡ true) }
        ensures left { self.new.left ≡ self.old.left }
        ensures extends { Extends self.old.out.items self.new.out.items }
    {
        self.begin_long(form)?;
        let rest = self.held % 8;
        push_octets(&mut self.out, self.bits >> rest, self.held / 8)?;
        self.bits %= 1 << rest;
        self.held = rest;
        Ok(())
    }

    // The open leaf is left. `told` says whether its width is known.
    fn close(&mut self, form: TreeForm, told: bool) -> Result<(), NoMemory>
        ensures closed { OnOk result ((w next : WritingV) (width : Option ℕ) → IsTold width told → Shows form (kept_of self.old) w
            → closed form width w ≡ Some next → Shows form (kept_of self.new) next) }
        ensures extends { Extends self.old.out.items self.new.out.items }
    {
        match form {
            TreeForm::Text => self.end_text(told)?,
            TreeForm::Json => self.end_string()?,
        }
        self.left = true;
        self.long = false;
        self.held = 0;
        self.bits = 0;
        Ok(())
    }

    // Writes the rest of the text of a leaf.
    fn end_text(&mut self, told: bool) -> Result<(), NoMemory>
        ensures text { OnOk result ((w : WritingV) (width : Option ℕ) → IsTold width told → Shows TreeForm.Text (kept_of self.old) w
            → has_width width w.gathered ≡ true → self.new.out.items ≡ w.text ++ bits_text width w.gathered) }
        ensures extends { Extends self.old.out.items self.new.out.items }
    {
        if self.long {
            self.end_line(TreeForm::Text)?;
        } else if told {
            push_number(&mut self.out, self.bits)?;
        } else if self.held == 0 {
            self.out.push(b'b')?;
        } else {
            push_number(&mut self.out, u64::from(self.held))?;
            self.out.push(b'\'')?;
            push_number(&mut self.out, self.bits)?;
        }
        Ok(())
    }

    // Writes the rest of a leaf's block line, and the quote behind it.
    fn end_string(&mut self) -> Result<(), NoMemory>
        ensures string { OnOk result ((w : WritingV) → Shows TreeForm.Json (kept_of self.old) w
            → self.new.out.items ≡ w.text ++ (written w.gathered ++ codes "\"")) }
        ensures extends { Extends self.old.out.items self.new.out.items }
    {
        if self.long || self.held > 0 {
            self.end_line(TreeForm::Json)?;
        } else {
            self.out.push(b'.')?;
        }
        self.out.push(b'"')?;
        Ok(())
    }

    // Writes the rest of the block line of a leaf, which has bits.
    fn end_line(&mut self, form: TreeForm) -> Result<(), NoMemory>
        ensures line { OnOk result ((w : WritingV) → 1 ≤ length w.gathered → Shows form (kept_of self.old) w
            → self.new.out.items ≡ w.text ++ (octets_sign form ++ written w.gathered)) }
        ensures extends { Extends self.old.out.items self.new.out.items }
    {
        self.octets(form)?;
        if self.held > 0 {
            push_octets(&mut self.out, self.bits << (8 - self.held), 1)?;
            self.out.push(b'/')?;
            self.out.push(b'0' + self.held as u8)?;
        }
        Ok(())
    }
}

// What stands between nodes.
fn gap(form: TreeForm) -> u8
    ensures { result ≡ gap form }
{
    match form {
        TreeForm::Text => b' ',
        TreeForm::Json => b',',
    }
}

// Whether the width of a leaf is known before its bits.
fn is_told(node: &Node) -> bool
    ensures { IsTold (leaf_width node.now) result }
{
    leaf_width(node).is_some()
}

/// The constant width of a leaf, where a text has it before the bits.
pub(crate) fn leaf_width(node: &Node) -> Option<u64>
    ensures { result ≡ leaf_width node.now }
{
    match node {
        Node::Spare(_) => Some(1),
        Node::Field {
            unit,
            count: Count::Fixed(n),
        } => {
            let width = u64::from(*unit) * u64::from(*n);
            if 1 <= width && width <= 64 {
                Some(width)
            } else {
                None
            }
        }
        _ => None,
    }
}
