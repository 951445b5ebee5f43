//! The text of a node whose strings have as many bits each, with gaps for the numbers of its fields.

ghost use Rattle.std.specs.Prelude.{◌≤◌};

use crate::digits::push_number;
use crate::room::push_text;
use csn_bits::NoMemory;
use std::alloc::Global;
use std::mem;

/// The most bits that stand behind a field.
const MOST_BEHIND: u32 = 56;

/// What a field counts to the size of a template, in bytes.
const FIELD_SIZE: usize = 32;

/// The most that a template has.
const MOST_SIZE: usize = 512;

/// A text with a field behind it.
#[derive(Drop)]
struct Piece {
    text: Vec<u8>,
    /// How many bits the field has, and how many others stand behind them.
    width: u32,
    behind: u32,
    ghost few: { width ≤ 56 },
    ghost low: { behind ≤ 56 },
}

impl Piece {
    ghost use Rattle.std.specs.Prelude.{◌≡◌, ◌++◌, OnOk};
    ghost use Rattle.csn_movetext.specs.Kept.{Extends};
    ghost use Rattle.csn_movetext.specs.Templates.{piece_text};

    /// Adds the text, and the field in the bits of a number.
    #[inline(always)]
    fn write(&self, out: &mut Vec<u8>, number: u64) -> Result<(), NoMemory>
        ensures text { OnOk result (out.new.items ≡ out.old.items ++ piece_text self.now number) }
        ensures extends { Extends out.old.items out.new.items }
    {
        push_text(out, self.text.as_slice())?;
        push_number(out, (number >> self.behind) % (1 << self.width))
    }
}

/// What is written of a node whose strings have as many bits each: some pieces, and a text behind them.
#[derive(Drop)]
pub(crate) struct Template {
    pieces: Vec<Piece>,
    tail: Vec<u8>,
    /// How many bytes it takes, at most.
    size: usize,
}

impl Template {
    ghost use Rattle.std.specs.Prelude.{◌≡◌, ℕ, ◌+◌, ◌≤◌, ◌/◌, ◌%◌, ◌^◌, [], ◌++◌, IsTrue, OnOk, IfOk};
    ghost use Rattle.std.specs.Fmt.{decimal};
    ghost use Rattle.csn_movetext.specs.Kept.{Extends};
    ghost use Rattle.csn_movetext.specs.Templates.{filled};

    /// No text.
    pub fn new(alloc: Global) -> Template
        ensures { (number : ℕ) → filled result number ≡ [] }
    {
        Template {
            pieces: Vec::new(alloc),
            tail: Vec::new(alloc),
            size: 0,
        }
    }

    /// Adds what is written for the bits that a number ends in.
    #[inline(always)]
    pub fn write(&self, out: &mut Vec<u8>, number: u64) -> Result<(), NoMemory>
        ensures text { OnOk result (out.new.items ≡ out.old.items ++ filled self.now number) }
        ensures extends { Extends out.old.items out.new.items }
    {
        for piece in &self.pieces {
            piece.write(out, number)?;
        }
        push_text(out, self.tail.as_slice())
    }

    /// How many bytes it takes, at most.
    pub fn size(&self) -> usize {
        self.size
    }

    /// Adds a text.
    pub fn push_text(&mut self, text: &[u8]) -> Result<(), NoMemory>
        ensures { OnOk result ((number : ℕ) → filled self.new number ≡ filled self.old number ++ text.now) }
    {
        self.size = self.size.saturating_add(text.len());
        Ok(self.tail.extend_from_slice(text)?)
    }

    /// Adds a field.
    pub fn push_field(&mut self, width: u32, behind: u32) -> Result<(), NoMemory>
        requires width { width ≤ 56 }
        requires behind { behind ≤ 56 }
        ensures { OnOk result ((number : ℕ) → filled self.new number
            ≡ filled self.old number ++ decimal (number / 2 ^ behind % 2 ^ width)) }
    {
        self.size = self.size.saturating_add(FIELD_SIZE);
        let none = Vec::new(*self.tail.allocator());
        let text = mem::replace(&mut self.tail, none);
        let piece = Piece {
            text,
            width,
            behind,
        };
        Ok(self.pieces.push(piece)?)
    }

    /// Adds what is written of a part behind which so many bits stand. Answers whether there was room for it.
    pub fn push_part(&mut self, part: &Template, behind: u32) -> Result<bool, NoMemory>
        requires { behind ≤ 56 }
        ensures { IfOk result (λ done. IsTrue done → (number : ℕ) → filled self.new number
            ≡ filled self.old number ++ filled part.now (number / 2 ^ behind)) }
    {
        for piece in &part.pieces {
            let place = piece.behind + behind;
            if place > MOST_BEHIND {
                return Ok(false);
            }
            self.push_text(piece.text.as_slice())?;
            self.push_field(piece.width, place)?;
        }
        self.push_text(part.tail.as_slice())?;
        Ok(self.size <= MOST_SIZE)
    }
}
