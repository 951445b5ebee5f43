//! What stands open within a rule, and what may come next.

ghost use Rattle.std.specs.Prelude.{◌≡◌, ◌<◌, [], ◌∷◌, ◌++◌, length, MatchOption, OnOk, OnErr, IfOk};

use crate::expr::{Branches, Expr, Exprs};
use crate::reader::progress::Progress;
use csn_bits::NoMemory;
use csn_desc::Label;
use std::alloc::Global;
use std::marker::Model;

/// What stands before the side that comes, in the same item.
#[derive(Drop)]
pub enum Joint {
    /// Nothing.
    Alone,
    /// A side and `&`.
    Window(Expr),
    /// A side, or two with `&` between, and `=`.
    Sends(Expr),
}

/// An expression as far as it is read: the alternatives that are whole, whether the next one stands
/// behind `!`, and of that one the items that are whole and what stands before the next side.
#[derive(Drop)]
pub struct Level {
    pub branches: Branches,
    pub error: bool,
    pub items: Exprs,
    pub joint: Joint,
}

/// What is open: braces, or a labelled part.
#[derive(Drop)]
pub enum Opening {
    Brace,
    Label(Label),
}

/// Open braces or an open labelled part: the place where it begins, and the expression round it.
#[derive(Drop)]
pub struct Frame {
    pub start: u32,
    pub opening: Opening,
    pub level: Level,
}

/// What is open, the innermost first.
#[derive(Drop)]
pub struct Frames {
    frames: Vec<Frame>,
}

/// What may come next.
#[derive(Drop)]
pub enum Mode {
    /// A side has to begin.
    Side,
    /// Behind `<`, at this place: a word has to come.
    Less(u32),
    /// Behind `<` and words.
    Name { start: u32, words: Label },
    /// Behind a base, which may have an exponent.
    Base(Expr),
    /// In an exponent.
    Exponent { base: Expr, progress: Progress },
    /// Behind a side that has no exponent any more.
    Done(Expr),
    /// Behind the `//` of a sequence.
    Slashes(Expr),
}

/// What is open, and the expression inside it as far as it is read.
#[derive(Drop)]
pub struct Within {
    pub frames: Frames,
    pub level: Level,
}

/// The body of a rule as far as it is read.
#[derive(Drop)]
pub struct Body {
    pub frames: Frames,
    pub level: Level,
    pub mode: Mode,
}

/// What a token leads to: more of the body, or its end.
#[derive(Drop)]
pub enum Next {
    Goes(Body),
    Ends(Expr),
}

impl Model for Frames {
    ghost use Rattle.std.specs.Prelude.{List, reverse};
    ghost use Rattle.csn_grammar.specs.declared.reader.body.Frame.{Frame};
    ghost use Rattle.std.specs.Coded.{codes};
    ghost use Rattle.csn_grammar.specs.ExprCode.{expr_code, branch_code};

    ghost Value = { List Frame };

    ghost coded = { Prim.hlevel (codes, expr_code, branch_code) };

    ghost view = { λ f. reverse f.frames.items };
}

impl Frames {
    /// Nothing is open. It takes no memory.
    pub fn new(alloc: Global) -> Frames
        ensures { result ≡ [] }
    {
        let frames = Vec::new(alloc);
        Frames { frames }
    }

    /// How much is open.
    pub fn len(&self) -> usize
        ensures { result ≡ length self.now }
    {
        self.frames.len()
    }

    /// The same with one more open inside.
    pub fn push(mut self, frame: Frame) -> Result<Frames, NoMemory>
        ensures { IfOk result (λ frames. frames ≡ frame ∷ self) }
    {
        match self.frames.push(frame) {
            Ok(()) => Ok(self),
            Err(failed) => {
                drop(failed.value);
                Err(NoMemory)
            }
        }
    }

    /// Takes off the innermost.
    pub fn pop(&mut self) -> Option<Frame>
        ensures { MatchOption result ((self.old ≡ []) × (self.new ≡ [])) (λ frame. self.old ≡ frame ∷ self.new) }
    {
        self.frames.pop()
    }
}
