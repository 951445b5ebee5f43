//! What is told of a conflict.

ghost use Rattle.std.specs.Prelude.{◌≤◌, length};
ghost use Rattle.csn_plan.specs.declared.compiling.TheConstants.{MOST_DESCRIPTION};

use crate::asked::Asked;
use crate::example::Example;
use crate::nodes::{node_at, parents_of, part_of, way_up};
use crate::path::push_path;
use crate::sizes::{Size, sizes_of};
use crate::telling::{Told, more, say, tell, words};
use crate::tokens::{named_at, token_from, tokens_of};
use csn_bits::{Bits, BitsFault, NoMemory};
use csn_certify::Conflict;
use csn_desc::{Desc, MOST_NODES};
use csn_lexer::{Token, TokenKind};
use csn_look::Word;
use csn_places::Origin;
use std::alloc::Global;

/// The most nodes that are looked into for a bit.
const MOST_DEEP: u8 = 64;

/// What is known where a conflict is told.
#[derive(Clone, Copy)]
pub(crate) struct Scene<'a> {
    pub alloc: Global,
    pub asked: Asked<'a>,
    pub tokens: &'a [Token],
    pub desc: &'a Desc,
    pub places: &'a [Origin],
    pub parents: &'a [u16],
    pub sizes: &'a [Size],
    ghost fits: { length asked.text.now ≤ MOST_DESCRIPTION },
}

/// Writes what is told of a conflict of a description, whose nodes have these places.
pub(crate) fn tell_conflict(
    alloc: Global,
    out: &mut Vec<u8>,
    asked: Asked<'_>,
    desc: &Desc,
    places: &[Origin],
    conflict: &Conflict,
) -> Told
    requires { length asked.text.now ≤ MOST_DESCRIPTION }
{
    let tokens = tokens_of(alloc, asked.text)?;
    let parents = parents_of(alloc, desc)?;
    let sizes = sizes_of(alloc, desc)?;
    let scene = Scene {
        alloc,
        asked,
        tokens: tokens.as_slice(),
        desc,
        places,
        parents: parents.as_slice(),
        sizes: sizes.as_slice(),
    };
    scene.tell(out, conflict)
}

impl<'a> Scene<'a> {
    /// The example maker of the description.
    fn example(&self) -> Example<'a> {
        Example {
            desc: self.desc,
            sizes: self.sizes,
        }
    }

    fn tell(&self, out: &mut Vec<u8>, conflict: &Conflict) -> Told {
        match conflict {
            Conflict::TwoEmpty { node, i, j } => self.two_empty(out, *node, *i, *j),
            Conflict::NotFirm { node, i } => self.not_firm(out, *node, *i),
            Conflict::Overlap {
                node,
                octet,
                i,
                j,
                word_i,
                word_j,
            } => {
                self.node(out, *node, b"two alternatives begin alike")?;
                self.part(out, *node, *i, b"this alternative may begin ", word_i)?;
                self.part(out, *node, *j, b"and this one ", word_j)?;
                self.block(out, *node, *octet, word_i, word_j)?;
                words(out, OVERLAP)
            }
            Conflict::EmptyClash { node, octet, bit } => self.empty_clash(out, *node, *octet, *bit),
            Conflict::LoopClash { node, octet, bit } => self.loop_clash(out, *node, *octet, *bit),
            Conflict::NotLast { node, octet } => self.not_last(out, *node, *octet),
        }
    }

    fn two_empty(&self, out: &mut Vec<u8>, node: u16, i: u16, j: u16) -> Told {
        self.node(out, node, b"two alternatives have no bits")?;
        self.part(out, node, i, b"this one", &Word::new())?;
        self.part(out, node, j, b"and this one", &Word::new())?;
        words(out, TWO_EMPTY)
    }

    fn not_firm(&self, out: &mut Vec<u8>, node: u16, i: u16) -> Told {
        self.node(
            out,
            node,
            b"a part of this cannot be told by its first bits",
        )?;
        self.part(
            out,
            node,
            i,
            b"this part may have no bits, or begins with bits that are not looked at",
            &Word::new(),
        )?;
        words(out, NOT_FIRM)
    }

    fn empty_clash(&self, out: &mut Vec<u8>, node: u16, octet: u8, bit: u8) -> Told {
        self.node(
            out,
            node,
            b"a choice may have no bits, and what follows it begins alike",
        )?;
        let mut word = Word::new();
        word.push(bit % 2);
        for at in 0..MOST_NODES {
            let Some(part) = self.part_number(node, at) else {
                break;
            };
            if self.example().may_begin(MOST_DEEP, part, octet, bit) {
                self.part(out, node, at, b"this alternative may begin ", &word)?;
                break;
            }
        }
        self.follower(out, node, octet, bit)?;
        words(out, EMPTY_CLASH)
    }

    fn loop_clash(&self, out: &mut Vec<u8>, node: u16, octet: u8, bit: u8) -> Told {
        self.node(
            out,
            node,
            b"a repetition may end, and what follows it begins alike",
        )?;
        let mut word = Word::new();
        word.push(bit % 2);
        self.part(out, node, 0, b"one more turn may begin ", &word)?;
        self.follower(out, node, octet, bit)?;
        words(out, LOOP_CLASH)
    }

    fn not_last(&self, out: &mut Vec<u8>, node: u16, octet: u8) -> Told {
        self.node(
            out,
            node,
            b"this takes all bits that are left, and something follows it",
        )?;
        let up = way_up(self.alloc, self.parents, node)?;
        let zero = self.example().follower(&up, octet, 0);
        let one = self.example().follower(&up, octet, 1);
        match (zero, one) {
            (Some(part), _) => self.place(out, part, b"this follows it")?,
            (None, Some(part)) => self.place(out, part, b"this follows it")?,
            (None, None) => (),
        }
        words(out, NOT_LAST)
    }

    /// Writes what may follow a node and begin with a bit.
    fn follower(&self, out: &mut Vec<u8>, node: u16, octet: u8, bit: u8) -> Told {
        let up = way_up(self.alloc, self.parents, node)?;
        let digit = if bit == 0 { b"0" } else { b"1" };
        match self.example().follower(&up, octet, bit) {
            Some(part) => {
                let place = self.place_of(part);
                tell(
                    out,
                    self.asked,
                    place,
                    &[b"what follows may begin ", digit.as_slice()],
                )
            }
            None => Ok(()),
        }
    }

    /// The number of a part of a node.
    fn part_number(&self, node: u16, at: u16) -> Option<u16> {
        part_of(node_at(self.desc, node)?, at)
    }

    /// Where a node stands.
    fn place_of(&self, node: u16) -> u32 {
        match self.places.get(node as usize) {
            Some(origin) => origin.place,
            None => 0,
        }
    }

    /// Writes where a node stands, and some words.
    fn place(&self, out: &mut Vec<u8>, node: u16, text: &[u8]) -> Told {
        tell(out, self.asked, self.place_of(node), &[text])
    }

    /// Writes the node of a conflict, the rules round it, and the path to it.
    fn node(&self, out: &mut Vec<u8>, node: u16, text: &[u8]) -> Told {
        self.place(out, node, text)?;
        say(out, &[b"  in "])?;
        self.rules(out, node)?;
        let up = way_up(self.alloc, self.parents, node)?;
        let mut path = Vec::new(self.alloc);
        push_path(self.desc, &up, &mut path)?;
        if path.len() > 0 {
            say(out, &[b", at ", path.as_slice()])?;
        }
        out.push(b'\n')?;
        Ok(())
    }

    /// Writes the names of the rules round a node, the asked one first.
    fn rules(&self, out: &mut Vec<u8>, node: u16) -> Told {
        say(out, &[b"<", self.asked.name, b">"])?;
        let Some(origin) = self.places.get(node as usize) else {
            return Ok(());
        };
        for at in 0..origin.names.len() {
            let token = token_from(self.tokens, *origin.names.get(at));
            if let Some(name) = named_at(self.asked.text, self.tokens, token, TokenKind::Greater) {
                say(out, &[b" <", name.bytes, b">"])?;
            }
        }
        Ok(())
    }

    /// Writes a part of a node, some words, and the bits of a word.
    fn part(&self, out: &mut Vec<u8>, node: u16, at: u16, text: &[u8], word: &Word) -> Told {
        let Some(part) = self.part_number(node, at) else {
            return Ok(());
        };
        let mut digits = Vec::new(self.alloc);
        push_digits(&mut digits, word)?;
        tell(
            out,
            self.asked,
            self.place_of(part),
            &[text, digits.as_slice()],
        )
    }

    /// Writes the shortest block that shows an overlap, if it is at hand.
    fn block(&self, out: &mut Vec<u8>, node: u16, octet: u8, one: &Word, other: &Word) -> Told {
        let mut bits = Vec::new(self.alloc);
        let up = way_up(self.alloc, self.parents, node)?;
        if !self.example().push_way(&up, &mut bits)? || bits.len() % 8 != octet as usize {
            return Ok(());
        }
        let longer = if one.len() < other.len() { other } else { one };
        for at in 0..longer.len() {
            bits.push(longer.get(at))?;
        }
        match block_line(self.alloc, &bits)? {
            Some(line) => more(out, &[b"a block that shows it begins ", line.as_slice()]),
            None => Ok(()),
        }
    }
}

/// Writes the bits of a word as digits.
fn push_digits(out: &mut Vec<u8>, word: &Word) -> Told {
    for at in 0..word.len() {
        out.push(b'0' + word.get(at))?;
    }
    Ok(())
}

/// Bits as a block line.
fn block_line(alloc: Global, bits: &[u8]) -> Result<Option<Vec<u8>>, NoMemory> {
    let mut block = Bits::new(alloc);
    for bit in bits {
        match block.push(*bit % 2) {
            Ok(()) => (),
            Err(BitsFault::NoMemory) => return Err(NoMemory),
            Err(_) => return Ok(None),
        }
    }
    Ok(Some(block.to_hex_line(alloc)?))
}

/// What usually helps, for each kind of conflict.
const TWO_EMPTY: &str = "  help: keep one of them\n";

const NOT_FIRM: &str =
    "  help: write its first bit as a literal that no other alternative begins with; in a \
    repetition with a count write `0` for `null`; put a length before a part of any length\n";

const OVERLAP: &str =
    "  help: let each begin with a literal of its own; write a later one for those bits alone \
    that no earlier one takes; or take what both begin with out of the choice\n";

const EMPTY_CLASH: &str =
    "  help: write `0` for `null`, or have the choice later; before padding put the padding \
    into the alternatives\n";

const LOOP_CLASH: &str =
    "  help: mostly the literal that ends the list was left out: `{ 1 .. } ** 0`\n";

const NOT_LAST: &str =
    "  help: put it to the end, or into a window that says how long it is; what follows a \
    truncation can be its last component\n";
