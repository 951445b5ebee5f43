//! The members of an object that is read.

ghost use Rattle.std.specs.Prelude.{◌≡◌, ◌≤◌, ℕ, Some, None, OnOk, IfOk, IfErr};
ghost use Rattle.csn_treetext.specs.declared.bounds.TheConstants.{MOST_LEVELS};
ghost use Rattle.serde_json.specs.Data.{Data, Members as MembersV, object, put, no_members};
ghost use Rattle.csn_json.specs.Pieces.{inside, Tells, HasMembers, fitting, one_of};

use crate::fault::JsonFault;
use crate::piece::{Piece, tree_of};
use crate::tag::{Tag, tag_of, with_tag};
use csn_desc::Tree;
use csn_treetext::MOST_LEVELS;
use std::alloc::Global;

/// What is known of the member with a key, of which the last one counts.
#[derive(Drop)]
pub(crate) enum Member<T> {
    Absent,
    /// It is not what a tree has there.
    Unfit,
    Fit(T),
}

/// The members of an object, as far as they are read.
#[derive(Drop)]
pub(crate) struct Members {
    /// Whether one has a key that no tree has.
    other: bool,
    alternative: Member<Tag>,
    label: Member<Tag>,
    tree: Member<Tree>,
}

/// The member whose value is this, or is not what a tree has there.
fn told<T: Drop>(found: Option<T>) -> Member<T>
    ensures fit { (t : T) → found ≡ Some t → result ≡ Member.Fit t }
    ensures unfit { found ≡ None → result ≡ Member.Unfit }
{
    match found {
        Some(fit) => Member::Fit(fit),
        None => Member::Unfit,
    }
}

impl Members {
    /// No members.
    pub fn new() -> Members
        ensures { (round : ℕ) → HasMembers round result no_members }
    {
        Members {
            other: false,
            alternative: Member::Absent,
            label: Member::Absent,
            tree: Member::Absent,
        }
    }

    /// Puts a value, with so many levels round it, under a key.
    pub fn put(
        &mut self,
        alloc: Global,
        key: &str,
        piece: Piece,
        round: u32,
    ) -> Result<(), JsonFault>
        requires { round ≤ MOST_LEVELS }
        ensures ok { (members : MembersV) (value : Data) → HasMembers round self.old members → Tells round piece.entry value
            → OnOk result (HasMembers round self.new (put key.now value members)) }
        ensures memory { IfErr result (λ fault. fault ≡ JsonFault.NoMemory) }
    {
        match key {
            "alt" => self.alternative = told(tag_of(alloc, key, &piece)?),
            "label" => self.label = told(tag_of(alloc, key, &piece)?),
            "tree" => self.tree = told(tree_of(alloc, piece, round)?),
            _ => self.other = true,
        }
        Ok(())
    }

    /// The object with these members, with so many levels round it.
    pub fn piece<'a>(self, alloc: Global, round: u32) -> Result<Piece<'a>, JsonFault>
        requires { round ≤ MOST_LEVELS }
        ensures ok { (members : MembersV) → HasMembers (inside round) self members → IfOk result (λ piece. Tells round piece (object members)) }
        ensures memory { IfErr result (λ fault. fault ≡ JsonFault.NoMemory) }
    {
        if round == MOST_LEVELS {
            return Ok(Piece::Nothing);
        }
        if self.other {
            return Ok(Piece::Nothing);
        }
        match self.fitting() {
            Some((tag, tree)) => Ok(Piece::Tree(with_tag(alloc, tag, tree)?)),
            None => Ok(Piece::Nothing),
        }
    }

    /// The tag and the tree, where there are these two and no third member.
    fn fitting(self) -> Option<(Tag, Tree)>
        ensures { result ≡ fitting self }
    {
        let tag = one_of(self.alternative, self.label);
        match self.tree {
            Member::Absent => None,
            Member::Unfit => None,
            Member::Fit(tree) => match tag {
                Some(tag) => Some((tag, tree)),
                None => None,
            },
        }
    }
}

/// The one of two members that there is, where it fits.
fn one_of(first: Member<Tag>, second: Member<Tag>) -> Option<Tag>
    ensures { result ≡ one_of first second }
{
    match first {
        Member::Absent => match second {
            Member::Absent => None,
            Member::Unfit => None,
            Member::Fit(tag) => Some(tag),
        },
        Member::Unfit => None,
        Member::Fit(tag) => match second {
            Member::Absent => Some(tag),
            Member::Unfit => None,
            Member::Fit(_) => None,
        },
    }
}
