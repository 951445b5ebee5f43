//! The way from the root of a description to where a block or a tree stands.

ghost use Rattle.std.specs.Prelude.{◌≡◌, [], ◌∷◌, ◌++◌, Some, OnOk, option_copied};
ghost use Rattle.std.specs.Fmt.{decimal};
ghost use Rattle.csn_explaining.specs.Ways.{chosen_text, entered, left, role_text, root_way, with_label};

use crate::text::push_count;
use csn_fields::Role;
use std::alloc::{AllocError, Global};
use std::marker::Model;

/// The labels round a place, with the alternatives of choices and the turns of repetitions, as `A.B#1[2].C`: in `A`, in
/// `B`, in alternative 1 of a choice, in turn 2 of a repetition, and there in `C`. A contract sees what is kept of it.
#[derive(Drop)]
pub struct PathText {
    text: Vec<u8>,
    /// The alternatives since the last leaf, each with `#` in front.
    chosen: Vec<u8>,
    /// The nodes that have begun and not ended.
    begun: Vec<Begun>,
}

/// What stood where a node began.
#[derive(Clone, Copy)]
struct Begun {
    text: usize,
    chosen: usize,
}

impl Model for PathText {
    ghost use Rattle.csn_explaining.specs.Ways.{WayV};

    ghost Value = { WayV };

    ghost view = { λ p. record { text = p.text.items; chosen = p.chosen.items; begun = p.begun.items } };
}

impl PathText {
    /// The way to the root.
    pub fn new(alloc: Global) -> PathText
        ensures { result ≡ root_way }
    {
        PathText {
            text: Vec::new(alloc),
            chosen: Vec::new(alloc),
            begun: Vec::new(alloc),
        }
    }

    /// Goes back to the root.
    pub fn restart(&mut self)
        ensures { self.new ≡ root_way }
    {
        self.text.clear();
        self.chosen.clear();
        self.begun.clear();
    }

    /// The text.
    pub fn text(&self) -> &[u8]
        ensures { result.now ≡ self.now.text }
    {
        &self.text
    }

    /// The alternatives that began since the last leaf, each with `#` in front.
    pub fn chosen(&self) -> &[u8]
        ensures { result.now ≡ self.now.chosen }
    {
        &self.chosen
    }

    /// Goes into a node, which is this of the node round it, and has a label where it is a labelled part.
    #[inline(always)]
    pub fn enter(&mut self, role: Role, label: Option<&[u8]>) -> Result<(), AllocError>
        ensures { OnOk result (self.new ≡ entered role (option_copied label.entry) self.old) }
    {
        self.begun.push(Begun {
            text: self.text.len(),
            chosen: self.chosen.len(),
        })?;
        match (role, label) {
            (Role::Part, None) => Ok(()),
            _ => self.push_step(role, label),
        }
    }

    /// Goes out of the node that began last.
    pub fn leave(&mut self)
        ensures { self.new ≡ left self.old }
    {
        if let Some(begun) = self.begun.pop() {
            self.text.truncate(begun.text);
            self.chosen.truncate(begun.chosen);
        }
    }

    /// A leaf was told.
    pub fn pass_leaf(&mut self)
        ensures { self.new ≡ record self.old { chosen = [] } }
    {
        self.chosen.clear();
    }

    // Writes what a node is of the node round it, and its label, where it has one.
    fn push_step(&mut self, role: Role, label: Option<&[u8]>) -> Result<(), AllocError>
        ensures { OnOk result (self.new ≡ record self.old {
          text = with_label (self.old.text ++ role_text role) (option_copied label.entry);
          chosen = self.old.chosen ++ chosen_text role;
        }) }
    {
        self.push_role(role)?;
        match label {
            Some(label) => self.push_label(label),
            None => Ok(()),
        }
    }

    // Writes what a node is of the node round it.
    fn push_role(&mut self, role: Role) -> Result<(), AllocError>
        ensures { OnOk result (self.new ≡ record self.old { text = self.old.text ++ role_text role; chosen = self.old.chosen ++ chosen_text role }) }
    {
        match role {
            Role::Root => Ok(()),
            Role::Part => Ok(()),
            Role::Alternative(number) => {
                push_alternative(&mut self.text, number)?;
                push_alternative(&mut self.chosen, number)
            }
            Role::Turn(number) => push_turn(&mut self.text, number),
        }
    }

    // Writes a label behind what is round it.
    fn push_label(&mut self, label: &[u8]) -> Result<(), AllocError>
        ensures { OnOk result (self.new ≡ record self.old { text = with_label self.old.text (Some label.now) }) }
    {
        if self.text.len() > 0 {
            self.text.push(b'.')?;
        }
        self.text.extend_from_slice(label)
    }
}

/// Writes the number of an alternative.
fn push_alternative(out: &mut Vec<u8>, number: u16) -> Result<(), AllocError>
    ensures { OnOk result (out.new.items ≡ out.old.items ++ 35 ∷ decimal number) }
{
    out.push(b'#')?;
    push_count(out, u32::from(number))
}

/// Writes the number of a turn.
fn push_turn(out: &mut Vec<u8>, number: u32) -> Result<(), AllocError>
    ensures { OnOk result (out.new.items ≡ out.old.items ++ 91 ∷ (decimal number ++ 93 ∷ [])) }
{
    out.push(b'[')?;
    push_count(out, number)?;
    Ok(out.push(b']')?)
}
