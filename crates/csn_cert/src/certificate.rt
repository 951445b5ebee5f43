ghost use Rattle.std.specs.Prelude.{◌≡◌, ◌<◌, ◌≤◌, ◌++◌, ◌∷◌, [], length, slice_get, is_some, IsSome, IfSome, IsSomeAnd, Some, find, ◌==◌, OnOk, OnErr};
ghost use Rattle.std.specs.Option.{option_copied};
ghost use Rattle.csn_desc.specs.declared.desc.TheConstants.{MOST_NODES};
ghost use Rattle.csn_cert.specs.PatternText.{ComesBefore};
ghost use Rattle.csn_cert.specs.CertificateV.{IsCertificate};
ghost use Rattle.csn_cert.specs.Growing.{with_position, with_pattern, last_position, last_pattern, claimed};

use crate::pattern::{MOST_MARKS, Pattern};
use csn_bits::NoMemory;
use std::alloc::Global;
use std::marker::Model;

// What is claimed of a node at an octet position.
#[derive(Drop)]
pub(crate) struct Position {
    pub(crate) octet: u8,
    pub(crate) ends: u8,
    pub(crate) start: u8,
    pub(crate) patterns: Vec<Pattern>,
}

impl Model for Position {
    ghost use Rattle.std.specs.Prelude.{length, ◌≤◌};
    ghost use Rattle.csn_cert.specs.CertificateV.{PositionV};

    ghost Value = { PositionV };

    ghost view = { λ p. record { octet = p.octet; ends = p.ends; start = p.start; patterns = p.patterns.items } };

    ghost invariant = { λ p. length p.patterns.items ≤ 4294967295 };
}

// What is claimed of a node.
#[derive(Drop)]
pub(crate) struct NodeClaim {
    pub(crate) nullable: bool,
    pub(crate) follow: u32,
    pub(crate) positions: Vec<Position>,
}

impl Model for NodeClaim {
    ghost use Rattle.csn_cert.specs.CertificateV.{NodeV};

    ghost Value = { NodeV };

    ghost view = { λ n. record { nullable = n.nullable; follow = n.follow; positions = n.positions.items } };
}

impl NodeClaim {
    // What is claimed at an octet position, if it is.
    fn position(&self, octet: u8) -> Option<&Position>
        ensures { option_copied result ≡ find (λ p. p.octet == octet) self.now.positions }
    {
        for position in &self.positions {
            if position.octet == octet {
                return Some(position);
            }
        }
        None
    }
}

/// What is claimed of each node of a description. A contract sees the list of the claims, one for each node.
#[derive(Drop)]
pub struct Certificate {
    nodes: Vec<NodeClaim>,
}

impl Model for Certificate {
    ghost use Rattle.std.specs.Prelude.{List};
    ghost use Rattle.csn_cert.specs.CertificateV.{NodeV, IsCertificate};

    ghost Value = { List NodeV };

    ghost view = { λ c. c.nodes.items };

    ghost invariant = { λ c. IsCertificate c.nodes.items };
}

impl Certificate {
    /// A certificate without nodes. It takes no memory.
    pub fn new(alloc: Global) -> Certificate
        ensures { result ≡ [] }
    {
        Certificate::of(Vec::new(alloc))
    }

    // The certificate with these claims.
    pub(crate) fn of(nodes: Vec<NodeClaim>) -> Certificate
        requires { IsCertificate nodes.items }
        ensures { result ≡ nodes.items }
    {
        Certificate { nodes }
    }

    /// Adds the next node, without positions. `follow` holds 24 digits, three for each octet position: whether
    /// 0, 1 and the end may follow there. The first digit is the most significant.
    pub fn node(&mut self, nullable: bool, follow: u32) -> Result<(), NoMemory>
        requires follow { follow < 16777216 }
        requires room { length self.old < MOST_NODES }
        ensures ok { OnOk result (self.new ≡ self.old ++ record { nullable = nullable; follow = follow; positions = [] } ∷ []) }
        ensures err { OnErr result (self.new ≡ self.old) }
    {
        let positions = Vec::new(*self.nodes.allocator());
        self.nodes.push(NodeClaim {
            nullable,
            follow,
            positions,
        })?;
        Ok(())
    }

    /// Adds a position without patterns to the last node. `ends` holds a digit for each octet position, `start`
    /// one for the bit 0 and one for the bit 1; the first digit is the most significant.
    pub fn at(&mut self, octet: u8, ends: u8, start: u8) -> Result<(), NoMemory>
        requires node { 0 < length self.old }
        requires octet { octet ≤ 7 }
        requires start { start ≤ 3 }
        requires rising { IfSome (last_position self.old) (λ p. p.octet < octet) }
        ensures ok { OnOk result (self.new ≡ with_position (record { octet = octet; ends = ends; start = start; patterns = [] }) self.old) }
        ensures err { OnErr result (self.new ≡ self.old) }
    {
        let patterns = Vec::new(*self.nodes.allocator());
        let last = self.nodes.len() - 1;
        let node = &mut self.nodes[last];
        node.positions.push(Position {
            octet,
            ends,
            start,
            patterns,
        })?;
        Ok(())
    }

    /// Adds a pattern to the last position of the last node.
    pub fn pattern(&mut self, pattern: Pattern) -> Result<(), NoMemory>
        requires position { IsSome (last_position self.old) }
        requires rising { IfSome (last_pattern self.old) (λ last. ComesBefore last pattern) }
        ensures ok { OnOk result (self.new ≡ with_pattern pattern self.old) }
        ensures err { OnErr result (self.new ≡ self.old) }
    {
        prove!(pattern.len() as usize <= MOST_MARKS);
        let last = self.nodes.len() - 1;
        let node = &mut self.nodes[last];
        let last = node.positions.len() - 1;
        let position = &mut node.positions[last];
        if position.patterns.len() >= u32::MAX as usize {
            return Err(NoMemory);
        }
        position.patterns.push(pattern)?;
        Ok(())
    }

    /// How many nodes there are.
    pub fn len(&self) -> u16
        ensures count { result ≡ length self.now }
        ensures bound { result ≤ MOST_NODES }
        ensures well_formed { IsCertificate self.now }
    {
        self.nodes.len() as u16
    }

    /// Whether a node has the empty string.
    pub fn nullable(&self, i: u16) -> bool
        requires { i < length self.now }
        ensures { IfSome (slice_get self.now i) (λ n. result ≡ n.nullable) }
    {
        let node = &self.nodes[i as usize];
        node.nullable
    }

    /// What may follow a node: three digits for each octet position, as [`node`](Certificate::node) takes them.
    pub fn follow(&self, i: u16) -> u32
        requires { i < length self.now }
        ensures { IfSome (slice_get self.now i) (λ n. result ≡ n.follow) }
    {
        let node = &self.nodes[i as usize];
        node.follow
    }

    /// Whether a node has an octet position.
    pub fn has(&self, i: u16, octet: u8) -> bool
        requires node { i < length self.now }
        requires octet { octet ≤ 7 }
        ensures { result ≡ is_some (claimed self.now i octet) }
    {
        let node = &self.nodes[i as usize];
        node.position(octet).is_some()
    }

    // What is claimed of a node at an octet position that it has.
    fn claimed(&self, i: u16, octet: u8) -> &Position
        requires { IsSome (claimed self.now i octet) }
        ensures { claimed self.now i octet ≡ Some result.now }
    {
        let node = &self.nodes[i as usize];
        match node.position(octet) {
            Some(position) => position,
            None => unreachable!(),
        }
    }

    /// Where the strings of a node end that begin at an octet position: a digit for each octet position.
    pub fn ends(&self, i: u16, octet: u8) -> u8
        requires { IsSome (claimed self.now i octet) }
        ensures { IfSome (claimed self.now i octet) (λ p. result ≡ p.ends) }
    {
        let position = self.claimed(i, octet);
        position.ends
    }

    /// With which bits the strings of a node start at an octet position: a digit for 0 and one for 1.
    pub fn start(&self, i: u16, octet: u8) -> u8
        requires { IsSome (claimed self.now i octet) }
        ensures { IfSome (claimed self.now i octet) (λ p. result ≡ p.start) }
    {
        let position = self.claimed(i, octet);
        position.start
    }

    /// How many patterns a node has at an octet position.
    pub fn patterns(&self, i: u16, octet: u8) -> u32
        requires { IsSome (claimed self.now i octet) }
        ensures { IfSome (claimed self.now i octet) (λ p. result ≡ length p.patterns) }
    {
        let position = self.claimed(i, octet);
        position.patterns.len() as u32
    }

    /// A pattern of a node at an octet position, counted from 0.
    pub fn pattern_at(&self, i: u16, octet: u8, k: u32) -> Pattern
        requires { IsSomeAnd (claimed self.now i octet) (λ p. k < length p.patterns) }
        ensures { IfSome (claimed self.now i octet) (λ p. slice_get p.patterns k ≡ Some result) }
    {
        let position = self.claimed(i, octet);
        position.patterns[k as usize]
    }

    // The claims, one for each node.
    pub(crate) fn claims(&self) -> &[NodeClaim]
        ensures { result.now ≡ self.now }
    {
        &self.nodes
    }
}
