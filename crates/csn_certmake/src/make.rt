//! A certificate, made of the look-ahead sets of a description.

ghost use Rattle.std.specs.Prelude.{◌≡◌, ◌<◌, ◌≤◌, length, slice_index_or, [], ℕ, IfOk, OnOk, IfSome};
ghost use Rattle.csn_desc.specs.Formed.{IsDescription};
ghost use Rattle.csn_desc.specs.declared.desc.TheConstants.{MOST_NODES};
ghost use Rattle.csn_cert.specs.PatternText.{ComesBefore};
ghost use Rattle.csn_cert.specs.CertificateV.{Rises, IsCertificate};
ghost use Rattle.csn_good.specs.Good.{Good};
ghost use Rattle.csn_cert.specs.Growing.{with_position, last_position};
ghost use Rattle.csn_certmake.specs.Rows.{IsInOrder, IsKnown, AddsNode, TellsNodes};
ghost use Rattle.csn_certmake.specs.Claimed.{ClaimsNullable, ClaimsReached, ClaimsEnds, ClaimsStart, ClaimsFollow, ClaimsPatterns, ClaimsLookAhead};

use crate::digits::{digits_of, follow_digits, start_digits};
use crate::laws::look_ahead_is_good;
use crate::pattern_table::patterns_of;
use crate::row::Row;
use csn_bits::NoMemory;
use csn_cert::{Certificate, Pattern};
use csn_certify::Plan;
use csn_desc::Desc;
use csn_look::{Look, Reach};
use std::alloc::Global;

/// The certificate of a description that has a plan: the sets that look-ahead has of it, and of each node the
/// patterns that its equation makes of those of its parts. It claims what is so, and nothing else.
pub fn make_certificate(alloc: Global, plan: Plan) -> Result<Certificate, NoMemory>
    ensures number { IfOk result (λ c. length c ≡ length plan.nodes) }
    ensures nullable { IfOk result (ClaimsNullable plan) }
    ensures reached { IfOk result (ClaimsReached plan) }
    ensures ends { IfOk result (ClaimsEnds plan) }
    ensures start { IfOk result (ClaimsStart plan) }
    ensures follow { IfOk result (ClaimsFollow plan) }
    ensures patterns { IfOk result (ClaimsPatterns plan) }
    ensures good { IfOk result (Good plan) }
{
    look_ahead_is_good();
    let desc = plan.into_desc();
    certificate_of_desc(alloc, &desc)
}

/// The certificate that claims what look-ahead knows of a description.
fn certificate_of_desc(alloc: Global, desc: &Desc) -> Result<Certificate, NoMemory>
    ensures description { IfOk result (λ _. IsDescription desc.now) }
    ensures claims { IfOk result (ClaimsLookAhead desc.now) }
{
    let look = Look::new(alloc, desc)?;
    let reach = Reach::new(alloc, desc, &look)?;
    certificate_of_known(alloc, desc, &look, &reach)
}

/// The certificate that claims what is known of a description.
fn certificate_of_known(
    alloc: Global,
    desc: &Desc,
    look: &Look,
    reach: &Reach,
) -> Result<Certificate, NoMemory>
    requires { IsKnown desc.now look.now reach.now }
    ensures description { IsDescription desc.now }
    ensures claims { IfOk result (ClaimsLookAhead desc.now) }
{
    let rows = patterns_of(alloc, desc, reach)?;
    certificate_of(alloc, look, reach, rows.as_slice())
}

/// The certificate with a node for each of the rows.
fn certificate_of(
    alloc: Global,
    look: &Look,
    reach: &Reach,
    rows: &[Row],
) -> Result<Certificate, NoMemory>
    requires few { length rows.now ≤ MOST_NODES }
    requires sets { length look.now.sets ≡ length rows.now }
    requires reached { length reach.now.reached ≡ length rows.now }
    requires follow { length reach.now.follow ≡ length rows.now }
    requires ordered { (i : ℕ) → i < length rows.now → IsInOrder (slice_index_or rows.now i []) }
    ensures nodes { IfOk result (TellsNodes look.now reach.now rows.now) }
    ensures well_formed { IfOk result IsCertificate }
{
    let mut c = Certificate::new(alloc);
    for node in 0..rows.len() {
        add_node(&mut c, look, reach, &rows[node], node as u16)?;
    }
    // its length tells that it is well formed
    let _count = c.len();
    Ok(c)
}

/// Adds the node with this number, and its octet positions.
fn add_node(
    c: &mut Certificate,
    look: &Look,
    reach: &Reach,
    row: &Row,
    node: u16,
) -> Result<(), NoMemory>
    requires room { length c.old < MOST_NODES }
    requires sets { node < length look.now.sets }
    requires reached { node < length reach.now.reached }
    requires follow { node < length reach.now.follow }
    requires ordered { IsInOrder row.now }
    ensures { OnOk result (AddsNode look.now reach.now row.now node c.old c.new) }
{
    c.node(look.nullable(node), follow_digits(reach, node))?;
    let reached = reach.reached(node);
    for octet in 0..8 {
        if reached.has(octet) {
            let ends = digits_of(&look.ends(node, octet));
            let start = start_digits(look, node, octet);
            add_position(c, octet, ends, start, row.at(octet))?;
        }
    }
    Ok(())
}

/// Adds an octet position to the last node, with its patterns.
fn add_position(
    c: &mut Certificate,
    octet: u8,
    ends: u8,
    start: u8,
    patterns: &[Pattern],
) -> Result<(), NoMemory>
    requires node { 0 < length c.old }
    requires octet { octet ≤ 7 }
    requires start { start ≤ 3 }
    requires after { IfSome (last_position c.old) (λ p. p.octet < octet) }
    requires rising { Rises ComesBefore patterns.now }
    ensures { OnOk result (c.new ≡ with_position (record { octet = octet; ends = ends; start = start; patterns = patterns.now }) c.old) }
{
    c.at(octet, ends, start)?;
    for pattern in patterns {
        c.pattern(*pattern)?;
    }
    Ok(())
}
