//! The path of labels to a node.

ghost use Rattle.std.specs.Prelude.{◌≡◌, ◌<◌, ℕ, List, ◌++◌, length, get_or, slice_get, None, OnOk};
ghost use Rattle.csn_reasons.specs.Paths.{below_at, part_text, path_of, path_step, step_at};

use crate::nodes::{node_at, place_in};
use crate::telling::Told;
use csn_desc::{Desc, Node};
use csn_plan::push_number;

/// Writes the path to the first of the nodes that lead up to the root: labels with a dot between, `#1` for an
/// alternative, `[1]` for a component of a truncation, and `[]` for a turn of a repetition.
pub(crate) fn push_path(desc: &Desc, up: &[u16], out: &mut Vec<u8>) -> Told
    ensures { OnOk result (out.new.items ≡ out.old.items ++ path_of desc.now.nodes None up.now) }
{
    let begun = out.len();
    for back in 0..up.len() {
        push_node(desc, up, up.len() - 1 - back, begun, out)?;
    }
    Ok(())
}

/// Writes what the node at a place of the way up adds to the path.
fn push_node(desc: &Desc, up: &[u16], at: usize, begun: usize, out: &mut Vec<u8>) -> Told
    requires { at < length up.now }
    ensures { (front path : List ℕ) → out.old.items ≡ front ++ path → length front ≡ begun
        → OnOk result (out.new.items ≡ front ++ step_at path (slice_get desc.now.nodes (get_or up.now at 0)) (below_at up.now at)) }
{
    match node_at(desc, up[at]) {
        Some(node) => push_step(node, below_at(up, at), begun, out),
        None => Ok(()),
    }
}

/// The node below the one at a place of the way up.
fn below_at(up: &[u16], at: usize) -> Option<u16>
    requires { at < length up.now }
    ensures { result ≡ below_at up.now at }
{
    if at > 0 { Some(up[at - 1]) } else { None }
}

/// Writes what a node adds to the path of the node below it.
fn push_step(node: &Node, below: Option<u16>, begun: usize, out: &mut Vec<u8>) -> Told
    ensures { (front path : List ℕ) → out.old.items ≡ front ++ path → length front ≡ begun
        → OnOk result (out.new.items ≡ front ++ path_step path node.now below) }
{
    if let Node::Named { label, .. } = node {
        if out.len() > begun {
            out.push(b'.')?;
        }
        out.extend_from_slice(label.bytes())?;
        return Ok(());
    }
    match below {
        Some(part) => push_part(node, part, out),
        None => Ok(()),
    }
}

/// Writes which alternative, component or turn of a node a part is.
fn push_part(node: &Node, part: u16, out: &mut Vec<u8>) -> Told
    ensures { OnOk result (out.new.items ≡ out.old.items ++ part_text node.now part) }
{
    match node {
        Node::Choice(parts) => {
            out.push(b'#')?;
            push_number(out, place_in(parts, part) as u32)?;
        }
        Node::Trunc(parts) => {
            out.push(b'[')?;
            push_number(out, place_in(parts, part) as u32)?;
            out.push(b']')?;
        }
        Node::Many(_) => out.extend_from_slice(b"[]")?,
        Node::Times { .. } => out.extend_from_slice(b"[]")?,
        _ => (),
    }
    Ok(())
}
