ghost use Rattle.std.specs.Prelude.{◌≡◌, true};
ghost use Rattle.csn_desc.specs.declared.symbol.Symbol.TheVariants as symbol;
ghost use Rattle.csn_desc.specs.declared.node.Node.TheVariants as node;
ghost use Rattle.csn_grammar.specs.declared.built_in.BuiltIn.TheVariants as built_in;
ghost use Rattle.csn_grammar.specs.Names.{name_of, is_built_in};

use csn_desc::{Node, Symbol};
use csn_grammar::BuiltIn;

/// The node of a spare part, by its name.
pub(crate) fn spare_node(name: &[u8]) -> Node
    requires built_in { is_built_in name.now ≡ true }
    requires spare { ¬ (name.now ≡ name_of built_in.NoString) }
    ensures bit { name.now ≡ name_of built_in.SpareBit → result ≡ node.Spare symbol.Zero }
    ensures low { name.now ≡ name_of built_in.SpareLow → result ≡ node.Spare symbol.Low }
    ensures padding { name.now ≡ name_of built_in.SparePadding → result ≡ node.Pad }
{
    match BuiltIn::of(name) {
        Some(BuiltIn::SpareBit) => Node::Spare(Symbol::Zero),
        Some(BuiltIn::SpareLow) => Node::Spare(Symbol::Low),
        Some(BuiltIn::SparePadding) => Node::Pad,
        Some(BuiltIn::NoString) => unreachable!(),
        None => unreachable!(),
    }
}
