ghost use Rattle.std.specs.Prelude.{◌≤◌, length};
ghost use Rattle.csn_bits.specs.declared.feed.TheConstants.{MOST_LINE};

use csn_desc::{Shape, Tree};
use csn_treetext::{TextFault, fits, read_old_tree, read_tree, write_tree};
use std::alloc::Global;
use std::test::Fail;

// A text of every form: nothing, a number, no bits, a block line, rows, alternatives and labels.
const LONG: &str =
    "[. <A>=3'5 b #16383:[] <GPRS Cell/2 o'k>=xFFFFFFFFFFFFFFFF80/1 [64'18446744073709551615 xFFFFFFFFFFFFFFFFFF]]";

// What is written of the tree that a text spells.
fn rewritten(alloc: Global, text: &[u8]) -> Result<Vec<u8>, Fail>
    requires { length text.now ≤ MOST_LINE }
{
    let tree = read_tree(alloc, text)?;
    if !fits(&tree) {
        return Err("it does not fit".into());
    }
    Ok(write_tree(alloc, &tree)?)
}

// What is written of the tree that an old text spells.
fn renewed(alloc: Global, text: &[u8]) -> Result<Vec<u8>, Fail>
    requires { length text.now ≤ MOST_LINE }
{
    let tree = read_old_tree(alloc, text)?;
    Ok(write_tree(alloc, &tree)?)
}

#[test]
fn each_form_is_read_and_written_back(rt: HostRuntime) -> Result<(), Fail> {
    for text in [
        ".",
        "3'5",
        "64'18446744073709551615",
        "b",
        "xFFFFFFFFFFFFFFFF80/1",
        "[]",
        "[. .]",
        "#0:.",
        "<A b>=1'0",
        LONG,
    ] {
        let wrote = rewritten(rt.alloc(), text.as_bytes())?;
        assert_eq!(rt; wrote.as_slice(), text.as_bytes());
    }
    Ok(())
}

#[test]
fn an_old_text_becomes_a_new_one(rt: HostRuntime) -> Result<(), Fail> {
    let bits = b"b11111111111111111111111111111111111111111111111111111111111111111";
    let wrote = renewed(rt.alloc(), bits)?;
    assert_eq!(rt; wrote.as_slice(), b"xFFFFFFFFFFFFFFFF80/1".as_slice());
    Ok(())
}

#[test]
fn bad_texts_are_refused_at_their_places(rt: HostRuntime) {
    let faults = [
        read_tree(rt.alloc(), b"<A>=3'9").err(),
        read_old_tree(rt.alloc(), b"b1").err(),
    ];
    assert_eq!(rt;
        faults,
        [
            Some(TextFault::Place { place: 6 }),
            Some(TextFault::Place { place: 2 })
        ]
    );
}

#[test]
fn trees_of_too_many_levels_do_not_fit(rt: HostRuntime) -> Result<(), Fail> {
    let mut tree = Tree {
        shape: Shape::Empty,
    };
    for level in 1..70 {
        assert_eq!(rt; fits(&tree), level <= 64);
        let inner = Box::new(rt.alloc(), tree)?;
        tree = Tree {
            shape: Shape::Alt(16_383, inner),
        };
    }
    Ok(())
}
