use csn_bits::MOST_LINE;
use csn_desc::{Shape, Tree};
use csn_json::{JsonFault, json_fits, read_json, write_json};
use std::alloc::Global;
use std::test::Fail;

// Reads a text that is no longer than one may be.
fn read(alloc: Global, text: &[u8]) -> Result<Tree, JsonFault> {
    if text.len() > MOST_LINE as usize {
        return Err(JsonFault::NoMemory);
    }
    read_json(alloc, text)
}

// What is written for the tree that a text shows.
fn written_again(alloc: Global, text: &str) -> Result<Vec<u8>, Fail> {
    let tree = read(alloc, text.as_bytes())?;
    if !json_fits(&tree) {
        return Err("a tree that does not fit".into());
    }
    Ok(write_json(alloc, &tree)?)
}

// Texts, and what is written for the trees that they show: every form with its members in order, and then spaces, members
// in another order, escapes, and members that stand twice.
const TEXTS: [(&str, &str); 15] = [
    ("null", "null"),
    ("\".\"", "\".\""),
    ("\"A0/3\"", "\"A0/3\""),
    ("\"A5\"", "\"A5\""),
    ("[]", "[]"),
    ("[null,[]]", "[null,[]]"),
    ("{\"alt\":0,\"tree\":null}", "{\"alt\":0,\"tree\":null}"),
    (
        "{\"alt\":16383,\"tree\":{\"label\":\"GPRS Cell/2 o'k\",\"tree\":\"00\"}}",
        "{\"alt\":16383,\"tree\":{\"label\":\"GPRS Cell/2 o'k\",\"tree\":\"00\"}}",
    ),
    (
        "[{\"label\":\"A\",\"tree\":\"A0/3\"},null,{\"label\":\"B\",\"tree\":\"50/4\"}]",
        "[{\"label\":\"A\",\"tree\":\"A0/3\"},null,{\"label\":\"B\",\"tree\":\"50/4\"}]",
    ),
    (" [ ] ", "[]"),
    (
        "{\"tree\" : \"A0/3\" , \"label\" : \"A\"}",
        "{\"label\":\"A\",\"tree\":\"A0/3\"}",
    ),
    ("{\"tree\":null,\"alt\":1}", "{\"alt\":1,\"tree\":null}"),
    ("\"\\u0041\\u0035\"", "\"A5\""),
    (
        "{\"alt\":1,\"alt\":2,\"tree\":[],\"tree\":null}",
        "{\"alt\":2,\"tree\":null}",
    ),
    (
        "{\"tree\":1.5,\"alt\":\"x\",\"tree\":null,\"alt\":3}",
        "{\"alt\":3,\"tree\":null}",
    ),
];

#[test]
fn each_form_is_read_and_written_back(rt: HostRuntime) -> Result<(), Fail> {
    for (text, written) in TEXTS {
        let wrote = written_again(rt.alloc(), text)?;
        assert_eq!(rt; wrote.as_slice(), written.as_bytes(), "{text}");
    }
    Ok(())
}

#[test]
fn what_is_no_tree_is_refused(rt: HostRuntime) {
    let faults = [read(rt.alloc(), b"").err(), read(rt.alloc(), b"[1]").err()];
    assert_eq!(rt;
        faults,
        [Some(JsonFault::NotJson), Some(JsonFault::NotTree)]
    );
}

// So many arrays in one another, with nothing in the innermost.
fn nested(alloc: Global, levels: usize) -> Result<Vec<u8>, Fail> {
    let mut text = Vec::new(alloc);
    for _ in 0..levels {
        text.push(b'[')?;
    }
    for _ in 0..levels {
        text.push(b']')?;
    }
    Ok(text)
}

// Whether an alternative of this number with this tree fits.
fn alternative_fits(alloc: Global, number: u16, tree: Tree) -> Result<bool, Fail> {
    let tree = Tree {
        shape: Shape::Alt(number, Box::new(alloc, tree)?),
    };
    Ok(json_fits(&tree))
}

#[test]
fn a_tree_that_is_too_deep_or_too_wide_does_not_fit(rt: HostRuntime) -> Result<(), Fail> {
    let text = nested(rt.alloc(), 64)?;
    let deep = read(rt.alloc(), text.as_slice())?;
    let empty = Tree {
        shape: Shape::Empty,
    };
    assert_eq!(rt;
        [
            json_fits(&deep),
            alternative_fits(rt.alloc(), 0, deep)?,
            alternative_fits(rt.alloc(), 16_384, empty)?
        ],
        [true, false, false]
    );
    Ok(())
}
