use csn_desc::{Desc, Label, LabelFault, Node, Parts, Reading, Rows, Run, Shape, Symbol, Tree};
use std::alloc::Global;
use std::test::Fail;

#[test]
fn labels_are_words_with_one_space_between(rt: HostRuntime) {
    let cases: [(&[u8], bool); 7] = [
        (b"PAGE_MODE", true),
        (b"GPRS Cell Options", true),
        (b"C_VALUE, 3'7.b-1/2", true),
        (b"", false),
        (b"  ", false),
        (b"a  b", false),
        (b"a ", false),
    ];
    for (bytes, valid) in cases {
        let fault = (!valid).then_some(LabelFault::BadLabel);
        let refused = Label::new(rt.alloc(), bytes).err();
        assert_eq!(rt; (bytes, refused), (bytes, fault));
    }
}

#[test]
fn labels_hold_their_bytes(rt: HostRuntime) -> Result<(), Fail> {
    let labels: [&[u8]; 3] = [b"PAGE_MODE", b"GPRS Cell Options", b"C_VALUE, 3'7.b-1/2"];
    for bytes in labels {
        let label = Label::new(rt.alloc(), bytes)?;
        let copy = label.copy(rt.alloc())?;
        assert_eq!(rt; [label.bytes(), copy.bytes()], [bytes, bytes]);
    }
    Ok(())
}

#[test]
fn a_label_grows_by_words(rt: HostRuntime) -> Result<(), Fail> {
    let label = Label::of_word(rt.alloc(), b"GPRS")?;
    let longer = label.and(b"Cell")?;
    assert_eq!(rt; longer.bytes(), b"GPRS Cell".as_slice());
    Ok(())
}

#[test]
fn a_run_holds_its_symbols(rt: HostRuntime) -> Result<(), Fail> {
    let mut run = Run::new(rt.alloc());
    run.add(Symbol::High)?;
    assert_eq!(rt; (run.len(), *run.get(0)), (1, Symbol::High));
    Ok(())
}

#[test]
fn parts_hold_their_numbers(rt: HostRuntime) -> Result<(), Fail> {
    let mut parts = Parts::new(rt.alloc());
    parts.push(7)?;
    assert_eq!(rt; (parts.len(), parts.get(0)), (1, 7));
    Ok(())
}

#[test]
fn rows_hold_their_trees(rt: HostRuntime) -> Result<(), Fail> {
    let mut rows = Rows::new(rt.alloc());
    let given = rows.push(Tree {
        shape: Shape::Empty,
    });
    if given.is_err() || rows.len() != 1 {
        return Err("not one row".into());
    }
    let first = rows.get(0);
    assert!(rt; matches!(first.shape, Shape::Empty));
    Ok(())
}

fn no_bits(alloc: Global) -> Result<Desc, Fail> {
    let nodes = Vec::from_array(alloc, [Node::Null])?;
    Ok(Desc::from_nodes(alloc, Reading::Sent, nodes)?)
}

#[test]
fn a_description_lends_its_nodes(rt: HostRuntime) -> Result<(), Fail> {
    let desc = no_bits(rt.alloc())?;
    if desc.len() != 1 {
        return Err("not one node".into());
    }
    let is_null = matches!(desc.node(0), Node::Null);
    assert_eq!(rt;
        (desc.reading(), is_null, desc.counts(0)),
        (Reading::Sent, true, false)
    );
    Ok(())
}
