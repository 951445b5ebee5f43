use crate::building::{bits, end};
use csn_desc::{
    Count, Desc, DescBuilder, DescFault, Head, Label, MOST_NODES, Reading, Run, Symbol,
};
use std::alloc::Global;
use std::test::Fail;

fn put(builder: &mut DescBuilder, head: Head) -> Option<Result<u16, DescFault>> {
    if builder.takes(&head) {
        Some(builder.enter(head))
    } else {
        None
    }
}

fn counted(field: u16) -> Head {
    Head::Field {
        unit: 1,
        count: Count::Counted { m: 1, field, c: 1 },
    }
}

fn put_labelled(alloc: Global, builder: &mut DescBuilder) -> Result<bool, Fail> {
    let label = Label::new(alloc, b"A")?;
    let named = put(builder, Head::Named(label)).is_some();
    let field = put(builder, bits(3)).is_some();
    Ok(named && field && end(builder) && end(builder))
}

/// Whether the head may be entered.
fn takes(builder: &DescBuilder, head: Head) -> bool {
    builder.takes(&head)
}

fn finished(builder: DescBuilder) -> Result<Result<Desc, DescFault>, Fail> {
    if !builder.is_whole() {
        return Err("not whole".into());
    }
    Ok(builder.finish())
}

#[test]
fn a_builder_takes_what_may_come(rt: HostRuntime) -> Result<(), Fail> {
    let mut builder = DescBuilder::new(rt.alloc(), Reading::Sent);
    let empty = (builder.is_whole(), end(&mut builder));
    let root = (put(&mut builder, Head::Seq), put(&mut builder, counted(1)));
    let label = (put_labelled(rt.alloc(), &mut builder)?, end(&mut builder));
    let field = (put(&mut builder, counted(1)), put(&mut builder, Head::Null));
    let ends = (end(&mut builder), end(&mut builder));
    assert_eq!(rt;
        (empty, root, label, field, ends),
        (
            (false, false),
            (Some(Ok(0)), None),
            (true, false),
            (Some(Ok(3)), None),
            (true, true)
        )
    );
    Ok(())
}

/// `<A : bit (3)> bit (val(A) + 1)`
fn labelled_and_counted(alloc: Global) -> Result<Desc, Fail> {
    let mut builder = DescBuilder::new(alloc, Reading::Sent);
    let built = put(&mut builder, Head::Seq).is_some()
        && put_labelled(alloc, &mut builder)?
        && put(&mut builder, counted(1)).is_some()
        && end(&mut builder)
        && end(&mut builder);
    if !built {
        return Err("not built".into());
    }
    Ok(finished(builder)??)
}

#[test]
fn a_builder_makes_what_was_entered(rt: HostRuntime) -> Result<(), Fail> {
    let desc = labelled_and_counted(rt.alloc())?;
    if desc.len() != 4 {
        return Err("not four nodes".into());
    }
    let counts = [
        desc.counts(0),
        desc.counts(1),
        desc.counts(2),
        desc.counts(3),
    ];
    assert_eq!(rt;
        (desc.reading(), counts),
        (Reading::Sent, [false, true, false, false])
    );
    Ok(())
}

#[test]
fn heads_are_taken_where_they_are_well_formed(rt: HostRuntime) -> Result<(), Fail> {
    let mut builder = DescBuilder::new(rt.alloc(), Reading::Received);
    let root = put(&mut builder, Head::Trunc);
    let label = put_labelled(rt.alloc(), &mut builder)?;
    assert_eq!(rt; (root, label), (Some(Ok(0)), true));
    let literals = [
        takes(&builder, Head::Lits(Run::new(rt.alloc()))),
        takes(&builder, Head::Spare(Symbol::Low)),
        takes(&builder, Head::Spare(Symbol::High)),
    ];
    let fields = [0, 65_536, 65_537].map(|width| takes(&builder, bits(width)));
    let counts = [0, 1, 2].map(|field| takes(&builder, counted(field)));
    assert_eq!(rt;
        (literals, fields, counts),
        (
            [false, true, false],
            [false, true, false],
            [false, true, false]
        )
    );
    Ok(())
}

#[test]
fn no_more_than_16384_nodes_are_entered(rt: HostRuntime) -> Result<(), Fail> {
    let mut builder = DescBuilder::new(rt.alloc(), Reading::Received);
    let root = put(&mut builder, Head::Seq);
    for i in 1..MOST_NODES {
        let leaf = (put(&mut builder, Head::Null), end(&mut builder));
        assert_eq!(rt; leaf, (Some(Ok(i)), true));
    }
    let last = (put(&mut builder, Head::Null), end(&mut builder));
    let desc = finished(builder)??;
    assert_eq!(rt;
        (root, last, desc.len()),
        (
            Some(Ok(0)),
            (Some(Err(DescFault::TooManyNodes)), true),
            MOST_NODES
        )
    );
    Ok(())
}

#[test]
fn no_more_than_64_nodes_are_inside_one_another(rt: HostRuntime) {
    let mut builder = DescBuilder::new(rt.alloc(), Reading::Received);
    for i in 0..64 {
        assert_eq!(rt; put(&mut builder, Head::Seq), Some(Ok(i)));
    }
    let last = (put(&mut builder, Head::Null), end(&mut builder));
    assert_eq!(rt; last, (Some(Err(DescFault::TooDeep)), false));
}

/// So many labelled fields.
fn put_fields(alloc: Global, builder: &mut DescBuilder, fields: u16) -> Result<bool, Fail> {
    let mut built = true;
    for _ in 0..fields {
        built = built && put_labelled(alloc, builder)?;
    }
    Ok(built)
}

/// A field that counts, for each of so many labelled ones.
fn put_counted(builder: &mut DescBuilder, fields: u16) -> bool {
    let mut built = true;
    for i in 0..fields {
        let label = i.saturating_mul(2).saturating_add(1);
        built = built && put(builder, counted(label)).is_some() && end(builder);
    }
    built
}

/// Why so many labelled fields and as many counted ones are no description.
fn fault_of_fields(alloc: Global, fields: u16) -> Result<Option<DescFault>, Fail> {
    let mut builder = DescBuilder::new(alloc, Reading::Received);
    let built = put(&mut builder, Head::Seq).is_some()
        && put_fields(alloc, &mut builder, fields)?
        && put_counted(&mut builder, fields)
        && end(&mut builder);
    if !built {
        return Err("not built".into());
    }
    Ok(finished(builder)?.err())
}

#[test]
fn a_counted_field_has_fewer_than_64_before_it(rt: HostRuntime) -> Result<(), Fail> {
    let faults = (
        fault_of_fields(rt.alloc(), 64)?,
        fault_of_fields(rt.alloc(), 65)?,
    );
    assert_eq!(rt; faults, (None, Some(DescFault::TooManyVals { node: 129 })));
    Ok(())
}
