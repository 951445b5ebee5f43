//! Descriptions and words that are put together node by node and bit by bit.

use csn_desc::{Count, Desc, DescBuilder, Head, Label, MOST_SYMBOLS, Run, Symbol};
use csn_look::{MOST_WORD, Word};
use std::alloc::Global;
use std::test::Fail;

/// Enters a node.
pub(crate) fn enter(builder: &mut DescBuilder, head: Head) -> Result<(), Fail> {
    if !builder.takes(&head) {
        return Err("no node is taken there".into());
    }
    builder.enter(head)?;
    Ok(())
}

/// Leaves a node.
pub(crate) fn leave(builder: &mut DescBuilder) -> Result<(), Fail> {
    if !builder.may_leave() {
        return Err("a part is missing".into());
    }
    builder.leave();
    Ok(())
}

/// Leaves a node, where that may be.
pub(crate) fn end(builder: &mut DescBuilder) -> bool {
    let may = builder.may_leave();
    if may {
        builder.leave();
    }
    may
}

/// A node without parts.
pub(crate) fn leaf(builder: &mut DescBuilder, head: Head) -> Result<(), Fail> {
    enter(builder, head)?;
    leave(builder)
}

/// A literal of these symbols.
pub(crate) fn literal(alloc: Global, symbols: &[Symbol]) -> Result<Head, Fail> {
    let mut run = Run::new(alloc);
    for symbol in symbols {
        if run.len() >= MOST_SYMBOLS {
            return Err("too many symbols".into());
        }
        run.add(*symbol)?;
    }
    Ok(Head::Lits(run))
}

/// A field of so many bits.
pub(crate) fn bits(width: u32) -> Head {
    Head::Field {
        unit: 1,
        count: Count::Fixed(width),
    }
}

/// A label on a node without parts.
pub(crate) fn labelled(
    alloc: Global,
    builder: &mut DescBuilder,
    name: &[u8],
    head: Head,
) -> Result<(), Fail> {
    let label = Label::new(alloc, name)?;
    enter(builder, Head::Named(label))?;
    leaf(builder, head)?;
    leave(builder)
}

/// The description of all nodes.
pub(crate) fn finished(builder: DescBuilder) -> Result<Desc, Fail> {
    if !builder.is_whole() {
        return Err("a part is missing".into());
    }
    Ok(builder.finish()?)
}

/// A word of these bits.
pub(crate) fn word_of(bits: &[u8]) -> Result<Word, Fail> {
    let mut word = Word::new();
    for bit in bits {
        if *bit > 1 || word.len() as usize >= MOST_WORD {
            return Err("no word".into());
        }
        word.push(*bit);
    }
    Ok(word)
}
