ghost use Rattle.std.specs.Prelude.{◌≡◌};

use csn_io::{Got, MemShelf, MemSink, MemSource, Put, Shelf, ShelfFault, Sink, Source};
use std::alloc::{AllocError, Global};
use std::collections::BTreeMap;
use std::test::Fail;

#[test]
fn a_source_gives_its_bytes_in_pieces(rt: HostRuntime) -> Result<(), Fail> {
    for (most, first) in [(1, 1), (2, 2), (4096, 3)] {
        let bytes = Vec::from_slice(rt.alloc(), b"A5\n")?;
        let mut source = MemSource::new(bytes, most, Vec::new(rt.alloc()));
        let mut room = [0; 8];
        let begun = source.take(&mut room);
        let mut all: usize = first;
        for _ in first..3 {
            if let Got::Bytes(more) = source.take(&mut room[..1]) {
                all = all.saturating_add(more);
            }
        }
        assert_eq!(rt;
            (most, begun, all, source.take(&mut room)),
            (most, Got::Bytes(first), 3, Got::End)
        );
    }
    Ok(())
}

#[test]
fn a_source_fails_at_the_calls_that_are_listed(rt: HostRuntime) -> Result<(), Fail> {
    let bytes = Vec::from_slice(rt.alloc(), b"A5\n")?;
    let mut source = MemSource::new(bytes, 2, vec![in rt.alloc(); 1, 3]?);
    let mut room = [0; 8];
    for (call, answer) in [
        Got::Bytes(2),
        Got::Failed,
        Got::Bytes(1),
        Got::Failed,
        Got::End,
    ]
    .into_iter()
    .enumerate()
    {
        assert_eq!(rt; (call, source.take(&mut room)), (call, answer));
    }
    Ok(())
}

/// A put, a flush and a put, up to the first call that fails: how many went before the last one, and what that was answered.
fn put_flush_put(sink: &mut MemSink) -> (u32, Put)
    requires { ⟦<MemSink as Sink>⟧.faults sink.old ≡ 0 }
{
    match sink.put(b"ok .") {
        Put::Took(_) => match sink.flush() {
            Put::Took(_) => (2, sink.put(b".")),
            flushed => (1, flushed),
        },
        put => (0, put),
    }
}

#[test]
fn a_sink_counts_puts_and_flushes_together(rt: HostRuntime) -> Result<(), Fail> {
    for (failing, answer, taken) in [
        (0, (0, Put::Failed), b"".as_slice()),
        (1, (1, Put::Failed), b"ok ".as_slice()),
        (2, (2, Put::Failed), b"ok ".as_slice()),
        (3, (2, Put::Took(1)), b"ok .".as_slice()),
    ] {
        let mut sink = MemSink::new(rt.alloc(), 3, vec![in rt.alloc(); failing]?);
        let came = put_flush_put(&mut sink);
        assert_eq!(rt; (failing, came, sink.taken()), (failing, answer, taken));
    }
    Ok(())
}

fn shelf_of_one(
    alloc: Global,
    name: &str,
    file: &[u8],
    failing: Vec<u32>,
) -> Result<MemShelf, AllocError> {
    let mut files = BTreeMap::new(alloc);
    files.insert(
        String::from_str(alloc, name)?,
        Vec::from_slice(alloc, file)?,
    )?;
    Ok(MemShelf::new(files, failing))
}

#[test]
fn a_shelf_gives_the_front_of_a_file(rt: HostRuntime) -> Result<(), Fail> {
    let failing = vec![in rt.alloc(); 1, 2]?;
    let mut shelf = shelf_of_one(rt.alloc(), "F", b"abc", failing)?;
    let whole = shelf.fetch(rt.alloc(), "F", 4)?;
    let missing = shelf.fetch(rt.alloc(), "G", 4).err();
    let failed = shelf.fetch(rt.alloc(), "F", 4).err();
    let front = shelf.fetch(rt.alloc(), "F", 2)?;
    assert_eq!(rt;
        (whole.as_slice(), missing, failed, front.as_slice()),
        (
            b"abc".as_slice(),
            Some(ShelfFault::Missing),
            Some(ShelfFault::Failed),
            b"ab".as_slice()
        )
    );
    Ok(())
}
