ghost use Rattle.std.specs.Prelude.{◌<◌, length};

use csn_io::{DirShelf, Got, Put, Shelf, ShelfFault, Sink, Source, StdSink, StdSource};
use std::io::{self, ErrorKind, Read, Write};
use std::test::Fail;

/// Moves one byte in a call, but for its second call, which fails, its third, which moves none,
/// and its later calls, which do the same as the third.
#[derive(Drop)]
struct Faltering {
    calls: u8,
}

impl Faltering {
    fn next(&mut self) -> io::Result<usize> {
        self.calls = self.calls.saturating_add(1);
        match self.calls {
            1 => Ok(1),
            2 => Err(io::Error::from(ErrorKind::BrokenPipe)),
            _ => Ok(0),
        }
    }
}

impl Read for Faltering {
    fn read(&mut self, buf: &mut [u8]) -> io::Result<usize> {
        let moved = self.next()?;
        Ok(moved.min(buf.len()))
    }
}

impl Write for Faltering {
    fn write(&mut self, buf: &[u8]) -> io::Result<usize> {
        let moved = self.next()?;
        Ok(moved.min(buf.len()))
    }

    fn flush(&mut self) -> io::Result<()> {
        self.next()?;
        Ok(())
    }
}

#[test]
fn a_reader_fails_in_mid_stream(rt: HostRuntime) {
    let mut source = StdSource::new(Faltering { calls: 0 });
    let mut room = [0; 8];
    let answers = [
        source.take(&mut room),
        source.take(&mut room),
        source.take(&mut room),
    ];
    assert_eq!(rt; answers, [Got::Bytes(1), Got::Failed, Got::End]);
}

/// What came of a put of these bytes, and of a flush behind it where the put did not fail, over a writer that has had so
/// many calls.
fn put_and_flushed(calls: u8, bytes: &[u8]) -> (Put, Option<Put>)
    requires { 0 < length bytes.now }
{
    let mut sink = StdSink::new(Faltering { calls });
    match sink.put(bytes) {
        Put::Took(n) => (Put::Took(n), Some(sink.flush())),
        put => (put, None),
    }
}

#[test]
fn a_writer_fails_in_mid_stream(rt: HostRuntime) {
    // Behind two calls a put takes nothing.
    let answers = [
        put_and_flushed(0, b"ok"),
        put_and_flushed(1, b"ok"),
        put_and_flushed(2, b"ok"),
    ];
    assert_eq!(rt;
        answers,
        [
            (Put::Took(1), Some(Put::Failed)),
            (Put::Failed, None),
            (Put::Failed, None),
        ]
    );
}

#[test]
fn a_file_is_read_no_further_than_asked(rt: HostRuntime) -> Result<(), Fail> {
    let mut shelf = DirShelf::new(&rt);
    let zeros = shelf.fetch(rt.alloc(), "/dev/zero", 5)?;
    let nothing = shelf.fetch(rt.alloc(), "/dev/null", 5)?;
    let fault = shelf.fetch(rt.alloc(), "no such file", 5).err();
    assert_eq!(rt;
        (zeros.as_slice(), nothing.len(), fault),
        ([0; 5].as_slice(), 0, Some(ShelfFault::Failed))
    );
    Ok(())
}
