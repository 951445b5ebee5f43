ghost use Rattle.std.specs.Prelude.{◌<◌};

use csn_catalogue::Entry;
use csn_replay::{Capture, CaptureHead, read_capture};
use std::test::Fail;

#[test]
fn the_first_space_ends_the_word(rt: HostRuntime) {
    let capture = Capture {
        entry: Entry::Si13,
        block_at: 5,
    };
    let read = [
        read_capture(b"si13 "),
        read_capture(b""),
        read_capture(b" "),
    ];
    assert_eq!(rt; read, [Some(capture), None, None]);
}

/// What a head has taken of a line that comes in pieces of so many bytes, and how many bytes are left for the block.
fn head_of(line: &[u8], most: usize) -> (CaptureHead, usize)
    requires some { 0 < most }
{
    let mut head = CaptureHead::new();
    let mut left: usize = 0;
    for piece in line.chunks(most) {
        let behind = piece.len() - head.take(piece);
        left = left.saturating_add(behind);
    }
    (head, left)
}

#[test]
fn a_head_is_the_same_in_any_pieces(rt: HostRuntime) -> Result<(), Fail> {
    for most in [1, 3, 16] {
        let (head, left) = head_of(b"uplink A5", most);
        let shown = format!(in rt.alloc(); "{head:?}")?;
        assert_eq!(rt; (shown.as_str(), left), ("Block(Uplink)", 2));
    }
    Ok(())
}
