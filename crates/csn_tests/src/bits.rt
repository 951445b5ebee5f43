use csn_bits::{Bits, BitsFault, HexEnd, HexFeed, HexStep, LineWhy, MOST_BITS, Pairs, pattern_bit};
use std::test::Fail;

/// How many digits the longest block line has.
const MOST_DIGITS: usize = 131_072;

#[test]
fn a_line_is_read_and_written(rt: HostRuntime) -> Result<(), Fail> {
    let bits = Bits::from_hex_line(rt.alloc(), b"Ff80/1")?;
    let again = bits.to_hex_line(rt.alloc())?;
    assert_eq!(rt; (bits.len(), again.as_slice()), (9, b"FF80/1".as_slice()));
    Ok(())
}

#[test]
fn no_bytes_are_no_line(rt: HostRuntime) {
    let fault = Bits::from_hex_line(rt.alloc(), b"").err();
    assert_eq!(rt; fault, Some(BitsFault::BadLength));
}

#[test]
fn reads_the_longest_line(rt: HostRuntime) -> Result<(), Fail> {
    let line = vec![in rt.alloc(); b'F'; MOST_DIGITS]?;
    let mut bits = Bits::from_hex_line(rt.alloc(), &line)?;
    let more = bits.push(0);
    let again = bits.to_hex_line(rt.alloc())?;
    assert_eq!(rt;
        (bits.len(), more, again.as_slice()),
        (MOST_BITS, Err(BitsFault::TooManyBits), line.as_slice())
    );
    Ok(())
}

#[test]
fn refuses_a_longer_line(rt: HostRuntime) -> Result<(), Fail> {
    let mut line = vec![in rt.alloc(); b'F'; MOST_DIGITS + 2]?;
    let too_long = Bits::from_hex_line(rt.alloc(), &line).err();
    line.push(b'g')?;
    let bad_digit = Bits::from_hex_line(rt.alloc(), &line).err();
    assert_eq!(rt;
        [too_long, bad_digit],
        [
            Some(BitsFault::TooManyBits),
            Some(BitsFault::BadDigit { column: 131_074 })
        ]
    );
    Ok(())
}

#[test]
fn packs_bits(rt: HostRuntime) -> Result<(), Fail> {
    let mut bits = Bits::from_octets(rt.alloc(), &[0xA5], 3)?;
    let copy = bits.copy(rt.alloc())?;
    let each = [bits.get(0), bits.get(1), bits.get(2)];
    bits.push(1)?;
    assert_eq!(rt;
        (copy.len(), each, copy.octets(), bits.octets()),
        (3, [1, 0, 1], [0xA0].as_slice(), [0xB0].as_slice())
    );
    Ok(())
}

#[test]
fn tells_numbers(rt: HostRuntime) -> Result<(), Fail> {
    let long = Bits::from_octets(rt.alloc(), &[0xA5, 0xFF], 12)?;
    if long.len() <= 64 {
        assert_eq!(rt; long.number(), 0xA5F);
    }
    assert_eq!(rt;
        (
            Bits::new(rt.alloc()).len(),
            [pattern_bit(1), pattern_bit(2), pattern_bit(7)]
        ),
        (0, [0, 1, 1])
    );
    Ok(())
}

#[test]
fn feeds_a_line_byte_by_byte(rt: HostRuntime) {
    let mut feed = HexFeed::new();
    for (byte, step) in [
        (b'A', HexStep::Nothing),
        (b'5', HexStep::Nothing),
        (b'0', HexStep::Nothing),
        (b'f', HexStep::Octet(0xA5)),
        (b'4', HexStep::Nothing),
        (b'0', HexStep::Octet(0x0F)),
        (b'/', HexStep::Nothing),
        (b'2', HexStep::Nothing),
    ] {
        assert!(rt; feed.seen() < 8);
        assert_eq!(rt; feed.byte(byte), step);
    }
    let last = HexEnd::Last {
        octet: 0x40,
        bits: 2,
    };
    assert_eq!(rt;
        [feed.finish(), HexFeed::new().finish()],
        [last, HexEnd::Fault(LineWhy::BadLength)]
    );
}

#[test]
fn takes_whole_pairs_at_once(rt: HostRuntime) {
    let mut feed = HexFeed::new();
    let mut room = [0u8; 4];
    let first = feed.pairs(b"A50f3", &mut room);
    let odd = room[1];
    let more = feed.pairs(b"40/2.", &mut room);
    assert_eq!(rt;
        (first, odd, more, room[0]),
        (
            Some(Pairs { bytes: 4, from: 1 }),
            0xA5,
            Some(Pairs { bytes: 2, from: 0 }),
            0x0F
        )
    );
    let slash = (feed.pairs(b"/2f0F", &mut room), feed.byte(b'/'));
    let digit = (feed.pairs(b"40", &mut room), feed.byte(b'2'));
    let nothing = (None, HexStep::Nothing);
    let last = HexEnd::Last {
        octet: 0x40,
        bits: 2,
    };
    assert_eq!(rt; (slash, digit, feed.finish()), (nothing, nothing, last));
}
