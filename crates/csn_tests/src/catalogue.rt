use csn_catalogue::{Entry, entries, entry_of, root_of, sample_of, text, word_of};

/// A sum behind one more bit.
fn shifted(sum: u32) -> u32 {
    let half = sum >> 1;
    if sum % 2 == 1 {
        half ^ 0xEDB8_8320
    } else {
        half
    }
}

/// A sum behind one more byte.
fn summed(sum: u32, byte: u8) -> u32 {
    let mut sum = sum ^ u32::from(byte);
    for _ in 0..8 {
        sum = shifted(sum);
    }
    sum
}

/// The CRC-32 of some bytes, as zlib, gzip and Ethernet have it.
fn crc_of(bytes: &[u8]) -> u32 {
    let mut sum = u32::MAX;
    for byte in bytes {
        sum = summed(sum, *byte);
    }
    !sum
}

/// The sum of the text was computed by zlib.crc32 of Python from the file that the catalogue was copied from, so a field
/// that is shortened here is seen. That of the nine digits is the check value that is published with the CRC.
#[test]
fn the_text_is_whole(rt: HostRuntime) {
    let sums = (crc_of(b"123456789"), text().len(), crc_of(text()));
    assert_eq!(rt; sums, (0xCBF4_3926, 10_856, 0xAE96_626A));
}

/// An entry, its word, its root, how many octets its sample has, and where the field of the sample stands.
type EntryCase = (Entry, &'static str, &'static str, usize, u32, u32);

const ENTRIES: [EntryCase; 7] = [
    (Entry::Uplink, "uplink", "Uplink Control Block", 22, 6, 32),
    (
        Entry::Downlink,
        "downlink",
        "Downlink Control Block",
        22,
        10,
        32,
    ),
    (Entry::Si1, "si1", "SI 1 Rest Octets", 1, 1, 5),
    (Entry::Si3, "si3", "SI 3 Rest Octets", 4, 6, 16),
    (Entry::Si4, "si4", "SI 4 Rest Octets", 3, 3, 16),
    (Entry::Si13, "si13", "SI 13 Rest Octets", 20, 10, 8),
    (Entry::Ia, "ia", "IA Rest Octets", 11, 4, 32),
];

/// The entry that a word names.
fn named_by(word: &str) -> Option<Entry> {
    entry_of(word.as_bytes())
}

#[test]
fn each_entry_has_its_word_its_root_and_its_sample(rt: HostRuntime) {
    for (entry, (listed, word, root, octets, at, width)) in entries().into_iter().zip(ENTRIES) {
        let sample = sample_of(entry);
        assert_eq!(rt;
            (entry, word_of(entry), named_by(word), root_of(entry)),
            (listed, word.as_bytes(), Some(listed), root.as_bytes())
        );
        assert_eq!(rt;
            (sample.octets.len(), sample.at, sample.width),
            (octets, at, width)
        );
    }
}

#[test]
fn other_words_name_no_entry(rt: HostRuntime) {
    let named = ["", "si", "si 1", "SI1", "si13 "].map(|word| named_by(word).is_some());
    assert_eq!(rt; named, [false; 5]);
}
