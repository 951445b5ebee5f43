ghost use Rattle.std.specs.Prelude.{◌≡◌, ◌∷◌, [], Some, IfSome};
ghost use Rattle.csn_catalogue.specs.Entries.{entry_word, entry_root, all_entries};

/// A family of blocks, which one rule of the catalogue describes.
#[derive(Clone, Copy, Debug, Drop, PartialEq, Eq)]
pub enum Entry {
    /// RLC/MAC control messages sent uplink (3GPP TS 44.060 clause 11).
    Uplink,
    /// RLC/MAC control messages sent downlink (3GPP TS 44.060 clause 11).
    Downlink,
    /// Rest octets of System Information Type 1 (3GPP TS 44.018 clause 10), and so on by their types.
    Si1,
    Si3,
    Si4,
    Si13,
    /// Rest octets of Immediate Assignment (3GPP TS 44.018 clause 10).
    Ia,
}

/// All entries, in the order in which they are written down everywhere.
pub fn entries() -> [Entry; 7]
    ensures { result ≡ all_entries }
{
    [
        Entry::Uplink,
        Entry::Downlink,
        Entry::Si1,
        Entry::Si3,
        Entry::Si4,
        Entry::Si13,
        Entry::Ia,
    ]
}

/// How an entry is called.
#[derive(Clone, Copy)]
struct Names {
    /// The word by which it is asked for.
    word: &'static [u8],
    /// The name of the rule that describes its blocks.
    root: &'static [u8],
}

/// How each entry is called.
fn names_of(entry: Entry) -> Names
    ensures word { result.word.now ≡ entry_word entry }
    ensures root { result.root.now ≡ entry_root entry }
{
    let (word, root): (&'static [u8], &'static [u8]) = match entry {
        Entry::Uplink => (b"uplink", b"Uplink Control Block"),
        Entry::Downlink => (b"downlink", b"Downlink Control Block"),
        Entry::Si1 => (b"si1", b"SI 1 Rest Octets"),
        Entry::Si3 => (b"si3", b"SI 3 Rest Octets"),
        Entry::Si4 => (b"si4", b"SI 4 Rest Octets"),
        Entry::Si13 => (b"si13", b"SI 13 Rest Octets"),
        Entry::Ia => (b"ia", b"IA Rest Octets"),
    };
    Names { word, root }
}

/// The word by which an entry is asked for.
pub fn word_of(entry: Entry) -> &'static [u8]
    ensures { result.now ≡ entry_word entry }
{
    names_of(entry).word
}

/// The entry that has this word.
pub fn entry_of(word: &[u8]) -> Option<Entry>
    ensures its_word { IfSome result (λ entry. word.now ≡ entry_word entry) }
    ensures of_each_word { (entry : _) → word.now ≡ entry_word entry → result ≡ Some entry }
{
    match word {
        b"uplink" => Some(Entry::Uplink),
        b"downlink" => Some(Entry::Downlink),
        b"si1" => Some(Entry::Si1),
        b"si3" => Some(Entry::Si3),
        b"si4" => Some(Entry::Si4),
        b"si13" => Some(Entry::Si13),
        b"ia" => Some(Entry::Ia),
        _ => None,
    }
}

/// The name of the rule that describes the entry's blocks.
pub fn root_of(entry: Entry) -> &'static [u8]
    ensures { result.now ≡ entry_root entry }
{
    names_of(entry).root
}
