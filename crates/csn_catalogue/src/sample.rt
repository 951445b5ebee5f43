ghost use Rattle.std.specs.Prelude.{◌≡◌, ◌≤◌, ◌+◌, ◌*◌, length};
ghost use Rattle.csn_catalogue.specs.Samples.{sample_octets, field_at, field_width};

use crate::entry::Entry;

/// A block, and a field of it that may have any value: the block stays one of its entry, however it is read.
#[derive(Clone, Copy, Debug, Drop, PartialEq, Eq)]
pub struct Sample {
    pub octets: &'static [u8],
    /// The bit at which the field begins, from 0.
    pub at: u32,
    /// How many bits the field has.
    pub width: u32,
}

/// The TLLI is the field.
static PACKET_CONTROL_ACKNOWLEDGEMENT: [u8; 22] = [
    0x04, 0x00, 0x00, 0x00, 0x03, 0x2B, 0x2B, 0x2B, 0x2B, 0x2B, 0x2B, 0x2B, 0x2B, 0x2B, 0x2B, 0x2B,
    0x2B, 0x2B, 0x2B, 0x2B, 0x2B, 0x2B,
];

/// The TLLI is the field.
static PACKET_POLLING_REQUEST: [u8; 22] = [
    0x10, 0xB0, 0x00, 0x00, 0x00, 0x6B, 0x2B, 0x2B, 0x2B, 0x2B, 0x2B, 0x2B, 0x2B, 0x2B, 0x2B, 0x2B,
    0x2B, 0x2B, 0x2B, 0x2B, 0x2B, 0x2B,
];

/// The NCH position is the field.
static SI1_REST_OCTETS: [u8; 1] = [0x83];

/// The first bits of the later parts are the field.
static SI3_REST_OCTETS: [u8; 4] = [0x2B; 4];

/// The first bits of the later parts are the field.
static SI4_REST_OCTETS: [u8; 3] = [0x2B; 3];

/// The RAC is the field.
static SI13_REST_OCTETS: [u8; 20] = [
    0x90, 0x00, 0x58, 0x40, 0x6F, 0xA2, 0xA0, 0x0F, 0x51, 0x2B, 0x2B, 0x2B, 0x2B, 0x2B, 0x2B, 0x2B,
    0x2B, 0x2B, 0x2B, 0x2B,
];

/// The TLLI of a packet downlink assignment is the field.
static IA_REST_OCTETS: [u8; 11] = [
    0xD0, 0x00, 0x00, 0x00, 0x00, 0x2B, 0x2B, 0x2B, 0x2B, 0x2B, 0x2B,
];

/// The sample block of an entry.
pub fn sample_of(entry: Entry) -> Sample
    ensures octets { result.octets.now ≡ sample_octets entry }
    ensures at { result.at ≡ field_at entry }
    ensures width { result.width ≡ field_width entry }
    ensures within { result.at + result.width ≤ 8 * length result.octets.now }
    ensures short { length result.octets.now ≤ 22 }
{
    let (octets, at, width): (&'static [u8], u32, u32) = match entry {
        Entry::Uplink => (&PACKET_CONTROL_ACKNOWLEDGEMENT, 6, 32),
        Entry::Downlink => (&PACKET_POLLING_REQUEST, 10, 32),
        Entry::Si1 => (&SI1_REST_OCTETS, 1, 5),
        Entry::Si3 => (&SI3_REST_OCTETS, 6, 16),
        Entry::Si4 => (&SI4_REST_OCTETS, 3, 16),
        Entry::Si13 => (&SI13_REST_OCTETS, 10, 8),
        Entry::Ia => (&IA_REST_OCTETS, 4, 32),
    };
    Sample { octets, at, width }
}
