//! The header of a downlink block, as far as it says what the block carries.
ghost use Rattle.std.specs.Prelude.{◌≡◌, ◌<◌, length};
ghost use Rattle.csn_segment.specs.Header.{payload_type_of, segment_of, rti_of, has_address, header_octets};

/// What a block carries, by its payload type, the first two bits of the MAC header.
#[derive(Clone, Copy, Debug)]
pub(crate) enum PayloadType {
    /// 00: an RLC data block.
    Data,
    /// 01: an RLC/MAC control block without the optional octets of the control header.
    Control,
    /// 10: an RLC/MAC control block with them, so it may be one of two segments.
    SegmentedControl,
    /// 11.
    Reserved,
}

/// Which part of its message a block carries, by the reduced block sequence number (RBSN) and the final segment
/// bit (FS).
#[derive(Clone, Copy, Debug)]
pub(crate) enum Segment {
    /// RBSN 0, FS 1: the whole message.
    Only,
    /// RBSN 0, FS 0: the first of two segments.
    First,
    /// RBSN 1, FS 1: the second of two segments.
    Second,
    /// RBSN 1, FS 0: a second segment behind which a third one would come, which there is not.
    NotFinal,
}

/// The first optional octet of the control header.
#[derive(Clone, Copy, Debug)]
pub(crate) struct ControlHeader {
    pub segment: Segment,
    /// The radio transaction identifier (RTI), which both segments of a message share.
    pub rti: u8,
    /// The address control bit (AC): one more octet follows, with the power reduction (PR), the temporary flow
    /// identity (TFI) and the direction bit (D).
    pub has_address: bool,
}

/// How many values an RTI has.
pub(crate) const TRANSACTIONS: usize = 32;

impl PayloadType {
    /// The payload type in the first octet of a block.
    pub fn of(block: &[u8]) -> PayloadType
        requires { 0 < length block.now }
        ensures { result ≡ payload_type_of block.now }
    {
        match block[0] >> 6 {
            0b00 => PayloadType::Data,
            0b01 => PayloadType::Control,
            0b10 => PayloadType::SegmentedControl,
            _ => PayloadType::Reserved,
        }
    }
}

impl ControlHeader {
    /// The control header of a block with the optional octets.
    pub fn of(block: &[u8]) -> ControlHeader
        requires { 1 < length block.now }
        ensures segment { result.segment ≡ segment_of block.now }
        ensures rti { result.rti ≡ rti_of block.now }
        ensures small { result.rti < TRANSACTIONS }
        ensures address { result.has_address ≡ has_address block.now }
    {
        let octet = block[1];
        let (is_second, is_final) = (octet >> 7 == 1, octet >> 1 & 1 == 1);
        let segment = match (is_second, is_final) {
            (false, true) => Segment::Only,
            (false, false) => Segment::First,
            (true, true) => Segment::Second,
            (true, false) => Segment::NotFinal,
        };
        ControlHeader {
            segment,
            rti: octet >> 2 & 0b1_1111,
            has_address: octet & 1 == 1,
        }
    }

    /// How many octets stand before the body: the MAC header and the optional octets.
    pub fn octets(self) -> usize
        ensures { result ≡ header_octets self.has_address }
    {
        if self.has_address { 3 } else { 2 }
    }
}
