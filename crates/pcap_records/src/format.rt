ghost use Rattle.std.specs.Prelude.{◌≡◌, ◌≤◌, IfSome, length};
ghost use Rattle.pcap_records.specs.FileHeader.{format_of};

use byteorder::{BigEndian, ByteOrder};

/// The order in which a file writes the bytes of its numbers.
#[derive(Clone, Copy)]
pub enum Endian {
    Big,
    Little,
}

/// What the magic at the front of a capture tells.
#[derive(Clone, Copy)]
pub struct Format {
    pub endian: Endian,
    /// The nanoseconds in one unit of a record's fraction.
    pub unit: u64,
}

/// The nanoseconds in a microsecond.
const MICROSECOND: u64 = 1000;
/// The nanoseconds in a nanosecond.
const NANOSECOND: u64 = 1;

/// The format that a header's first four bytes tell, if they are one of the four magics.
pub fn format_of_magic(header: &[u8]) -> Option<Format>
    requires { 4 ≤ length header.now }
    ensures format { result ≡ format_of header.now }
    ensures unit { IfSome result (λ format. format.unit ≤ 1000) }
{
    match BigEndian::read_u32(header) {
        0xa1b2_c3d4 => Some(Format {
            endian: Endian::Big,
            unit: MICROSECOND,
        }),
        0xa1b2_3c4d => Some(Format {
            endian: Endian::Big,
            unit: NANOSECOND,
        }),
        0xd4c3_b2a1 => Some(Format {
            endian: Endian::Little,
            unit: MICROSECOND,
        }),
        0x4d3c_b2a1 => Some(Format {
            endian: Endian::Little,
            unit: NANOSECOND,
        }),
        _ => None,
    }
}
