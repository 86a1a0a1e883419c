ghost use Rattle.std.specs.Prelude.{◌≡◌, ◌≤◌, ◌<◌, ◌^◌, length};
ghost use Rattle.h2_frames.specs.Header.{header_of, number_of_31_bits};

use byteorder::{BigEndian, ByteOrder};

/// How many bytes a frame header takes (RFC 9113, 4.1).
pub(crate) const HEADER_LENGTH: usize = 9;

/// A frame header (RFC 9113, 4.1).
#[derive(Clone, Copy)]
pub struct Header {
    /// The length of the payload in bytes, 24 bits.
    pub length: u32,
    /// The type byte.
    pub code: u8,
    /// The flags byte.
    pub flags: u8,
    /// The stream identifier, 31 bits.
    pub stream: u32,
}

/// A number of 31 bits, behind a reserved bit that is ignored.
pub(crate) fn number_of_31_bits(bytes: &[u8]) -> u32
    requires { 4 ≤ length bytes.now }
    ensures exact { result ≡ number_of_31_bits bytes.now }
    ensures range { result < 2 ^ 31 }
{
    BigEndian::read_u32(bytes) % (1 << 31)
}

impl Header {
    /// The header in the first nine bytes.
    pub(crate) fn read(bytes: &[u8]) -> Self
        requires { 9 ≤ length bytes.now }
        ensures exact { result ≡ header_of bytes.now }
        ensures length { result.length < 2 ^ 24 }
        ensures stream { result.stream < 2 ^ 31 }
    {
        Header {
            length: BigEndian::read_u24(bytes),
            code: bytes[3],
            flags: bytes[4],
            stream: number_of_31_bits(&bytes[5..]),
        }
    }
}
