//! What a file header says of the records behind it.

ghost use Rattle.std.specs.Prelude.{◌≡◌, ◌≤◌, IfSome, length};
ghost use Rattle.pcap_records.specs.FileHeader.{format_of, link_of, number_of};
ghost use Rattle.capture_parts.specs.Files.{order_of};

use pcap_records::{Endian, format_of_magic, link_in};

/// The order of the bytes in the numbers of a file with this header.
fn endian(header: &[u8]) -> Endian
    requires { 4 ≤ length header.now }
    ensures { IfSome (format_of header.now) (λ format. result ≡ format.endian) }
{
    match format_of_magic(header) {
        Some(format) => format.endian,
        None => Endian::Big,
    }
}

/// Are the numbers of a file with this header little-endian?
pub(crate) fn is_little(header: &[u8]) -> bool
    requires { 4 ≤ length header.now }
    ensures { IfSome (format_of header.now) (λ format. order_of result ≡ number_of format.endian) }
{
    match endian(header) {
        Endian::Big => false,
        Endian::Little => true,
    }
}

/// The link type in a header.
pub(crate) fn link_type(header: &[u8]) -> u16
    requires { 24 ≤ length header.now }
    ensures { IfSome (format_of header.now) (λ format. result ≡ link_of (number_of format.endian) header.now) }
{
    link_in(endian(header), header)
}
