ghost use Rattle.std.specs.Prelude.{◌≡◌, ◌≤◌, ◌<◌, ◌^◌, IfErr, IfNone, IfOk, IsTrue, None, OnOk, Some, length, min};
ghost use Rattle.pcap_records.specs.FileHeader.{format_of, header_of, is_version, link_of, number_of};
ghost use Rattle.pcap_records.specs.LinkType.{is_read};
ghost use Rattle.pcap_records.specs.Refusal.{refusal_in, refusal_of};

use crate::faults::PcapFault;
use crate::format::{Endian, Format, format_of_magic};
use crate::pcap_record::{ETHERNET, RAW_IP};
use byteorder::{BigEndian, ByteOrder, LittleEndian};
use input_output::LIMIT;

/// The length of the file header in bytes.
pub const FILE_HEADER: usize = 24;

/// The most bytes that a capture may have.
pub const MOST_BYTES: usize = LIMIT - 1;

/// The link type that a header names.
fn link_type<T: ByteOrder>(header: &[u8]) -> u16
    requires { 24 ≤ length header.now }
    ensures { result ≡ link_of T.number_of header.now }
{
    (T::read_u32(&header[20..]) & 0xffff) as u16
}

/// The link type that a header whose numbers are in this order of bytes names.
pub fn link_in(endian: Endian, header: &[u8]) -> u16
    requires { 24 ≤ length header.now }
    ensures { result ≡ link_of (number_of endian) header.now }
{
    match endian {
        Endian::Big => link_type::<BigEndian>(header),
        Endian::Little => link_type::<LittleEndian>(header),
    }
}

/// Whether a header names version 2.4.
fn is_version<T: ByteOrder>(header: &[u8]) -> bool
    requires { 24 ≤ length header.now }
    ensures { result ≡ is_version T.number_of header.now }
{
    T::read_u16(&header[4..]) == 2 && T::read_u16(&header[6..]) == 4
}

/// What refuses a capture of `size` bytes whose header is this one, with the order of bytes known.
fn late_fault<T: ByteOrder>(header: &[u8], size: usize) -> Option<PcapFault>
    requires { 24 ≤ length header.now }
    ensures fault { result ≡ refusal_in T.number_of header.now size }
    ensures size { IfNone result (size < 2 ^ 31) }
    ensures version { IfNone result (IsTrue (is_version T.number_of header.now)) }
    ensures linked { IfNone result (IsTrue (is_read (link_of T.number_of header.now))) }
{
    let link = link_type::<T>(header);
    if !is_version::<T>(header) {
        Some(PcapFault::BadVersion)
    } else if link != ETHERNET && link != RAW_IP {
        Some(PcapFault::LinkType)
    } else if size > MOST_BYTES {
        Some(PcapFault::TooLarge)
    } else {
        None
    }
}

/// The header at the front of a capture, or what there is of it.
pub(crate) fn header(capture: &[u8]) -> &[u8]
    ensures bytes { result.now ≡ header_of capture.now }
    ensures length { length result.now ≡ min 24 (length capture.now) }
{
    &capture[..capture.len().min(FILE_HEADER)]
}

/// The format that the header of a capture of this size tells, or the first refusal that applies.
pub(crate) fn format_or_refusal(header: &[u8], size: usize) -> Result<Format, PcapFault>
    requires { length header.now ≡ min 24 size }
    ensures known { IfOk result (λ format. format_of header.now ≡ Some format) }
    ensures taken { OnOk result (refusal_of header.now size ≡ None) }
    ensures whole { OnOk result (24 ≤ size) }
    ensures short { OnOk result (size < 2 ^ 31) }
    ensures unit { IfOk result (λ format. format.unit ≤ 1000) }
    ensures version { IfOk result (λ format. IsTrue (is_version (number_of format.endian) header.now)) }
    ensures linked { IfOk result (λ format. IsTrue (is_read (link_of (number_of format.endian) header.now))) }
    ensures refused { IfErr result (λ fault. refusal_of header.now size ≡ Some fault) }
{
    if size < FILE_HEADER {
        return Err(PcapFault::ShortHeader);
    }
    let format = match format_of_magic(header) {
        Some(format) => format,
        None => return Err(PcapFault::BadMagic),
    };
    let late = match format.endian {
        Endian::Big => late_fault::<BigEndian>(header, size),
        Endian::Little => late_fault::<LittleEndian>(header, size),
    };
    match late {
        Some(fault) => Err(fault),
        None => Ok(format),
    }
}
