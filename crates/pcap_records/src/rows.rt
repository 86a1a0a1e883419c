ghost use Rattle.std.specs.Prelude.{◌≡◌, ◌≤◌, ◌<◌, ◌+◌, ◌^◌, length, IfSome, IfNone};
ghost use Rattle.pcap_records.specs.FileHeader.{number_of};
ghost use Rattle.pcap_records.specs.Record.{captured_length, record_at};
ghost use Rattle.pcap_records.specs.code.Walk.{IsNextRecord};

use crate::format::Format;
use crate::nanos::Nanos;
use crate::pcap_record::Record;
use byteorder::ByteOrder;

/// The length of a record's header in bytes.
pub const RECORD_HEADER: usize = 16;

/// The nanoseconds in a second.
const SECOND: u64 = 1_000_000_000;

/// The captured length of the record whose header begins these bytes. `T` is the order of the bytes in numbers.
#[inline]
pub fn captured_length<T: ByteOrder>(front: &[u8]) -> u32
    requires { 16 ≤ length front.now }
    ensures { result ≡ captured_length T.number_of front.now }
{
    T::read_u32(&front[8..])
}

/// The record whose header begins these bytes, which stand at an offset of a capture, if they have all of it.
fn record_behind<T: ByteOrder>(bytes: &[u8], at: usize, unit: u64) -> Option<Record>
    requires header { 16 ≤ length bytes.now }
    requires short { at + length bytes.now ≤ 2 ^ 31 }
    requires unit { unit ≤ 1000 }
    ensures found { IfSome result (λ r. (16 + captured_length T.number_of bytes.now ≤ length bytes.now)
        × (r ≡ record_at T.number_of unit at bytes.now)) }
    ensures time { IfSome result (λ r. r.nanos < 2 ^ 63) }
    ensures none { IfNone result (length bytes.now < 16 + captured_length T.number_of bytes.now) }
{
    let captured = captured_length::<T>(bytes);
    if captured as usize > bytes.len() - RECORD_HEADER {
        return None;
    }
    let seconds = u64::from(T::read_u32(bytes));
    let fraction = u64::from(T::read_u32(&bytes[4..]));
    Some(Record {
        nanos: Nanos::of(seconds * SECOND + fraction * unit),
        original: T::read_u32(&bytes[12..]),
        start: (at + RECORD_HEADER) as u32,
        length: captured,
    })
}

/// The record that these bytes of a capture of this format begin with, if a whole one does; they stand at this offset.
/// `T` is the format's order of bytes.
#[tactic(auto, using(crate::proofs::Fronts::next_by_header))]
pub(crate) fn next_record<T: ByteOrder>(bytes: &[u8], at: usize, format: Format) -> Option<Record>
    requires order { T.number_of ≡ number_of format.endian }
    requires short { at + length bytes.now ≤ 2 ^ 31 }
    requires unit { format.unit ≤ 1000 }
    ensures { IsNextRecord (number_of format.endian) format.unit at bytes.now result }
{
    if bytes.len() < RECORD_HEADER {
        return None;
    }
    record_behind::<T>(bytes, at, format.unit)
}
