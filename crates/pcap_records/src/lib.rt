//! The records of a classic pcap capture (file format version 2.4).
//!
//! - [`RecordWalk`] is fed the bytes of a capture in turn (`input_output::FrontWalk`), and hands each record to a
//!   [`RecordVisitor`] as soon as its last byte was fed. It takes the four magics of the format (either byte order,
//!   microseconds or nanoseconds). It keeps no record, and of the bytes only those that begin one that is not whole.
//! - [`records`] feeds it a whole capture, and returns the whole records in file order and the number of the record
//!   that the end of the capture cuts, or the first refusal that applies, in the order of [`PcapFault`].
//! - The contracts equate both answers with definitions over the bytes alone: `refusal` of `specs/Refusal.antt` looks
//!   at the header and the length; `IsReading` of `specs/Reading.antt` is a relation by cases: 16 header bytes, the
//!   captured bytes, then the rest. They share no offset and no loop with the code.
//! - Both programs use one name for a fault ([`PcapFault::name`], or [`fault_text`] behind a literal).
//! - The header and the length decide a refusal before any memory is taken, so it is returned whatever memory there is.
//!   Every other fault is want of memory. A walk has taken the header, so of a capture that it was fed whole the length
//!   alone decides ([`RecordWalk::refusal`]), and nobody need have kept its bytes.
//! - [`format_of_magic`], [`link_in`] and [`captured_length`] read single fields of a header.
//! - There are fewer than 2^27 records; they ascend in the capture without overlap; their times are below 2^63; the
//!   link type is one of the two that are read; the capture has fewer than 2^31 bytes. So lengths and offsets fit 31
//!   bits, frame numbers fit 28, and a place is one word.
//! - [`laws`]: a capture has one reading; its first 2^31 bytes are refused exactly as the whole, so a program may stop
//!   reading there; a header that is refused by itself is refused alike whatever follows, so a program need not keep
//!   what follows; a capture of 2^31 - 1 bytes is not too large, which no test could afford; bytes behind a capture add
//!   records and change none.
//! - [`worked_examples`]: the four magics, each refusal at the value that decides, the order of refusals, times in both
//!   units, cut records, and one that more bytes complete.
//! - The prover refuses: a walk that begins at the file header, or goes on in the other byte order; a refusal left out,
//!   or told one byte too late.
//! - `crate_tests` tests how faults print; whole reports test that a walk succeeds where there is memory.
#![tactic(auto)]

mod cursor;
mod faults;
mod format;
mod header;
pub mod laws;
mod nanos;
mod pcap_record;
mod reading;
mod rows;
mod visitor;
mod walk;
pub mod worked_examples;

pub use faults::PcapFault;
pub use format::{Endian, Format, format_of_magic};
pub use header::{FILE_HEADER, MOST_BYTES, link_in};
pub use nanos::Nanos;
pub use pcap_record::{ETHERNET, RAW_IP, Record, Records};
pub use reading::{records, refusal};
pub use rows::{RECORD_HEADER, captured_length};
pub use visitor::RecordVisitor;
pub use walk::RecordWalk;
