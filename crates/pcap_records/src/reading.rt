ghost use Rattle.std.specs.Prelude.{◌≡◌, ◌<◌, ◌^◌, ◌⊎◌, IfOk, IfErr, IfSome, IsTrue, None, OnOk, Some, length};
ghost use Rattle.pcap_records.specs.LinkType.{is_read};
ghost use Rattle.pcap_records.specs.code.Place.{AreWithin, AreTimely};
ghost use Rattle.pcap_records.specs.Reading.{IsReading};
ghost use Rattle.pcap_records.specs.Refusal.{refusal};

use crate::faults::PcapFault;
use crate::header::{FILE_HEADER, format_or_refusal, header};
use crate::pcap_record::{Record, Records};
use crate::visitor::RecordVisitor;
use crate::walk::RecordWalk;
use input_output::feed_rest;
use std::alloc::{AllocError, Global};

/// Why a capture with these bytes is refused, if it is: by its header and its length alone.
pub fn refusal(capture: &[u8]) -> Option<PcapFault>
    ensures { result ≡ refusal capture.now }
{
    format_or_refusal(header(capture), capture.len()).err()
}

/// The records of a capture (file format version 2.4), or the first refusal that applies.
///
/// Refusals are tested in the order of their numbers, from the header and the length alone. A capture that is not
/// refused is read whole: bytes at its end that hold no whole record are the cut record, and all before it is kept.
/// Times are in nanoseconds; a fraction above its usual range is used as it is. [`PcapFault::OutOfMemory`] comes only
/// where memory was wanting, for the table of records or for the bytes that begin the cut record.
pub fn records(alloc: Global, capture: &[u8]) -> Result<Records, PcapFault>
    // Nothing refuses the capture, and this is all that it holds.
    ensures ok { IfOk result (λ found. (refusal capture.now ≡ None) × IsReading capture.now found) }
    // What is refused is refused by the first refusal that applies, whatever memory there is.
    ensures refused { IfSome (refusal capture.now) (λ e. result ≡ Err e) }
    // Each fault other than want of memory is that refusal.
    ensures err { IfErr result (λ e. (e ≡ PcapFault.OutOfMemory) ⊎ (refusal capture.now ≡ Some e)) }

    // For callers that use the records: they lie in the capture in order, their times fit, the link type is one of the
    // two, and a place in the capture has 31 bits.
    ensures placed { IfOk result (λ found. AreWithin (length capture.now) found.rows.items) }
    ensures timely { IfOk result (λ found. AreTimely found.rows.items) }
    ensures linked { IfOk result (λ found. IsTrue (is_read found.link)) }
    ensures short { OnOk result (length capture.now < 2 ^ 31) }
{
    let list = RowList {
        rows: Vec::new(alloc),
    };
    let mut walk = RecordWalk::begin(alloc, capture, list)?;
    match feed_rest(alloc, capture, FILE_HEADER, &mut walk) {
        Ok(()) => {
            let link = walk.link();
            let cut = walk.cut(walk.visitor().rows.len() as u32);
            let RowList { rows } = walk.into_visitor();
            Ok(Records { link, rows, cut })
        }
        Err(_) => Err(PcapFault::OutOfMemory),
    }
}

/// The records that a walk hands on, in a list.
#[derive(Drop)]
struct RowList {
    rows: Vec<Record>,
}

impl RecordVisitor for RowList {
    ghost use Rattle.pcap_records.specs.code.Walk.{rows_of};

    ghost after = { λ link seen list. list.rows.items ≡ rows_of seen };

    fn take(
        &mut self,
        _alloc: Global,
        _link: u16,
        row: &Record,
        _packet: &[u8],
    ) -> Result<(), AllocError> {
        self.rows.push(*row)?;
        Ok(())
    }
}
