//! Where the next record of a capture begins, and how to read it.

ghost use Rattle.std.specs.Prelude.{◌≡◌, ◌<◌, ◌≤◌, ◌+◌, ◌^◌, [], IfErr, IfNone, IfOk, IfSome, None, OnOk, Some, length};
ghost use Rattle.pcap_records.specs.FileHeader.{number_of};
ghost use Rattle.pcap_records.specs.Refusal.{refusal};
ghost use Rattle.pcap_records.specs.code.Walk.{HasPassed, IsNextRecord};

use crate::faults::PcapFault;
use crate::format::{Endian, Format};
use crate::header::{FILE_HEADER, format_or_refusal, header, link_in};
use crate::pcap_record::Record;
use crate::rows::next_record;
use byteorder::{BigEndian, LittleEndian};

/// Where the next record of a capture begins, and how to read it.
#[derive(Clone, Copy)]
pub(crate) struct RecordCursor {
    pub format: Format,
    pub link: u16,
    /// Where the next record begins.
    pub at: usize,
}

impl RecordCursor {
    /// The cursor behind the file header, or the refusal of these bytes.
    pub fn begin(front: &[u8]) -> Result<RecordCursor, PcapFault>
        ensures ok { IfOk result (HasPassed front.now []) }
        ensures at { IfOk result (λ cursor. cursor.at ≡ 24) }
        ensures taken { OnOk result (refusal front.now ≡ None) }
        ensures whole { OnOk result (24 ≤ length front.now) }
        ensures short { OnOk result (length front.now < 2 ^ 31) }
        ensures err { IfErr result (λ e. refusal front.now ≡ Some e) }
    {
        let header = header(front);
        match format_or_refusal(header, front.len()) {
            Ok(format) => Ok(RecordCursor {
                format,
                link: link_in(format.endian, header),
                at: FILE_HEADER,
            }),
            Err(fault) => Err(fault),
        }
    }

    /// Steps over the record that these bytes begin with, if a whole one does. They stand where the cursor does.
    pub fn next(&mut self, bytes: &[u8]) -> Option<Record>
        requires unit { self.old.format.unit ≤ 1000 }
        requires short { self.old.at + length bytes.now ≤ 2 ^ 31 }
        ensures next { IsNextRecord (number_of self.old.format.endian) self.old.format.unit self.old.at bytes.now
            result }
        ensures some { IfSome result (λ row. self.new ≡ record self.old { at = row.start + row.length }) }
        ensures none { IfNone result (self.new ≡ self.old) }
    {
        let next = match self.format.endian {
            Endian::Big => next_record::<BigEndian>(bytes, self.at, self.format),
            Endian::Little => next_record::<LittleEndian>(bytes, self.at, self.format),
        };
        if let Some(record) = &next {
            self.at = record.start as usize + record.length as usize;
        }
        next
    }
}
