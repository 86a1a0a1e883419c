ghost use Rattle.std.specs.Prelude.{◌≡◌, ◌∷◌, ◌++◌, ◌+◌, ◌<◌, ◌^◌, [], IfOk, List, OnOk, length};
ghost use Rattle.packet_heads.specs.declared.packets.Packet.{Packet as PacketTerm};
ghost use Rattle.pcap_records.specs.declared.pcap_record.Records.{Records};
ghost use Rattle.audit_report.specs.CutRecordLine.{cut_record_line};
ghost use Rattle.audit_report.specs.CaptureLines.{capture_text};
ghost use Rattle.audit_report.specs.code.Packets.{AreRecordsOf, HasCounted, counts_line, tally_counts};

use crate::numbered::push_record_line;
use crate::tally::Tally;
use crate::unopened::push_unopened_lines;
use crate::words::{push_field, push_word};
use packet_heads::Packet;
use std::alloc::{AllocError, Global};
use tcp_streams::Stray;

/// What the report says of the packets of a capture, while they come: of all their numbers, and of each fragment and
/// refused packet a line.
#[derive(Drop)]
pub struct CaptureLines {
    /// How many packets came.
    count: u64,
    tally: Tally,
    /// The lines of fragments and refused packets.
    records: Vec<u8>,
}

impl CaptureLines {
    /// No packet was met.
    pub fn new(alloc: Global) -> CaptureLines
        ensures { HasCounted [] result }
    {
        CaptureLines {
            count: 0,
            tally: Tally::NONE,
            records: Vec::new(alloc),
        }
    }

    /// Takes the packet of the next record.
    ///
    /// In line, so that of a packet that is held only what is looked at is copied.
    #[inline(always)]
    pub fn take(&mut self, packet: &Packet) -> Result<(), AllocError>
        requires { (packets : List PacketTerm) × HasCounted packets self.old × (length packets + 1 < 2 ^ 64) }
        ensures { (packets : List PacketTerm) → HasCounted packets self.old
            → OnOk result (HasCounted (packets ++ packet.now ∷ []) self.new) }
    {
        self.count += 1;
        self.tally.add(packet);
        push_record_line(&mut self.records, self.count, packet)
    }

    /// What the report says of the capture itself, once all packets came: the capture line, then a line for each
    /// fragment, each refused packet, the record that the capture's end cuts, and each pair of endpoints whose opening
    /// was not captured.
    ///
    /// There is a packet for each record, so beside these only the number of the cut record is needed. No other line
    /// tells of strays, so they are taken, and their memory is free from here on.
    pub fn finish(self, cut: Option<u32>, strays: Vec<Stray>) -> Result<Vec<u8>, AllocError>
        ensures { (packets : List PacketTerm) (records : Records) → HasCounted packets self
            → AreRecordsOf packets cut records
            → IfOk result (λ text. text.items ≡ capture_text records packets strays.items) }
    {
        let CaptureLines {
            count,
            tally,
            records,
        } = self;
        let mut out = records;
        push_capture_line_in_front(&mut out, count, &tally)?;
        push_cut_record_line(&mut out, cut)?;
        push_unopened_lines(&mut out, strays.as_slice())?;
        Ok(out)
    }
}

/// [`CaptureLines`] of packets that are held.
pub fn capture_lines(
    alloc: Global,
    cut: Option<u32>,
    packets: &[Packet],
    strays: Vec<Stray>,
) -> Result<Vec<u8>, AllocError>
    ensures { IfOk result (λ text. (records : Records) → AreRecordsOf packets.now cut records
        → text.items ≡ capture_text records packets.now strays.items) }
{
    let mut lines = CaptureLines::new(alloc);
    for packet in packets {
        lines.take(packet)?;
    }
    lines.finish(cut, strays)
}

/// Puts the capture line in front of the text. All of this is held once: a capture may have a line for each record.
fn push_capture_line_in_front(
    out: &mut Vec<u8>,
    count: u64,
    tally: &Tally,
) -> Result<(), AllocError>
    ensures { OnOk result (out.new.items ≡ counts_line count tally.now ++ out.old.items) }
{
    let told = out.len();
    push_capture_line(out, count, tally)?;
    let line = out.len() - told;
    out.as_mut_slice().rotate_right(line);
    Ok(())
}

#[tactic(auto, using(crate::proofs::Joins::joins))]
fn push_capture_line(out: &mut Vec<u8>, count: u64, tally: &Tally) -> Result<(), AllocError>
    ensures { OnOk result (out.new.items ≡ out.old.items ++ counts_line count tally.now) }
{
    push_field(out, "capture records ", count)?;
    push_packet_counts(out, tally)?;
    push_word(out, "\n")
}

#[tactic(auto, using(crate::proofs::Joins::joins))]
fn push_packet_counts(out: &mut Vec<u8>, tally: &Tally) -> Result<(), AllocError>
    ensures { OnOk result (out.new.items ≡ out.old.items ++ tally_counts tally.now) }
{
    push_field(out, " segments ", tally.segments)?;
    push_field(out, " snapped ", tally.snapped)?;
    push_field(out, " not-ipv4 ", tally.not_ipv4)?;
    push_field(out, " fragments ", tally.fragments)?;
    push_field(out, " not-tcp ", tally.not_tcp)?;
    push_field(out, " refused ", tally.refused)
}

#[tactic(auto, using(crate::proofs::Joins::joins))]
fn push_cut_record_line(out: &mut Vec<u8>, cut: Option<u32>) -> Result<(), AllocError>
    ensures { OnOk result (out.new.items ≡ out.old.items ++ cut_record_line cut) }
{
    if let Some(number) = cut {
        push_field(out, "record ", number as u64)?;
        push_word(out, " cut\n")?;
    }
    Ok(())
}
