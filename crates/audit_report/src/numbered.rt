ghost use Rattle.std.specs.Prelude.{◌≡◌, ◌++◌, OnOk};
ghost use Rattle.packet_heads.specs.declared.packets.Refusal.{Refusal};
ghost use Rattle.audit_report.specs.RecordLines.{record_line};

use crate::words::{push_field, push_word, push_words};
use packet_heads::{Packet, Refusal, Skip};
use std::alloc::AllocError;

/// Adds the line of a packet that is a fragment or refused, under the number of its record.
#[inline(always)]
pub(crate) fn push_record_line(
    out: &mut Vec<u8>,
    number: u64,
    packet: &Packet,
) -> Result<(), AllocError>
    ensures { OnOk result (out.new.items ≡ out.old.items ++ record_line number packet.now) }
{
    match packet {
        Packet::Skipped(Skip::Fragment) => push_fragment_line(out, number),
        Packet::Refused(refusal) => push_refused_line(out, number, *refusal),
        _ => Ok(()),
    }
}

#[tactic(auto, using(crate::proofs::Joins::joins))]
fn push_fragment_line(out: &mut Vec<u8>, number: u64) -> Result<(), AllocError>
    ensures { OnOk result (out.new.items ≡ out.old.items
        ++ record_line number (Packet.Skipped Skip.Fragment)) }
{
    push_field(out, "record ", number)?;
    push_word(out, " fragment\n")
}

#[tactic(auto, using(crate::proofs::Joins::joins))]
fn push_refused_line(out: &mut Vec<u8>, number: u64, refusal: Refusal) -> Result<(), AllocError>
    ensures { OnOk result (out.new.items ≡ out.old.items ++ record_line number (Packet.Refused refusal)) }
{
    push_field(out, "record ", number)?;
    push_words(out, " refused ", refusal.name())?;
    push_word(out, "\n")
}
