//! The packets of a capture, made while it is read.

ghost use Rattle.std.specs.Prelude.{◌≡◌, ◌<◌, ◌≤◌, ◌^◌, [], ℕ, Err, IfErr, IfOk, IfSome, List, None, OnOk, Some};
ghost use Rattle.std.specs.Prelude.{length, take};
ghost use Rattle.pcap_records.specs.Refusal.{refusal};
ghost use Rattle.packet_heads.specs.code.Walk.{HasMade, HasMet};

use crate::stage::PacketStage;
use crate::visitor::PacketVisitor;
use input_output::FrontWalk;
use pcap_records::{PcapFault, RecordWalk};
use std::alloc::{AllocError, Global};

/// The packets of a capture, handed to a visitor as its bytes are fed.
///
/// After each feeding the visitor was handed exactly the packets of all bytes that were fed. The walk keeps none, and
/// of the bytes those alone that begin a record which is not whole yet.
#[derive(Drop)]
pub struct PacketWalk<V> {
    records: RecordWalk<PacketStage<V>>,
}

impl<V: PacketVisitor + Drop> PacketWalk<V> {
    /// A walk that begins behind the file header, which it was fed, or the refusal of these bytes.
    pub fn begin(alloc: Global, front: &[u8], visitor: V) -> Result<PacketWalk<V>, PcapFault>
        requires { V.after [] visitor }
        ensures ok { IfOk result (HasMade V.after (take 24 front.now)) }
        ensures taken { OnOk result (refusal front.now ≡ None) }
        ensures whole { OnOk result (24 ≤ length front.now) }
        ensures short { OnOk result (length front.now < 2 ^ 31) }
        ensures err { IfErr result (λ e. refusal front.now ≡ Some e) }
    {
        let stage = PacketStage { count: 0, visitor };
        match RecordWalk::begin(alloc, front, stage) {
            Ok(records) => Ok(PacketWalk { records }),
            Err(fault) => Err(fault),
        }
    }

    /// What all packets of a capture made of the visitor, and the number of the record that the end of the capture
    /// cuts; or the refusal of the capture.
    ///
    /// The walk is to have been fed all of the capture, whose bytes nobody need have kept: its header was taken, so its
    /// length alone can refuse it. A capture that is not refused is read whole: bytes at its end that hold no whole
    /// record are the cut record, and all before it counts. It takes no memory.
    pub fn end(self) -> Result<(V, Option<u32>), PcapFault>
        requires { (capture : List ℕ) × HasMade V.after capture self × (length capture ≤ 2 ^ 31) }
        ensures taken { (capture : List ℕ) → HasMade V.after capture self → OnOk result (refusal capture ≡ None) }
        ensures met { (capture : List ℕ) → HasMade V.after capture self
            → IfOk result (λ found. HasMet V.after capture found.0 found.1) }
        ensures refused { (capture : List ℕ) → HasMade V.after capture self
            → IfSome (refusal capture) (λ e. result ≡ Err e) }
        ensures err { (capture : List ℕ) → HasMade V.after capture self → IfErr result (λ e. refusal capture ≡ Some e) }
        ensures short { (capture : List ℕ) → HasMade V.after capture self → OnOk result (length capture < 2 ^ 31) }
    {
        if let Some(fault) = self.records.refusal() {
            return Err(fault);
        }
        let cut = self.records.cut(self.records.visitor().count);
        let PacketStage { visitor, count: _ } = self.records.into_visitor();
        Ok((visitor, cut))
    }
}

impl<V: PacketVisitor + Drop> FrontWalk for PacketWalk<V> {
    ghost stands = { HasMade V.after };

    fn feed(&mut self, alloc: Global, more: &[u8]) -> Result<(), AllocError> {
        self.records.feed(alloc, more)
    }
}
