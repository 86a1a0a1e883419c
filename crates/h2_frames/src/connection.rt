//! The frames of a connection, cut out of the bytes of its two sides as they come.

ghost use Rattle.std.specs.Prelude.{◌≡◌, ◌+◌, ◌<◌, ◌^◌, [], List, OnOk, length};
ghost use Rattle.audit_terms.specs.declared.sides.Sides.{Sides};
ghost use Rattle.tcp_streams.specs.declared.flows.Flow.{Flow};
ghost use Rattle.tcp_streams.specs.code.Grown.{Growth, of_side};
ghost use Rattle.h2_frames.specs.code.Connection.{HasFed, HasTaken, IsEnding, MayGrow, fed_length, grown};
ghost use Rattle.h2_frames.specs.code.Fed.{Fed, IsFlowFed};
ghost use Rattle.h2_frames.specs.code.Growths.{IsFlowGrown};

use crate::cutter::SideCutter;
use crate::greeting::{Greeting, greeting_of};
use crate::numbering::Numbering;
use crate::side_frames::Source;
use crate::visitor::FrameVisitor;
use audit_terms::{Side, Sides};
use std::alloc::{AllocError, Global};
use tcp_streams::GrowthVisitor;

/// What the two flows of a connection hold, once all their bytes were fed: which kind of [`crate::Cut`] they have.
#[derive(Drop)]
pub enum Ending {
    /// So many frames, which were handed on, and how many bytes each side's flow has after its last frame.
    Http2 { count: u32, tails: Sides<u32> },
    /// The client's bytes do not begin with the connection preface.
    NotHttp2,
    /// The client's bytes end within the connection preface.
    NoPreface,
    /// The server's SYN ACK was not captured.
    NoHandshake,
}

/// The frames of a connection, handed to a visitor in capture order while the flows of both sides grow, of which it is
/// told as a [`GrowthVisitor`].
///
/// After each growth the visitor was handed exactly the frames that the bytes so far hold. A frame is handed on with
/// the record that brings its last byte: each byte arrives with the last of the bytes up to it. The cutter keeps no
/// frame, and of the bytes of each side those alone that begin a frame which is not whole yet: its header, and of its
/// payload what its body is read from.
#[derive(Drop)]
pub struct ConnectionCutter<V> {
    greeting: Greeting,
    client: SideCutter,
    server: SideCutter,
    stage: Numbering<V>,
}

impl<V: FrameVisitor + Drop> GrowthVisitor for ConnectionCutter<V> {
    ghost after = { HasTaken V.after };

    fn take(
        &mut self,
        alloc: Global,
        side: Side,
        bytes: &[u8],
        rec: u32,
        nanos: u64,
    ) -> Result<(), AllocError> {
        let source = Source { side, rec, nanos };
        self.feed(alloc, source, bytes)
    }
}

impl<V: FrameVisitor + Drop> ConnectionCutter<V> {
    /// A cutter that took nothing.
    pub fn new(alloc: Global, visitor: V) -> ConnectionCutter<V>
        requires { V.after [] visitor }
        ensures { HasTaken V.after [] result }
    {
        ConnectionCutter {
            greeting: Greeting::CutShort(0),
            client: SideCutter::new(alloc),
            server: SideCutter::new(alloc),
            stage: Numbering { visitor, taken: 0 },
        }
    }

    /// Takes the next bytes of a side's flow, which a record brings.
    fn feed(&mut self, alloc: Global, source: Source, bytes: &[u8]) -> Result<(), AllocError>
        requires fed { (fed : Sides Fed) × HasFed V.after fed self.old × (fed_length fed + length bytes.now < 2 ^ 31) }
        requires time { source.nanos < 2 ^ 63 }
        ensures { (fed : Sides Fed) → HasFed V.after fed self.old → MayGrow source.side source.rec fed
            → OnOk result (HasFed V.after (grown source.side bytes.now source.rec source.nanos fed) self.new) }
    {
        match source.side {
            Side::Client => self.feed_client(alloc, source, bytes),
            Side::Server => self.feed_server(alloc, source, bytes),
        }
    }

    /// Takes the next bytes of the client's flow.
    fn feed_client(&mut self, alloc: Global, source: Source, bytes: &[u8]) -> Result<(), AllocError>
        requires side { source.side ≡ Side.Client }
        requires fed { (fed : Sides Fed) × HasFed V.after fed self.old × (fed_length fed + length bytes.now < 2 ^ 31) }
        requires time { source.nanos < 2 ^ 63 }
        ensures { (fed : Sides Fed) → HasFed V.after fed self.old → MayGrow Side.Client source.rec fed
            → OnOk result (HasFed V.after (grown Side.Client bytes.now source.rec source.nanos fed) self.new) }
    {
        match self.greeting {
            Greeting::CutShort(matched) => self.greet(alloc, source, matched, bytes),
            Greeting::Other => Ok(()),
            Greeting::Whole => self.client.feed(alloc, source, bytes, &mut self.stage),
        }
    }

    /// Takes the next bytes of a client that sent so many bytes of the preface, and not all of it.
    fn greet(
        &mut self,
        alloc: Global,
        source: Source,
        matched: usize,
        bytes: &[u8],
    ) -> Result<(), AllocError>
        requires side { source.side ≡ Side.Client }
        requires short { self.old.greeting ≡ Greeting.CutShort matched }
        requires fed { (fed : Sides Fed) × HasFed V.after fed self.old × (fed_length fed + length bytes.now < 2 ^ 31) }
        requires time { source.nanos < 2 ^ 63 }
        ensures { (fed : Sides Fed) → HasFed V.after fed self.old → MayGrow Side.Client source.rec fed
            → OnOk result (HasFed V.after (grown Side.Client bytes.now source.rec source.nanos fed) self.new) }
    {
        let (greeting, rest) = greeting_of(matched, bytes);
        self.greeting = greeting;
        match greeting {
            Greeting::CutShort(_) => Ok(()),
            Greeting::Other => Ok(()),
            Greeting::Whole => self.client.feed(alloc, source, rest, &mut self.stage),
        }
    }

    /// Takes the next bytes of the server's flow.
    fn feed_server(&mut self, alloc: Global, source: Source, bytes: &[u8]) -> Result<(), AllocError>
        requires side { source.side ≡ Side.Server }
        requires fed { (fed : Sides Fed) × HasFed V.after fed self.old × (fed_length fed + length bytes.now < 2 ^ 31) }
        requires time { source.nanos < 2 ^ 63 }
        ensures { (fed : Sides Fed) → HasFed V.after fed self.old → MayGrow Side.Server source.rec fed
            → OnOk result (HasFed V.after (grown Side.Server bytes.now source.rec source.nanos fed) self.new) }
    {
        match self.greeting {
            Greeting::Other => Ok(()),
            _ => self.server.feed(alloc, source, bytes, &mut self.stage),
        }
    }

    /// Which kind of cut the two flows have, where all their bytes were fed.
    fn ending(&self, started: bool) -> Ending
        requires { (fed : Sides Fed) × HasFed V.after fed self.now × (fed_length fed < 2 ^ 31) }
        ensures { (fed : Sides Fed) (client server : Flow) → HasFed V.after fed self.now → IsFlowFed client fed.client
            → IsFlowFed server fed.server → server.started ≡ started
            → IsEnding V.after client server self.now.stage.visitor result }
    {
        if !started {
            return Ending::NoHandshake;
        }
        match self.greeting {
            Greeting::CutShort(_) => Ending::NoPreface,
            Greeting::Other => Ending::NotHttp2,
            Greeting::Whole => Ending::Http2 {
                count: self.stage.taken,
                tails: Sides {
                    client: self.client.tail(),
                    server: self.server.tail(),
                },
            },
        }
    }

    /// What the visitor was made, and which kind of cut the two flows have, where they are all that was taken.
    /// `started` says whether the server's initial sequence number is known.
    ///
    /// What the visitor was handed counts where the connection is HTTP/2, and for nothing else.
    pub fn finish(self, started: bool) -> (V, Ending)
        requires { (grown : List Growth) × HasTaken V.after grown self }
        ensures { (grown : List Growth) (client server : Flow) → HasTaken V.after grown self
            → IsFlowGrown client (of_side Side.Client grown) → IsFlowGrown server (of_side Side.Server grown)
            → server.started ≡ started → IsEnding V.after client server result.0 result.1 }
    {
        let ending = self.ending(started);
        let ConnectionCutter { stage, .. } = self;
        let Numbering { visitor, taken: _ } = stage;
        (visitor, ending)
    }
}
