ghost use Rattle.std.specs.Prelude.{◌≡◌, ◌<◌, ◌≤◌, ◌^◌, ◌++◌, None, [], false, All, length, IsTrue, IfOk, IsOk, OnOk};
ghost use Rattle.std.specs.Prelude.{IfSome};
ghost use Rattle.packet_heads.specs.code.Order.{AreNumberedFrom, PayloadsRise, TimesFit};
ghost use Rattle.tcp_streams.specs.code.Orderly.{IsOrderly, AreMembers, payload_sum};
ghost use Rattle.tcp_streams.specs.Bytes.{bytes_of, joined};
ghost use Rattle.tcp_streams.specs.Flow.{IsFlow};
ghost use Rattle.tcp_streams.specs.Members.{initial_of, side_segments};
ghost use Rattle.tcp_streams.specs.Sequence.{source};
ghost use Rattle.tcp_streams.specs.code.Assembled.{IsAssembled, IsOfCapture};
ghost use Rattle.tcp_streams.specs.code.Interval.{IsInside, arrival_to, bytes_in};
ghost use Rattle.tcp_streams.specs.code.SideFlow.{intervals};

use crate::flows::{Arrival, Flow};
use crate::interval::{Interval, Piece};
use crate::members::Connection;
use crate::pieces::piece_of_member;
use crate::side_flow::SideFlow;
use crate::started_side::StartedSide;
use audit_terms::Side;
use packet_heads::Packet;
use std::alloc::{AllocError, Global};

/// The bytes that one side of a connection sent, as far as the capture shows them from the first one on
/// with no hole (RFC 9293, 3.4).
///
/// Payload bytes count from the side's initial sequence number, modulo 2^32, and only the first 2^31 of
/// them. Where segments overlap, the first record that brings a byte wins. A side whose initial number is
/// not known has an empty flow that is not started.
///
/// `packets` are to be those of `capture`, as `packet_heads::PacketWalk` gives them, of a capture that
/// is not refused; `connection` is to be one of theirs, as [`connections`] gives it.
///
/// [`connections`]: crate::connections
pub fn assemble<'a>(
    alloc: Global,
    capture: &'a [u8],
    packets: &[Packet],
    connection: &Connection,
    side: Side,
) -> Result<Flow<'a>, AllocError>
    requires size { length capture.now < 2 ^ 31 }
    requires numbered { AreNumberedFrom 1 packets.now }
    requires payloads { PayloadsRise 0 (length capture.now) packets.now }
    requires times { TimesFit packets.now }
    requires members { AreMembers 0 packets.now connection.now.members.items }

    // A side whose initial number is known.
    ensures started { IfSome (initial_of connection.now side) (λ _. IfOk result (λ f. IsTrue f.started)) }
    ensures flow { IfSome (initial_of connection.now side) (λ initial_number. IfOk result (λ f.
        IsFlow capture.now (source initial_number (side_segments packets.now connection.now side))
        (bytes_of f) f.arrivals.items f.gap)) }

    // Any other.
    ensures unknown { initial_of connection.now side ≡ None → IfOk result (λ f.
        (f.started ≡ false) × (f.pieces.items ≡ []) × (f.arrivals.items ≡ []) × (f.gap ≡ None)) }
    // Its empty flow takes no memory, so none is wanting.
    ensures answered { initial_of connection.now side ≡ None → IsOk result }

    ensures within { IfOk result (λ f.
        length (bytes_of f) ≤ payload_sum (side_segments packets.now connection.now side)) }
    ensures orderly { IfOk result IsOrderly }
{
    match connection.initial_of(side) {
        Some(initial_number) => flow_from(
            alloc,
            capture,
            &StartedSide {
                packets,
                connection,
                side,
                initial_number,
            },
        ),
        None => Ok(Flow::unknown(alloc)),
    }
}

/// The flow of a side whose initial sequence number is known: its segments in any order, with overlaps and holes.
fn flow_from<'a>(
    alloc: Global,
    capture: &'a [u8],
    of: &StartedSide<'_>,
) -> Result<Flow<'a>, AllocError>
    requires { IsOfCapture capture.now of.now }
    ensures { IfOk result (IsAssembled capture.now of.now) }
{
    let count = of.connection.members.len();
    let mut pieces = Vec::with_capacity(alloc, count)?;
    let mut arrivals = Vec::with_capacity(alloc, count)?;
    let mut side = SideFlow::new(alloc);
    let mut run = Vec::new(alloc);
    for member in &of.connection.members {
        if let Some(piece) = piece_of_member(of, *member) {
            side.take(alloc, &piece, &mut run)?;
            if !run.is_empty() {
                push_run(capture, &run, &mut pieces)?;
                arrivals.push(arrival_to(&piece, side.end))?;
            }
        }
    }
    let gap = side.gap();
    Ok(Flow {
        started: true,
        pieces,
        arrivals,
        gap,
    })
}

/// Appends the bytes of intervals to the pieces of the capture that were found.
fn push_run<'a>(
    capture: &'a [u8],
    run: &[Piece<()>],
    pieces: &mut Vec<&'a [u8]>,
) -> Result<(), AllocError>
    requires { All (IsInside (length capture.now)) (intervals run.now) }
    ensures { OnOk result (joined pieces.new.items
        ≡ joined pieces.old.items ++ bytes_in capture.now (intervals run.now)) }
{
    for piece in run {
        piece.interval.push_bytes(capture, pieces)?;
    }
    Ok(())
}

/// Bytes up to an offset arrive with the interval's record.
fn arrival_to(x: &Interval, upto: u32) -> Arrival
    ensures { result ≡ arrival_to x.now upto }
{
    Arrival {
        upto,
        rec: x.rec,
        nanos: x.nanos,
    }
}
