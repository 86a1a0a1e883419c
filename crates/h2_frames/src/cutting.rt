ghost use Rattle.std.specs.Prelude.{◌≡◌, IfOk, IsTrue, List, ℕ};
ghost use Rattle.tcp_streams.specs.Bytes.{bytes_of, joined};
ghost use Rattle.tcp_streams.specs.code.Orderly.{AreFlowsOfOne};
ghost use Rattle.h2_frames.specs.Preface.{BeginsWithPreface};
ghost use Rattle.h2_frames.specs.code.Cutting.{IsFoundCut, IsOrderlyCut};

use crate::beginning::beginning_of;
use crate::cuts::Cut;
use crate::greeting::{Greeting, PREFACE};
use crate::order::in_capture_order;
use crate::side_frames::sent_frames;
use audit_terms::{Side, Sides};
use std::alloc::{AllocError, Global};
use tcp_streams::Flow;

/// The bytes of these pieces, copied so that they lie together.
fn gathered(alloc: Global, pieces: &[&[u8]]) -> Result<Vec<u8>, AllocError>
    ensures { IfOk result (λ bytes. bytes.items ≡ joined pieces.now) }
{
    let mut bytes = Vec::new(alloc);
    for piece in pieces {
        bytes.extend_from_slice(piece)?;
    }
    Ok(bytes)
}

/// The frames of both sides of a connection whose client sent the preface, and their tails.
fn frames_of_both(alloc: Global, client: &Flow, server: &Flow) -> Result<Cut, AllocError>
    requires flows { AreFlowsOfOne client.now server.now }
    requires started { IsTrue server.now.started }
    requires begins { (rest : List ℕ) × BeginsWithPreface (bytes_of client.now) rest }
    ensures { IfOk result (IsOrderlyCut client.now server.now) }
{
    let bytes = gathered(alloc, client.pieces.as_slice())?;
    let arrivals = client.arrivals.as_slice();
    let rest = &bytes[PREFACE.len()..];
    let sent = sent_frames(alloc, Side::Client, rest, PREFACE.len() as u64, arrivals)?;
    let bytes = gathered(alloc, server.pieces.as_slice())?;
    let arrivals = server.arrivals.as_slice();
    let answered = sent_frames(alloc, Side::Server, &bytes, 0, arrivals)?;
    let frames = in_capture_order(alloc, &sent.frames, &answered.frames)?;
    let tails = Sides {
        client: sent.tail,
        server: answered.tail,
    };
    Ok(Cut::Http2 { frames, tails })
}

/// What the flows of a connection's client and server hold: it is the cut of the two, and there is no other.
///
/// Each flow is to be as `tcp_streams::assemble` gives it, and the two together shorter than 2^31 bytes: for the two
/// flows of one connection `tcp_streams::laws::sides_fit`, with `assemble`'s clause `within`, gives this. Where the
/// server's flow is not started the answer is [`Cut::NoHandshake`]; else the client's bytes decide, by the connection
/// preface (RFC 9113, 3.4): [`Cut::NoPreface`] where they end within it, [`Cut::NotHttp2`] where they do not begin with
/// it. The frames of [`Cut::Http2`] are numbered from 1 in capture order. The bytes of each flow are copied, so that
/// each frame is read where it lies. Memory can be wanting only where there are bytes to cut into frames.
pub fn cut(alloc: Global, client: &Flow, server: &Flow) -> Result<Cut, AllocError>
    requires { AreFlowsOfOne client.now server.now }
    ensures { IsFoundCut client.now server.now result }
{
    if !server.started {
        return Ok(Cut::NoHandshake);
    }
    match beginning_of(client.pieces.as_slice()) {
        Greeting::CutShort(_) => Ok(Cut::NoPreface),
        Greeting::Other => Ok(Cut::NotHttp2),
        Greeting::Whole => frames_of_both(alloc, client, server),
    }
}
