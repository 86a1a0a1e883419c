//! What is kept of a connection from its flows on, until its section is written.

ghost use Rattle.std.specs.Prelude.{◌≡◌};
ghost use Rattle.report_pages.specs.code.Told.{contents_in};

use crate::reach::Reach;
use audit_report::{Contents, Stall};
use audit_terms::{Frame, Sides, TimedFinding};
use quiet_pass::QuietConnection;
use split_merge::Findings;

/// The frames of a connection that may show something.
#[derive(Drop)]
pub struct AuditedFrames {
    /// Both sides' frames in capture order.
    pub frames: Vec<Frame>,
    /// How many bytes each side's flow has after its last frame.
    pub tails: Sides<u32>,
    /// What was found in the frames, in order.
    pub findings: Findings,
    /// The stalls that the findings tell of.
    pub stalls: Vec<Stall>,
}

/// What is shown of a connection whose frames were met one by one.
#[derive(Drop)]
pub struct FoundFrames {
    /// How many frames the two sides sent together.
    pub count: u32,
    /// How many bytes each side's flow has after its last frame.
    pub tails: Sides<u32>,
    /// What was found, in order.
    pub findings: Vec<TimedFinding>,
    /// The stalls that the findings tell of.
    pub stalls: Vec<Stall>,
}

/// What came of the two flows of a connection. Most captures have many connections, of which few have frames that are
/// kept: these stand in a box, so that the others are small.
#[derive(Drop)]
pub enum Outcome {
    /// HTTP/2, and nothing is shown.
    Quiet(QuietConnection),
    /// HTTP/2, with what was found as the frames were met.
    Found(Box<FoundFrames>),
    /// HTTP/2, with what was found in the frames.
    Audited(Box<AuditedFrames>),
    /// The client's bytes do not begin with the connection preface.
    NotHttp2,
    /// The client's bytes end within the connection preface.
    NoPreface,
    /// The server's SYN ACK was not captured.
    NoHandshake,
}

/// What a report tells of one connection.
#[derive(Drop)]
pub struct Told {
    /// How far each side's flow reaches.
    pub reach: Sides<Reach>,
    /// What the flows hold.
    pub outcome: Outcome,
}

// A capture may open a connection with every packet.
const _: () = prove!(size_of::<Told>() <= 40);

/// What the lines of a connection and of its flows say that these hold.
pub(crate) fn contents_in(outcome: &Outcome) -> Contents
    ensures { result ≡ contents_in outcome.now }
{
    match outcome {
        Outcome::Quiet(quiet) => Contents::Http2 {
            frames: quiet.frames as u64,
            tails: quiet.tails,
        },
        Outcome::Found(found) => Contents::Http2 {
            frames: found.count as u64,
            tails: found.tails,
        },
        Outcome::Audited(audited) => Contents::Http2 {
            frames: audited.frames.len() as u64,
            tails: audited.tails,
        },
        Outcome::NotHttp2 => Contents::NotHttp2,
        Outcome::NoPreface => Contents::NoPreface,
        Outcome::NoHandshake => Contents::NoHandshake,
    }
}
