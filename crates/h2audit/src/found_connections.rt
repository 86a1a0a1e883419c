//! Connections that are audited while their segments come.

ghost use Rattle.std.specs.Prelude.{◌≡◌, ◌^◌, ◌<◌, Bool, ℕ, All, IfOk, List, None, length, map};
ghost use Rattle.packet_heads.specs.code.Order.{AreNumberedFrom};
ghost use Rattle.packet_heads.specs.code.Walk.{HasMet};
ghost use Rattle.packet_heads.specs.declared.packets.Packet.{Packet};
ghost use Rattle.packet_heads.specs.declared.packets.Segment.{Segment as Opening};
ghost use Rattle.pcap_records.specs.Refusal.{refusal};
ghost use Rattle.quiet_pass.specs.code.FoundFlows.{AreFoundFlows, HasMetSent};
ghost use Rattle.report_pages.specs.code.Reach.{HasGapAtEnd};
ghost use Rattle.tcp_streams.specs.code.Opened.{AreVisited, IsVisited};
ghost use Rattle.tcp_streams.specs.declared.flows.Flow.{Flow};
ghost use Rattle.h2audit.specs.Report.{IsReport};
ghost use Rattle.h2audit.specs.code.Met.{AreMadeOfOpenings, HasMetPackets, HasMetSegments, IsToldWhole};
ghost use Rattle.h2audit.specs.code.Met.{IsWholeOfOpening};

use crate::auditing::report_of;
use crate::flow_round::outcome_found;
use crate::met_captures::MetCapture;
use crate::met_connections::MetConnection;
use crate::verdict::Verdict;
use audit_report::SectionHeading;
use quiet_pass::{ConnectionFindings, FoundCut, FoundFlows, Showing};
use report_pages::{Outcome, Reach, Report, Told};
use std::alloc::{AllocError, Global};
use tcp_streams::laws::flows_are_those_sent;

/// The report of a capture all of whose packets came, and its verdict. The record of this number is cut.
pub(crate) fn report_of_found<S: Showing>(
    alloc: Global,
    met: MetCapture<ConnectionFindings<S>>,
    cut: Option<u32>,
) -> Result<(Report, Verdict), AllocError>
    requires { (capture : List ℕ) × HasMet (HasMetPackets (HasMetSent S.frames_shown)) capture met cut }
    ensures { (capture : List ℕ) → refusal capture ≡ None
        → HasMet (HasMetPackets (HasMetSent S.frames_shown)) capture met cut
        → IfOk result (λ r. IsReport capture S.frames_shown r.0 r.1) }
{
    let MetCapture { lines, connections } = met;
    let (opened, strays) = connections.into_parts();
    let lines = lines.finish(cut, strays)?;
    let (headings, told) = told_of_each(alloc, opened)?;
    report_of(alloc, 1, S::frames_shown(), lines, headings, told)
}

/// The headings of all connections of a capture, and what is told of each, in order of opening.
fn told_of_each<S: Showing>(
    alloc: Global,
    opened: Vec<MetConnection<ConnectionFindings<S>>>,
) -> Result<(Vec<SectionHeading>, Vec<Told>), AllocError>
    requires { (capture : List ℕ) × (packets : List Packet)
        × AreVisited (HasMetSegments (HasMetSent S.frames_shown)) capture packets opened.items }
    ensures { (capture : List ℕ) (packets : List Packet) → AreNumberedFrom 1 packets
        → AreVisited (HasMetSegments (HasMetSent S.frames_shown)) capture packets opened.items
        → IfOk result (λ r. AreMadeOfOpenings (IsWholeOfOpening S.frames_shown) capture packets r.0.items r.1.items) }
{
    let mut headings = Vec::with_capacity(alloc, opened.len())?;
    let mut told = Vec::with_capacity(alloc, opened.len())?;
    for connection in opened {
        headings.push(connection.heading())?;
        told.push(told_of(alloc, connection)?)?;
    }
    Ok((headings, told))
}

/// What is told of a connection all of whose segments came.
fn told_of<S: Showing>(
    alloc: Global,
    connection: MetConnection<ConnectionFindings<S>>,
) -> Result<Told, AllocError>
    requires { (capture : List ℕ) × (packets : List Packet) × (opening : Opening)
        × IsVisited (HasMetSegments (HasMetSent S.frames_shown)) capture packets opening connection }
    ensures { (capture : List ℕ) (packets : List Packet) (opening : Opening) → AreNumberedFrom 1 packets
        → IsVisited (HasMetSegments (HasMetSent S.frames_shown)) capture packets opening connection
        → IfOk result (IsWholeOfOpening S.frames_shown capture packets opening) }
{
    flows_are_those_sent();
    let findings = connection.into_visitor(alloc)?;
    let found = findings.finish(alloc)?;
    told_of_found(alloc, found)
}

/// What is told of both flows of a connection.
fn told_of_found(alloc: Global, found: FoundFlows) -> Result<Told, AllocError>
    requires { (frames_shown : Bool) × (client server : Flow) × AreFoundFlows frames_shown client server found }
    ensures { (frames_shown : Bool) (client server : Flow) → AreFoundFlows frames_shown client server found
        → HasGapAtEnd client → HasGapAtEnd server → IfOk result (IsToldWhole frames_shown client server) }
{
    let reach = Reach::of_ends(found.client, found.server);
    let outcome = match found.cut {
        FoundCut::Http2(found) => outcome_found(alloc, found)?,
        FoundCut::NotHttp2 => Outcome::NotHttp2,
        FoundCut::NoPreface => Outcome::NoPreface,
        FoundCut::NoHandshake => Outcome::NoHandshake,
    };
    Ok(Told { reach, outcome })
}
