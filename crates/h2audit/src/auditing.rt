ghost use Rattle.std.specs.Prelude.{◌≡◌, ◌⊎◌, ℕ, IfOk, IfErr, IsOk, List, None, Ok, Err};
ghost use Rattle.packet_heads.specs.code.Walk.{HasMet};
ghost use Rattle.pcap_records.specs.Refusal.{refusal};
ghost use Rattle.quiet_pass.specs.code.FoundFlows.{HasMetSent};
ghost use Rattle.report_pages.specs.code.Sections.{AreHeaded};
ghost use Rattle.h2audit.specs.Report.{IsNoReport, IsReport};
ghost use Rattle.h2audit.specs.code.Listed.{HasListed};
ghost use Rattle.h2audit.specs.code.Met.{HasMetPackets, IsMetEnd};
ghost use Rattle.h2audit.specs.code.Writing.{IsToldBehind};

use crate::command_line::Options;
use crate::each_connection::{audit_each, told_each};
use crate::fault::AuditFault;
use crate::found_connections::report_of_found;
use crate::listed_connections::{ListedConnection, held_of_each};
use crate::met_captures::MetCapture;
use crate::verdict::{Verdict, verdict_on};
use audit_report::SectionHeading;
use audit_rounds::Division;
use input_output::{TableHash, feed_rest};
use packet_heads::PacketWalk;
use pcap_records::{FILE_HEADER, PcapFault};
use quiet_pass::{ConnectionFindings, Showing, WithCredits, WithoutCredits};
use report_pages::{Report, Told};
use std::alloc::{AllocError, Global};
use std::random::RandomSource;
use std::thread::Threads;
use stop_desk::{Gate, Team};
use tcp_streams::ConnectionVisitor;

/// The report of a capture, and its verdict.
///
/// Returns `Pcap` exactly where the capture is refused, else `OutOfMemory` where memory runs out; never another fault.
pub fn audit(
    rt: &(impl Threads + Sync + RandomSource),
    alloc: Global,
    options: &Options,
    capture: &[u8],
    gate: &impl Gate,
) -> Result<(Vec<u8>, Verdict), AuditFault>
    ensures report { IfOk result
        (λ r. IsReport capture.now options.now.frames_shown r.0.items r.1) }
    ensures refused { IfErr result (λ e. IsNoReport capture.now e) }
{
    let hash = TableHash::drawn(rt);
    if options.workers() == 1 {
        if options.frames_shown() {
            return audit_found::<WithCredits>(rt, alloc, hash, capture);
        }
        return audit_found::<WithoutCredits>(rt, alloc, hash, capture);
    }
    let ended = meet_all(alloc, hash, capture)?;
    let team = team_of(rt, alloc, options, gate);
    in_bytes(rt, alloc, report_listed(&team, options, hash, ended))
}

/// The text of the report of a capture whose frames are met as they come, and its verdict.
fn audit_found<S: Showing>(
    rt: &(impl Threads + Sync),
    alloc: Global,
    hash: TableHash,
    capture: &[u8],
) -> Result<(Vec<u8>, Verdict), AuditFault>
    ensures report { IfOk result (λ r. IsReport capture.now S.frames_shown r.0.items r.1) }
    ensures refused { IfErr result (λ e. IsNoReport capture.now e) }
{
    let ended = meet_all::<ConnectionFindings<S>>(alloc, hash, capture)?;
    in_bytes(rt, alloc, report_found(alloc, ended))
}

/// What the packets of a capture made of a visitor, and the number of its cut record.
fn meet_all<V: ConnectionVisitor>(
    alloc: Global,
    hash: TableHash,
    capture: &[u8],
) -> Result<Result<(MetCapture<V>, Option<u32>), PcapFault>, AuditFault>
    ensures met { IfOk result (IsMetEnd V.after capture.now) }
    ensures refused { IfErr result (λ e. IsNoReport capture.now e) }
{
    match PacketWalk::begin(alloc, capture, MetCapture::new(alloc, hash)) {
        Ok(mut walk) => match feed_rest(alloc, capture, FILE_HEADER, &mut walk) {
            Ok(()) => Ok(walk.end()),
            Err(_) => Err(AuditFault::OutOfMemory),
        },
        Err(refusal) => Err(AuditFault::Pcap(refusal)),
    }
}

/// The report of a capture whose packets were met as they came, and its verdict.
pub(crate) fn report_found<S: Showing>(
    alloc: Global,
    ended: Result<(MetCapture<ConnectionFindings<S>>, Option<u32>), PcapFault>,
) -> Result<(Report, Verdict), AuditFault>
    requires { (capture : List ℕ) × IsMetEnd (HasMetSent S.frames_shown) capture ended }
    ensures report { (capture : List ℕ) → IsMetEnd (HasMetSent S.frames_shown) capture ended
        → IfOk result (λ r. IsReport capture S.frames_shown r.0 r.1) }
    ensures refused { (capture : List ℕ) → IsMetEnd (HasMetSent S.frames_shown) capture ended
        → IfErr result (λ e. IsNoReport capture e) }
{
    match ended {
        Ok((met, cut)) => match report_of_found(alloc, met, cut) {
            Ok(answer) => Ok(answer),
            Err(_) => Err(AuditFault::OutOfMemory),
        },
        Err(PcapFault::OutOfMemory) => Err(AuditFault::OutOfMemory),
        Err(refusal) => Err(AuditFault::Pcap(refusal)),
    }
}

/// The report of a capture whose frames were kept as they came, and its verdict. Tables have this hash.
pub(crate) fn report_listed<R: Threads + Sync, G: Gate>(
    team: &Team<'_, R, G>,
    options: &Options,
    hash: TableHash,
    ended: Result<(MetCapture<ListedConnection>, Option<u32>), PcapFault>,
) -> Result<(Report, Verdict), AuditFault>
    requires { (capture : List ℕ) × IsMetEnd HasListed capture ended }
    ensures report { (capture : List ℕ) → IsMetEnd HasListed capture ended
        → IfOk result (λ r. IsReport capture options.now.frames_shown r.0 r.1) }
    ensures refused { (capture : List ℕ) → IsMetEnd HasListed capture ended
        → IfErr result (λ e. IsNoReport capture e) }
{
    // `--frames` asks for credit lines.
    let frames_shown = options.frames_shown();
    let division = Division {
        groups: options.groups(),
        block: options.block(),
        hash,
        frames_shown,
    };
    match ended {
        Ok((met, cut)) => match report_of_listed(team, &division, met, cut) {
            Ok(answer) => Ok(answer),
            Err(_) => Err(AuditFault::OutOfMemory),
        },
        Err(PcapFault::OutOfMemory) => Err(AuditFault::OutOfMemory),
        Err(refusal) => Err(AuditFault::Pcap(refusal)),
    }
}

/// The report of a capture all of whose packets came, and its verdict. The record of this number is cut.
fn report_of_listed<R: Threads + Sync, G: Gate>(
    team: &Team<'_, R, G>,
    division: &Division,
    met: MetCapture<ListedConnection>,
    cut: Option<u32>,
) -> Result<(Report, Verdict), AllocError>
    requires { (capture : List ℕ) × HasMet (HasMetPackets HasListed) capture met cut }
    ensures { (capture : List ℕ) → refusal capture ≡ None → HasMet (HasMetPackets HasListed) capture met cut
        → IfOk result (λ r. IsReport capture division.now.frames_shown r.0 r.1) }
{
    let MetCapture { lines, connections } = met;
    let (opened, strays) = connections.into_parts();
    let lines = lines.finish(cut, strays)?;
    let (headings, held) = held_of_each(team.alloc, opened)?;
    let made = told_each(team, division, held)?;
    let told = audit_each(team, division, made)?;
    report_of(
        team.alloc,
        team.workers,
        division.frames_shown,
        lines,
        headings,
        told,
    )
}

/// The text of a report, in memory as a whole, and its verdict.
fn in_bytes<R: Threads + Sync>(
    rt: &R,
    alloc: Global,
    audited: Result<(Report, Verdict), AuditFault>,
) -> Result<(Vec<u8>, Verdict), AuditFault>
    ensures ok { IfOk result (λ r. audited ≡ Ok (r.0.items, r.1)) }
    ensures err { IfErr result (λ e. (audited ≡ Err e) ⊎ (IsOk audited × (e ≡ AuditFault.OutOfMemory))) }
{
    let (report, verdict) = audited?;
    match report.into_bytes(rt, alloc) {
        Ok(text) => Ok((text, verdict)),
        Err(_) => Err(AuditFault::OutOfMemory),
    }
}

/// Who works on an audit with these options.
pub(crate) fn team_of<'a, R: Threads + Sync, G: Gate>(
    rt: &'a R,
    alloc: Global,
    options: &Options,
    gate: &'a G,
) -> Team<'a, R, G> {
    Team {
        rt,
        alloc,
        workers: options.workers(),
        gate,
    }
}

/// The report of connections of which this is told, behind the lines of the capture, and its verdict. So many workers
/// spell it.
pub(crate) fn report_of(
    alloc: Global,
    workers: u32,
    frames_shown: bool,
    lines: Vec<u8>,
    headings: Vec<SectionHeading>,
    told: Vec<Told>,
) -> Result<(Report, Verdict), AllocError>
    requires { AreHeaded 1 headings.items told.items }
    ensures { IfOk result (λ r. IsToldBehind frames_shown lines.items headings.items told.items r.0 r.1) }
{
    let verdict = verdict_on(told.as_slice());
    let report = Report::new(alloc, workers, frames_shown, lines, headings, told)?;
    Ok((report, verdict))
}
