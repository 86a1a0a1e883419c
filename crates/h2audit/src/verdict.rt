ghost use Rattle.std.specs.List.{list_any};
ghost use Rattle.std.specs.Prelude.{◌≡◌, List};
ghost use Rattle.audit_report.specs.declared.audited.Audited.{Audited};
ghost use Rattle.h2audit.specs.Audited.{verdict_of};
ghost use Rattle.report_pages.specs.code.Told.{AreToldOf};
ghost use Rattle.h2audit.specs.code.Verdict.{has_fault_in, is_faulty, is_timed_fault};
ghost use Rattle.split_merge.specs.code.Findings.{findings_in};

use audit_terms::{Finding, TimedFinding};
use report_pages::{Outcome, Told};
use split_merge::Findings;

/// What the audit of a whole capture comes to.
#[derive(Clone, Copy, Debug, PartialEq, Eq)]
pub enum Verdict {
    /// No connection has a finding that is a fault.
    Clean,
    /// Some connection has a fault: a breach of the protocol, as opposed to a stall or a change of credit.
    Faults,
}

/// Faults where some connection has a finding that is a fault.
pub(crate) fn verdict_on(told: &[Told]) -> Verdict
    ensures { (audited : List Audited) → AreToldOf told.now audited → result ≡ verdict_of audited }
{
    if told.iter().any(|one| has_fault_in(&one.outcome)) {
        Verdict::Faults
    } else {
        Verdict::Clean
    }
}

/// Is one of a connection's findings a fault?
fn has_fault_in(outcome: &Outcome) -> bool
    ensures { result ≡ has_fault_in outcome.now }
{
    match outcome {
        Outcome::Found(found) => has_timed_fault(found.findings.as_slice()),
        Outcome::Audited(audited) => has_fault(&audited.findings),
        _ => false,
    }
}

fn has_fault(findings: &Findings) -> bool
    ensures { result ≡ is_faulty (findings_in findings.now) }
{
    findings.lists.iter().any(|list| is_faulty(list.as_slice()))
}

fn has_timed_fault(findings: &[TimedFinding]) -> bool
    ensures { result ≡ list_any is_timed_fault findings.now }
{
    findings.iter().any(|one| one.kind.is_fault())
}

fn is_faulty(findings: &[Finding]) -> bool
    ensures { result ≡ is_faulty findings.now }
{
    findings.iter().any(|finding| finding.kind.is_fault())
}
