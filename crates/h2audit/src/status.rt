ghost use Rattle.std.specs.Prelude.{◌≡◌, Err};
ghost use Rattle.h2audit.specs.Ending.{ending_of};

use crate::fault::AuditFault;
use crate::verdict::Verdict;
use pcap_records::{PcapFault, fault_text};

/// The program's exit status and its line on standard error, without a line feed, for what a run
/// answered. The line is empty where nothing is to be said.
///
/// Status 0 is a clean capture, 1 one with faults; 3 a capture that is refused, 4 a failure to read
/// or write, 5 want of memory. Status 2, for words that do not parse, is given by the program alone.
pub fn ending(answer: &Result<Verdict, AuditFault>) -> (u8, &'static str)
    ensures status { result.0 ≡ (ending_of answer.now).0 }
    ensures line { result.1.now ≡ (ending_of answer.now).1 }
{
    match answer {
        Ok(Verdict::Clean) => (0, ""),
        Ok(Verdict::Faults) => (1, ""),
        Err(AuditFault::Pcap(refusal)) => refused(*refusal),
        Err(AuditFault::Read) => (4, "h2audit: read failed"),
        Err(AuditFault::Write) => (4, "h2audit: write failed"),
        Err(AuditFault::OutOfMemory) => (5, OUT_OF_MEMORY),
    }
}

const OUT_OF_MEMORY: &str = "h2audit: out of memory";

/// The exit status and the line for a capture that is refused.
fn refused(refusal: PcapFault) -> (u8, &'static str)
    ensures status { result.0 ≡ (ending_of (Err (AuditFault.Pcap refusal))).0 }
    ensures line { result.1.now ≡ (ending_of (Err (AuditFault.Pcap refusal))).1 }
{
    match refusal {
        PcapFault::OutOfMemory => (5, OUT_OF_MEMORY),
        _ => (3, fault_text!("h2audit: capture refused: ", refusal)),
    }
}
