use pcap_records::PcapFault;
use thiserror::Error;

/// Why a run ended without a verdict. Each fault prints as `fault N` with its number.
#[derive(Clone, Copy, Debug, PartialEq, Eq, Error)]
pub enum AuditFault {
    /// 1: the capture is refused, for the reason named.
    #[error("fault 1")]
    Pcap(PcapFault),
    /// 2: the capture could not be read to its end.
    #[error("fault 2")]
    Read,
    /// 3: the report could not be written, or not flushed.
    #[error("fault 3")]
    Write,
    /// 4: memory ran out.
    #[error("fault 4")]
    OutOfMemory,
}

/// A word of the command line is not text, so it is no option and no path.
#[derive(Clone, Copy, Debug, Error)]
#[error("error: a word is not text")]
pub(crate) struct NotText;
