ghost use Rattle.std.specs.Prelude.{◌≡◌};
ghost use Rattle.pcap_records.specs.RefusalName.{refusal_name};

use thiserror::Error;

/// Why a capture is refused. Faults are tested in the order of their numbers.
#[derive(Clone, Copy, Debug, PartialEq, Eq, Error)]
pub enum PcapFault {
    /// Fewer than the 24 bytes of a file header.
    #[error("fault 1")]
    ShortHeader,
    /// None of the four magic numbers of a classic capture.
    #[error("fault 2")]
    BadMagic,
    /// A version other than 2.4.
    #[error("fault 3")]
    BadVersion,
    /// A link type other than Ethernet and raw IP.
    #[error("fault 4")]
    LinkType,
    /// More than 2^31 - 1 bytes.
    #[error("fault 5")]
    TooLarge,
    /// Memory ran out: for the table of records, or for what is made of records; or for the bytes of a record that is
    /// begun.
    #[error("fault 6")]
    OutOfMemory,
}

/// What programs call a fault, behind the text of a literal. Both are one text when the program is compiled, so that
/// it takes no memory to say why a capture is refused.
#[macro_export]
macro_rules! fault_text {
    ($front:literal, $fault:expr) => {
        match $fault {
            $crate::PcapFault::ShortHeader => concat!($front, "short-header"),
            $crate::PcapFault::BadMagic => concat!($front, "bad-magic"),
            $crate::PcapFault::BadVersion => concat!($front, "bad-version"),
            $crate::PcapFault::LinkType => concat!($front, "link-type"),
            $crate::PcapFault::TooLarge => concat!($front, "too-large"),
            $crate::PcapFault::OutOfMemory => concat!($front, "out-of-memory"),
        }
    };
}

impl PcapFault {
    /// What programs call it.
    pub fn name(self) -> &'static str
        ensures { result.now ≡ refusal_name self }
    {
        fault_text!("", self)
    }
}
