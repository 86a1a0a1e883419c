use pcap_records::PcapFault;

/// One of the two files of a part.
#[derive(Clone, Copy, Debug)]
pub enum PartFile {
    /// The capture itself.
    Packets,
    /// The numbers of its records in the whole.
    Numbers,
}

/// Why a capture was not split to its end.
#[derive(Clone, Copy, Debug)]
pub enum SplitFault {
    /// The file could not be opened.
    Open,
    /// What its header says is refused.
    Refused(PcapFault),
    /// It has another byte order or unit than the first one, or another link type.
    AnotherFormat,
    AnotherLinkType,
    /// It ends within a record, and is not the last.
    CutRecord,
    /// A read failed.
    Read,
    /// A write to this file of the part of this number failed. The first part has number 1.
    Write(usize, PartFile),
    /// More than 2^64 - 1 bytes.
    TooLong,
}

/// What is wrong with a capture that comes in files, and which of them was read then, counted from 0.
#[derive(Clone, Copy, Debug)]
pub struct FileFault {
    pub file: usize,
    pub fault: SplitFault,
}
