use crate::nanos::Nanos;

/// One whole record of a capture, whose packet stands in the capture at `start..start + length`.
///
/// A capture has fewer than 2^31 bytes, so 32 bits hold an offset.
#[derive(Clone, Copy)]
pub struct Record {
    /// When it was captured, in nanoseconds.
    pub nanos: Nanos,
    /// The length of the packet on the wire, in bytes.
    pub original: u32,
    /// Where the captured bytes begin in the capture.
    pub start: u32,
    /// How many bytes were captured.
    pub length: u32,
}

const _: () = prove!(size_of::<Record>() == 20);

/// The link type of Ethernet (LINKTYPE_ETHERNET): a record holds a frame.
pub const ETHERNET: u16 = 1;

/// The link type of raw IP (LINKTYPE_RAW): a record holds an IP datagram, with nothing before it.
pub const RAW_IP: u16 = 101;

/// The records of a capture, numbered from 1 in the order of the file.
#[derive(Drop)]
pub struct Records {
    /// The link type: the low 16 bits of the header's network field, [`ETHERNET`] or [`RAW_IP`].
    pub link: u16,
    /// Its whole records.
    pub rows: Vec<Record>,
    /// The number of the record that the end of the capture cuts, if there is one.
    pub cut: Option<u32>,
}
