use std::alloc::Global;

/// When bytes of a flow were there: each byte arrives with the first of its flow's arrivals whose `upto` is above its
/// offset.
#[derive(Clone, Copy, PartialEq, Eq)]
pub struct Arrival {
    /// The offset past the last byte of this arrival.
    pub upto: u32,
    /// The record that brought it.
    pub rec: u32,
    /// When that record was captured, in nanoseconds.
    pub nanos: u64,
}

const _: () = prove!(size_of::<Arrival>() == 16);

/// What one side of a connection sent, as far as the capture shows it without a hole.
///
/// For each segment it has a slice of 16 bytes and an arrival of 16. A copy of the bytes would take as much memory
/// again as the capture, in pages that are used once.
#[derive(Drop)]
pub struct Flow<'a> {
    /// Is the side's initial sequence number known?
    pub started: bool,
    /// Its bytes, as they lie in the capture: one piece after the other.
    pub pieces: Vec<&'a [u8]>,
    pub arrivals: Vec<Arrival>,
    /// The offset at which bytes are missing, where later ones were captured.
    pub gap: Option<u64>,
}

impl<'a> Flow<'a> {
    ghost use Rattle.std.specs.Prelude.{◌≡◌, [], None, false};

    /// The flow of a side whose initial sequence number is not known.
    pub(crate) fn unknown(alloc: Global) -> Flow<'a>
        ensures started { result.started ≡ false }
        ensures pieces { result.pieces.items ≡ [] }
        ensures arrivals { result.arrivals.items ≡ [] }
        ensures gap { result.gap ≡ None }
    {
        Flow {
            started: false,
            pieces: Vec::new(alloc),
            arrivals: Vec::new(alloc),
            gap: None,
        }
    }
}
