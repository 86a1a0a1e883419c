use audit_terms::{Finding, Frame, Place};

/// The frames that one stream meets: a list of frames, and their positions in it, in order.
#[derive(Clone, Copy)]
pub struct StreamPart<'a> {
    /// The stream identifier, from 1 to 2^31 - 1.
    pub stream: u32,
    /// All frames of the connection.
    pub frames: &'a [Frame],
    /// Where the frames on the stream stand, and those that promise it (RFC 9113, 6.6).
    pub positions: &'a [u32],
}

/// What one stream shows.
#[derive(Drop)]
pub struct StreamRun {
    /// Its findings up to `upto`, in order.
    pub findings: Vec<Finding>,
    /// The number of the frame that opens it, unless that frame lies past `upto`.
    pub opened_at: Option<u32>,
    /// Where it stopped; `None` where it met all steps.
    pub upto: Option<Place>,
    /// The last answer of its look.
    pub last_look: Option<Place>,
    /// How often it looked.
    pub looks: u32,
}
