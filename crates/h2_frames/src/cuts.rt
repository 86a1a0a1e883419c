use audit_terms::{Frame, Sides};

/// What the two flows of a connection hold.
#[derive(Drop)]
pub enum Cut {
    /// Both sides' frames in capture order, and how many bytes each side's flow has after its last frame.
    Http2 {
        frames: Vec<Frame>,
        tails: Sides<u32>,
    },
    /// The client's bytes do not begin with the connection preface.
    NotHttp2,
    /// The client's bytes end within the connection preface.
    NoPreface,
    /// The server's SYN ACK was not captured.
    NoHandshake,
}
