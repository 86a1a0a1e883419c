//! Connections of which nothing is shown.

use audit_terms::Sides;

/// What is known of a quiet connection of HTTP/2.
#[derive(Clone, Copy)]
pub struct QuietConnection {
    /// How many frames the two sides sent together.
    pub frames: u32,
    /// How many bytes each side's flow has after its last frame.
    pub tails: Sides<u32>,
}
