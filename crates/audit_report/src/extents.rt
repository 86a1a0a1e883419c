/// What the report says of a flow: how much of its side's bytes the capture has without a hole.
#[derive(Clone, Copy)]
pub struct Extent {
    /// The number of bytes.
    pub size: u64,
    /// The offset at which bytes are missing, where later ones were captured.
    pub gap: Option<u64>,
}
