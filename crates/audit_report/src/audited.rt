use crate::extents::Extent;
use audit_terms::{Finding, Sides};
use h2_frames::Cut;

/// What the audit of one connection gives: the record that the definition of a report speaks of. No code makes one.
#[derive(Drop)]
pub struct Audited {
    /// How much of each side's bytes the capture has.
    pub extents: Sides<Extent>,
    /// What the two flows hold.
    pub cut: Cut,
    /// What was found in the frames, in order; empty where there are none.
    pub findings: Vec<Finding>,
}
