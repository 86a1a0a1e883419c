use crate::audit_round::AuditRound;
use audit_terms::{Finding, Place};

/// What is kept of a job, and what was made of it.
#[derive(Drop)]
pub struct Part<M> {
    pub round: AuditRound,
    pub job: u32,
    pub connection: usize,
    /// The place up to which the job went, or none where it is whole.
    pub upto: Option<Place>,
    pub findings: Vec<Finding>,
    pub made: M,
}
