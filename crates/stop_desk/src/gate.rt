/// What a worker passes before it starts a job, so that a test can hold workers back.
///
/// A gate has no say in the report.
pub trait Gate: Sync {
    /// Called in the round of this number ([`crate::AuditRound`]) before the work on job `job` begins. It has to
    /// return.
    fn enter(&self, round: u8, job: u32);
}

/// The gate that holds nobody.
#[derive(Clone, Copy)]
pub struct NoGate;

impl Gate for NoGate {
    fn enter(&self, _round: u8, _job: u32) {}
}
