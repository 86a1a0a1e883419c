/// What a pass draws.
#[derive(Clone, Copy)]
pub enum Claim {
    /// The pass has no allowance left, and drew nothing.
    Spent,
    /// This job is the pass's alone.
    Job(u32),
    /// No job is left. The draw cost one of the allowance.
    Done,
}
