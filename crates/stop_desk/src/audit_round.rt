ghost use Rattle.std.specs.Prelude.{◌≡◌};

/// The rounds of an audit, in the order in which they begin. A gate knows each by its number.
#[derive(Clone, Copy)]
pub enum AuditRound {
    /// A job for each connection: its flows, and what they hold.
    Flows,
    /// A job for each group of streams: what they show, and which frames open them.
    Streams,
    /// A job for each block of frames: its summary.
    Sums,
    /// A job for each block that may show something: what it shows.
    Blocks,
}

impl AuditRound {
    ghost use Rattle.stop_desk.specs.code.AuditRound.{number_of};

    /// The number, from 0 to 3.
    pub fn number(self) -> u8
        ensures { result ≡ number_of self }
    {
        self as u8
    }
}
