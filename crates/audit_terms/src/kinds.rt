ghost use Rattle.std.specs.Prelude.{◌≡◌, ◌≤◌, length};

/// What a finding says, in order of rank. Ranks 0 to 12 are connection errors, which stop the audit of a connection;
/// 13 to 20 are other faults; 21 to 24 tell of stalls, 25 and 26 of credit.
#[derive(Clone, Copy, PartialEq, Eq)]
pub enum Kind {
    BadPreface,
    BrokenBlock,
    TooLong,
    WrongStream,
    WrongSize,
    BadPadding,
    BadSetting,
    Push,
    NotOpened,
    IdNotGreater,
    ZeroConnectionGrant,
    ConnectionOverflow,
    SettingOverflow,
    LongFrame,
    AfterEnd,
    ConnectionOverrun,
    StreamOverrun,
    ZeroStreamGrant,
    StreamOverflow,
    UnmatchedAck,
    BadPriority,
    ConnectionStallEnd,
    ConnectionStallBegin,
    StreamStallEnd,
    StreamStallBegin,
    ConnectionCredit,
    StreamCredit,
}

impl Kind {
    ghost use Rattle.audit_terms.specs.Kind.{rank_of, is_connection_error, is_fault, begins_stall, ends_stall};
    ghost use Rattle.audit_terms.specs.Kind.{is_credit, kind_name};

    /// The rank, from 0 to 26. Findings of one frame stand in order of rank.
    pub fn rank(self) -> u8
        ensures { result ≡ rank_of self }
    {
        self as u8
    }

    /// Is it a connection error (RFC 9113, 5.4.1), which stops the audit of the connection? Ranks 0 to 12 are.
    pub fn is_connection_error(self) -> bool
        ensures { result ≡ is_connection_error self }
    {
        self.rank() <= Kind::SettingOverflow.rank()
    }

    /// Is a rule broken? Ranks 0 to 20 are faults; the others tell of stalls and credit.
    pub fn is_fault(self) -> bool
        ensures { result ≡ is_fault self }
    {
        self.rank() <= Kind::BadPriority.rank()
    }

    /// Is credit used up from here on?
    pub fn begins_stall(self) -> bool
        ensures { result ≡ begins_stall self }
    {
        matches!(self, Kind::ConnectionStallBegin | Kind::StreamStallBegin)
    }

    /// Is credit there again?
    pub fn ends_stall(self) -> bool
        ensures { result ≡ ends_stall self }
    {
        matches!(self, Kind::ConnectionStallEnd | Kind::StreamStallEnd)
    }

    /// Is it the credit of a window that changed?
    pub fn is_credit(self) -> bool
        ensures { result ≡ is_credit self }
    {
        matches!(self, Kind::ConnectionCredit | Kind::StreamCredit)
    }

    /// The word that a report prints.
    pub fn name(self) -> &'static str
        ensures name { result.now ≡ kind_name self }
        ensures short { length result.now ≤ 22 }
    {
        match self {
            Kind::BadPreface => "bad-preface",
            Kind::BrokenBlock => "broken-block",
            Kind::TooLong => "too-long",
            Kind::WrongStream => "wrong-stream",
            Kind::WrongSize => "wrong-size",
            Kind::BadPadding => "bad-padding",
            Kind::BadSetting => "bad-setting",
            Kind::Push => "push",
            Kind::NotOpened => "not-opened",
            Kind::IdNotGreater => "id-not-greater",
            Kind::ZeroConnectionGrant => "zero-connection-grant",
            Kind::ConnectionOverflow => "connection-overflow",
            Kind::SettingOverflow => "setting-overflow",
            Kind::LongFrame => "long-frame",
            Kind::AfterEnd => "after-end",
            Kind::ConnectionOverrun => "connection-overrun",
            Kind::StreamOverrun => "stream-overrun",
            Kind::ZeroStreamGrant => "zero-stream-grant",
            Kind::StreamOverflow => "stream-overflow",
            Kind::UnmatchedAck => "unmatched-ack",
            Kind::BadPriority => "bad-priority",
            Kind::ConnectionStallEnd => "connection-stall-end",
            Kind::ConnectionStallBegin => "connection-stall-begin",
            Kind::StreamStallEnd => "stream-stall-end",
            Kind::StreamStallBegin => "stream-stall-begin",
            Kind::ConnectionCredit => "connection-credit",
            Kind::StreamCredit => "stream-credit",
        }
    }
}
