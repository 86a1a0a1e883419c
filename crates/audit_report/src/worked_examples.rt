//! Worked examples, by proof: findings, with the stalls that they tell of. The functions do nothing; each contract is
//! the example.
ghost use Rattle.audit_report.specs.examples.Stalls.{BothSidesStall, ClockGoesBack, FirstEndCounts};
ghost use Rattle.audit_report.specs.examples.Stalls.{StallEndsThenOverrun, StallsStayOpen};

/// A stall of the connection ends and another begins, and that of the stream goes on.
pub fn stall_ends_then_overrun()
    ensures { StallEndsThenOverrun }
{}

/// Where no end is left among the findings, as after a connection error, stalls are open.
pub fn withdrawn_findings()
    ensures { StallsStayOpen }
{}

/// A stall ends with the first end of its own window.
pub fn after_end_and_reset()
    ensures { FirstEndCounts }
{}

/// Both sides stall on one stream, each by itself.
pub fn both_sides_stall()
    ensures { BothSidesStall }
{}

/// The time between two frames is below zero where the capture's clock went back.
pub fn clock_goes_back()
    ensures { ClockGoesBack }
{}
