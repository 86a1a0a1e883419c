ghost use Rattle.std.specs.Prelude.{◌≡◌, ◌+ℤ◌, ◌^◌};
ghost use Rattle.audit_terms.specs.code.Room.{HasRoom};

use crate::summaries::Summary;

/// What a list of signed changes does to the credit of a window (RFC 9113, 6.9). Without one, all is 0.
#[derive(Clone, Copy)]
pub struct Credit {
    /// The changes added up, in bytes.
    pub sum: i64,
    /// The greatest sum of the first changes: of none, of one, of two, and so on to all. So it is at least 0.
    pub high: i64,
    /// The least of these sums, at most 0.
    pub low: i64,
}

impl Credit {
    ghost use Rattle.std.specs.Int.{int_max, int_min};
    ghost use Rattle.conn_scan.specs.code.Credit.{credit_met};
    ghost use Rattle.conn_scan.specs.code.CreditLaws.{IsRoomy};

    /// Takes one change more. Most items change nothing.
    pub(crate) fn meet(&mut self, change: i64)
        requires sum { HasRoom (2 ^ 60) self.old.sum }
        requires change { HasRoom (2 ^ 32) change }
        ensures { self.new ≡ credit_met self.old change }
    {
        if change > 0 {
            self.sum = self.sum_with(change);
            self.high = self.high.max(self.sum);
        } else if change < 0 {
            self.sum = self.sum_with(change);
            self.low = self.low.min(self.sum);
        }
    }

    /// The sum of these changes and of some first ones of a later summary, or of the credit before them.
    fn sum_with(&self, later: i64) -> i64
        requires sum { HasRoom (2 ^ 60) self.now.sum }
        requires later { HasRoom (2 ^ 61) later }
        ensures { result ≡ self.now.sum +ℤ later }
    {
        self.sum + later
    }

    /// These changes, and then those of a later summary, all far below what a word holds.
    fn with(&self, later: &Self) -> Self
        requires mine { IsRoomy self.now }
        requires later { IsRoomy later.now }
        ensures sum { result.sum ≡ self.now.sum +ℤ later.now.sum }
        ensures high { result.high ≡ int_max self.now.high (self.now.sum +ℤ later.now.high) }
        ensures low { result.low ≡ int_min self.now.low (self.now.sum +ℤ later.now.low) }
    {
        Credit {
            sum: self.sum_with(later.sum),
            high: self.high.max(self.sum_with(later.high)),
            low: self.low.min(self.sum_with(later.low)),
        }
    }
}

impl Summary for Credit {
    ghost use Rattle.conn_scan.specs.code.Credit.{no_change, one_change, credit_join, credit_advance, ChangesFit};
    ghost use Rattle.conn_scan.specs.code.CreditLaws.{credit_laws};

    type Item = i64;

    type State = i64;

    ghost empty = { no_change };

    ghost of = { one_change };

    ghost join = { credit_join };

    ghost advance = { credit_advance };

    ghost step = { ◌+ℤ◌ };

    ghost fits = { ChangesFit };

    fn empty() -> Self {
        Credit {
            sum: 0,
            high: 0,
            low: 0,
        }
    }

    fn of(change: &i64) -> Self {
        Credit {
            sum: *change,
            high: (*change).max(0),
            low: (*change).min(0),
        }
    }

    fn join(&self, later: &Self) -> Self {
        self.with(later)
    }

    #[tactic(auto, using(std::proofs::lemmas::Int::ints))]
    fn advance(credit: &i64, changes: &Self) -> i64 {
        changes.sum_with(*credit)
    }

    ghost laws = { credit_laws };
}
