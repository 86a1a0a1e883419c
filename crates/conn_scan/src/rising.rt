ghost use Rattle.std.specs.Prelude.{◌≡◌};
ghost use Rattle.conn_scan.specs.code.Rising.{no_identifier, one_identifier, rising_join, rising_met};

/// Identifiers of opened streams, and whether they rise (RFC 9113, 5.1.1).
#[derive(Clone, Copy)]
pub struct Rising {
    /// Is there no identifier?
    pub none: bool,
    /// The least one, 0 where there is none.
    pub least: u32,
    /// The greatest one, 0 where there is none.
    pub greatest: u32,
    /// Is each one below all later ones?
    pub rises: bool,
}

impl Rising {
    /// The summary of no identifier.
    pub(crate) fn empty() -> Self
        ensures { result ≡ no_identifier }
    {
        Rising {
            none: true,
            least: 0,
            greatest: 0,
            rises: true,
        }
    }

    /// The summary of one identifier.
    fn of(identifier: u32) -> Self
        ensures { result ≡ one_identifier identifier }
    {
        Rising {
            none: false,
            least: identifier,
            greatest: identifier,
            rises: true,
        }
    }

    /// Takes one identifier more, if there is one.
    pub(crate) fn meet(&mut self, identifier: Option<u32>)
        ensures { self.new ≡ rising_met self.old identifier }
    {
        if let Some(one) = identifier {
            *self = self.join(&Self::of(one));
        }
    }

    /// The summary of these identifiers, and then those of a later summary.
    pub(crate) fn join(&self, later: &Self) -> Self
        ensures { result ≡ rising_join self.now later.now }
    {
        if self.none {
            return *later;
        }
        if later.none {
            return *self;
        }
        Rising {
            none: false,
            least: self.least.min(later.least),
            greatest: self.greatest.max(later.greatest),
            rises: self.greatest < later.least && (self.rises && later.rises),
        }
    }
}
