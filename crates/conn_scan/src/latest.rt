ghost use Rattle.std.specs.Prelude.{◌≡◌, Some};
ghost use Rattle.conn_scan.specs.code.Latest.{is_zero, newer, lesser_limit, no_item, latest_join};
ghost use Rattle.conn_scan.specs.code.Latest.{latest_promised, latest_changed};

use audit_terms::{Change, Side, Sides};

/// What some items bring into force, the lengths of their frames, and the server's promises (RFC 9113, 4.2, 6.5.2,
/// 8.4).
#[derive(Clone, Copy)]
pub struct Latest {
    /// The last limit on the length of a frame that they bring for each side.
    pub limit: Sides<Option<u32>>,
    /// The least such limit.
    pub least: Sides<Option<u32>>,
    /// The length in bytes of each side's longest frame, 0 where it sends none.
    pub longest: Sides<u32>,
    /// The last ENABLE_PUSH that they bring for the server.
    pub push: Option<u32>,
    /// Is there an increment of 0 on stream 0 (6.9)?
    pub zero_grant: bool,
    /// Does the server promise an odd stream (5.1.1)?
    pub odd_promise: bool,
    /// Does the server promise a stream before they bring any ENABLE_PUSH?
    pub early_promise: bool,
    /// Does the server promise a stream while an ENABLE_PUSH of 0 that they brought is in force?
    pub barred_promise: bool,
}

/// Is the value there, and 0?
fn is_zero(value: Option<u32>) -> bool
    ensures { result ≡ is_zero value }
{
    match value {
        Some(value) => value == 0,
        None => false,
    }
}

/// A value, or the one before it where there is none.
fn newer(before: Option<u32>, later: Option<u32>) -> Option<u32>
    ensures { result ≡ newer before later }
{
    match later {
        Some(value) => Some(value),
        None => before,
    }
}

/// The lesser of two values that may be there.
fn lesser_limit(a: Option<u32>, b: Option<u32>) -> Option<u32>
    ensures { result ≡ lesser_limit a b }
{
    match (a, b) {
        (Some(a), Some(b)) => Some(a.min(b)),
        (None, Some(b)) => Some(b),
        (a, None) => a,
    }
}

impl Latest {
    /// The summary of no item.
    pub(crate) fn empty() -> Self
        ensures { result ≡ no_item }
    {
        Latest {
            limit: Sides::both(None),
            least: Sides::both(None),
            longest: Sides::both(0),
            push: None,
            zero_grant: false,
            odd_promise: false,
            early_promise: false,
            barred_promise: false,
        }
    }

    /// Takes a promise of the server.
    pub(crate) fn promise(&mut self, stream: u32)
        ensures { self.new ≡ latest_promised self.old stream }
    {
        self.odd_promise = self.odd_promise || stream % 2 == 1;
        self.early_promise = self.early_promise || self.push.is_none();
        self.barred_promise = self.barred_promise || is_zero(self.push);
    }

    /// Takes what an acknowledgement brings into force, if there is one.
    pub(crate) fn meet_change(&mut self, change: &Option<Change>)
        ensures { self.new ≡ latest_changed self.old change.now }
    {
        if let Some(change) = change {
            self.change(change);
        }
    }

    /// Takes what an acknowledgement brings into force.
    fn change(&mut self, change: &Change)
        ensures { self.new ≡ latest_changed self.old (Some change.now) }
    {
        let limit = self.limit.of_mut(change.side);
        *limit = newer(*limit, change.max_frame);
        let least = self.least.of_mut(change.side);
        *least = lesser_limit(*least, change.max_frame);
        if change.side == Side::Server {
            self.push = newer(self.push, change.push);
        }
    }

    /// The summary of these items, and then those of a later summary.
    pub(crate) fn join(&self, later: &Self) -> Self
        ensures { result ≡ latest_join self.now later.now }
    {
        Latest {
            limit: Sides {
                client: newer(self.limit.client, later.limit.client),
                server: newer(self.limit.server, later.limit.server),
            },
            least: Sides {
                client: lesser_limit(self.least.client, later.least.client),
                server: lesser_limit(self.least.server, later.least.server),
            },
            longest: Sides {
                client: self.longest.client.max(later.longest.client),
                server: self.longest.server.max(later.longest.server),
            },
            push: newer(self.push, later.push),
            zero_grant: self.zero_grant | later.zero_grant,
            odd_promise: self.odd_promise | later.odd_promise,
            early_promise: self.early_promise | (self.push.is_none() & later.early_promise),
            barred_promise: (self.barred_promise | later.barred_promise)
                | (is_zero(self.push) & later.early_promise),
        }
    }
}
