ghost use Rattle.std.specs.Prelude.{◌≡◌, ◌≤◌, ◌^◌, ◌==◌, ◌&&◌, ◌||◌, length};
ghost use Rattle.std.specs.List.{AllByRecursion};
ghost use Rattle.audit_terms.specs.declared.sides.Side.TheVariants.{Client, Server};
ghost use Rattle.audit_terms.specs.Frame.{is_zero_grant};
ghost use Rattle.audit_terms.specs.Connection.{credit_moved};
ghost use Rattle.audit_terms.specs.code.Room.{HasRoom};
ghost use Rattle.conn_scan.specs.code.Items.{items_in, IsBlock};
ghost use Rattle.conn_scan.specs.code.Block.{MovesLittle};
ghost use Rattle.conn_scan.specs.code.Credit.{spent_by, granted_by, credit_met};
ghost use Rattle.conn_scan.specs.code.ConnSum.{conn_sum_of, conn_met, conn_counted};
ghost use Rattle.conn_scan.specs.code.ConnSum.{conn_promised};

use crate::block_items::{Block, changes_not_below, first_number, item_at, numbers_not_below};
use crate::credits::Credit;
use crate::ids::{opened_id, promise_of};
use crate::latest::Latest;
use crate::rising::Rising;
use crate::summaries::Summary;
use audit_terms::{ConnectionState, Frame, Item, Side, Sides};

/// All that a list of items does to its connection.
#[derive(Clone, Copy)]
pub struct ConnSum {
    /// What they do to the connection credit of each side.
    pub credit: Sides<Credit>,
    /// The streams that HEADERS of the client open (RFC 9113, 5.1.1).
    pub opened: Rising,
    /// The even streams that the server promises.
    pub promised: Rising,
    /// What they bring into force, and the lengths of their frames.
    pub latest: Latest,
}

/// Takes what a frame moves, by its content the credit of its sender and by its grant that of the other side, and
/// whether it grants 0.
fn take_moves(frame: &Frame, own: &mut Credit, other: &mut Credit, zero_grant: &mut bool)
    requires own { HasRoom (2 ^ 60) own.old.sum }
    requires other { HasRoom (2 ^ 60) other.old.sum }
    ensures own { own.new ≡ credit_met own.old (spent_by frame.now) }
    ensures other { other.new ≡ credit_met other.old (granted_by frame.now) }
    ensures zero { zero_grant.new ≡ zero_grant.old || ((frame.now.stream == 0) && is_zero_grant frame.now.body) }
    ensures little { HasRoom (2 ^ 32) (spent_by frame.now) × HasRoom (2 ^ 32) (granted_by frame.now) }
{
    if frame.body.is_content() {
        own.meet(-i64::from(frame.length.get()));
    }
    if frame.stream == 0 {
        other.meet(i64::from(frame.body.increment()));
        *zero_grant |= frame.body.is_zero_grant();
    }
}

impl ConnSum {
    /// Takes one item more.
    fn meet(&mut self, item: &Item)
        requires client { HasRoom (2 ^ 60) self.old.credit.client.sum }
        requires server { HasRoom (2 ^ 60) self.old.credit.server.sum }
        ensures met { self.new ≡ conn_met self.old item.now }
        ensures little { MovesLittle item.now }
    {
        self.count(&item.frame);
        self.see_promise(&item.frame);
        self.opened.meet(opened_id(item));
        self.latest.meet_change(&item.change);
    }

    /// Takes the length of a frame, what it moves, and whether it grants 0.
    fn count(&mut self, frame: &Frame)
        requires client { HasRoom (2 ^ 60) self.old.credit.client.sum }
        requires server { HasRoom (2 ^ 60) self.old.credit.server.sum }
        ensures counted { self.new ≡ conn_counted self.old frame.now }
        ensures little { HasRoom (2 ^ 32) (credit_moved Client frame.now)
            × HasRoom (2 ^ 32) (credit_moved Server frame.now) }
    {
        let length = frame.length.get();
        let credit = &mut self.credit;
        let latest = &mut self.latest;
        let longest = &mut latest.longest;
        let zero = &mut latest.zero_grant;
        match frame.side {
            Side::Client => {
                longest.client = longest.client.max(length);
                take_moves(frame, &mut credit.client, &mut credit.server, zero);
            }
            Side::Server => {
                longest.server = longest.server.max(length);
                take_moves(frame, &mut credit.server, &mut credit.client, zero);
            }
        }
    }

    /// Takes a promise of the server, if the frame is one.
    fn see_promise(&mut self, frame: &Frame)
        ensures { self.new ≡ conn_promised self.old frame.now }
    {
        if frame.is_server_promise() {
            self.promised.meet(promise_of(frame));
            self.latest.promise(frame.body.promised());
        }
    }
}

impl Summary for ConnSum {
    ghost use Rattle.audit_terms.specs.Connection.{connection_after};
    ghost use Rattle.conn_scan.specs.code.Block.{ItemsFit};
    ghost use Rattle.conn_scan.specs.code.ConnSum.{conn_none, conn_one, conn_join, conn_advance};
    ghost use Rattle.conn_scan.specs.code.ConnSumLaws.{conn_laws};

    type Item = Item;

    type State = ConnectionState;

    ghost empty = { conn_none };

    ghost of = { conn_one };

    ghost join = { conn_join };

    ghost advance = { conn_advance };

    ghost step = { connection_after };

    ghost fits = { ItemsFit };

    fn empty() -> Self {
        ConnSum {
            credit: Sides::both(Credit::empty()),
            opened: Rising::empty(),
            promised: Rising::empty(),
            latest: Latest::empty(),
        }
    }

    fn of(item: &Item) -> Self {
        let mut sum = Self::empty();
        sum.meet(item);
        sum
    }

    fn join(&self, later: &Self) -> Self {
        ConnSum {
            credit: Sides {
                client: self.credit.client.join(&later.credit.client),
                server: self.credit.server.join(&later.credit.server),
            },
            opened: self.opened.join(&later.opened),
            promised: self.promised.join(&later.promised),
            latest: self.latest.join(&later.latest),
        }
    }

    fn advance(now: &ConnectionState, items: &Self) -> ConnectionState {
        let latest = &items.latest;
        ConnectionState {
            credit: Sides {
                client: Credit::advance(&now.credit.client, &items.credit.client),
                server: Credit::advance(&now.credit.server, &items.credit.server),
            },
            opened: now.opened.max(items.opened.greatest),
            promised: now.promised.max(items.promised.greatest),
            push: latest.push.unwrap_or(now.push),
            limit: Sides {
                client: latest.limit.client.unwrap_or(now.limit.client),
                server: latest.limit.server.unwrap_or(now.limit.server),
            },
        }
    }

    ghost laws = { conn_laws };
}

/// The summary of a block; none of its items moves a credit by more than 2^32 bytes.
pub fn block_sum(block: &Block) -> ConnSum
    requires block { IsBlock block.now }
    requires number { length block.now.frames.now ≤ 2 ^ 28 }
    ensures sum { result ≡ conn_sum_of (items_in block.now) }
    ensures little { AllByRecursion MovesLittle (items_in block.now) }
{
    let mut sum = ConnSum::empty();
    let mut frames = block.frames;
    let mut opened = block.opened;
    let mut changes = block.changes;
    let mut due = first_number(opened, changes);
    while let Some((frame, later)) = frames.split_first() {
        if frame.number < due {
            // It opens no stream and brings nothing into force.
            sum.count(frame);
            sum.see_promise(frame);
        } else {
            opened = numbers_not_below(opened, frame.number);
            changes = changes_not_below(changes, frame.number);
            sum.meet(&item_at(frame, opened, changes));
            opened = numbers_not_below(opened, frame.number + 1);
            changes = changes_not_below(changes, frame.number + 1);
            due = first_number(opened, changes);
        }
        frames = later;
    }
    sum
}
