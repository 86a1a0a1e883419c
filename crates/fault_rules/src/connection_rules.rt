//! What an item shows of the connection, and what it makes of it (RFC 9113, 4.2, 5.1.1, 6.9, 8.4).

ghost use Rattle.std.specs.Prelude.{◌≡◌, ℕ, pos, ◌+◌, ◌-◌, ◌^◌, ◌<◌, ◌++◌, max, if◌then◌else◌, IfOk, OnOk};
ghost use Rattle.std.specs.Prelude.{OnErr};
ghost use Rattle.std.specs.Bool.{OnTrue};
ghost use Rattle.audit_terms.specs.Finding.{finding_at, say};
ghost use Rattle.audit_terms.specs.Window.{overflows, overruns, stall_begins, stall_ends};
ghost use Rattle.audit_terms.specs.declared.kinds.Kind.TheVariants.{ConnectionCredit, ConnectionOverflow};
ghost use Rattle.audit_terms.specs.declared.kinds.Kind.TheVariants.{ConnectionOverrun, ConnectionStallBegin};
ghost use Rattle.audit_terms.specs.declared.kinds.Kind.TheVariants.{ConnectionStallEnd, ZeroConnectionGrant};
ghost use Rattle.audit_terms.specs.Side.{other};
ghost use Rattle.audit_terms.specs.Sides.{side_of, each_side};
ghost use Rattle.audit_terms.specs.Frame.{content_by, grants_nothing, promised_in};
ghost use Rattle.audit_terms.specs.Change.{new_limit};
ghost use Rattle.audit_terms.specs.Connection.{connection_said, connection_after, connection_window_said};
ghost use Rattle.audit_terms.specs.Connection.{connection_windows_said, credit_after, length_said, push_said};
ghost use Rattle.audit_terms.specs.Connection.{opening_order_said, promise_order_said, is_opened_by_headers};
ghost use Rattle.audit_terms.specs.Connection.{is_even_promise};
ghost use Rattle.audit_terms.specs.code.Room.{HasRoom, HaveRoom, HaveMovedLittle};
ghost use Rattle.audit_terms.specs.code.runs.Orderly.{IsInRange};
ghost use Rattle.fault_rules.specs.code.Plain.{IsPlainItem, plain_after, plain_said};
ghost use Rattle.fault_rules.specs.code.Unmoved.{LeavesConnection};

use crate::frame_faults::say_fault;
use crate::spots::{Spot, say_at, say_each};
use audit_terms::{
    ConnectionState, Count, Finding, Frame, Item, Kind, Side, Sides, limit_after, new_limit,
    new_push,
};
use std::alloc::AllocError;

/// Adds what an item shows of the connection: its length, a promise that is not allowed, the order of openings and
/// promises, both connection windows; and brings the connection to its state after the item. Without memory the
/// state is as it was, and some findings may have been added.
pub fn say_connection(
    found: &mut Vec<Finding>,
    state: &mut ConnectionState,
    item: &Item,
) -> Result<(), AllocError>
    requires frame { IsInRange item.now.frame }
    requires room { HaveRoom (2 ^ 60) state.old.credit }
    ensures said { OnOk result (found.new.items ≡ found.old.items ++ connection_said state.old item.now) }
    ensures after { OnOk result (state.new ≡ connection_after state.old item.now) }
    ensures err { OnErr result (state.new ≡ state.old) }
    ensures little { HaveMovedLittle state.old.credit state.new.credit }
{
    if is_plain_item(item) {
        return say_plain(found, state, &item.frame);
    }
    say_item(found, state, item)?;
    let opened = opened_after(state, item);
    let promised = promised_after(state, &item.frame);
    say_connection_windows(found, &mut state.credit, &item.frame)?;
    state.opened = opened;
    state.promised = promised;
    state.push = new_push(&item.change, state.push);
    state.limit = limit_after(&item.change, &state.limit);
    Ok(())
}

/// Is it content or a grant, and no change? It only moves credit of the connection. Most frames are of this kind.
#[inline]
fn is_plain_item(item: &Item) -> bool
    ensures { OnTrue result (IsPlainItem item.now) }
{
    let body = &item.frame.body;
    item.change.is_none() && (body.is_content() || body.is_update())
}

/// What `say_connection` does at such a frame.
fn say_plain(
    found: &mut Vec<Finding>,
    state: &mut ConnectionState,
    frame: &Frame,
) -> Result<(), AllocError>
    requires frame { IsInRange frame.now }
    requires room { HaveRoom (2 ^ 60) state.old.credit }
    ensures said { OnOk result (found.new.items ≡ found.old.items ++ plain_said state.old frame.now) }
    ensures after { OnOk result (state.new ≡ plain_after state.old frame.now) }
    ensures err { OnErr result (state.new ≡ state.old) }
    ensures little { HaveMovedLittle state.old.credit state.new.credit }
{
    say_length(found, state.limit.of(frame.side), frame)?;
    say_connection_windows(found, &mut state.credit, frame)
}

/// What a frame does to the connection window of a side, from the credit before it.
fn count_of_frame(before: &i64, side: Side, frame: &Frame) -> Count
    requires { HasRoom (2 ^ 60) before.now }
    ensures before { result.before ≡ before.now }
    ensures after { result.after ≡ credit_after side before.now frame.now }
    ensures content { result.content ≡ content_by side frame.now }
    ensures moved { (n : ℕ) → HasRoom n before.now → HasRoom (n + 2 ^ 32) result.after }
{
    let content = frame.content_by(side);
    let granted = frame.grant_to(side, 0);
    Count {
        before: *before,
        after: *before + i64::from(granted) - i64::from(content),
        content,
    }
}

/// Does a frame leave the connection window of a side as it is? It sends nothing through it, nor grants to it.
#[inline]
fn leaves_connection_window(side: Side, frame: &Frame) -> bool
    ensures { OnTrue result (LeavesConnection side frame.now) }
{
    if frame.side == side {
        !frame.body.is_content()
    } else {
        frame.stream != 0 || !frame.body.is_update()
    }
}

/// Adds what a frame shows of the connection window of a side, from the credit before it, and gives the credit after.
fn say_connection_window(
    found: &mut Vec<Finding>,
    before: &i64,
    side: Side,
    frame: &Frame,
) -> Result<i64, AllocError>
    requires frame { IsInRange frame.now }
    requires room { HasRoom (2 ^ 60) before.now }
    ensures said { OnOk result (found.new.items ≡ found.old.items ++ connection_window_said side before.now frame.now) }
    ensures after { IfOk result (λ after. after ≡ credit_after side before.now frame.now) }
    ensures moved { IfOk result (λ after. (n : ℕ) → HasRoom n before.now → HasRoom (n + 2 ^ 32) after) }
{
    if leaves_connection_window(side, frame) {
        return Ok(*before);
    }
    let count = count_of_frame(before, side, frame);
    let spot = Spot {
        side,
        number: frame.number,
        stream: 0,
    };
    say_zero_grant(found, frame, spot)?;
    let tests = [
        (count.overflows(), Kind::ConnectionOverflow),
        (count.overruns(), Kind::ConnectionOverrun),
        (count.stall_ends(), Kind::ConnectionStallEnd),
        (count.stall_begins(), Kind::ConnectionStallBegin),
        (count.moves(), Kind::ConnectionCredit),
    ];
    say_each(found, &tests, spot, &count.after)?;
    Ok(count.after)
}

/// Adds an increment of 0 for the connection window of a spot's side: the other side grants it (RFC 9113, 6.9).
fn say_zero_grant(found: &mut Vec<Finding>, frame: &Frame, spot: Spot) -> Result<(), AllocError>
    ensures { OnOk result (found.new.items ≡ found.old.items ++ say (grants_nothing spot.side 0 frame.now)
        (finding_at ZeroConnectionGrant spot.number spot.stream (other spot.side) (pos 0))) }
{
    let granter = Spot {
        side: spot.side.other(),
        number: spot.number,
        stream: spot.stream,
    };
    let is_zero = frame.grants_nothing(spot.side, 0);
    say_at(found, is_zero, Kind::ZeroConnectionGrant, granter, 0)
}

/// Adds what a frame shows of both connection windows, and counts it in them (RFC 9113, 6.9.1). Without memory the
/// credits are as they were, and some findings may have been added.
fn say_connection_windows(
    found: &mut Vec<Finding>,
    credit: &mut Sides<i64>,
    frame: &Frame,
) -> Result<(), AllocError>
    requires frame { IsInRange frame.now }
    requires room { HaveRoom (2 ^ 60) credit.old }
    ensures said { OnOk result (found.new.items ≡ found.old.items ++ connection_windows_said credit.old frame.now) }
    ensures counted { OnOk result (credit.new ≡ each_side (λ d. credit_after d (side_of d credit.old) frame.now)) }
    ensures err { OnErr result (credit.new ≡ credit.old) }
    ensures little { HaveMovedLittle credit.old credit.new }
{
    let client = say_connection_window(found, &credit.client, Side::Client, frame)?;
    let server = say_connection_window(found, &credit.server, Side::Server, frame)?;
    *credit = Sides { client, server };
    Ok(())
}

/// Adds what an item shows of the connection beside its windows.
fn say_item(
    found: &mut Vec<Finding>,
    state: &ConnectionState,
    item: &Item,
) -> Result<(), AllocError>
    requires { IsInRange item.now.frame }
    ensures { OnOk result (found.new.items ≡ found.old.items
        ++ length_said (new_limit item.now.change item.now.frame.side
        (side_of item.now.frame.side state.now.limit)) item.now.frame
        ++ push_said state.now.push item.now.frame
        ++ opening_order_said state.now.opened item.now
        ++ promise_order_said state.now.promised item.now.frame) }
{
    let frame = &item.frame;
    let limit = new_limit(&item.change, frame.side, state.limit.of(frame.side));
    say_length(found, limit, frame)?;
    say_push(found, state.push, frame)?;
    say_opening_order(found, state.opened, item)?;
    say_promise_order(found, state.promised, frame)
}

/// The greatest stream that the client opened so far, after an item.
fn opened_after(state: &ConnectionState, item: &Item) -> u32
    ensures { result ≡ (connection_after state.now item.now).opened }
{
    if is_opened_by_headers(item) {
        state.opened.max(item.frame.stream)
    } else {
        state.opened
    }
}

/// The greatest even stream that the server promised so far, after a frame.
fn promised_after(state: &ConnectionState, frame: &Frame) -> u32
    ensures { result ≡ (if is_even_promise frame.now then max state.now.promised (promised_in frame.now.body)
        else state.now.promised) }
{
    let promised = frame.body.promised();
    if frame.is_server_promise() && promised % 2 == 0 {
        state.promised.max(promised)
    } else {
        state.promised
    }
}

/// Is it a HEADERS that opens its stream?
fn is_opened_by_headers(item: &Item) -> bool
    ensures { result ≡ is_opened_by_headers item.now }
{
    item.opens && item.frame.body.is_headers()
}

/// Adds a frame that is longer than its side's limit (4.2).
fn say_length(found: &mut Vec<Finding>, limit: u32, frame: &Frame) -> Result<(), AllocError>
    requires { IsInRange frame.now }
    ensures { OnOk result (found.new.items ≡ found.old.items ++ length_said limit frame.now) }
{
    let kind = if frame.is_length_fatal() {
        Kind::TooLong
    } else {
        Kind::LongFrame
    };
    let length = frame.length.get();
    let long = limit < length;
    say_fault(found, long, kind, frame, length)
}

/// Adds a promise of the server while the client takes none (8.4).
fn say_push(found: &mut Vec<Finding>, push: u32, frame: &Frame) -> Result<(), AllocError>
    requires { IsInRange frame.now }
    ensures { OnOk result (found.new.items ≡ found.old.items ++ push_said push frame.now) }
{
    let push_at_all = frame.is_server_promise() && push == 0;
    say_fault(found, push_at_all, Kind::Push, frame, 0)
}

/// Adds a stream that the client opens, where it is not above each one that it opened before (5.1.1).
fn say_opening_order(found: &mut Vec<Finding>, opened: u32, item: &Item) -> Result<(), AllocError>
    requires { IsInRange item.now.frame }
    ensures { OnOk result (found.new.items ≡ found.old.items ++ opening_order_said opened item.now) }
{
    let frame = &item.frame;
    let out_of_order = is_opened_by_headers(item) && frame.stream <= opened;
    say_fault(found, out_of_order, Kind::IdNotGreater, frame, opened)
}

/// Adds a promise of the server whose stream is odd, 0, or not above each even one that it promised before (5.1.1).
fn say_promise_order(
    found: &mut Vec<Finding>,
    promised: u32,
    frame: &Frame,
) -> Result<(), AllocError>
    requires { IsInRange frame.now }
    ensures { OnOk result (found.new.items ≡ found.old.items ++ promise_order_said promised frame.now) }
{
    let stream = frame.body.promised();
    let out_of_order = frame.is_server_promise() && (stream % 2 == 1 || stream <= promised);
    let spot = Spot {
        side: frame.side,
        number: frame.number,
        stream,
    };
    say_at(found, out_of_order, Kind::IdNotGreater, spot, promised)
}
