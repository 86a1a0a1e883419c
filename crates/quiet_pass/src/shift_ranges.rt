//! Shifts: where changes of the initial windows are many, rows hold credits less a shift, and a change moves the shift
//! alone. What is shown of a window depends on the shift before it and after it; for those of one range nothing is.

ghost use Rattle.std.specs.Prelude.{◌≡◌, ◌+◌, ◌+ℤ◌, ◌-ℤ◌, ◌^◌, ◌≤ℤ◌, pos, true, false, Bool, ℕ, ℤ, Option};
ghost use Rattle.std.specs.Option.{ForSome};
ghost use Rattle.audit_terms.specs.declared.sides.Sides.{Sides as SidesTerm};
ghost use Rattle.audit_terms.specs.code.Room.{HasRoom, WindowHasRoom};
ghost use Rattle.quiet_pass.specs.code.Shifts.{IsEntryQuietFor, IsShiftMoved, IsWindowQuietFor};
ghost use Rattle.quiet_pass.specs.code.Shifts.{are_within, is_within, raised, raised_by, raised_in};

use audit_terms::{LARGEST_WINDOW, Sides, Stream};

/// The shifts from the least to the most, in bytes; none, where the least is the greater one.
#[derive(Clone, Copy)]
struct ShiftRange {
    least: i64,
    most: i64,
}

impl ShiftRange {
    /// Is this one of the shifts?
    fn has(&self, shift: u32) -> bool
        ensures { result ≡ is_within self.now shift }
    {
        self.least <= i64::from(shift) && i64::from(shift) <= self.most
    }

    /// The shifts that are in both ranges.
    fn both(&self, other: &ShiftRange) -> Self
        ensures own { (shift : ℕ) → is_within result shift ≡ true → is_within self.now shift ≡ true }
        ensures other { (shift : ℕ) → is_within result shift ≡ true → is_within other.now shift ≡ true }
    {
        ShiftRange {
            least: greater(self.least, other.least),
            most: lesser(self.most, other.most),
        }
    }

    /// The shifts for which nothing is shown of a window, if they follow each other and this one is among them. A row
    /// holds the window.
    fn of(frames_shown: bool, window: Option<i64>, shift: u32) -> Self
        requires { WindowHasRoom (2 ^ 32) window }
        ensures { IsWindowQuietFor frames_shown result window }
    {
        match window {
            None => ShiftRange {
                least: 0,
                most: i64::from(u32::MAX),
            },
            Some(credit) => ShiftRange::of_live(frames_shown, credit, shift),
        }
    }

    /// The shifts for which nothing is shown of a live window.
    fn of_live(frames_shown: bool, credit: i64, shift: u32) -> Self
        requires { HasRoom (2 ^ 32) credit }
        ensures { IsWindowQuietFor frames_shown result (Option.Some credit) }
    {
        if frames_shown {
            return ShiftRange::alone(shift);
        }
        ShiftRange::of_credit(credit, raised_credit(credit, shift) <= 0)
    }

    /// This shift and no other: where credits are shown, each move of a live window is.
    fn alone(shift: u32) -> Self
        ensures { (frames_shown : Bool) (window : Option ℤ) → IsWindowQuietFor frames_shown result window }
    {
        ShiftRange {
            least: i64::from(shift),
            most: i64::from(shift),
        }
    }

    /// The shifts for which nothing but credits is shown of a live window, which is used up or not.
    fn of_credit(credit: i64, is_used_up: bool) -> Self
        requires { HasRoom (2 ^ 32) credit }
        ensures { IsWindowQuietFor false result (Option.Some credit) }
    {
        if is_used_up {
            return ShiftRange {
                least: 0,
                most: less(0, credit),
            };
        }
        ShiftRange {
            least: less(1, credit),
            most: less(LARGEST_WINDOW, credit),
        }
    }
}

/// So many bytes less a credit.
fn less(bytes: u32, credit: i64) -> i64
    requires { HasRoom (2 ^ 32) credit }
    ensures { result ≡ pos bytes -ℤ credit }
{
    i64::from(bytes) - credit
}

/// The greater of two.
fn greater(one: i64, other: i64) -> i64
    ensures own { one ≤ℤ result }
    ensures other { other ≤ℤ result }
{
    if one < other { other } else { one }
}

/// The lesser of two.
fn lesser(one: i64, other: i64) -> i64
    ensures own { result ≤ℤ one }
    ensures other { result ≤ℤ other }
{
    if one < other { one } else { other }
}

/// The shifts of both sides for which nothing is shown of some streams, if one of them follows another.
#[derive(Clone, Copy)]
pub(crate) struct QuietShifts {
    client: ShiftRange,
    server: ShiftRange,
}

impl QuietShifts {
    /// None.
    pub(crate) fn none() -> Self
        ensures { (shift : SidesTerm ℕ) → are_within result shift ≡ false }
    {
        let none = ShiftRange { least: 1, most: 0 };
        QuietShifts {
            client: none,
            server: none,
        }
    }

    /// All that there are.
    pub(crate) fn every() -> Self {
        let every = ShiftRange {
            least: 0,
            most: i64::from(u32::MAX),
        };
        QuietShifts {
            client: every,
            server: every,
        }
    }

    /// Are these among them?
    pub(crate) fn have(&self, shift: &Sides<u32>) -> bool
        ensures { result ≡ are_within self.now shift.now }
    {
        self.client.has(shift.client) && self.server.has(shift.server)
    }

    /// Those that are among both.
    pub(crate) fn both(&self, other: &QuietShifts) -> Self
        ensures own { (shift : SidesTerm ℕ) → are_within result shift ≡ true → are_within self.now shift ≡ true }
        ensures other { (shift : SidesTerm ℕ) → are_within result shift ≡ true → are_within other.now shift ≡ true }
    {
        QuietShifts {
            client: self.client.both(&other.client),
            server: self.server.both(&other.server),
        }
    }

    /// Those of a stream that is held so, these shifts among them.
    pub(crate) fn of(frames_shown: bool, entry: &Stream, shift: &Sides<u32>) -> Self
        requires client { WindowHasRoom (2 ^ 32) entry.now.window.client }
        requires server { WindowHasRoom (2 ^ 32) entry.now.window.server }
        ensures { IsEntryQuietFor frames_shown result entry.now }
    {
        QuietShifts {
            client: ShiftRange::of(frames_shown, entry.window.client, shift.client),
            server: ShiftRange::of(frames_shown, entry.window.server, shift.server),
        }
    }
}

/// A stream whose row holds this, by the shift.
pub(crate) fn raised(entry: &Stream, shift: &Sides<u32>) -> Stream
    requires client { WindowHasRoom (2 ^ 32) entry.now.window.client }
    requires server { WindowHasRoom (2 ^ 32) entry.now.window.server }
    ensures same { result ≡ raised shift.now entry.now }
    ensures client { WindowHasRoom (2 ^ 60) result.window.client }
    ensures server { WindowHasRoom (2 ^ 60) result.window.server }
{
    Stream {
        life: entry.life,
        window: Sides {
            client: raised_by(entry.window.client, shift.client),
            server: raised_by(entry.window.server, shift.server),
        },
    }
}

/// The same, where rows hold credits less a shift, or as they are.
pub(crate) fn raised_in(entry: &Stream, shift: &Option<Sides<u32>>) -> Stream
    requires client { WindowHasRoom (2 ^ 32) entry.now.window.client }
    requires server { WindowHasRoom (2 ^ 32) entry.now.window.server }
    ensures same { result ≡ raised_in shift.now entry.now }
    ensures client { WindowHasRoom (2 ^ 60) result.window.client }
    ensures server { WindowHasRoom (2 ^ 60) result.window.server }
{
    match shift {
        Some(shift) => raised(entry, shift),
        None => *entry,
    }
}

/// A window by the shift.
fn raised_by(window: Option<i64>, shift: u32) -> Option<i64>
    requires { WindowHasRoom (2 ^ 32) window }
    ensures same { result ≡ raised_by shift window }
    ensures room { WindowHasRoom (2 ^ 60) result }
{
    match window {
        Some(credit) => Some(raised_credit(credit, shift)),
        None => None,
    }
}

/// A credit by the shift.
fn raised_credit(credit: i64, shift: u32) -> i64
    requires { HasRoom (2 ^ 32) credit }
    ensures same { result ≡ credit +ℤ pos shift }
    ensures room { HasRoom (2 ^ 60) result }
{
    credit + i64::from(shift)
}

/// What a row holds of a stream, by the shift; nothing, if a credit is out of range.
pub(crate) fn lowered(entry: &Stream, shift: &Sides<u32>) -> Option<Stream>
    ensures { ForSome result (λ low. raised shift.now low ≡ entry.now) }
{
    Some(Stream {
        life: entry.life,
        window: Sides {
            client: lowered_by(entry.window.client, shift.client)?,
            server: lowered_by(entry.window.server, shift.server)?,
        },
    })
}

/// What a row holds of a window, by the shift; nothing, if its credit is out of range.
fn lowered_by(window: Option<i64>, shift: u32) -> Option<Option<i64>>
    ensures { ForSome result (λ low. raised_by shift low ≡ window) }
{
    match window {
        Some(credit) if credit < -(1 << 60) => None,
        Some(credit) => Some(Some(credit - i64::from(shift))),
        None => Some(None),
    }
}

/// The shifts after a change of the initial windows in force; nothing, if they are out of range.
pub(crate) fn shift_after(
    shift: &Sides<u32>,
    before: &Sides<u32>,
    after: &Sides<u32>,
) -> Option<Sides<u32>>
    ensures { ForSome result (IsShiftMoved before.now after.now shift.now) }
{
    Some(Sides {
        client: moved(shift.client, before.client, after.client)?,
        server: moved(shift.server, before.server, after.server)?,
    })
}

/// A side's shift after a change of its initial window.
fn moved(shift: u32, before: u32, after: u32) -> Option<u32>
    ensures { ForSome result (λ next. next + before ≡ shift + after) }
{
    let raised = u64::from(shift) + u64::from(after);
    let before = u64::from(before);
    if raised < before || u64::from(u32::MAX) < raised - before {
        return None;
    }
    Some((raised - before) as u32)
}
