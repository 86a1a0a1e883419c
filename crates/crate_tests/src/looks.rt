//! When runs look where their connection stops, and what they leave out past that place.

ghost use Rattle.std.specs.Prelude.{◌≡◌, length, IfOk, IfSome};
ghost use Rattle.std.specs.List.{range_with_len};
ghost use Rattle.audit_terms.specs.code.runs.Orderly.{IsOrderly};
ghost use Rattle.audit_terms.specs.code.runs.Changes.{AreAcknowledged, AreOrderly};
ghost use Rattle.stream_credit.specs.code.StreamPart.{IsStreamPart, frames_met};

use crate::Answer;
use crate::frames::{acknowledgement, are_orderly, data, headers, initial_window};
use audit_terms::{Change, ConnectionState, Finding, Frame, Kind, Look, Place, Side};
use conn_scan::{Block, block_findings};
use fault_rules::pair;
use std::alloc::{AllocError, Global};
use stream_credit::{Changes, StreamPart, StreamRun, stream_run};

/// Answers none at its first calls, and a place from some call on.
#[derive(Clone, Copy)]
struct TestLook {
    /// How often it was asked.
    calls: u32,
    /// How many findings each of its first four calls was handed.
    handed: [usize; 4],
    /// How many calls it answers by none before it answers the place.
    before: u32,
    stop: Place,
}

/// What a look and a run with it come to: how often the look was asked, and how often the run looked, as it says; how
/// many findings each of the first four looks was handed; where the run stopped, and what it was answered last; how
/// many findings it has.
type Looked = ([u32; 2], [usize; 4], [Option<Place>; 2], usize);

impl TestLook {
    /// A look that answers the place after so many calls.
    fn after(before: u32, stop: Place) -> Self {
        TestLook {
            calls: 0,
            handed: [0; 4],
            before,
            stop,
        }
    }

    /// What it and a run come to, which looked so often, with these places and so many findings.
    fn with(&self, looks: u32, places: [Option<Place>; 2], found: usize) -> Looked {
        ([self.calls, looks], self.handed, places, found)
    }

    /// What it and the run of a stream come to.
    fn with_run(&self, run: &StreamRun) -> Looked {
        self.with(run.looks, [run.upto, run.last_look], run.findings.len())
    }

    /// What they are to come to where the run makes so many looks, and ends by the last if that answers the place.
    fn wanted(&self, looks: u32, handed: [usize; 4], found: usize) -> Looked {
        let upto = (self.before < looks).then_some(self.stop);
        ([looks; 2], handed, [upto; 2], found)
    }
}

impl Look for TestLook {
    ghost answers = { λ before found answer after. Unit {0} };

    fn look(&mut self, found: &[Finding]) -> Option<Place> {
        let call = self.calls;
        if let Some(handed) = self.handed.get_mut(call as usize) {
            *handed = found.len();
        }
        self.calls = call.saturating_add(1);
        if call < self.before {
            None
        } else {
            Some(self.stop)
        }
    }
}

/// How many frames there are, numbered from 1.
const FRAMES: u32 = 1000;

/// The client's HEADERS on a stream, and then DATA of one byte each.
fn on_stream(number: u32) -> Frame {
    if number == 1 {
        headers(number, Side::Client, 1)
    } else {
        data(number, Side::Client, 1, 1)
    }
}

/// A SETTINGS of the server, and its acknowledgement, in turn.
fn of_settings(number: u32) -> Frame {
    if number % 2 == 1 {
        initial_window(number, Side::Server, Some(number))
    } else {
        acknowledgement(number, Side::Client)
    }
}

/// Frames that were collected, where they are so many, and in order.
fn in_order(frames: Result<Vec<Frame>, AllocError>, count: usize) -> Option<Vec<Frame>>
    ensures orderly { IfSome result (λ frames. IsOrderly frames.items) }
    ensures count { IfSome result (λ frames. length frames.items ≡ count) }
{
    let frames = frames.ok()?;
    if frames.len() == count && are_orderly(frames.as_slice()) {
        Some(frames)
    } else {
        None
    }
}

/// The frames on a stream.
fn frames_on_stream(alloc: Global) -> Option<Vec<Frame>>
    ensures orderly { IfSome result (λ frames. IsOrderly frames.items) }
    ensures count { IfSome result (λ frames. length frames.items ≡ 1000) }
{
    in_order((1..=FRAMES).map(on_stream).collect(alloc), 1000)
}

/// What a run of the frames as one block comes to, with credits: one finding at each frame but the first.
fn looked_over_block(alloc: Global, mut look: TestLook) -> Option<Looked> {
    let frames = frames_on_stream(alloc)?;
    let block = Block {
        frames: frames.as_slice(),
        opened: &[],
        changes: &[],
    };
    let run = block_findings(alloc, &ConnectionState::start(), &block, true, &mut look).ok()?;
    Some(look.with(run.looks, [run.upto, run.last_look], run.findings.len()))
}

/// A stop at frame 400 is past the look before frame 257, and one at frame 100 before it.
pub fn looks_of_a_block(alloc: Global) -> Answer {
    for (before, number, handed, looks, found) in [
        (4, 0, [0, 255, 511, 767], 4, 999),
        (1, 400, [0, 255, 0, 0], 2, 399),
        (1, 100, [0, 255, 0, 0], 2, 99),
    ] {
        let look = TestLook::after(before, Place::of(number, Kind::ConnectionCredit.rank(), 0));
        if looked_over_block(alloc, look) != Some(look.wanted(looks, handed, found)) {
            return Ok(false);
        }
    }
    Ok(true)
}

/// The first numbers.
fn numbers(alloc: Global, count: u32) -> Result<Vec<u32>, AllocError>
    ensures { IfOk result (λ numbers. numbers.items ≡ range_with_len 0 count) }
{
    let mut numbers = Vec::new(alloc);
    for at in 0..count {
        numbers.push(at)?;
    }
    Ok(numbers)
}

/// What a stream shows, with credits.
fn run_of(
    alloc: Global,
    own: &StreamPart<'_>,
    changes: &[Change],
    look: &mut TestLook,
) -> Option<StreamRun>
    requires own { IsStreamPart own.now }
    requires changes { AreOrderly changes.now }
    requires acknowledged { AreAcknowledged (frames_met own.now) changes.now }
{
    let changes = Changes::of(alloc, changes).ok()?;
    stream_run(alloc, own, &changes, true, look).ok()
}

/// What the frames show as those of a stream.
fn run_of_frames(alloc: Global, look: &mut TestLook) -> Option<StreamRun> {
    let frames = frames_on_stream(alloc)?;
    let Ok(positions) = numbers(alloc, FRAMES) else {
        return None;
    };
    let own = StreamPart {
        stream: 1,
        frames: frames.as_slice(),
        positions: positions.as_slice(),
    };
    run_of(alloc, &own, &[], look)
}

/// The credits of both sides as the stream opens, and then that of the client at each frame.
fn credits(alloc: Global) -> Result<Vec<Finding>, AllocError> {
    let mut credits = Vec::new(alloc);
    for side in [Side::Client, Side::Server] {
        credits.push(Finding::at(Kind::StreamCredit, 1, 1, side, 65_535))?;
    }
    for number in 2..=FRAMES {
        credits.push(Finding::at(Kind::StreamCredit, number, 1, Side::Client, 65_536 - number))?;
    }
    Ok(credits)
}

/// Whether the run of a stream comes to this with its look, and shows the first of these credits.
fn has_looked(alloc: Global, mut look: TestLook, want: Looked, credits: &[Finding]) -> bool {
    let Some(run) = run_of_frames(alloc, &mut look) else {
        return false;
    };
    look.with_run(&run) == want
        && run.opened_at == (want.3 > 0).then_some(1)
        && credits.get(..want.3) == Some(run.findings.as_slice())
}

/// A stop at frame 300 is answered before frame 257, and one at frame 0 before the opening.
pub fn looks_of_a_stream(alloc: Global) -> Answer {
    let credits = credits(alloc)?;
    for (before, number, handed, looks, found) in [
        (4, 0, [0, 257, 513, 769], 4, 1001),
        (1, 300, [0, 257, 0, 0], 2, 300),
        (0, 0, [0; 4], 1, 0),
    ] {
        let look = TestLook::after(before, Place::of(number, 4, 0));
        let want = look.wanted(looks, handed, found);
        if !has_looked(alloc, look, want, credits.as_slice()) {
            return Ok(false);
        }
    }
    Ok(true)
}

/// The changes of settings, a thousand.
fn thousand_changes(alloc: Global) -> Option<Vec<Change>>
    ensures { IfSome result (λ changes. AreOrderly changes.items) }
{
    let frames = in_order((1..=2 * FRAMES).map(of_settings).collect(alloc), 2000)?;
    let changes = pair(alloc, frames.as_slice()).ok()?.changes;
    (changes.len() == 1000).then_some(changes)
}

/// What a look comes to, and the run of a stream without frames, where settings change a thousand times.
fn looked_among_changes(alloc: Global, mut look: TestLook) -> Option<Looked> {
    let changes = thousand_changes(alloc)?;
    let own = StreamPart {
        stream: 1,
        frames: &[],
        positions: &[],
    };
    let run = run_of(alloc, &own, changes.as_slice(), &mut look)?;
    Some(look.with_run(&run))
}

/// A change is no step of a stream that has no window: so the run looks once, and nothing lies past the stop.
pub fn looks_at_no_change(alloc: Global) -> Answer {
    for before in [0, 1] {
        let look = TestLook::after(before, Place::of(1, 4, 0));
        let (looks, handed, [_, last_look], found) = look.wanted(1, [0; 4], 0);
        if looked_among_changes(alloc, look) != Some((looks, handed, [None, last_look], found)) {
            return Ok(false);
        }
    }
    Ok(true)
}
