ghost use Rattle.std.specs.Prelude.{◌≡◌, option_map, unwrap_or};
ghost use Rattle.audit_terms.specs.code.runs.Orderly.{IsOrderly};
ghost use Rattle.audit_terms.specs.Timed.{frame_numbered, timed, timed_at};

use audit_terms::{Finding, Frame, TimedFinding};

/// Looks up the frames of findings that stand in order.
#[derive(Drop)]
pub(crate) struct Lookup {
    /// The number of the frame that was looked up last, and where it stands.
    number: u32,
    at: usize,
}

impl Lookup {
    /// No frame was looked up.
    pub(crate) fn first() -> Lookup {
        Lookup { number: 0, at: 0 }
    }

    /// The finding, with the record and the time of the frame of its number. For a missing frame both are 0.
    pub(crate) fn timed(&mut self, finding: &Finding, frames: &[Frame]) -> TimedFinding
        requires { IsOrderly frames.now }
        ensures { result ≡ timed frames.now finding.now }
    {
        let number = finding.place.number();
        let (at, found) = frame_near(frames, self.place_of(number), number);
        self.number = number;
        self.at = at;
        timed_by(finding, found)
    }

    /// Where the frame of this number may stand: findings are in the order of frames.
    fn place_of(&self, number: u32) -> usize {
        if number == self.number {
            self.at
        } else {
            self.at.saturating_add(1)
        }
    }
}

/// The finding, with the record and the time of the frame of its number, whatever was looked up before. For a missing
/// frame both are 0.
pub(crate) fn timed_in(frames: &[Frame], finding: &Finding) -> TimedFinding
    requires { IsOrderly frames.now }
    ensures { result ≡ timed frames.now finding.now }
{
    let (_, found) = frame_at(frames, finding.place.number());
    timed_by(finding, found)
}

/// The finding, with the record and the time of its frame, if that was found; else both are 0.
fn timed_by(finding: &Finding, found: Option<Frame>) -> TimedFinding
    ensures { result ≡ timed_at (unwrap_or (option_map (λ frame. frame.rec) found) 0)
        (unwrap_or (option_map (λ frame. frame.nanos) found) 0) finding.now }
{
    match found {
        Some(frame) => TimedFinding::of(finding, &frame),
        None => TimedFinding {
            place: finding.place,
            value: finding.value,
            nanos: 0,
            rec: 0,
            kind: finding.kind,
            side: finding.side,
        },
    }
}

/// Where the frame of this number stands, and the frame. It is first looked up where it may be.
#[inline]
fn frame_near(frames: &[Frame], guess: usize, number: u32) -> (usize, Option<Frame>)
    requires { IsOrderly frames.now }
    ensures { result.1 ≡ frame_numbered frames.now number }
{
    match frames.get(guess) {
        Some(frame) if frame.number == number => (guess, Some(*frame)),
        _ => frame_at(frames, number),
    }
}

/// The same. It is first looked up as far behind the first frame as their numbers differ: there it is, if numbers have
/// no gap.
fn frame_at(frames: &[Frame], number: u32) -> (usize, Option<Frame>)
    requires { IsOrderly frames.now }
    ensures { result.1 ≡ frame_numbered frames.now number }
{
    let offset = offset_of(frames, number);
    match frames.get(offset) {
        Some(frame) if frame.number == number => (offset, Some(*frame)),
        _ => search(frames, number),
    }
}

/// The same, by binary search.
fn search(frames: &[Frame], number: u32) -> (usize, Option<Frame>)
    requires { IsOrderly frames.now }
    ensures { result.1 ≡ frame_numbered frames.now number }
{
    match frames.binary_search_by_key(&number, |frame| frame.number) {
        Ok(at) => (at, Some(frames[at])),
        Err(at) => (at, None),
    }
}

/// How far behind the first frame the one of this number is, if numbers have no gap.
#[inline]
fn offset_of(frames: &[Frame], number: u32) -> usize {
    match frames.first() {
        Some(first) => number.wrapping_sub(first.number) as usize,
        None => 0,
    }
}
