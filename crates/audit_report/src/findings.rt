ghost use Rattle.std.specs.Prelude.{◌≡◌, ◌+◌, ◌≤◌, ◌++◌, drop, length};
ghost use Rattle.audit_terms.specs.code.runs.Orderly.{IsOrderly};
ghost use Rattle.audit_report.specs.FindingLine.{finding_lines, timed_line, timed_shown_line};
ghost use Rattle.audit_report.specs.code.Findings.{timed_lines};
ghost use Rattle.audit_report.specs.code.Findings.{IsSpelled, said_text};
ghost use Rattle.audit_report.specs.code.Pages.{Adds, HasRoom};

use crate::lines::{
    LINE_ROOM, add_line, put_field, put_last, put_signed, put_text, put_word, put_words,
};
use crate::lookup::Lookup;
use crate::moments::Moment;
use audit_terms::{Finding, Frame, TimedFinding};

/// Adds to a page a line for each finding that is shown, in order. `frames` has their frames.
pub fn add_finding_lines(
    page: &mut Vec<u8>,
    findings: &[Finding],
    frames: &[Frame],
    frames_shown: bool,
)
    requires orderly { IsOrderly frames.now }
    requires room { HasRoom (length findings.now) page.old }
    ensures { Adds (length findings.now) (finding_lines frames_shown frames.now findings.now) page.old page.new }
{
    let mut line = [0; LINE_ROOM];
    let mut moment = Moment::first();
    let mut lookup = Lookup::first();
    for finding in findings {
        let one = lookup.timed(finding, frames);
        add_shown_line(page, &mut line, &mut moment, &one, frames_shown);
    }
}

/// Adds to a page a line for each finding that is shown, in order, where each has the record and the time of its frame.
pub fn add_timed_lines(page: &mut Vec<u8>, findings: &[TimedFinding], frames_shown: bool)
    requires room { HasRoom (length findings.now) page.old }
    ensures { Adds (length findings.now) (timed_lines frames_shown findings.now) page.old page.new }
{
    let mut line = [0; LINE_ROOM];
    let mut moment = Moment::first();
    for one in findings {
        add_shown_line(page, &mut line, &mut moment, one, frames_shown);
    }
}

/// Adds the line of a finding, if it is shown. `line` is room for it.
fn add_shown_line(
    page: &mut Vec<u8>,
    line: &mut [u8; LINE_ROOM],
    moment: &mut Moment,
    one: &TimedFinding,
    frames_shown: bool,
)
    requires moment { IsSpelled moment.old }
    requires room { HasRoom 1 page.old }
    ensures line { Adds 1 (timed_shown_line frames_shown one.now) page.old page.new }
    ensures moment { IsSpelled moment.new }
{
    if frames_shown || !one.kind.is_credit() {
        add_timed_line(page, line, moment, one);
    }
}

/// Adds the line of a finding.
fn add_timed_line(
    page: &mut Vec<u8>,
    line: &mut [u8; LINE_ROOM],
    moment: &mut Moment,
    one: &TimedFinding,
)
    requires moment { IsSpelled moment.old }
    requires room { HasRoom 1 page.old }
    ensures line { Adds 1 (timed_line one.now) page.old page.new }
    ensures moment { IsSpelled moment.new }
{
    let begin = put_timed_line(line, moment, one);
    add_line(page, line, begin);
}

/// Makes the line of a finding, and returns where it begins.
fn put_timed_line(line: &mut [u8; LINE_ROOM], moment: &mut Moment, one: &TimedFinding) -> usize
    requires { IsSpelled moment.old }
    ensures begins { result ≤ 512 }
    ensures made { drop result line.new ≡ timed_line one.now }
    ensures moment { IsSpelled moment.new }
{
    moment.go_to(one.rec, one.nanos);
    let end = put_last(line, "\n");
    let end = put_said(line, end, one);
    let end = put_text(line, end, moment.text());
    put_field(line, end, "frame ", one.place.number() as u64)
}

/// Puts a finding's own words just before index `end`, and returns where they begin.
fn put_said(line: &mut [u8; LINE_ROOM], end: usize, one: &TimedFinding) -> usize
    requires { (86 ≤ end) × (end ≤ 512) }
    ensures begins { (result ≤ end) × (end ≤ result + 86) }
    ensures put { drop result line.new ≡ said_text one.now ++ drop end line.old }
{
    let end = put_signed(line, end, one.value);
    let end = put_word(line, end, " value ");
    let end = put_field(line, end, " stream ", one.place.stream() as u64);
    let end = put_words(line, end, " ", one.kind.name());
    put_words(line, end, " ", one.side.name())
}
