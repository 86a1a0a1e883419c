ghost use Rattle.std.specs.Prelude.{◌≡◌, ◌+◌, ◌≤◌, ◌++◌, codes, drop, length};
ghost use Rattle.audit_report.specs.Line.{field, line as line_of};
ghost use Rattle.audit_report.specs.StallLine.{stall_end_text, stall_line, stall_lines};
ghost use Rattle.audit_report.specs.EndLine.{end_line_after};
ghost use Rattle.audit_report.specs.code.Pages.{Adds, HasRoom};

use crate::lines::{LINE_ROOM, add_line, put_field, put_last, put_signed, put_word, put_words};
use crate::stalls::Stall;
use audit_terms::Finding;

/// Adds to a page a line for each stall, in order.
pub fn add_stall_lines(page: &mut Vec<u8>, stalls: &[Stall])
    requires { HasRoom (length stalls.now) page.old }
    ensures { Adds (length stalls.now) (stall_lines stalls.now) page.old page.new }
{
    let mut line = [0; LINE_ROOM];
    for stall in stalls {
        let begin = put_stall_line(&mut line, stall);
        add_line(page, &line, begin);
    }
}

/// Makes the line of a stall, and returns where it begins.
fn put_stall_line(line: &mut [u8; LINE_ROOM], stall: &Stall) -> usize
    ensures begins { result ≤ 512 }
    ensures made { drop result line.new ≡ stall_line stall.now }
{
    let end = put_last(line, "\n");
    let end = put_stall_end(line, end, stall.to, stall.nanos);
    let end = put_field(line, end, " from ", stall.from as u64);
    let end = put_field(line, end, " stream ", stall.stream as u64);
    put_words(line, end, "stall ", stall.side.name())
}

/// Puts the end of a stall just before index `end`, and returns where it begins.
fn put_stall_end(line: &mut [u8; LINE_ROOM], end: usize, to: Option<u32>, nanos: i64) -> usize
    requires { (51 ≤ end) × (end ≤ 512) }
    ensures begins { (result ≤ end) × (end ≤ result + 51) }
    ensures put { drop result line.new ≡ stall_end_text to nanos ++ drop end line.old }
{
    let Some(number) = to else {
        return put_word(line, end, " open");
    };
    let end = put_signed(line, end, nanos);
    let end = put_word(line, end, " nanos ");
    put_field(line, end, " to ", number as u64)
}

/// Adds to a page the line that says how far the audit went, by its last finding: all frames, or up to the frame of a
/// connection error.
pub fn add_end_line(page: &mut Vec<u8>, last: Option<Finding>)
    requires { HasRoom 1 page.old }
    ensures { Adds 1 (end_line_after last) page.old page.new }
{
    let mut line = [0; LINE_ROOM];
    let begin = put_end_line(&mut line, last);
    add_line(page, &line, begin);
}

/// Makes the line that says how far the audit went, and returns where it begins.
fn put_end_line(line: &mut [u8; LINE_ROOM], last: Option<Finding>) -> usize
    ensures begins { result ≤ 512 }
    ensures made { drop result line.new ≡ end_line_after last }
{
    match last {
        Some(finding) if finding.stops() => put_stop_line(line, finding.place.number()),
        _ => put_last(line, "audit of all frames\n"),
    }
}

/// Makes the line of an audit that stopped at this frame, and returns where it begins.
fn put_stop_line(line: &mut [u8; LINE_ROOM], number: u32) -> usize
    ensures begins { result ≤ 512 }
    ensures made { drop result line.new ≡ line_of (field (codes "audit stopped at frame ") number) }
{
    let end = put_last(line, "\n");
    put_field(line, end, "audit stopped at frame ", number as u64)
}
