ghost use Rattle.std.specs.Prelude.{◌≡◌, ◌≤◌, ◌++◌, OnOk, drop};
ghost use Rattle.audit_report.specs.UnopenedLines.{unopened_line, unopened_lines};

use crate::endpoints::put_endpoint;
use crate::lines::{LINE_ROOM, put_field, put_last, put_word};
use std::alloc::AllocError;
use tcp_streams::Stray;

/// Makes the line of a pair of endpoints, and returns where it begins.
fn put_unopened_line(line: &mut [u8; LINE_ROOM], stray: Stray) -> usize
    ensures begins { result ≤ 512 }
    ensures made { drop result line.new ≡ unopened_line stray }
{
    let end = put_last(line, "\n");
    let end = put_field(line, end, " segments ", stray.segments as u64);
    let end = put_endpoint(line, end, stray.to);
    let end = put_word(line, end, " ");
    let end = put_endpoint(line, end, stray.from);
    put_word(line, end, "unopened ")
}

pub(crate) fn push_unopened_lines(out: &mut Vec<u8>, strays: &[Stray]) -> Result<(), AllocError>
    ensures { OnOk result (out.new.items ≡ out.old.items ++ unopened_lines strays.now) }
{
    let mut line = [0; LINE_ROOM];
    for stray in strays {
        let begin = put_unopened_line(&mut line, *stray);
        out.extend_from_slice(&line[begin..])?;
    }
    Ok(())
}
