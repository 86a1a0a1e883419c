//! The streams of a connection, each by itself.

ghost use Rattle.std.specs.Prelude.{◌≡◌, ◌++◌, ◌<◌, IfOk, OnOk, All};
ghost use Rattle.std.specs.Option.{option_to_list};
ghost use Rattle.audit_terms.specs.code.Stops.{lesser_place};
ghost use Rattle.audit_terms.specs.code.runs.Changes.{AreOrderly};
ghost use Rattle.audit_rounds.specs.code.StreamRound.{AreStreamsOf};
ghost use Rattle.audit_rounds.specs.code.Streams.{IsRow, IsWork, RowLooks, RowsLook, row_shown, row_opened};
ghost use Rattle.audit_rounds.specs.code.Streams.{rows_shown, rows_opened};

use crate::per_connection::PerConnection;
use crate::prepared::Prepared;
use audit_terms::{Look, lesser_place, put_in_order};
use split_merge::StreamRow;
use std::alloc::{AllocError, Global};
use stop_desk::Work;
use stream_credit::{Changes, StreamPart, StreamRun, stream_run};

/// A connection's streams, and the changes that settings bring to them.
#[derive(Drop)]
pub(crate) struct Streams<'a> {
    pub(crate) of: &'a Prepared<'a>,
    pub(crate) changes: Changes<'a>,
}

/// The streams of each connection, with its changes made ready for them.
pub(crate) fn streams_each<'a>(
    alloc: Global,
    connections: &'a [PerConnection<'_>],
) -> Result<Vec<Streams<'a>>, AllocError>
    ensures { IfOk result (λ all. AreStreamsOf connections.now all.items) }
{
    let mut all = Vec::new(alloc);
    for one in connections {
        all.push(Streams {
            of: &one.prepared,
            changes: Changes::of(alloc, one.prepared.changes.as_slice())?,
        })?;
    }
    Ok(all)
}

/// What one stream shows, with a look.
fn run_of_row<L: Look>(
    alloc: Global,
    streams: &Streams<'_>,
    row: &StreamRow,
    frames_shown: bool,
    look: &mut L,
) -> Result<StreamRun, AllocError>
    requires changes { AreOrderly streams.now.changes }
    requires row { IsRow streams.now row.now }
    ensures { IfOk result (λ run. IsWork L.answers (RowLooks frames_shown streams.now row.now) look.old look.new
        (row_shown frames_shown streams.now row.now) (option_to_list (row_opened streams.now row.now)) run.upto
        run.findings.items (option_to_list run.opened_at)) }
{
    let own = StreamPart {
        stream: row.stream,
        frames: streams.of.frames,
        positions: streams.of.split.positions_of(row),
    };
    stream_run(alloc, &own, &streams.changes, frames_shown, look)
}

/// Adds what one stream shows.
fn add_run(work: &mut Work<Vec<u32>>, mut run: StreamRun) -> Result<(), AllocError>
    ensures findings { OnOk result (work.new.findings.items ≡ work.old.findings.items ++ run.findings.items) }
    ensures upto { OnOk result (work.new.upto ≡ lesser_place work.old.upto run.upto) }
    ensures opened { OnOk result (work.new.made.items ≡ work.old.made.items ++ option_to_list run.opened_at) }
{
    work.findings.append(&mut run.findings)?;
    work.upto = lesser_place(&work.upto, &run.upto);
    if let Some(number) = run.opened_at {
        work.made.push(number)?;
    }
    Ok(())
}

/// What a group of streams shows, one stream after the other, put in order.
pub(crate) fn run_of_rows<L: Look>(
    alloc: Global,
    streams: &Streams<'_>,
    rows: &[StreamRow],
    frames_shown: bool,
    look: &mut L,
) -> Result<Work<Vec<u32>>, AllocError>
    requires changes { AreOrderly streams.now.changes }
    requires rows { All (IsRow streams.now) rows.now }
    ensures { IfOk result (λ work. IsWork L.answers (RowsLook frames_shown streams.now rows.now) look.old look.new
        (rows_shown frames_shown streams.now rows.now) (rows_opened streams.now rows.now) work.upto
        work.findings.items work.made.items) }
{
    let mut work = Work {
        findings: Vec::new(alloc),
        upto: None,
        made: Vec::new(alloc),
    };
    for row in rows {
        let run = run_of_row(alloc, streams, row, frames_shown, look)?;
        add_run(&mut work, run)?;
    }
    put_in_order(&mut work.findings)?;
    Ok(work)
}
