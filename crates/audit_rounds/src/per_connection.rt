//! A connection in the rounds. All that is known of it stands in one place, and each round adds to that.

ghost use Rattle.std.specs.Prelude.{◌≡◌, ◌++◌, IfOk, OnOk, map};
ghost use Rattle.audit_terms.specs.code.Stops.{IsFirstStop};
ghost use Rattle.audit_terms.specs.code.runs.Orderly.{IsOrderly};
ghost use Rattle.split_merge.specs.code.Findings.{findings_in};
ghost use Rattle.audit_rounds.specs.code.Gathered.{IsClosed};
ghost use Rattle.audit_rounds.specs.code.Within.{frames_within};

use crate::prepared::Prepared;
use audit_terms::{Finding, Frame, Place, first_stop_place, lesser_place};
use conn_scan::Block;
use split_merge::Findings;
use std::alloc::{AllocError, Global};

/// A connection, with what is known of it so far.
#[derive(Drop)]
pub(crate) struct PerConnection<'a> {
    pub(crate) prepared: Prepared<'a>,
    /// The faults of its single frames, then its unmatched acknowledgements, then what the rounds find.
    pub(crate) found: Findings,
    /// Where it is known to stop.
    pub(crate) stop: Option<Place>,
    /// The numbers of the frames that open its streams. After the round over streams they are in order, and all up to
    /// the stop's frame are there.
    pub(crate) opened: Vec<u32>,
}

impl PerConnection<'_> {
    /// Adds the findings of a list. It is not copied.
    pub(crate) fn add(&mut self, findings: Vec<Finding>) -> Result<(), AllocError>
        ensures same { OnOk result (self.new ≡ record self.old { found = self.new.found }) }
        ensures found { OnOk result (findings_in self.new.found ≡ findings_in self.old.found ++ findings.items) }
    {
        self.found.add(findings)
    }

    /// Adds numbers of frames that open streams.
    pub(crate) fn tell(&mut self, numbers: &[u32]) -> Result<(), AllocError>
        ensures same { OnOk result (self.new ≡ record self.old { opened = self.new.opened }) }
        ensures opened { OnOk result (self.new.opened.items ≡ self.old.opened.items ++ numbers.now) }
    {
        self.opened.extend_from_slice(numbers)?;
        Ok(())
    }

    /// Ends the round over streams, which left this stop: adds the numbers that the split tells, of the frames that
    /// open quiet streams, and sorts all of them. They are few rising runs, which this sort merges.
    pub(crate) fn close(&mut self, stop: Option<Place>) -> Result<(), AllocError>
        ensures { OnOk result (IsClosed stop self.old.opened.items self.old self.new) }
    {
        self.opened
            .extend_from_slice(self.prepared.split.opened.as_slice())?;
        self.opened.sort()?;
        self.stop = stop;
        Ok(())
    }

    /// What is left to do: its frames, as far as they matter, with what opens streams and what comes into force.
    pub(crate) fn rest(&self) -> Block<'_>
        requires { IsOrderly self.now.prepared.frames.now }
        ensures frames { result.frames.now ≡ frames_within self.now.stop self.now.prepared.frames.now }
        ensures opened { result.opened.now ≡ self.now.opened.items }
        ensures changes { result.changes.now ≡ self.now.prepared.changes.items }
    {
        Block {
            frames: frames_within(&self.stop, self.prepared.frames),
            opened: self.opened.as_slice(),
            changes: self.prepared.changes.as_slice(),
        }
    }
}

/// The frames up to and including the one at which the connection stops.
fn frames_within<'a>(stop: &Option<Place>, frames: &'a [Frame]) -> &'a [Frame]
    requires { IsOrderly frames.now }
    ensures { result.now ≡ frames_within stop.now frames.now }
{
    match stop {
        Some(place) => {
            let last = place.number();
            &frames[..frames.partition_point(|frame| frame.number <= last)]
        }
        None => frames,
    }
}

/// Where a connection stops, by what was found in all lists.
pub(crate) fn first_stop_in(found: &Findings) -> Option<Place>
    ensures { IsFirstStop (findings_in found.now) result }
{
    let mut stop = None;
    for list in &found.lists {
        stop = lesser_place(&stop, &first_stop_place(list.as_slice()));
    }
    stop
}

/// Where each connection is known to stop.
pub(crate) fn stops_of(
    alloc: Global,
    connections: &[PerConnection<'_>],
) -> Result<Vec<Option<Place>>, AllocError>
    ensures { IfOk result (λ stops. stops.items ≡ map (λ one. one.stop) connections.now) }
{
    let mut stops = Vec::with_capacity(alloc, connections.len())?;
    for one in connections {
        stops.push(one.stop)?;
    }
    Ok(stops)
}
