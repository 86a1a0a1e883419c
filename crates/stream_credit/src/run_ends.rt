//! What a walk shows at its end.

ghost use Rattle.std.specs.Prelude.{◌≡◌, if◌then◌else◌, None};
ghost use Rattle.audit_terms.specs.code.runs.Look.{up_to};
ghost use Rattle.stream_credit.specs.code.Looks.{opened_up_to};

use crate::stream_parts::StreamRun;
use crate::walks::Walk;
use audit_terms::{Place, Watch, keep_up_to};

/// The number of an opening, unless its frame lies past a place.
fn opened_up_to(upto: &Option<Place>, opened: Option<u32>) -> Option<u32>
    ensures { result ≡ opened_up_to upto.now opened }
{
    match (upto, opened) {
        (Some(place), Some(number)) if place.number() < number => None,
        _ => opened,
    }
}

/// The place up to which a run goes: the last answer, unless it met all its steps.
fn upto_of(watch: &Watch, is_whole: bool) -> Option<Place>
    ensures { result ≡ (if is_whole then None else watch.now.stop) }
{
    if is_whole { None } else { watch.stop }
}

/// What a walk shows that has met all its steps, or has stopped before one of them.
pub(crate) fn run_of(walk: Walk, is_whole: bool) -> StreamRun
    ensures upto { result.upto ≡ (if is_whole then None else walk.watch.stop) }
    ensures findings { result.findings.items ≡ up_to result.upto walk.found.items }
    ensures opened { result.opened_at ≡ opened_up_to result.upto walk.entry.life.opened }
    ensures last_look { result.last_look ≡ walk.watch.stop }
    ensures looks { result.looks ≡ walk.watch.looks }
{
    let upto = upto_of(&walk.watch, is_whole);
    let opened_at = opened_up_to(&upto, walk.entry.life.opened);
    let mut findings = walk.found;
    keep_up_to(&mut findings, &upto);
    StreamRun {
        findings,
        opened_at,
        upto,
        last_look: walk.watch.stop,
        looks: walk.watch.looks,
    }
}
