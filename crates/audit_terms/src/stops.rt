//! Where the audit of a connection stops: at the least place of a connection error (RFC 9113, 5.4.1).

ghost use Rattle.std.specs.Prelude.{◌≡◌, if◌then◌else◌, Some};
ghost use Rattle.audit_terms.specs.Finding.{stops};
ghost use Rattle.audit_terms.specs.code.Stops.{IsFirstStop, lesser_place};

use crate::findings::Finding;
use crate::places::Place;

/// The lesser of two places; `None` lies past all.
#[inline]
pub fn lesser_place(one: &Option<Place>, other: &Option<Place>) -> Option<Place>
    ensures { result ≡ lesser_place one.now other.now }
{
    match (one, other) {
        (Some(one), Some(other)) => Some(*one.min(other)),
        (Some(one), None) => Some(*one),
        (None, other) => *other,
    }
}

/// The stop so far, or the place of one more finding, if that is an error of the connection and lies before it.
fn stop_with(stop: Option<Place>, one: &Finding) -> Option<Place>
    ensures { result ≡ (if stops one.now then lesser_place stop (Some one.now.place) else stop) }
{
    if one.stops() {
        return lesser_place(&stop, &Some(one.place));
    }
    stop
}

/// The place of the first error of the connection among findings, if there is one.
pub fn first_stop_place(found: &[Finding]) -> Option<Place>
    ensures { IsFirstStop found.now result }
{
    let mut stop = None;
    for one in found {
        stop = stop_with(stop, one);
    }
    stop
}
