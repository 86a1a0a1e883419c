ghost use Rattle.std.specs.Prelude.{◌≡◌, ◌<◌, ◌^◌, ◌++◌, ℕ, List, length, IfSome, IfNone};
ghost use Rattle.audit_terms.specs.declared.frames.Body.{Body as BodyTerm};
ghost use Rattle.h2_frames.specs.Body.{body_of};
ghost use Rattle.h2_frames.specs.Spelling.{HoldsNoFrame, Makes};

use crate::bodies::body_of;
use crate::headers::{HEADER_LENGTH, Header};
use audit_terms::Body;

/// A frame as its bytes spell it (RFC 9113, 4.1).
#[derive(Clone, Copy)]
pub struct Spelled {
    pub header: Header,
    pub body: Body,
}

/// The header and the payload of the frame that the bytes begin with, and the bytes after it, where they hold the whole
/// of it.
// In line, as what becomes of these parts is, so that a frame is put together where it is met: as calls they copied its
// body four times, by loads that waited for smaller stores, a fifth of an audit of many frames.
#[inline(always)]
pub(crate) fn first_parts(bytes: &[u8]) -> Option<(Header, &[u8], &[u8])>
    ensures found { IfSome result (λ found. (start : List ℕ) × (bytes.now ≡ start ++ found.1.now ++ found.2.now)
        × ((body : BodyTerm) → body ≡ body_of found.0.code found.0.flags found.1.now
        → Makes start found.1.now (record { header = found.0; body = body }))) }
    ensures ranges { IfSome result (λ found. (found.0.length < 2 ^ 24) × (found.0.stream < 2 ^ 31)) }
    ensures payload { IfSome result (λ found. length found.1.now < 2 ^ 24) }
    ensures none { IfNone result (HoldsNoFrame bytes.now) }
{
    let (start, rest) = bytes.split_first_chunk::<HEADER_LENGTH>()?;
    let header = Header::read(start);
    let (payload, later) = rest.split_at_checked(header.length as usize)?;
    Some((header, payload, later))
}

/// The frame that the bytes begin with and the bytes after it, where they hold the whole of it.
pub(crate) fn first_frame(bytes: &[u8]) -> Option<(Spelled, &[u8])>
    ensures found { IfSome result (λ found. (header : List ℕ) × (payload : List ℕ)
        × (bytes.now ≡ header ++ payload ++ found.1.now) × Makes header payload found.0) }
    ensures ranges { IfSome result (λ found. (found.0.header.length < 2 ^ 24) × (found.0.header.stream < 2 ^ 31)) }
    ensures none { IfNone result (HoldsNoFrame bytes.now) }
{
    let (header, payload, later) = first_parts(bytes)?;
    let body = body_of(header.code, header.flags, payload);
    Some((Spelled { header, body }, later))
}
