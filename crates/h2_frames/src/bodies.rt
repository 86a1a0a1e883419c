ghost use Rattle.std.specs.Prelude.{◌≡◌, ℕ, ◌+◌, ◌-◌, ◌<◌, ◌≤◌, ◌^◌, ◌++◌, ◌==◌, List, drop, if◌then◌else◌, length};
ghost use Rattle.std.specs.Prelude.{min};
ghost use Rattle.std.specs.Prelude.{IsTrue, nat_lt};
ghost use Rattle.audit_terms.specs.declared.frames.Body.TheVariants.{GoAway, Headers, Priority, PushPromise};
ghost use Rattle.audit_terms.specs.declared.frames.Body.TheVariants.{Content, Unreadable, WindowUpdate};
ghost use Rattle.audit_terms.specs.declared.kinds.Kind.TheVariants.{BadPriority};
ghost use Rattle.audit_terms.specs.FrameType.{has_flag};
ghost use Rattle.h2_frames.specs.Body.{body_of, is_padded, of_length, padded_body, priority_flag, settings_body};
ghost use Rattle.h2_frames.specs.Body.{wrong_size};
ghost use Rattle.h2_frames.specs.Header.{number_of_31_bits};
ghost use Rattle.h2_frames.specs.code.Steps.{is_unread, needed};

use crate::headers::number_of_31_bits;
use crate::settings::{SETTING_LENGTH, settings_of};
use audit_terms::frame_types::{
    ACK_FLAG, CONTINUATION, DATA, GOAWAY, HEADERS, PADDED_FLAG, PING, PRIORITY, PRIORITY_FLAG,
    PUSH_PROMISE, RST_STREAM, SETTINGS, WINDOW_UPDATE,
};
use audit_terms::{Body, Kind, PackedSettings, Word};

fn has_flag(flags: u8, flag: u8) -> bool
    ensures { result ≡ has_flag flags flag }
{
    flags & flag != 0
}

fn wrong_size(size: u32) -> Body
    requires { size < 2 ^ 24 }
    ensures { (payload : List ℕ) → length payload ≡ size → result ≡ wrong_size payload }
{
    Body::Unreadable(Kind::WrongSize, Word::of(size))
}

/// A payload that has to be `wanted` bytes long.
fn of_length(wanted: u32, size: u32, body: Body) -> Body
    requires { size < 2 ^ 24 }
    ensures { (payload : List ℕ) → length payload ≡ size → result ≡ of_length wanted payload body }
{
    if size == wanted {
        body
    } else {
        wrong_size(size)
    }
}

/// `body`, if the payload has at least `fields` bytes beside padding and its length; else why it is unreadable.
fn padded_body(flags: u8, size: u32, front: &[u8], fields: u32, body: Body) -> Body
    requires size { size < 2 ^ 24 }
    requires fields { fields < 2 ^ 24 }
    requires known { IsTrue (is_padded flags) → min size 5 ≤ length front.now }
    ensures { (later : List ℕ) → length (front.now ++ later) ≡ size
        → result ≡ padded_body flags (front.now ++ later) fields body }
{
    if !has_flag(flags, PADDED_FLAG) {
        return if size < fields {
            wrong_size(size)
        } else {
            body
        };
    }
    if size < fields + 1 {
        return wrong_size(size);
    }
    let padding = front[0] as u32;
    if padding > size - (fields + 1) {
        return Body::Unreadable(Kind::BadPadding, Word::of(padding));
    }
    body
}

/// HEADERS (RFC 9113, 6.2).
fn headers_body(flags: u8, size: u32, front: &[u8]) -> Body
    requires size { size < 2 ^ 24 }
    requires known { min size 5 ≤ length front.now }
    ensures { (later : List ℕ) → length (front.now ++ later) ≡ size
        → result ≡ padded_body flags (front.now ++ later) (if has_flag flags priority_flag then 5 else 0) Headers }
{
    let fields = if has_flag(flags, PRIORITY_FLAG) { 5 } else { 0 };
    padded_body(flags, size, front, fields, Body::Headers)
}

/// PRIORITY (RFC 9113, 6.3).
fn priority_body(size: u32) -> Body
    requires { size < 2 ^ 24 }
    ensures { result ≡ (if size == 5 then Priority else Unreadable BadPriority size) }
{
    if size == 5 {
        Body::Priority
    } else {
        Body::Unreadable(Kind::BadPriority, Word::of(size))
    }
}

/// SETTINGS (RFC 9113, 6.5).
#[tactic(auto, using(crate::proofs::SettingsRanges::bad_settings))]
fn settings_body(flags: u8, payload: &[u8]) -> Body
    requires { length payload.now < 2 ^ 24 }
    ensures { result ≡ settings_body flags payload.now }
{
    let size = payload.len();
    if has_flag(flags, ACK_FLAG) {
        of_length(0, size as u32, Body::SettingsAck)
    } else if size % SETTING_LENGTH == 0 {
        Body::Settings(PackedSettings::of(&settings_of(payload)))
    } else {
        wrong_size(size as u32)
    }
}

/// PUSH_PROMISE (RFC 9113, 6.6).
fn push_promise_body(flags: u8, size: u32, front: &[u8]) -> Body
    requires size { size < 2 ^ 24 }
    requires known { min size 5 ≤ length front.now }
    requires within { length front.now ≤ size }
    ensures { (later : List ℕ) → length (front.now ++ later) ≡ size → result ≡ padded_body flags (front.now ++ later) 4
        (PushPromise (number_of_31_bits (drop (if is_padded flags then 1 else 0) (front.now ++ later)))) }
{
    let padding = usize::from(has_flag(flags, PADDED_FLAG));
    if front.len() < padding + 4 {
        return wrong_size(size);
    }
    let promised = number_of_31_bits(&front[padding..]);
    padded_body(flags, size, front, 4, Body::PushPromise(Word::of(promised)))
}

/// GOAWAY (RFC 9113, 6.8).
fn go_away_body(size: u32) -> Body
    requires { size < 2 ^ 24 }
    ensures { (payload : List ℕ) → length payload ≡ size
        → result ≡ (if nat_lt size 8 then wrong_size payload else GoAway) }
{
    if size < 8 {
        wrong_size(size)
    } else {
        Body::GoAway
    }
}

/// WINDOW_UPDATE (RFC 9113, 6.9).
fn window_update_body(size: u32, front: &[u8]) -> Body
    requires size { size < 2 ^ 24 }
    requires known { min size 5 ≤ length front.now }
    ensures { (later : List ℕ) → length (front.now ++ later) ≡ size
        → result ≡ of_length 4 (front.now ++ later) (WindowUpdate (number_of_31_bits (front.now ++ later))) }
{
    if size == 4 {
        Body::WindowUpdate(Word::of(number_of_31_bits(front)))
    } else {
        wrong_size(size)
    }
}

/// Is the payload content, whatever its bytes are?
fn is_content(code: u8, flags: u8) -> bool
    ensures { result ≡ is_unread code flags }
{
    code == DATA && !has_flag(flags, PADDED_FLAG)
}

/// How many bytes at the front of a payload its body is read from, beside its size: all settings, and of any other
/// payload no more than the length of its padding and a number of four bytes.
pub(crate) fn needed(code: u8, flags: u8, size: u32) -> u32
    ensures { result ≡ needed code flags size }
{
    if is_content(code, flags) {
        0
    } else if code == SETTINGS {
        size
    } else {
        size.min(5)
    }
}

/// What a payload of this size says that begins with these bytes, by the frame's type and flags.
// Called once for each frame that lies in one piece, and from two other places.
#[inline(always)]
pub(crate) fn body_of_front(code: u8, flags: u8, size: u32, front: &[u8]) -> Body
    requires size { size < 2 ^ 24 }
    requires known { needed code flags size ≤ length front.now }
    requires within { length front.now ≤ size }
    ensures { (later : List ℕ) → length (front.now ++ later) ≡ size → result ≡ body_of code flags (front.now ++ later) }
{
    match code {
        DATA => padded_body(flags, size, front, 0, Body::Content),
        HEADERS => headers_body(flags, size, front),
        PRIORITY => priority_body(size),
        RST_STREAM => of_length(4, size, Body::RstStream),
        SETTINGS => settings_body(flags, front),
        PUSH_PROMISE => push_promise_body(flags, size, front),
        PING => of_length(8, size, Body::Ping),
        GOAWAY => go_away_body(size),
        WINDOW_UPDATE => window_update_body(size, front),
        CONTINUATION => Body::Continuation,
        _ => Body::Unknown,
    }
}

/// What the payload says, by the frame's type and flags.
#[inline(always)]
pub(crate) fn body_of(code: u8, flags: u8, payload: &[u8]) -> Body
    requires { length payload.now < 2 ^ 24 }
    ensures { result ≡ body_of code flags payload.now }
{
    body_of_front(code, flags, payload.len() as u32, payload)
}
