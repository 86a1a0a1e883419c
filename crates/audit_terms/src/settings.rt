ghost use Rattle.std.specs.Prelude.{◌≡◌, ◌≤◌};
ghost use Rattle.std.specs.Option.{ForSome};
ghost use Rattle.audit_terms.specs.code.Settings.{no_settings};

use crate::widths::Word;
use std::marker::Model;

/// The values of one SETTINGS frame that matter here (RFC 9113, 6.5.2): of each setting the last value, and the
/// identifier of the first pair whose value is out of range.
#[derive(Clone, Copy)]
pub struct Settings {
    /// SETTINGS_ENABLE_PUSH (2).
    pub push: Option<u32>,
    /// SETTINGS_INITIAL_WINDOW_SIZE (4), in bytes.
    pub initial: Option<u32>,
    /// SETTINGS_MAX_FRAME_SIZE (5), in bytes.
    pub max_frame: Option<u32>,
    /// The identifier of the first pair out of range.
    pub bad: Option<u16>,
}

impl Settings {
    /// Settings that say nothing.
    pub fn none() -> Self
        ensures { result ≡ no_settings }
    {
        Settings {
            push: None,
            initial: None,
            max_frame: None,
            bad: None,
        }
    }
}

/// Settings as a frame keeps them, in 13 bytes: a connection has many frames. A contract sees the settings.
#[derive(Clone, Copy)]
pub struct PackedSettings {
    /// The low three bits say which of the words below hold a value; the others are one more than the identifier out of
    /// range, or 0.
    marks: u8,
    push: Word,
    initial: Word,
    max_frame: Word,
}

impl Model for PackedSettings {
    ghost use Rattle.audit_terms.specs.declared.settings.Settings.{Settings};

    ghost Value = { Settings };

    ghost use Rattle.audit_terms.specs.code.Packing.{packed, unpacked, IsPacked};

    ghost view = { unpacked };

    ghost invariant = { IsPacked };

    ghost inverse = { packed };

    ghost inverse_ok = { λ _ is. is };
}

ghost use Rattle.audit_terms.specs.code.Packing.{mark, marked, one_less, one_more};

impl PackedSettings {
    /// Keeps settings. The identifiers whose values have a range are at most 5.
    pub fn of(settings: &Settings) -> Self
        requires { ForSome settings.now.bad (λ identifier. identifier ≤ 5) }
        ensures { result ≡ settings.now }
    {
        let marks = (one_more(settings.bad) * 2 + mark(settings.max_frame)) * 2;
        PackedSettings {
            marks: (marks + mark(settings.initial)) * 2 + mark(settings.push),
            push: Word::of(settings.push.unwrap_or(0)),
            initial: Word::of(settings.initial.unwrap_or(0)),
            max_frame: Word::of(settings.max_frame.unwrap_or(0)),
        }
    }

    /// The settings.
    pub fn settings(self) -> Settings
        ensures { result ≡ self }
    {
        Settings {
            push: marked(self.marks % 2, self.push),
            initial: marked(self.marks / 2 % 2, self.initial),
            max_frame: marked(self.marks / 4 % 2, self.max_frame),
            bad: one_less(self.marks / 8),
        }
    }

    /// The identifier of the first pair out of range.
    pub fn bad(self) -> Option<u16>
        ensures { result ≡ self.bad }
    {
        one_less(self.marks / 8)
    }
}

/// One more than an identifier, and 0 where there is none.
fn one_more(identifier: Option<u16>) -> u8
    requires { ForSome identifier (λ identifier. identifier ≤ 5) }
    ensures { result ≡ one_more identifier }
{
    match identifier {
        Some(identifier) => identifier as u8 + 1,
        None => 0,
    }
}

/// The identifier that is one less than a number; none for 0.
fn one_less(number: u8) -> Option<u16>
    ensures { result ≡ one_less number }
{
    u16::from(number).checked_sub(1)
}

/// 1 where there is a value.
fn mark(value: Option<u32>) -> u8
    ensures { result ≡ mark value }
{
    match value {
        Some(_) => 1,
        None => 0,
    }
}

/// The value in a word, if it is marked.
fn marked(mark: u8, word: Word) -> Option<u32>
    ensures { result ≡ marked mark word }
{
    match mark {
        0 => None,
        _ => Some(word.get()),
    }
}
