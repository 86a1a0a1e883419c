ghost use Rattle.std.specs.Prelude.{◌≡◌, ◌≤◌, length};
ghost use Rattle.h2_frames.specs.Settings.{is_in_range, setting_at, settings_of};
ghost use Rattle.h2_frames.specs.code.Steps.{with_setting};

use audit_terms::{FIRST_LIMIT, LARGEST_WINDOW, Settings};
use byteorder::{BigEndian, ByteOrder};

/// SETTINGS_ENABLE_PUSH (RFC 9113, 6.5.2).
const ENABLE_PUSH: u16 = 2;
/// SETTINGS_INITIAL_WINDOW_SIZE.
const INITIAL_WINDOW_SIZE: u16 = 4;
/// SETTINGS_MAX_FRAME_SIZE.
const MAX_FRAME_SIZE: u16 = 5;

/// The largest limit on the length of frames (RFC 9113, 4.2 and 6.5.2); the least is the one at the start.
const LARGEST_FRAME_LIMIT: u32 = 16_777_215;

/// How many bytes a setting takes (RFC 9113, 6.5.1).
pub(crate) const SETTING_LENGTH: usize = 6;

/// One setting (RFC 9113, 6.5.1).
#[derive(Clone, Copy)]
pub struct Setting {
    pub identifier: u16,
    pub value: u32,
}

impl Setting {
    /// Is the value one that its identifier may have (RFC 9113, 6.5.2)?
    fn is_in_range(self) -> bool
        ensures { result ≡ is_in_range self }
    {
        match self.identifier {
            ENABLE_PUSH => self.value <= 1,
            INITIAL_WINDOW_SIZE => self.value <= LARGEST_WINDOW,
            MAX_FRAME_SIZE => self.value >= FIRST_LIMIT && self.value <= LARGEST_FRAME_LIMIT,
            _ => true,
        }
    }

    /// The setting in the first six bytes.
    fn read(bytes: &[u8]) -> Self
        requires { 6 ≤ length bytes.now }
        ensures { result ≡ setting_at bytes.now }
    {
        Setting {
            identifier: BigEndian::read_u16(bytes),
            value: BigEndian::read_u32(&bytes[2..]),
        }
    }
}

/// The settings with one more pair, which comes after those that they hold.
fn with_setting(settings: Settings, setting: Setting) -> Settings
    ensures { result ≡ with_setting settings setting }
{
    let mut settings = settings;
    if !setting.is_in_range() {
        settings.bad = settings.bad.or(Some(setting.identifier));
    }
    match setting.identifier {
        ENABLE_PUSH => settings.push = Some(setting.value),
        INITIAL_WINDOW_SIZE => settings.initial = Some(setting.value),
        MAX_FRAME_SIZE => settings.max_frame = Some(setting.value),
        _ => {}
    }
    settings
}

/// What a payload of whole settings says.
pub(crate) fn settings_of(payload: &[u8]) -> Settings
    ensures { result ≡ settings_of payload.now }
{
    let mut settings = Settings::none();
    let mut rest = payload;
    while let Some((pair, later)) = rest.split_first_chunk::<SETTING_LENGTH>() {
        settings = with_setting(settings, Setting::read(pair));
        rest = later;
    }
    settings
}
