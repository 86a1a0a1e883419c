ghost use Rattle.std.specs.Prelude.{◌≡◌, ℕ, ◌^◌, ◌<◌};

use std::marker::Model;

/// A number of 32 bits that may lie at any address: so a frame takes 40 bytes. A contract sees the number.
#[derive(Clone, Copy)]
pub struct Word {
    bytes: [u8; 4],
}

impl Model for Word {
    ghost use Rattle.std.specs.Prelude.{ℕ};

    ghost Value = { ℕ };

    ghost use Rattle.audit_terms.specs.code.Widths.{word_value, word_bytes, IsWord};

    ghost view = { word_value };

    ghost invariant = { IsWord };

    ghost inverse = { word_bytes };

    ghost inverse_ok = { λ _ is. is };
}

impl Word {
    pub fn of(number: u32) -> Self
        ensures { result ≡ number }
    {
        Word {
            bytes: number.to_le_bytes(),
        }
    }

    pub fn get(self) -> u32
        ensures { result ≡ self }
    {
        u32::from_le_bytes(self.bytes)
    }
}

/// The length of a frame's payload, 24 bits (RFC 9113, 4.1), in as many bytes. A contract sees the number.
#[derive(Clone, Copy)]
pub struct Length {
    high: u8,
    middle: u8,
    low: u8,
}

impl Model for Length {
    ghost use Rattle.std.specs.Prelude.{ℕ};

    ghost Value = { ℕ };

    ghost use Rattle.audit_terms.specs.code.Widths.{length_value, length_bytes, IsLength};

    ghost view = { length_value };

    ghost invariant = { IsLength };

    ghost inverse = { length_bytes };

    ghost inverse_ok = { λ _ is. is };
}

impl Length {
    pub fn of(length: u32) -> Self
        requires { length < 2 ^ 24 }
        ensures { result ≡ length }
    {
        Length {
            high: (length / 0x1_0000) as u8,
            middle: (length / 0x100 % 0x100) as u8,
            low: (length % 0x100) as u8,
        }
    }

    pub fn get(self) -> u32
        ensures { result ≡ self }
    {
        (u32::from(self.high) * 0x100 + u32::from(self.middle)) * 0x100 + u32::from(self.low)
    }
}
