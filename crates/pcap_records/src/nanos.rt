ghost use Rattle.std.specs.Prelude.{◌≡◌};

use std::marker::Model;

/// A time in nanoseconds, in two words of 32 bits: so it needs no more alignment than they do, and a record takes 20
/// bytes. A contract sees the number.
#[derive(Clone, Copy)]
pub struct Nanos {
    high: u32,
    low: u32,
}

impl Model for Nanos {
    ghost use Rattle.std.specs.Prelude.{ℕ};

    ghost Value = { ℕ };

    ghost use Rattle.pcap_records.specs.code.Nanos.{nanos_value, nanos_words, AreWords};

    ghost view = { nanos_value };

    ghost invariant = { AreWords };

    ghost inverse = { nanos_words };

    ghost inverse_ok = { λ _ is. is };
}

impl Nanos {
    pub fn of(number: u64) -> Self
        ensures { result ≡ number }
    {
        Nanos {
            high: (number / 0x1_0000_0000) as u32,
            low: (number % 0x1_0000_0000) as u32,
        }
    }

    pub fn get(self) -> u64
        ensures { result ≡ self }
    {
        u64::from(self.high) * 0x1_0000_0000 + u64::from(self.low)
    }
}
