//! Numbers of 128 bits in two halves.
ghost use Rattle.std.specs.Prelude.{◌≡◌};

use std::marker::Model;

/// A number of 128 bits with its sign, which contracts see as the number. Its two halves may stand where a number of 64 bits
/// may, so that a value takes 24 bytes and not 32.
#[derive(Drop)]
pub struct Number {
    high: u64,
    low: u64,
}

impl Model for Number {
    ghost use Rattle.std.specs.Prelude.{ℤ};

    ghost Value = { ℤ };

    ghost use Rattle.pg_value.specs.Numbers.{number_of};

    ghost view = { λ n. number_of n.high n.low };
}

/// How much a unit of the higher half is.
const HIGH: u128 = 18446744073709551616;

impl Number {
    /// The number in halves.
    pub fn new(number: i128) -> Number
        ensures { result ≡ number }
    {
        let bits = number.cast_unsigned();
        Number {
            high: (bits / HIGH) as u64,
            low: (bits % HIGH) as u64,
        }
    }

    /// The number.
    pub fn get(&self) -> i128
        ensures { result ≡ self.now }
    {
        (u128::from(self.high) * HIGH + u128::from(self.low)).cast_signed()
    }
}
