//! Numbers that are drawn from a seed, one behind another.
ghost use Rattle.std.specs.Prelude.{◌≡◌, ◌+◌, ◌<◌, ◌^◌};
ghost use Rattle.pg_script.specs.Generated as spec;

use std::marker::Model;

/// The draws of a seed, of which some are made.
#[derive(Drop)]
pub struct Draws {
    seed: u64,
    made: u64,
    number: u64,
}

impl Model for Draws {
    ghost use Rattle.std.specs.Prelude.{◌≡◌};
    ghost use Rattle.pg_script.specs.Generated.{Drawn, number_after};

    ghost Value = { Drawn };

    ghost view = { λ d. record { seed = d.seed; made = d.made } };

    ghost invariant = { λ d. d.number ≡ number_after d.seed d.made };
}

impl Draws {
    /// The draws of a seed, of which none is made.
    pub fn new(seed: u64) -> Draws
        ensures { result ≡ record { seed = seed; made = 0 } }
    {
        Draws {
            seed,
            made: 0,
            number: seed,
        }
    }

    /// The next number that is drawn, of those below another.
    pub fn draw(&mut self, below: u64) -> u64
        requires few { self.old.made < 2 ^ 32 }
        requires below { 0 < below }
        ensures drawn { result ≡ spec.draw self.old.seed self.old.made below }
        ensures less { result < below }
        ensures seed { self.new.seed ≡ self.old.seed }
        ensures made { self.new.made ≡ self.old.made + 1 }
    {
        self.number = next_number(self.number);
        self.made += 1;
        drawn(self.number, below)
    }
}

/// The number behind a number.
fn next_number(number: u64) -> u64
    ensures { result ≡ spec.next_number number }
{
    let wide = number as u128 * 6_364_136_223_846_793_005 + 1_442_695_040_888_963_407;
    (wide % 18_446_744_073_709_551_616) as u64
}

/// What a number gives of those below another.
fn drawn(number: u64, below: u64) -> u64
    requires { 0 < below }
    ensures drawn { result ≡ spec.drawn number below }
    ensures less { result < below }
{
    number / 8_589_934_592 % below
}
