//! Numbers that are kept no greater than 2^32 - 1.
ghost use Rattle.std.specs.Prelude.{◌≡◌, ◌≤◌, ◌+◌, ◌*◌, ◌-◌, min};
ghost use Rattle.pg_ast.specs.Grammar.Parts as spec;

/// The number with one more digit behind it, or 2^32 - 1 where it is greater.
fn with_digit(number: u64, digit: u8) -> u64
    requires { number ≤ 4294967295 }
    ensures { result ≡ min (10 * number + (digit - 48)) 4294967295 }
{
    (10 * number + u64::from(digit.saturating_sub(48))).min(4294967295)
}

/// The number that the digits write, or 2^32 - 1 where it is greater.
pub fn kept(digits: &[u8]) -> u32
    ensures { result ≡ spec.kept digits.now }
{
    let mut number = 0u64;
    for &digit in digits {
        number = with_digit(number, digit);
    }
    number as u32
}
