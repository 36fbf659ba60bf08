//! Numbers in decimal digits. Those from 2^127 on are held by no value.
ghost use Rattle.std.specs.Prelude.{◌≡◌, ◌<◌, ◌+◌, ◌*◌, ◌-◌, ◌^◌};
ghost use Rattle.pg_ast.specs.Grammar.Exprs as spec;
ghost use Rattle.pg_grammar.specs.Numbers.{fitting};

use pg_ast::Expr;
use pg_value::Value;

/// The least number that no value holds.
const LIMIT: u128 = 0x8000_0000_0000_0000_0000_0000_0000_0000;

/// The number with one more digit behind it.
fn with_digit(number: u128, digit: u8) -> Option<u128>
    requires { number < 2 ^ 127 }
    ensures { result ≡ fitting (10 * number + (digit - 48)) }
{
    if number > LIMIT / 10 {
        return None;
    }
    let next = 10 * number + u128::from(digit.saturating_sub(48));
    if next < LIMIT { Some(next) } else { None }
}

/// The number that these digits write.
fn number_of(digits: &[u8]) -> Option<u128>
    ensures { result ≡ fitting (spec.number_after 0 digits.now) }
{
    let mut number = 0;
    for &digit in digits {
        match with_digit(number, digit) {
            Some(next) => number = next,
            None => return None,
        }
    }
    Some(number)
}

/// How many binary digits the number has, 0 having none.
fn binary_digits(number: u128) -> u32
    ensures { result ≡ spec.binary_digits number }
{
    128 - number.leading_zeros()
}

/// The literal of a number that is written in these digits.
#[tactic(auto, unfolding(pg_ast::specs::Grammar::Exprs::number_literal))]
pub fn number_literal(digits: &[u8], at: u32) -> Expr
    ensures { result ≡ spec.number_literal digits.now at }
{
    match number_of(digits) {
        Some(number) => Expr::Lit {
            value: Value::int(number as i128),
            bits: binary_digits(number),
            at,
        },
        None => Expr::TooWide { at },
    }
}
