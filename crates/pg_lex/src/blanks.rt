//! White space and comments.
ghost use Rattle.std.specs.Prelude.{◌≡◌, ◌≤◌, ◌<◌, not, ◌==◌, length, take, drop};
ghost use Rattle.std.specs.List.{prefix_len};
ghost use Rattle.pg_lex.specs.Tokens.{Gap, IsClear};
ghost use Rattle.pg_lex.specs.Blanks.{BeginsBlank};

use crate::bytes::is_white;

/// The length of the line that begins here, without its line feed.
fn line_len(bytes: &[u8]) -> usize
    ensures value { result ≡ prefix_len (λ b. not (b == 10)) bytes.now }
    ensures within { result ≤ length bytes.now }
{
    bytes.iter().take_while(|b| **b != b'\n').count()
}

/// The length of the white byte or comment that begins here, or 0.
fn blank_len(bytes: &[u8]) -> usize
    ensures within { result ≤ length bytes.now }
    ensures none { result ≡ 0 → IsClear bytes.now }
    ensures some { 0 < result → BeginsBlank result bytes.now }
{
    match bytes {
        [b'-', b'-', line @ ..] => 2 + line_len(line),
        [first, ..] if is_white(*first) => 1,
        _ => 0,
    }
}

/// The length of all the blanks in front: of white space and comments, up to the first byte that is part of neither.
pub fn gap_len(bytes: &[u8]) -> usize
    ensures within { result ≤ length bytes.now }
    ensures gap { Gap (take result bytes.now) (drop result bytes.now) }
{
    let mut at = 0;
    'blanks: loop {
        let (_, left) = bytes.split_at(at);
        let len = blank_len(left);
        if len == 0 {
            return at;
        }
        at += len;
    }
}
