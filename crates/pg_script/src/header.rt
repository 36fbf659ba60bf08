//! Section lines: `@setup`, `@session NAME` and `@order`.
ghost use Rattle.std.specs.Prelude.{◌≡◌, ◌≤◌, true, length};
ghost use Rattle.std.specs.List.{list_all, prefix_len};
ghost use Rattle.pg_script.specs.Layout.{IsHeader};
ghost use Rattle.pg_script.specs.Layout as layout;
ghost use Rattle.pg_script.specs.Passes.{FormFits, header_of};
ghost use Rattle.pg_script.specs.Passes as spec;
ghost use Rattle.pg_lex.specs.Bytes as bytes_spec;

use pg_lex::is_white;

/// What a section line says: one of the three forms, where a session's name has so many bytes, or none of them.
#[derive(Clone, Copy)]
pub enum Form {
    Setup,
    Session { len: usize },
    Order,
    Other,
}

/// Whether the bytes are white space alone.
fn is_blank(bytes: &[u8]) -> bool
    ensures { result ≡ list_all bytes_spec.is_white bytes.now }
{
    bytes.iter().all(|b| is_white(*b))
}

/// Whether the line is these words with white space behind them.
fn says(line: &[u8], words: &[u8]) -> bool
    ensures { result ≡ spec.says words.now line.now }
{
    if line.len() < words.len() {
        return false;
    }
    let (front, back) = line.split_at(words.len());
    front == words && is_blank(back)
}

/// Whether a session's name may have the byte.
fn is_name_byte(byte: u8) -> bool
    ensures { result ≡ layout.is_name_byte byte }
{
    matches!(byte, b'a'..=b'z' | b'0'..=b'9' | b'_')
}

/// How many bytes of names stand in front.
fn name_len(bytes: &[u8]) -> usize
    ensures value { result ≡ prefix_len layout.is_name_byte bytes.now }
    ensures within { result ≤ length bytes.now }
{
    bytes.iter().take_while(|b| is_name_byte(**b)).count()
}

/// Whether name bytes are a session's name.
fn is_name(name: &[u8]) -> bool
    requires { list_all layout.is_name_byte name.now ≡ true }
    ensures { result ≡ spec.is_name name.now }
{
    match name {
        [b'a'..=b'z', ..] => name.len() <= 32 && name != b"setup".as_slice(),
        _ => false,
    }
}

/// Whether a session's name stands in front, with white space behind it.
fn says_name(bytes: &[u8]) -> bool
    ensures { result ≡ spec.says_name bytes.now }
{
    let (name, back) = bytes.split_at(name_len(bytes));
    is_name(name) && is_blank(back)
}

/// Whether the line is `@session`, a name and white space.
fn says_session(line: &[u8]) -> bool
    ensures { result ≡ spec.says_session line.now }
{
    if line.len() < 9 {
        return false;
    }
    let (front, back) = line.split_at(9);
    front == b"@session ".as_slice() && says_name(back)
}

/// What a section line says.
pub fn header(line: &[u8]) -> Form
    ensures is { IsHeader line.now (header_of line.now result) }
    ensures fits { FormFits (length line.now) result }
{
    if says(line, b"@setup") {
        Form::Setup
    } else if says(line, b"@order") {
        Form::Order
    } else if says_session(line) {
        let (_, back) = line.split_at(9);
        Form::Session {
            len: name_len(back),
        }
    } else {
        Form::Other
    }
}
