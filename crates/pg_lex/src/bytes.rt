//! The bytes that tokens and blanks are made of.
ghost use Rattle.std.specs.Prelude.{◌≡◌};
ghost use Rattle.pg_lex.specs.Bytes as spec;

/// Whether it is a space, a tab, a line feed or a carriage return.
pub fn is_white(byte: u8) -> bool
    ensures { result ≡ spec.is_white byte }
{
    matches!(byte, b' ' | b'\t' | b'\n' | b'\r')
}

/// Whether it is a decimal digit.
pub fn is_digit(byte: u8) -> bool
    ensures { result ≡ spec.is_digit byte }
{
    byte.is_ascii_digit()
}

/// Whether it is an ASCII letter or `_`.
pub fn is_letter(byte: u8) -> bool
    ensures { result ≡ spec.is_letter byte }
{
    matches!(byte, b'A'..=b'Z' | b'a'..=b'z' | b'_')
}

/// Whether it is an ASCII letter, `_` or a decimal digit.
pub fn is_word_byte(byte: u8) -> bool
    ensures { result ≡ spec.is_word_byte byte }
{
    is_letter(byte) || is_digit(byte)
}
