//! The parts of a line: names, values, keys and rows, and the numbers behind their words.
ghost use Rattle.std.specs.Prelude.{◌≡◌, ◌++◌, OnOk, map};
ghost use Rattle.std.specs.Fmt.{decimal};
ghost use Rattle.std.specs.List.{list_all};
ghost use Rattle.pg_script.specs.Text as spec;
ghost use Rattle.pg_script.specs.Text.{listed, name_text, place_text, tuple_text, values_text, at_text, from_text, line};

use super::Printer;
use pg_value::{Key, Text, Value, print_value};
use std::alloc::AllocError;

impl Printer {
    /// Appends the name of a table, a graph or a column: as it is where it is plain, else between `"` with each `"` inside it
    /// twice.
    pub fn push_name(&mut self, name: &Text) -> Result<(), AllocError>
        ensures { OnOk result (self.new ≡ self.old ++ name_text name.now) }
    {
        if is_plain(name.as_bytes()) {
            self.text.push_str(name.as_str())
        } else {
            self.text.push_quoted(name.as_str(), '"')
        }
    }

    /// Appends names with a comma and a space between.
    pub fn push_names(&mut self, names: &[Text]) -> Result<(), AllocError>
        ensures { OnOk result (self.new ≡ self.old ++ listed (map name_text names.now)) }
    {
        match names {
            [] => Ok(()),
            [name] => self.push_name(name),
            [name, more @ ..] => {
                self.push_name(name)?;
                self.text.push_str(", ")?;
                self.push_names(more)
            }
        }
    }

    /// Appends values with a comma and a space between.
    pub fn push_values(&mut self, values: &[Value]) -> Result<(), AllocError>
        ensures { OnOk result (self.new ≡ self.old ++ values_text values.now) }
    {
        match values {
            [] => Ok(()),
            [value] => print_value(value, &mut self.text),
            [value, more @ ..] => {
                print_value(value, &mut self.text)?;
                self.text.push_str(", ")?;
                self.push_values(more)
            }
        }
    }

    /// Appends a key or a row in parentheses.
    pub fn push_tuple(&mut self, values: &[Value]) -> Result<(), AllocError>
        ensures { OnOk result (self.new ≡ self.old ++ tuple_text values.now) }
    {
        self.text.push_str("(")?;
        self.push_values(values)?;
        self.text.push_str(")")
    }

    /// Appends `TABLE KEY`.
    pub fn push_place(&mut self, table: &Text, key: &Key) -> Result<(), AllocError>
        ensures { OnOk result (self.new ≡ self.old ++ place_text table.now key.now.values) }
    {
        self.push_name(table)?;
        self.text.push_str(" ")?;
        self.push_tuple(key.values.as_slice())
    }

    /// Appends words and a number behind them.
    pub fn push_number_behind(&mut self, words: &str, number: u64) -> Result<(), AllocError>
        ensures { OnOk result (self.new ≡ self.old ++ (words.now ++ decimal number)) }
    {
        self.text.push_str(words)?;
        self.text.push_number(number)
    }

    /// Appends ` from K`, and ends the line.
    pub fn push_from(&mut self, from: u64) -> Result<(), AllocError>
        ensures { OnOk result (self.new ≡ self.old ++ line (from_text from)) }
    {
        self.push_number_behind(" from ", from)?;
        self.text.push_str("\n")
    }

    /// Appends ` from K at C`, and ends the line.
    pub fn push_from_at(&mut self, from: u64, at: u64) -> Result<(), AllocError>
        ensures { OnOk result (self.new ≡ self.old ++ line (from_text from ++ at_text at)) }
    {
        self.push_number_behind(" from ", from)?;
        self.push_at(at)
    }

    /// Appends ` at K`, and ends the line.
    pub fn push_at(&mut self, at: u64) -> Result<(), AllocError>
        ensures { OnOk result (self.new ≡ self.old ++ line (at_text at)) }
    {
        self.push_number_behind(" at ", at)?;
        self.text.push_str("\n")
    }
}

/// Whether a name is an upper-case letter or `_` and behind it nothing but those and digits.
fn is_plain(name: &[u8]) -> bool
    ensures { result ≡ spec.is_plain name.now }
{
    match name {
        [] => false,
        [first, more @ ..] => is_upper(*first) && are_upper_or_digits(more),
    }
}

/// Whether the bytes are upper-case letters, `_` and digits alone.
fn are_upper_or_digits(bytes: &[u8]) -> bool
    ensures { result ≡ list_all spec.is_upper_or_digit bytes.now }
{
    bytes.iter().all(|byte| is_upper_or_digit(*byte))
}

/// Whether the byte is an upper-case letter or `_`.
fn is_upper(byte: u8) -> bool
    ensures { result ≡ spec.is_upper byte }
{
    (byte >= b'A' && byte <= b'Z') || byte == b'_'
}

/// Whether the byte is one of those or a digit.
fn is_upper_or_digit(byte: u8) -> bool
    ensures { result ≡ spec.is_upper_or_digit byte }
{
    is_upper(byte) || (byte >= b'0' && byte <= b'9')
}
