//! Sections by their places: where the next section line begins, and where a section ends.
ghost use Rattle.std.specs.Prelude.{◌≡◌, ◌≤◌, true, length};
ghost use Rattle.pg_lex.specs.Bytes.{starts_with};
ghost use Rattle.pg_script.specs.Passes.{IsFree, IsBlockSpan};
ghost use Rattle.pg_script.specs.Passes as spec;

use crate::lines::len_before;

/// A section in front of some bytes: the length of its line without the line feed, and from where to where its text goes.
#[derive(Clone, Copy)]
pub struct BlockSpan {
    pub line: usize,
    pub from: usize,
    pub to: usize,
}

/// The length of the text in front of the next line that begins with `@`.
fn free_len(bytes: &[u8]) -> usize
    ensures value { result ≡ spec.section_at true bytes.now }
    ensures within { result ≤ length bytes.now }
{
    let mut begins = true;
    'bytes: for (i, byte) in bytes.iter().enumerate() {
        if begins && *byte == b'@' {
            return i;
        }
        begins = *byte == b'\n';
    }
    bytes.len()
}

/// The length of the text in front of the next section line, or up to the end. A line begins where the text begins.
pub fn next_section(bytes: &[u8]) -> usize
    ensures within { result ≤ length bytes.now }
    ensures free { IsFree result bytes.now }
{
    free_len(bytes)
}

/// The section in front of the bytes, which begin with its `@`.
pub fn block(bytes: &[u8]) -> BlockSpan
    requires { starts_with 64 bytes.now ≡ true }
    ensures { IsBlockSpan bytes.now result }
{
    let line = len_before(b'\n', bytes);
    if line == bytes.len() {
        return BlockSpan {
            line,
            from: line,
            to: line,
        };
    }
    let from = line + 1;
    let (_, back) = bytes.split_at(from);
    BlockSpan {
        line,
        from,
        to: from + next_section(back),
    }
}
