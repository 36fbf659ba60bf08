//! Text between quotes.
ghost use Rattle.std.specs.Prelude.{◌≡◌, ◌<◌, IfOk};
ghost use Rattle.pg_lex.specs.Front.{IsBody};

use pg_value::Text;
use std::alloc::{AllocError, Global};

/// The text that ends at a closing quote, each doubled quote in it taken once, and the length of what was read with
/// the closing quote. None where no quote closes it.
pub fn quoted(alloc: Global, quote: u8, text: &str) -> Result<Option<(Text, usize)>, AllocError>
    requires { quote < 128 }
    ensures { IfOk result (λ found. IsBody quote text.now found) }
{
    let mut out = Text::new(alloc);
    let mut left = text;
    'pieces: while let Some((piece, rest)) = left.split_once(quote as char) {
        out.push_str(piece)?;
        match rest.strip_prefix(quote as char) {
            None => return Ok(Some((out, text.len() - rest.len()))),
            Some(more) => {
                out.push_ascii(quote)?;
                left = more;
            }
        }
    }
    Ok(None)
}
