//! The words of the command line.
ghost use Rattle.std.specs.Prelude.{◌≡◌, ◌↔◌, map, IsTrue, IfSome, IfNone, IfOk};
ghost use Rattle.std.specs.String.{string_bytes};
ghost use Rattle.std.specs.Vec.Iter.{into_iter_items};
ghost use Rattle.pgq.specs.Words.{behind_name, HasForm, HasNoForm};

use pg_value::{List, Text};
use std::alloc::{AllocError, Global};
use std::env::Args;

/// What the program's words ask for.
#[derive(Clone, Copy)]
pub enum Form {
    /// `step`, or `step -`: the script on the source is run, its sections turn by turn. The `-` stands for the source, as
    /// does its absence.
    Step,
}

/// The words among the arguments that the program was started with: all but the first, which is its name, in order, each by
/// its bytes. Only want of memory refuses them.
pub fn words_among(alloc: Global, mut args: Args) -> Result<List<Text>, AllocError>
    ensures { IfOk result (λ words. words ≡ behind_name (map string_bytes (into_iter_items args))) }
{
    let _name = args.next();
    texts(alloc, args)
}

/// The strings that are left, as texts.
fn texts(alloc: Global, mut strings: Args) -> Result<List<Text>, AllocError>
    ensures { IfOk result (λ texts. texts ≡ map string_bytes (into_iter_items strings)) }
{
    let mut texts = List::new(alloc);
    'strings: while let Some(string) = strings.next() {
        texts.push(Text::from_string(alloc, string)?)?;
    }
    Ok(texts)
}

/// What these words ask for, the program's name not being among them. There is none exactly where they have no form. A word
/// is taken as it is spelled: no blank, abbreviation, other case or repeat is of a form.
pub fn form_of(words: &List<Text>) -> Option<Form>
    ensures form { IfSome result (λ form. HasForm form words.now) }
    ensures none { IfNone result (HasNoForm words.now) }
{
    match words.as_slice() {
        [word] if is_word(word, "step") => Some(Form::Step),
        [word, input] if is_word(word, "step") && is_word(input, "-") => Some(Form::Step),
        _ => None,
    }
}

/// Whether a word is spelled so.
fn is_word(word: &Text, text: &str) -> bool
    ensures { IsTrue result ↔ (word.now ≡ text.now) }
{
    word.as_str() == text
}
