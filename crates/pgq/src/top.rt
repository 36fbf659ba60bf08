//! The program's top call.
ghost use Rattle.std.specs.Prelude.{◌≡◌, ◌≤◌};
ghost use Rattle.pgq.specs.Headline.{TopMeans};

use crate::status::Status;
use crate::step::stepped;
use crate::words::{Form, form_of};
use pg_outside::{Sink, Source};
use pg_value::{List, Text};
use std::alloc::Global;

/// All that the program does with its words, the program's name not being among them. `BadWords` comes exactly where the
/// words have no form, and then nothing is read or written.
pub fn top<I: Source, O: Sink>(
    alloc: Global,
    words: &List<Text>,
    source: &mut I,
    sink: &mut O,
) -> Status
    ensures means { TopMeans (I.left source.old) (I.left source.new) (I.faults source.old) (I.faults source.new)
        (O.held sink.old) (O.held sink.new) (O.faults sink.old) (O.faults sink.new) words.now result }
    ensures untouched { result ≡ Status.BadWords → (source.new ≡ source.old) × (sink.new ≡ sink.old) }
    ensures later_reads { I.faults source.old ≤ I.faults source.new }
    ensures later_writes { O.faults sink.old ≤ O.faults sink.new }
{
    match form_of(words) {
        Some(Form::Step) => stepped(alloc, source, sink),
        None => Status::BadWords,
    }
}
