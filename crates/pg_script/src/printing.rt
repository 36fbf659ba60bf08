//! The printed form of a transcript.

mod log;
mod outcome;
mod words;

ghost use Rattle.std.specs.Prelude.{◌≡◌, ◌++◌, IfOk, OnOk};
ghost use Rattle.std.specs.List.{flat_map};
ghost use Rattle.pg_script.specs.Text.{section_text, end_text, peak_text, session_text, sections_text, setup_text, text_of};

use crate::{SectionOut, Transcript};
use pg_value::Text;
use std::alloc::{AllocError, Global};
use std::marker::Model;

/// The text of a transcript as far as it is printed, and the allocator that its numbers take.
#[derive(Drop)]
pub struct Printer {
    alloc: Global,
    text: Text,
}

impl Model for Printer {
    ghost use Rattle.std.specs.Prelude.{List, ℕ};

    ghost Value = { List ℕ };

    ghost view = { λ p. p.text };
}

/// The text of a transcript: its sections, its log, its peak and `@end`, each line ending with a line feed. Only want of
/// memory refuses it.
pub fn print(alloc: Global, transcript: &Transcript) -> Result<Text, AllocError>
    ensures { IfOk result (λ text. text ≡ text_of transcript.now) }
{
    let mut printer = Printer {
        alloc,
        text: Text::new(alloc),
    };
    printer.push_sections(transcript.has_setup, transcript.sections.as_slice())?;
    printer.push_log(transcript)?;
    printer.push_peak(&transcript.peak)?;
    printer.text.push_str("@end\n")?;
    let Printer { alloc: _, text } = printer;
    Ok(text)
}

impl Printer {
    /// Appends the setup, where the script has one, and the sessions.
    fn push_sections(&mut self, has_setup: bool, sections: &[SectionOut]) -> Result<(), AllocError>
        ensures { OnOk result (self.new ≡ self.old ++ sections_text has_setup sections.now) }
    {
        match sections {
            [] => Ok(()),
            [setup, sessions @ ..] => {
                self.push_setup(has_setup, setup)?;
                self.push_sessions(sessions)
            }
        }
    }

    /// Appends the setup, where the script has one.
    fn push_setup(&mut self, has_setup: bool, setup: &SectionOut) -> Result<(), AllocError>
        ensures { OnOk result (self.new ≡ self.old ++ setup_text has_setup setup.now) }
    {
        if !has_setup {
            return Ok(());
        }
        self.text.push_str("@setup\n")?;
        self.push_section(setup)
    }

    /// Appends each session.
    fn push_sessions(&mut self, sessions: &[SectionOut]) -> Result<(), AllocError>
        ensures { OnOk result (self.new ≡ self.old ++ flat_map session_text sessions.now) }
    {
        for session in sessions {
            self.push_session(session)?;
        }
        Ok(())
    }

    /// Appends `@session NAME` and how its items came out.
    fn push_session(&mut self, session: &SectionOut) -> Result<(), AllocError>
        ensures { OnOk result (self.new ≡ self.old ++ session_text session.now) }
    {
        self.text.push_str("@session ")?;
        self.text.push_str(session.name.as_str())?;
        self.text.push_str("\n")?;
        self.push_section(session)
    }

    /// Appends a section's outcomes and its end.
    fn push_section(&mut self, section: &SectionOut) -> Result<(), AllocError>
        ensures { OnOk result (self.new ≡ self.old ++ section_text section.now) }
    {
        self.push_outcomes(section.outcomes.as_slice())?;
        self.text.push_str(end_line(section.rolled_back))
    }

    /// Appends `@peak kept V pins P`.
    fn push_peak(&mut self, peak: &(u64, u64)) -> Result<(), AllocError>
        ensures { OnOk result (self.new ≡ self.old ++ peak_text peak.now) }
    {
        self.text.push_str("@peak kept ")?;
        self.text.push_number(peak.0)?;
        self.text.push_str(" pins ")?;
        self.text.push_number(peak.1)?;
        self.text.push_str("\n")
    }
}

/// The line behind the outcomes of a section.
fn end_line(rolled_back: bool) -> &'static str
    ensures { result.now ≡ end_text rolled_back }
{
    if rolled_back {
        "end rolled back\n"
    } else {
        "end\n"
    }
}
