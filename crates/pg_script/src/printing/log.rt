//! The log of a transcript: each commit and its writes.
ghost use Rattle.std.specs.Prelude.{◌≡◌, ◌++◌, OnOk};
ghost use Rattle.std.specs.List.{flat_map};
ghost use Rattle.pg_script.specs.Text.{commit_text, commits_text, log_text, maker_text, name_at, numbered_commit_text, place_text, write_line};

use super::Printer;
use crate::{SectionOut, Transcript};
use pg_value::{Commit, Key, Text, Write, Writes};
use std::alloc::AllocError;

impl Printer {
    /// Appends the log: how many commits it has, and each with its number from 1, its section, its version and its writes.
    pub fn push_log(&mut self, transcript: &Transcript) -> Result<(), AllocError>
        ensures { OnOk result (self.new ≡ self.old ++ log_text transcript.now) }
    {
        self.text.push_str("@log ")?;
        self.text.push_number(transcript.log.len() as u64)?;
        self.text.push_str("\n")?;
        self.push_commits(
            transcript.sections.as_slice(),
            transcript.tables.as_slice(),
            transcript.log.as_slice(),
        )
    }

    /// Appends commits, numbered from 1.
    fn push_commits(
        &mut self,
        sections: &[SectionOut],
        tables: &[Text],
        commits: &[Commit],
    ) -> Result<(), AllocError>
        ensures { OnOk result (self.new ≡ self.old ++ commits_text sections.now tables.now 1 commits.now) }
    {
        for (i, commit) in commits.iter().enumerate() {
            self.push_numbered_commit(sections, tables, i as u64 + 1, commit)?;
        }
        Ok(())
    }

    /// Appends a commit's number, and the commit.
    fn push_numbered_commit(
        &mut self,
        sections: &[SectionOut],
        tables: &[Text],
        number: u64,
        commit: &Commit,
    ) -> Result<(), AllocError>
        ensures { OnOk result (self.new ≡ self.old ++ numbered_commit_text sections.now tables.now number commit.now) }
    {
        self.text.push_number(number)?;
        self.text.push_str(" ")?;
        self.push_commit(sections, tables, commit)
    }

    /// Appends `SECTION from K` and a line for each write.
    fn push_commit(
        &mut self,
        sections: &[SectionOut],
        tables: &[Text],
        commit: &Commit,
    ) -> Result<(), AllocError>
        ensures { OnOk result (self.new ≡ self.old ++ commit_text sections.now tables.now commit.now) }
    {
        self.push_maker(sections, commit.session)?;
        self.push_from(commit.from)?;
        self.push_writes(tables, &commit.writes)
    }

    /// Appends what made a commit: `setup` for section 0, else the section's name, as it is.
    fn push_maker(&mut self, sections: &[SectionOut], session: u32) -> Result<(), AllocError>
        ensures { OnOk result (self.new ≡ self.old ++ maker_text sections.now session) }
    {
        if session == 0 {
            return self.text.push_str("setup");
        }
        match sections.get(session as usize) {
            Some(section) => self.text.push_str(section.name.as_str()),
            None => Ok(()),
        }
    }

    /// Appends `TABLE KEY`, the table by its number.
    fn push_numbered_place(
        &mut self,
        tables: &[Text],
        table: u32,
        key: &Key,
    ) -> Result<(), AllocError>
        ensures { OnOk result (self.new ≡ self.old ++ place_text (name_at tables.now table) key.now.values) }
    {
        match tables.get(table as usize) {
            Some(name) => self.push_place(name, key),
            None => self.push_place(&Text::new(self.alloc), key),
        }
    }

    /// Appends `+ TABLE KEY = ROW`, or `- TABLE KEY` where the row is gone.
    fn push_write(&mut self, tables: &[Text], write: &Write) -> Result<(), AllocError>
        ensures { OnOk result (self.new ≡ self.old ++ write_line tables.now write.now) }
    {
        match &write.row {
            None => {
                self.text.push_str("- ")?;
                self.push_numbered_place(tables, write.table.0, &write.key)?;
                self.text.push_str("\n")
            }
            Some(row) => {
                self.text.push_str("+ ")?;
                self.push_numbered_place(tables, write.table.0, &write.key)?;
                self.text.push_str(" = ")?;
                self.push_tuple(row.values.as_slice())?;
                self.text.push_str("\n")
            }
        }
    }

    /// Appends a line for each write.
    fn push_writes(&mut self, tables: &[Text], writes: &Writes) -> Result<(), AllocError>
        ensures { OnOk result (self.new ≡ self.old ++ flat_map (write_line tables.now) writes.now.list) }
    {
        for at in 0..writes.len() {
            self.push_write(tables, writes.at(at))?;
        }
        Ok(())
    }
}
