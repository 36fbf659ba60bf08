//! The outcomes of a section: a line for each, and for an answer its columns and rows.
ghost use Rattle.std.specs.Prelude.{◌≡◌, ◌++◌, codes, OnOk};
ghost use Rattle.std.specs.List.{flat_map};
ghost use Rattle.pg_script.specs.Text.{at_text, from_text, held_text, row_text, counted_line, header_line, outcome_text, outcomes_text, numbered_text, row_line, line};
ghost use Rattle.pg_script.specs.declared.outcome.Outcome.TheVariants.{Defined, Changed, ChangedAlone, Committed, Rows, After, AtByte, AtColumn, Conflict, LogFull};

use super::Printer;
use crate::{ColumnFault, FaultKind, Outcome};
use pg_value::{Key, List, Row, Text};
use std::alloc::AllocError;

impl Printer {
    /// Appends the outcomes of a section, numbered from 1.
    pub fn push_outcomes(&mut self, outcomes: &[Outcome]) -> Result<(), AllocError>
        ensures { OnOk result (self.new ≡ self.old ++ outcomes_text 1 outcomes.now) }
    {
        for (i, outcome) in outcomes.iter().enumerate() {
            self.push_numbered(i as u64 + 1, outcome)?;
        }
        Ok(())
    }

    /// Appends an outcome's number, and the outcome.
    fn push_numbered(&mut self, number: u64, outcome: &Outcome) -> Result<(), AllocError>
        ensures { OnOk result (self.new ≡ self.old ++ numbered_text number outcome.now) }
    {
        self.text.push_number(number)?;
        self.text.push_str(" ")?;
        self.push_outcome(outcome)
    }

    /// Appends an outcome.
    fn push_outcome(&mut self, outcome: &Outcome) -> Result<(), AllocError>
        ensures { OnOk result (self.new ≡ self.old ++ outcome_text outcome.now) }
    {
        match outcome {
            Outcome::Defined { name, at } => self.push_defined(name, *at),
            Outcome::Began { at } => self.push_version("begin", *at),
            Outcome::Changed { rows, at } => self.push_changed(*rows, *at),
            Outcome::ChangedAlone { rows, from, at } => {
                self.push_changed_alone(*rows, *from, *at)
            }
            Outcome::Committed { from, at } => self.push_committed(*from, *at),
            Outcome::CommitEmpty { at } => self.push_version("commit empty", *at),
            Outcome::RolledBack { at } => self.push_version("rollback", *at),
            Outcome::Rows {
                at,
                base,
                names,
                rows,
            } => self.push_answer(*at, *base, names.as_slice(), rows),
            Outcome::After { name, n, at } => self.push_after(name, *n, *at),
            Outcome::AtByte { kind, byte } => self.push_at_byte(*kind, *byte),
            Outcome::AlreadyOpen => self.text.push_str("refused AlreadyOpen\n"),
            Outcome::NotOpen => self.text.push_str("refused NotOpen\n"),
            Outcome::Duplicate { row, at } => { self.push_at_row("refused Duplicate", *row, *at) }
            Outcome::TooManyWrites { row, at } => {
                self.push_at_row("refused TooManyWrites", *row, *at)
            }
            Outcome::AtColumn {
                kind,
                row,
                column,
                at,
            } => self.push_at_column(*kind, *row, column, *at),
            Outcome::Conflict {
                table,
                key,
                from,
                at,
            } => self.push_conflict(table, key, *from, *at),
            Outcome::LogFull { from, held } => self.push_full("refused LogFull", *from, *held),
        }
    }

    /// Appends `defined NAME at K`.
    fn push_defined(&mut self, name: &Text, at: u64) -> Result<(), AllocError>
        ensures { OnOk result (self.new ≡ self.old ++ outcome_text (Defined name.now at)) }
    {
        self.text.push_str("defined ")?;
        self.push_name(name)?;
        self.push_at(at)
    }

    /// Appends the word of an outcome that prints nothing but its version.
    fn push_version(&mut self, word: &str, at: u64) -> Result<(), AllocError>
        ensures { OnOk result (self.new ≡ self.old ++ line (word.now ++ at_text at)) }
    {
        self.text.push_str(word)?;
        self.push_at(at)
    }

    /// Appends `changed N at K`.
    fn push_changed(&mut self, rows: u64, at: u64) -> Result<(), AllocError>
        ensures { OnOk result (self.new ≡ self.old ++ outcome_text (Changed rows at)) }
    {
        self.push_number_behind("changed ", rows)?;
        self.push_at(at)
    }

    /// Appends `changed N from K at C`.
    fn push_changed_alone(&mut self, rows: u64, from: u64, at: u64) -> Result<(), AllocError>
        ensures { OnOk result (self.new ≡ self.old ++ outcome_text (ChangedAlone rows from at)) }
    {
        self.push_number_behind("changed ", rows)?;
        self.push_from_at(from, at)
    }

    /// Appends `commit from K at C`.
    fn push_committed(&mut self, from: u64, at: u64) -> Result<(), AllocError>
        ensures { OnOk result (self.new ≡ self.old ++ outcome_text (Committed from at)) }
    {
        self.text.push_str("commit")?;
        self.push_from_at(from, at)
    }

    /// Appends `rows N at K base B`, a line with the columns' names, and a line for each row.
    fn push_answer(
        &mut self,
        at: u64,
        base: u64,
        names: &[Text],
        rows: &List<Row>,
    ) -> Result<(), AllocError>
        ensures { OnOk result (self.new ≡ self.old ++ outcome_text (Rows at base names.now rows.now)) }
    {
        self.push_counted(rows.len() as u64, at, base)?;
        self.push_header(names)?;
        self.push_rows(rows.as_slice())
    }

    /// Appends `rows N at K base B`.
    fn push_counted(&mut self, rows: u64, at: u64, base: u64) -> Result<(), AllocError>
        ensures { OnOk result (self.new ≡ self.old ++ counted_line rows at base) }
    {
        self.push_number_behind("rows ", rows)?;
        self.push_number_behind(" at ", at)?;
        self.push_number_behind(" base ", base)?;
        self.text.push_str("\n")
    }

    /// Appends `:` and the columns' names.
    fn push_header(&mut self, names: &[Text]) -> Result<(), AllocError>
        ensures { OnOk result (self.new ≡ self.old ++ header_line names.now) }
    {
        self.text.push_str(": ")?;
        self.push_names(names)?;
        self.text.push_str("\n")
    }

    /// Appends a line for each row.
    fn push_rows(&mut self, rows: &[Row]) -> Result<(), AllocError>
        ensures { OnOk result (self.new ≡ self.old ++ flat_map row_line rows.now) }
    {
        for row in rows {
            self.push_row(row)?;
        }
        Ok(())
    }

    /// Appends `=` and the values of a row.
    fn push_row(&mut self, row: &Row) -> Result<(), AllocError>
        ensures { OnOk result (self.new ≡ self.old ++ row_line row.now) }
    {
        self.text.push_str("= ")?;
        self.push_values(row.values.as_slice())?;
        self.text.push_str("\n")
    }

    /// Appends `after NAME I at K`, the session's name as it is.
    fn push_after(&mut self, name: &Text, n: u32, at: u64) -> Result<(), AllocError>
        ensures { OnOk result (self.new ≡ self.old ++ outcome_text (After name.now n at)) }
    {
        let name = name.as_str();
        self.text.push_str(format!(in self.alloc; "after {name} {n} at {at}\n")?.as_str())
    }

    /// Appends `refused KIND at byte P`.
    fn push_at_byte(&mut self, kind: FaultKind, byte: u32) -> Result<(), AllocError>
        ensures { OnOk result (self.new ≡ self.old ++ outcome_text (AtByte kind byte)) }
    {
        let word = kind.word();
        self.text.push_str(format!(in self.alloc; "refused {word} at byte {byte}\n")?.as_str())
    }

    /// Appends `refused KIND row R at K`.
    fn push_at_row(&mut self, refused: &str, row: u64, at: u64) -> Result<(), AllocError>
        ensures { OnOk result (self.new ≡ self.old ++ line (refused.now ++ (row_text row ++ at_text at))) }
    {
        self.text.push_str(format!(in self.alloc; "{refused} row {row} at {at}\n")?.as_str())
    }

    /// Appends `refused KIND row R column `.
    fn push_refused_row(&mut self, kind: &str, row: u64) -> Result<(), AllocError>
        ensures { OnOk result (self.new ≡ self.old ++ (codes "refused " ++ (kind.now ++ (row_text row ++ codes " column ")))) }
    {
        self.text.push_str(format!(in self.alloc; "refused {kind} row {row} column ")?.as_str())
    }

    /// Appends `refused KIND row R column NAME at K`.
    fn push_at_column(
        &mut self,
        kind: ColumnFault,
        row: u64,
        column: &Text,
        at: u64,
    ) -> Result<(), AllocError>
        ensures { OnOk result (self.new ≡ self.old ++ outcome_text (AtColumn kind row column.now at)) }
    {
        self.push_refused_row(kind.word(), row)?;
        self.push_name(column)?;
        self.push_at(at)
    }

    /// Appends `refused Conflict TABLE KEY from K at J`.
    fn push_conflict(
        &mut self,
        table: &Text,
        key: &Key,
        from: u64,
        at: u64,
    ) -> Result<(), AllocError>
        ensures { OnOk result (self.new ≡ self.old ++ outcome_text (Conflict table.now key.now from at)) }
    {
        self.text.push_str("refused Conflict ")?;
        self.push_place(table, key)?;
        self.push_from_at(from, at)
    }

    /// Appends `refused KIND from K held H`.
    fn push_full(&mut self, refused: &str, from: u64, held: u64) -> Result<(), AllocError>
        ensures { OnOk result (self.new ≡ self.old ++ line (refused.now ++ (from_text from ++ held_text held))) }
    {
        self.text.push_str(format!(in self.alloc; "{refused} from {from} held {held}\n")?.as_str())
    }
}
