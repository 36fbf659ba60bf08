//! How the writes of one statement become the log's next commit.
ghost use Rattle.std.specs.Prelude.{ℕ, ◌≡◌, ◌<◌, ◌≤◌, ◌+◌, [], ◌∷◌, length, get_or, slice_set, IfOk, OnOk};
ghost use Rattle.pg_keyed.specs.Keyed.{Ascends, Each};
ghost use Rattle.pg_value.specs.Order.{key_cmp};
ghost use Rattle.pg_value.specs.Log.{held};
ghost use Rattle.pg_value.specs.Writes.{IsInOrder};
ghost use Rattle.pg_value.specs.TablesLaws.{key_of, key_named, put_in};
ghost use Rattle.pg_core.specs.Core.{base_after};
ghost use Rattle.pgq.specs.Engine.{IsReady, most_log_writes, peak_after};
ghost use Rattle.pg_language.specs.Language.{most_transaction_writes};
ghost use Rattle.pgq.specs.Commits.{IsTo, AreAlike, IsAppended, IsCommitted, HasEnded};
ghost use Rattle.pg_value.specs.Tables.{FitWrites};

use crate::engine::Engine;
use crate::rows::put_writes;
use pg_chunks::Chunks;
use pg_script::Outcome;
use pg_value::{Commit, Stored, TableNo, Writes};
use std::alloc::{AllocError, Global};

/// How many writes the log may hold.
const MOST_LOG_WRITES: u64 = 4_194_304;

/// How many versions may stand over the base.
const MOST_OVER_BASE: u64 = 256;

/// The base after a commit that finds this base and a log of this length: a full one is folded up to there first.
fn base_after(base: u64, found: u64) -> u64
    requires { base ≤ found }
    ensures { result ≡ base_after base found }
{
    if found - base == MOST_OVER_BASE {
        found
    } else {
        base
    }
}

/// The peak after such a commit: while it folds, its statement has the older base pinned, and both are kept.
fn peak_after(base: u64, found: u64, peak: (u64, u64)) -> (u64, u64)
    requires { base ≤ found }
    ensures { result ≡ peak_after base found peak }
{
    if found - base == MOST_OVER_BASE && peak.0 < 2 {
        (2, 1)
    } else {
        peak
    }
}

/// Puts writes to a table among its rows.
fn put_in_table(
    alloc: Global,
    tables: &mut Vec<Chunks<Stored>>,
    table: TableNo,
    writes: &Writes,
) -> Result<(), AllocError>
    requires within { table.0 < length tables.old.items }
    requires ascends { Ascends key_of key_cmp (get_or tables.old.items table.0 []) }
    requires table { Each (λ s. s.table ≡ table) (get_or tables.old.items table.0 []) }
    requires writes { Ascends key_named key_cmp writes.now.list }
    requires own { Each (IsTo table) writes.now.list }
    requires alike { AreAlike writes.now.list }
    ensures { OnOk result (tables.new.items ≡ slice_set tables.old.items table.0 (put_in (get_or tables.old.items table.0 []) writes.now.list)) }
{
    put_writes(alloc, &mut tables[table.0 as usize], table, writes)
}

/// Appends a commit to the log, and counts it.
fn append(engine: &mut Engine, commit: Commit) -> Result<(), AllocError>
    requires base { engine.old.base ≤ length engine.old.log }
    requires room { engine.old.held + length commit.writes.list ≤ most_log_writes }
    ensures appended { OnOk result (IsAppended commit engine.old engine.new) }
    ensures tables { OnOk result (engine.new.tables ≡ engine.old.tables) }
{
    let found = engine.log.len() as u64;
    let count = commit.writes.len();
    engine.log.push(commit)?;
    engine.held += count;
    engine.peak = peak_after(engine.base, found, engine.peak);
    engine.base = base_after(engine.base, found);
    Ok(())
}

/// Makes writes for which there is room the log's next commit.
fn accept(
    alloc: Global,
    engine: &mut Engine,
    section: u32,
    table: TableNo,
    writes: Writes,
    rows: u64,
) -> Result<Outcome, AllocError>
    requires ready { IsReady engine.old }
    requires table { table.0 < length engine.old.tables.items }
    requires own { Each (IsTo table) writes.list }
    requires alike { AreAlike writes.list }
    requires in_order { IsInOrder writes.list }
    requires limit { writes.limit ≡ most_transaction_writes }
    requires fits { FitWrites engine.old.shapes writes.list }
    requires room { held engine.old.log + length writes.list ≤ most_log_writes }
    ensures ready { OnOk result (IsReady engine.new) }
    ensures committed { OnOk result (IsCommitted section engine.old writes.list engine.new) }
    ensures outcome { IfOk result (λ o. o ≡ Outcome.ChangedAlone rows (length engine.old.log) (length engine.old.log + 1)) }
{
    let from = engine.log.len() as u64;
    put_in_table(alloc, &mut engine.tables, table, &writes)?;
    let commit = Commit {
        session: section,
        from,
        writes,
    };
    append(engine, commit)?;
    let at = engine.log.len() as u64;
    Ok(Outcome::ChangedAlone { rows, from, at })
}

/// Commits the writes of a statement of a section that changes so many rows of one table: answers `Changed` where there is
/// none, `LogFull` where the log has no room for the writes, and either way leaves all as it was; else `ChangedAlone`. After
/// want of memory the engine is of no use.
pub fn commit(
    alloc: Global,
    engine: &mut Engine,
    section: u32,
    table: TableNo,
    writes: Writes,
    rows: u64,
) -> Result<Outcome, AllocError>
    requires ready { IsReady engine.old }
    requires table { table.0 < length engine.old.tables.items }
    requires own { Each (IsTo table) writes.list }
    requires alike { AreAlike writes.list }
    requires limit { writes.limit ≡ most_transaction_writes }
    requires fits { FitWrites engine.old.shapes writes.list }
    ensures ready { OnOk result (IsReady engine.new) }
    ensures ended { IfOk result (λ o. HasEnded section engine.old writes.list rows o engine.new) }
{
    let at = engine.log.len() as u64;
    if rows == 0 {
        return Ok(Outcome::Changed { rows, at });
    }
    if writes.len() > MOST_LOG_WRITES - engine.held {
        return Ok(Outcome::LogFull {
            from: at,
            held: engine.held,
        });
    }
    accept(alloc, engine, section, table, writes, rows)
}
