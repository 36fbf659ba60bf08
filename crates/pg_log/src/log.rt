//! The log: what it holds, and how a commit is appended.
ghost use Rattle.std.specs.Prelude.{◌≡◌, ◌≤◌, ◌+◌, [], ◌∷◌, ◌++◌, length, OnOk, OnErr};
ghost use Rattle.std.specs.Option.{option_copied};
ghost use Rattle.pg_value.specs.Log.{held};
ghost use Rattle.pg_log.specs.Logged.{Changed, commit_at};

use crate::changed::changed_in;
use pg_value::{Commit, List, Writes};
use std::alloc::{AllocError, Global};
use std::marker::Model;

/// The commits so far, in order. The first has number 1. All of them together hold at most `limit` writes.
#[derive(Drop)]
pub struct Log {
    commits: Vec<Commit>,
    held: u64,
    limit: u64,
}

impl Model for Log {
    ghost use Rattle.std.specs.Prelude.{◌≡◌, ◌≤◌, ◌-◌, length, vec_capacity};
    ghost use Rattle.pg_value.specs.Log.{held as held_by};
    ghost use Rattle.pg_log.specs.Logged.{Logged};

    ghost Value = { Logged };

    ghost view = { λ l. record { list = l.commits.items; limit = l.limit; spare = vec_capacity l.commits - length l.commits.items } };

    ghost invariant = { λ l. (l.held ≡ held_by l.commits.items) × (l.held ≤ l.limit) };
}

impl Log {
    /// No commits, which may hold at most `limit` writes in all. It takes no memory.
    pub fn new(alloc: Global, limit: u64) -> Log
        ensures list { result.list ≡ [] }
        ensures limit { result.limit ≡ limit }
    {
        Log {
            commits: Vec::new(alloc),
            held: 0,
            limit,
        }
    }

    /// Makes room for one commit. Only want of memory refuses it, where there is no room yet; the commits stay either way.
    pub fn reserve(&mut self) -> Result<(), AllocError>
        ensures list { self.new.list ≡ self.old.list }
        ensures limit { self.new.limit ≡ self.old.limit }
        ensures room { OnOk result (1 ≤ self.new.spare) }
        ensures kept { self.old.spare ≤ self.new.spare }
        ensures full { OnErr result (self.old.spare ≡ 0) }
    {
        self.commits.reserve(1)
    }

    /// Appends a commit, for which there is room. It takes no memory.
    pub fn push(&mut self, commit: Commit)
        requires room { 1 ≤ self.old.spare }
        requires within { held self.old.list + length commit.writes.list ≤ self.old.limit }
        ensures list { self.new.list ≡ self.old.list ++ commit ∷ [] }
        ensures limit { self.new.limit ≡ self.old.limit }
        ensures room { self.new.spare + 1 ≡ self.old.spare }
    {
        self.held += commit.writes.len();
        self.commits.push_reserved(commit);
    }

    /// How many commits there are.
    pub fn len(&self) -> u64
        ensures { result ≡ length self.now.list }
    {
        self.commits.len() as u64
    }

    /// How many writes the commits hold in all.
    pub fn held(&self) -> u64
        ensures value { result ≡ held self.now.list }
        ensures within { result ≤ self.now.limit }
    {
        self.held
    }

    /// The commit of a number, from 1; None exactly where the number is 0 or above the length.
    pub fn get(&self, at: u64) -> Option<&Commit>
        ensures { option_copied result ≡ commit_at self.now.list at }
    {
        if at == 0 {
            return None;
        }
        self.commits.get(at as usize - 1)
    }

    /// The place of the first of these writes whose key a commit after the one numbered `from` wrote, and the number of the
    /// first such commit. None comes exactly where there is none. It takes no memory.
    pub fn changed_since(&self, from: u64, writes: &Writes) -> Option<(usize, u64)>
        requires { from ≤ length self.now.list }
        ensures { Changed self.now.list from writes.now.list result }
    {
        changed_in(&self.commits.as_slice()[from as usize..], from, writes)
    }

    /// All commits, in order, without copying.
    pub fn into_commits(self) -> List<Commit>
        ensures { result ≡ self.list }
    {
        let Log { commits, .. } = self;
        List::from_vec(commits)
    }
}
