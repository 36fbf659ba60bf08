//! Which of some writes is the first whose key one of some commits wrote, and the first such commit.
ghost use Rattle.std.specs.Prelude.{◌≡◌, ◌+◌, ◌<◌, ◌^◌, ◌∷◌, [], length};
ghost use Rattle.pg_log.specs.Logged as spec;
ghost use Rattle.pg_log.specs.Logged.{changed_from};

use pg_value::{Commit, Write, Writes};

/// The place of the write of the same table and key, if there is one.
fn place_in(write: &Write, writes: &Writes) -> Option<usize>
    ensures { result ≡ spec.first_named 0 (write.now ∷ []) writes.now.list }
{
    match writes.place_of(write) {
        Ok(at) => Some(at),
        Err(_) => None,
    }
}

/// The lesser of two places.
fn lesser(least: Option<usize>, place: Option<usize>) -> Option<usize>
    ensures { result ≡ spec.lesser least place }
{
    match least {
        None => place,
        Some(best) => match place {
            None => Some(best),
            Some(at) => Some(if at < best { at } else { best }),
        },
    }
}

/// The place of the first of these writes whose key the commit wrote. Each write of the commit is sought among them.
fn least_named(commit: &Writes, writes: &Writes) -> Option<usize>
    ensures { result ≡ spec.first_named 0 commit.now.list writes.now.list }
{
    let mut least = None;
    for at in 0..commit.len() {
        least = lesser(least, place_in(commit.at(at), writes));
    }
    least
}

/// The same. Each of these writes is sought among those of the commit.
fn first_among(commit: &Writes, writes: &Writes) -> Option<usize>
    ensures { result ≡ spec.first_named 0 commit.now.list writes.now.list }
{
    for at in 0..writes.len() {
        if place_in(writes.at(at), commit).is_some() {
            return Some(at as usize);
        }
    }
    None
}

/// The same. The shorter list is sought in the longer.
fn first_named(commit: &Writes, writes: &Writes) -> Option<usize>
    ensures { result ≡ spec.first_named 0 commit.now.list writes.now.list }
{
    if writes.len() < commit.len() {
        first_among(commit, writes)
    } else {
        least_named(commit, writes)
    }
}

/// What is found with one commit more, of this number: it wrote the key of the write at the place, and of none before it.
fn earlier(found: Option<(usize, u64)>, place: Option<usize>, no: u64) -> Option<(usize, u64)>
    ensures { result ≡ spec.earlier found place no }
{
    match place {
        None => found,
        Some(at) => match found {
            None => Some((at, no)),
            Some((best, first)) => Some(if at < best { (at, no) } else { (best, first) }),
        },
    }
}

/// What is found among commits of which the first follows the one numbered `from`.
pub fn changed_in(commits: &[Commit], from: u64, writes: &Writes) -> Option<(usize, u64)>
    requires { from + length commits.now < 2 ^ 64 }
    ensures { result ≡ changed_from 0 (from + 1) commits.now writes.now.list }
{
    let mut found = None;
    let mut no = from;
    for commit in commits {
        no += 1;
        found = earlier(found, first_named(&commit.writes, writes), no);
    }
    found
}
