//! What is made of the sections of an input one after another: items, sessions and turns, or the first fault.
ghost use Rattle.std.specs.Prelude.{◌≡◌, ◌≤◌, ◌<◌, ◌&&◌, not, length, map, IfOk, MatchResult};
ghost use Rattle.std.specs.List.{AllByRecursion, AllZip};
ghost use Rattle.pg_script.specs.declared.parts.Content.TheVariants as contents;
ghost use Rattle.pg_script.specs.Script.{most_bytes, has_session, IsTurn, IsWrong};
ghost use Rattle.pg_script.specs.Passes.{part_of, parts_of, turn_at};
ghost use Rattle.pg_script.specs.Passes.Drafts.{FaultOf, HasUnknown, IsFair, IsDraft, IsAdded, IsDrafted, IsWithin, LiesSomewhere, SpreadSomewhere, WordsRise, part_with};

use crate::items::{items, session_of};
use crate::lines::{bad, cut};
use crate::parts::{Content, PartSpan};
use crate::statements::Span;
use crate::{Item, ScriptFault, ScriptKind, Section};
use pg_value::{List, Text};
use std::alloc::{AllocError, Global};

/// A script has at most so many sessions.
const MOST_SESSIONS: usize = 64;

/// What is made of the sections so far: the setup's items, the sessions, and the turns of the order.
#[derive(Drop)]
pub struct Draft {
    pub has_setup: bool,
    pub has_order: bool,
    pub setup: List<Item>,
    pub sessions: List<Section>,
    pub order: List<u32>,
}

impl Draft {
    /// Makes something of one section more, or says what is wrong with it.
    fn add(
        &mut self,
        alloc: Global,
        bytes: &[u8],
        before: &[PartSpan],
        part: &PartSpan,
    ) -> Result<(), ScriptFault>
        requires short { length bytes.now ≤ most_bytes }
        requires drafted { IsDraft (parts_of bytes.now before.now) self.old }
        requires lies { LiesSomewhere (part_of bytes.now part.now) }
        ensures { MatchResult result (λ _. IsAdded bytes.now (parts_of bytes.now before.now) (part_of bytes.now part.now) self.new) (FaultOf (IsWrong bytes.now (parts_of bytes.now before.now) (part_of bytes.now part.now))) }
    {
        match &part.content {
            Content::Setup(statements) => self.add_setup(alloc, bytes, before, part.at, statements),
            Content::Session { name, statements } => {
                self.add_session(alloc, bytes, before, part.at, *name, statements)
            }
            Content::Order(words) => self.add_order(alloc, bytes, before, part.at, words),
            Content::Other => Err(bad(bytes, part.at as usize, ScriptKind::Section)),
        }
    }

    /// Makes the items of the setup, whose line begins at a place.
    fn add_setup(
        &mut self,
        alloc: Global,
        bytes: &[u8],
        before: &[PartSpan],
        at: u32,
        spans: &List<Span>,
    ) -> Result<(), ScriptFault>
        requires short { length bytes.now ≤ most_bytes }
        requires drafted { IsDraft (parts_of bytes.now before.now) self.old }
        requires lies { LiesSomewhere (part_with bytes.now at (contents.Setup spans.now)) }
        ensures { MatchResult result (λ _. IsAdded bytes.now (parts_of bytes.now before.now) (part_with bytes.now at (contents.Setup spans.now)) self.new) (FaultOf (IsWrong bytes.now (parts_of bytes.now before.now) (part_with bytes.now at (contents.Setup spans.now)))) }
    {
        if !before.is_empty() {
            return Err(bad(bytes, at as usize, ScriptKind::Section));
        }
        let items = items(alloc, bytes, before, false, spans.as_slice())?;
        self.setup = items;
        self.has_setup = true;
        Ok(())
    }

    /// Makes a session, whose line begins at a place.
    fn add_session(
        &mut self,
        alloc: Global,
        bytes: &[u8],
        before: &[PartSpan],
        at: u32,
        name: Span,
        spans: &List<Span>,
    ) -> Result<(), ScriptFault>
        requires short { length bytes.now ≤ most_bytes }
        requires drafted { IsDraft (parts_of bytes.now before.now) self.old }
        requires lies { LiesSomewhere (part_with bytes.now at (contents.Session name spans.now)) }
        ensures { MatchResult result (λ _. IsAdded bytes.now (parts_of bytes.now before.now) (part_with bytes.now at (contents.Session name spans.now)) self.new) (FaultOf (IsWrong bytes.now (parts_of bytes.now before.now) (part_with bytes.now at (contents.Session name spans.now)))) }
    {
        let name = cut(bytes, name);
        if !is_new(bytes, before, name, self.has_order) {
            return Err(bad(bytes, at as usize, ScriptKind::Section));
        }
        if self.sessions.len() >= MOST_SESSIONS {
            return Err(bad(bytes, at as usize, ScriptKind::Sessions));
        }
        let items = items(alloc, bytes, before, true, spans.as_slice())?;
        let name = name_text(alloc, name)?;
        self.sessions.push(Section { name, items })?;
        Ok(())
    }

    /// Makes the turns of the order, whose line begins at a place.
    fn add_order(
        &mut self,
        alloc: Global,
        bytes: &[u8],
        before: &[PartSpan],
        at: u32,
        words: &List<Span>,
    ) -> Result<(), ScriptFault>
        requires short { length bytes.now ≤ most_bytes }
        requires drafted { IsDraft (parts_of bytes.now before.now) self.old }
        requires lies { LiesSomewhere (part_with bytes.now at (contents.Order words.now)) }
        ensures { MatchResult result (λ _. IsAdded bytes.now (parts_of bytes.now before.now) (part_with bytes.now at (contents.Order words.now)) self.new) (FaultOf (IsWrong bytes.now (parts_of bytes.now before.now) (part_with bytes.now at (contents.Order words.now)))) }
    {
        if self.has_order {
            return Err(bad(bytes, at as usize, ScriptKind::Section));
        }
        let turns = turns_of(alloc, bytes, before, words.as_slice())?;
        self.order = turns;
        self.has_order = true;
        Ok(())
    }
}

/// What the sections make, or the first fault among them.
pub fn make_draft(alloc: Global, bytes: &[u8], parts: &[PartSpan]) -> Result<Draft, ScriptFault>
    requires short { length bytes.now ≤ most_bytes }
    requires spread { SpreadSomewhere bytes.now (parts_of bytes.now parts.now) }
    ensures { MatchResult result (IsDrafted bytes.now (parts_of bytes.now parts.now)) (FaultOf (IsWithin bytes.now (parts_of bytes.now parts.now))) }
{
    let mut draft = Draft {
        has_setup: false,
        has_order: false,
        setup: List::new(alloc),
        sessions: List::new(alloc),
        order: List::new(alloc),
    };
    'parts: for (i, part) in parts.iter().enumerate() {
        let (before, _) = parts.split_at(i);
        match draft.add(alloc, bytes, before, part) {
            Ok(()) => {}
            Err(fault) => return Err(fault),
        }
    }
    Ok(draft)
}

/// Whether no session has this name, and no order stands before.
fn is_new(bytes: &[u8], before: &[PartSpan], name: &[u8], has_order: bool) -> bool
    ensures { result ≡ (not has_order && not (has_session name.now (parts_of bytes.now before.now))) }
{
    match session_of(bytes, before, name, 0) {
        Some(_) => false,
        None => !has_order,
    }
}

/// A text of ASCII bytes.
fn name_text(alloc: Global, name: &[u8]) -> Result<Text, AllocError>
    requires { AllByRecursion (λ b. b < 128) name.now }
    ensures { IfOk result (λ t. t ≡ name.now) }
{
    let mut out = Text::new(alloc);
    for byte in name {
        out.push_ascii(*byte)?;
    }
    Ok(out)
}

/// The sessions of the order's words, or the first word that is no session's name.
fn turns_of(
    alloc: Global,
    bytes: &[u8],
    before: &[PartSpan],
    words: &[Span],
) -> Result<List<u32>, ScriptFault>
    requires short { length bytes.now ≤ most_bytes }
    requires fair { IsFair (parts_of bytes.now before.now) }
    requires rise { WordsRise (map (turn_at bytes.now) words.now) }
    ensures { MatchResult result (AllZip (IsTurn (parts_of bytes.now before.now)) (map (turn_at bytes.now) words.now)) (FaultOf (HasUnknown bytes.now (parts_of bytes.now before.now) (map (turn_at bytes.now) words.now))) }
{
    let mut out = List::new(alloc);
    'words: for word in words {
        match session_of(bytes, before, cut(bytes, *word), 0) {
            Some(section) => match out.push(section as u32) {
                Ok(()) => {}
                Err(_) => return Err(ScriptFault::Memory),
            },
            None => return Err(bad(bytes, word.from as usize, ScriptKind::Section)),
        }
    }
    Ok(out)
}
