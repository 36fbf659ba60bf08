//! Numbered bases of which one is current: a base that is pinned stays, and what nobody needs is dropped at once.
#![tactic(auto)]

ghost use Rattle.std.specs.Prelude.{◌≡◌, ◌<◌, ◌≤◌, ◌+◌, ℕ, [], ◌∷◌, length, Option, Some, None, IfOk, replicate, is_some, vec_capacity, cond};
ghost use Rattle.std.specs.List.{count_by};
ghost use Rattle.pg_pins.specs.Held as spec;
ghost use Rattle.pg_pins.specs.Held.{BuildBegan, IsKept, Released, after_build, after_install, after_pin, base_at, kept_count, listed_numbers, needed, pin_count, pin_of, pinned};

use std::alloc::{AllocError, Global};
use std::marker::Model;

/// Numbered bases, one of them current, and at most one pin for each seat. The listed bases are the current one and those that
/// are pinned. Room for all of them is taken by `new`, so no other call takes memory.
#[derive(Drop)]
pub struct Kept<B> {
    current: u64,
    bases: Vec<(u64, B)>,
    pins: Vec<Option<u64>>,
    build: Option<u32>,
}

impl<B> Model for Kept<B> {
    ghost use Rattle.std.specs.Prelude.{◌≤◌, ◌+◌, length, vec_capacity};
    ghost use Rattle.pg_pins.specs.Held.{Held, IsKept};

    ghost Value = { Held B };

    ghost view = { λ k. record { current = k.current; bases = k.bases.items; pins = k.pins.items; build = k.build } };

    ghost invariant = { λ k. IsKept (record { current = k.current; bases = k.bases.items; pins = k.pins.items; build = k.build }) × (length k.pins.items + 1 ≤ vec_capacity k.bases) };
}

/// Whether a seat's pin is that of this base.
fn is_pin(no: u64, pin: &Option<u64>) -> bool
    ensures { result ≡ spec.is_pin no pin.now }
{
    match pin {
        Some(pin) => *pin == no,
        None => false,
    }
}

/// Whether some seat has pinned this base.
fn is_pinned(no: u64, pins: &[Option<u64>]) -> bool
    ensures { result ≡ pinned no pins.now }
{
    pins.iter().any(|pin| is_pin(no, pin))
}

/// How many seats have a pin.
fn count_pins(pins: &[Option<u64>]) -> usize
    ensures { result ≡ count_by is_some pins.now }
{
    pins.iter().filter(|pin| pin.is_some()).count()
}

fn one_if(is_open: bool) -> u64
    ensures value { result ≡ cond is_open 1 0 }
    ensures small { result ≤ 1 }
{
    if is_open { 1 } else { 0 }
}

/// Drops the bases that are neither current nor pinned.
fn retain_needed<B: Drop>(bases: &mut Vec<(u64, B)>, current: u64, pins: &[Option<u64>])
    ensures items { bases.new.items ≡ needed current pins.now bases.old.items }
    ensures room { vec_capacity bases.new ≡ vec_capacity bases.old }
{
    bases.retain(|base| base.0 == current || is_pinned(base.0, pins));
}

impl<B: Drop> Kept<B> {
    /// One base, which is current, and so many seats, none of which has a pin. After want of memory the base is dropped.
    pub fn new(alloc: Global, base: B, no: u64, seats: u32) -> Result<Kept<B>, AllocError>
        ensures { IfOk result (λ k. k ≡ record { current = no; bases = (no, base) ∷ []; pins = replicate seats None; build = None }) }
    {
        let mut bases = Vec::with_capacity(alloc, seats as usize + 1)?;
        bases.push((no, base))?;
        let pins = Vec::from_elem(alloc, None, seats as usize)?;
        Ok(Kept {
            current: no,
            bases,
            pins,
            build: None,
        })
    }

    /// Pins the current base for a seat that has no pin, and answers its number.
    pub fn pin(&mut self, seat: u32) -> u64
        requires seated { seat < length self.old.pins }
        requires free { pin_of self.old seat ≡ None }
        ensures number { result ≡ self.old.current }
        ensures pinned { self.new ≡ after_pin self.old seat }
    {
        self.pins[seat as usize] = Some(self.current);
        self.current
    }

    /// How many seats there are.
    pub fn seats(&self) -> usize
        ensures { result ≡ length self.now.pins }
    {
        self.pins.len()
    }

    /// The number of the base that a seat has pinned; None exactly where it has none.
    pub fn holds(&self, seat: u32) -> Option<u64>
        ensures { result ≡ pin_of self.now seat }
    {
        match self.pins.get(seat as usize) {
            Some(pin) => *pin,
            None => None,
        }
    }

    /// Releases a seat's pin, and drops its base if it is neither current nor pinned. False comes exactly where the seat has no
    /// pin; nothing changes then.
    pub fn release(&mut self, seat: u32) -> bool
        requires { self.old.build ≡ Some seat → ⊥ }
        ensures { Released self.old self.new seat result }
    {
        if self.holds(seat).is_none() {
            return false;
        }
        self.pins[seat as usize] = None;
        retain_needed(&mut self.bases, self.current, self.pins.as_slice());
        true
    }

    /// Makes a base of a higher number the current one, and drops those that are neither current nor pinned.
    pub fn install(&mut self, base: B, no: u64)
        requires { self.old.current < no }
        ensures { self.new ≡ after_install self.old no base }
    {
        retain_needed(&mut self.bases, no, self.pins.as_slice());
        self.bases.push_reserved((no, base));
        self.current = no;
    }

    /// Opens a build: pins the current base for a seat that has no pin, and answers its number. None comes exactly where a
    /// build is open; nothing changes then.
    pub fn begin_build(&mut self, seat: u32) -> Option<u64>
        requires seated { seat < length self.old.pins }
        requires free { pin_of self.old seat ≡ None }
        ensures { BuildBegan self.old self.new seat result }
    {
        if self.build.is_some() {
            return None;
        }
        self.build = Some(seat);
        self.pins[seat as usize] = Some(self.current);
        Some(self.current)
    }

    /// Closes the build that this seat has open, and releases the seat's pin.
    pub fn end_build(&mut self, seat: u32)
        requires { self.old.build ≡ Some seat }
        ensures { self.new ≡ after_build self.old seat }
    {
        self.build = None;
        self.pins[seat as usize] = None;
        retain_needed(&mut self.bases, self.current, self.pins.as_slice());
    }

    /// The current base, behind its number. What is listed is the current base and those that are pinned.
    pub fn current(&self) -> (u64, &B)
        ensures number { result.0 ≡ self.now.current }
        ensures base { base_at self.now.current self.now.bases ≡ Some result.1.now }
        ensures whole { IsKept self.now }
    {
        let last = self.bases.len() - 1;
        (self.current, &self.bases[last].1)
    }

    /// How many bases are kept, where an open build counts as one more, and how many seats have a pin.
    pub fn counts(&self) -> (u64, u64)
        ensures kept { result.0 ≡ kept_count self.now }
        ensures listed { length self.now.bases ≡ length (listed_numbers self.now) }
        ensures pins { result.1 ≡ pin_count self.now }
        ensures bound { result.0 ≤ result.1 + 2 }
    {
        let pins = count_pins(self.pins.as_slice());
        let kept = self.bases.len();
        let open = self.build.is_some();
        (kept as u64 + one_if(open), pins as u64)
    }
}
