// Three slots over files in memory.
ghost use Rattle.std.specs.Prelude.{◌≡◌, ℕ, ◌<◌, ◌≤◌, List, None, true, length, take};
ghost use Rattle.std.specs.Io.KnownBytes.{Consumes, IsAtEnd};
ghost use Rattle.outside_io.specs.Slots.{Same};

use crate::opened::Opened;

/// What stands at a slot.
#[derive(Drop)]
pub enum Place {
    /// It was not asked.
    Free,
    /// It was asked for this name, and was refused.
    Refused(String),
    Open(Opened),
}

impl Place {
    ghost use Rattle.outside_io.specs.Places.{name_at, is_open, left_at, GivesMost};

    /// Reads from what stands here, which gives nothing where it is not open.
    pub fn read(&mut self, into: &mut [u8]) -> usize
        ensures bound { result ≤ length into.new }
        ensures bytes { Consumes (left_at self.old) (left_at self.new) (take result into.new) }
        ensures end { result ≡ 0 → 0 < length into.new → IsAtEnd (left_at self.new) }
        ensures most { GivesMost (left_at self.old) (length into.new) result }
        ensures name { name_at self.new ≡ name_at self.old }
        ensures open { is_open self.new ≡ is_open self.old }
    {
        match self {
            Place::Open(opened) => opened.next(into),
            _ => 0,
        }
    }
}

#[derive(Drop)]
pub struct Slots {
    first: Place,
    second: Place,
    third: Place,
}

impl Slots {
    ghost use Rattle.outside_io.specs.Places.{place_of, name_at, is_open, left_at, GivesMost};

    pub fn new() -> Slots
        ensures { (q : ℕ) → name_at (place_of result q) ≡ None }
    {
        Slots {
            first: Place::Free,
            second: Place::Free,
            third: Place::Free,
        }
    }

    /// Puts this at a slot.
    pub fn set(&mut self, slot: usize, place: Place)
        requires { slot < 3 }
        ensures here { place_of self.new slot ≡ place }
        ensures others { Same slot (place_of self.old) (place_of self.new) }
    {
        match slot {
            0 => self.first = place,
            1 => self.second = place,
            2 => self.third = place,
            _ => unreachable!(),
        }
    }

    /// Reads from a slot, which gives nothing where it is not open.
    pub fn read(&mut self, slot: usize, into: &mut [u8]) -> usize
        requires { slot < 3 }
        ensures bound { result ≤ length into.new }
        ensures bytes { Consumes (left_at (place_of self.old slot)) (left_at (place_of self.new slot)) (take result into.new) }
        ensures end { result ≡ 0 → 0 < length into.new → IsAtEnd (left_at (place_of self.new slot)) }
        ensures most { GivesMost (left_at (place_of self.old slot)) (length into.new) result }
        ensures name { name_at (place_of self.new slot) ≡ name_at (place_of self.old slot) }
        ensures open { is_open (place_of self.new slot) ≡ is_open (place_of self.old slot) }
        ensures others { Same slot (place_of self.old) (place_of self.new) }
    {
        match slot {
            0 => self.first.read(into),
            1 => self.second.read(into),
            2 => self.third.read(into),
            _ => unreachable!(),
        }
    }
}
