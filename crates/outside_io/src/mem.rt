// A shelf and a sink in memory that fail at chosen calls.
ghost use Rattle.std.specs.Prelude.{◌≡◌, ◌≢◌, ◌<◌, ◌≤◌, ℕ, List, [], ◌++◌, None, Some, true, length, slice_set};
ghost use Rattle.std.specs.Prelude.{IsTrue, IsErr, IsErrOf, IsOk, IfOk, OnOk, OnErr};
ghost use Rattle.std.proofs.Common.{rules};
ghost use Rattle.outside_io.specs.Causes.{next_count};
ghost use Rattle.outside_io.specs.Places.{GivesMost};
ghost use Rattle.outside_io.specs.Shelf.{Attaches, IsFresh, Reads};
ghost use Rattle.outside_io.specs.Sink.{PutsSome};
ghost use Rattle.outside_io.specs.Slots.{Same};

use crate::files::Files;
use crate::opened::Opened;
use crate::slots::{Place, Slots};
use crate::{GetFault, PutFault, Shelf, Sink, SureSink};
use std::alloc::{AllocError, Global};

/// A sink that takes whole pieces, and fails at chosen calls.
#[derive(Drop)]
pub struct MemSink {
    sink: SureSink,
    fails: Vec<u64>,
    calls: u64,
    faults: u64,
}

impl MemSink {
    ghost use Rattle.outside_io.specs.Mem.{held_of, puts_of, failing_puts_of, mem_sink, put_is_due};

    /// An empty sink, whose `put` fails where the number of the call, from 1, is one of `fails`.
    pub fn of(alloc: Global, fails: &[u64]) -> Result<MemSink, AllocError>
        ensures empty { IfOk result (λ s. held_of s ≡ []) }
        ensures fails { IfOk result (λ s. failing_puts_of s ≡ fails.now) }
        ensures calls { IfOk result (λ s. puts_of s ≡ 0) }
        ensures no_faults { IfOk result (λ s. (mem_sink s).faults ≡ 0) }
        ensures no_wants { IfOk result (λ s. (mem_sink s).wants ≡ 0) }
    {
        Ok(MemSink {
            sink: SureSink::of(alloc),
            fails: fails.to_vec(alloc)?,
            calls: 0,
            faults: 0,
        })
    }

    /// The bytes taken so far.
    pub fn held(&self) -> &[u8]
        ensures { result.now ≡ held_of self.now }
    {
        self.sink.held()
    }

    // Counts a call of `put`, and tells whether it is to fail.
    fn count(&mut self) -> bool
        ensures due { result ≡ put_is_due self.old }
        ensures counted { self.new ≡ record self.old { calls = next_count (puts_of self.old) } }
    {
        self.calls = self.calls.saturating_add(1);
        self.fails.contains(&self.calls)
    }
}

impl Sink for MemSink {
    ghost use Rattle.outside_io.specs.Mem.{held_of, puts_of, failing_puts_of, mem_sink, put_is_due};

    ghost state = { mem_sink };

    fn put(&mut self, piece: &[u8]) -> Result<usize, PutFault>
        ensures due { IsTrue (put_is_due self.old) → IsErrOf result PutFault.Failed }
        ensures not_due { ¬ IsTrue (put_is_due self.old) → ¬ IsErrOf result PutFault.Failed }
        ensures puts { PutsSome piece.now (mem_sink self.old) result (mem_sink self.new) }
        ensures whole { IfOk result (λ n. n ≡ length piece.now) }
        ensures bytes { OnOk result (held_of self.new ≡ held_of self.old ++ piece.now) }
        ensures calls { puts_of self.new ≡ next_count (puts_of self.old) }
        ensures fails { failing_puts_of self.new ≡ failing_puts_of self.old }
        ensures calm { OnOk result ((mem_sink self.new).faults ≡ (mem_sink self.old).faults) }
    {
        if self.count() {
            self.faults = self.faults.saturating_add(1);
            return Err(PutFault::Failed);
        }
        self.sink.put(piece)
    }
}

/// A shelf that fails at chosen calls, and where a name is unknown.
#[derive(Drop)]
pub struct MemShelf {
    alloc: Global,
    files: Files,
    slots: Slots,
    fails: Vec<(usize, u64)>,
    calls: [u64; 3],
    faults: [u64; 3],
}

impl MemShelf {
    ghost use Rattle.outside_io.specs.Mem.{mem_shelf, calls_of, fails_of, is_due};

    /// A shelf with no files. A call fails where its slot and its number on that slot, from 1 with `attach`, are one of `fails`.
    pub fn of(alloc: Global, fails: &[(usize, u64)]) -> Result<MemShelf, AllocError>
        ensures files { IfOk result (λ s. (n : List ℕ) → (mem_shelf s).file n ≡ None) }
        ensures fresh { IfOk result (λ s. IsFresh (mem_shelf s)) }
        ensures fails { IfOk result (λ s. fails_of s ≡ fails.now) }
        ensures calls { IfOk result (λ s. (q : ℕ) → calls_of s q ≡ 0) }
        ensures faults { IfOk result (λ s. (q : ℕ) → ((mem_shelf s).slot q).faults ≡ 0) }
    {
        Ok(MemShelf {
            alloc,
            files: Files::new(alloc),
            slots: Slots::new(),
            fails: fails.to_vec(alloc)?,
            calls: [0; 3],
            faults: [0; 3],
        })
    }

    /// Makes these bytes the file of this name.
    pub fn add(&mut self, name: &str, bytes: &[u8]) -> Result<(), AllocError>
        requires { IsFresh (mem_shelf self.old) }
        ensures added { OnOk result ((mem_shelf self.new).file name.now ≡ Some bytes.now) }
        ensures others { OnOk result ((n : List ℕ) → n ≢ name.now → (mem_shelf self.new).file n ≡ (mem_shelf self.old).file n) }
        ensures err { OnErr result ((n : List ℕ) → (mem_shelf self.new).file n ≡ (mem_shelf self.old).file n) }
        ensures fresh { IsFresh (mem_shelf self.new) }
        ensures fails { fails_of self.new ≡ fails_of self.old }
        ensures calls { (q : ℕ) → calls_of self.new q ≡ calls_of self.old q }
        ensures slots { (q : ℕ) → (mem_shelf self.new).slot q ≡ (mem_shelf self.old).slot q }
    {
        self.files.add(self.alloc, name, bytes)
    }

    // Counts a call on a slot, and tells whether it is to fail.
    fn count(&mut self, slot: usize) -> bool
        requires { slot < 3 }
        ensures due { result ≡ is_due self.old slot }
        ensures counted { self.new
            ≡ record self.old { calls = slice_set self.old.calls slot (next_count (calls_of self.old slot)) } }
    {
        let number = self.calls[slot].saturating_add(1);
        self.calls[slot] = number;
        self.fails.iter().any(|f| f.0 == slot && f.1 == number)
    }

    // Counts a fault of a slot.
    fn fail(&mut self, slot: usize) -> GetFault
        requires { slot < 3 }
        ensures fault { result ≡ GetFault.Failed }
        ensures later { ((mem_shelf self.old).slot slot).faults ≤ ((mem_shelf self.new).slot slot).faults }
        ensures counted { self.new
            ≡ record self.old { faults = slice_set self.old.faults slot (next_count ((mem_shelf self.old).slot slot).faults) } }
    {
        self.faults[slot] = self.faults[slot].saturating_add(1);
        GetFault::Failed
    }
}

impl Shelf for MemShelf {
    ghost use Rattle.outside_io.specs.Mem.{mem_shelf, calls_of, fails_of, is_due, fails_to_open};

    ghost state = { mem_shelf };

    ghost attached_was_asked = { λ s q. Prim.search rules };

    fn attach(&mut self, slot: usize, name: &str) -> Result<(), GetFault>
        requires slot { slot < 3 }
        requires fresh { ((mem_shelf self.old).slot slot).asked ≡ None }
        ensures due { IsTrue (fails_to_open self.old slot name.now) → IsErr result }
        ensures not_due { ¬ IsTrue (fails_to_open self.old slot name.now) → ¬ IsErrOf result GetFault.Failed }
        ensures attaches { Attaches slot name.now (mem_shelf self.old) result (mem_shelf self.new) }
        ensures calls { calls_of self.new slot ≡ next_count (calls_of self.old slot) }
        ensures other_calls { Same slot (calls_of self.old) (calls_of self.new) }
        ensures fails { fails_of self.new ≡ fails_of self.old }
        ensures calm { OnOk result (((mem_shelf self.new).slot slot).faults ≡ ((mem_shelf self.old).slot slot).faults) }
    {
        let due = self.count(slot);
        let copy = match String::from_str(self.alloc, name) {
            Ok(copy) => copy,
            Err(AllocError) => return Err(GetFault::Memory),
        };
        let bytes = match self.files.find(name) {
            Some(bytes) if !due => bytes,
            _ => {
                self.slots.set(slot, Place::Refused(copy));
                return Err(self.fail(slot));
            }
        };
        match bytes.to_vec(self.alloc) {
            Ok(bytes) => {
                self.slots.set(slot, Place::Open(Opened::new(copy, bytes)));
                Ok(())
            }
            Err(AllocError) => Err(GetFault::Memory),
        }
    }

    fn next(&mut self, slot: usize, into: &mut [u8]) -> Result<usize, GetFault>
        requires slot { slot < 3 }
        requires attached { ((mem_shelf self.old).slot slot).attached ≡ true }
        ensures due { IsTrue (is_due self.old slot) → result ≡ Err GetFault.Failed }
        ensures not_due { ¬ IsTrue (is_due self.old slot) → IsOk result }
        ensures most { IfOk result (λ n. GivesMost ((mem_shelf self.old).slot slot).rest (length into.new) n) }
        ensures reads { Reads slot (mem_shelf self.old) result into.new (mem_shelf self.new) }
        ensures calls { calls_of self.new slot ≡ next_count (calls_of self.old slot) }
        ensures other_calls { Same slot (calls_of self.old) (calls_of self.new) }
        ensures fails { fails_of self.new ≡ fails_of self.old }
        ensures calm { OnOk result (((mem_shelf self.new).slot slot).faults ≡ ((mem_shelf self.old).slot slot).faults) }
    {
        if self.count(slot) {
            return Err(self.fail(slot));
        }
        Ok(self.slots.read(slot, into))
    }
}
