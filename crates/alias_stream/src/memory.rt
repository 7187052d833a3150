//! A source and a sink in memory, in pieces and with failures as planned.
ghost use Rattle.std.specs.Prelude.{ℕ, ◌≡◌, ◌+◌, ◌<◌, ◌≤◌, ◌↔◌, ◌++◌, min, Bool, false, List, [], Option, Some, Err, length, take, IfOk, OnErr, IsTrue, is_err};
ghost use Rattle.alias_stream.specs.declared.sink.SinkStop.{SinkStop};
ghost use Rattle.alias_stream.specs.Streams.{Takes, IsAtEnd, Adds, HasFailed};
ghost use Rattle.alias_base.specs.failures.Failures.{new_plan, fails_now, called};
ghost use Rattle.alias_stream.specs.Memory.{Feed, Store};

use crate::sink::{Sink, SinkStop};
use crate::source::{Failed, Source};
use alias_base::List as Items;
use alias_base::failures::PlannedFailures;
use std::alloc::Global;
use std::marker::Model;

/// Bytes in memory, which are read in pieces of at most a given size, with failures as planned.
#[derive(Drop)]
pub struct MemorySource {
    bytes: Items<u8>,
    at: usize,
    piece: usize,
    calls: PlannedFailures,
}

impl Model for MemorySource {
    ghost use Rattle.std.specs.Prelude.{◌≤◌, length, drop};
    ghost use Rattle.alias_stream.specs.Memory.{Feed};

    ghost Value = { Feed };

    ghost view = { λ s. record { left = drop s.at s.bytes; piece = s.piece; plan = s.calls } };

    ghost invariant = { λ s. record { within : s.at ≤ length s.bytes; some : 1 ≤ s.piece } };
}

impl MemorySource {
    ghost use Rattle.alias_base.specs.failures.Failures.{new_plan};

    /// A source of these bytes. A read takes at most `piece` of them. The reads whose number is in `fails`
    /// fail, where the first read has number 1.
    pub fn new(bytes: Items<u8>, piece: usize, fails: Items<u64>) -> MemorySource
        requires { 1 ≤ piece }
        ensures { result ≡ record { left = bytes; piece = piece; plan = new_plan fails } }
    {
        MemorySource {
            bytes,
            at: 0,
            piece,
            calls: PlannedFailures::new(fails),
        }
    }
}

impl Source for MemorySource {
    ghost left = { λ s. Some s.left };

    ghost faults = { λ s. s.plan.faults };

    ghost at_last = { λ _. false };

    /// Takes as many bytes as there are, as `buf` has room for, and as a piece has. The reads that are planned
    /// to fail fail, and no others.
    fn read(&mut self, buf: &mut [u8]) -> Result<usize, Failed>
        ensures fails { is_err result ≡ fails_now self.old.plan }
        ensures counted { self.new.plan ≡ called self.old.plan }
        ensures piece { self.new.piece ≡ self.old.piece }
        ensures most { IfOk result (λ n. n ≡ min (min (length buf.old) self.old.piece) (length self.old.left)) }
        ensures count { IfOk result (λ n. n ≤ length buf.new) }
        ensures taken { IfOk result (λ n. Takes (Some self.old.left) (take n buf.new) (Some self.new.left)) }
        ensures end { IfOk result (λ n. n ≡ 0 → 0 < length buf.new → self.old.left ≡ []) }
        ensures kept { OnErr result (self.new.left ≡ self.old.left) }
    {
        if self.calls.fails_now() {
            return Err(Failed);
        }
        let rest = self.bytes.len() - self.at;
        let count = buf.len().min(self.piece).min(rest);
        buf[..count].copy_from_slice(&self.bytes.as_slice()[self.at..self.at + count]);
        self.at += count;
        Ok(count)
    }
}

/// Bytes in memory, which are written in pieces of at most a given size, with failures as planned.
#[derive(Drop)]
pub struct MemorySink {
    held: Vec<u8>,
    piece: usize,
    calls: PlannedFailures,
}

impl Model for MemorySink {
    ghost use Rattle.std.specs.Prelude.{◌≤◌};
    ghost use Rattle.alias_stream.specs.Memory.{Store};

    ghost Value = { Store };

    ghost view = { λ s. record { held = s.held.items; piece = s.piece; plan = s.calls } };

    ghost invariant = { λ s. 1 ≤ s.piece };
}

impl MemorySink {
    ghost use Rattle.alias_base.specs.failures.Failures.{new_plan};

    /// A sink that holds nothing. A write adds at most `piece` bytes. The writes whose number is in `fails`
    /// fail, where the first write has number 1. Takes no memory.
    pub fn new(alloc: Global, piece: usize, fails: Items<u64>) -> MemorySink
        requires { 1 ≤ piece }
        ensures { result ≡ record { held = []; piece = piece; plan = new_plan fails } }
    {
        MemorySink {
            held: Vec::new(alloc),
            piece,
            calls: PlannedFailures::new(fails),
        }
    }

    /// What it holds.
    pub fn bytes(&self) -> &[u8]
        ensures { result.now ≡ self.now.held }
    {
        self.held.as_slice()
    }
}

impl Sink for MemorySink {
    ghost held = { λ s. Some s.held };

    ghost faults = { λ s. s.plan.faults };

    ghost at_last = { λ _. false };

    /// Adds as many bytes as there are and as a piece has. The writes that are planned to fail fail, and of
    /// the others only those that want memory.
    fn write(&mut self, piece: &[u8]) -> Result<usize, SinkStop>
        ensures fails { IsTrue (fails_now self.old.plan) ↔ (result ≡ Err SinkStop.Failed) }
        ensures counted { self.new.plan ≡ called self.old.plan }
        ensures piece { self.new.piece ≡ self.old.piece }
        ensures most { IfOk result (λ n. n ≡ min (length piece.now) self.old.piece) }
        ensures some { IfOk result (λ n. 0 < length piece.now → 0 < n) }
        ensures added { IfOk result (λ n. self.new.held ≡ self.old.held ++ take n piece.now) }
        ensures kept { OnErr result (self.new.held ≡ self.old.held) }
    {
        if self.calls.fails_now() {
            return Err(SinkStop::Failed);
        }
        let count = piece.len().min(self.piece);
        self.held.extend_from_slice(&piece[..count])?;
        Ok(count)
    }
}
