// A source and a sink in memory that take a few bytes a call, and fail at given calls.
ghost use Rattle.std.specs.Prelude.{◌≡◌, ◌↔◌, ◌<◌, ◌≤◌, ◌++◌, ℕ, [], Some, length, take, drop, min, IfOk, IsErr, IsErrOf, OnOk, OnErr, Err};
ghost use Rattle.std.specs.Io.{ReadsAtMost, WritesAtMost};
ghost use Rattle.std.specs.Io.KnownBytes.{ReadConsumes, WriteAppends};
ghost use Rattle.mon_io.specs.Faults.{Rose};
ghost use Rattle.mon_io.specs.Memory.{Given, Taken, IsToFail, unused, after_call, after_fault};

use crate::calls::Calls;
use crate::{Failed, Sink, SinkFault, Source, SureSink, SureSource};
use std::alloc::Global;
use std::marker::Model;

/// A source that gives at most `per_call` bytes a call, and fails at the calls of given numbers, from 1.
#[derive(Drop)]
pub struct MemSource {
    bytes: SureSource,
    per_call: usize,
    calls: Calls,
}

impl Model for MemSource {
    ghost Value = { Given };

    ghost view = { λ s. record { left = s.bytes; per_call = s.per_call; calls = s.calls } };

    ghost invariant = { λ s. 1 ≤ s.per_call };
}

impl MemSource {
    pub fn new(bytes: Vec<u8>, per_call: usize, fails: Vec<u64>) -> Self
        requires { 1 ≤ per_call }
        ensures { result ≡ record { left = bytes.items; per_call = per_call; calls = unused fails.items } }
    {
        MemSource {
            bytes: SureSource::new(bytes),
            per_call,
            calls: Calls::new(fails),
        }
    }
}

impl Source for MemSource {
    ghost told = { λ s. Some s.left };

    ghost faults = { λ s. s.calls.faults };

    fn read(&mut self, buf: &mut [u8]) -> Result<usize, Failed>
        ensures bound { ReadsAtMost result buf.new }
        ensures bytes { ReadConsumes (Some self.old.left) (Some self.new.left) result buf.new }
        ensures later { self.old.calls.faults ≤ self.new.calls.faults }
        ensures cause { OnErr result (Rose self.old.calls.faults self.new.calls.faults) }

        // It fails at the given calls, and else it gives as much as it may.
        ensures fails { IsErr result ↔ IsToFail self.old.calls }
        ensures count { IfOk result (λ n. n ≡ min self.old.per_call (min (length buf.old) (length self.old.left))) }
        ensures buf { IfOk result (λ n. buf.new ≡ take n self.old.left ++ drop n buf.old) }
        ensures ok { IfOk result (λ n. self.new ≡ record self.old { left = drop n self.old.left; calls = after_call self.old.calls }) }
        ensures err { OnErr result (self.new ≡ record self.old { calls = after_fault self.old.calls }) }
        ensures err_buf { OnErr result (buf.new ≡ buf.old) }
    {
        if self.calls.is_to_fail() {
            self.calls.count_fault();
            return Err(Failed);
        }
        self.calls.count();
        let room = buf.len().min(self.per_call);
        self.bytes.read(&mut buf[..room])
    }
}

/// A sink that takes at most `per_call` bytes a call, and fails at the calls of given numbers, from 1.
#[derive(Drop)]
pub struct MemSink {
    bytes: SureSink,
    per_call: usize,
    calls: Calls,
}

impl Model for MemSink {
    ghost Value = { Taken };

    ghost view = { λ s. record { bytes = s.bytes; per_call = s.per_call; calls = s.calls } };

    ghost invariant = { λ s. 1 ≤ s.per_call };
}

impl MemSink {
    pub fn new(alloc: Global, per_call: usize, fails: Vec<u64>) -> Self
        requires { 1 ≤ per_call }
        ensures { result ≡ record { bytes = []; per_call = per_call; calls = unused fails.items } }
    {
        MemSink {
            bytes: SureSink::new(alloc),
            per_call,
            calls: Calls::new(fails),
        }
    }

    /// The bytes taken so far.
    pub fn bytes(&self) -> &[u8]
        ensures { result.now ≡ self.now.bytes }
    {
        self.bytes.bytes()
    }
}

impl Sink for MemSink {
    ghost taken = { λ s. Some s.bytes };

    ghost faults = { λ s. s.calls.faults };

    fn write(&mut self, piece: &[u8]) -> Result<usize, SinkFault>
        ensures bound { WritesAtMost result piece.now }
        ensures some { IfOk result (λ n. 0 < length piece.now → 0 < n) }
        ensures bytes { WriteAppends (Some self.old.bytes) (Some self.new.bytes) result piece.now }
        ensures later { self.old.calls.faults ≤ self.new.calls.faults }
        ensures cause { IsErrOf result SinkFault.Failed → Rose self.old.calls.faults self.new.calls.faults }

        // It fails at the given calls, and else it takes as much as it may, if there is memory for it.
        ensures fails { IsErrOf result SinkFault.Failed ↔ IsToFail self.old.calls }
        ensures count { IfOk result (λ n. n ≡ min self.old.per_call (length piece.now)) }
        ensures ok { IfOk result (λ n. self.new ≡ record self.old { bytes = self.old.bytes ++ take n piece.now; calls = after_call self.old.calls }) }
        ensures failed { IsErrOf result SinkFault.Failed → self.new ≡ record self.old { calls = after_fault self.old.calls } }
        ensures memory { IsErrOf result SinkFault.Memory → self.new ≡ record self.old { calls = after_call self.old.calls } }
    {
        if self.calls.is_to_fail() {
            self.calls.count_fault();
            return Err(SinkFault::Failed);
        }
        self.calls.count();
        let room = piece.len().min(self.per_call);
        self.bytes.write(&piece[..room])
    }
}
