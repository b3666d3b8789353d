// A source and a sink in memory that fail where they are told to.
ghost use Rattle.std.specs.Prelude.{◌≡◌, ◌<◌, ◌/◌, ◌++◌, ◌↔◌, [], length, take, drop, min, Err, Some, OnOk, OnErr};
ghost use Rattle.std.specs.Prelude.{IfOk, IsErr, IsOkUnless};
ghost use Rattle.qg_device.specs.Cause.{HasCause};
ghost use Rattle.qg_edge.specs.Calls.{no_calls, FailsNext, with_call, with_fault};

use crate::plan::Plan;
use crate::{EdgeFault, Sink, Source, SureSink, SureSource};
use std::alloc::Global;
use std::marker::Model;

/// A source in memory whose calls fail where they are told to (this project's own). A contract sees
/// the bytes that were not taken yet, and the calls of `take`.
#[derive(Drop)]
pub struct MemSource {
    source: SureSource,
    takes: Plan,
}

impl Model for MemSource {
    ghost use Rattle.qg_edge.specs.MemSource.{SourceInMemory};

    ghost Value = { SourceInMemory };

    ghost view = { λ s. record { bytes_left = s.source; calls = s.takes } };
}

impl MemSource {
    /// A source of these bytes. None of its calls is to fail.
    pub fn new(bytes: Vec<u8>) -> MemSource
        ensures { result ≡ record { bytes_left = bytes.items; calls = no_calls } }
    {
        let alloc = *bytes.allocator();
        MemSource {
            source: SureSource::new(bytes),
            takes: Plan::new(alloc),
        }
    }

    /// From now on the calls of `take` with these numbers fail, and no others. The first call since
    /// the source was made is 1; once 2^64 - 1 were made, each further one has that number.
    pub fn fail_at(&mut self, calls: Vec<u64>)
        ensures { self.new ≡ record self.old { calls = record self.old.calls { failing = calls.items } } }
    {
        self.takes.fail_at(calls);
    }
}

impl Source for MemSource {
    ghost bytes_left = { λ source. Some source.bytes_left };

    ghost faults = { λ source. source.calls.faults };

    /// Moves as many bytes as are left and have room. It fails exactly where it is told to, and takes
    /// no memory.
    fn take(&mut self, buf: &mut [u8]) -> Result<usize, EdgeFault>
        requires { 0 < length buf.old }
        ensures count { IfOk result (λ count. count ≡ min (length self.old.bytes_left) (length buf.old)) }
        ensures moved { IfOk result (λ count. buf.new ≡ take count self.old.bytes_left ++ drop count buf.old) }
        ensures left { IfOk result (λ count. self.new.bytes_left ≡ drop count self.old.bytes_left) }
        ensures err_left { OnErr result (self.new.bytes_left ≡ self.old.bytes_left) }
        ensures err_buf { OnErr result (buf.new ≡ buf.old) }

        ensures fails { IsErr result ↔ FailsNext self.old.calls }
        ensures only { IsOkUnless result EdgeFault.Failed }
        ensures call { OnOk result (self.new.calls ≡ with_call self.old.calls) }
        ensures fault { OnErr result (self.new.calls ≡ with_fault (with_call self.old.calls)) }
        ensures cause { HasCause EdgeFault.Failed self.old.calls.faults self.new.calls.faults result }
    {
        if self.takes.next_fails() {
            self.takes.count_fault();
            return Err(EdgeFault::Failed);
        }
        self.source.take(buf)
    }
}

/// A sink in memory whose calls fail where they are told to (this project's own). A contract sees the
/// bytes that were put, and the calls of `put`.
#[derive(Drop)]
pub struct MemSink {
    sink: SureSink,
    puts: Plan,
}

impl Model for MemSink {
    ghost use Rattle.qg_edge.specs.MemSink.{SinkInMemory};

    ghost Value = { SinkInMemory };

    ghost view = { λ s. record { bytes_held = s.sink; calls = s.puts } };
}

impl MemSink {
    /// A sink that holds nothing yet. None of its calls is to fail.
    pub fn new(alloc: Global) -> MemSink
        ensures { result ≡ record { bytes_held = []; calls = no_calls } }
    {
        MemSink {
            sink: SureSink::new(alloc),
            puts: Plan::new(alloc),
        }
    }

    /// The bytes that were put, also by calls that failed.
    pub fn bytes(&self) -> &[u8]
        ensures { result.now ≡ self.now.bytes_held }
    {
        self.sink.bytes()
    }

    /// From now on the calls of `put` with these numbers fail, and no others. The first call since the
    /// sink was made is 1; once 2^64 - 1 were made, each further one has that number.
    pub fn fail_at(&mut self, calls: Vec<u64>)
        ensures { self.new ≡ record self.old { calls = record self.old.calls { failing = calls.items } } }
    {
        self.puts.fail_at(calls);
    }
}

impl Sink for MemSink {
    ghost bytes_held = { λ sink. Some sink.bytes_held };

    ghost faults = { λ sink. sink.calls.faults };

    /// Appends the piece. Where it is told to fail it appends the first half, rounded down, and where
    /// memory is refused nothing.
    fn put(&mut self, piece: &[u8]) -> Result<(), EdgeFault>
        ensures ok { OnOk result (self.new.bytes_held ≡ self.old.bytes_held ++ piece.now) }
        ensures half { result ≡ Err EdgeFault.Failed →
            self.new.bytes_held ≡ self.old.bytes_held ++ take (length piece.now / 2) piece.now }
        ensures no_memory { result ≡ Err EdgeFault.NoMemory → self.new.bytes_held ≡ self.old.bytes_held }

        ensures fails { FailsNext self.old.calls → IsErr result }
        ensures fails_only { result ≡ Err EdgeFault.Failed → FailsNext self.old.calls }
        ensures call { IsOkUnless result EdgeFault.NoMemory → self.new.calls ≡ with_call self.old.calls }
        ensures fault { result ≡ Err EdgeFault.Failed → self.new.calls ≡ with_fault (with_call self.old.calls) }
        ensures cause { HasCause EdgeFault.Failed self.old.calls.faults self.new.calls.faults result }
    {
        if self.puts.next_fails() {
            self.sink.put(&piece[..piece.len() / 2])?;
            self.puts.count_fault();
            return Err(EdgeFault::Failed);
        }
        self.sink.put(piece)
    }
}
