// The calls that a disk in memory answered, and what it holds by them.
#![tactic(auto, unfolding(crate::specs::Call::history_of, crate::specs::Call::size_of))]

ghost use Rattle.std.specs.Prelude.{◌≡◌, ◌+◌, ◌≤◌, All, List, [], ◌∷◌, ◌++◌, length, IfOk, OnOk, OnErr};
ghost use Rattle.qg_device.specs.History.{Event, content, range};
ghost use Rattle.qg_disk.specs.Call.{after_request, history_of, size_of, Fits};

use crate::fill::fill;
use crate::{Bytes, Call, Request};
use std::alloc::{AllocError, Global};
use std::marker::Model;

/// The calls, the oldest first. A contract sees the list of them.
#[derive(Drop)]
pub struct Calls {
    alloc: Global,
    calls: Vec<Call>,
    // How many bytes the disk has by them.
    size: u64,
}

impl Model for Calls {
    ghost use Rattle.std.specs.Prelude.{◌≡◌, All, List};
    ghost use Rattle.qg_disk.specs.Call.{size_of, Fits};
    ghost use Rattle.qg_disk.specs.declared.call.Call.{Call};

    ghost Value = { List Call };

    ghost view = { λ c. c.calls.items };

    ghost invariant = { λ c. (c.size ≡ size_of c.calls.items)
        × All (λ call. Fits call.request) c.calls.items };
}

impl Calls {
    /// No calls yet.
    pub fn new(alloc: Global) -> Calls
        ensures { result ≡ [] }
    {
        Calls {
            alloc,
            calls: Vec::new(alloc),
            size: 0,
        }
    }

    /// All of them, the oldest first.
    pub fn all(&self) -> &[Call]
        ensures calls { result.now ≡ self.now }
        ensures fit { All (λ call. Fits call.request) result.now }
    {
        &self.calls
    }

    /// How many bytes the disk has by them.
    pub fn size(&self) -> u64
        ensures { result ≡ size_of self.now }
    {
        self.size
    }

    /// Fills the buffer with what the disk holds from `at` on.
    pub fn read(&self, at: u64, buf: &mut [u8])
        requires { at + length buf.old ≤ size_of self.now }
        ensures { buf.new ≡ range at (length buf.old) (content (history_of self.now)) }
    {
        let _size = self.size;
        fill(&self.calls, at, buf);
    }

    /// A copy of bytes that are to be written.
    pub fn copied(&self, bytes: &[u8]) -> Result<Bytes, AllocError>
        ensures { IfOk result (λ copy. copy ≡ bytes.now) }
    {
        Bytes::copied(self.alloc, bytes)
    }

    /// Adds a call, which failed or not.
    pub fn add(&mut self, request: Request, failed: bool) -> Result<(), AllocError>
        requires { Fits request }
        ensures ok { OnOk result (self.new
            ≡ self.old ++ record { request = request; failed = failed } ∷ []) }
        ensures err { OnErr result (self.new ≡ self.old) }
    {
        let size = size_after(self.size, &request, failed);
        self.calls.push(Call { request, failed })?;
        self.size = size;
        Ok(())
    }
}

// How many bytes a disk has after a request, of those that it had before.
fn size_after(size: u64, request: &Request, failed: bool) -> u64
    requires { Fits request.now }
    ensures { (older : List Event) → size ≡ length (content older)
        → result ≡ length (content (after_request request.now failed older)) }
{
    match request {
        Request::Write { at, bytes } => {
            let count = bytes.as_slice().len() as u64;
            if !failed {
                size.max(at + count)
            } else if count < 2 {
                size
            } else {
                size.max(at + count / 2)
            }
        }
        Request::Cut { len } => size.min(*len),
        Request::Read { .. } | Request::Sync => size,
    }
}
