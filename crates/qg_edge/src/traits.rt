// Sources and sinks of bytes, as the layers above see them.
//
// An object either tells its bytes, as one in memory does, or tells nothing of them, as a file. Each
// equation below says which bytes there are where the object tells them, and that it tells them after
// the call exactly where it did before.
ghost use Rattle.std.specs.Prelude.{◌≡◌, ◌<◌, ◌≤◌, List, ℕ, [], length, take, Option, Some, Err, IfOk, OnOk, OnErr};
ghost use Rattle.std.specs.Io.KnownBytes.{prepend_known, append_known, IsAtEnd};
ghost use Rattle.qg_device.specs.Cause.{HasCause};
ghost use Rattle.qg_edge.specs.Appended.{AppendsFront};

use crate::EdgeFault;

/// Where bytes come from (this project's own).
pub trait Source {
    /// The bytes that were not taken yet, in order; `None` where the source tells nothing of them.
    ghost bytes_left: { Self → Option (List ℕ) };

    /// How many calls of `take` have failed, up to the last number of 64 bits.
    ghost faults: { Self → ℕ };

    /// Moves some of the bytes that are left to the front of the buffer and answers how many, none
    /// exactly at the end of the input. A fault moves none.
    fn take(&mut self, buf: &mut [u8]) -> Result<usize, EdgeFault>
        requires { 0 < length buf.old }
        ensures bound { IfOk result (λ count. count ≤ length buf.new) }

        // What was left is what was moved, and behind it what is left now.
        ensures moved { IfOk result (λ count.
            bytes_left self.old ≡ prepend_known (take count buf.new) (bytes_left self.new)) }
        ensures none_only_at_end { IfOk result (λ count. count ≡ 0 → IsAtEnd (bytes_left self.old)) }
        ensures none_at_end { IfOk result (λ count. bytes_left self.old ≡ Some [] → count ≡ 0) }
        ensures err { OnErr result (bytes_left self.new ≡ bytes_left self.old) }

        // The count of faults rises by one where it answers `Failed`, and stands still where it answers anything else.
        ensures cause { HasCause EdgeFault.Failed (faults self.old) (faults self.new) result };
}

/// Where bytes go (this project's own).
pub trait Sink {
    /// The bytes that were put, in order; `None` where the sink tells nothing of them.
    ghost bytes_held: { Self → Option (List ℕ) };

    /// How many calls of `put` have failed, up to the last number of 64 bits.
    ghost faults: { Self → ℕ };

    /// Appends the piece. A put that fails appends a front of it, and one for which memory is refused
    /// appends nothing.
    fn put(&mut self, piece: &[u8]) -> Result<(), EdgeFault>
        ensures ok { OnOk result (bytes_held self.new ≡ append_known (bytes_held self.old) piece.now) }
        ensures failed { result ≡ Err EdgeFault.Failed →
            AppendsFront (bytes_held self.old) (bytes_held self.new) piece.now }
        ensures no_memory { result ≡ Err EdgeFault.NoMemory → bytes_held self.new ≡ bytes_held self.old }

        // The count of faults rises by one where it answers `Failed`, and stands still where it answers anything else.
        ensures cause { HasCause EdgeFault.Failed (faults self.old) (faults self.new) result };
}
