// A source and a sink over std's readers and writers.
//
// They tell nothing of their bytes, since no clause can say what a file gives or takes. Where a reader
// or a writer itself tells which bytes it has, a clause here says what a call does to those.
ghost use Rattle.std.specs.Prelude.{◌≡◌, ◌<◌, ◌≤◌, length, None, IfOk, OnOk, OnErr, IsOkUnless};
ghost use Rattle.std.specs.Io.{ReadsAtMost};
ghost use Rattle.std.specs.Io.KnownBytes.{Appends, ReadConsumes};
ghost use Rattle.qg_device.specs.Cause.{HasCause};
ghost use Rattle.qg_edge.specs.Appended.{WritesFront};
ghost use Rattle.qg_edge.specs.Calls.{raised};

use crate::{EdgeFault, Sink, Source};
use std::io;
use std::io::{ErrorKind, Read, Write};

// Reads once, and again where the read was interrupted.
fn read_once<R: Read>(reader: &mut R, buf: &mut [u8]) -> io::Result<usize>
    ensures bound { ReadsAtMost result buf.new }
    ensures bytes { ReadConsumes (R.remaining reader.old) (R.remaining reader.new) result buf.new }
{
    'reads: for _ in 0..u64::MAX {
        match reader.read(buf) {
            Err(error) if error.kind() == ErrorKind::Interrupted => {}
            answer => return answer,
        }
    }
    Err(io::Error::from(ErrorKind::Interrupted))
}

// Writes the piece to its end, again where a write was interrupted, and flushes. A write of no bytes
// is an error.
fn write_whole<W: Write>(writer: &mut W, piece: &[u8]) -> io::Result<()>
    ensures ok { OnOk result (Appends (W.contents writer.old) (W.contents writer.new) piece.now) }
    ensures err { OnErr result (WritesFront (W.contents writer.old) (W.contents writer.new) piece.now) }
{
    let mut rest = piece;
    'writes: for _ in 0..u64::MAX {
        if rest.is_empty() {
            writer.flush()?;
            return Ok(());
        }
        match writer.write(rest) {
            Ok(count) if count > 0 => rest = &rest[count..],
            Ok(_) => return Err(io::Error::from(ErrorKind::WriteZero)),
            Err(error) if error.kind() == ErrorKind::Interrupted => {}
            Err(error) => return Err(error),
        }
    }
    Err(io::Error::from(ErrorKind::Interrupted))
}

/// A source over a reader, as a file or standard input (this project's own).
#[derive(Drop)]
pub struct StdSource<R> {
    reader: R,
    faults: u64,
}

impl<R: Read> StdSource<R> {
    ghost use Rattle.qg_edge.specs.StdSource.{reader_of, source_faults};

    /// A source over this reader, which has not failed yet.
    pub fn new(reader: R) -> StdSource<R>
        ensures reader { reader_of result ≡ reader }
        ensures faults { source_faults result ≡ 0 }
    {
        StdSource { reader, faults: 0 }
    }
}

impl<R: Read> Source for StdSource<R> {
    ghost use Rattle.qg_edge.specs.StdSource.{reader_of, source_faults};

    ghost bytes_left = { λ _. None };

    ghost faults = { source_faults };

    /// Reads once into the buffer, and again where the read was interrupted. Each other error of the
    /// reader is a fault. It takes no memory.
    fn take(&mut self, buf: &mut [u8]) -> Result<usize, EdgeFault>
        requires { 0 < length buf.old }
        ensures bound { IfOk result (λ count. count ≤ length buf.new) }
        ensures bytes { ReadConsumes
            (R.remaining (reader_of self.old)) (R.remaining (reader_of self.new)) result buf.new }

        ensures only { IsOkUnless result EdgeFault.Failed }
        ensures ok_faults { OnOk result (source_faults self.new ≡ source_faults self.old) }
        ensures err_faults { OnErr result (source_faults self.new ≡ raised (source_faults self.old)) }
        ensures cause { HasCause EdgeFault.Failed (source_faults self.old) (source_faults self.new) result }
    {
        match read_once(&mut self.reader, buf) {
            Ok(count) => Ok(count),
            Err(_) => {
                self.faults = self.faults.saturating_add(1);
                Err(EdgeFault::Failed)
            }
        }
    }
}

/// A sink over a writer, as a file or standard output (this project's own).
#[derive(Drop)]
pub struct StdSink<W> {
    writer: W,
    faults: u64,
}

impl<W: Write> StdSink<W> {
    ghost use Rattle.qg_edge.specs.StdSink.{writer_of, sink_faults};

    /// A sink over this writer, which has not failed yet.
    pub fn new(writer: W) -> StdSink<W>
        ensures writer { writer_of result ≡ writer }
        ensures faults { sink_faults result ≡ 0 }
    {
        StdSink { writer, faults: 0 }
    }
}

impl<W: Write> Sink for StdSink<W> {
    ghost use Rattle.qg_edge.specs.StdSink.{writer_of, sink_faults};

    ghost bytes_held = { λ _. None };

    ghost faults = { sink_faults };

    /// Writes the piece to its end, again where a write was interrupted, and flushes. Each other error
    /// of the writer is a fault, and so is a write of no bytes. It takes no memory.
    fn put(&mut self, piece: &[u8]) -> Result<(), EdgeFault>
        ensures ok { OnOk result
            (Appends (W.contents (writer_of self.old)) (W.contents (writer_of self.new)) piece.now) }
        ensures err { OnErr result
            (WritesFront (W.contents (writer_of self.old)) (W.contents (writer_of self.new)) piece.now) }

        ensures only { IsOkUnless result EdgeFault.Failed }
        ensures ok_faults { OnOk result (sink_faults self.new ≡ sink_faults self.old) }
        ensures err_faults { OnErr result (sink_faults self.new ≡ raised (sink_faults self.old)) }
        ensures cause { HasCause EdgeFault.Failed (sink_faults self.old) (sink_faults self.new) result }
    {
        match write_whole(&mut self.writer, piece) {
            Ok(()) => Ok(()),
            Err(_) => {
                self.faults = self.faults.saturating_add(1);
                Err(EdgeFault::Failed)
            }
        }
    }
}
