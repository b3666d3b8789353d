// Which calls fail and which bytes move: in memory by tables, and over readers, writers, a file and a pipe.
ghost use Rattle.std.specs.Prelude.{◌≤◌, length, IfOk};

use qg_edge::{
    EdgeFault, MemSink, MemSource, Sink, Source, StdSink, StdSource, SureSink, SureSource,
};
use std::io::{ErrorKind, Read, Write};
use std::test::Fail;
use std::{fs, io};

// What one take moves into a buffer of at most eight bytes.
fn take_into<S: Source>(source: &mut S, buf: &mut [u8; 8], room: usize) -> Result<usize, EdgeFault>
    ensures { IfOk result (λ count. count ≤ 8) }
{
    let room = room.clamp(1, 8);
    source.take(&mut buf[..room])
}

#[test]
fn source_in_memory_fails_at_the_calls_that_are_named(rt: HostRuntime) -> Result<(), Fail> {
    let mut source = MemSource::new(b"abcdefgh".to_vec(rt.alloc())?);
    source.fail_at(vec![in rt.alloc(); 2, 5]?);
    let calls: [(usize, Option<&[u8]>); 7] = [
        (3, Some(b"abc")),
        (3, None),
        (3, Some(b"def")),
        (5, Some(b"gh")),
        (5, None),
        (5, Some(b"")),
        (1, Some(b"")),
    ];
    for (room, want) in calls {
        let mut buf = [0u8; 8];
        match take_into(&mut source, &mut buf, room) {
            Ok(count) => assert!(rt; Some(&buf[..count]) == want),
            Err(fault) => assert!(rt; (fault, want) == (EdgeFault::Failed, None)),
        }
    }
    Ok(())
}

#[test]
fn sink_in_memory_keeps_half_at_the_calls_that_are_named(rt: HostRuntime) -> Result<(), Fail> {
    let mut sink = MemSink::new(rt.alloc());
    let calls: [(&[u8], Result<(), EdgeFault>, &[u8]); 5] = [
        (b"ab", Err(EdgeFault::Failed), b"a"),
        (b"cde", Ok(()), b"acde"),
        (b"fghij", Err(EdgeFault::Failed), b"acdefg"),
        (b"", Ok(()), b"acdefg"),
        (b"k", Err(EdgeFault::Failed), b"acdefg"),
    ];
    sink.fail_at(vec![in rt.alloc(); 5, 1, 3]?);
    for (piece, want, held) in calls {
        assert!(rt; sink.put(piece) == want);
        assert!(rt; sink.bytes() == held);
    }
    sink.fail_at(vec![in rt.alloc(); 1, 7]?);
    assert!(rt; sink.put(b"lm") == Ok(()));
    assert!(rt; sink.put(b"no") == Err(EdgeFault::Failed));
    assert!(rt; sink.bytes() == b"acdefglmn".as_slice());
    Ok(())
}

#[test]
fn sure_ones_never_fail(rt: HostRuntime) -> Result<(), Fail> {
    let mut sink = SureSink::new(rt.alloc());
    let mut source = SureSource::new(b"0123456789".to_vec(rt.alloc())?);
    for want in [8, 2, 0] {
        let mut buf = [0u8; 8];
        assert!(rt; source.take(&mut buf) == Ok(want));
        assert!(rt; sink.put(&buf[..want]) == Ok(()));
    }
    assert!(rt; sink.bytes() == b"0123456789".as_slice());
    Ok(())
}

// What a reader or a writer does at one call.
#[derive(Clone, Copy)]
enum Turn {
    Moves(usize),
    Fails(ErrorKind),
}

// Gives its text as its turns say, and is then at its end.
#[derive(Drop)]
struct TurnReader<'a> {
    turns: &'a [Turn],
    text: &'a [u8],
}

impl<'a> Read for TurnReader<'a> {
    fn read(&mut self, buf: &mut [u8]) -> io::Result<usize> {
        let Some((turn, turns)) = self.turns.split_first() else {
            return Ok(0);
        };
        self.turns = turns;
        match *turn {
            Turn::Fails(kind) => Err(io::Error::from(kind)),
            Turn::Moves(most) => {
                let count = most.min(buf.len()).min(self.text.len());
                let (front, rest) = self.text.split_at(count);
                buf[..count].copy_from_slice(front);
                self.text = rest;
                Ok(count)
            }
        }
    }
}

// Takes what it is given as its turns say, and then all of it.
#[derive(Drop)]
struct TurnWriter<'a> {
    turns: &'a [Turn],
    held: Vec<u8>,
    flush: Result<(), ErrorKind>,
}

impl<'a> Write for TurnWriter<'a> {
    fn write(&mut self, buf: &[u8]) -> io::Result<usize> {
        let mut most = buf.len();
        if let Some((turn, turns)) = self.turns.split_first() {
            self.turns = turns;
            match *turn {
                Turn::Fails(kind) => return Err(io::Error::from(kind)),
                Turn::Moves(count) => most = count.min(buf.len()),
            }
        }
        self.held.extend_from_slice(&buf[..most])?;
        Ok(most)
    }

    fn flush(&mut self) -> io::Result<()> {
        self.flush.map_err(io::Error::from)
    }
}

const STOPPED: Turn = Turn::Fails(ErrorKind::Interrupted);

const BROKEN: Turn = Turn::Fails(ErrorKind::BrokenPipe);

#[test]
fn source_over_a_reader_reads_on_after_a_fault(rt: HostRuntime) {
    let turns = [
        STOPPED,
        Turn::Moves(2),
        BROKEN,
        STOPPED,
        STOPPED,
        Turn::Moves(9),
    ];
    let mut source = StdSource::new(TurnReader {
        turns: &turns,
        text: b"abcdef",
    });
    let calls: [Option<&[u8]>; 4] = [Some(b"ab"), None, Some(b"cdef"), Some(b"")];
    for want in calls {
        let mut buf = [0u8; 8];
        match take_into(&mut source, &mut buf, 8) {
            Ok(count) => assert!(rt; Some(&buf[..count]) == want),
            Err(fault) => assert!(rt; (fault, want) == (EdgeFault::Failed, None)),
        }
    }
}

#[test]
fn sink_over_a_writer_writes_to_the_end_or_fails(rt: HostRuntime) -> Result<(), Fail> {
    let calls: [(&[Turn], Result<(), ErrorKind>, Result<(), EdgeFault>, &[u8]); 5] = [
        (&[], Ok(()), Ok(()), b"abcd"),
        (
            &[Turn::Moves(1), STOPPED, Turn::Moves(2)],
            Ok(()),
            Ok(()),
            b"abcd",
        ),
        (
            &[Turn::Moves(1), Turn::Moves(0)],
            Ok(()),
            Err(EdgeFault::Failed),
            b"a",
        ),
        (
            &[Turn::Moves(3), BROKEN],
            Ok(()),
            Err(EdgeFault::Failed),
            b"abc",
        ),
        (
            &[],
            Err(ErrorKind::StorageFull),
            Err(EdgeFault::Failed),
            b"abcd",
        ),
    ];
    for (turns, flush, want, held) in calls {
        let mut writer = TurnWriter {
            turns,
            held: Vec::new(rt.alloc()),
            flush,
        };
        let outcome = StdSink::new(&mut writer).put(b"abcd");
        assert!(rt; outcome == want);
        assert!(rt; writer.held.as_slice() == held);
    }
    Ok(())
}

#[test]
fn what_is_put_into_a_file_is_taken_from_it(rt: HostRuntime) -> Result<(), Fail> {
    let name = "qg_edge_put_and_taken.bin";
    let mut sink = StdSink::new(fs::create(&rt, name)?);
    let puts = [sink.put(b"what is "), sink.put(b""), sink.put(b"put")];
    let mut source = StdSource::new(fs::open(&rt, name)?);
    let mut taken = Vec::new(rt.alloc());
    let mut counts = Vec::new(rt.alloc());
    for _ in 0..4 {
        let mut buf = [0u8; 8];
        let count = take_into(&mut source, &mut buf, 8)?;
        taken.extend_from_slice(&buf[..count])?;
        counts.push(count)?;
    }
    fs::remove_file(&rt, name)?;
    assert!(rt; puts == [Ok(()), Ok(()), Ok(())]);
    assert!(rt; taken.as_slice() == b"what is put".as_slice());
    assert!(rt; counts.as_slice() == [8, 3, 0, 0].as_slice());
    Ok(())
}

#[test]
fn what_is_put_into_a_pipe_is_taken_from_it(rt: HostRuntime) -> Result<(), Fail> {
    let (reader, writer) = io::pipe(&rt)?;
    let mut source = StdSource::new(reader);
    let mut sink = StdSink::new(writer);
    let mut buf = [0u8; 8];
    assert!(rt; sink.put(b"through") == Ok(()));
    assert!(rt; take_into(&mut source, &mut buf, 8)? == 7);
    assert!(rt; buf[..7] == b"through"[..]);
    assert!(rt; sink.put(b"a pipe") == Ok(()));
    drop(sink);
    assert!(rt; take_into(&mut source, &mut buf, 4)? == 4);
    assert!(rt; take_into(&mut source, &mut buf, 8)? == 2);
    assert!(rt; take_into(&mut source, &mut buf, 8)? == 0);
    Ok(())
}
