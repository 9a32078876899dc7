//! Sources and sinks over readers and writers that fail in mid-stream.

use crate::server_end::asserts::assert_that;
use mq_stream::{DeviceFault, FromRead, Sink, Source, WriterSink, write_and_flush};
use std::io;
use std::io::{ErrorKind, Read, Write};
use std::process::Abort;

/// A reader of these calls.
#[derive(Clone, Copy)]
struct Script<'a> {
    calls: &'a [Result<u8, ErrorKind>],
}

impl Read for Script<'_> {
    fn read(&mut self, buf: &mut [u8]) -> io::Result<usize> {
        let [call, rest @ ..] = self.calls else {
            return Ok(0);
        };
        self.calls = rest;
        match (call, buf) {
            (Ok(byte), [place, ..]) => {
                *place = *byte;
                Ok(1)
            }
            (Err(kind), _) => Err(io::Error::from(*kind)),
            _ => Ok(0),
        }
    }
}

/// Reads: what is answered, and the bytes in front of the piece.
type Reads = &'static [(Result<usize, DeviceFault>, &'static [u8])];

/// Reads into the piece once for each row. Without clauses, so that its callers stay cheap to
/// prove.
fn check_reads<S: Source>(rt: &impl Abort, source: &mut S, piece: &mut [u8], reads: Reads) {
    for (answer, front) in reads {
        assert_that(rt, source.read(piece) == *answer, "what a read answers");
        assert_that(rt, piece.starts_with(*front), "what a read gives");
    }
}

const SIGNALS: &[Result<u8, ErrorKind>] = &[
    Ok(7),
    Err(ErrorKind::Interrupted),
    Err(ErrorKind::Interrupted),
    Ok(8),
    Err(ErrorKind::BrokenPipe),
    Ok(9),
];

const READ_UP_TO_A_FAILURE: Reads = &[
    (Ok(1), &[7]),
    (Ok(1), &[8]),
    (Err(DeviceFault), &[]),
    (Err(DeviceFault), &[]),
];

/// A read that a signal interrupted is made again; a failed one is the last.
#[test]
fn reads_again_after_a_signal(rt: HostRuntime) {
    let mut source = FromRead::new(Script { calls: SIGNALS });
    check_reads(&rt, &mut source, &mut [0; 4], READ_UP_TO_A_FAILURE);
    assert!(rt; source.into_inner().calls.len() == 1);
}

#[test]
fn reads_a_slice_to_its_end(rt: HostRuntime) {
    let bytes: &[u8] = &[1, 2, 3];
    let mut source = FromRead::new(bytes);
    let reads: Reads = &[(Ok(2), &[1, 2]), (Ok(1), &[3]), (Ok(0), &[])];
    check_reads(&rt, &mut source, &mut [0; 2], reads);
    assert!(rt; source.into_inner().is_empty());
}

/// A writer that takes so many bytes, two a call, and then nothing; its flush fails where it is
/// told to.
#[derive(Clone, Copy)]
struct Short {
    left: usize,
    breaks: bool,
}

impl Write for Short {
    fn write(&mut self, buf: &[u8]) -> io::Result<usize> {
        let count = buf.len().min(self.left).min(2);
        self.left -= count;
        Ok(count)
    }

    fn flush(&mut self) -> io::Result<()> {
        if self.breaks {
            Err(io::Error::from(ErrorKind::BrokenPipe))
        } else {
            Ok(())
        }
    }
}

/// A call of a sink and what it answers.
#[derive(Clone, Copy)]
enum Call<'a> {
    Write(&'a [u8], Result<usize, DeviceFault>),
    Flush(Result<(), DeviceFault>),
}

/// Makes the calls in turn. Without clauses, so that its callers stay cheap to prove.
fn check_calls<S: Sink>(rt: &impl Abort, sink: &mut S, calls: &[Call<'_>]) {
    for call in calls {
        match *call {
            Call::Write(piece, answer) => assert_that(rt, sink.write(piece) == answer, "a write"),
            Call::Flush(answer) => assert_that(rt, sink.flush() == answer, "a flush"),
        }
    }
}

const WRITTEN_UP_TO_A_FAILURE: &[Call<'static>] = &[
    Call::Write(&[1, 2], Ok(2)),
    Call::Write(&[], Ok(0)),
    Call::Flush(Ok(())),
    Call::Write(&[3, 4], Ok(1)),
    Call::Write(&[4], Err(DeviceFault)),
    Call::Write(&[], Err(DeviceFault)),
    Call::Flush(Err(DeviceFault)),
];

/// A write that takes nothing of something is a failure, and the last call that may succeed.
#[test]
fn write_of_nothing_fails(rt: HostRuntime) {
    let mut sink = WriterSink::new(Short {
        left: 3,
        breaks: false,
    });
    check_calls(&rt, &mut sink, WRITTEN_UP_TO_A_FAILURE);
    assert!(rt; sink.into_inner().left == 0);
}

#[test]
fn failed_flush_is_the_last(rt: HostRuntime) {
    let mut sink = WriterSink::new(Short {
        left: 3,
        breaks: true,
    });
    let calls = &[
        Call::Flush(Err(DeviceFault)),
        Call::Write(&[1], Err(DeviceFault)),
    ];
    check_calls(&rt, &mut sink, calls);
}

#[test]
fn writes_to_memory(rt: HostRuntime) {
    let mut sink = WriterSink::new(Vec::new(rt.alloc()));
    let calls = &[Call::Write(&[1, 2], Ok(2)), Call::Flush(Ok(()))];
    check_calls(&rt, &mut sink, calls);
    assert!(rt; sink.into_inner().as_slice() == [1, 2].as_slice());
}

/// Without clauses, so that its callers stay cheap to prove.
fn sent<S: Sink>(sink: &mut S, bytes: &[u8]) -> Result<(), DeviceFault> {
    write_and_flush(sink, bytes)
}

const SHORTS: &[(Short, Result<(), DeviceFault>)] = &[
    (
        Short {
            left: 4,
            breaks: false,
        },
        Ok(()),
    ),
    (
        Short {
            left: 3,
            breaks: true,
        },
        Err(DeviceFault),
    ),
    (
        Short {
            left: 2,
            breaks: false,
        },
        Err(DeviceFault),
    ),
];

/// All bytes are written in as many writes as it takes, and flushed; or as many as the device
/// takes.
#[test]
fn all_bytes_are_written(rt: HostRuntime) {
    let mut sink = WriterSink::new(Vec::new(rt.alloc()));
    assert!(rt; sent(&mut sink, &[1, 2, 3]) == Ok(()));
    assert!(rt; sink.into_inner().as_slice() == [1, 2, 3].as_slice());
    for (short, answer) in SHORTS {
        let mut sink = WriterSink::new(*short);
        assert!(rt; sent(&mut sink, &[1, 2, 3]) == *answer);
        assert!(rt; sink.into_inner().left == short.left.saturating_sub(3));
    }
}
