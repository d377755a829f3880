//! What `StreamSink` and `FileShelf` write and read for real, and what their counts then are.

use grind_outside::{
    FileShelf, List, ReadRefusal, Shelf, Sink, SinkRefusal, StreamSink, read_opened, write_whole,
};
use std::io::{Error, ErrorKind, Write};
use std::process::Abort;
use std::test::Fail;
use std::time::{SystemTime, UNIX_EPOCH};
use std::{env, fs, io};

const MEBIBYTE: usize = 1_048_576;

/// A stream that takes so many bytes at once and so many calls, and counts what it took.
#[derive(Drop)]
struct Narrow {
    most: usize,
    calls: u32,
    taken: usize,
}

impl Write for Narrow {
    fn write(&mut self, buf: &[u8]) -> io::Result<usize> {
        if buf.is_empty() {
            return Ok(0);
        }
        let Some(calls) = self.calls.checked_sub(1) else {
            return Err(Error::from(ErrorKind::BrokenPipe));
        };
        let count = buf.len().min(self.most);
        self.calls = calls;
        self.taken = self.taken.saturating_add(count);
        Ok(count)
    }

    fn flush(&mut self) -> io::Result<()> {
        Ok(())
    }
}

/// Fifteen calls take 65,537 bytes, and the sixteenth takes the rest.
#[test]
fn a_piece_of_one_mebibyte(rt: HostRuntime) -> Result<(), Fail> {
    let piece = vec![in rt.alloc(); 7u8; MEBIBYTE]?;
    let mut sink = StreamSink::new(Narrow {
        most: 65_537,
        calls: 16,
        taken: 0,
    });
    assert_eq!(rt; sink.put(piece.as_slice()), Ok(65_537));
    assert_eq!(rt; (sink.stream.taken, sink.faults), (65_537, 0));
    let (_, rest) = piece.as_slice().split_at(65_537);
    assert_eq!(rt; write_whole(&mut sink, rest), Ok(()));
    assert_eq!(rt; (sink.stream.taken, sink.faults), (MEBIBYTE, 0));
    assert_eq!(rt; sink.put(rest), Err(SinkRefusal::Failed));
    assert_eq!(rt; (sink.stream.taken, sink.faults), (MEBIBYTE, 1));
    Ok(())
}

/// A stream that takes nothing fails, and its count stays at the last value.
#[test]
fn a_stream_that_takes_nothing(rt: HostRuntime) {
    let mut sink = StreamSink::new(Narrow {
        most: 0,
        calls: 9,
        taken: 0,
    });
    assert_eq!(rt; sink.put(b"ab"), Err(SinkRefusal::Failed));
    assert_eq!(rt; sink.put(b""), Ok(0));
    assert_eq!(rt; (sink.stream.taken, sink.faults), (0, 1));
    sink.faults = u64::MAX;
    assert_eq!(rt; sink.put(b"ab"), Err(SinkRefusal::Failed));
    assert_eq!(rt; sink.faults, u64::MAX);
}

/// How many bytes were read, or why none.
fn length_of(answer: &Result<List<u8>, ReadRefusal>) -> Result<usize, ReadRefusal> {
    match answer {
        Ok(bytes) => Ok(bytes.len() as usize),
        Err(refusal) => Err(*refusal),
    }
}

/// Asserts what a read of so many bytes answers at its limit, and one byte below it.
fn judges_length<R: Abort + AllocGlobal>(rt: &R, bytes: &[u8]) {
    let limit = bytes.len() as u64;
    let whole = read_opened(Ok(bytes), rt.alloc(), limit);
    assert_eq!(rt; length_of(&whole), Ok(bytes.len()));
    if limit > 0 {
        let cut = read_opened(Ok(bytes), rt.alloc(), limit - 1);
        assert_eq!(rt;
            length_of(&cut),
            Err(ReadRefusal::TooLong { limit: limit - 1 })
        );
    }
}

/// Around the length of one read, and that of a theory file.
#[test]
fn at_the_limit_and_past_it(rt: HostRuntime) -> Result<(), Fail> {
    let bytes = vec![in rt.alloc(); 7u8; 4_194_304]?;
    for length in [0, 1, 8191, 8192, 8193, 16_384, 4_194_304] {
        if let Some(front) = bytes.as_slice().get(..length) {
            judges_length(&rt, front);
        }
    }
    let missing: io::Result<&[u8]> = Err(Error::from(ErrorKind::NotFound));
    let answer = read_opened(missing, rt.alloc(), 9);
    assert_eq!(rt; length_of(&answer), Err(ReadRefusal::Failed));
    Ok(())
}

/// A file of a mebibyte, written in as many calls as it takes, read at its limit and one byte past
/// it, and then missing.
#[test]
fn a_file_of_the_machine(rt: HostRuntime) -> Result<(), Fail> {
    let folder = env::temp_dir(&rt)?;
    let now = SystemTime::now(&rt)?.duration_since(UNIX_EPOCH)?.as_nanos();
    let name = format!(in rt.alloc(); "{}/grind_call_rows_{now}", folder.as_str())?;
    let piece = vec![in rt.alloc(); 7u8; MEBIBYTE]?;
    let mut sink = StreamSink::new(fs::create(&rt, name.as_str())?);
    assert_eq!(rt; write_whole(&mut sink, piece.as_slice()), Ok(()));
    assert_eq!(rt; sink.faults, 0);

    let mut shelf = FileShelf::new(&rt);
    let whole = shelf.read(rt.alloc(), name.as_str(), 1_048_576);
    assert_eq!(rt; length_of(&whole), Ok(MEBIBYTE));
    let past = shelf.read(rt.alloc(), name.as_str(), 1_048_575);
    assert_eq!(rt;
        length_of(&past),
        Err(ReadRefusal::TooLong { limit: 1_048_575 })
    );
    assert_eq!(rt; shelf.faults, 0);
    fs::remove_file(&rt, name.as_str())?;
    let gone = shelf.read(rt.alloc(), name.as_str(), 9);
    assert_eq!(rt; length_of(&gone), Err(ReadRefusal::Failed));
    assert_eq!(rt; shelf.faults, 1);
    Ok(())
}
