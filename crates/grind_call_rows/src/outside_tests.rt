//! What no clause says: that each call can succeed, and what the machine really reads and writes.
ghost use Rattle.std.specs.Prelude.{◌≡◌, IfOk};

use grind_outside::{
    FileShelf, List, MemoryShelf, MemorySink, NamedFile, ReadRefusal, Shelf, Sink, SinkRefusal,
    SteadyShelf, SteadySink, StreamSink, write_whole,
};
use std::alloc::Global;
use std::io::{Error, ErrorKind, Write};
use std::process::Abort;
use std::test::Fail;
use std::time::{SystemTime, UNIX_EPOCH};
use std::{env, fs, io};

fn numbers(alloc: Global, items: &[u64]) -> Result<List<u64>, Fail> {
    let mut list = List::new(alloc);
    list.extend(items)?;
    Ok(list)
}

/// Two files of the name `a` and one of the name `b`.
fn files(alloc: Global) -> Result<List<NamedFile>, Fail> {
    let mut files = List::new(alloc);
    files.push(NamedFile::new(alloc, "a", b"first")?)?;
    files.push(NamedFile::new(alloc, "a", b"second")?)?;
    files.push(NamedFile::new(alloc, "b", b"123")?)?;
    Ok(files)
}

/// Reads, and asserts what the answer and the count of faults then are.
fn read_is<H: Shelf>(
    rt: &(impl Abort + AllocGlobal),
    shelf: &mut H,
    name: &str,
    limit: u64,
    want: Result<&[u8], ReadRefusal>,
) {
    let answer = shelf.read(rt.alloc(), name, limit);
    let held = match &answer {
        Ok(bytes) => Ok(bytes.as_slice()),
        Err(refusal) => Err(*refusal),
    };
    assert!(rt; held == want, "{name} within {limit}");
}

#[test]
fn lists(rt: HostRuntime) -> Result<(), Fail> {
    let mut list = List::new(rt.alloc());
    assert!(rt; list.is_empty() && list.pop() == None);
    list.push(1u8)?;
    list.extend(&[2, 3, 4])?;
    assert_eq!(rt; list.len(), 4);
    list.set(0, 5);
    assert_eq!(rt; list.replace(1, 6), 2);
    assert_eq!(rt; list.pop(), Some(4));
    assert_eq!(rt; list.as_slice(), [5u8, 6, 3].as_slice());
    list.truncate(1);
    let mut other = List::new(rt.alloc());
    other.push(5)?;
    assert!(rt; list == other);
    assert_eq!(rt; format!(in rt.alloc(); "{list:?}")?.as_str(), "[5]");
    Ok(())
}

#[test]
fn memory_shelf(rt: HostRuntime) -> Result<(), Fail> {
    let alloc = rt.alloc();
    let mut shelf = MemoryShelf::holding(files(alloc)?, numbers(alloc, &[1])?);
    read_is(&rt, &mut shelf, "a", 5, Ok(b"first"));
    read_is(&rt, &mut shelf, "a", 5, Err(ReadRefusal::Failed));
    read_is(&rt, &mut shelf, "c", 5, Err(ReadRefusal::Failed));
    read_is(
        &rt,
        &mut shelf,
        "b",
        2,
        Err(ReadRefusal::TooLong { limit: 2 }),
    );
    read_is(&rt, &mut shelf, "b", 3, Ok(b"123"));
    assert_eq!(rt; (shelf.calls, shelf.faults), (5, 2));
    shelf.calls = u64::MAX - 1;
    shelf.faults = u64::MAX - 1;
    shelf.failing = numbers(alloc, &[u64::MAX])?;
    read_is(&rt, &mut shelf, "b", 3, Ok(b"123"));
    read_is(&rt, &mut shelf, "b", 3, Err(ReadRefusal::Failed));
    read_is(&rt, &mut shelf, "b", 3, Err(ReadRefusal::Failed));
    assert_eq!(rt; (shelf.calls, shelf.faults), (u64::MAX, u64::MAX));
    Ok(())
}

#[test]
fn memory_sink(rt: HostRuntime) -> Result<(), Fail> {
    let alloc = rt.alloc();
    let mut sink = MemorySink::new(alloc, 1, numbers(alloc, &[3])?);
    assert_eq!(rt; sink.put(b""), Ok(0));
    assert_eq!(rt; sink.calls, 0);
    assert_eq!(rt; sink.put(b"ab"), Ok(1));
    assert_eq!(rt; write_whole(&mut sink, b"bcdef"), Err(SinkRefusal::Failed));
    assert_eq!(rt; sink.bytes.as_slice(), b"abc".as_slice());
    assert_eq!(rt; write_whole(&mut sink, b"def"), Ok(()));
    assert_eq!(rt; sink.bytes.as_slice(), b"abcdef".as_slice());
    assert_eq!(rt; (sink.calls, sink.faults), (7, 1));
    Ok(())
}

/// A sink of whose counts both stand at the last value.
#[test]
fn last_values(rt: HostRuntime) -> Result<(), Fail> {
    let alloc = rt.alloc();
    let mut sink = MemorySink {
        bytes: List::new(alloc),
        most: 4,
        failing: numbers(alloc, &[u64::MAX])?,
        calls: u64::MAX,
        faults: u64::MAX,
    };
    assert_eq!(rt; sink.put(b"g"), Err(SinkRefusal::Failed));
    assert_eq!(rt; sink.put(b"g"), Err(SinkRefusal::Failed));
    assert_eq!(rt; (sink.calls, sink.faults), (u64::MAX, u64::MAX));
    Ok(())
}

#[test]
fn steady(rt: HostRuntime) -> Result<(), Fail> {
    let mut shelf = SteadyShelf::holding(files(rt.alloc())?);
    read_is(&rt, &mut shelf, "a", 5, Ok(b"first"));
    read_is(
        &rt,
        &mut shelf,
        "a",
        4,
        Err(ReadRefusal::TooLong { limit: 4 }),
    );
    read_is(&rt, &mut shelf, "c", 0, Ok(b""));
    let mut sink = SteadySink::new(rt.alloc());
    assert_eq!(rt; sink.put(b""), Ok(0));
    assert_eq!(rt; sink.put(b"ab"), Ok(2));
    assert_eq!(rt; write_whole(&mut sink, b"cd"), Ok(()));
    assert_eq!(rt; sink.bytes.as_slice(), b"abcd".as_slice());
    Ok(())
}

/// A file that stands, a folder and a file that is missing, and a stream into a file.
#[test]
fn the_machine(rt: HostRuntime) -> Result<(), Fail> {
    let folder = env::temp_dir(&rt)?;
    let now = SystemTime::now(&rt)?.duration_since(UNIX_EPOCH)?.as_nanos();
    let name = format!(in rt.alloc(); "{}/grind_outside_{now}", folder.as_str())?;
    let long = [7u8; 20000];

    let mut sink = StreamSink::new(fs::create(&rt, name.as_str())?);
    assert_eq!(rt; write_whole(&mut sink, &long), Ok(()));
    let mut shelf = FileShelf::new(&rt);
    read_is(&rt, &mut shelf, name.as_str(), 20000, Ok(&long));
    read_is(
        &rt,
        &mut shelf,
        name.as_str(),
        19999,
        Err(ReadRefusal::TooLong { limit: 19999 }),
    );
    read_is(
        &rt,
        &mut shelf,
        folder.as_str(),
        9,
        Err(ReadRefusal::Failed),
    );
    fs::remove_file(&rt, name.as_str())?;
    read_is(&rt, &mut shelf, name.as_str(), 9, Err(ReadRefusal::Failed));
    Ok(())
}

/// A stream that breaks after some turns.
#[derive(Drop)]
struct Breaking {
    turns: u32,
}

impl Breaking {
    fn turn(&mut self) -> io::Result<usize>
        ensures { IfOk result (λ n. n ≡ 1) }
    {
        match self.turns.checked_sub(1) {
            Some(turns) => {
                self.turns = turns;
                Ok(1)
            }
            None => Err(Error::from(ErrorKind::BrokenPipe)),
        }
    }
}

impl Write for Breaking {
    fn write(&mut self, buf: &[u8]) -> io::Result<usize> {
        if buf.is_empty() {
            return Ok(0);
        }
        self.turn()
    }

    fn flush(&mut self) -> io::Result<()> {
        Ok(())
    }
}

#[test]
fn breaks_in_the_middle(rt: HostRuntime) -> Result<(), Fail> {
    let mut broken = StreamSink::new(Breaking { turns: 2 });
    assert_eq!(rt; broken.put(b"abc"), Ok(1));
    assert_eq!(rt; write_whole(&mut broken, b"bc"), Err(SinkRefusal::Failed));

    let mut room = [0u8; 3];
    let mut full = StreamSink::new(&mut room[..]);
    assert_eq!(rt; write_whole(&mut full, b"abcd"), Err(SinkRefusal::Failed));
    drop(full);
    assert_eq!(rt; room, *b"abc");
    Ok(())
}
