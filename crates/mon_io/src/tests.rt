use super::*;
use std::alloc::{AllocError, Global};
use std::fs;
use std::io::{self, ErrorKind, Read, Write};
use std::process::Abort;
use std::test::Fail;

// What reads of eight bytes give up to the end: the bytes, a '!' for each fault and a '.' at the end.
fn read_through<S: Source>(alloc: Global, source: &mut S) -> Result<Vec<u8>, AllocError> {
    let mut seen = Vec::new(alloc);
    let mut buf = [0; 8];
    for _ in 0..20 {
        match source.read(&mut buf) {
            Ok(0) => {
                seen.push(b'.')?;
                return Ok(seen);
            }
            Ok(count) => seen.extend_from_slice(&buf[..count])?,
            Err(Failed) => seen.push(b'!')?,
        }
    }
    Ok(seen)
}

// How writes of a text go: the number of bytes that each takes, a '!' for each fault and an 'm' for want of memory.
fn write_through<K: Sink>(alloc: Global, sink: &mut K, text: &[u8]) -> Result<Vec<u8>, AllocError> {
    let mut seen = Vec::new(alloc);
    let mut rest = text;
    for _ in 0..20 {
        if rest.is_empty() {
            break;
        }
        match sink.write(rest) {
            Ok(count) => {
                seen.push(if count < 10 { b'0' + count as u8 } else { b'+' })?;
                rest = &rest[count..];
            }
            Err(SinkFault::Failed) => seen.push(b'!')?,
            Err(SinkFault::Memory) => seen.push(b'm')?,
        }
    }
    Ok(seen)
}

// Which answer a shelf gives.
fn look<S: Shelf>(
    rt: &impl Abort,
    alloc: Global,
    shelf: &mut S,
    name: &str,
    most: usize,
    expected: Result<&[u8], ShelfFault>,
) {
    match (shelf.text(alloc, name, most), expected) {
        (Ok(text), Ok(wanted)) => assert_eq!(rt; text.as_slice(), wanted),
        (Err(fault), Err(wanted)) => assert_eq!(rt; fault, wanted),
        (Ok(_), Err(_)) => assert!(rt; false, "a text, at {name} {most}"),
        (Err(_), Ok(_)) => assert!(rt; false, "a fault, at {name} {most}"),
    }
}

#[test]
fn sources_fail_at_their_calls(rt: HostRuntime) -> Result<(), Fail> {
    let alloc = rt.alloc();
    let rows: [(usize, &[u64], &str); 8] = [
        (1, &[], "abc."),
        (2, &[], "abc."),
        (1, &[1], "!abc."),
        (1, &[2], "a!bc."),
        (1, &[4], "abc!."),
        (1, &[2, 3, 5], "a!!b!c."),
        (9, &[2], "abc!."),
        (9, &[0, 3], "abc."),
    ];
    for (per_call, fails, seen) in rows {
        assert!(rt; per_call >= 1);
        let mut source = MemSource::new(b"abc".to_vec(alloc)?, per_call, fails.to_vec(alloc)?);
        let given = read_through(alloc, &mut source)?;
        assert_eq!(rt; given.as_slice(), seen.as_bytes(), "at {seen}");
    }
    Ok(())
}

#[test]
fn empty_and_sure_sources_end(rt: HostRuntime) -> Result<(), Fail> {
    let alloc = rt.alloc();
    let mut empty = MemSource::new(Vec::new(alloc), 1, [1].to_vec(alloc)?);
    assert_eq!(rt;
        read_through(alloc, &mut empty)?.as_slice(),
        b"!.".as_slice()
    );
    let mut sure = SureSource::new(b"0123456789".to_vec(alloc)?);
    assert_eq!(rt;
        read_through(alloc, &mut sure)?.as_slice(),
        b"0123456789.".as_slice()
    );
    let mut nothing = SureSource::new(Vec::new(alloc));
    assert_eq!(rt;
        read_through(alloc, &mut nothing)?.as_slice(),
        b".".as_slice()
    );
    Ok(())
}

#[test]
fn sinks_fail_at_their_calls(rt: HostRuntime) -> Result<(), Fail> {
    let alloc = rt.alloc();
    let rows: [(usize, &[u64], &str); 6] = [
        (1, &[], "111"),
        (2, &[], "21"),
        (1, &[1], "!111"),
        (1, &[2], "1!11"),
        (1, &[3], "11!1"),
        (9, &[1, 2], "!!3"),
    ];
    for (per_call, fails, seen) in rows {
        assert!(rt; per_call >= 1);
        let mut sink = MemSink::new(alloc, per_call, fails.to_vec(alloc)?);
        let taken = write_through(alloc, &mut sink, b"abc")?;
        assert_eq!(rt; taken.as_slice(), seen.as_bytes(), "at {seen}");
        assert_eq!(rt; sink.bytes(), b"abc".as_slice(), "at {seen}");
    }
    let mut sure = SureSink::new(alloc);
    assert_eq!(rt;
        write_through(alloc, &mut sure, b"abc")?.as_slice(),
        b"3".as_slice()
    );
    assert_eq!(rt; sure.bytes(), b"abc".as_slice());
    Ok(())
}

#[test]
fn a_shelf_gives_the_first_text_of_a_name(rt: HostRuntime) -> Result<(), Fail> {
    let alloc = rt.alloc();
    let mut texts = Vec::new(alloc);
    texts.push((String::from_str(alloc, "m")?, b"abcd".to_vec(alloc)?))?;
    texts.push((String::from_str(alloc, "m")?, b"x".to_vec(alloc)?))?;
    texts.push((String::from_str(alloc, "e")?, Vec::new(alloc)))?;
    let mut shelf = MemShelf::new(texts, [2].to_vec(alloc)?);
    look(&rt, alloc, &mut shelf, "m", 4, Ok(b"abcd"));
    look(&rt, alloc, &mut shelf, "m", 4, Err(ShelfFault::Failed));
    look(&rt, alloc, &mut shelf, "m", 3, Err(ShelfFault::Long));
    look(&rt, alloc, &mut shelf, "e", 0, Ok(b""));
    look(&rt, alloc, &mut shelf, "none", 4, Err(ShelfFault::Failed));
    look(&rt, alloc, &mut shelf, "m", 5, Ok(b"abcd"));
    Ok(())
}

// A reader that fails, and a writer that takes `room` more bytes and then none, and whose flush may fail.
#[derive(Drop)]
struct Narrow {
    room: usize,
    flushes: bool,
}

impl Read for Narrow {
    fn read(&mut self, _buf: &mut [u8]) -> io::Result<usize> {
        Err(io::Error::from(ErrorKind::Other))
    }
}

impl Write for Narrow {
    fn write(&mut self, buf: &[u8]) -> io::Result<usize> {
        let count = buf.len().min(self.room);
        self.room -= count;
        Ok(count)
    }

    fn flush(&mut self) -> io::Result<()> {
        if self.flushes {
            Ok(())
        } else {
            Err(io::Error::from(ErrorKind::Other))
        }
    }
}

#[test]
fn adapters_pass_bytes_and_faults_on(rt: HostRuntime) -> Result<(), Fail> {
    let alloc = rt.alloc();

    let mut source = StdSource::new(b"0123456789".as_slice());
    assert_eq!(rt;
        read_through(alloc, &mut source)?.as_slice(),
        b"0123456789.".as_slice()
    );

    let mut written = Vec::new(alloc);
    let mut sink = StdSink::new(&mut written);
    assert_eq!(rt;
        write_through(alloc, &mut sink, b"abc")?.as_slice(),
        b"3".as_slice()
    );
    assert_eq!(rt; written.as_slice(), b"abc".as_slice());

    let mut broken = StdSource::new(Narrow {
        room: 0,
        flushes: true,
    });
    assert_eq!(rt; broken.read(&mut [0]), Err(Failed));
    let mut narrow = StdSink::new(Narrow {
        room: 2,
        flushes: true,
    });
    assert_eq!(rt; narrow.write(b"abc"), Ok(2));
    assert_eq!(rt; narrow.write(b"c"), Err(SinkFault::Failed));
    assert_eq!(rt; narrow.write(b""), Ok(0));
    let mut unflushed = StdSink::new(Narrow {
        room: 2,
        flushes: false,
    });
    assert_eq!(rt; unflushed.write(b"abc"), Err(SinkFault::Failed));

    fs::write(&rt, "a_model", "abcd")?;
    let mut shelf = FileShelf::new(&rt);
    look(&rt, alloc, &mut shelf, "a_model", 4, Ok(b"abcd"));
    look(&rt, alloc, &mut shelf, "a_model", 3, Err(ShelfFault::Long));
    look(
        &rt,
        alloc,
        &mut shelf,
        "no_model",
        4,
        Err(ShelfFault::Failed),
    );
    fs::remove_file(&rt, "a_model")?;
    Ok(())
}
