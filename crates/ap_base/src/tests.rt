// Exact answers of the sources and sinks, as a person works them out.
use super::*;
use std::alloc::{AllocError, Global};
use std::fs;
use std::io::Cursor;
use std::test::Fail;

/// The number of no call.
const NEVER: u64 = 1000;

fn input(alloc: Global, name: &str, bytes: &[u8]) -> Result<NamedBytes, AllocError> {
    Ok(NamedBytes {
        name: String::from_str(alloc, name)?,
        bytes: Vec::from_slice(alloc, bytes)?,
    })
}

/// A source of four inputs, two of one name, that fails at one call.
fn source(alloc: Global, fail: u64) -> Result<MemSource, AllocError> {
    let mut files = Vec::new(alloc);
    files.push(input(alloc, "a", b"abcdef")?)?;
    files.push(input(alloc, "b", b"")?)?;
    files.push(input(alloc, "c", b"gh")?)?;
    files.push(input(alloc, "a", b"xyz")?)?;
    Ok(MemSource::new(files, Vec::from_slice(alloc, &[fail])?))
}

fn words(alloc: Global, names: &str) -> Result<Vec<String>, AllocError> {
    let mut list = Vec::new(alloc);
    for name in names.split_whitespace() {
        list.push(String::from_str(alloc, name)?)?;
    }
    Ok(list)
}

/// The inputs of these names with a bar behind each, or the text of the fault.
fn reading<S: Source>(alloc: Global, names: &str, src: &mut S) -> Result<String, Fail> {
    match read_all(alloc, &words(alloc, names)?, src) {
        Ok(files) => {
            let mut text = String::new(alloc);
            for file in &files {
                text.push_str(std::str::from_utf8(file)?)?;
                text.push('|')?;
            }
            Ok(text)
        }
        Err(fault) => Ok(format!(in alloc; "{fault}")?),
    }
}

/// Opens a sink and writes a text to it.
fn put<O: Sink>(out: &mut O, name: &str, text: &[u8]) -> Result<(), Failed> {
    out.open(name)?;
    write_all(out, text)
}

#[test]
fn readings(rt: HostRuntime) -> Result<(), Fail> {
    let alloc = rt.alloc();
    let rows = [
        ("a b c", NEVER, 9, "abcdef||gh|"),
        ("a b c", NEVER, 1, "abcdef||gh|"),
        ("c c", NEVER, 1, "gh|gh|"),
        ("", 0, 9, ""),
        // Each of the eight calls: an open, reads and the end, three times.
        ("a b c", 0, 9, "the source failed at input 1"),
        ("a b c", 1, 9, "the source failed at input 1"),
        ("a b c", 2, 9, "the source failed at input 1"),
        ("a b c", 3, 9, "the source failed at input 2"),
        ("a b c", 4, 9, "the source failed at input 2"),
        ("a b c", 5, 9, "the source failed at input 3"),
        ("a b c", 6, 9, "the source failed at input 3"),
        ("a b c", 7, 9, "the source failed at input 3"),
        ("a b c", 8, 9, "abcdef||gh|"),
        // Three reads of `a` and its end come before the second open.
        ("a b c", 4, 2, "the source failed at input 1"),
        ("a b c", 5, 2, "the source failed at input 2"),
        ("a x c", NEVER, 9, "the source failed at input 2"),
    ];
    for (names, fail, piece, want) in rows {
        let mut src = source(alloc, fail)?;
        src.piece(piece);
        let got = reading(alloc, names, &mut src)?;
        assert_eq!(rt;
            got.as_str(),
            want,
            "{names}, failing at {fail}, in pieces of {piece}"
        );
    }
    Ok(())
}

#[test]
fn reads(rt: HostRuntime) -> Result<(), Fail> {
    let mut src = source(rt.alloc(), 4)?;
    src.piece(3);
    let mut buf = [b'-'; 4];
    assert_eq!(rt; src.read(&mut buf), Ok(0), "nothing is open");
    assert_eq!(rt; src.open("a"), Ok(()));
    assert_eq!(rt; src.read(&mut buf), Ok(3));
    assert_eq!(rt; buf.as_slice(), b"abc-".as_slice());
    assert_eq!(rt; src.read(&mut buf[..2]), Ok(2));
    assert_eq!(rt; src.read(&mut buf), Err(Failed), "call 4");
    assert_eq!(rt; src.open("x"), Err(Failed), "a name that is not there");
    assert_eq!(rt; src.read(&mut buf), Ok(1), "the input that was open");
    assert_eq!(rt; buf.as_slice(), b"fec-".as_slice());
    assert_eq!(rt; src.read(&mut buf), Ok(0));
    Ok(())
}

#[test]
fn limit(rt: HostRuntime) -> Result<(), Fail> {
    let alloc = rt.alloc();
    let mut files = Vec::new(alloc);
    files.push(NamedBytes {
        name: String::from_str(alloc, "half")?,
        bytes: vec![in alloc; b' '; MAX_BYTES / 2]?,
    })?;
    files.push(input(alloc, "one", b"x")?)?;
    let mut src = MemSource::new(files, Vec::new(alloc));
    let all = read_all(alloc, &words(alloc, "half half")?, &mut src).ok();
    assert_eq!(rt; all.map(|files| files.len()), Some(2));
    let more = words(alloc, "half half one absent")?;
    assert_eq!(rt;
        read_all(alloc, &more, &mut src).err(),
        Some(ReadFault::Bytes)
    );
    let absent = words(alloc, "half absent half one")?;
    assert_eq!(rt;
        read_all(alloc, &absent, &mut src).err(),
        Some(ReadFault::Source(2))
    );
    Ok(())
}

#[test]
fn writings(rt: HostRuntime) -> Result<(), Fail> {
    let alloc = rt.alloc();
    let rows = [
        // The open is call 0.
        ("hello world", 20, NEVER, 99, true, "hello world"),
        ("hello world", 11, NEVER, 99, true, "hello world"),
        ("hello world", 10, NEVER, 99, false, "hello worl"),
        ("hello world", 0, NEVER, 99, false, ""),
        ("hello world", 20, NEVER, 4, true, "hello world"),
        ("hello world", 9, NEVER, 4, false, "hello wor"),
        ("hello world", 20, 0, 4, false, ""),
        ("hello world", 20, 1, 4, false, ""),
        ("hello world", 20, 2, 4, false, "hell"),
        ("hello world", 20, 3, 4, false, "hello wo"),
        ("hello world", 20, 4, 4, true, "hello world"),
        ("", 0, 1, 4, true, ""),
    ];
    for (text, room, fail, piece, well, want) in rows {
        let mut out = MemSink::new(alloc, room, Vec::from_slice(alloc, &[fail])?)?;
        out.piece(piece);
        let answer = put(&mut out, "any", text.as_bytes());
        assert_eq!(rt;
            answer.is_ok(),
            well,
            "{text}, {room} bytes of room, failing at {fail}"
        );
        assert_eq!(rt; out.bytes(), want.as_bytes());
    }
    Ok(())
}

#[test]
fn files(rt: HostRuntime) -> Result<(), Fail> {
    let alloc = rt.alloc();
    let mut out = FileSink::new(&rt);
    assert_eq!(rt; out.write(b"x"), Err(Failed), "no file is open");
    assert_eq!(rt; put(&mut out, "no_such_folder/file", b"x"), Err(Failed));
    assert_eq!(rt; put(&mut out, "ap_base_one.txt", b"some\nlines\n"), Ok(()));
    assert_eq!(rt; put(&mut out, "ap_base_two.txt", b"more"), Ok(()));
    let mut src = FileSource::new(&rt);
    assert_eq!(rt; src.read(&mut [0u8; 4]), Err(Failed), "no file is open");
    let read = reading(alloc, "ap_base_one.txt ap_base_two.txt", &mut src)?;
    let absent = reading(alloc, "ap_base_two.txt ap_base_absent.txt", &mut src)?;
    fs::remove_file(&rt, "ap_base_one.txt")?;
    fs::remove_file(&rt, "ap_base_two.txt")?;
    assert_eq!(rt; read.as_str(), "some\nlines\n|more|");
    assert_eq!(rt; absent.as_str(), "the source failed at input 2");
    Ok(())
}

#[test]
fn writers(rt: HostRuntime) -> Result<(), Fail> {
    let mut bytes = Vec::new(rt.alloc());
    assert_eq!(rt; put(&mut OutSink::new(&mut bytes), "any", b"text"), Ok(()));
    assert_eq!(rt; bytes.as_slice(), b"text".as_slice());
    let mut full = OutSink::new(Cursor::new([0u8; 4]));
    assert_eq!(rt; full.write(b"text and more"), Ok(4));
    assert_eq!(rt;
        full.write(b" and more"),
        Err(Failed),
        "nothing more is taken"
    );
    Ok(())
}

#[test]
fn codes(rt: HostRuntime) {
    let rows = [
        (Status::Done, 0),
        (Status::Unsatisfiable, 1),
        (Status::Stopped, 2),
        (Status::Budget, 3),
        (Status::NoOptimum, 4),
        (Status::Invalid, 5),
        (Status::Usage, 16),
        (Status::Source, 17),
        (Status::Sink, 18),
        (Status::Memory, 19),
        (Status::Syntax, 20),
        (Status::Unsupported, 21),
        (Status::Unsafe, 22),
        (Status::AggregateRecursion, 23),
        (Status::Recursion, 24),
        (Status::Naming, 25),
        (Status::BadElement, 26),
        (Status::NotDomain, 27),
        (Status::Cycle, 28),
        (Status::Limit, 29),
    ];
    for (status, code) in rows {
        assert_eq!(rt; status.code(), code, "{status:?}");
    }
}

#[test]
fn budgets(rt: HostRuntime) {
    let mut budget = Budget { left: 2 };
    for (well, left) in [(true, 1), (true, 0), (false, 0), (false, 0)] {
        assert_eq!(rt; budget.take(), well);
        assert_eq!(rt; budget.left, left);
    }
}
