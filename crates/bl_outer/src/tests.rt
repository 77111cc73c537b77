//! Files and outputs, in memory and outside.

use crate::{DirShelf, Got, MemShelf, MemSink, ReadFail, Shelf, Sink, StdSink, read_text};
use std::path::PathBuf;
use std::test::Fail;
use std::{env, fs, io, process};

fn text_of(
    rt: &HostRuntime,
    shelf: &mut MemShelf,
    name: &str,
    limit: u64,
) -> Result<(Result<Got, ReadFail>, usize), Fail> {
    let mut text = Vec::new(rt.alloc());
    let got = read_text(shelf, name, limit, &mut text);
    Ok((got, text.len()))
}

#[test]
fn reads_up_to_the_limit(rt: HostRuntime) -> Result<(), Fail> {
    let mut shelf = MemShelf::new(rt.alloc(), &[])?;
    shelf.set("five", b"hello")?;
    shelf.set("long", vec![in rt.alloc(); 7u8; 40_000]?.as_slice())?;
    shelf.set("empty", b"")?;
    for (name, limit, expected, len) in [
        ("five", 6, Got::Whole, 5),
        ("five", 5, Got::Whole, 5),
        ("five", 4, Got::Longer, 4),
        ("five", 0, Got::Longer, 0),
        ("empty", 0, Got::Whole, 0),
        ("long", u64::MAX, Got::Whole, 40_000),
        ("long", 20_000, Got::Longer, 20_000),
        ("none", 9, Got::Missing, 0),
    ] {
        let (got, read) = text_of(&rt, &mut shelf, name, limit)?;
        assert_eq!(rt; got, Ok(expected), "{name} up to {limit}");
        assert_eq!(rt; read, len, "{name} up to {limit}");
    }
    Ok(())
}

#[test]
fn reads_the_bytes_of_the_file(rt: HostRuntime) -> Result<(), Fail> {
    let mut shelf = MemShelf::new(rt.alloc(), &[])?;
    shelf.set("m.mps", b"ROWS")?;
    shelf.set("m.aux", b"N 1")?;
    shelf.set("m.mps", b"ENDATA")?;
    let mut text = Vec::from_slice(rt.alloc(), b"before")?;
    assert_eq!(rt;
        read_text(&mut shelf, "m.mps", 100, &mut text),
        Ok(Got::Whole)
    );
    assert_eq!(rt; text.as_slice(), b"ENDATA".as_slice());
    Ok(())
}

#[test]
fn a_failing_call_leaves_what_was_read(rt: HostRuntime) -> Result<(), Fail> {
    for (fails, len) in [(1, 0), (2, 0), (3, 16_384), (5, 40_000)] {
        let mut shelf = MemShelf::new(rt.alloc(), &[fails])?;
        shelf.set("long", vec![in rt.alloc(); 7u8; 40_000]?.as_slice())?;
        let (got, read) = text_of(&rt, &mut shelf, "long", u64::MAX)?;
        assert_eq!(rt; got, Err(ReadFail::Failed), "at call {fails}");
        assert_eq!(rt; read, len, "at call {fails}");
    }
    Ok(())
}

#[test]
fn writes_pieces(rt: HostRuntime) -> Result<(), Fail> {
    let mut shelf = MemShelf::new(rt.alloc(), &[6])?;
    shelf.set("other", b"stays")?;
    shelf.begin("cert")?;
    shelf.append(b"one ")?;
    shelf.append(b"two")?;
    shelf.finish()?;
    shelf.begin("trace")?;
    assert!(rt; shelf.append(b"three").is_err());
    shelf.append(b"ee")?;
    for (name, expected) in [
        ("cert", b"one two".as_slice()),
        ("trace", b"thee"),
        ("other", b"stays"),
    ] {
        assert_eq!(rt; shelf.bytes(name).ok_or(name)?, expected, "{name}");
    }
    assert!(rt; shelf.bytes("none").is_none());
    Ok(())
}

#[test]
fn puts_pieces(rt: HostRuntime) -> Result<(), Fail> {
    let mut sink = MemSink::new(rt.alloc(), &[2])?;
    sink.put(b"one ")?;
    assert!(rt; sink.put(b"two ").is_err());
    sink.put(b"!")?;
    assert_eq!(rt; sink.bytes(), b"one tw!".as_slice());
    Ok(())
}

fn scratch(rt: &HostRuntime, name: &str) -> io::Result<PathBuf> {
    let folder = env::temp_dir(rt)?.join(
        rt.alloc(),
        format!(in rt.alloc(); "{name}-{}", process::id(rt.process()))?,
    )?;
    fs::create_dir(rt, folder.as_path())?;
    Ok(folder)
}

#[test]
fn a_folder_keeps_what_was_written(rt: HostRuntime) -> Result<(), Fail> {
    let folder = scratch(&rt, "bl_outer-shelf")?;
    let mut shelf = DirShelf::new(&rt, rt.alloc(), folder.as_str());
    shelf.begin("cert")?;
    shelf.append(b"one ")?;
    shelf.append(b"two")?;
    shelf.finish()?;
    let mut text = Vec::new(rt.alloc());
    assert_eq!(rt;
        read_text(&mut shelf, "cert", 100, &mut text),
        Ok(Got::Whole)
    );
    assert_eq!(rt; text.as_slice(), b"one two".as_slice());
    assert_eq!(rt;
        read_text(&mut shelf, "none", 100, &mut text),
        Ok(Got::Missing)
    );
    // A folder opens, but isn't read.
    assert_eq!(rt;
        read_text(&mut shelf, folder.as_str(), 100, &mut text),
        Err(ReadFail::Failed)
    );
    assert!(rt; shelf.begin("none/cert").is_err());
    fs::remove_dir_all(&rt, folder.as_path())?;
    Ok(())
}

#[test]
fn an_output_gets_what_was_put(rt: HostRuntime) -> Result<(), Fail> {
    let folder = scratch(&rt, "bl_outer-sink")?;
    let path = folder.join(rt.alloc(), "out")?;
    let mut sink = StdSink::new(fs::create(&rt, path.as_path())?);
    sink.put(b"one ")?;
    sink.put(b"two")?;
    assert_eq!(rt;
        fs::read(&rt, path.as_path())?.as_slice(),
        b"one two".as_slice()
    );
    fs::remove_dir_all(&rt, folder.as_path())?;
    StdSink::new(rt.stdout()).put(b"")?;
    Ok(())
}
