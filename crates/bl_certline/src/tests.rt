//! Lines that are read and written back, and lines that are refused.
use super::*;
use std::alloc::{AllocError, Global};
use std::test::Fail;

/// The line that is read, written again.
fn reread(alloc: Global, text: &str) -> Result<Option<Vec<u8>>, AllocError> {
    match read_line(alloc, text.as_bytes())? {
        Some(line) => Ok(Some(put(alloc, &line)?)),
        None => Ok(None),
    }
}

fn put(alloc: Global, line: &CertLine) -> Result<Vec<u8>, AllocError> {
    let mut text = Vec::new(alloc);
    put_line(&mut text, line)?;
    Ok(text)
}

#[test]
fn lines_both_ways(rt: HostRuntime) -> Result<(), Fail> {
    for text in [
        "mibs-certificate 1",
        "mibs-certificate 2",
        "sense min",
        "sense max",
        "states optimal -22",
        "states infeasible",
        "point 1 0",
        "point",
        "entries 1",
        "entry",
        "entry 1",
        "entry -9223372036854775808 9223372036854775807",
        "best 0 0",
        "best -7",
        "none",
        "split 0 3",
        "split -1 -4",
        "proof 1",
        "proof -1125899906842624 0:-1125899906842624 7:1125899906842624",
        "cuts 1",
        "cut",
        "box 0 1 0 1",
        "box",
        "tight r0 u0",
        "tight c3 l-1 u2 r0",
        "tight",
        "inverse 1",
        "inverse -2",
        "unit 0:1 1:1",
        "unit",
        "at 1 1",
        "response 0",
        "tree",
        "close 0 v 0 0:1 1:1",
        "close 1 - 1 0 2:2",
        "close 1 - 2 5 5",
        "close 0 - 0",
        "end",
    ] {
        let again = reread(rt.alloc(), text)?.ok_or("not read")?;
        let mut want = Vec::from_slice(rt.alloc(), text.as_bytes())?;
        want.push(b'\n')?;
        assert_eq!(rt; again.as_slice(), want.as_slice(), "at {text:?}");
    }
    Ok(())
}

#[test]
fn refused_lines(rt: HostRuntime) -> Result<(), Fail> {
    for text in [
        "",
        " ",
        "End",
        "end ",
        " end",
        "end 1",
        "end\r",
        "entry ",
        "entry  1",
        "entry\t1",
        "point 00",
        "point -0",
        "point +1",
        "point 1.0",
        "point 9223372036854775808",
        "mibs-certificate",
        "mibs-certificate 1 2",
        "sense",
        "sense MAX",
        "sense max min",
        "states",
        "states optimal",
        "states optimal 1 2",
        "states infeasible 1",
        "entries -1",
        "cuts -1",
        "best",
        "split 1",
        "split 1 2 3",
        "proof",
        "proof 1125899906842625",
        "proof 1 0:0",
        "proof 1 0:1125899906842625",
        "proof 1 0",
        "proof 1 0:1:2",
        "unit 1:1 1:1",
        "unit 2:1 1:1",
        "inverse 1125899906842625",
        "box 0",
        "box 0 1 2",
        "tight r",
        "tight r00",
        "tight r-0",
        "tight x0",
        "tight 0",
        "close 1 v",
        "close 1 v 1",
        "close 1 v 1 0:1",
        "close 1 v 0 5 0:1",
        "close 1 v -1",
        "close 1 w 0",
        "close 1 v 9223372036854775807 1",
    ] {
        assert_eq!(rt; reread(rt.alloc(), text)?, None, "at {text:?}");
    }
    Ok(())
}

/// A line whose indices don't rise is told from one that is no line.
#[test]
fn indices_in_any_order(rt: HostRuntime) -> Result<(), Fail> {
    let line = read_spelled(rt.alloc(), b"unit 2:1 1:1")?.ok_or("not read")?;
    assert!(rt; !pairs_rise(&line));
    let line = read_spelled(rt.alloc(), b"unit 1:1 2:1")?.ok_or("not read")?;
    assert!(rt; pairs_rise(&line));
    Ok(())
}

#[test]
fn fields(rt: HostRuntime) {
    let rows = [
        ("-12", Some(-12), None),
        ("0", Some(0), None),
        ("00", None, None),
        ("-0", None, None),
        ("3:-4", None, Some((3, -4))),
        ("-3:4", None, Some((-3, 4))),
        ("3:0", None, None),
        ("3:", None, None),
        (":4", None, None),
        ("3:4:5", None, None),
        ("", None, None),
    ];
    for (field, whole, pair) in rows {
        assert_eq!(rt; whole_field(field.as_bytes()), whole, "at {field:?}");
        assert_eq!(rt; pair_field(field.as_bytes()), pair, "at {field:?}");
    }
}

#[test]
fn line_feeds(rt: HostRuntime) {
    for (from, want) in [
        (0, Some(1)),
        (1, Some(1)),
        (2, Some(4)),
        (5, None),
        (9, None),
    ] {
        assert_eq!(rt; next_line(b"a\nbc\nd", from), want);
    }
}
