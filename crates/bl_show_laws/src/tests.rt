//! What `show` prints, split at its parts and shown again through files.
use bl_outer::{MemShelf, MemSink};
use bl_run::{Status, run_show};
use std::alloc::{AllocError, Global};
use std::test::Fail;

/// A leader who maximises, comments, an equation, a range and binary columns.
const TOLL: &str = "\
* An authority sets a toll on the fast road.
NAME          TOLL
OBJSENSE
    MAX
ROWS
 N  EARNED
 E  ONEROAD
 L  PAID
 G  SEVERAL
COLUMNS
    MARKER1   'MARKER'  'INTORG'
    TOLL      PAID         1   SEVERAL      2
    FAST      ONEROAD      1   PAID         5
    SLOW      ONEROAD      1
    REVENUE   EARNED       1   PAID        -1
    MARKER2   'MARKER'  'INTEND'
RHS
    RHS       ONEROAD      1   PAID         5
RANGES
    RANGE     SEVERAL     10
BOUNDS
 UP BND       TOLL      5
 BV BND       FAST
 BV BND       SLOW
 UP BND       REVENUE   5
ENDATA
";

const TOLL_AUX: &str = "N 3\nM 2\nLC 1\nLC 2\nLC 3\nLR 0\nLR 1\nLO 2\nLO 6\nLO 1\nOS 1\n";

/// Shows two texts. The tests don't use what the call promises.
fn show(
    alloc: Global,
    words: &[String],
    files: &mut MemShelf,
    out: &mut MemSink,
    err: &mut MemSink,
) -> Status {
    run_show(alloc, words, files, out, err)
}

/// What `show` prints of two texts, nothing where it refuses them.
fn shown(alloc: Global, mps: &str, aux: &str) -> Result<String, AllocError> {
    let mut words = Vec::new(alloc);
    for word in ["show", "m.mps", "m.aux"] {
        words.push(String::from_str(alloc, word)?)?;
    }
    let mut files = MemShelf::new(alloc, &[])?;
    files.set("m.mps", mps.as_bytes())?;
    files.set("m.aux", aux.as_bytes())?;
    let mut out = MemSink::new(alloc, &[])?;
    let mut err = MemSink::new(alloc, &[])?;
    let _status = show(alloc, &words, &mut files, &mut out, &mut err);
    match str::from_utf8(out.bytes()) {
        Ok(text) => String::from_str(alloc, text),
        Err(_) => Ok(String::new(alloc)),
    }
}

#[test]
fn what_is_shown_is_shown_again(rt: HostRuntime) -> Result<(), Fail> {
    let first = shown(rt.alloc(), TOLL, TOLL_AUX)?;
    let (model, rest) = first.split_once("ENDATA\n").unwrap_or(("", ""));
    let (follower, links) = rest.split_once("links").unwrap_or(("", ""));
    assert_eq!(rt; links, " 0\n");
    let mut text = String::from_str(rt.alloc(), model)?;
    text.push_str("ENDATA\n")?;
    let again = shown(rt.alloc(), &text, follower)?;
    assert_eq!(rt; again, first);
    let whole = shown(rt.alloc(), &first, follower)?;
    assert_eq!(rt; whole, first);
    Ok(())
}
