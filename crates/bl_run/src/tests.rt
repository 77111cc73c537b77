//! Whole runs over files and outputs in memory. Each answer was worked out by hand.

mod texts;

use crate::{Status, out_of_memory, run, run_alone, run_check, run_show};
use bl_outer::{MemShelf, MemSink, NoGate};
use std::alloc::{AllocError, Global};
use std::sync::Wait;
use std::test::Fail;
use std::thread::Threads;
use texts::{
    ALONE, CHOICE, CUT, FIXED, FIXED_APART, GREATEST, HALF, INTERDICTION, INTERDICTION_AUX,
    MOORE_BARD, MOORE_BARD_AUX, MOORE_BARD_SHOWN, OPEN, RAMP, RANGE, RANGE_SHOWN, TIES, TIES_AUX,
    TOLL, TOLL_AUX, UNWILLING, WIDE,
};

const NO_FOLLOWER: &str = "N 0\nM 0\nOS 1\n";

const UNWILLING_AUX: &str = "N 1\nM 0\nLC 1\nLO 1\nOS 1\n";

const CUT_AUX: &str = "N 1\nM 1\nLC 1\nLR 0\nLO 1\n";

/// The words of a line, where blanks stand between them, the two texts, and what a run over them tells: its status, and
/// behind it what it printed on both outputs. Where that ends in a blank, it is only the beginning, since several
/// points are optimal.
type Case = (&'static str, &'static str, &'static str, &'static str);

const ANSWERS: [Case; 20] = [
    (
        "solve m.mps m.aux",
        MOORE_BARD,
        MOORE_BARD_AUX,
        "0\noptimal\nvalue -22\nfollower 2\ncolumn X 2\ncolumn Y 2\n",
    ),
    (
        "solve m.mps m.aux --nodes 241 --follower-nodes=21",
        MOORE_BARD,
        MOORE_BARD_AUX,
        "0\noptimal\nvalue -22\nfollower 2\ncolumn X 2\ncolumn Y 2\n",
    ),
    (
        "solve m.mps m.aux --nodes 1",
        MOORE_BARD,
        MOORE_BARD_AUX,
        "4\nmibs: node budget 1 spent with 1 nodes\n",
    ),
    (
        "solve m.mps m.aux",
        TOLL,
        TOLL_AUX,
        "0\noptimal\nvalue 4\nfollower 6\n\
         column TOLL 4\ncolumn FAST 1\ncolumn SLOW 0\ncolumn REVENUE 4\n",
    ),
    (
        "solve m.mps m.aux",
        INTERDICTION,
        INTERDICTION_AUX,
        "0\noptimal\nvalue 4\nfollower 4\ncolumn STOP1 1\ncolumn STOP2 0\ncolumn STOP3 0\n\
         column TAKE1 0\ncolumn TAKE2 1\ncolumn TAKE3 0\n",
    ),
    (
        "solve m.mps m.aux",
        TIES,
        TIES_AUX,
        "0\noptimal\nvalue -7\nfollower 3\ncolumn ORDER 3\ncolumn NORTH 2\ncolumn SOUTH 1\n",
    ),
    (
        "solve m.mps m.aux",
        RAMP,
        "N 1\nM 1\nLC 1\nLR 0\nLO 1\nOS -1\n",
        "0\noptimal\nvalue -3\nfollower 3\ncolumn X 3\ncolumn Y 3\n",
    ),
    (
        "solve m.mps m.aux",
        RAMP,
        "N 1\nM 1\nLC 1\nLR 0\nLO 1\nOS 1\n",
        "0\noptimal\nvalue -6\nfollower 0\ncolumn X 3\ncolumn Y 0\n",
    ),
    (
        "solve m.mps m.aux",
        GREATEST,
        "N 1\nM 1\nLC 1\nLR 0\nLO 1\nOS -1\n",
        "0\noptimal\nvalue 3\nfollower 3\ncolumn X 3\ncolumn Y 3\n",
    ),
    (
        "solve m.mps m.aux",
        CHOICE,
        "N 2\nM 0\nLC 1\nLC 2\nLO 0\nLO 0\nOS 1\n",
        "0\noptimal\nvalue -1\nfollower 0\ncolumn X ",
    ),
    (
        "solve --nodes=1 m.mps m.aux",
        UNWILLING,
        UNWILLING_AUX,
        "1\ninfeasible\n",
    ),
    (
        "solve m.mps m.aux",
        ALONE,
        NO_FOLLOWER,
        "0\noptimal\nvalue -7\nfollower 0\ncolumn A 2\ncolumn B 1\n",
    ),
    (
        "solve m.mps m.aux --nodes 1",
        FIXED,
        NO_FOLLOWER,
        "0\noptimal\nvalue 6\nfollower 0\ncolumn X 3\n",
    ),
    (
        "solve m.mps m.aux --nodes 1",
        FIXED_APART,
        NO_FOLLOWER,
        "1\ninfeasible\n",
    ),
    (
        "solve m.mps --follower-nodes 1 m.aux",
        HALF,
        "N 1\nM 1\nLC 1\nLR 0\nLO 3\n",
        "5\nmibs: follower budget 1 spent with 1 nodes at link\n",
    ),
    (
        "solve m.mps --follower-nodes 3 m.aux",
        HALF,
        "N 1\nM 1\nLC 1\nLR 0\nLO 3\n",
        "0\noptimal\nvalue -1\nfollower 3\ncolumn X 1\ncolumn Y 1\n",
    ),
    (
        "solve m.mps m.aux --nodes 1",
        CUT,
        CUT_AUX,
        "0\noptimal\nvalue -1\nfollower 0\ncolumn X 1\ncolumn Y 0\n",
    ),
    (
        "solve m.mps m.aux",
        WIDE,
        "N 1\nM 0\nLC 6\nLO 1\n",
        "0\noptimal\nvalue 6\nfollower 0\ncolumn X1 1\ncolumn X2 1\ncolumn X3 1\ncolumn X4 1\n\
         column X5 1\ncolumn X6 1\ncolumn Y 0\n",
    ),
    (
        "solve m.mps m.aux",
        OPEN,
        NO_FOLLOWER,
        "0\noptimal\nvalue -1\nfollower 0\ncolumn X 1\n",
    ),
    (
        "solve --default-upper 9 m.mps m.aux",
        OPEN,
        NO_FOLLOWER,
        "0\noptimal\nvalue -9\nfollower 0\ncolumn X 9\n",
    ),
];

const REFUSALS: [Case; 15] = [
    (
        "solve m.mps",
        ALONE,
        NO_FOLLOWER,
        "2\nmibs: words not understood\n",
    ),
    (
        "solve m.mps m.aux --nodes 0",
        ALONE,
        NO_FOLLOWER,
        "2\nmibs: words not understood\n",
    ),
    (
        "show m.mps m.aux --nodes 5",
        ALONE,
        NO_FOLLOWER,
        "2\nmibs: words not understood\n",
    ),
    (
        "solve m.mps m.aux --cert m.mps",
        ALONE,
        NO_FOLLOWER,
        "2\nmibs: words not understood\n",
    ),
    (
        "check m.mps m.aux",
        ALONE,
        NO_FOLLOWER,
        "2\nmibs: words not understood\n",
    ),
    (
        "check m.mps m.aux --cert m.cert",
        ALONE,
        NO_FOLLOWER,
        "2\nmibs: words not understood\n",
    ),
    (
        "solve m.mps m.aux",
        "NAME\nBOGUS\n",
        NO_FOLLOWER,
        "3\nmibs: m.mps: line 2: BadSection\n",
    ),
    (
        "solve m.mps m.aux",
        "ROWS\n N COST\nCOLUMNS\n M 'MARKER' 'INTORG'\n X COST 1\nBOUNDS\n UP BND X 1e30\nENDATA\n",
        NO_FOLLOWER,
        "3\nmibs: m.mps: column 0: Unbounded\n",
    ),
    (
        "show m.mps m.aux",
        "ROWS\nCOLUMNS\nENDATA\n",
        NO_FOLLOWER,
        "3\nmibs: m.mps: NoObjective\n",
    ),
    (
        "solve m.mps m.aux",
        ALONE,
        "N 1\nM 0\nLC 1\nLC 1\n",
        "3\nmibs: m.aux: line 4: Repeated\n",
    ),
    (
        "solve m.mps m.aux",
        ALONE,
        "N 1\nM 0\nLC 1\n",
        "3\nmibs: m.aux: CountDiffers\n",
    ),
    (
        "solve other.mps m.aux",
        ALONE,
        NO_FOLLOWER,
        "10\nmibs: other.mps: missing\n",
    ),
    (
        "solve m.mps other.aux",
        ALONE,
        NO_FOLLOWER,
        "10\nmibs: other.aux: missing\n",
    ),
    (
        "solve m.aux other.aux",
        ALONE,
        NO_FOLLOWER,
        "3\nmibs: m.aux: line 1: BadSection\n",
    ),
    (
        "check m.mps m.aux other.cert",
        ALONE,
        NO_FOLLOWER,
        "10\nmibs: other.cert: missing\n",
    ),
];

/// The two texts of a model with one best point at most, what `solve` tells of it, and what `check` tells of the
/// certificate of that answer.
const CERTIFIED: [(&str, &str, &str, &str); 2] = [
    (
        UNWILLING,
        UNWILLING_AUX,
        "1\ninfeasible\n",
        "0\naccepted\ninfeasible\n",
    ),
    (
        TIES,
        TIES_AUX,
        "0\noptimal\nvalue -7\nfollower 3\ncolumn ORDER 3\ncolumn NORTH 2\ncolumn SOUTH 1\n",
        "0\naccepted\noptimal\nvalue -7\nfollower 3\ncolumn ORDER 3\ncolumn NORTH 2\ncolumn SOUTH 1\n",
    ),
];

/// What is shown of a model.
const SHOWN: [Case; 2] = [
    (
        "show m.mps m.aux",
        MOORE_BARD,
        MOORE_BARD_AUX,
        MOORE_BARD_SHOWN,
    ),
    ("show m.mps m.aux", RANGE, NO_FOLLOWER, RANGE_SHOWN),
];

/// The calls of the shelf and of `out` that fail, and what is told then.
type Fault = (&'static [u64], &'static [u64], &'static str);

const FAULTS: [Fault; 4] = [
    (&[1], &[], "6\nmibs: read fault: m.mps\n"),
    (&[2], &[], "6\nmibs: read fault: m.mps\n"),
    (&[4], &[], "6\nmibs: read fault: m.aux\n"),
    (
        &[],
        &[1],
        "7\nNAME\nOBJSENSE\n MAX\nROWS\n N COST\n G R\nCOLUMNS\n MARKER 'MARKER' 'INTORG'\n X COST 1\n X R 2\n MARKER \
         'MARKmibs: write fault\n",
    ),
];

fn words_of(alloc: Global, line: &str) -> Result<Vec<String>, AllocError> {
    let mut words = Vec::new(alloc);
    for word in line.split(' ') {
        words.push(String::from_str(alloc, word)?)?;
    }
    Ok(words)
}

fn shelf(alloc: Global, mps: &str, aux: &str, fails: &[u64]) -> Result<MemShelf, AllocError> {
    let mut shelf = MemShelf::new(alloc, fails)?;
    shelf.set("m.mps", mps.as_bytes())?;
    shelf.set("m.aux", aux.as_bytes())?;
    Ok(shelf)
}

/// The status, and what was printed on both outputs.
fn told(alloc: Global, status: Status, out: &MemSink, err: &MemSink) -> Result<String, AllocError> {
    let out = str::from_utf8(out.bytes()).unwrap_or("");
    let err = str::from_utf8(err.bytes()).unwrap_or("");
    format!(in alloc; "{}\n{out}{err}", status.0)
}

/// What the program tells.
fn told_by_run<R: Threads + Wait + Sync>(
    rt: &R,
    alloc: Global,
    words: &[String],
    files: &mut MemShelf,
) -> Result<String, AllocError> {
    let mut out = MemSink::new(alloc, &[])?;
    let mut err = MemSink::new(alloc, &[])?;
    let status = run(rt, alloc, words, files, &mut out, &mut err, &NoGate);
    told(alloc, status, &out, &err)
}

/// What the same tells on one thread.
fn told_alone(alloc: Global, words: &[String], files: &mut MemShelf) -> Result<String, AllocError> {
    let mut out = MemSink::new(alloc, &[])?;
    let mut err = MemSink::new(alloc, &[])?;
    let status = run_alone(alloc, words, files, &mut out, &mut err);
    told(alloc, status, &out, &err)
}

/// What `check` alone tells of the text in `m.cert`.
fn told_by_check(
    alloc: Global,
    words: &[String],
    files: &mut MemShelf,
) -> Result<String, AllocError> {
    let mut out = MemSink::new(alloc, &[])?;
    let mut err = MemSink::new(alloc, &[])?;
    let status = run_check(alloc, words, files, &mut out, &mut err);
    told(alloc, status, &out, &err)
}

/// What `show` alone tells, where calls of `out` fail.
fn told_by_show(
    alloc: Global,
    words: &[String],
    files: &mut MemShelf,
    out_fails: &[u64],
) -> Result<String, AllocError> {
    let mut out = MemSink::new(alloc, out_fails)?;
    let mut err = MemSink::new(alloc, &[])?;
    let status = run_show(alloc, words, files, &mut out, &mut err);
    told(alloc, status, &out, &err)
}

/// Whether this was told, or begins what was told.
fn is_told(told: &str, want: &str) -> bool {
    told == want || (want.ends_with(' ') && told.starts_with(want))
}

#[test]
fn solves_the_worked_examples(rt: HostRuntime) -> Result<(), Fail> {
    for (line, mps, aux, want) in ANSWERS {
        let words = words_of(rt.alloc(), line)?;
        let mut files = shelf(rt.alloc(), mps, aux, &[])?;
        let told = told_by_run(&rt, rt.alloc(), &words, &mut files)?;
        assert!(rt; is_told(&told, want), "{told:?} is {want:?}");
    }
    Ok(())
}

#[test]
fn tells_of_each_refusal(rt: HostRuntime) -> Result<(), Fail> {
    for (line, mps, aux, want) in REFUSALS {
        let words = words_of(rt.alloc(), line)?;
        let mut files = shelf(rt.alloc(), mps, aux, &[])?;
        let told = told_alone(rt.alloc(), &words, &mut files)?;
        assert!(rt; is_told(&told, want), "{told:?} is {want:?}");
    }
    Ok(())
}

#[test]
fn shows_the_canonical_texts(rt: HostRuntime) -> Result<(), Fail> {
    for (line, mps, aux, want) in SHOWN {
        let words = words_of(rt.alloc(), line)?;
        let mut files = shelf(rt.alloc(), mps, aux, &[])?;
        let told = told_by_run(&rt, rt.alloc(), &words, &mut files)?;
        assert!(rt; is_told(&told, want), "{told:?} is {want:?}");
    }
    Ok(())
}

#[test]
fn tells_of_each_fault(rt: HostRuntime) -> Result<(), Fail> {
    let words = words_of(rt.alloc(), "show m.mps m.aux")?;
    for (shelf_fails, out_fails, want) in FAULTS {
        let mut files = shelf(rt.alloc(), RANGE, NO_FOLLOWER, shelf_fails)?;
        let told = told_by_show(rt.alloc(), &words, &mut files, out_fails)?;
        assert!(rt; is_told(&told, want), "{told:?} is {want:?}");
    }
    Ok(())
}

#[test]
fn other_commands_are_unknown_to_show(rt: HostRuntime) -> Result<(), Fail> {
    let words = words_of(rt.alloc(), "solve m.mps m.aux")?;
    let mut files = shelf(rt.alloc(), RANGE, NO_FOLLOWER, &[])?;
    let told = told_by_show(rt.alloc(), &words, &mut files, &[])?;
    assert_eq!(rt; told.as_str(), "2\nmibs: words not understood\n");
    let mut err = MemSink::new(rt.alloc(), &[])?;
    let status = out_of_memory(&mut err);
    assert_eq!(rt; status, Status(8));
    assert_eq!(rt; err.bytes(), b"mibs: want of memory\n".as_slice());
    Ok(())
}

#[test]
fn other_commands_are_unknown_to_check(rt: HostRuntime) -> Result<(), Fail> {
    for line in ["solve m.mps m.aux", "show m.mps m.aux"] {
        let words = words_of(rt.alloc(), line)?;
        let mut files = shelf(rt.alloc(), RANGE, NO_FOLLOWER, &[])?;
        let told = told_by_check(rt.alloc(), &words, &mut files)?;
        assert_eq!(rt; told.as_str(), "2\nmibs: words not understood\n");
    }
    Ok(())
}

#[test]
fn writes_certificates_that_are_accepted(rt: HostRuntime) -> Result<(), Fail> {
    let solve = words_of(rt.alloc(), "solve m.mps m.aux --cert m.cert")?;
    let check = words_of(rt.alloc(), "check m.mps m.aux m.cert")?;
    for (mps, aux, answer, accepted) in CERTIFIED {
        let mut files = shelf(rt.alloc(), mps, aux, &[])?;
        let told = told_alone(rt.alloc(), &solve, &mut files)?;
        assert!(rt; is_told(&told, answer), "{told:?} is {answer:?}");
        let told = told_alone(rt.alloc(), &check, &mut files)?;
        assert!(rt; is_told(&told, accepted), "{told:?} is {accepted:?}");
    }
    Ok(())
}

/// The calls of the shelf are numbered from 1: three to read each text, and then `begin`, `append` and `finish`.
#[test]
fn prints_nothing_where_the_certificate_is_not_written(rt: HostRuntime) -> Result<(), Fail> {
    let words = words_of(rt.alloc(), "solve m.mps m.aux --cert m.cert")?;
    for call in 7..10 {
        let mut files = shelf(rt.alloc(), UNWILLING, UNWILLING_AUX, &[call])?;
        let told = told_alone(rt.alloc(), &words, &mut files)?;
        assert_eq!(rt; told.as_str(), "7\nmibs: write fault\n");
        assert_eq!(rt; files.bytes("m.cert").is_some(), call != 7);
    }
    Ok(())
}

#[test]
fn writes_no_certificate_where_a_budget_is_spent(rt: HostRuntime) -> Result<(), Fail> {
    let words = words_of(rt.alloc(), "solve m.mps m.aux --nodes 1 --cert m.cert")?;
    let mut files = shelf(rt.alloc(), MOORE_BARD, MOORE_BARD_AUX, &[])?;
    let told = told_alone(rt.alloc(), &words, &mut files)?;
    assert_eq!(rt;
        told.as_str(),
        "4\nmibs: node budget 1 spent with 1 nodes\n"
    );
    assert!(rt; files.bytes("m.cert").is_none());
    Ok(())
}
