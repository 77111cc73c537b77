//! What `check` tells of certificates that were worked out by hand, and of texts that break one rule each.

mod texts;

use bl_outer::{MemShelf, MemSink};
use bl_run::run_check;
use std::alloc::{AllocError, Global};
use std::test::Fail;
use texts::{
    CUT, CUT_AUX, CUT_CERT, GREATEST_HEAD, HEAD, LEAST_HEAD, TURNED_CUT, UNWILLING, UNWILLING_AUX,
    UNWILLING_CERT,
};

/// A piece of a certificate, what stands in its place, and the line and rule at which the text is refused.
type Change = (&'static str, &'static str, &'static str);

const UNWILLING_CHANGES: [Change; 5] = [
    (" 0:1 1:1\n", " 0:1\n", "line 9: Proof"),
    ("close 0 v", "close 00 v", "line 9: Syntax"),
    ("close 0 v 0 0:1 1:1\n", "", "line 9: Syntax"),
    ("end\n", "end", "line 10: Syntax"),
    ("end\n", "end\n ", "line 11: Tail"),
];

const CUT_CHANGES: [Change; 20] = [
    ("optimal -1", "optimal -2", "line 3: Point"),
    ("point 1 0", "point 1 1", "line 3: Point"),
    ("point 1 0", "point 2 0", "line 3: Place"),
    ("entry 1", "entry 0", "line 8: Follower"),
    ("best 0 0", "best 1 0", "line 6: Best"),
    ("best 0 0", "best 1 1", "line 7: Proof"),
    ("proof 1", "proof 1125899906842625", "line 7: Syntax"),
    ("cuts 1", "cuts 2", "line 17: Syntax"),
    ("box 0 1 0 1", "box 1 1 0 1", "line 18: Cited"),
    ("tight r0 u0", "tight u0 r0", "line 11: Place"),
    ("inverse 1", "inverse 2", "line 13: Inverse"),
    ("inverse 1", "inverse 0", "line 12: Place"),
    ("unit 1:1\n", "unit 0:1\n", "line 13: Inverse"),
    ("at 1 1", "at 0 0", "line 15: Tight"),
    ("response 0", "response 1", "line 16: Response"),
    ("close 1 - 1 0 2:2", "close 1 v 1 0 2:2", "line 18: Cited"),
    ("close 1 - 1 0 2:2", "close 1 - 1 1 2:2", "line 18: Place"),
    ("close 1 - 1 0 2:2", "close 1 - 1 0 2:1", "line 18: Proof"),
    ("close 1 - 1 0 2:2", "close 1 - 0", "line 18: Proof"),
    ("close 1 - 1 0 2:2", "none", "line 18: Cited"),
];

const UNWILLING_ANSWER: &str = "0\naccepted\ninfeasible\n";

const CUT_ANSWER: &str = "0\naccepted\noptimal\nvalue -1\nfollower 0\ncolumn X 1\ncolumn Y 0\n";

const TURNED_ANSWER: &str = "0\naccepted\noptimal\nvalue 1\nfollower 0\ncolumn X 1\ncolumn Y 0\n";

/// The status, and what is printed on both outputs, where the text stands in `m.cert`.
fn told(alloc: Global, mps: &str, aux: &str, cert: &str) -> Result<String, AllocError> {
    let mut files = MemShelf::new(alloc, &[])?;
    files.set("m.mps", mps.as_bytes())?;
    files.set("m.aux", aux.as_bytes())?;
    files.set("m.cert", cert.as_bytes())?;
    let mut words = Vec::new(alloc);
    for word in ["check", "m.mps", "m.aux", "m.cert"] {
        words.push(String::from_str(alloc, word)?)?;
    }
    let mut out = MemSink::new(alloc, &[])?;
    let mut err = MemSink::new(alloc, &[])?;
    let status = run_check(alloc, &words, &mut files, &mut out, &mut err);
    let out = str::from_utf8(out.bytes()).unwrap_or("");
    let err = str::from_utf8(err.bytes()).unwrap_or("");
    format!(in alloc; "{}\n{out}{err}", status.0)
}

/// What is told where the text is refused.
fn refusal(alloc: Global, place: &str) -> Result<String, AllocError> {
    format!(in alloc; "9\nmibs: m.cert: {place}\n")
}

/// The text with one piece for another.
fn edited(alloc: Global, text: &str, old: &str, new: &str) -> Result<String, Fail> {
    let (front, back) = text.split_once(old).ok_or("no such piece")?;
    Ok(format!(in alloc; "{front}{new}{back}")?)
}

#[test]
fn worked_certificates(rt: HostRuntime) -> Result<(), Fail> {
    let alloc = rt.alloc();
    let least = edited(alloc, CUT_CERT, HEAD, LEAST_HEAD)?;
    let greatest = edited(alloc, CUT_CERT, HEAD, GREATEST_HEAD)?;
    let rows = [
        (UNWILLING, UNWILLING_AUX, UNWILLING_CERT, UNWILLING_ANSWER),
        (CUT, CUT_AUX, CUT_CERT, CUT_ANSWER),
        (CUT, CUT_AUX, least.as_str(), CUT_ANSWER),
        (TURNED_CUT, CUT_AUX, greatest.as_str(), TURNED_ANSWER),
    ];
    for (mps, aux, cert, want) in rows {
        let answer = told(alloc, mps, aux, cert)?;
        assert_eq!(rt; answer.as_str(), want);
    }
    Ok(())
}

#[test]
fn the_other_sense_is_refused(rt: HostRuntime) -> Result<(), Fail> {
    let alloc = rt.alloc();
    let least = edited(alloc, CUT_CERT, HEAD, LEAST_HEAD)?;
    let greatest = edited(alloc, CUT_CERT, HEAD, GREATEST_HEAD)?;
    let rows = [
        (TURNED_CUT, CUT_CERT, "line 1: Sense"),
        (TURNED_CUT, least.as_str(), "line 2: Sense"),
        (CUT, greatest.as_str(), "line 2: Sense"),
    ];
    for (mps, cert, place) in rows {
        let answer = told(alloc, mps, CUT_AUX, cert)?;
        let want = refusal(alloc, place)?;
        assert_eq!(rt; answer.as_str(), want.as_str());
    }
    Ok(())
}

#[test]
fn each_change_is_refused(rt: HostRuntime) -> Result<(), Fail> {
    let alloc = rt.alloc();
    for (old, new, place) in UNWILLING_CHANGES {
        let cert = edited(alloc, UNWILLING_CERT, old, new)?;
        let answer = told(alloc, UNWILLING, UNWILLING_AUX, &cert)?;
        let want = refusal(alloc, place)?;
        assert_eq!(rt; answer.as_str(), want.as_str(), "{new:?} for {old:?}");
    }
    for (old, new, place) in CUT_CHANGES {
        let cert = edited(alloc, CUT_CERT, old, new)?;
        let answer = told(alloc, CUT, CUT_AUX, &cert)?;
        let want = refusal(alloc, place)?;
        assert_eq!(rt; answer.as_str(), want.as_str(), "{new:?} for {old:?}");
    }
    Ok(())
}

#[test]
fn each_shorter_text_is_refused(rt: HostRuntime) -> Result<(), Fail> {
    for end in 0..CUT_CERT.len() {
        let cert = CUT_CERT.get(..end).ok_or("not a boundary")?;
        let answer = told(rt.alloc(), CUT, CUT_AUX, cert)?;
        assert!(rt;
            answer.starts_with("9\n"),
            "{answer:?} of the first {end} bytes"
        );
    }
    Ok(())
}
