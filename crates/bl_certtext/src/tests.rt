//! Texts that have the form of a certificate, and the first lines at which others haven't.
use super::*;
use bl_examples::{leader_row, least_under_leader};
use bl_model::Bilevel;
use std::alloc::{AllocError, Global};
use std::test::Fail;

/// The leader's row isn't met, so nothing is bilevel feasible.
const NOTHING: &str = "mibs-certificate 1
states infeasible
entries 1
entry
best 0 0
proof 1
cuts 0
tree
close 0 v 0 0:1 1:1
end
";

const CUT: &str = "mibs-certificate 2
sense min
states optimal -1
point 1 0
entries 1
entry 1
best 0 0
split 1 2
proof 1
proof 0 0:1
cuts 1
cut
box 0 1 0 1
tight r0 u0
inverse 1
unit 1:1
unit 0:1 1:1
at 1 1
response 0
tree
split 0 1
close 1 - 1 0 2:2
none
end
";

fn read(alloc: Global, model: &Bilevel, text: &[u8]) -> Result<RawCert, CertError> {
    read_cert(alloc, text, model)
}

/// The line at which the text isn't a certificate.
fn fault_in(alloc: Global, model: &Bilevel, text: &[u8]) -> Option<u64> {
    match read(alloc, model, text) {
        Err(CertError::Fault { line }) => Some(line),
        _ => None,
    }
}

/// What is read, written again.
fn reread(alloc: Global, model: &Bilevel, text: &str) -> Result<Option<Vec<u8>>, AllocError> {
    let Ok(cert) = read(alloc, model, text.as_bytes()) else {
        return Ok(None);
    };
    let mut again = Vec::new(alloc);
    for line in cert.lines.as_slice() {
        put_line(&mut again, line)?;
    }
    Ok(Some(again))
}

/// The text with one piece for another.
fn edited(alloc: Global, text: &str, old: &str, new: &str) -> Result<String, Fail> {
    let (front, back) = text.split_once(old).ok_or("no such piece")?;
    Ok(format!(in alloc; "{front}{new}{back}")?)
}

#[test]
fn texts_both_ways(rt: HostRuntime) -> Result<(), Fail> {
    let nothing = leader_row(rt.alloc())?;
    let again = reread(rt.alloc(), &nothing, NOTHING)?.ok_or("not read")?;
    assert_eq!(rt; again.as_slice(), NOTHING.as_bytes());
    let cut = least_under_leader(rt.alloc())?;
    let again = reread(rt.alloc(), &cut, CUT)?.ok_or("not read")?;
    assert_eq!(rt; again.as_slice(), CUT.as_bytes());
    Ok(())
}

#[test]
fn first_faults(rt: HostRuntime) -> Result<(), Fail> {
    let model = least_under_leader(rt.alloc())?;
    let rows = [
        ("cate 2\n", "cate 3\n", 1),
        ("cate 2\n", "cate 02\n", 1),
        ("sense min\n", "", 2),
        ("point 1 0\n", "point 1\n", 4),
        ("point 1 0\n", "point 4 0\n", 4),
        ("entries 1\n", "entries 2\n", 11),
        ("entries 1\n", "entries 0\n", 6),
        ("entry 1\n", "entry -1\n", 6),
        ("best 0 0\n", "best 0 6\n", 7),
        ("split 1 2\n", "split 0 1\n", 8),
        ("split 1 2\n", "split 1 5\n", 8),
        ("proof 0 0:1\n", "proof 0 1:1\n", 10),
        ("proof 0 0:1\n", "", 10),
        ("cuts 1\n", "cuts 2\n", 20),
        ("box 0 1 0 1\n", "box 0 4 0 1\n", 13),
        ("box 0 1 0 1\n", "box 1 0 0 1\n", 13),
        ("tight r0 u0\n", "tight u0 r0\n", 14),
        ("tight r0 u0\n", "tight r0 r0\n", 14),
        ("tight r0 u0\n", "tight r0 c0\n", 14),
        ("inverse 1\n", "inverse 0\n", 15),
        ("unit 1:1\n", "unit 2:1\n", 16),
        ("unit 0:1 1:1\n", "unit 1:1 0:1\n", 17),
        ("at 1 1\n", "at 1 6\n", 18),
        ("response 0\n", "response -1\n", 19),
        ("split 0 1\n", "split 2 1\n", 21),
        ("close 1 - 1 0 2:2\n", "close 1 - 1 1 2:2\n", 22),
        ("close 1 - 1 0 2:2\n", "close 1 - 1 0 1:2\n", 22),
        ("close 1 - 1 0 2:2\n", "close 1 - 1 0 3:2\n", 22),
        ("none\n", "", 23),
        ("end\n", "end", 24),
        ("end\n", "end\n\n", 25),
    ];
    for (old, new, line) in rows {
        let text = edited(rt.alloc(), CUT, old, new)?;
        let fault = fault_in(rt.alloc(), &model, text.as_bytes());
        assert_eq!(rt; fault, Some(line), "at {new:?} for {old:?}");
    }
    Ok(())
}

/// No front of a certificate is one.
#[test]
fn fronts(rt: HostRuntime) -> Result<(), Fail> {
    let model = least_under_leader(rt.alloc())?;
    let text = CUT.as_bytes();
    for end in 0..text.len() {
        assert!(rt; fault_in(rt.alloc(), &model, &text[..end]).is_some());
    }
    assert_eq!(rt; fault_in(rt.alloc(), &model, b""), Some(1));
    Ok(())
}
