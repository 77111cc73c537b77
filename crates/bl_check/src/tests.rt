//! Two certificates that are accepted, worked out by hand, and texts that break one rule each.
use super::*;
use bl_examples::{leader_row, least_under_leader};
use bl_model::Bilevel;
use std::alloc::Global;
use std::test::Fail;

/// The leader's row isn't met where the follower answers best, so nothing is bilevel feasible.
const NOTHING: &str = "mibs-certificate 2
sense min
states infeasible
entries 1
entry
best 0 0
proof 1
cuts 0
tree
close 0 v 0 0:1 1:1
end
";

/// At (3, 3) the follower would rather have 0. The cut is valid, and the leaf cites it without need.
const OPTIMAL: &str = "mibs-certificate 2
sense min
states optimal -6
point 3 0
entries 1
entry 3
best 0 0
proof 1
cuts 1
cut
box 0 3 0 5
tight r0 u0
inverse 1
unit 1:1
unit 0:1 1:1
at 3 3
response 0
tree
close 1 - 1 0
end
";

/// Where the text is refused, and by which rule.
fn refusal(alloc: Global, model: &Bilevel, text: &[u8]) -> Option<(u64, CertRule)> {
    match check(alloc, model, text) {
        Err(CheckFail::Refused { line, rule }) => Some((line, rule)),
        _ => None,
    }
}

/// The text with one piece for another.
fn edited(alloc: Global, text: &str, old: &str, new: &str) -> Result<String, Fail> {
    let (front, back) = text.split_once(old).ok_or("no such piece")?;
    Ok(format!(in alloc; "{front}{new}{back}")?)
}

#[test]
fn accepted_texts(rt: HostRuntime) -> Result<(), Fail> {
    let nothing = leader_row(rt.alloc())?;
    let checked = check(rt.alloc(), &nothing, NOTHING.as_bytes());
    assert!(rt; matches!(&checked, Ok(Statement::Infeasible)));
    let model = least_under_leader(rt.alloc())?;
    let checked = check(rt.alloc(), &model, OPTIMAL.as_bytes());
    let Ok(Statement::Optimal { point, value }) = checked else {
        return Err("not accepted as optimal".into());
    };
    assert_eq!(rt; (point.as_slice(), value), ([3, 0].as_slice(), -6));
    Ok(())
}

#[test]
fn refused_texts(rt: HostRuntime) -> Result<(), Fail> {
    let model = least_under_leader(rt.alloc())?;
    let rows = [
        ("sense min\n", "sense max\n", 2, CertRule::Sense),
        ("optimal -6\n", "optimal -5\n", 4, CertRule::Point),
        ("point 3 0\n", "point 4 0\n", 4, CertRule::Place),
        ("best 0 0\n", "best 1 0\n", 7, CertRule::Best),
        ("proof 1\n", "proof 0\n", 8, CertRule::Proof),
        ("entry 3\n", "entry 2\n", 9, CertRule::Follower),
        ("unit 1:1\n", "unit 0:1\n", 14, CertRule::Inverse),
        ("at 3 3\n", "at 3 2\n", 16, CertRule::Tight),
        ("response 0\n", "response 3\n", 17, CertRule::Response),
        ("tree\n", "trees\n", 18, CertRule::Syntax),
        ("close 1 -", "close 1 v", 19, CertRule::Cited),
        ("close 1 -", "close 0 -", 19, CertRule::Proof),
        ("close 1 - 1 0\n", "none\n", 19, CertRule::Cited),
        ("end\n", "end\n\n", 21, CertRule::Tail),
    ];
    for (old, new, line, rule) in rows {
        let text = edited(rt.alloc(), OPTIMAL, old, new)?;
        let refused = refusal(rt.alloc(), &model, text.as_bytes());
        assert_eq!(rt; refused, Some((line, rule)), "at {new:?} for {old:?}");
    }
    Ok(())
}
