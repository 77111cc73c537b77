//! Texts of the profile, texts that break each of its rules, and the place of each fault in the order.
use super::*;
use bl_raw::RawMps;
use std::alloc::Global;
use std::test::Fail;

const MOORE_BARD: &str = "NAME          MOOREBARD
ROWS
 N  COST
 L  C1
 L  C2
 L  C3
 G  C4
COLUMNS
    MARKER1   'MARKER'  'INTORG'
    X         COST      -1   C1   -25
    X         C2         1   C3     2
    X         C4         2
    Y         COST     -10   C1    20
    Y         C2         2   C3    -1
    Y         C4        10
    MARKER2   'MARKER'  'INTEND'
RHS
    RHS       C1        30   C2    10
    RHS       C3        15   C4    15
BOUNDS
 UP BND       X         10
 UP BND       Y         10
ENDATA
";

/// A text's first fault, as its rule, line and column.
fn fault_in(alloc: Global, text: &[u8]) -> Option<(MpsRule, u64, u32)> {
    match read_mps(alloc, text, 1) {
        Err(MpsError::Fault(fault)) => Some((fault.rule, fault.line, fault.column)),
        _ => None,
    }
}

fn model_of(alloc: Global, text: &[u8]) -> Option<RawMps> {
    read_mps(alloc, text, 1).ok()
}

fn model_with_nine(alloc: Global, text: &[u8]) -> Option<RawMps> {
    read_mps(alloc, text, 9).ok()
}

/// The text of Moore and Bard with one piece for another.
fn edited(rt: &impl AllocGlobal, old: &str, new: &str) -> Result<String, Fail> {
    let (front, back) = MOORE_BARD.split_once(old).ok_or("no such piece")?;
    Ok(format!(in rt.alloc(); "{front}{new}{back}")?)
}

#[test]
fn reads_moore_and_bard(rt: HostRuntime) -> Result<(), Fail> {
    let mps = model_of(rt.alloc(), MOORE_BARD.as_bytes()).ok_or("a fault")?;
    assert!(rt; !mps.maximise);
    assert_eq!(rt; mps.objective.as_slice(), b"COST".as_slice());
    let rows: [(&str, Option<i64>, Option<i64>); 4] = [
        ("C1", None, Some(30)),
        ("C2", None, Some(10)),
        ("C3", None, Some(15)),
        ("C4", Some(15), None),
    ];
    assert_eq!(rt; mps.rows.as_slice().len(), rows.len());
    for (row, (name, lo, hi)) in mps.rows.as_slice().iter().zip(rows) {
        assert_eq!(rt; row.name.as_slice(), name.as_bytes());
        assert_eq!(rt; (row.lo, row.hi), (lo, hi));
    }
    let columns: [(&str, i64, [i64; 4]); 2] = [
        ("X", -1, [-25, 1, 2, 2]),
        ("Y", -10, [20, 2, -1, 10]),
    ];
    assert_eq!(rt; mps.columns.as_slice().len(), columns.len());
    for (column, (name, cost, numbers)) in mps.columns.as_slice().iter().zip(columns) {
        assert_eq!(rt; column.name.as_slice(), name.as_bytes());
        assert_eq!(rt; (column.lo, column.hi, column.cost), (0, 10, cost));
        assert_eq!(rt; column.entries.as_slice().len(), 4);
        for (row, number) in column.entries.as_slice() {
            assert_eq!(rt; Some(number), numbers.get(*row as usize));
        }
    }
    Ok(())
}

/// Pieces of the text, and others that break a rule at a line.
const LINE_FAULTS: [(&str, &str, MpsRule, u64); LINE_FAULT_COUNT] = [
    ("ROWS", "BOGUS", MpsRule::BadSection, 2),
    ("ROWS", "rows", MpsRule::BadSection, 2),
    ("BOUNDS", "RHS", MpsRule::BadSection, 20),
    ("RHS\n", "COLUMNS\n", MpsRule::BadSection, 17),
    (
        "NAME          MOOREBARD\n",
        "NAME\n X\n",
        MpsRule::BadSection,
        2,
    ),
    ("NAME          MOOREBARD\n", " X\n", MpsRule::BadSection, 1),
    ("COLUMNS", "ENDATA", MpsRule::BadSection, 8),
    ("COLUMNS", "BOUNDS", MpsRule::BadSection, 8),
    (" L  C3", " L  C3 X", MpsRule::BadFields, 6),
    (" L  C3", " X  C3", MpsRule::BadFields, 6),
    (" L  C3", " L 'MARKER'", MpsRule::BadFields, 6),
    ("'INTORG'", "'INTORX'", MpsRule::BadFields, 9),
    ("'INTEND'", "'INTEND' X", MpsRule::BadFields, 16),
    ("X         C4         2", "X C4", MpsRule::BadFields, 12),
    (
        "X         C4         2",
        "X 'MARKER' 'INTORG' C4 1",
        MpsRule::BadFields,
        12,
    ),
    (
        "RHS       C1        30   C2    10",
        "C1",
        MpsRule::BadFields,
        18,
    ),
    ("UP BND       X         10", "UP X", MpsRule::BadFields, 21),
    (
        "UP BND       X         10",
        "XX BND X 10",
        MpsRule::BadFields,
        21,
    ),
    (
        "UP BND       X         10",
        "UP BND X 10 5",
        MpsRule::BadFields,
        21,
    ),
    (
        "UP BND       X         10",
        "BV BND X 10 5",
        MpsRule::BadFields,
        21,
    ),
    (" L  C3", " L  C2", MpsRule::DuplicateRow, 6),
    (" L  C3", " N  COST", MpsRule::DuplicateRow, 6),
    (
        "    Y         COST     -10   C1    20\n",
        "    Y COST 1\n    X C1 0\n",
        MpsRule::DuplicateColumn,
        14,
    ),
    (
        "'INTEND'",
        "'INTEND'\n X C1 0",
        MpsRule::DuplicateColumn,
        17,
    ),
    ("X         C4         2", "X C9 2", MpsRule::UnknownRow, 12),
    (
        "RHS       C3        15",
        "RHS C9 15",
        MpsRule::UnknownRow,
        19,
    ),
    ("BOUNDS", "RANGES\n C9 1\nBOUNDS", MpsRule::UnknownRow, 21),
    ("X         C4         2", "X X 2", MpsRule::UnknownRow, 12),
    (
        "UP BND       X         10",
        "UP BND Z 10",
        MpsRule::UnknownColumn,
        21,
    ),
    (
        "UP BND       X         10",
        "BV X 1",
        MpsRule::UnknownColumn,
        21,
    ),
    (
        "UP BND       X         10",
        "UP C1 10",
        MpsRule::UnknownColumn,
        21,
    ),
    ("X         C4         2", "X C4 1e", MpsRule::BadNumber, 12),
    ("X         C4         2", "X C4 .", MpsRule::BadNumber, 12),
    (
        "RHS       C3        15",
        "RHS C3 --1",
        MpsRule::BadNumber,
        19,
    ),
    (
        "UP BND       X         10",
        "UP BND X ten",
        MpsRule::BadNumber,
        21,
    ),
    ("X         C4         2", "X C4 2.5", MpsRule::NotWhole, 12),
    (
        "X         C4         2",
        "X C4 1e-400",
        MpsRule::NotWhole,
        12,
    ),
    (
        "UP BND       X         10",
        "UP BND X 0.5",
        MpsRule::NotWhole,
        21,
    ),
    (
        "X         C4         2",
        "X C4 10000001",
        MpsRule::TooLarge,
        12,
    ),
    ("X         C4         2", "X C4 1e40", MpsRule::TooLarge, 12),
    ("C1        30", "C1 1000000000000001", MpsRule::TooLarge, 18),
    (
        "UP BND       X         10",
        "UP BND X 10000001",
        MpsRule::TooLarge,
        21,
    ),
    (
        "UP BND       X         10",
        "UP BND X -99999999999999999999",
        MpsRule::TooLarge,
        21,
    ),
    (
        "X         C4         2",
        "X C2 2",
        MpsRule::DuplicateEntry,
        12,
    ),
    (
        "X         C4         2",
        "X C4 0 C4 0",
        MpsRule::DuplicateEntry,
        12,
    ),
    (
        "C3        15   C4    15",
        "C3 15 C1 0",
        MpsRule::DuplicateEntry,
        19,
    ),
    (
        "BOUNDS",
        "RANGES\n C1 1\n C1 1\nBOUNDS",
        MpsRule::DuplicateEntry,
        22,
    ),
    (
        "RHS       C3        15   C4    15",
        "RHS COST 1",
        MpsRule::ObjectiveConstant,
        19,
    ),
    (
        "RHS       C3        15   C4    15",
        "C3 15 COST -1e3",
        MpsRule::ObjectiveConstant,
        19,
    ),
    ("ENDATA\n", "", MpsRule::NoEnd, 23),
    (
        "BOUNDS\n UP BND       X         10\n UP BND       Y         10\nENDATA\n",
        "",
        MpsRule::NoEnd,
        20,
    ),
    // Two faults on one line, and on two lines; and one of a line and one of the whole.
    (
        "RHS       C3        15   C4    15",
        "C3 abc NOROW 5",
        MpsRule::BadNumber,
        19,
    ),
    (
        "RHS       C3        15   C4    15",
        "COST 5 NOROW 1",
        MpsRule::ObjectiveConstant,
        19,
    ),
    ("X         C4         2", "X C2 abc", MpsRule::BadNumber, 12),
    (
        "X         C4         2",
        "X C4 2.5 C9 1",
        MpsRule::NotWhole,
        12,
    ),
    (" L  C3", " X  C2", MpsRule::BadFields, 6),
    (
        "    Y         COST     -10   C1    20\n",
        "    Y COST 1\n    X C9 0\n",
        MpsRule::DuplicateColumn,
        14,
    ),
    (
        "UP BND       X         10",
        "UP BND Z 0.5",
        MpsRule::UnknownColumn,
        21,
    ),
    (" L  C3\n", " L  C2\nBOGUS\n", MpsRule::DuplicateRow, 6),
    (
        "    MARKER1   'MARKER'  'INTORG'\n    X         COST      -1",
        "    X C9 -1",
        MpsRule::UnknownRow,
        9,
    ),
];

const LINE_FAULT_COUNT: usize = 60;

#[test]
fn faults_of_lines(rt: HostRuntime) -> Result<(), Fail> {
    for (old, new, rule, line) in LINE_FAULTS {
        let text = edited(&rt, old, new)?;
        assert_eq!(rt;
            fault_in(rt.alloc(), text.as_bytes()),
            Some((rule, line, 0)),
            "{new:?}"
        );
    }
    Ok(())
}

/// Pieces of the text, and others that break a rule of the whole, with the column.
const WHOLE_FAULTS: [(&str, &str, MpsRule, u32); 12] = [
    (" N  COST", " L  COST", MpsRule::NoObjective, 0),
    (
        "    MARKER1   'MARKER'  'INTORG'\n",
        "",
        MpsRule::Continuous,
        0,
    ),
    (
        "    Y         COST",
        "    M 'MARKER' 'INTEND'\n    Y         COST",
        MpsRule::Continuous,
        1,
    ),
    (
        "UP BND       X         10",
        "UP BND X 1e30",
        MpsRule::Unbounded,
        0,
    ),
    (
        "UP BND       X         10",
        "UP BND X -1e30",
        MpsRule::Unbounded,
        0,
    ),
    ("ENDATA", " MI Y\nENDATA", MpsRule::Unbounded, 1),
    ("ENDATA", " LO BND Y -1e20\nENDATA", MpsRule::Unbounded, 1),
    (
        "UP BND       X         10",
        "UP BND X -1",
        MpsRule::NegativeUpper,
        0,
    ),
    ("ENDATA", " UI Y -3\nENDATA", MpsRule::NegativeUpper, 1),
    (
        "ENDATA",
        " LO Y 0\n UP Y -1\nENDATA",
        MpsRule::EmptyBounds,
        1,
    ),
    ("ENDATA", " LO Y 11\nENDATA", MpsRule::EmptyBounds, 1),
    ("ENDATA", " BV X\n UP X -1\nENDATA", MpsRule::EmptyBounds, 0),
];

#[test]
fn faults_of_the_whole(rt: HostRuntime) -> Result<(), Fail> {
    for (old, new, rule, column) in WHOLE_FAULTS {
        let text = edited(&rt, old, new)?;
        assert_eq!(rt;
            fault_in(rt.alloc(), text.as_bytes()),
            Some((rule, 0, column)),
            "{new:?}"
        );
    }
    Ok(())
}

#[test]
fn whole_texts(rt: HostRuntime) -> Result<(), Fail> {
    let rows = [
        ("", MpsRule::NoEnd, 1),
        ("\n", MpsRule::NoEnd, 2),
        ("* a remark", MpsRule::NoEnd, 2),
        ("ROWS\n N Z\n", MpsRule::NoEnd, 3),
        ("\u{feff}ROWS\n", MpsRule::BadSection, 1),
        (" X\n", MpsRule::BadSection, 1),
        ("ENDATA\n", MpsRule::BadSection, 1),
        ("OBJSENSE UP\n", MpsRule::BadObjSense, 1),
        ("NAME\nOBJSENSE max\n", MpsRule::BadObjSense, 2),
        ("OBJSENSE MAX\n MIN\n", MpsRule::BadObjSense, 2),
        ("OBJSENSE\n MAX\n MAX\n", MpsRule::BadObjSense, 3),
        ("OBJSENSE\n MAX MAX\n", MpsRule::BadFields, 2),
        ("OBJSENSE MAX\n MIN MIN\n", MpsRule::BadFields, 2),
        ("OBJSENSE\nOBJSENSE UP\n", MpsRule::BadSection, 2),
        ("OBJSENSE\nNAME\n", MpsRule::BadSection, 2),
        ("ROWS\nOBJSENSE UP\n", MpsRule::BadSection, 2),
        ("ROWS\nCOLUMNS\nENDATA\n", MpsRule::NoObjective, 0),
    ];
    for (text, rule, line) in rows {
        assert_eq!(rt;
            fault_in(rt.alloc(), text.as_bytes()),
            Some((rule, line, 0)),
            "{text:?}"
        );
    }
    Ok(())
}

#[test]
fn sides_of_rows(rt: HostRuntime) -> Result<(), Fail> {
    let rows: [(&str, &str, Option<i64>, Option<i64>); 9] = [
        ("L", "", None, Some(10)),
        ("G", "", Some(10), None),
        ("E", "", Some(10), Some(10)),
        ("L", " R 4\n", Some(6), Some(10)),
        ("L", " R -4\n", Some(6), Some(10)),
        ("G", " SET R -5\n", Some(10), Some(15)),
        ("E", " R 2\n", Some(10), Some(12)),
        ("E", " R -2\n", Some(8), Some(10)),
        ("E", " R 0\n", Some(10), Some(10)),
    ];
    for (kind, ranges, lo, hi) in rows {
        let text = format!(in rt.alloc();
            "ROWS\n {kind} R\n N Z\nCOLUMNS\nRANGES\n{ranges}RHS\n R 1e1\nENDATA"
        )?;
        let mps = model_of(rt.alloc(), text.as_bytes()).ok_or("a fault")?;
        for row in mps.rows.as_slice() {
            assert_eq!(rt; (row.lo, row.hi), (lo, hi), "{kind} {ranges:?}");
        }
        assert_eq!(rt; mps.rows.as_slice().len(), 1);
        assert_eq!(rt; mps.objective.as_slice(), b"Z".as_slice());
    }
    Ok(())
}

#[test]
fn bounds_of_columns(rt: HostRuntime) -> Result<(), Fail> {
    let rows: [(&str, i64, i64); 14] = [
        ("", 0, 9),
        (" UP X 10\n", 0, 10),
        (" UP B X 10\n UP C X 3\n", 0, 3),
        (" LO X -5\n UP X -1\n", -5, -1),
        (" UP X -1\n LO X -5\n", -5, -1),
        (" FX X 7\n", 7, 7),
        (" UI X 4\n", 0, 4),
        (" LI X -4\n UP X 4\n", -4, 4),
        (" BV X\n", 0, 1),
        (" BV B X anything\n", 0, 1),
        (" FR X\n LO X 1\n UP X 2\n", 1, 2),
        (" MI X\n UP X 2\n LI X 2.0\n", 2, 2),
        (" UP X 5\n PL X\n UP X 6\n", 0, 6),
        (" UP X 1e30\n UP X +10000000\n", 0, 10_000_000),
    ];
    for (bounds, lo, hi) in rows {
        let text = format!(in rt.alloc();
            "ROWS\n N Z\nCOLUMNS\n M 'MARKER' 'INTORG'\n X Z 1\nBOUNDS\n{bounds}ENDATA"
        )?;
        let mps = model_with_nine(rt.alloc(), text.as_bytes()).ok_or("a fault")?;
        for column in mps.columns.as_slice() {
            assert_eq!(rt; (column.lo, column.hi), (lo, hi), "{bounds:?}");
        }
        assert_eq!(rt; mps.columns.as_slice().len(), 1);
    }
    Ok(())
}

#[test]
fn senses(rt: HostRuntime) -> Result<(), Fail> {
    let rows = [
        ("", false),
        ("NAME\n", false),
        ("OBJSENSE\n", false),
        ("OBJSENSE MAX further\n", true),
        ("NAME\nOBJSENSE\n MAXIMIZE\n", true),
        ("OBJSENSE\n    MIN\n", false),
        ("OBJSENSE MINIMIZE\n", false),
    ];
    for (front, want) in rows {
        let text = format!(in rt.alloc(); "{front}ROWS\n N Z\nCOLUMNS\nENDATA\n")?;
        let mps = model_of(rt.alloc(), text.as_bytes()).ok_or("a fault")?;
        assert_eq!(rt; mps.maximise, want, "{front:?}");
    }
    Ok(())
}

/// A text of so many rows and columns, with so many blanks behind NAME.
fn shaped(rt: &impl AllocGlobal, name: usize, rows: u32, columns: u32) -> Result<Vec<u8>, Fail> {
    let mut text = Vec::from_slice(rt.alloc(), b"NAME")?;
    text.extend_from_slice(&vec![in rt.alloc(); b' '; name]?)?;
    text.extend_from_slice(b"\nROWS\n N Z\n N Y\n")?;
    for row in 0..rows {
        text.extend_from_slice(format!(in rt.alloc(); " L R{row}\n")?.as_bytes())?;
    }
    text.extend_from_slice(b"COLUMNS\n M 'MARKER' 'INTORG'\n")?;
    for column in 0..columns {
        text.extend_from_slice(format!(in rt.alloc(); " C{column} Z 1\n")?.as_bytes())?;
    }
    text.extend_from_slice(b"ENDATA\n")?;
    Ok(text)
}

#[test]
fn limits(rt: HostRuntime) -> Result<(), Fail> {
    let rest = shaped(&rt, 0, 1, 1)?.len();
    let rows = [
        (0, 200, 120, None),
        (0, 201, 120, Some((MpsRule::TooMany, 205, 0))),
        (0, 200, 121, Some((MpsRule::TooMany, 327, 0))),
        (0, 0, 0, None),
        (16_777_216usize.saturating_sub(rest), 1, 1, None),
        (
            16_777_217usize.saturating_sub(rest),
            1,
            1,
            Some((MpsRule::TooLong, 0, 0)),
        ),
    ];
    for (name, rows, columns, want) in rows {
        let text = shaped(&rt, name, rows, columns)?;
        assert_eq!(rt;
            fault_in(rt.alloc(), &text),
            want,
            "{name} {rows} {columns}"
        );
    }
    let mut text = shaped(&rt, 0, 0, 120)?;
    text.truncate(text.len().saturating_sub(7));
    text.extend_from_slice(b" C0 Y 1\n")?;
    assert_eq!(rt;
        fault_in(rt.alloc(), &text),
        Some((MpsRule::DuplicateColumn, 127, 0))
    );
    Ok(())
}
