//! Texts, lines and numbers from outside the definitions.
use super::*;
use std::test::Fail;

/// The fields of a text: lines joined by `|`, fields by `,`.
fn shown(rt: &impl AllocGlobal, text: &[u8]) -> Result<Vec<u8>, Fail> {
    let mut out = Vec::new(rt.alloc());
    for line in lines_of(text) {
        for field in fields_of(line) {
            out.extend_from_slice(field)?;
            out.push(b',')?;
        }
        out.push(b'|')?;
    }
    Ok(out)
}

#[test]
fn lines_and_fields(rt: HostRuntime) -> Result<(), Fail> {
    let rows: [(&[u8], &[u8]); 6] = [
        (b"", b""),
        (b"\n", b"|"),
        (b"NAME  A\r\n\n X\tCOST -1", b"NAME,A,||X,COST,-1,|"),
        (b"a\n", b"a,|"),
        (b"a\n\n", b"a,||"),
        (b"a\x0bb\x00 \x0c", b"a\x0bb\x00,\x0c,|"),
    ];
    for (text, want) in rows {
        assert_eq!(rt; shown(&rt, text)?.as_slice(), want);
    }
    Ok(())
}

#[test]
fn first_byte_of_a_line(rt: HostRuntime) {
    for (line, want) in [
        ("", false),
        ("NAME", false),
        (" X", true),
        ("\tX", true),
        ("\r", true),
        ("\x0b", false),
    ] {
        assert_eq!(rt; begins_with_blank(line.as_bytes()), want, "at {line:?}");
    }
}

#[test]
fn numbers(rt: HostRuntime) {
    let rows = [
        ("0", Some(0), Some(0)),
        ("-10", Some(-10), Some(-10)),
        ("007", Some(7), None),
        ("-0", Some(0), None),
        (
            "9999999999999999",
            Some(9999999999999999),
            Some(9999999999999999),
        ),
        (
            "-9999999999999999",
            Some(-9999999999999999),
            Some(-9999999999999999),
        ),
        ("10000000000000000", None, Some(10000000000000000)),
        ("9223372036854775807", None, Some(i64::MAX)),
        ("-9223372036854775808", None, Some(i64::MIN)),
        ("9223372036854775808", None, None),
        ("-9223372036854775809", None, None),
        ("18446744073709551617", None, None),
        ("", None, None),
        ("-", None, None),
        ("+5", None, None),
        ("--5", None, None),
        ("5 ", None, None),
        ("2.5", None, None),
        ("1e3", None, None),
    ];
    for (field, short, plain) in rows {
        assert_eq!(rt; short_number(field.as_bytes()), short, "short at {field:?}");
        assert_eq!(rt; plain_number(field.as_bytes()), plain, "plain at {field:?}");
    }
}
