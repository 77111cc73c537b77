//! Numbers of texts, and what is read of them.
use super::*;
use std::alloc::AllocError;
use std::test::Fail;

fn read(text: &str) -> Result<i128, NumFault> {
    read_bytes(text.as_bytes())
}

fn read_bytes(bytes: &[u8]) -> Result<i128, NumFault> {
    read_whole(bytes)
}

fn put(into: &mut Vec<u8>, value: i128) -> Result<(), AllocError> {
    put_whole(into, value)
}

#[test]
fn whole_numbers(rt: HostRuntime) {
    let ten_to_36 = 1_000_000_000_000_000_000_000_000_000_000_000_000;
    let rows = [
        ("3", 3),
        ("3.", 3),
        ("+7", 7),
        ("007", 7),
        ("3.5e1", 35),
        ("1.50e1", 15),
        ("-3.000", -3),
        ("-.5E+1", -5),
        ("10e-1", 1),
        ("-1200.0e-2", -12),
        (".0", 0),
        ("-0", 0),
        ("0e99999", 0),
        ("0e-99999999999999999999999999999999999999999", 0),
        ("000e99999999999999999999999999999999999999999", 0),
        ("1e36", ten_to_36),
        ("-1e36", -ten_to_36),
        ("0.000000000000000000000000000000000001e72", ten_to_36),
        ("1000000000000000000000000000000000000000e-3", ten_to_36),
        ("4e00000000000000000000000000000000000000000001", 40),
    ];
    for (text, want) in rows {
        assert_eq!(rt; read(text), Ok(want), "at {text:?}");
    }
}

#[test]
fn refused_numbers(rt: HostRuntime) {
    let above = NumFault::TooLarge { negative: false };
    let below = NumFault::TooLarge { negative: true };
    let rows = [
        ("", NumFault::NotNumber),
        (".", NumFault::NotNumber),
        ("-", NumFault::NotNumber),
        ("1e", NumFault::NotNumber),
        ("1e+", NumFault::NotNumber),
        ("e5", NumFault::NotNumber),
        (".e5", NumFault::NotNumber),
        ("--5", NumFault::NotNumber),
        ("+-5", NumFault::NotNumber),
        ("1e--5", NumFault::NotNumber),
        ("1.2.3", NumFault::NotNumber),
        ("1e2e3", NumFault::NotNumber),
        ("1e2.0", NumFault::NotNumber),
        ("1,5", NumFault::NotNumber),
        ("0x10", NumFault::NotNumber),
        ("inf", NumFault::NotNumber),
        ("5 ", NumFault::NotNumber),
        ("2.5", NumFault::NotWhole),
        ("1e-400", NumFault::NotWhole),
        ("15e-1", NumFault::NotWhole),
        ("0.1", NumFault::NotWhole),
        (
            "1000000000000000000000000000000000000000000000.5",
            NumFault::NotWhole,
        ),
        (
            "1e-99999999999999999999999999999999999999999",
            NumFault::NotWhole,
        ),
        ("1000000000000000000000000000000000001", above),
        ("-1000000000000000000000000000000000001", below),
        ("1e40", above),
        ("-1e40", below),
        ("1e99999999999999999999", above),
        ("-0.1e99999999999999999999999999999999999999999", below),
        ("340282366920938463463374607431768211457", above),
    ];
    for (text, want) in rows {
        assert_eq!(rt; read(text), Err(want), "at {text:?}");
    }
}

/// A number with many digits and one with a long exponent are read in time linear in them.
#[test]
fn long_numbers(rt: HostRuntime) -> Result<(), Fail> {
    let mut digits = Vec::new(rt.alloc());
    for _ in 0..100_000 {
        digits.push(b'0')?;
    }
    digits.push(b'7')?;
    assert_eq!(rt; read_bytes(&digits), Ok(7));
    digits.push(b'e')?;
    for _ in 0..100_000 {
        digits.push(b'9')?;
    }
    let refused = NumFault::TooLarge { negative: false };
    assert_eq!(rt; read_bytes(&digits), Err(refused));
    Ok(())
}

#[test]
fn texts_of_numbers(rt: HostRuntime) -> Result<(), Fail> {
    let mut text = Vec::from_slice(rt.alloc(), b"x=")?;
    put(&mut text, -35)?;
    put(&mut text, 0)?;
    put(&mut text, i128::MAX)?;
    let want = b"x=-350170141183460469231731687303715884105727";
    assert_eq!(rt; text.as_slice(), want.as_slice());
    Ok(())
}
