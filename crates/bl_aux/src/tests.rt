//! Auxiliary texts, what they say and which rule they break first.
use super::*;
use bl_raw::RawAux;
use std::alloc::{AllocError, Global};
use std::test::Fail;

/// A text's first fault, for a model with 2 columns and 4 rows.
fn fault_in(alloc: Global, text: &[u8]) -> Option<AuxFault> {
    match read_aux(alloc, text, 2, 4) {
        Err(AuxError::Fault(fault)) => Some(fault),
        _ => None,
    }
}

/// A text's follower, for a model with 2 columns and 4 rows.
fn follower_of(alloc: Global, text: &str) -> Option<RawAux> {
    read_aux(alloc, text.as_bytes(), 2, 4).ok()
}

fn text_of(alloc: Global, aux: &RawAux) -> Result<Vec<u8>, AllocError> {
    write_aux(alloc, aux)
}

#[test]
fn first_faults(rt: HostRuntime) {
    let rows = [
        ("N 1\nM 0\nLC 1\nLC 1\n", AuxRule::Repeated, 4),
        ("N 0\nM 1\nLR 4\n", AuxRule::BadIndex, 3),
        ("N 1\nM 0\nLC 1\n", AuxRule::CountDiffers, 0),
        ("N 0\nM 0\nOS 0", AuxRule::BadSense, 3),
        ("N 0\nM 0\nIB 5\n", AuxRule::Unsupported, 3),
        ("M 0\nN 0\n", AuxRule::OutOfOrder, 1),
        ("", AuxRule::CountDiffers, 0),
        ("N 0\n", AuxRule::CountDiffers, 0),
        ("@NUMVARS\n", AuxRule::Unsupported, 1),
        ("IC 1 2 3\n", AuxRule::Unsupported, 1),
        ("* a remark\n", AuxRule::BadKey, 1),
        ("N 0\nM 0 0\n", AuxRule::BadKey, 2),
        ("N\n", AuxRule::BadKey, 1),
        ("n 0\n", AuxRule::BadKey, 1),
        ("XX 1.5\n", AuxRule::BadKey, 1),
        ("N x\n", AuxRule::BadNumber, 1),
        ("M 1e\n", AuxRule::BadNumber, 1),
        ("N 0.5\n", AuxRule::NotWhole, 1),
        ("N 0\nM 1e-9\n", AuxRule::NotWhole, 2),
        ("N 1e40\n", AuxRule::TooLarge, 1),
        ("N 1\nM 0\nLO -10000001\n", AuxRule::TooLarge, 3),
        ("N 0\nN 0\n", AuxRule::OutOfOrder, 2),
        ("LC 7\n", AuxRule::OutOfOrder, 1),
        ("N 0\nM 0\nN 9\n", AuxRule::Repeated, 3),
        ("N 0\nM 0\nM 0\n", AuxRule::Repeated, 3),
        ("N 0\nM 0\nOS 1\nOS 1\n", AuxRule::Repeated, 4),
        ("N 1\nM 0\n\n \t\r\nLC 1\nLC 1.0\n", AuxRule::Repeated, 6),
        ("N 3\n", AuxRule::BadIndex, 1),
        ("N 2\nM -1\n", AuxRule::BadIndex, 2),
        ("N 2\nM 4\nLC 1000000\n", AuxRule::BadIndex, 3),
        ("N 0\nM 0\nOS 10000000000\n", AuxRule::BadSense, 3),
        ("N 1\nM 0\nLC 0\nLO 1\nLO 2\n", AuxRule::CountDiffers, 0),
        ("N 0\nM 1\n", AuxRule::CountDiffers, 0),
        ("N 2\nM 0\nLC 2\nIC 0\n", AuxRule::BadIndex, 3),
    ];
    for (text, rule, line) in rows {
        let want = Some(AuxFault { rule, line });
        assert_eq!(rt; fault_in(rt.alloc(), text.as_bytes()), want, "at {text:?}");
    }
}

#[test]
fn followers(rt: HostRuntime) -> Result<(), Fail> {
    let rows = [
        (
            "N 1\nM 3\nLC 1\nLR 1\nLR 2\nLR 3\nLO 1\nOS -1\n",
            "N 1\nM 3\nLC 1\nLR 1\nLR 2\nLR 3\nLO 1\nOS -1\n",
        ),
        (
            "\n N\t+2.\r\nM 0e9\nLO 1e7\nLC 1\n\nLO -.5e1\nLC 0",
            "N 2\nM 0\nLC 1\nLC 0\nLO 10000000\nLO -5\nOS 1\n",
        ),
        ("N 0\nM 0\n", "N 0\nM 0\nOS 1\n"),
    ];
    for (text, want) in rows {
        let aux = follower_of(rt.alloc(), text).expect(&rt, "a follower");
        let written = text_of(rt.alloc(), &aux)?;
        assert_eq!(rt; written.as_slice(), want.as_bytes(), "at {text:?}");
    }
    Ok(())
}

#[test]
fn long_texts(rt: HostRuntime) -> Result<(), Fail> {
    let lines = vec![in rt.alloc(); b'\n'; 10_000]?;
    let counts = AuxFault {
        rule: AuxRule::CountDiffers,
        line: 0,
    };
    assert_eq!(rt; fault_in(rt.alloc(), &lines), Some(counts));
    let text = vec![in rt.alloc(); b'\n'; 16_777_217]?;
    let length = AuxFault {
        rule: AuxRule::TooLong,
        line: 0,
    };
    assert_eq!(rt; fault_in(rt.alloc(), &text), Some(length));
    Ok(())
}
