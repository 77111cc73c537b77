//! Words in each order, as clap reads them.
use super::*;
use bl_words::{Command, ModelWords};
use std::alloc::{AllocError, Global};
use std::test::Fail;

/// What the words say, as `COMMAND MPS AUX CERT U N F`, with `-` where no certificate is named.
fn said(alloc: Global, words: &[String]) -> Result<Option<String>, AllocError> {
    for command in [Command::Solve, Command::Show, Command::Check] {
        if let Some(read) = model_words(alloc, command, words)? {
            let said = text_of(alloc, command, read)?;
            return Ok(Some(said));
        }
    }
    Ok(None)
}

fn text_of(alloc: Global, command: Command, read: ModelWords<'_>) -> Result<String, AllocError> {
    let cert = match read.cert {
        Some(cert) => cert,
        None => "-",
    };
    format!(in alloc;
        "{} {} {} {} {} {} {}",
        command.name(),
        read.mps,
        read.aux,
        cert,
        read.default_upper,
        read.nodes,
        read.follower_nodes
    )
}

/// What the words of a line say, where `|` stands between two words.
fn said_of(alloc: Global, line: &str) -> Result<Option<String>, AllocError> {
    let mut words = Vec::new(alloc);
    for word in line.split('|') {
        words.push(String::from_str(alloc, word)?)?;
    }
    said(alloc, &words)
}

#[test]
fn orders_of_words(rt: HostRuntime) -> Result<(), Fail> {
    for (line, want) in [
        ("solve|a|b", "solve a b - 1 200000 50000"),
        ("solve|a|b|--default-upper|9", "solve a b - 9 200000 50000"),
        ("solve|a|--nodes|5|b", "solve a b - 1 5 50000"),
        ("solve|--nodes=5|a|b", "solve a b - 1 5 50000"),
        ("solve|--follower-nodes|6|a|b", "solve a b - 1 200000 6"),
        ("solve|a|b|--follower-nodes=6", "solve a b - 1 200000 6"),
        ("solve|a|b|--cert|c", "solve a b c 1 200000 50000"),
        ("solve|--cert=c|a|b", "solve a b c 1 200000 50000"),
        ("solve|a|--cert|c=d|b", "solve a b c=d 1 200000 50000"),
        (
            "solve|--follower-nodes=6|--cert|c|a|--default-upper|9|b|--nodes=5",
            "solve a b c 9 5 6",
        ),
        (
            "solve|mps|nodes=5|--cert=cert",
            "solve mps nodes=5 cert 1 200000 50000",
        ),
        ("show|a|--default-upper|9|b", "show a b - 9 200000 50000"),
        ("show|--default-upper=9|a|b", "show a b - 9 200000 50000"),
        (
            "show|help|--default-upper=0|version",
            "show help version - 0 200000 50000",
        ),
        ("check|a|b|c", "check a b c 1 200000 50000"),
        (
            "check|a|b|--default-upper|9|c",
            "check a b c 9 200000 50000",
        ),
        (
            "check|cert|--default-upper=9|mps|aux",
            "check cert mps aux 9 200000 50000",
        ),
    ] {
        let said = said_of(rt.alloc(), line)?;
        assert_eq!(rt;
            said.as_ref().map(|text| text.as_str()),
            Some(want),
            "at {line:?}"
        );
    }
    Ok(())
}

#[test]
fn refused_words(rt: HostRuntime) -> Result<(), Fail> {
    for line in [
        "solve|a|b|--help",
        "solve|a|b|c",
        "solve|a|b|--nodes=x",
        "solve|a|b|--nodes=5|--nodes|5",
        "solve|a|b|--cert",
        "solve|a|b|--cert=c|--cert|d",
        "show|a|b|-h",
        "show|a|b|--",
        "show|a|b|--nodes|5",
        "show|a|b|--cert=c",
        "check|a|b",
        "check|a|b|c|d",
        "check|a|b|--cert=c",
    ] {
        let said = said_of(rt.alloc(), line)?;
        assert!(rt; said.is_none(), "at {line:?}");
    }
    Ok(())
}
