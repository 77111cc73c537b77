//! Words that are understood, and words that aren't.
use super::*;
use std::alloc::{AllocError, Global};
use std::test::Fail;

/// What the words say, as `COMMAND MPS AUX CERT U N F`, with `-` where no certificate is named.
fn said(alloc: Global, words: &[String]) -> Result<Option<String>, AllocError> {
    for command in [Command::Solve, Command::Show, Command::Check] {
        if let Some(read) = model_words(alloc, command, words)? {
            let said = text_of(alloc, command, read)?;
            return Ok(Some(said));
        }
    }
    Ok(None)
}

fn text_of(alloc: Global, command: Command, read: ModelWords<'_>) -> Result<String, AllocError> {
    let cert = match read.cert {
        Some(cert) => cert,
        None => "-",
    };
    format!(in alloc;
        "{} {} {} {} {} {} {}",
        command.name(),
        read.mps,
        read.aux,
        cert,
        read.default_upper,
        read.nodes,
        read.follower_nodes
    )
}

/// What the words of a line say, where `|` stands between two words.
fn said_of(alloc: Global, line: &str) -> Result<Option<String>, AllocError> {
    let mut words = Vec::new(alloc);
    for word in line.split('|') {
        words.push(String::from_str(alloc, word)?)?;
    }
    said(alloc, &words)
}

#[test]
fn understood_words(rt: HostRuntime) -> Result<(), Fail> {
    let rows = [
        ("solve|a|b", "solve a b - 1 200000 50000"),
        ("show|a|b", "show a b - 1 200000 50000"),
        ("check|a|b|c", "check a b c 1 200000 50000"),
        ("solve|--default-upper|9|a|b", "solve a b - 9 200000 50000"),
        ("solve|a|--default-upper=9|b", "solve a b - 9 200000 50000"),
        ("solve|a|b|--nodes|1", "solve a b - 1 1 50000"),
        ("solve|--nodes=2000000|a|b", "solve a b - 1 2000000 50000"),
        ("solve|a|--follower-nodes|1|b", "solve a b - 1 200000 1"),
        (
            "solve|a|b|--follower-nodes=2000000",
            "solve a b - 1 200000 2000000",
        ),
        ("solve|a|b|--cert|c", "solve a b c 1 200000 50000"),
        ("solve|--cert=c|a|b", "solve a b c 1 200000 50000"),
        (
            "solve|a|--nodes=5|b|--default-upper|4|--cert=c|--follower-nodes|6",
            "solve a b c 4 5 6",
        ),
        (
            "show|m.mps|m.aux|--default-upper|0",
            "show m.mps m.aux - 0 200000 50000",
        ),
        (
            "show|m.mps|m.aux|--default-upper=10000000",
            "show m.mps m.aux - 10000000 200000 50000",
        ),
        (
            "check|--default-upper|7|a|b|c",
            "check a b c 7 200000 50000",
        ),
        (
            "check|a|b|--default-upper=7|c",
            "check a b c 7 200000 50000",
        ),
        ("solve|a=b|c=d", "solve a=b c=d - 1 200000 50000"),
        ("show|solve|show", "show solve show - 1 200000 50000"),
        ("show|m.mps|./m.mps", "show m.mps ./m.mps - 1 200000 50000"),
    ];
    for (line, want) in rows {
        let said = said_of(rt.alloc(), line)?;
        assert_eq!(rt;
            said.as_ref().map(|text| text.as_str()),
            Some(want),
            "at {line:?}"
        );
    }
    Ok(())
}

#[test]
fn refused_words(rt: HostRuntime) -> Result<(), Fail> {
    for line in [
        "",
        "solve",
        "help",
        "--help",
        "SOLVE|a|b",
        "a|b|solve",
        "solve|a",
        "solve|a|b|c",
        "solve|a|a",
        "solve||b",
        "solve|a|",
        "solve|-|b",
        "solve|--|b",
        "solve|a|b|--",
        "solve|a|-b",
        "solve|a|b|--help",
        "solve|a|b|--version",
        "solve|a|b|--default-upper",
        "solve|a|b|--default-upper|",
        "solve|a|b|--default-upper=",
        "solve|a|b|--default-upper|-1",
        "solve|a|b|--default-upper=-1",
        "solve|a|b|--default-upper|+1",
        "solve|a|b|--default-upper|04",
        "solve|a|b|--default-upper|4.0",
        "solve|a|b|--default-upper|10000001",
        "solve|a|b|--default-upper=1=2",
        "solve|a|b|--default-upper|99999999999999999999",
        "solve|a|b|--default-upper|2|--default-upper|2",
        "solve|a|b|--default-upper=2|--default-upper|3",
        "solve|a|b|--default|3",
        "solve|a|b|--default-uppers=3",
        "solve|a|b|-default-upper|3",
        "solve|a|b|--nodes|0",
        "solve|a|b|--nodes=0",
        "solve|a|b|--nodes|2000001",
        "solve|a|b|--nodes",
        "solve|a|b|--nodes=",
        "solve|a|b|--nodes|5|--nodes=5",
        "solve|a|b|--node|5",
        "solve|a|b|--follower-nodes|0",
        "solve|a|b|--follower-nodes=2000001",
        "solve|a|b|--follower-nodes|05",
        "solve|a|b|--follower-nodes=5|--follower-nodes|6",
        "show|a|b|--nodes|5",
        "show|a|b|--nodes=5",
        "show|a|b|--follower-nodes|5",
        "show|a|b|--follower-nodes=5",
        "solve|a|b|--cert",
        "solve|a|b|--cert=",
        "solve|a|b|--cert|a",
        "solve|a|b|--cert|b",
        "solve|a|b|--cert|c|--cert|d",
        "show|a|b|--cert|c",
        "show|a|b|c",
        "show|a|--default-upper|b",
        "check|a|b",
        "check|a|b|c|d",
        "check|a|b|a",
        "check|a|b|b",
        "check|a|b|--cert|c",
        "check|a|b|c|--nodes|5",
        "gen|1|2|2",
    ] {
        let said = said_of(rt.alloc(), line)?;
        assert!(rt; said.is_none(), "at {line:?}");
    }
    Ok(())
}
