use crate::{Command, Setup, Status, Verb, command, setup};
use ng_terms::Mode;
use std::alloc::Global;
use std::test::Fail;

fn texts_of(alloc: Global, words: &[&str]) -> Result<Vec<String>, Fail> {
    let mut texts = Vec::new(alloc);
    for word in words {
        texts.push(String::from_str(alloc, word)?)?;
    }
    Ok(texts)
}

fn asked(alloc: Global, words: &[&str]) -> Result<Command, Fail> {
    let texts = texts_of(alloc, words)?;
    match command(alloc, texts.as_slice()) {
        Ok(command) => Ok(command),
        Err(_) => Err("the words are in the language")?,
    }
}

fn refused(alloc: Global, words: &[&str]) -> Result<bool, Fail> {
    let texts = texts_of(alloc, words)?;
    Ok(matches!(command(alloc, texts.as_slice()), Err(Status::Usage)))
}

#[test]
fn words_in_no_language(rt: HostRuntime) -> Result<(), Fail> {
    let alloc = rt.alloc();
    let all: [&[&str]; 18] = [
        &[],
        &["walk"],
        &["serial", "--pages", "8"],
        &["serial", "--pages", "16385"],
        &["serial", "--refuse", "0"],
        &["make"],
        &["make", "1", "2"],
        &["serial", "--align", "16", "--zero"],
        &["check", "--pages", "16"],
        &["drill", "--calls"],
        &["serial", "--help"],
        &["serial", "-h"],
        &["serial", "--quota", "16385"],
        &["serial", "--page", "64"],
        &["serial", "--pages", "64", "--pages", "64"],
        &["serial", "--calls", "--calls"],
        &["make", "x"],
        &["replay", "1"],
    ];
    for words in &all {
        assert!(rt; refused(alloc, words)?);
    }
    Ok(())
}

#[test]
fn words_in_the_language(rt: HostRuntime) -> Result<(), Fail> {
    let alloc = rt.alloc();
    let all: [&[&str]; 9] = [
        &["serial", "--pages=64"],
        &["serial", "--pages", "0x40", "--quota", "0"],
        &["serial", "--"],
        &["make", "--", "7"],
        &["make", "7", "--"],
        &["check"],
        &["drill", "--refuse", "1,2"],
        &["make", "18446744073709551615", "--pages", "16"],
        &["replay", "--zero", "--calls"],
    ];
    for words in &all {
        let _ = asked(alloc, words)?;
    }
    Ok(())
}

#[test]
fn pages_and_quota(rt: HostRuntime) -> Result<(), Fail> {
    let alloc = rt.alloc();
    let joined = asked(alloc, &["serial", "--pages=64"])?;
    assert_eq!(rt; (joined.pages, joined.quota), (64, 64));
    let given = asked(alloc, &["serial", "--pages", "0x40", "--quota", "0"])?;
    assert_eq!(rt; (given.pages, given.quota), (64, 0));
    let plain = asked(alloc, &["check"])?;
    assert_eq!(rt; plain.verb, Verb::Check);
    assert_eq!(rt; (plain.pages, plain.quota), (4096, 4096));
    Ok(())
}

#[test]
fn seeds_and_modes(rt: HostRuntime) -> Result<(), Fail> {
    let alloc = rt.alloc();
    let made = asked(alloc, &["make", "18446744073709551615", "--pages", "16"])?;
    assert_eq!(rt; made.verb, Verb::Make);
    assert_eq!(rt; (made.seed, made.pages), (u64::MAX, 16));
    let cleared = asked(alloc, &["replay", "--zero", "--calls"])?;
    assert!(rt; cleared.calls_shown);
    assert_eq!(rt;
        cleared.mode,
        Mode {
            align: None,
            zero: true
        }
    );
    Ok(())
}

#[test]
fn calls_to_refuse(rt: HostRuntime) -> Result<(), Fail> {
    let alloc = rt.alloc();
    let texts = texts_of(alloc, &["drill", "--refuse", "1,2"])?;
    let Ok(
        Setup {
            pages,
            refuse,
            quota,
        },
    ) = setup(alloc, texts.as_slice())
    else {
        return Err("the words are in the language")?;
    };
    let numbers: &[u64] = &[1, 2];
    assert_eq!(rt; refuse.as_slice(), numbers);
    assert_eq!(rt; (pages, quota), (4096, 4096));
    Ok(())
}
