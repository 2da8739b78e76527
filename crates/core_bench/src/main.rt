//! `core_bench` does one thing to a heap's core, so often as its words say, for bench/core to time. It prints nothing.
#![tactic(auto)]

mod heap;
mod patterns;
mod steps;
mod words;

use heap::{count, keep, parts};
use ng_policy::Policy;
use ng_terms::Host;
use patterns::run;
use std::alloc::{Alloc, Global};
use std::env::{self, Env};
use std::io;
use std::marker::Brand;
use std::process::ExitCode;
use words::{Asked, asked_by};

/// The words aren't in the language.
const USAGE: u8 = 2;

/// A map call was refused.
const REFUSED: u8 = 3;

/// The host has no memory left.
const HOST: u8 = 4;

fn main(rt: HostRuntime) -> ExitCode {
    let Ok(words) = words_of(&rt) else {
        return ExitCode::from(HOST);
    };
    let Some(asked) = asked_by(words.as_slice()) else {
        return ExitCode::from(USAGE);
    };
    match done(rt.alloc(), asked) {
        Ok(true) => ExitCode::SUCCESS,
        Ok(false) => ExitCode::from(REFUSED),
        Err(Host) => ExitCode::from(HOST),
    }
}

/// Does it over a heap of its own, with the rules of musl. It answers whether all calls were served.
fn done(alloc: Global, asked: Asked) -> Result<bool, Host> {
    let (blank, tables, mapper) = parts(alloc)?;
    let rules = Policy::new(count, keep);
    run::<Brand, _>(alloc, blank, tables, mapper, rules, asked)
}

/// The words behind the program's name.
fn words_of<R: Env + Alloc<A = Global>>(rt: &R) -> io::Result<Vec<String>> {
    let mut words = Vec::new(rt.alloc());
    for word in env::args(rt)?.skip(1) {
        words.push(word)?;
    }
    Ok(words)
}
