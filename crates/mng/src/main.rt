//! `mng` replays allocation logs through a heap.
#![tactic(auto)]

mod choices;

use choices::{count, keep};
use ng_mapper::FirstFit;
use ng_mtrace::{Input, Output};
use ng_policy::Policy;
use ng_quota::Quota;
use ng_replay::Open;
use ng_tool::{replay, tool};
use ng_words::{Status, Verb, setup, status_line};
use std::alloc::{Alloc, Global};
use std::env::{self, Env};
use std::io::{self, ErrorKind, Print};
use std::process::ExitCode;
use std::sync::Wait;
use std::thread::Threads;

fn main(rt: HostRuntime) -> ExitCode {
    let status = done(&rt);
    if let Ok(line) = status_line(rt.alloc(), &status) {
        // The exit status tells how the run ended, also where its line can't be printed.
        let _ = print!(&rt; "{line}");
    }
    ExitCode::from(status.number())
}

/// Does what the words ask, over the standard streams.
fn done<R: Alloc<A = Global> + Env + io::Input + Print + Threads + Wait + Sync>(rt: &R) -> Status {
    let alloc = rt.alloc();
    let words = match words_of(rt) {
        Ok(words) => words,
        Err(status) => return status,
    };
    // The words are read here for the mapper, which is made first, and once more by the top call,
    // which tells each status by what it is given.
    let setup = match setup(alloc, words.as_slice()) {
        Ok(setup) => setup,
        Err(status) => return status,
    };
    let Ok(space) = FirstFit::new(alloc, setup.pages, setup.refuse.into_vec()) else {
        return Status::Host;
    };
    let mapper = Quota::new(space, setup.quota);
    let mut input = Input::new(rt.reader());
    let mut output = Output::new(io::writer(rt));
    let policy = Policy::new(count, keep);
    let words = words.as_slice();
    let (status, mapper, closed) = match words.first() {
        Some(word) if word.as_str() == Verb::Replay.name() => replay(
            rt,
            alloc,
            words,
            &mut input,
            &mut output,
            mapper,
            policy,
            &Open,
        ),
        _ => tool(alloc, words, &mut input, &mut output, mapper, policy),
    };
    drop(mapper);
    drop(closed);
    status
}

/// The words behind the program's name. One that isn't UTF-8 is in no language.
fn words_of<R: Env + Alloc<A = Global>>(rt: &R) -> Result<Vec<String>, Status> {
    let all = match env::args(rt) {
        Ok(all) => all,
        Err(error) if error.kind() == ErrorKind::InvalidData => return Err(Status::Usage),
        Err(_) => return Err(Status::Host),
    };
    let mut words = Vec::new(rt.alloc());
    for word in all.skip(1) {
        if words.push(word).is_err() {
            return Err(Status::Host);
        }
    }
    Ok(words)
}
