ghost use Rattle.std.specs.Prelude.{◌≡◌, ◌≢◌, ◌+◌, ◌≤◌, ◌<◌, ◌++◌, List, ◌∷◌, [], None, Some, IfOk, IfErr, OnOk, ℕ, length, vec_len, vec_capacity};
ghost use Rattle.ng_mtrace.specs.Faults.{first_fault, is_beyond};
ghost use Rattle.ng_mtrace.specs.Kinds.{kind_of};
ghost use Rattle.ng_mtrace.specs.PartRead.{fault_at, faults_left, logs_left, room_left, IsReady, IsLineFault};
ghost use Rattle.ng_mtrace.specs.Reads.{IsWithinLimits};
ghost use Rattle.ng_mtrace.specs.Sections.{logs_of};
ghost use Rattle.ng_mtrace.specs.Text.{IsWithout};

use crate::kind::{Kind, read_kind};
use crate::log::Logs;
use crate::log_fault::LogFault;
use crate::sections::{KindFault, Sections};
use crate::text::cut_at;
use ng_terms::Items;
use std::alloc::{AllocError, Global};

/// The most lines of an input.
const LINES: u64 = 1_000_000;

/// The most bytes of a line.
const BYTES: usize = 4096;

/// What was read of an input so far.
#[derive(Drop)]
pub struct PartRead {
    /// How many line feeds.
    pub number: u64,
    /// The bytes behind the last line feed.
    pub line: Vec<u8>,
    /// The sections of the whole lines.
    pub sections: Sections,
}

impl PartRead {
    /// Nothing was read.
    pub fn new(alloc: Global) -> Result<PartRead, AllocError>
        ensures ready { IfOk result IsReady }
        ensures faults { IfOk result (λ r. (text : List ℕ)
            → faults_left r text ≡ first_fault text) }
        ensures logs { IfOk result (λ r. (text : List ℕ)
            → logs_left r text ≡ (logs_of text).logs) }
    {
        let line = Vec::with_capacity(alloc, BYTES)?;
        let sections = Sections::new(alloc)?;
        Ok(PartRead {
            number: 0,
            line,
            sections,
        })
    }

    /// Takes the next bytes.
    pub fn feed(&mut self, piece: &[u8]) -> Result<(), LogFault>
        requires { IsReady self.old }
        ensures ready { OnOk result (IsReady self.new) }
        ensures faults { OnOk result ((rest : List ℕ)
            → faults_left self.new rest ≡ faults_left self.old (piece.now ++ rest)) }
        ensures logs { OnOk result ((rest : List ℕ)
            → logs_left self.new rest ≡ logs_left self.old (piece.now ++ rest)) }
        ensures progress { OnOk result
            (room_left self.new + length piece.now ≤ room_left self.old) }

        ensures faulty { IfErr result IsLineFault }
        ensures err { IfErr result (λ fault. fault ≢ LogFault.Host → (rest : List ℕ)
            → faults_left self.old (piece.now ++ rest) ≡ Some fault) }
    {
        let mut rest = piece;
        while let Some((part, behind)) = cut_at(rest, b'\n') {
            if let Err(fault) = self.end_line(part) {
                return Err(fault);
            }
            rest = behind;
        }
        self.keep(rest)
    }

    /// The logs, where the text ends here.
    pub fn finish(self) -> Result<Logs, LogFault>
        requires { IsReady self }
        ensures faultless { faults_left self [] ≡ None }
        ensures ok { IfOk result (λ logs. logs.logs ≡ logs_left self []) }
        ensures limits { IfOk result IsWithinLimits }

        ensures none { IfErr result (λ fault. logs_left self [] ≡ []) }
        ensures err { IfErr result (λ fault. fault ≡ LogFault.NoLog) }
    {
        let PartRead {
            number: _,
            line: _,
            sections,
        } = self;
        let logs = sections.into_logs();
        if logs.is_empty() {
            return Err(LogFault::NoLog);
        }
        Ok(Logs {
            logs: Items::from_vec(logs),
        })
    }

    /// Takes the end of a line and its line feed.
    fn end_line(&mut self, part: &[u8]) -> Result<(), LogFault>
        requires ready { IsReady self.old }
        requires unfed { IsWithout 10 part.now }
        ensures ready { OnOk result (IsReady self.new) }
        ensures faults { OnOk result ((rest : List ℕ)
            → faults_left self.new rest ≡ faults_left self.old (part.now ++ 10 ∷ rest)) }
        ensures logs { OnOk result ((rest : List ℕ)
            → logs_left self.new rest ≡ logs_left self.old (part.now ++ 10 ∷ rest)) }
        ensures progress { OnOk result
            (room_left self.new + length part.now + 1 ≤ room_left self.old) }

        ensures faulty { IfErr result IsLineFault }
        ensures err { IfErr result (λ fault. fault ≢ LogFault.Host → (rest : List ℕ)
            → faults_left self.old (part.now ++ 10 ∷ rest) ≡ Some fault) }
    {
        if self.is_beyond(part) {
            return Err(LogFault::Limit(self.number + 1));
        }
        let kind = last_kind(&mut self.line, part);
        self.number += 1;
        match self.sections.add(kind) {
            Ok(()) => Ok(()),
            Err(why) => Err(fault_at(self.number, why)),
        }
    }

    /// Takes bytes without a line feed.
    fn keep(&mut self, part: &[u8]) -> Result<(), LogFault>
        requires ready { IsReady self.old }
        requires unfed { IsWithout 10 part.now }
        ensures ready { OnOk result (IsReady self.new) }
        ensures faults { OnOk result ((rest : List ℕ)
            → faults_left self.new rest ≡ faults_left self.old (part.now ++ rest)) }
        ensures logs { OnOk result ((rest : List ℕ)
            → logs_left self.new rest ≡ logs_left self.old (part.now ++ rest)) }
        ensures progress { OnOk result
            (room_left self.new + length part.now ≤ room_left self.old) }

        ensures faulty { IfErr result IsLineFault }
        ensures err { IfErr result (λ fault. (rest : List ℕ)
            → faults_left self.old (part.now ++ rest) ≡ Some fault) }
    {
        if part.is_empty() {
            return Ok(());
        }
        if self.is_beyond(part) {
            return Err(LogFault::Limit(self.number + 1));
        }
        self.line.extend_from_slice(part).unwrap();
        Ok(())
    }

    /// Is the line too long with these bytes, or one line too many?
    fn is_beyond(&self, part: &[u8]) -> bool
        requires { IsReady self.now }
        ensures { result ≡ is_beyond (self.now.number + 1) (self.now.line.items ++ part.now) }
    {
        self.number == LINES || part.len() > BYTES - self.line.len()
    }
}

/// The kind of a line that ends with these bytes. What was kept of it is dropped.
fn last_kind(line: &mut Vec<u8>, part: &[u8]) -> Kind
    requires { vec_len line.old + length part.now ≤ vec_capacity line.old }
    ensures kind { result ≡ kind_of (line.old.items ++ part.now) }
    ensures empty { line.new.items ≡ [] }
    ensures capacity { vec_capacity line.old ≤ vec_capacity line.new }
{
    if line.is_empty() {
        return read_kind(part);
    }
    line.extend_from_slice(part).unwrap();
    let kind = read_kind(line.as_slice());
    line.clear();
    kind
}

/// The fault of a line of this number.
fn fault_at(line: u64, why: KindFault) -> LogFault
    ensures { result ≡ fault_at line why }
{
    match why {
        KindFault::TooMany => LogFault::Limit(line),
        KindFault::Bad => LogFault::BadLine(line),
        KindFault::Host => LogFault::Host,
    }
}
