ghost use Rattle.std.specs.Prelude.{◌≡◌, ◌≢◌, ◌+◌, ◌≤◌, ◌<◌, ◌++◌, List, ◌∷◌, [], true, None, Some, IfOk, IfErr, OnOk, ℕ, length, vec_len, vec_capacity, option_to_list};
ghost use Rattle.ng_mtrace.specs.Faults.{is_beyond};
ghost use Rattle.ng_mtrace.specs.Text.{IsWithout};
ghost use Rattle.ng_script.specs.Faults.{first_fault, is_bad};
ghost use Rattle.ng_script.specs.Forms.{form_of};
ghost use Rattle.ng_script.specs.Lines.{IsTaken};
ghost use Rattle.ng_script.specs.PartScript.{fault_at, faults_left, script_left, room_left, IsReady, IsLineFault};
ghost use Rattle.ng_script.specs.Reads.{IsWithinLimits};
ghost use Rattle.ng_script.specs.Scripts.{script_of};

use crate::command::Command;
use crate::line::{LineFault, read_line};
use crate::names::Names;
use crate::script::Script;
use crate::script_fault::ScriptFault;
use ng_mtrace::cut_at;
use ng_terms::Items;
use std::alloc::{AllocError, Global};

/// The most lines of an input.
const LINES: u64 = 1_000_000;

/// The most bytes of a line.
const BYTES: usize = 4096;

/// What was read of an input so far.
#[derive(Drop)]
pub struct PartScript {
    /// How many line feeds.
    pub number: u64,
    /// The bytes behind the last line feed.
    pub line: Vec<u8>,
    /// The names of the `m` lines.
    pub names: Names,
    /// The commands of the whole lines.
    pub commands: Vec<Command>,
}

impl PartScript {
    /// Nothing was read.
    pub fn new(alloc: Global) -> Result<PartScript, AllocError>
        ensures ready { IfOk result IsReady }
        ensures faults { IfOk result (λ r. (text : List ℕ)
            → faults_left r text ≡ first_fault text) }
        ensures script { IfOk result (λ r. (text : List ℕ)
            → script_left r text ≡ script_of text) }
    {
        let line = Vec::with_capacity(alloc, BYTES)?;
        Ok(PartScript {
            number: 0,
            line,
            names: Names::new(alloc),
            commands: Vec::new(alloc),
        })
    }

    /// Takes the next bytes.
    pub fn feed(&mut self, piece: &[u8]) -> Result<(), ScriptFault>
        requires { IsReady self.old }
        ensures ready { OnOk result (IsReady self.new) }
        ensures faults { OnOk result ((rest : List ℕ)
            → faults_left self.new rest ≡ faults_left self.old (piece.now ++ rest)) }
        ensures script { OnOk result ((rest : List ℕ)
            → script_left self.new rest ≡ script_left self.old (piece.now ++ rest)) }
        ensures progress { OnOk result
            (room_left self.new + length piece.now ≤ room_left self.old) }

        ensures faulty { IfErr result IsLineFault }
        ensures err { IfErr result (λ fault. fault ≢ ScriptFault.Host → (rest : List ℕ)
            → faults_left self.old (piece.now ++ rest) ≡ Some fault) }
    {
        let mut rest = piece;
        while let Some((part, behind)) = cut_at(rest, b'\n') {
            if let Err(fault) = self.end_line(part) {
                return Err(fault);
            }
            rest = behind;
        }
        self.keep(rest)
    }

    /// The script, where the text ends here.
    pub fn finish(self) -> Script
        requires { IsReady self }
        ensures faultless { faults_left self [] ≡ None }
        ensures script { result ≡ script_left self [] }
        ensures limits { IsWithinLimits result }
    {
        let PartScript {
            number: _,
            line: _,
            names,
            commands,
        } = self;
        Script {
            commands: Items::from_vec(commands),
            names: names.len(),
        }
    }

    /// Takes the end of a line and its line feed.
    fn end_line(&mut self, part: &[u8]) -> Result<(), ScriptFault>
        requires ready { IsReady self.old }
        requires unfed { IsWithout 10 part.now }
        ensures ready { OnOk result (IsReady self.new) }
        ensures faults { OnOk result ((rest : List ℕ)
            → faults_left self.new rest ≡ faults_left self.old (part.now ++ 10 ∷ rest)) }
        ensures script { OnOk result ((rest : List ℕ)
            → script_left self.new rest ≡ script_left self.old (part.now ++ 10 ∷ rest)) }
        ensures progress { OnOk result
            (room_left self.new + length part.now + 1 ≤ room_left self.old) }

        ensures faulty { IfErr result IsLineFault }
        ensures err { IfErr result (λ fault. fault ≢ ScriptFault.Host → (rest : List ℕ)
            → faults_left self.old (part.now ++ 10 ∷ rest) ≡ Some fault) }
    {
        if self.is_beyond(part) {
            return Err(ScriptFault::Limit(self.number + 1));
        }
        self.number += 1;
        match last_line(&mut self.line, part, &mut self.names) {
            Ok(command) => match add(&mut self.commands, command) {
                Ok(()) => Ok(()),
                Err(_) => Err(ScriptFault::Host),
            },
            Err(why) => Err(fault_at(self.number, why)),
        }
    }

    /// Takes bytes without a line feed.
    fn keep(&mut self, part: &[u8]) -> Result<(), ScriptFault>
        requires ready { IsReady self.old }
        requires unfed { IsWithout 10 part.now }
        ensures ready { OnOk result (IsReady self.new) }
        ensures faults { OnOk result ((rest : List ℕ)
            → faults_left self.new rest ≡ faults_left self.old (part.now ++ rest)) }
        ensures script { OnOk result ((rest : List ℕ)
            → script_left self.new rest ≡ script_left self.old (part.now ++ rest)) }
        ensures progress { OnOk result
            (room_left self.new + length part.now ≤ room_left self.old) }

        ensures faulty { IfErr result IsLineFault }
        ensures err { IfErr result (λ fault. (rest : List ℕ)
            → faults_left self.old (part.now ++ rest) ≡ Some fault) }
    {
        if part.is_empty() {
            return Ok(());
        }
        if self.is_beyond(part) {
            return Err(ScriptFault::Limit(self.number + 1));
        }
        self.line.extend_from_slice(part).unwrap();
        Ok(())
    }

    /// Is the line too long with these bytes, or one line too many?
    fn is_beyond(&self, part: &[u8]) -> bool
        requires { IsReady self.now }
        ensures { result ≡ is_beyond (self.now.number + 1) (self.now.line.items ++ part.now) }
    {
        self.number == LINES || part.len() > BYTES - self.line.len()
    }
}

/// The command of a line that ends with these bytes. What was kept of it is dropped.
fn last_line(
    line: &mut Vec<u8>,
    part: &[u8],
    names: &mut Names,
) -> Result<Option<Command>, LineFault>
    requires names { length names.old < 1000000 }
    requires fits { vec_len line.old + length part.now ≤ vec_capacity line.old }
    ensures ok { IfOk result (λ command.
        IsTaken names.old (form_of (line.old.items ++ part.now)) names.new command) }
    ensures empty { line.new.items ≡ [] }
    ensures capacity { vec_capacity line.old ≤ vec_capacity line.new }

    ensures err { IfErr result (λ fault. fault ≢ LineFault.Host
        → is_bad names.old (form_of (line.old.items ++ part.now)) ≡ true) }
{
    if line.is_empty() {
        return read_line(names, part);
    }
    line.extend_from_slice(part).unwrap();
    let taken = read_line(names, line.as_slice());
    line.clear();
    taken
}

/// Appends a line's command, if it has one.
fn add(commands: &mut Vec<Command>, command: Option<Command>) -> Result<(), AllocError>
    ensures { OnOk result (commands.new.items ≡ commands.old.items ++ option_to_list command) }
{
    if let Some(command) = command {
        commands.push(command)?;
    }
    Ok(())
}

/// The fault of a line of this number.
fn fault_at(line: u64, why: LineFault) -> ScriptFault
    ensures { result ≡ fault_at line why }
{
    match why {
        LineFault::Bad => ScriptFault::BadLine(line),
        LineFault::Host => ScriptFault::Host,
    }
}
