ghost use Rattle.std.specs.Prelude.{◌≡◌, ◌<◌, ◌≤◌, ◌+◌, ◌*◌, List, ℕ, length, vec_len, slice_index, IfOk, OnOk, Some, All, Contains};
ghost use Rattle.ng_plan.specs.Tables.{Rises, IsKnown};

use crate::mentions::{ended, made};
use crate::slots::Slots;
use ng_mtrace::Line;
use std::alloc::{AllocError, Global};
use std::marker::Model;

/// The names that the logs mention, in order, each once.
#[derive(Drop)]
pub struct Names {
    sorted: Vec<u64>,
    slots: Slots,
}

/// Contracts see the names alone.
impl Model for Names {
    ghost Value = { List ℕ };

    ghost view = { λ s. s.sorted.items };
}

impl Names {
    /// These names.
    pub fn new(alloc: Global, sorted: Vec<u64>) -> Result<Names, AllocError>
        ensures { IfOk result (λ names. names ≡ sorted.items) }
    {
        let mut slots = Slots::new(alloc, sorted.len().saturating_mul(4))?;
        for (at, name) in sorted.iter().enumerate() {
            slots.note(*name, at);
        }
        Ok(Names { sorted, slots })
    }

    /// How many names there are.
    pub fn len(&self) -> usize
        ensures { result ≡ length self.now }
    {
        self.sorted.len()
    }

    /// The number of a name.
    #[inline(always)]
    pub fn number(&self, name: u64) -> usize
        requires rising { Rises self.now }
        requires known { Contains self.now name }
        ensures within { result < length self.now }
        ensures name { slice_index self.now result ≡ name }
    {
        match self.slots.latest(self.sorted.as_slice(), name) {
            Some(at) => at,
            None => self.search(name),
        }
    }

    /// The number of a name that isn't in its first slot.
    #[inline(never)]
    fn search(&self, name: u64) -> usize
        requires rising { Rises self.now }
        requires known { Contains self.now name }
        ensures within { result < length self.now }
        ensures name { slice_index self.now result ≡ name }
    {
        let names = self.sorted.as_slice();
        match self.slots.place(names, name) {
            Some(at) => at,
            None => number_of(names, name),
        }
    }
}

/// Adds the names that the lines mention.
pub fn mention_all(alloc: Global, names: &mut Vec<u64>, lines: &[Line]) -> Result<(), AllocError>
    ensures known { OnOk result (All (IsKnown names.new.items) lines.now) }
    ensures kept { (name : ℕ) → Contains names.old.items name → Contains names.new.items name }
    ensures few { vec_len names.new ≤ vec_len names.old + 2 * length lines.now }
{
    let mut slots = Slots::new(alloc, lines.len() / 2)?;
    for line in lines {
        mention(names, &mut slots, line)?;
    }
    Ok(())
}

/// Adds the names that the line mentions.
fn mention(names: &mut Vec<u64>, slots: &mut Slots, line: &Line) -> Result<(), AllocError>
    ensures known { OnOk result (IsKnown names.new.items line.now) }
    ensures kept { (name : ℕ) → Contains names.old.items name → Contains names.new.items name }
    ensures few { vec_len names.new ≤ vec_len names.old + 2 }
{
    add(names, slots, ended(line))?;
    add(names, slots, made(line))?;
    Ok(())
}

/// Adds a name, if one is given, unless its slot tells that it is there.
#[inline(always)]
fn add(names: &mut Vec<u64>, slots: &mut Slots, name: Option<u64>) -> Result<(), AllocError>
    ensures known { OnOk result ((given : ℕ) → name ≡ Some given → Contains names.new.items given) }
    ensures kept { (name : ℕ) → Contains names.old.items name → Contains names.new.items name }
    ensures few { vec_len names.new ≤ vec_len names.old + 1 }
{
    let Some(name) = name else {
        return Ok(());
    };
    match slots.latest(names.as_slice(), name) {
        Some(_) => Ok(()),
        None => append(names, slots, name),
    }
}

/// Adds a name, and notes its place in its slot.
#[inline(never)]
fn append(names: &mut Vec<u64>, slots: &mut Slots, name: u64) -> Result<(), AllocError>
    ensures known { OnOk result (Contains names.new.items name) }
    ensures kept { (name : ℕ) → Contains names.old.items name → Contains names.new.items name }
    ensures few { vec_len names.new ≤ vec_len names.old + 1 }
{
    slots.replace(name, names.len());
    names.push(name)?;
    Ok(())
}

/// These names in order, each once.
pub fn each_once(mut names: Vec<u64>) -> Vec<u64>
    ensures rising { Rises result.items }
    ensures known { (name : ℕ) → Contains names.items name → Contains result.items name }
    ensures few { vec_len result ≤ vec_len names }
{
    names.sort_unstable();
    names.dedup();
    names
}

/// The number of a name.
fn number_of(names: &[u64], name: u64) -> usize
    requires rising { Rises names.now }
    requires known { Contains names.now name }
    ensures within { result < length names.now }
    ensures name { slice_index names.now result ≡ name }
{
    match names.binary_search(&name) {
        Ok(at) => at,
        Err(_) => unreachable!(),
    }
}
