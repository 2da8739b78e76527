ghost use Rattle.std.specs.Prelude.{◌≡◌, ◌≢◌, ◌+◌, ◌≤◌, ◌<◌, List, ◌∷◌, [], None, Some, true, false, IfOk, IfErr, OnOk, length, map};
ghost use Rattle.std.specs.Option.{option_to_list};
ghost use Rattle.ng_mtrace.specs.Faults.{open_then};
ghost use Rattle.ng_mtrace.specs.Kinds.{is_start, is_bad};
ghost use Rattle.ng_mtrace.specs.OpenSections.{given, old_then, is_inner, logs_after, count_of, total_of, total_in, IsRoomy, kind_fault, one_if};
ghost use Rattle.ng_mtrace.specs.Sections.{log_of, sections_of};
ghost use Rattle.ng_mtrace.specs.declared.kind.Kind.{Kind};

use crate::kind::Kind;
use crate::log::{Line, Log};
use ng_terms::Items;
use std::alloc::{AllocError, Global};

/// The most sections of an input.
const SECTIONS: usize = 16;

/// Why a line isn't taken.
#[derive(Clone, Copy)]
pub enum KindFault {
    /// It begins one section too many.
    TooMany,
    /// It is in a section and in none of the forms.
    Bad,
    /// The host has no memory left.
    Host,
}

/// The sections so far.
#[derive(Drop)]
pub struct Sections {
    /// The logs of the sections that ended.
    pub done: Vec<Log>,
    /// The entries of the log of the open section.
    pub entries: Vec<Line>,
    /// Whether a section is open.
    pub active: bool,
    /// The pointer of a `<` line just before.
    pub pending: Option<u64>,
}

impl Sections {
    /// No section.
    pub fn new(alloc: Global) -> Result<Sections, AllocError>
        ensures roomy { IfOk result IsRoomy }
        ensures none { IfOk result (λ s. count_of s ≡ 0) }
        ensures closed { IfOk result (λ s. s.active ≡ false) }
        ensures total { IfOk result (λ s. total_in s ≡ 0) }
        ensures logs { IfOk result (λ s. (kinds : List Kind)
            → logs_after s kinds ≡ map log_of (sections_of kinds)) }
    {
        let done = Vec::with_capacity(alloc, SECTIONS)?;
        Ok(Sections {
            done,
            entries: Vec::new(alloc),
            active: false,
            pending: None,
        })
    }

    /// Takes a line of this kind.
    pub fn add(&mut self, kind: Kind) -> Result<(), KindFault>
        requires { IsRoomy self.old }
        ensures roomy { OnOk result (IsRoomy self.new) }
        ensures logs { OnOk result ((kinds : List Kind)
            → logs_after self.new kinds ≡ logs_after self.old (kind ∷ kinds)) }
        ensures inside { OnOk result (self.new.active ≡ open_then self.old.active kind) }
        ensures count { OnOk result
            (count_of self.new ≡ count_of self.old + one_if (is_start kind)) }
        ensures total { OnOk result (total_in self.new ≤ total_in self.old + 1) }

        ensures fine { OnOk result
            (kind_fault (count_of self.old) self.old.active kind ≡ None) }
        ensures err { IfErr result (λ fault. fault ≢ KindFault.Host
            → kind_fault (count_of self.old) self.old.active kind ≡ Some fault) }
    {
        match kind {
            Kind::Start => self.begin(),
            Kind::Stop => {
                self.close();
                Ok(())
            }
            _ if self.active => self.put(kind),
            _ => Ok(()),
        }
    }

    /// The logs, where no line comes.
    pub fn into_logs(mut self) -> Vec<Log>
        requires { IsRoomy self }
        ensures logs { result.items ≡ logs_after self [] }
        ensures few { length result.items ≤ 16 }
        ensures total { total_of result.items ≡ total_in self }
    {
        self.close();
        let Sections {
            done,
            entries: _,
            active: _,
            pending: _,
        } = self;
        done
    }

    /// Takes a line of the open section.
    fn put(&mut self, kind: Kind) -> Result<(), KindFault>
        requires roomy { IsRoomy self.old }
        requires inside { self.old.active ≡ true }
        requires inner { is_inner kind ≡ true }
        ensures roomy { OnOk result (IsRoomy self.new) }
        ensures logs { OnOk result ((kinds : List Kind)
            → logs_after self.new kinds ≡ logs_after self.old (kind ∷ kinds)) }
        ensures inside { self.new.active ≡ true }
        ensures done { self.new.done ≡ self.old.done }
        ensures total { OnOk result (total_in self.new ≤ total_in self.old + 1) }

        ensures fine { OnOk result (is_bad kind ≡ false) }
        ensures bad { IfErr result (λ fault. fault ≢ KindFault.Host → is_bad kind ≡ true) }
        ensures err { IfErr result (λ fault. fault ≢ KindFault.Host → fault ≡ KindFault.Bad) }
    {
        if let Kind::Bad = kind {
            return Err(KindFault::Bad);
        }
        let Some(line) = next_line(&mut self.pending, kind) else {
            return Ok(());
        };
        match self.entries.push(line) {
            Ok(()) => Ok(()),
            Err(_) => Err(KindFault::Host),
        }
    }

    /// Ends the open section, if there is one.
    fn close(&mut self)
        requires { IsRoomy self.old }
        ensures roomy { IsRoomy self.new }
        ensures logs { (kinds : List Kind)
            → logs_after self.new kinds ≡ logs_after self.old (Kind.Stop ∷ kinds) }
        ensures start { (kinds : List Kind)
            → logs_after self.new (Kind.Start ∷ kinds) ≡ logs_after self.old (Kind.Start ∷ kinds) }
        ensures closed { self.new.active ≡ false }
        ensures pending { self.new.pending ≡ None }
        ensures count { count_of self.new ≡ count_of self.old }
        ensures total { total_in self.new ≡ total_in self.old }
    {
        if self.active {
            let alloc = *self.entries.allocator();
            let entries = std::mem::replace(&mut self.entries, Vec::new(alloc));
            self.done.push_reserved(Log {
                lines: Items::from_vec(entries),
            });
            self.active = false;
        }
        self.pending = None;
    }

    /// Ends the open section, and begins one.
    fn begin(&mut self) -> Result<(), KindFault>
        requires { IsRoomy self.old }
        ensures roomy { OnOk result (IsRoomy self.new) }
        ensures logs { OnOk result ((kinds : List Kind)
            → logs_after self.new kinds ≡ logs_after self.old (Kind.Start ∷ kinds)) }
        ensures inside { OnOk result (self.new.active ≡ true) }
        ensures count { OnOk result (count_of self.new ≡ count_of self.old + 1) }
        ensures total { total_in self.new ≡ total_in self.old }

        ensures fine { OnOk result (count_of self.old < 16) }
        ensures full { IfErr result (λ fault. 16 ≤ count_of self.old) }
        ensures err { IfErr result (λ fault. fault ≡ KindFault.TooMany) }
    {
        self.close();
        if self.done.len() == SECTIONS {
            return Err(KindFault::TooMany);
        }
        self.active = true;
        Ok(())
    }
}

/// What a line gives its log behind a `<` line of the pending pointer, or behind none. Its own
/// pointer is pending then, where it is a `<` line.
fn next_line(pending: &mut Option<u64>, kind: Kind) -> Option<Line>
    ensures given { option_to_list result ≡ given pending.old kind }
    ensures pending { pending.new ≡ old_then kind }
{
    let old = pending.take();
    if let Kind::Old { name } = kind {
        *pending = Some(name);
    }
    line_of(old, kind)
}

/// What a line gives its log behind a `<` line of this pointer, or behind none.
fn line_of(old: Option<u64>, kind: Kind) -> Option<Line>
    ensures { option_to_list result ≡ given old kind }
{
    match kind {
        Kind::Make { name, size } if name != 0 => Some(Line::Make { name, size }),
        Kind::End { name } if name != 0 => Some(Line::End { name }),
        Kind::New { name, size } if name != 0 => match old {
            None => None,
            Some(0) => Some(Line::Make { name, size }),
            Some(old) => Some(Line::Move { old, name, size }),
        },
        _ => None,
    }
}
