ghost use Rattle.std.specs.Prelude.{◌≡◌, ◌≤◌, ◌<◌, ℕ, List, [], map, length, is_some, IfOk, IfSome, OnOk};
ghost use Rattle.ng_script.specs.Scripts.{is_among, with_name, number_in};

use indexmap::IndexSet;
use ng_terms::Host;
use std::alloc::Global;
use std::marker::Model;

/// Names, each once, in the order in which they came.
#[derive(Drop)]
pub struct Names {
    set: IndexSet<Vec<u8>>,
}

impl Model for Names {
    ghost Value = { List (List ℕ) };

    ghost view = { λ s. map (λ name. name.items) s.set.keys };
}

impl Names {
    /// No name.
    pub fn new(alloc: Global) -> Names
        ensures { result ≡ [] }
    {
        Names {
            set: IndexSet::new(alloc),
        }
    }

    /// How many names there are.
    pub fn len(&self) -> u32
        requires { length self.now ≤ 1000000 }
        ensures { result ≡ length self.now }
    {
        self.set.len() as u32
    }

    /// The number of a name: its place among the names.
    pub fn number(&self, name: &[u8]) -> Option<u32>
        requires { length self.now ≤ 1000000 }
        ensures number { result ≡ number_in self.now name.now }
        ensures among { is_some result ≡ is_among self.now name.now }
        ensures below { IfSome result (λ number. number < length self.now) }
    {
        match self.set.get_index_of(name) {
            Some(number) => Some(number as u32),
            None => None,
        }
    }

    /// The number of a name, which goes last if it is new.
    pub fn enter(&mut self, name: &[u8]) -> Result<u32, Host>
        requires { length self.old < 1000000 }
        ensures number { IfOk result (λ number. number_in self.new name.now ≡ Some number) }
        ensures names { OnOk result (self.new ≡ with_name self.old name.now) }
    {
        if let Some(number) = self.number(name) {
            return Ok(number);
        }
        let number = self.len();
        let alloc = *self.set.allocator();
        let Ok(owned) = Vec::from_slice(alloc, name) else {
            return Err(Host);
        };
        let Ok(_) = self.set.insert(owned) else {
            return Err(Host);
        };
        Ok(number)
    }
}
