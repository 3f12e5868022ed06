ghost use Rattle.std.specs.Prelude.{◌≡◌, map, IfOk, OnOk, OnErr};
ghost use Rattle.std.specs.FinSet as set;

use crate::memory::NoMemory;
use std::alloc::Global;
use std::collections::BTreeSet;
use std::marker::Model;

/// A set of names, each a string of bytes.
#[derive(Drop)]
pub(crate) struct NameSet {
    names: BTreeSet<Vec<u8>>,
}

impl Model for NameSet {
    ghost use Rattle.std.specs.Prelude.{map};
    ghost use Rattle.std.specs.FinSet as set;
    ghost use Rattle.ot_base.specs.NameLists as lists;

    ghost Value = { lists.NameSet };

    ghost coded = { lists.name_set_code };

    ghost view = { λ s. set.from_list (map (λ name. name.items) s.names.keys) };
}

impl NameSet {
    /// No name.
    pub(crate) fn new(alloc: Global) -> NameSet
        ensures { result ≡ set.empty }
    {
        NameSet {
            names: BTreeSet::new(alloc),
        }
    }

    /// The set of these names.
    pub(crate) fn of(alloc: Global, names: &[&str]) -> Result<NameSet, NoMemory>
        ensures { IfOk result (λ s. s ≡ set.from_list (map (λ name. name.now) names.now)) }
    {
        let mut all = NameSet::new(alloc);
        for name in names {
            all.add(alloc, name.as_bytes())?;
        }
        Ok(all)
    }

    /// Adds a name.
    pub(crate) fn add(&mut self, alloc: Global, name: &[u8]) -> Result<(), NoMemory>
        ensures ok { OnOk result (self.new ≡ set.insert self.old name.now) }
        ensures err { OnErr result (self.new ≡ self.old) }
    {
        let name = Vec::from_slice(alloc, name)?;
        self.names.insert(name)?;
        Ok(())
    }

    /// Whether this name is among them.
    pub(crate) fn contains(&self, name: &[u8]) -> bool
        ensures { result ≡ set.contains self.now name.now }
    {
        self.names.contains(name)
    }
}
