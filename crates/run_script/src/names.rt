//! Sets of names.

ghost use Rattle.std.specs.Prelude.{◌≡◌, ◌||◌, ◌&&◌, not, ℕ, List, false, OnOk};
ghost use Rattle.std.specs.Str.{bytes_eq};
ghost use Rattle.run_script.specs.Names.{holds};

use std::alloc::{AllocError, Global};
use std::collections::HashSet;

/// A set of names. Contracts see by `holds` which bytes are in it.
#[derive(Drop)]
pub(crate) struct Names {
    set: HashSet<String>,
}

impl Names {
    /// No names.
    pub(crate) fn new(alloc: Global) -> Names
        ensures { (name : List ℕ) → holds result name ≡ false }
    {
        Names {
            set: HashSet::new(alloc),
        }
    }

    pub(crate) fn contains(&self, name: &str) -> bool
        ensures { result ≡ holds self.now name.now }
    {
        self.set.contains(name)
    }

    /// Adds a name.
    pub(crate) fn insert(&mut self, alloc: Global, name: &str) -> Result<(), AllocError>
        ensures { OnOk result ((other : List ℕ)
            → holds self.new other ≡ (bytes_eq name.now other || holds self.old other)) }
    {
        let name = String::from_str(alloc, name)?;
        self.set.insert(name)?;
        Ok(())
    }

    /// Takes a name out.
    pub(crate) fn remove(&mut self, name: &str)
        ensures { (other : List ℕ)
            → holds self.new other ≡ (not (bytes_eq name.now other) && holds self.old other) }
    {
        self.set.remove(name);
    }
}
