ghost use Rattle.std.specs.Prelude.{◌≡◌, ◌≤◌, ℕ, List, None, Some, if◌then◌else◌, IfOk, OnOk};
ghost use Rattle.std.specs.Prelude.{OnErr, IsErr};
ghost use Rattle.scq_outside.specs.Counts.{RoseWhere};
ghost use Rattle.scq_outside.specs.Readable.{Readable};
ghost use Rattle.std.specs.Str.{bytes_eq};

use crate::{Cause, Failed, Files, MemSource};
use scq_word::NoMemory;
use std::alloc::Global;
use std::collections::HashMap;
use std::marker::Model;

/// A source that was added: none of its reads has failed.
#[derive(Drop)]
struct Unfailed {
    source: MemSource,
}

impl Model for Unfailed {
    ghost Value = { Readable };

    ghost view = { λ u. u.source };

    ghost invariant = { λ u. u.source.faults ≡ 0 };
}

/// Files in memory: what was added and not yet given out. A name that is missing, or was given
/// out, is a fault, and nothing else is.
#[derive(Drop)]
pub struct MemFiles {
    alloc: Global,
    sources: HashMap<String, Unfailed>,
    faults: u64,
}

impl MemFiles {
    ghost use Rattle.scq_outside.specs.Memory.{faults_of, source_in};

    pub fn new(alloc: Global) -> MemFiles
        ensures empty { (name : List ℕ) → source_in result name ≡ None }
        ensures faults { faults_of result ≡ 0 }
    {
        MemFiles {
            alloc,
            sources: HashMap::new(alloc),
            faults: 0,
        }
    }

    pub fn add(&mut self, name: &str, source: MemSource) -> Result<(), NoMemory>
        requires missing { source_in self.old name.now ≡ None }
        requires unfailed { source.faults ≡ 0 }
        ensures added { OnOk result ((other : List ℕ) →
            source_in self.new other
            ≡ (if bytes_eq name.now other then Some source else source_in self.old other)) }
        ensures unchanged { OnErr result ((other : List ℕ)
            → source_in self.new other ≡ source_in self.old other) }
        ensures faults { faults_of self.new ≡ faults_of self.old }
    {
        let name = String::from_str(self.alloc, name)?;
        self.sources.insert(name, Unfailed { source })?;
        Ok(())
    }
}

impl Files for MemFiles {
    ghost use Rattle.scq_outside.specs.Memory.{faults_of, source_in, table_of};

    type Src = MemSource;

    ghost faults = { faults_of };

    ghost table = { λ files. Some (table_of files) };

    ghost cause = { λ _. None };

    fn cause(&self) -> Option<Cause> {
        None
    }

    fn source(&mut self, name: &str) -> Result<MemSource, Failed>
        ensures same { IfOk result (λ source. source_in self.old name.now ≡ Some source) }
        ensures fresh { IfOk result (λ source. source.faults ≡ 0) }
        ensures given { OnOk result ((other : List ℕ) →
            source_in self.new other
            ≡ (if bytes_eq name.now other then None else source_in self.old other)) }

        // A name that is missing leaves the files as they are, and counts once.
        ensures missing { OnErr result (source_in self.old name.now ≡ None) }
        ensures unchanged { OnErr result ((other : List ℕ)
            → source_in self.new other ≡ source_in self.old other) }
        ensures counted { RoseWhere (IsErr result) (faults_of self.old) (faults_of self.new)
            × (faults_of self.old ≤ faults_of self.new) }
    {
        match self.sources.remove(name) {
            Some(added) => Ok(added.source),
            None => {
                self.faults = self.faults.saturating_add(1);
                Err(Failed)
            }
        }
    }
}
