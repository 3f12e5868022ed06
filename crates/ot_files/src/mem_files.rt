//! Files in memory, some of whose calls fail.
ghost use Rattle.std.specs.Prelude.{◌≡◌, ◌≤◌, ◌↔◌, [], length, Some, true, option_copied, IfErr, OnOk, OnErr, IsErrOf, IsTrue, ◌⊎◌};
ghost use Rattle.std.specs.FinMap.{get, insert};
ghost use Rattle.ot_files.specs.Content.{reading, Answers, IsLimit};
ghost use Rattle.ot_files.specs.Memory.{names_of, names_differ, content_of, fails_now, after_call};

use crate::access::{FileError, Files};
use crate::calls::FailingCalls;
use crate::sure_files::SureFiles;
use std::alloc::Global;
use std::marker::Model;

/// Files in memory that tell their content. Their reads and writes are numbered from 0, and those
/// whose numbers were given fail.
#[derive(Drop)]
pub struct MemFiles {
    files: SureFiles,
    plan: FailingCalls,
}

impl Model for MemFiles {
    ghost use Rattle.ot_files.specs.Memory.{PlannedFiles, planned_files_code};

    ghost Value = { PlannedFiles };

    ghost coded = { planned_files_code };

    ghost view = { λ s. record { held = s.files; plan = s.plan } };
}

impl MemFiles {
    /// Files with these names and what each holds, and the numbers of the calls that fail.
    pub fn new(alloc: Global, entries: Vec<(String, Vec<u8>)>, failing: Vec<u64>) -> MemFiles
        requires { IsTrue (names_differ (names_of entries.items)) }
        ensures held { result.held ≡ content_of entries.items }
        ensures plan { result.plan ≡ record { failing = failing.items; calls = 0; faults = 0 } }
    {
        MemFiles {
            files: SureFiles::new(alloc, entries),
            plan: FailingCalls::new(failing),
        }
    }

    /// What a name holds.
    pub fn content(&self, name: &str) -> Option<&[u8]>
        ensures { option_copied result ≡ get self.now.held name.now }
    {
        self.files.content(name)
    }

    /// How many calls have failed.
    pub fn faults(&self) -> u64
        ensures { result ≡ self.now.plan.faults }
    {
        self.plan.faults()
    }
}

impl Files for MemFiles {
    ghost content = { λ s. Some s.held };

    ghost faults = { λ s. s.plan.faults };

    fn read(&mut self, name: &str, limit: u64, into: &mut Vec<u8>) -> Result<(), FileError>
        ensures fails { IsErrOf result FileError.Failed ↔ (fails_now self.old.plan ≡ true) }
        ensures after { self.new ≡ record self.old { plan = after_call self.old.plan } }
        ensures later { self.old.plan.faults ≤ self.new.plan.faults }
        ensures told { Answers result into.new.items (reading self.old.held name.now limit) }
        ensures within { OnOk result (length into.new.items ≤ limit) }
        ensures limit { IfErr result (IsLimit limit) }
        ensures emptied { OnErr result (into.new.items ≡ []) }
    {
        if self.plan.next_fails() {
            into.clear();
            return Err(FileError::Failed);
        }
        self.files.read(name, limit, into)
    }

    fn write(&mut self, name: &str, bytes: &[u8]) -> Result<(), FileError>
        ensures fails { IsErrOf result FileError.Failed ↔ (fails_now self.old.plan ≡ true) }
        ensures plan { self.new.plan ≡ after_call self.old.plan }
        ensures later { self.old.plan.faults ≤ self.new.plan.faults }
        ensures ok { OnOk result (self.new.held ≡ insert self.old.held name.now bytes.now) }
        ensures err { OnErr result (self.new.held ≡ self.old.held) }
        ensures refusal { IfErr result (λ e. (e ≡ FileError.Failed) ⊎ (e ≡ FileError.NoMemory)) }
    {
        if self.plan.next_fails() {
            return Err(FileError::Failed);
        }
        self.files.write(name, bytes)
    }
}
