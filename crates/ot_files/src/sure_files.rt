//! Files in memory, none of whose calls fails.
ghost use Rattle.std.specs.Prelude.{◌≡◌, ◌≢◌, ◌≤◌, [], length, position, bytes_eq, string_bytes, Some, option_copied, IfErr, OnOk, OnErr, IsOkUnless, IsTrue};
ghost use Rattle.std.specs.FinMap.{get, insert};
ghost use Rattle.ot_files.specs.Content.{Content, reading, Answers, IsLimit};
ghost use Rattle.ot_files.specs.Memory.{names_of, names_differ, content_of};

use crate::access::{FileError, Files};
use std::alloc::{AllocError, Global};
use std::marker::Model;

/// Files in memory that tell their content. Only want of memory is refused, and no fault is counted.
#[derive(Drop)]
pub struct SureFiles {
    alloc: Global,
    entries: Vec<(String, Vec<u8>)>,
}

impl Model for SureFiles {
    ghost use Rattle.ot_files.specs.Content.{Content};
    ghost use Rattle.ot_files.specs.Memory.{content_code, content_of};

    ghost Value = { Content };

    ghost coded = { content_code };

    ghost view = { λ s. content_of s.entries.items };
}

// The first entry with the name.
fn place_of(entries: &[(String, Vec<u8>)], name: &str) -> Option<usize>
    ensures { result ≡ position (λ entry. bytes_eq (string_bytes entry.0) name.now) entries.now }
{
    entries.iter().position(|entry| entry.0.as_str() == name)
}

impl SureFiles {
    /// Files with these names and what each holds.
    pub fn new(alloc: Global, entries: Vec<(String, Vec<u8>)>) -> SureFiles
        requires { IsTrue (names_differ (names_of entries.items)) }
        ensures { result ≡ content_of entries.items }
    {
        SureFiles { alloc, entries }
    }

    /// What a name holds.
    pub fn content(&self, name: &str) -> Option<&[u8]>
        ensures { option_copied result ≡ get self.now name.now }
    {
        let place = place_of(&self.entries, name)?;
        Some(self.entries[place].1.as_slice())
    }

    // Makes a name hold a copy of the bytes.
    fn put(&mut self, name: &str, bytes: &[u8]) -> Result<(), AllocError>
        ensures ok { OnOk result (self.new ≡ insert self.old name.now bytes.now) }
        ensures err { OnErr result (self.new ≡ self.old) }
    {
        let copy = Vec::from_slice(self.alloc, bytes)?;
        match place_of(&self.entries, name) {
            Some(place) => self.entries[place].1 = copy,
            None => {
                let name = String::from_str(self.alloc, name)?;
                self.entries.push((name, copy))?;
            }
        }
        Ok(())
    }
}

impl Files for SureFiles {
    ghost content = { λ s. Some s };

    ghost faults = { λ _. 0 };

    fn read(&mut self, name: &str, limit: u64, into: &mut Vec<u8>) -> Result<(), FileError>
        ensures told { Answers result into.new.items (reading self.old name.now limit) }
        ensures kept { self.new ≡ self.old }
        ensures within { OnOk result (length into.new.items ≤ limit) }
        ensures limit { IfErr result (IsLimit limit) }
        ensures emptied { OnErr result (into.new.items ≡ []) }
        ensures no_fault { IfErr result (λ e. e ≢ FileError.Failed) }
    {
        into.clear();
        let held = self.content(name).ok_or(FileError::Missing)?;
        if held.len() as u64 > limit {
            return Err(FileError::TooLong { limit });
        }
        into.extend_from_slice(held)?;
        Ok(())
    }

    fn write(&mut self, name: &str, bytes: &[u8]) -> Result<(), FileError>
        ensures ok { OnOk result (self.new ≡ insert self.old name.now bytes.now) }
        ensures err { OnErr result (self.new ≡ self.old) }
        ensures refusal { IsOkUnless result FileError.NoMemory }
    {
        self.put(name, bytes)?;
        Ok(())
    }
}
