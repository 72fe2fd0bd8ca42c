ghost use Rattle.std.specs.Prelude.{◌≡◌, ◌+◌, ◌≤◌, ◌++◌, ◌∷◌, [], length, take, IfOk, IsErrOf};
ghost use Rattle.std.specs.Prelude.{OnErr, OnOk, Ok, Err, option_map};
ghost use Rattle.std.specs.Bool.{OnFalse};
ghost use Rattle.std.specs.FinMap as map;
ghost use Rattle.std.specs.Option.{ForSome};
ghost use Rattle.bb_base.specs.Folder.{CountsFaults, file_limit, file_of, file_read};
ghost use Rattle.bb_base.specs.Folder.{has_folder, is_fault, is_under, name_in, names_in};
ghost use Rattle.bb_base.specs.MemFiles.{after_call, folder_of, refuses_next};
ghost use Rattle.bb_base.specs.declared.files.FileFail.TheVariants.{TooLong};

use crate::planned::is_planned;
use crate::{Bytes, FILE_LIMIT, FaultCount, FileFail, Files, NoMemory, Text, TextList};
use std::alloc::Global;
use std::collections::BTreeMap;
use std::marker::Model;

/// Files in memory. They tell all, and a call fails where it is told to.
#[derive(Debug, Drop)]
pub struct MemFiles {
    alloc: Global,
    files: BTreeMap<String, Bytes>,
    planned: Vec<u32>,
    calls: u64,
    faults: FaultCount,
}

impl Model for MemFiles {
    ghost use Rattle.std.specs.BTreeMap.{IsOrdered};
    ghost use Rattle.std.specs.FinMap.{from_sorted};
    ghost use Rattle.std.specs.String.{string_cmp};
    ghost use Rattle.bb_base.specs.MemFiles.{Stored, by_bytes, stored_code};

    ghost Value = { Stored };

    ghost coded = { stored_code };

    ghost view = { λ m. record {
      files = from_sorted (by_bytes m.files.entries);
      planned = m.planned.items;
      calls = m.calls;
      faults = m.faults.count;
    } };

    ghost invariant = { λ m. IsOrdered string_cmp m.files };
}

impl MemFiles {
    /// No files.
    pub fn none(alloc: Global) -> MemFiles
        ensures { result ≡ record { files = map.empty; planned = []; calls = 0; faults = 0 } }
    {
        MemFiles {
            alloc,
            files: BTreeMap::new(alloc),
            planned: Vec::new(alloc),
            calls: 0,
            faults: FaultCount::none(),
        }
    }

    /// Adds a file. A name that is there gets the new bytes.
    pub fn add(&mut self, name: &str, bytes: &[u8]) -> Result<(), NoMemory>
        ensures ok { OnOk result (self.new
            ≡ record self.old { files = map.insert self.old.files name.now bytes.now }) }
        ensures err { OnErr result (self.new ≡ self.old) }
    {
        let name = String::from_str(self.alloc, name)?;
        let mut file = Bytes::none(self.alloc);
        file.add(bytes)?;
        self.files.insert(name, file)?;
        Ok(())
    }

    /// Plans that the call with this number, counted from 0 over all calls of `Files`, meets a
    /// fault.
    pub fn fail_call(&mut self, call: u32) -> Result<(), NoMemory>
        ensures ok { OnOk result (self.new
            ≡ record self.old { planned = self.old.planned ++ call ∷ [] }) }
        ensures err { OnErr result (self.new ≡ self.old) }
    {
        self.planned.push(call)?;
        Ok(())
    }

    // Counts a call, and answers whether it is to fail.
    fn is_refused(&mut self) -> bool
        ensures answer { result ≡ refuses_next self.old }
        ensures kept { self.new ≡ after_call self.old }
    {
        let refused = is_planned(self.planned.as_slice(), self.calls);
        self.calls = self.calls.saturating_add(1);
        if refused {
            self.faults.raise();
        }
        refused
    }

    fn file(&self, name: &str) -> Option<&[u8]>
        ensures { option_map (λ bytes. bytes.now) result ≡ map.get self.now.files name.now }
    {
        self.files.get(name).map(|bytes| bytes.as_slice())
    }

    fn has_folder(&self, dir: &str) -> bool
        ensures { result ≡ has_folder self.now.files dir.now }
    {
        for name in self.files.keys() {
            if is_under(dir, name.as_str()) {
                return true;
            }
        }
        false
    }

    fn parts_in(&self, dir: &str) -> Result<TextList, NoMemory>
        ensures { IfOk result (λ names. names ≡ names_in self.now.files dir.now) }
    {
        let mut names = TextList::none(self.alloc);
        for name in self.files.keys() {
            if let Some(name) = part_in(dir, name.as_str()) {
                names.push(Text::of(self.alloc, name)?)?;
            }
        }
        Ok(names)
    }
}

// Whether the name begins with the folder's name and a `/`.
fn is_under(dir: &str, name: &str) -> bool
    ensures { result ≡ is_under dir.now name.now }
{
    let behind = name.as_bytes().strip_prefix(dir.as_bytes());
    behind.is_some_and(|rest| rest.starts_with(b"/"))
}

// What stands after the last `/`, where the folder's name stands before it.
fn part_in<'n>(dir: &str, name: &'n str) -> Option<&'n str>
    ensures { option_map (λ n. n.now) result ≡ name_in dir.now name.now }
{
    let (before, behind) = name.rsplit_once('/')?;
    if before == dir { Some(behind) } else { None }
}

impl Files for MemFiles {
    ghost folder = { folder_of };

    fn read(&mut self, name: &str, out: &mut Bytes) -> Result<bool, FileFail>
        ensures read { IfOk result (λ there. ForSome (folder_of self.old).told (λ files.
            file_of files name.now ≡ Ok (file_read there out.old out.new))) }
        ensures too_long { IsErrOf result TooLong → ForSome (folder_of self.old).told (λ files.
            file_of files name.now ≡ Err TooLong) }
        ensures appended { OnOk result (take (length out.old) out.new ≡ out.old) }
        ensures short { OnOk result (length out.new ≤ length out.old + file_limit) }
        ensures missing { IfOk result (λ there. OnFalse there (out.new ≡ out.old)) }
        ensures err { OnErr result (out.new ≡ out.old) }
        ensures told { (folder_of self.new).told ≡ (folder_of self.old).told }
        ensures counts { CountsFaults result (folder_of self.old) (folder_of self.new) }

        // It meets a fault exactly where it is planned to.
        ensures exact { is_fault result ≡ refuses_next self.old }
        ensures kept { self.new ≡ after_call self.old }
    {
        if self.is_refused() {
            return Err(FileFail::Fault);
        }
        let Some(bytes) = self.file(name) else {
            return Ok(false);
        };
        if bytes.len() > FILE_LIMIT {
            return Err(FileFail::TooLong);
        }
        out.add(bytes)?;
        Ok(true)
    }

    fn names(&mut self, dir: &str, out: &mut TextList) -> Result<bool, FileFail>
        ensures there { IfOk result (λ there. ForSome (folder_of self.old).told (λ files.
            there ≡ has_folder files dir.now)) }
        ensures names { OnOk result (ForSome (folder_of self.old).told (λ files.
            out.new ≡ out.old ++ names_in files dir.now)) }
        ensures never_long { ¬ IsErrOf result TooLong }
        ensures appended { OnOk result (take (length out.old) out.new ≡ out.old) }
        ensures missing { IfOk result (λ there. OnFalse there (out.new ≡ out.old)) }
        ensures err { OnErr result (out.new ≡ out.old) }
        ensures told { (folder_of self.new).told ≡ (folder_of self.old).told }
        ensures counts { CountsFaults result (folder_of self.old) (folder_of self.new) }

        // It meets a fault exactly where it is planned to.
        ensures exact { is_fault result ≡ refuses_next self.old }
        ensures kept { self.new ≡ after_call self.old }
    {
        if self.is_refused() {
            return Err(FileFail::Fault);
        }
        let there = self.has_folder(dir);
        if there {
            out.append(self.parts_in(dir)?)?;
        }
        Ok(there)
    }
}
