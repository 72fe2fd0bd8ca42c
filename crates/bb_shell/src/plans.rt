ghost use Rattle.std.specs.Prelude.{◌≡◌, ◌<◌, ◌+◌, ℕ, IfErr, IfOk, Ok, Err, length, slice_get};
ghost use Rattle.std.specs.Option.{ForSome, option_copied, option_map};
ghost use Rattle.bb_base.specs.Form.{area_limit};
ghost use Rattle.bb_base.specs.Faults.{counted};
ghost use Rattle.bb_base.specs.Folder.{file_of};
ghost use Rattle.bb_shell.specs.Plans.{IsPlanOf, IsPlanRead, IsPlanned, NamesTarget, entry_answer};
ghost use Rattle.bb_shell.specs.Plans.{folder_answer, folder_named, is_file_fault, plan_by};
ghost use Rattle.bb_shell.specs.Plans.{plan_with, plans_of};

use crate::PlanFault;
use bb_base::{Bytes, FileFail, Files, NoMemory};
use bb_bls::{Entry, EntryError, read_entry};
use bb_chooser::Chooser;
use bb_flash::{Plan, PlanList};
use bb_menu::{Menu, MenuFault, read_menu};
use std::alloc::Global;

/// The plan of each target, from its entry's file, in order. A setting that ends in `/` names a
/// folder, and its entry is the first of the folder's menu. A target whose file or folder isn't
/// there, or has no entry, has no plan. The first file that can't be read decides: FileFault where
/// a fault was counted, and FileTooLong exactly where the file has more than 1,048,576 bytes.
pub fn read_plans<F: Files>(
    alloc: Global,
    chooser: &Chooser,
    files: &mut F,
) -> Result<PlanList, PlanFault>
    // Where the files are told, the plans and a file that is too long are those of the definition.
    ensures ok { IfOk result (λ plans. ForSome (F.folder files.old).told (λ told.
        plans_of told chooser.now ≡ Ok plans)) }
    ensures too_long { (target : ℕ) → result ≡ Err (PlanFault.FileTooLong target)
        → ForSome (F.folder files.old).told (λ told.
        plans_of told chooser.now ≡ Err (PlanFault.FileTooLong target)) }

    // Told or not, the answer comes of what was read, target by target.
    ensures planned { IsPlanned chooser.now (F.folder files.old) result }
    ensures names { IfErr result (NamesTarget chooser.now) }

    // A fault is counted once, and no other answer changes the count.
    ensures told { (F.folder files.new).told ≡ (F.folder files.old).told }
    ensures counts { (F.folder files.new).faults
        ≡ counted (is_file_fault result) (F.folder files.old).faults }
{
    let mut plans = PlanList::none(alloc);
    for target in 0..chooser.count() {
        plans.push(read_plan(alloc, chooser, target, files)?)?;
    }
    Ok(plans)
}

// The plan of a target, if it has one.
fn read_plan<F: Files>(
    alloc: Global,
    chooser: &Chooser,
    target: usize,
    files: &mut F,
) -> Result<Option<Plan>, PlanFault>
    requires few { target < area_limit }
    requires there { target < length chooser.now.targets }
    ensures planned { IsPlanOf chooser.now target (F.folder files.old) result }
    ensures names { IfErr result (NamesTarget chooser.now) }
    ensures told { (F.folder files.new).told ≡ (F.folder files.old).told }
    ensures counts { (F.folder files.new).faults
        ≡ counted (is_file_fault result) (F.folder files.old).faults }
{
    let Some(setting) = chooser.entry(target) else {
        unreachable!()
    };
    plan_of_setting(alloc, target, setting.as_str(), files)
}

// The plan of a target by its setting: that of a folder where it ends in `/`, else of a file.
fn plan_of_setting<F: Files>(
    alloc: Global,
    target: usize,
    setting: &str,
    files: &mut F,
) -> Result<Option<Plan>, PlanFault>
    requires { target < area_limit }
    ensures read { IsPlanRead target (λ told. entry_answer told setting.now)
        (F.folder files.old) result }
    ensures told { (F.folder files.new).told ≡ (F.folder files.old).told }
    ensures counts { (F.folder files.new).faults
        ≡ counted (is_file_fault result) (F.folder files.old).faults }
{
    match folder_named(setting) {
        Some(dir) => plan_of_folder(alloc, target, dir, files),
        None => plan_of_file(alloc, target, setting, files),
    }
}

// The folder that a setting names, if it ends in `/`.
fn folder_named(setting: &str) -> Option<&str>
    ensures { option_copied result ≡ folder_named setting.now }
{
    setting.strip_suffix('/')
}

// The plan of a target by the first entry of a folder.
fn plan_of_folder<F: Files>(
    alloc: Global,
    target: usize,
    dir: &str,
    files: &mut F,
) -> Result<Option<Plan>, PlanFault>
    requires { target < area_limit }
    ensures read { IsPlanRead target (λ told. folder_answer told dir.now)
        (F.folder files.old) result }
    ensures told { (F.folder files.new).told ≡ (F.folder files.old).told }
    ensures counts { (F.folder files.new).faults
        ≡ counted (is_file_fault result) (F.folder files.old).faults }
{
    match read_menu(alloc, dir, files) {
        Ok(menu) => Ok(first_plan(target, menu)),
        Err(MenuFault::NoFolder) => Ok(None),
        Err(MenuFault::FileFault) => Err(PlanFault::FileFault(target)),
        Err(MenuFault::FileTooLong) => Err(PlanFault::FileTooLong(target)),
        Err(MenuFault::NoMemory) => Err(PlanFault::NoMemory),
    }
}

// The plan of a target by the first entry of a menu, if it has one.
fn first_plan(target: usize, menu: Menu) -> Option<Plan>
    requires { target < area_limit }
    ensures { result ≡ option_map (λ item. plan_with target item.entry) (slice_get menu 0) }
{
    let item = menu.into_first()?;
    Some(plan_with(target, item.entry))
}

// The plan of a target by its entry's file.
fn plan_of_file<F: Files>(
    alloc: Global,
    target: usize,
    name: &str,
    files: &mut F,
) -> Result<Option<Plan>, PlanFault>
    requires { target < area_limit }
    ensures read { IsPlanRead target (λ told. file_of told name.now) (F.folder files.old) result }
    ensures told { (F.folder files.new).told ≡ (F.folder files.old).told }
    ensures counts { (F.folder files.new).faults
        ≡ counted (is_file_fault result) (F.folder files.old).faults }
{
    let mut text = Bytes::none(alloc);
    match files.read(name, &mut text) {
        Ok(true) => Ok(plan_of(alloc, target, text.as_slice())?),
        Ok(false) => Ok(None),
        Err(FileFail::Fault) => Err(PlanFault::FileFault(target)),
        Err(FileFail::TooLong) => Err(PlanFault::FileTooLong(target)),
        Err(FileFail::NoMemory) => Err(PlanFault::NoMemory),
    }
}

// The plan of a target by its entry's text: none where that is no entry.
fn plan_of(alloc: Global, target: usize, text: &[u8]) -> Result<Option<Plan>, NoMemory>
    requires { target < area_limit }
    ensures { IfOk result (λ plan. plan ≡ plan_by target (Some text.now)) }
{
    match read_entry(alloc, text) {
        Ok(entry) => Ok(Some(plan_with(target, entry))),
        Err(EntryError::NoMemory) => Err(NoMemory),
        Err(_) => Ok(None),
    }
}

fn plan_with(target: usize, entry: Entry) -> Plan
    requires { target < area_limit }
    ensures { result ≡ plan_with target entry }
{
    Plan {
        place: target as u32 + 1,
        linux: entry.linux,
        initrds: entry.initrds,
        options: entry.options,
        devicetree: entry.devicetree,
    }
}
