ghost use Rattle.std.specs.Prelude.{◌≡◌, ◌≢◌, false, true, Err, IfOk, IsOkAnd, None, Ok, Some};
ghost use Rattle.std.specs.Prelude.{filter};
ghost use Rattle.std.specs.Option.{ForSome};
ghost use Rattle.std.specs.String.{string_bytes};
ghost use Rattle.bb_base.specs.Faults.{counted};
ghost use Rattle.bb_base.specs.Folder.{has_folder};
ghost use Rattle.bb_menu.specs.Menu.{IsMenuOf, IsMenuRead, IsMenuTextRead, is_menu_fault};
ghost use Rattle.bb_menu.specs.Menu.{item_of_text, items_in, items_of_folder, menu_answer};
ghost use Rattle.bb_menu.specs.Menu.{path_in_folder};
ghost use Rattle.bb_menu.specs.Order.{is_menu_name};
ghost use Rattle.bb_menu.specs.Reading.{AreItemsRead, AreNamesOf, IsItemRead, IsLongFile};
ghost use Rattle.bb_menu.specs.Reading.{IsNameRead};

use crate::{Menu, MenuFault, MenuItem};
use bb_base::{Bytes, FileFail, Files, NoMemory, Text, TextList};
use bb_bls::{EntryError, read_entry};
use std::alloc::Global;

/// The menu of a folder: the entries among its files whose names end in `.conf` and have more than
/// 5 bytes, in their order. A file that isn't there any more, or is no entry, is left out. The
/// folder is named without a `/` at its end. NoFolder comes exactly where it isn't there, FileFault
/// where a fault was counted, and FileTooLong exactly where such a file has more than 1,048,576
/// bytes; the first that is met decides.
pub fn read_menu<F: Files>(alloc: Global, dir: &str, files: &mut F) -> Result<Menu, MenuFault>
    // Where the files are told, the menu is that of the definition, and so is why there is none.
    ensures ok { IfOk result (λ menu. ForSome (F.folder files.old).told (λ told.
        IsOkAnd (items_of_folder told dir.now) (λ found. IsMenuOf found menu))) }
    ensures no_folder { result ≡ Err MenuFault.NoFolder
        → ForSome (F.folder files.old).told (λ told.
        items_of_folder told dir.now ≡ Err MenuFault.NoFolder) }
    ensures too_long { result ≡ Err MenuFault.FileTooLong
        → ForSome (F.folder files.old).told (λ told.
        items_of_folder told dir.now ≡ Err MenuFault.FileTooLong) }

    // Told or not, a menu has what was read, in order.
    ensures read { IfOk result (IsMenuRead (F.folder files.old) dir.now) }

    // A fault is counted once, and no other answer changes the count.
    ensures told { (F.folder files.new).told ≡ (F.folder files.old).told }
    ensures counts { (F.folder files.new).faults
        ≡ counted (is_menu_fault result) (F.folder files.old).faults }
{
    let names = read_names(alloc, dir, files)?;
    let mut menu = read_items(alloc, dir, &names, files)?;
    menu.arrange();
    Ok(menu)
}

/// The text of a folder's menu: a line for each entry, in their order, as `Menu::text` has it. The
/// folder and the faults are as for `read_menu`.
pub fn read_menu_text<F: Files>(alloc: Global, dir: &str, files: &mut F) -> Result<Bytes, MenuFault>
    // Where the files are told, the text is that of the definition, and so is why there is none.
    ensures ok { IfOk result (λ text. ForSome (F.folder files.old).told (λ told.
        menu_answer told dir.now ≡ Ok (Some text))) }
    ensures no_folder { result ≡ Err MenuFault.NoFolder
        → ForSome (F.folder files.old).told (λ told. menu_answer told dir.now ≡ Ok None) }
    ensures too_long { result ≡ Err MenuFault.FileTooLong
        → ForSome (F.folder files.old).told (λ told.
        menu_answer told dir.now ≡ Err FileFail.TooLong) }

    // Told or not, the text is that of a menu that was read.
    ensures read { IfOk result (IsMenuTextRead (F.folder files.old) dir.now) }

    // A fault is counted once, and no other answer changes the count.
    ensures told { (F.folder files.new).told ≡ (F.folder files.old).told }
    ensures counts { (F.folder files.new).faults
        ≡ counted (is_menu_fault result) (F.folder files.old).faults }
{
    let menu = read_menu(alloc, dir, files)?;
    Ok(menu.text(alloc)?)
}

// The names in a folder.
fn read_names<F: Files>(alloc: Global, dir: &str, files: &mut F) -> Result<TextList, MenuFault>
    ensures ok { IfOk result (AreNamesOf (F.folder files.old) dir.now) }
    ensures no_folder { result ≡ Err MenuFault.NoFolder
        → ForSome (F.folder files.old).told (λ told. has_folder told dir.now ≡ false) }
    ensures never_long { result ≢ Err MenuFault.FileTooLong }
    ensures told { (F.folder files.new).told ≡ (F.folder files.old).told }
    ensures counts { (F.folder files.new).faults
        ≡ counted (is_menu_fault result) (F.folder files.old).faults }
{
    let mut names = TextList::none(alloc);
    match files.names(dir, &mut names) {
        Ok(true) => Ok(names),
        Ok(false) => Err(MenuFault::NoFolder),
        Err(FileFail::NoMemory) => Err(MenuFault::NoMemory),
        Err(_) => Err(MenuFault::FileFault),
    }
}

// The entries among the files with these names, in the order of the names.
fn read_items<F: Files>(
    alloc: Global,
    dir: &str,
    names: &TextList,
    files: &mut F,
) -> Result<Menu, MenuFault>
    ensures ok { IfOk result (AreItemsRead (F.folder files.old) dir.now names.now) }
    ensures too_long { result ≡ Err MenuFault.FileTooLong
        → ForSome (F.folder files.old).told (λ told.
        items_in told dir.now (filter is_menu_name names.now) ≡ Err MenuFault.FileTooLong) }
    ensures never_missing { result ≢ Err MenuFault.NoFolder }
    ensures told { (F.folder files.new).told ≡ (F.folder files.old).told }
    ensures counts { (F.folder files.new).faults
        ≡ counted (is_menu_fault result) (F.folder files.old).faults }
{
    let mut menu = Menu::none(alloc);
    for name in names.as_slice() {
        if let Some(item) = read_named(alloc, dir, name.as_str(), files)? {
            menu.push(item)?;
        }
    }
    Ok(menu)
}

// The item of a file, if a menu takes in its name, and it is there and is an entry.
fn read_named<F: Files>(
    alloc: Global,
    dir: &str,
    name: &str,
    files: &mut F,
) -> Result<Option<MenuItem>, MenuFault>
    ensures ok { IfOk result (IsNameRead (F.folder files.old) dir.now name.now) }
    ensures too_long { result ≡ Err MenuFault.FileTooLong
        → IsLongFile (F.folder files.old) dir.now name.now }
    ensures never_missing { result ≢ Err MenuFault.NoFolder }
    ensures told { (F.folder files.new).told ≡ (F.folder files.old).told }
    ensures counts { (F.folder files.new).faults
        ≡ counted (is_menu_fault result) (F.folder files.old).faults }
{
    if !is_menu_name(name) {
        return Ok(None);
    }
    read_item(alloc, dir, name, files)
}

// Whether a menu takes in a file of this name.
fn is_menu_name(name: &str) -> bool
    ensures { result ≡ is_menu_name name.now }
{
    name.len() > 5 && name.as_bytes().ends_with(b".conf")
}

// The item of a file whose name a menu takes in, if it is there and is an entry.
fn read_item<F: Files>(
    alloc: Global,
    dir: &str,
    name: &str,
    files: &mut F,
) -> Result<Option<MenuItem>, MenuFault>
    requires { is_menu_name name.now ≡ true }
    ensures ok { IfOk result (IsItemRead (F.folder files.old) dir.now name.now) }
    ensures too_long { result ≡ Err MenuFault.FileTooLong
        → IsLongFile (F.folder files.old) dir.now name.now }
    ensures never_missing { result ≢ Err MenuFault.NoFolder }
    ensures told { (F.folder files.new).told ≡ (F.folder files.old).told }
    ensures counts { (F.folder files.new).faults
        ≡ counted (is_menu_fault result) (F.folder files.old).faults }
{
    let path = path_in_folder(alloc, dir, name)?;
    let mut text = Bytes::none(alloc);
    match files.read(path.as_str(), &mut text) {
        Ok(true) => Ok(item_of_text(alloc, name, text.as_slice())?),
        Ok(false) => Ok(None),
        Err(FileFail::Fault) => Err(MenuFault::FileFault),
        Err(FileFail::TooLong) => Err(MenuFault::FileTooLong),
        Err(FileFail::NoMemory) => Err(MenuFault::NoMemory),
    }
}

// The name under which a file of a folder is read.
fn path_in_folder(alloc: Global, dir: &str, name: &str) -> Result<String, NoMemory>
    ensures { IfOk result (λ path. string_bytes path ≡ path_in_folder dir.now name.now) }
{
    Ok(format!(in alloc; "{dir}/{name}")?)
}

// The item of a file by its text, if that is an entry.
fn item_of_text(alloc: Global, name: &str, text: &[u8]) -> Result<Option<MenuItem>, NoMemory>
    ensures { IfOk result (λ item. item ≡ item_of_text name.now (Some text.now)) }
{
    match read_entry(alloc, text) {
        Ok(entry) => {
            let name = Text::of(alloc, name)?;
            Ok(Some(MenuItem { name, entry }))
        }
        Err(EntryError::NoMemory) => Err(NoMemory),
        Err(_) => Ok(None),
    }
}
