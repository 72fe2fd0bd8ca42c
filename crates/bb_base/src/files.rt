ghost use Rattle.std.specs.Prelude.{◌≡◌, ◌+◌, ◌≤◌, ◌++◌, length, take, IfOk, IsErrOf, Ok, Err};
ghost use Rattle.std.specs.Prelude.{OnErr, OnOk};
ghost use Rattle.std.specs.Bool.{OnFalse};
ghost use Rattle.std.specs.Option.{ForSome};
ghost use Rattle.bb_base.specs.Folder.{CountsFaults, Folder, file_limit, file_of};
ghost use Rattle.bb_base.specs.Folder.{file_read, has_folder, names_in};
ghost use Rattle.bb_base.specs.declared.files.FileFail.TheVariants.{TooLong};

use crate::{Bytes, NoMemory, TextList};

/// The most bytes that a file may have (this project's profile).
pub const FILE_LIMIT: usize = 1_048_576;

/// Why a call on files gave nothing. What the call was to change is as before.
#[derive(Clone, Copy, Debug, PartialEq, Eq)]
pub enum FileFail {
    /// The call met a fault. The count of faults says so.
    Fault,
    /// The file has more than `FILE_LIMIT` bytes.
    TooLong,
    NoMemory,
}

impl From<NoMemory> for FileFail {
    ghost use Rattle.bb_base.specs.declared.files.FileFail.{FileFail};
    ghost use Rattle.bb_base.specs.declared.files.FileFail.TheVariants.{NoMemory};

    ghost from_gives = { λ _ e. e ≡ NoMemory };

    fn from(_: NoMemory) -> Self {
        FileFail::NoMemory
    }
}

/// Files by name. Which bytes a name gives is known where the files are told; answers and counts
/// always are.
pub trait Files {
    /// The files, where they are told, and their count of faults.
    ghost folder: { Self → Folder };

    /// Appends the file's bytes, or answers false where there is no such name.
    fn read(&mut self, name: &str, out: &mut Bytes) -> Result<bool, FileFail>
        // Where the files are told, the answer is the one of the definition.
        ensures read { IfOk result (λ there. ForSome (folder self.old).told (λ files.
            file_of files name.now ≡ Ok (file_read there out.old out.new))) }
        ensures too_long { IsErrOf result TooLong → ForSome (folder self.old).told (λ files.
            file_of files name.now ≡ Err TooLong) }

        // Told or not, `out` keeps its bytes, and gains none but a file's.
        ensures appended { OnOk result (take (length out.old) out.new ≡ out.old) }
        ensures short { OnOk result (length out.new ≤ length out.old + file_limit) }
        ensures missing { IfOk result (λ there. OnFalse there (out.new ≡ out.old)) }
        ensures err { OnErr result (out.new ≡ out.old) }

        // A fault is counted once, and no other answer changes the count.
        ensures told { (folder self.new).told ≡ (folder self.old).told }
        ensures counts { CountsFaults result (folder self.old) (folder self.new) };

    /// Appends the names in a folder in rising order of their bytes, each without the folder's name
    /// and the `/` after it, or answers false where the folder isn't there: where no name begins
    /// with the folder's name and a `/`. A folder that holds folders alone is there and gives no
    /// names. It never answers `TooLong`.
    fn names(&mut self, dir: &str, out: &mut TextList) -> Result<bool, FileFail>
        // Where the files are told, a folder is there exactly where some name begins with it and a
        // `/`.
        ensures there { IfOk result (λ there. ForSome (folder self.old).told (λ files.
            there ≡ has_folder files dir.now)) }
        ensures names { OnOk result (ForSome (folder self.old).told (λ files.
            out.new ≡ out.old ++ names_in files dir.now)) }
        ensures never_long { ¬ IsErrOf result TooLong }

        // Told or not, `out` keeps its names.
        ensures appended { OnOk result (take (length out.old) out.new ≡ out.old) }
        ensures missing { IfOk result (λ there. OnFalse there (out.new ≡ out.old)) }
        ensures err { OnErr result (out.new ≡ out.old) }

        // A fault is counted once, and no other answer changes the count.
        ensures told { (folder self.new).told ≡ (folder self.old).told }
        ensures counts { CountsFaults result (folder self.old) (folder self.new) };
}
