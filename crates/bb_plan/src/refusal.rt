ghost use Rattle.std.specs.Prelude.{◌≡◌};

use crate::Status;
use bb_actions::ActionError;
use bb_base::{Bytes, NoMemory, Text};
use bb_chooser::SettingsError;
use bb_dts::DtsError;
use bb_fdt::FdtError;
use bb_hmac::KeyError;
use bb_install::SlotError;
use bb_layout::LayoutError;
use bb_script::ScriptError;
use bb_state::{CopyFault, StateError};
use bb_words::WordsError;
use std::alloc::AllocError;

/// Why a session was refused.
#[derive(Debug, Drop)]
pub enum Refusal {
    /// The word at this place, counted from 0, doesn't fit.
    BadWords(usize),
    /// The file isn't a devicetree source.
    BadTree(DtsError),
    /// The file begins as a devicetree blob, and isn't one.
    BadBlob(FdtError),
    /// The copies can't stand on the device, or the devicetree gives no layout for it.
    BadLayout(LayoutError),
    /// The layout has no variable of this name, or a text is no value of it.
    BadVariable(Text, StateError),
    FileMissing(Text),
    FileFault(Text),
    FileTooLong(Text),
    ReadFault,
    /// This copy, counted from 0, couldn't be written.
    WriteFault(u32),
    /// No target has a priority and attempts left.
    NoTarget,
    /// The target of this name couldn't be started, and no other is tried.
    StartFailed(Text),
    BadSettings(SettingsError),
    /// The file isn't a script.
    BadScript(ScriptError),
    /// The script ended with this status, which isn't 0.
    ScriptFailed(u32),
    /// The script has more than 10,000 commands and rounds.
    StepLimit,
    /// No target has this name.
    BadTarget(Text),
    /// No slot of the device has the label.
    BadSlot(SlotError),
    /// The image has so many bytes, more than the slot.
    ImageTooLong(u32),
    /// SHA-256 of the image is this one, of 32 bytes.
    BadDigest(Bytes),
    /// No target but the one of this name has a priority and attempts left.
    LastTarget(Text),
    /// A call on the slot failed, which began at this place of the device.
    SlotFault(u32),
    /// The state's records stand under a key, and no word names its file.
    NoKey,
    /// What the key's file holds is none. Nothing of it is told.
    BadKey(KeyError),
    /// The table has this place as the one that was chosen last, and it is 0 or above the number of
    /// targets.
    NoGood(u32),
    NoMemory,
}

impl From<AllocError> for Refusal {
    ghost use Rattle.std.specs.Prelude.{◌≡◌};
    ghost use Rattle.bb_plan.specs.declared.refusal.Refusal.TheVariants as refusals;

    ghost from_gives = { λ _ e. e ≡ refusals.NoMemory };

    fn from(_: AllocError) -> Self {
        Refusal::NoMemory
    }
}

impl From<NoMemory> for Refusal {
    ghost use Rattle.std.specs.Prelude.{◌≡◌};
    ghost use Rattle.bb_plan.specs.declared.refusal.Refusal.TheVariants as refusals;

    ghost from_gives = { λ _ e. e ≡ refusals.NoMemory };

    fn from(_: NoMemory) -> Self {
        Refusal::NoMemory
    }
}

impl From<WordsError> for Refusal {
    ghost use Rattle.std.specs.Prelude.{◌≡◌};
    ghost use Rattle.bb_plan.specs.Refusal.{words_refusal};

    ghost from_gives = { λ error e. e ≡ words_refusal error };

    fn from(error: WordsError) -> Self {
        match error {
            WordsError::BadWord(place) => Refusal::BadWords(place),
            WordsError::NoMemory => Refusal::NoMemory,
        }
    }
}

impl From<ActionError> for Refusal {
    ghost use Rattle.std.specs.Prelude.{◌≡◌};
    ghost use Rattle.bb_plan.specs.Refusal.{action_refusal};

    ghost from_gives = { λ error e. e ≡ action_refusal error };

    fn from(error: ActionError) -> Self {
        match error {
            ActionError::Misfit(name, cause) => Refusal::BadVariable(name, cause),
            ActionError::NoMemory => Refusal::NoMemory,
        }
    }
}

// A session loads before it saves, so that no save is refused as Unsure.
impl From<CopyFault> for Refusal {
    ghost use Rattle.std.specs.Prelude.{◌≡◌};
    ghost use Rattle.bb_plan.specs.Refusal.{copy_refusal};

    ghost from_gives = { λ fault e. e ≡ copy_refusal fault };

    fn from(fault: CopyFault) -> Self {
        match fault {
            CopyFault::ReadFault | CopyFault::Unsure => Refusal::ReadFault,
            CopyFault::WriteFault { copy } => Refusal::WriteFault(copy),
        }
    }
}

impl From<DtsError> for Refusal {
    ghost use Rattle.std.specs.Prelude.{◌≡◌};
    ghost use Rattle.bb_plan.specs.Refusal.{tree_refusal};

    ghost from_gives = { λ error e. e ≡ tree_refusal error };

    fn from(error: DtsError) -> Self {
        match error {
            DtsError::NoMemory => Refusal::NoMemory,
            other => Refusal::BadTree(other),
        }
    }
}

impl From<FdtError> for Refusal {
    ghost use Rattle.std.specs.Prelude.{◌≡◌};
    ghost use Rattle.bb_plan.specs.Refusal.{blob_refusal};

    ghost from_gives = { λ error e. e ≡ blob_refusal error };

    fn from(error: FdtError) -> Self {
        match error {
            FdtError::NoMemory => Refusal::NoMemory,
            other => Refusal::BadBlob(other),
        }
    }
}

impl From<LayoutError> for Refusal {
    ghost use Rattle.std.specs.Prelude.{◌≡◌};
    ghost use Rattle.bb_plan.specs.Refusal.{layout_refusal};

    ghost from_gives = { λ error e. e ≡ layout_refusal error };

    fn from(error: LayoutError) -> Self {
        match error {
            LayoutError::NoMemory => Refusal::NoMemory,
            other => Refusal::BadLayout(other),
        }
    }
}

impl From<SettingsError> for Refusal {
    ghost use Rattle.std.specs.Prelude.{◌≡◌};
    ghost use Rattle.bb_plan.specs.Refusal.{settings_refusal};

    ghost from_gives = { λ error e. e ≡ settings_refusal error };

    fn from(error: SettingsError) -> Self {
        match error {
            SettingsError::NoMemory => Refusal::NoMemory,
            other => Refusal::BadSettings(other),
        }
    }
}

impl From<ScriptError> for Refusal {
    ghost use Rattle.std.specs.Prelude.{◌≡◌};
    ghost use Rattle.bb_plan.specs.Refusal.{script_refusal};

    ghost from_gives = { λ error e. e ≡ script_refusal error };

    fn from(error: ScriptError) -> Self {
        match error {
            ScriptError::NoMemory => Refusal::NoMemory,
            other => Refusal::BadScript(other),
        }
    }
}

impl From<KeyError> for Refusal {
    ghost use Rattle.std.specs.Prelude.{◌≡◌};
    ghost use Rattle.bb_plan.specs.declared.refusal.Refusal.TheVariants as refusals;

    ghost from_gives = { λ error e. e ≡ refusals.BadKey error };

    fn from(error: KeyError) -> Self {
        Refusal::BadKey(error)
    }
}

impl Refusal {
    ghost use Rattle.bb_plan.specs.Refusal.{status_of};

    /// The status with which a session ends that is so refused.
    pub fn status(&self) -> Status
        ensures { result ≡ status_of self.now }
    {
        match self {
            Refusal::BadWords(_) => Status::BadWords,
            Refusal::BadTree(_) | Refusal::BadBlob(_) => Status::BadTree,
            Refusal::BadLayout(_) => Status::BadLayout,
            Refusal::BadVariable(_, _) => Status::BadVariable,
            Refusal::FileMissing(_) => Status::FileMissing,
            Refusal::FileFault(_) => Status::FileFault,
            Refusal::FileTooLong(_) => Status::FileTooLong,
            Refusal::ReadFault => Status::ReadFault,
            Refusal::WriteFault(_) => Status::WriteFault,
            Refusal::NoTarget => Status::NoTarget,
            Refusal::StartFailed(_) => Status::StartFailed,
            Refusal::BadSettings(_) => Status::BadSettings,
            Refusal::BadScript(_) => Status::BadScript,
            Refusal::ScriptFailed(_) => Status::ScriptFailed,
            Refusal::StepLimit => Status::StepLimit,
            Refusal::BadTarget(_) => Status::BadTarget,
            Refusal::BadSlot(_) => Status::BadSlot,
            Refusal::ImageTooLong(_) => Status::ImageTooLong,
            Refusal::BadDigest(_) => Status::BadDigest,
            Refusal::LastTarget(_) => Status::LastTarget,
            Refusal::SlotFault(_) => Status::SlotFault,
            Refusal::NoKey | Refusal::BadKey(_) => Status::BadKey,
            Refusal::NoGood(_) => Status::NoGood,
            Refusal::NoMemory => Status::NoMemory,
        }
    }
}
