ghost use Rattle.std.specs.Prelude.{◌≡◌, ◌↔◌};
ghost use Rattle.std.specs.IoError.{error_kind};
ghost use Rattle.std.specs.declared.io.ErrorKind.TheVariants.{OutOfMemory};

use std::io;
use std::io::ErrorKind;

/// Why no session begins on a device.
#[derive(Clone, Copy, Drop)]
pub enum OpenError {
    /// The device is refused, or the place of a boot's plan.
    Refused(Refused),
    NoMemory,
}

/// A refusal, with the system's own error where there is one.
#[derive(Clone, Copy, Drop)]
pub struct Refused {
    pub cause: Cause,
    pub error: Option<io::Error>,
}

/// What is wrong with a device, or with the place of a boot's plan.
#[derive(Clone, Copy)]
pub enum Cause {
    /// The system doesn't say what stands at the path.
    Unseen,
    Folder,
    CharacterDevice,
    /// Something else that is neither a regular file nor a block device, as a FIFO or a socket.
    NoFile,
    Unopened,
    /// The folder in which it would be made isn't there.
    NoFolder,
    Unmade,
    /// It isn't there, and nothing is made below /dev.
    MissingInDev,
    /// It isn't there, and nothing is made for `--read-only`.
    MissingReadOnly,
    Unlocked,
    /// The system doesn't say how long it is.
    Unmeasured,
    /// It is shorter than SIZE, and isn't filled up.
    Short,
    Unfilled,
    /// No plan can stand beside a device below /sys.
    PlanInSys,
    /// The plan's file, or the new one beside it, is the device.
    PlanIsDevice,
    /// Something else than a regular file stands at the plan's place.
    PlanIsNoFile,
    Unplanned,
}

impl OpenError {
    ghost use Rattle.bbx.specs.declared.open_error.OpenError.TheVariants.{NoMemory};

    /// A refusal of this program's own.
    pub fn because(cause: Cause) -> OpenError {
        OpenError::Refused(Refused { cause, error: None })
    }

    /// The refusal that an error of the system brings, but that want of memory is none.
    pub fn at(cause: Cause, error: io::Error) -> OpenError
        ensures { (result ≡ NoMemory) ↔ (error_kind error ≡ OutOfMemory) }
    {
        match error.kind() {
            ErrorKind::OutOfMemory => OpenError::NoMemory,
            _ => OpenError::Refused(Refused {
                cause,
                error: Some(error),
            }),
        }
    }
}
