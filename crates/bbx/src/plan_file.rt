ghost use Rattle.std.specs.Prelude.{◌≡◌, ◌++◌, IfOk, OnOk};
ghost use Rattle.bbx.specs.PlanFile.{initrd_lines, plan_line_of, plan_text};

use crate::disk;
use crate::open_error::{Cause, OpenError};
use crate::place::{Tree, is_in};
use bb_base::{Bytes, NoMemory, TextList};
use bb_flash::Plan;
use std::alloc::Global;
use std::fs::File;
use std::io::ErrorKind;
use std::os::unix::fs::MetadataExt;
use std::{fs, io};

/// The file that a start of a device writes its plan into. The new file is made beside it, under
/// its name and `.new`.
#[derive(Drop)]
pub struct PlanFile {
    path: String,
    new_path: String,
    // Whether a word names it.
    is_named: bool,
}

impl PlanFile {
    /// The file that `--plan` names, or else that of the device DEVICE: DEVICE`.plan`.
    pub fn of<R: AllocGlobal>(rt: &R, device: &str, named: Option<&str>) -> io::Result<PlanFile> {
        let path = match named {
            Some(path) => String::from_str(rt.alloc(), path)?,
            None => format!(in rt.alloc(); "{device}.plan")?,
        };
        let new_path = format!(in rt.alloc(); "{path}.new")?;
        Ok(PlanFile {
            path,
            new_path,
            is_named: named.is_some(),
        })
    }

    /// Makes way for a boot's plan, on a device that is open: a plan of an earlier start is
    /// removed, and that is on the disk. Where a word names the plan's file it is sure then that it
    /// can be written. Else a removal that fails is passed over, and a device below /sys is
    /// refused, beside which no plan can stand.
    pub fn make_way(&self, rt: &HostRuntime, device: &str, file: &File) -> Result<(), OpenError> {
        if self.is_named {
            self.refuse_the_device(rt, file)?;
            self.clear(rt)
                .map_err(|error| OpenError::at(Cause::Unplanned, error))?;
            return self.try_out(rt);
        }
        let is_in_sys = is_in(rt, Tree::Sys, device);
        if is_in_sys.map_err(|error| OpenError::at(Cause::Unseen, error))? {
            return Err(OpenError::because(Cause::PlanInSys));
        }
        let _ = self.clear(rt);
        Ok(())
    }

    // Neither the plan's file nor the new one may be the device, which would be removed.
    fn refuse_the_device(&self, rt: &HostRuntime, file: &File) -> Result<(), OpenError> {
        match is_at(rt, file, self.path.as_str()) || is_at(rt, file, self.new_path.as_str()) {
            true => Err(OpenError::because(Cause::PlanIsDevice)),
            false => Ok(()),
        }
    }

    // Removes what stands at the plan's place, where that is a regular file.
    fn clear(&self, rt: &HostRuntime) -> io::Result<()> {
        match fs::symlink_metadata(rt, self.path.as_str()) {
            Ok(found) if found.is_file() => disk::remove(rt, self.path.as_str()),
            Err(error) if error.kind() != ErrorKind::NotFound => Err(error),
            _ => Ok(()),
        }
    }

    // Writes a new file, and removes it again. Nothing may stand at the plan's place.
    fn try_out(&self, rt: &HostRuntime) -> Result<(), OpenError> {
        if fs::symlink_metadata(rt, self.path.as_str()).is_ok() {
            return Err(OpenError::because(Cause::PlanIsNoFile));
        }
        disk::make_new(rt, self.new_path.as_str(), &TRIAL)
            .and_then(|()| fs::remove_file(rt, self.new_path.as_str()))
            .map_err(|error| OpenError::at(Cause::Unplanned, error))
    }

    /// Writes the plan, and waits until it is on the disk. After a power cut the file is the old
    /// one or the new one, whole. Where this fails there is no new one.
    pub fn write(&self, rt: &HostRuntime, plan: &Plan) -> io::Result<()> {
        let Ok(text) = plan_text(rt.alloc(), plan) else {
            return Err(io::Error::from(ErrorKind::OutOfMemory));
        };
        disk::replace(
            rt,
            self.path.as_str(),
            self.new_path.as_str(),
            text.as_slice(),
        )
    }
}

// As many bytes as a file takes of most disks at least.
static TRIAL: [u8; 4096] = [0; 4096];

// Whether this file stands at the path.
fn is_at(rt: &HostRuntime, file: &File, path: &str) -> bool {
    match (file.metadata(), fs::symlink_metadata(rt, path)) {
        (Ok(open), Ok(found)) => open.dev() == found.dev() && open.ino() == found.ino(),
        _ => false,
    }
}

// A line for each thing that the plan names.
fn plan_text(alloc: Global, plan: &Plan) -> Result<Bytes, NoMemory>
    ensures { IfOk result (λ text. text ≡ plan_text plan.now) }
{
    let mut text = Bytes::none(alloc);
    let place = format!(in alloc; "{}", plan.place)?;
    add_line(&mut text, "place", place.as_str())?;
    add_line(&mut text, "linux", plan.linux.as_str())?;
    add_initrds(&mut text, &plan.initrds)?;
    add_line(&mut text, "options", plan.options.as_str())?;
    add_line(&mut text, "devicetree", plan.devicetree.as_str())?;
    Ok(text)
}

fn add_initrds(text: &mut Bytes, initrds: &TextList) -> Result<(), NoMemory>
    ensures { OnOk result (text.new ≡ text.old ++ initrd_lines initrds.now) }
{
    for initrd in initrds.as_slice() {
        add_line(text, "initrd", initrd.as_str())?;
    }
    Ok(())
}

// Adds a line, or nothing where there is no value.
fn add_line(text: &mut Bytes, key: &str, value: &str) -> Result<(), NoMemory>
    ensures { OnOk result (text.new ≡ text.old ++ plan_line_of key.now value.now) }
{
    if value.is_empty() {
        return Ok(());
    }
    text.add(key.as_bytes())?;
    text.add(b" ")?;
    text.add(value.as_bytes())?;
    text.add(b"\n")
}
