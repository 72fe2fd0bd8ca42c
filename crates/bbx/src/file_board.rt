ghost use Rattle.std.specs.Prelude.{None};
ghost use Rattle.bb_flash.specs.Geometry.{IsGeometry};

use crate::device_file::{Access, open_device};
use crate::disk::{blank_through, write_through};
use crate::open_error::{Cause, OpenError};
use crate::plan_file::PlanFile;
use crate::progress::ProgressLines;
use crate::read_ahead::ReadAhead;
use bb_base::{Failed, FaultCount};
use bb_flash::{Board, Flash, Geometry, Health, Plan};
use std::fs::File;
use std::io;

/// A device in a file of the system, which starts a system by writing its plan into a file. It
/// doesn't tell what it holds, and counts the calls and the starts that failed.
#[derive(Drop)]
pub struct FileBoard<'r> {
    rt: &'r HostRuntime,
    file: File,
    ahead: ReadAhead,
    plan_file: PlanFile,
    progress: ProgressLines,
    geometry: Geometry,
    faults: FaultCount,
    read_faults: FaultCount,
    start_faults: FaultCount,
    error: Option<io::Error>,
    start_error: Option<io::Error>,
    ghost bounds: { IsGeometry geometry },
}

impl<'r> FileBoard<'r> {
    /// Opens the device file, as `open_device` says. A start's plan goes to the file of that name,
    /// where one is named.
    pub fn open(
        rt: &'r HostRuntime,
        path: &str,
        geometry: Geometry,
        access: Access,
        plan: Option<&str>,
    ) -> Result<FileBoard<'r>, OpenError>
        requires { IsGeometry geometry }
    {
        let file = open_device(rt, path, u64::from(geometry.size), access)?;
        let no_memory = |error| OpenError::at(Cause::Unopened, error);
        Ok(FileBoard {
            rt,
            file,
            ahead: ReadAhead::of(rt.alloc(), geometry).map_err(no_memory)?,
            plan_file: PlanFile::of(rt, path, plan).map_err(no_memory)?,
            progress: ProgressLines::none(),
            geometry,
            faults: FaultCount::none(),
            read_faults: FaultCount::none(),
            start_faults: FaultCount::none(),
            error: None,
            start_error: None,
        })
    }

    /// Makes way for a boot's plan, as `PlanFile::make_way` says. The device is at this path.
    pub fn make_way(&self, path: &str) -> Result<(), OpenError> {
        self.plan_file.make_way(self.rt, path, &self.file)
    }

    /// Each 65,536 bytes that are written from now on are told on standard error.
    pub fn tell_progress(&mut self) {
        self.progress.begin();
    }

    /// The system's error at the call of the device that failed last.
    pub fn error(&self) -> Option<io::Error> {
        self.error
    }

    /// The system's error at the start that failed last.
    pub fn start_error(&self) -> Option<io::Error> {
        self.start_error
    }
}

impl<'r> Flash for FileBoard<'r> {
    ghost device = { λ b. record {
      geometry = b.geometry;
      told = None;
      faults = b.faults.count;
      read_faults = b.read_faults.count;
      start_faults = b.start_faults.count;
    } };

    fn geometry(&self) -> Geometry {
        self.geometry
    }

    fn read(&mut self, at: u32, out: &mut [u8]) -> Result<Health, Failed> {
        if let Err(error) = self.ahead.read_exact_at(&self.file, out, u64::from(at)) {
            self.error = Some(error);
            self.faults.raise();
            self.read_faults.raise();
            return Err(Failed);
        }
        Ok(Health::Fine)
    }

    fn program(&mut self, at: u32, bytes: &[u8]) -> Result<(), Failed> {
        self.ahead.forget();
        if let Err(error) = write_through(&self.file, u64::from(at), bytes) {
            self.error = Some(error);
            self.faults.raise();
            return Err(Failed);
        }
        self.progress.count(self.rt, bytes.len());
        Ok(())
    }

    fn erase(&mut self, block: u32) -> Result<(), Failed> {
        let len = u64::from(self.geometry.block);
        let start = u64::from(block) * len;
        self.ahead.forget();
        if let Err(error) = blank_through(&self.file, start, start.saturating_add(len)) {
            self.error = Some(error);
            self.faults.raise();
            return Err(Failed);
        }
        Ok(())
    }
}

impl<'r> Board for FileBoard<'r> {
    fn start(&mut self, plan: &Plan) -> Result<(), Failed> {
        if let Err(error) = self.plan_file.write(self.rt, plan) {
            self.start_error = Some(error);
            self.start_faults.raise();
            return Err(Failed);
        }
        Ok(())
    }
}
