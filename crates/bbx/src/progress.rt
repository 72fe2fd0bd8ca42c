// In bytes: a line is printed for each so many that were written.
const STEP: u64 = 65_536;

/// How many bytes a session wrote to its device, where that is told.
#[derive(Clone, Copy, Debug)]
pub struct ProgressLines {
    told: Option<Told>,
}

// The bytes that were written, and those of which a line was printed.
#[derive(Clone, Copy, Debug)]
struct Told {
    written: u64,
    printed: u64,
}

impl ProgressLines {
    /// Nothing is told.
    pub fn none() -> ProgressLines {
        ProgressLines { told: None }
    }

    /// From now on lines go to standard error.
    pub fn begin(&mut self) {
        self.told = Some(Told {
            written: 0,
            printed: 0,
        });
    }

    /// Counts bytes that were written. Nothing is done where standard error can't be written.
    pub fn count<R: Eprint>(&mut self, rt: &R, bytes: usize) {
        let Some(told) = &mut self.told else {
            return;
        };
        told.written = told.written.saturating_add(bytes as u64);
        for _ in 0..told.written.saturating_sub(told.printed) / STEP {
            told.printed = told.printed.saturating_add(STEP);
            let _ = eprintln!(rt; "bbx: {} bytes written", told.printed);
        }
    }
}
