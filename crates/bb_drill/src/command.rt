/// What a session of a drill is to do.
#[derive(Clone, Copy, Debug, PartialEq, Eq)]
pub enum DrillCommand {
    /// Sets the priority of the second target to this number, which is below 100.
    Priority(u32),
    /// Starts the best target.
    Boot,
    /// Marks the target good that was chosen last.
    MarkGood,
    /// Loads the table, and does nothing with it.
    Show,
}
