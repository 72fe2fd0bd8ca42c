use bb_base::Text;

/// An installed system that may be started.
#[derive(Debug, Drop)]
pub(crate) struct Target {
    pub name: Text,
    /// The file of its entry.
    pub entry: Text,
    pub default_attempts: u32,
    pub default_priority: u32,
}
