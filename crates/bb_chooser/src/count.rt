/// What is left to a target.
#[derive(Clone, Copy, Debug, PartialEq, Eq)]
pub(crate) struct Count {
    pub priority: u32,
    pub attempts: u32,
}
