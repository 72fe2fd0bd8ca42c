use crate::target::Target;

/// A target with the places of its variables in the area.
#[derive(Drop)]
pub(crate) struct BoundTarget {
    pub target: Target,
    pub attempts_at: u32,
    pub priority_at: u32,
}
