/// The level of the deepest nodes that a reader of a tree takes, where the root's is 1. The
/// definition `depth_limit` is the same number.
pub const DEPTH_LIMIT: usize = 32;
