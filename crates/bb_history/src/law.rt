ghost use Rattle.bb_history.specs.Newest.{NewestIsLast};

/// A law that a session may rest on. Where a copy of a layout passes an area, the copy's history
/// ends with that area, as the layout reads it. That is so of every image of the layout's device.
pub fn law_newest_is_last()
    ensures { NewestIsLast }
{}
