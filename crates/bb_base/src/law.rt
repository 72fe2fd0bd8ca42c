ghost use Rattle.std.specs.Prelude.{List, Option, ℕ};
ghost use Rattle.bb_base.specs.Checked.{IsPassed, IsSameCheck};
ghost use Rattle.bb_base.specs.Form.{Form};
ghost use Rattle.bb_base.specs.declared.format.Passed.{Passed};

/// Pieces of any cutting give the same answer: two checks of the same bytes answer the same and
/// leave the same area, for every format. The function does nothing.
pub fn law_any_cutting()
    ensures { (form : Form) (fed one_left other_left : List ℕ) (one other : Option Passed)
        → IsPassed form fed one_left one → IsPassed form fed other_left other
        → IsSameCheck one_left other_left one other }
{}
