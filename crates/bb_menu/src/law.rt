ghost use Rattle.bb_menu.specs.Order.{BeforePassesOn, NoneBeforeItself, OneBeforeOther};

/// The order of a menu is one: no entry stands in front of itself, of two entries with different
/// names one stands in front of the other, and what stands in front of an entry does so of all that
/// this one stands in front of.
pub fn law_menu_order()
    ensures irreflexive { NoneBeforeItself }
    ensures total { OneBeforeOther }
    ensures passes_on { BeforePassesOn }
{}
