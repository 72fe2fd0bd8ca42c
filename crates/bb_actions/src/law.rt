ghost use Rattle.std.specs.Prelude.{◌≡◌, IfOk, List, ℕ};
ghost use Rattle.bb_actions.specs.Actions.{after, read_action};
ghost use Rattle.bb_layout.specs.declared.var.Var.{Var};
ghost use Rattle.bb_state.specs.Named.{after_set};
ghost use Rattle.bb_words.specs.declared.command.Action.TheVariants.{Set};

/// To put the value of a set into a table makes of it what `bb_state::set_value` makes of it by the
/// set's text. The function does nothing.
pub fn law_put_is_set()
    ensures { (vars : List Var) (name text table : List ℕ)
        → IfOk (read_action vars (Set name text)) (λ bound.
        after table bound ≡ after_set vars name text table) }
{}
