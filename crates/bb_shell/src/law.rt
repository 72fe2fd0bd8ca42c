ghost use Rattle.bb_shell.specs.Counting.{AttemptsLaw, NoLoadLaw};
ghost use Rattle.bb_shell.specs.Rounds.{BestLaw, NoneLaw, RoundsLaw};

/// The rounds of a boot follow from what its saves and starts answered, one answer a round: the
/// best target is the one that is found by going over all, and each round is made of the table
/// before it and of its answer.
pub fn law_rounds()
    ensures best { BestLaw }
    ensures none { NoneLaw }
    ensures rounds { RoundsLaw }
{}

/// Over power-ons in each of which a board boots by the same files, with cuts and decays in
/// between, and where no reset changes a table that a load gave, as the layout reads what is
/// stored: the starts are no more than the attempts that the enabled targets have in the first of
/// these tables. Where no load answers Ok nothing is started.
pub fn law_attempts()
    ensures attempts { AttemptsLaw }
    ensures no_load { NoLoadLaw }
{}
