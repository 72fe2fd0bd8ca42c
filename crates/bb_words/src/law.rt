ghost use Rattle.std.specs.Prelude.{◌≡◌, ◌<◌, ◌≤◌, Err, Ok, List, ℕ, length, take};
ghost use Rattle.bb_words.specs.declared.command.Command.{Command};
ghost use Rattle.bb_words.specs.FirstBad.{Begins};
ghost use Rattle.bb_words.specs.Grammar.{Spells};
ghost use Rattle.bb_words.specs.Words.{words_of};

/// Words are accepted as a command exactly where they spell it. The function does nothing.
pub fn law_accepted_words()
    ensures spelt { (words : List (List ℕ)) (command : Command)
        → words_of words ≡ Ok command → Spells words command }
    ensures accepted { (words : List (List ℕ)) (command : Command)
        → Spells words command → words_of words ≡ Ok command }
{}

/// Words that are refused are refused at the end of the longest front of them with which an
/// accepted list of words begins: at the first word that no accepted list has in that place after
/// the words before it, or, where all of them begin an accepted list, after the last. The function
/// does nothing.
pub fn law_first_bad_word()
    ensures inside { (words : List (List ℕ)) (place : ℕ)
        → words_of words ≡ Err place → place ≤ length words }
    ensures begun { (words : List (List ℕ)) (place : ℕ)
        → words_of words ≡ Err place → Begins (take place words) }
    ensures bad { (words : List (List ℕ)) (place more : ℕ) → words_of words ≡ Err place
        → place < more → more ≤ length words → ¬ Begins (take more words) }
{}
