ghost use Rattle.std.specs.Prelude.{◌≡◌};
ghost use Rattle.bb_interpreter.specs.Test.{comparison_of, lengths_status, numbers_status};
ghost use Rattle.bb_interpreter.specs.Test.{number_holds, pair_status, test_status, truth_status};
ghost use Rattle.bb_interpreter.specs.Test.{brackets_status};

use bb_base::{Bytes, read_number};

/// How `test` compares numbers.
#[derive(Clone, Copy, Debug, PartialEq, Eq)]
pub enum Comparison {
    Equal,
    NotEqual,
    Less,
    LessOrEqual,
    Greater,
    GreaterOrEqual,
}

/// The status of `test` with these words: 0 where what they say holds, 1 where it doesn't, and 2
/// where they say nothing (IEEE Std 1003.1-2017, `test`, of which this is a part). A number is
/// what `read_number` reads.
pub fn test_status(words: &[Bytes]) -> u32
    ensures { result ≡ test_status words.now }
{
    match words {
        [op, word] => lengths_status(op.as_slice(), word.as_slice()),
        [one, op, two] => pair_status(one.as_slice(), op.as_slice(), two.as_slice()),
        _ => 2,
    }
}

/// The status of `[` with these words, of which the last has to be `]`.
pub(crate) fn brackets_status(words: &[Bytes]) -> u32
    ensures { result ≡ brackets_status words.now }
{
    let Some((last, front)) = words.split_last() else {
        return 2;
    };
    if last.as_slice() != b"]".as_slice() {
        return 2;
    }
    test_status(front)
}

fn lengths_status(op: &[u8], word: &[u8]) -> u32
    ensures { result ≡ lengths_status op.now word.now }
{
    if op == b"-z".as_slice() {
        truth_status(word.is_empty())
    } else if op == b"-n".as_slice() {
        truth_status(!word.is_empty())
    } else {
        2
    }
}

fn pair_status(one: &[u8], op: &[u8], two: &[u8]) -> u32
    ensures { result ≡ pair_status one.now op.now two.now }
{
    if op == b"=".as_slice() {
        truth_status(one == two)
    } else if op == b"!=".as_slice() {
        truth_status(one != two)
    } else {
        numbers_status(comparison_of(op), one, two)
    }
}

fn numbers_status(comparison: Option<Comparison>, one: &[u8], two: &[u8]) -> u32
    ensures { result ≡ numbers_status comparison one.now two.now }
{
    let Some(comparison) = comparison else {
        return 2;
    };
    let Ok(one) = read_number(one) else {
        return 2;
    };
    let Ok(two) = read_number(two) else {
        return 2;
    };
    truth_status(number_holds(comparison, one, two))
}

fn comparison_of(op: &[u8]) -> Option<Comparison>
    ensures { result ≡ comparison_of op.now }
{
    if op == b"-eq".as_slice() {
        Some(Comparison::Equal)
    } else if op == b"-ne".as_slice() {
        Some(Comparison::NotEqual)
    } else if op == b"-lt".as_slice() {
        Some(Comparison::Less)
    } else if op == b"-le".as_slice() {
        Some(Comparison::LessOrEqual)
    } else if op == b"-gt".as_slice() {
        Some(Comparison::Greater)
    } else if op == b"-ge".as_slice() {
        Some(Comparison::GreaterOrEqual)
    } else {
        None
    }
}

fn number_holds(comparison: Comparison, one: u32, two: u32) -> bool
    ensures { result ≡ number_holds comparison one two }
{
    match comparison {
        Comparison::Equal => one == two,
        Comparison::NotEqual => one != two,
        Comparison::Less => one < two,
        Comparison::LessOrEqual => one <= two,
        Comparison::Greater => one > two,
        Comparison::GreaterOrEqual => one >= two,
    }
}

fn truth_status(holds: bool) -> u32
    ensures { result ≡ truth_status holds }
{
    if holds { 0 } else { 1 }
}
