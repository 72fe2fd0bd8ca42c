ghost use Rattle.std.specs.Prelude.{◌≡◌, ◌≤◌, length};
ghost use Rattle.std.specs.List.{prefix_len};
ghost use Rattle.std.specs.Ordering.{nat_cmp};
ghost use Rattle.std.specs.Str.Parse.{AllDigits, digits_value};
ghost use Rattle.bb_menu.specs.Ranks.{IsRun, LeadsWell, is_zero_digit, token_of};
ghost use Rattle.bb_menu.specs.Version.{token_cmp, version_cmp};

use crate::token::{TokenRank, first_token};
use std::cmp::Ordering;

/// Compares two versions, in one walk over both.
pub(crate) fn compare_versions(a: &[u8], b: &[u8]) -> Ordering
    ensures { result ≡ version_cmp a.now b.now }
{
    let mut left = a;
    let mut right = b;
    loop {
        let (rank, run, left_rest) = first_token(left);
        let (other_rank, other_run, right_rest) = first_token(right);
        let order = compare_tokens(rank, run, other_rank, other_run);
        if order.is_ne() {
            return order;
        }
        if let TokenRank::End = rank {
            return Ordering::Equal;
        }
        left = left_rest;
        right = right_rest;
    }
}

// Compares two tokens, by their ranks and runs.
fn compare_tokens(rank: TokenRank, run: &[u8], other_rank: TokenRank, other_run: &[u8]) -> Ordering
    requires run { IsRun rank run.now }
    requires other_run { IsRun other_rank other_run.now }
    ensures { result ≡ token_cmp (token_of rank run.now) (token_of other_rank other_run.now) }
{
    let order = (rank as u8).cmp(&(other_rank as u8));
    if order.is_ne() {
        return order;
    }
    match rank {
        TokenRank::Letters => run.cmp(other_run),
        TokenRank::Digits => compare_numbers(run, other_run),
        _ => Ordering::Equal,
    }
}

// Compares the numbers that two runs of digits write, which may have any size.
fn compare_numbers(digits: &[u8], others: &[u8]) -> Ordering
    requires digits { AllDigits 10 digits.now }
    requires others { AllDigits 10 others.now }
    ensures { result ≡ nat_cmp (digits_value 10 digits.now) (digits_value 10 others.now) }
{
    let digits = without_zeros(digits);
    let others = without_zeros(others);
    let order = digits.len().cmp(&others.len());
    if order.is_ne() {
        return order;
    }
    digits.cmp(others)
}

// The digits of the same number, without zeros in front.
fn without_zeros(digits: &[u8]) -> &[u8]
    requires { AllDigits 10 digits.now }
    ensures value { digits_value 10 result.now ≡ digits_value 10 digits.now }
    ensures digits { AllDigits 10 result.now }
    ensures leads { LeadsWell result.now }
{
    let (_, rest) = digits.split_at(zeros_in_front(digits));
    rest
}

fn zeros_in_front(digits: &[u8]) -> usize
    ensures value { result ≡ prefix_len is_zero_digit digits.now }
    ensures within { result ≤ length digits.now }
{
    digits.iter().take_while(|c| **c == b'0').count()
}
