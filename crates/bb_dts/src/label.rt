ghost use Rattle.std.specs.Prelude.{◌≡◌, ◌≢◌, ◌<◌, ◌≤◌, ◌++◌, ◌∷◌, IfOk, IfErr, OnOk, length, []};
ghost use Rattle.std.specs.Str.{IsAscii};
ghost use Rattle.bb_dts.specs.declared.token_kind.TokenKind.TheVariants.{End, Label};
ghost use Rattle.bb_dts.specs.Descent.{labels_walk_from, labels_walk_at, place_at, RefusesLabels};
ghost use Rattle.bb_dts.specs.Places.{mode_of};
ghost use Rattle.bb_dts.specs.Tokens.{token_seen, IsPlainWord};

use crate::DtsError;
use crate::input::Input;
use crate::next_token::{Token, next_token};
use crate::token_kind::{Mode, TokenKind};
use crate::word::word_text;
use bb_base::{NoMemory, Text};
use std::alloc::Global;

/// A label that waits for the `{` of its node, with its offset in the text.
#[derive(Debug, Drop)]
pub(crate) struct Waiting {
    pub name: Text,
    pub at: usize,
}

/// Where labels may begin.
#[derive(Clone, Copy, Debug, PartialEq, Eq)]
pub(crate) enum Level {
    /// At the outermost level, before the first body.
    AtHead,
    /// At the outermost level, after a body.
    AtTop,
    /// In a body without a node so far.
    AtProps,
    /// In a body, after a node.
    AtNodes,
}

/// Reads labels, and the first token that is none.
#[tactic(auto, using(crate::proofs::BodyLemmas::labels_step))]
pub(crate) fn read_labels(
    input: Input,
    level: Level,
    text: &[u8],
) -> Result<(Vec<Waiting>, Token<'_>), DtsError>
    requires { length text.now ≤ input.total }
    ensures ok { IfOk result (λ r. labels_walk_from input.total level [] text.now
        ≡ labels_walk_at input.total level r.0.items (token_seen r.1)) }
    ensures refused { IfErr result
        (RefusesLabels (labels_walk_from input.total level [] text.now)) }
    ensures plain { IfOk result (λ r. IsPlainWord r.1.kind r.1.word.now) }
    ensures other { IfOk result (λ r. r.1.kind ≢ Label) }
    ensures within { IfOk result (λ r. length r.1.rest.now ≤ length text.now) }
    ensures shorter { IfOk result (λ r. r.1.kind ≢ End → length r.1.rest.now < length text.now) }
{
    let mut waiting = Vec::new(input.alloc);
    let mut rest = text;
    loop {
        let token = next_token(mode_at(level, &waiting), input.total, rest)?;
        if token.kind != TokenKind::Label {
            return Ok((waiting, token));
        }
        add_label(input.alloc, &mut waiting, token.word, token.at)?;
        rest = token.rest;
    }
}

// Within a body the lines of C's preprocessor are names after a label.
fn mode_at(level: Level, waiting: &Vec<Waiting>) -> Mode
    ensures { result ≡ mode_of (place_at level waiting.now.items) }
{
    match level {
        Level::AtHead | Level::AtTop => Mode::Directives,
        Level::AtProps | Level::AtNodes => {
            if waiting.is_empty() {
                Mode::Directives
            } else {
                Mode::Names
            }
        }
    }
}

fn add_label(
    alloc: Global,
    waiting: &mut Vec<Waiting>,
    word: &[u8],
    at: usize,
) -> Result<(), NoMemory>
    requires { IsAscii word.now }
    ensures { OnOk result (waiting.new.items
        ≡ waiting.old.items ++ record { name = word.now; at = at } ∷ []) }
{
    let name = word_text(alloc, word)?;
    waiting.push(Waiting { name, at })?;
    Ok(())
}
