ghost use Rattle.std.specs.Prelude.{◌≡◌};
ghost use Rattle.bb_script.specs.TokenWalks.{is_do, is_done, is_elif, is_else, is_end, is_fi};
ghost use Rattle.bb_script.specs.TokenWalks.{is_in, is_line, is_then};
ghost use Rattle.bb_script.specs.Places.{closes_script};

use crate::token_kind::{Keyword, ScriptTokenKind};

/// Whether the keyword closes a script inside of another one.
pub(crate) fn closes_script(keyword: Keyword) -> bool
    ensures { result ≡ closes_script keyword }
{
    matches!(
        keyword,
        Keyword::Then | Keyword::Elif | Keyword::Else | Keyword::Fi | Keyword::Done
    )
}

pub(crate) fn is_then(kind: ScriptTokenKind) -> bool
    ensures { result ≡ is_then kind }
{
    matches!(kind, ScriptTokenKind::Word(Keyword::Then))
}

pub(crate) fn is_elif(kind: ScriptTokenKind) -> bool
    ensures { result ≡ is_elif kind }
{
    matches!(kind, ScriptTokenKind::Word(Keyword::Elif))
}

pub(crate) fn is_else(kind: ScriptTokenKind) -> bool
    ensures { result ≡ is_else kind }
{
    matches!(kind, ScriptTokenKind::Word(Keyword::Else))
}

pub(crate) fn is_fi(kind: ScriptTokenKind) -> bool
    ensures { result ≡ is_fi kind }
{
    matches!(kind, ScriptTokenKind::Word(Keyword::Fi))
}

pub(crate) fn is_in(kind: ScriptTokenKind) -> bool
    ensures { result ≡ is_in kind }
{
    matches!(kind, ScriptTokenKind::Word(Keyword::In))
}

pub(crate) fn is_do(kind: ScriptTokenKind) -> bool
    ensures { result ≡ is_do kind }
{
    matches!(kind, ScriptTokenKind::Word(Keyword::Do))
}

pub(crate) fn is_done(kind: ScriptTokenKind) -> bool
    ensures { result ≡ is_done kind }
{
    matches!(kind, ScriptTokenKind::Word(Keyword::Done))
}

pub(crate) fn is_line(kind: ScriptTokenKind) -> bool
    ensures { result ≡ is_line kind }
{
    matches!(kind, ScriptTokenKind::Line)
}

pub(crate) fn is_end(kind: ScriptTokenKind) -> bool
    ensures { result ≡ is_end kind }
{
    matches!(kind, ScriptTokenKind::End)
}
