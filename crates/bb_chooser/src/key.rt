ghost use Rattle.std.specs.Prelude.{◌≡◌};
ghost use Rattle.bb_chooser.specs.Keys.{has_name_letters, is_name_letter, is_target_name};
ghost use Rattle.bb_chooser.specs.Keys.{setting_key_of};
ghost use Rattle.bb_chooser.specs.Keys.{target_key_of};

/// What a line of settings may set for all targets.
#[derive(Clone, Copy, Debug, PartialEq, Eq)]
pub(crate) enum Key {
    Targets,
    StatePrefix,
    DefaultAttempts,
    DefaultPriority,
    ResetAttempts,
    ResetPriorities,
    Retry,
    DisableOnZeroAttempts,
}

/// What a line of settings may set for one target.
#[derive(Clone, Copy, Debug, PartialEq, Eq)]
pub(crate) enum TargetKey {
    Boot,
    DefaultAttempts,
    DefaultPriority,
}

pub(crate) fn key_of(word: &str) -> Option<Key>
    ensures { result ≡ setting_key_of word.now }
{
    match word {
        "targets" => Some(Key::Targets),
        "state_prefix" => Some(Key::StatePrefix),
        "default_attempts" => Some(Key::DefaultAttempts),
        "default_priority" => Some(Key::DefaultPriority),
        "reset_attempts" => Some(Key::ResetAttempts),
        "reset_priorities" => Some(Key::ResetPriorities),
        "retry" => Some(Key::Retry),
        "disable_on_zero_attempts" => Some(Key::DisableOnZeroAttempts),
        _ => None,
    }
}

pub(crate) fn target_key_of(word: &str) -> Option<TargetKey>
    ensures { result ≡ target_key_of word.now }
{
    match word {
        "boot" => Some(TargetKey::Boot),
        "default_attempts" => Some(TargetKey::DefaultAttempts),
        "default_priority" => Some(TargetKey::DefaultPriority),
        _ => None,
    }
}

/// Whether a target may be called so: one or more letters, digits, `_` and `-`, and no key that is
/// set for all targets.
pub(crate) fn is_target_name(word: &str) -> bool
    ensures { result ≡ is_target_name word.now }
{
    !word.is_empty() && has_name_letters(word.as_bytes()) && key_of(word).is_none()
}

fn has_name_letters(word: &[u8]) -> bool
    ensures { result ≡ has_name_letters word.now }
{
    word.iter().all(|c| is_name_letter(*c))
}

fn is_name_letter(c: u8) -> bool
    ensures { result ≡ is_name_letter c }
{
    c.is_ascii_alphanumeric() || c == b'_' || c == b'-'
}
