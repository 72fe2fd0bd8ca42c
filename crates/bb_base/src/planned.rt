ghost use Rattle.std.specs.Prelude.{◌≡◌, ◌==◌};
ghost use Rattle.std.specs.List.{list_any};

/// Whether the call with this number, counted from 0, was planned to fail.
pub(crate) fn is_planned(planned: &[u32], call: u64) -> bool
    ensures { result ≡ list_any (λ n. n == call) planned.now }
{
    planned.iter().any(|n| u64::from(*n) == call)
}
