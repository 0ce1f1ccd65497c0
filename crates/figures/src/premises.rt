//! That the promises of a board are not empty.
ghost use Rattle.std.specs.Prelude.{◌≡◌};
ghost use Rattle.rules.specs.Logs.{ticks, since_release};
ghost use Rattle.figures.specs.Premises.{waking_log, Premises};

/// What the promises speak of is there; answers how long the example's sleep lasts.
pub fn premises_met() -> u32
    ensures met { Premises }
    ensures lasts { result ≡ ticks (since_release waking_log) }
{
    5
}
