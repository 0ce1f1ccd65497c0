//! The worked figures as theorems about the definitions that the contracts cite.
ghost use Rattle.std.specs.Prelude.{◌≡◌, length};
ghost use Rattle.std.specs.List.{AllByRecursion};
ghost use Rattle.figures.specs.Cases.{Holds, TestTells};
ghost use Rattle.figures.specs.Figures.{cases};

/// Every figure of the list holds, by one test of the whole list and one law that says what the test tells; answers how
/// many there are.
pub fn figures_hold() -> usize
    ensures tells { TestTells }
    ensures hold { AllByRecursion Holds cases }
    ensures count { result ≡ length cases }
{
    24
}
