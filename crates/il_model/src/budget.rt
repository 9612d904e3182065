//! How many instructions a scan may perform.

ghost use Rattle.std.specs.Prelude.{◌≤◌};

/// How many instructions a scan may perform: 1 to 1,000,000.
#[derive(Clone, Copy, PartialEq, Eq)]
pub struct Budget {
    pub instructions: u32,
    pub ghost at_least_one: { 1 ≤ instructions },
    pub ghost at_most_a_million: { instructions ≤ 1000000 },
}

impl Budget {
    ghost use Rattle.std.specs.Prelude.{◌≡◌, ◌↔◌, IsSome, IfSome};

    /// The budget of so many instructions; None where it is out of its range.
    pub fn new(instructions: u32) -> Option<Budget>
        ensures in_range { IsSome result ↔ ((1 ≤ instructions) × (instructions ≤ 1000000)) }
        ensures value { IfSome result (λ budget. budget.instructions ≡ instructions) }
    {
        if (1..=1_000_000).contains(&instructions) {
            Some(Budget { instructions })
        } else {
            None
        }
    }
}
