// Chances of very short runs of an accepted model, exact (request A.1).
#![tactic(auto)]

pub mod chances; // chances.rt: one symbol from a stacked pair, the pair from single symbols

ghost use Rattle.std.specs.Prelude.{◌≡◌};
ghost use Rattle.shortruns.specs.Short.{few_steps};

// The most steps that may be asked for.
pub const MOST_STEPS: usize = 3;

// Whether so many steps may be asked for.
#[tactic(auto, unfolding(crate::specs::Short::few_steps))]
pub fn few_steps(steps: usize) -> bool
    ensures { result ≡ few_steps steps }
{
    steps <= MOST_STEPS
}
