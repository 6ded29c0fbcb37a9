// u − f(u) at the entries of an accepted delivery.
#![tactic(auto)]

ghost use Rattle.std.specs.Prelude.{◌≡◌};
ghost use Rattle.outcome.specs.Outcomes.{Accepted};
ghost use Rattle.model.specs.Sizes.{sizes_of};
ghost use Rattle.shares.specs.Clauses.{Standing};
ghost use Rattle.verdict.specs.Verdict.{verdict};
ghost use Rattle.gaps.specs.Clauses.{Gaps};

use delivery::format::RECORD_BYTES;
use model::format::MOST_ENTRIES;
use model::sizes::{Sizes, sizes_of};
use rows::{STARTS, find_starts};
use shares::gap::gap;

// At every entry of a block of uppers that stand, by its number.
#[tactic(auto, using(model::proofs::Accepted::sized_fits))]
fn gaps_with(model: &[u8], starts: &[u16; STARTS], uppers: &[u8], n: Sizes) -> [u64; MOST_ENTRIES]
    requires { Standing model.now n starts.now uppers.now }
    ensures { Gaps model.now n uppers.now result }
{
    let mut gaps = [0u64; MOST_ENTRIES];
    for (e, at_entry) in gaps[..n.entries()].iter_mut().enumerate() {
        *at_entry = gap(model, starts, uppers, n, e / n.states, e % n.states);
    }
    gaps
}

// At every entry of an accepted delivery, by its number.
#[tactic(auto, using(model::proofs::Accepted::sized_fits, certificate::proofs::Steps::sized_by_verdict))]
pub fn gaps_of(model: &[u8], delivery: &[u8]) -> [u64; MOST_ENTRIES]
    requires { verdict model.now delivery.now ≡ Accepted }
    ensures { Gaps model.now (sizes_of model.now) delivery.now result }
{
    let n = sizes_of(model);
    let mut starts = [0u16; STARTS];
    find_starts(model, n, &mut starts);
    let uppers = &delivery[..RECORD_BYTES * n.entries()];
    gaps_with(model, &starts, uppers, n)
}
