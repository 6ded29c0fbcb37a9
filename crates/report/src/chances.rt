// The lines of the live entries, in file order.

ghost use Rattle.std.specs.Prelude.{◌≡◌, ◌+◌, ◌*◌, ◌≤◌, length};
ghost use Rattle.text.specs.Clauses.{Put};
ghost use Rattle.model.specs.Format.{most_entries};
ghost use Rattle.model.specs.Clauses.{Fits};
ghost use Rattle.history.specs.Run.{reply_of};
ghost use Rattle.lines.specs.Clauses.{chance_room, chance_text};
ghost use Rattle.report.specs.Printed.{chance_of};
ghost use Rattle.report.specs.Clauses.{chances_by};

use lines::{Chance, put_chance, says_live};
use model::format::MOST_ENTRIES;
use model::sizes::Sizes;
use register::Register;

// All that the line of entry (p, z, q) needs of a register.
fn asked(register: Register, p: usize, z: usize, q: usize, gap: u64) -> Chance
    ensures { chance_text result ≡ chance_of (reply_of register) p z q gap }
{
    Chance {
        p,
        z,
        q,
        live: says_live(register.live(p, z, q)),
        lower: register.lower(p, z, q),
        upper: register.upper(p, z, q),
        gap,
    }
}

// The lines of all entries, with u − f(u) by their numbers.
pub(crate) fn put_chances(
    out: &mut [u8],
    at: usize,
    register: Register,
    gaps: &[u64; MOST_ENTRIES],
    n: Sizes,
) -> usize
    requires fits { Fits n.states n.symbols }
    requires room { at + most_entries * chance_room ≤ length out.old }
    ensures put { Put out.old out.new at result (chances_by register gaps.now n.states n.symbols) }
    ensures upper_bound { result ≤ at + most_entries * chance_room }
{
    let mut at = at;
    for (e, &gap) in gaps[..n.entries()].iter().enumerate() {
        let row = e / n.states;
        let chance = asked(
            register,
            row / n.symbols,
            row % n.symbols,
            e % n.states,
            gap,
        );
        at = put_chance(out, at, chance);
    }
    at
}
