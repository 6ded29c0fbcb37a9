// How many entries are live, by a register's answers.

ghost use Rattle.std.specs.Prelude.{◌≡◌};
ghost use Rattle.model.specs.Clauses.{Fits};
ghost use Rattle.history.specs.Run.{reply_of};
ghost use Rattle.report.specs.Printed.{live_entries};

use lines::says_live;
use model::sizes::Sizes;
use register::Register;

// The live entries of a model of these sizes.
pub(crate) fn live_entries(register: Register, n: Sizes) -> usize
    requires { Fits n.states n.symbols }
    ensures { result ≡ live_entries (reply_of register) n.states n.symbols }
{
    let mut count = 0;
    for e in 0..n.entries() {
        let row = e / n.states;
        let answer = register.live(row / n.symbols, row % n.symbols, e % n.states);
        count += usize::from(says_live(answer));
    }
    count
}
