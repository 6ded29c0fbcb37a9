// The lines of the rows' mean steps, in file order.

ghost use Rattle.std.specs.Prelude.{◌+◌, ◌*◌, ◌≤◌, length};
ghost use Rattle.text.specs.Clauses.{Put};
ghost use Rattle.model.specs.Format.{most_rows};
ghost use Rattle.model.specs.Clauses.{Fits};
ghost use Rattle.history.specs.Run.{reply_of};
ghost use Rattle.lines.specs.Clauses.{steps_room};
ghost use Rattle.report.specs.Printed.{steps_lines};

use lines::put_steps;
use model::sizes::Sizes;
use register::Register;

// The lines of all rows.
pub(crate) fn put_means(out: &mut [u8], at: usize, register: Register, n: Sizes) -> usize
    requires fits { Fits n.states n.symbols }
    requires room { at + most_rows * steps_room ≤ length out.old }
    ensures put { Put out.old out.new at result (steps_lines (reply_of register) n.states n.symbols) }
    ensures upper_bound { result ≤ at + most_rows * steps_room }
{
    let mut at = at;
    for k in 0..n.rows() {
        let p = k / n.symbols;
        let z = k % n.symbols;
        at = put_steps(out, at, p, z, register.mean_steps(p, z));
    }
    at
}
