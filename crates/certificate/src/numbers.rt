// The tests 23 to 27 of a delivery whose layout is right: each over the whole file before the next.
#![tactic(auto, using(model::proofs::Accepted::sized_fits))]

ghost use Rattle.std.specs.Prelude.{◌≡◌, cond};
ghost use Rattle.outcome.specs.Tests.{first};
ghost use Rattle.delivery.specs.Shapes.{has_lowers};
ghost use Rattle.inequalities.specs.declared.sides.Side.TheVariants.{Upper, StrictUpper};
ghost use Rattle.verdict.specs.Verdict.{number_tests};
ghost use Rattle.certificate.specs.Clauses.{LaidOut, RestOf, dead_part, upper_part, lower_part, mean_part, rest_part};
ghost use Rattle.std.proofs.Props.{props};
ghost use Rattle.wellformed.proofs.Props.{above_prop};

use delivery::format::RECORD_BYTES;
use delivery::shape::{Shape, has_lowers, has_means};
use inequalities::marks::{check_below, check_dead};
use inequalities::sides::Side;
use inequalities::{means, sides};
use live::rounds::find_marks;
use model::format::MOST_ROWS;
use model::sizes::Sizes;
use outcome::Outcome;
use rows::{STARTS, find_starts};

// A delivery whose layout is right, beside its model, as the tests of its numbers take them: the model with its sizes, where its rows start and the rows'
// live marks; and of the delivery the shape, the uppers, and the rest of the file, from record V on.
#[derive(Clone, Copy)]
struct Checked<'a> {
    model: &'a [u8],
    n: Sizes,
    starts: &'a [u16; STARTS],
    live: &'a [u8; MOST_ROWS],
    shape: Shape,
    uppers: &'a [u8],
    rest: &'a [u8],
    ghost right: { RestOf model.now n starts.now shape uppers.now rest.now } by { Prim.hlevel (props, above_prop) },
}

impl Checked<'_> {
    // 23 in the lowers, which the rest of the file starts with where they stand.
    fn check_dead_lowers(&self) -> Outcome
        ensures { let it = self.now in result ≡ first (dead_part it.n.states it.n.symbols (has_lowers it.shape) it.live.now it.rest.now) }
    {
        if !has_lowers(self.shape) {
            return Ok(());
        }
        let v = self.n.entries();
        let block = &self.rest[..RECORD_BYTES * v];
        check_dead(self.live, block, self.n, v)
    }

    // The side on which the uppers stand: beside lowers the strict one.
    fn side_of_uppers(&self) -> Side
        ensures { result ≡ cond (has_lowers self.now.shape) StrictUpper Upper }
    {
        if has_lowers(self.shape) {
            Side::StrictUpper
        } else {
            Side::Upper
        }
    }

    // 24, by whether lowers stand.
    fn check_uppers(&self) -> Outcome
        ensures { let it = self.now in result ≡ first (upper_part it.model.now it.n.states it.n.symbols (has_lowers it.shape) it.live.now it.uppers.now) }
    {
        sides::check(
            self.side_of_uppers(),
            self.model,
            self.starts,
            self.live,
            self.uppers,
            self.n,
        )
    }

    // 25 and then 26, in the lowers, which the rest of the file starts with where they stand.
    fn check_lowers(&self) -> Outcome
        ensures { let it = self.now in result ≡ first (lower_part it.model.now it.n.states it.n.symbols (has_lowers it.shape) it.uppers.now it.rest.now) }
    {
        if !has_lowers(self.shape) {
            return Ok(());
        }
        let v = self.n.entries();
        let block = &self.rest[..RECORD_BYTES * v];
        check_below(block, self.uppers, v, v)?;
        sides::check(
            Side::Lower,
            self.model,
            self.starts,
            self.live,
            block,
            self.n,
        )
    }

    // 27 in the mean steps, where they stand: the rest of the file has them after the lowers, if there are any.
    fn check_means(&self) -> Outcome
        ensures { let it = self.now in result ≡ first (mean_part it.model.now it.n.states it.n.symbols it.shape it.uppers.now it.rest.now) }
    {
        if !has_means(self.shape) {
            return Ok(());
        }
        let v = self.n.entries();
        if has_lowers(self.shape) {
            let block = &self.rest[RECORD_BYTES * v..];
            return means::check(self.model, self.starts, self.uppers, block, self.n, v + v);
        }
        means::check(self.model, self.starts, self.uppers, self.rest, self.n, v)
    }

    // Every test after that of dead uppers.
    fn check_rest(&self) -> Outcome
        ensures { let it = self.now in result ≡ first (rest_part it.model.now it.n.states it.n.symbols it.shape it.live.now it.uppers.now it.rest.now) }
    {
        self.check_dead_lowers()?;
        self.check_uppers()?;
        self.check_lowers()?;
        self.check_means()
    }
}

// The tests 23 to 27 of a delivery whose layout is right.
pub(crate) fn check(model: &[u8], delivery: &[u8], n: Sizes, shape: Shape) -> Outcome
    requires { LaidOut model.now n shape delivery.now }
    ensures { result ≡ first (number_tests model.now n.states n.symbols shape delivery.now) }
{
    let v = n.entries();
    let mut starts = [0u16; STARTS];
    find_starts(model, n, &mut starts);
    let mut live = [0u8; MOST_ROWS];
    find_marks(model, &starts, n, &mut live);
    let uppers = &delivery[..RECORD_BYTES * v];
    let rest = &delivery[RECORD_BYTES * v..];
    check_dead(&live, uppers, n, 0)?;
    let checked = Checked {
        model,
        n,
        starts: &starts,
        live: &live,
        shape,
        uppers,
        rest,
    };
    checked.check_rest()
}
