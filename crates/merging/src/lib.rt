// The numbers of the held delivery merged with those of a second one: of each pair the sharper, with their own margin.
#![tactic(auto)]

ghost use Rattle.std.specs.Prelude.{cond, ◌&&◌, ◌||◌, ◌≡◌, ◌+◌, ◌*◌, ◌≤◌, ◌<◌};
ghost use Rattle.walks.specs.Order.{rows_in, entries_in};
ghost use Rattle.model.specs.Format.{most_entries};
ghost use Rattle.model.specs.Clauses.{Fits, Sized};
ghost use Rattle.delivery.specs.Shapes.{has_lowers, has_means};
ghost use Rattle.delivery.specs.Merged.{shape_with, merged_shape};
ghost use Rattle.delivery.specs.Clauses.{ShapedFile};
ghost use Rattle.certificate.specs.Clauses.{AcceptedFile};
ghost use Rattle.held.specs.Held.{numbers_held};
ghost use Rattle.held.specs.Clauses.{HasEntries};
ghost use Rattle.merging.specs.Numbers.{margin_in, numbers_merged};
ghost use Rattle.merging.specs.Clauses.{KeptBy, uppers_merged, lowers_merged, means_merged, ChancesListed, Holds};

use certificate::margins::margin_of_uppers;
use delivery::format::{RECORD_BYTES, VALUE_BYTE};
use delivery::shape::{Shape, has_lowers, has_means};
use held::Numbers;
use held::filing::{lowers_of, means_of};
use held::lists::values_by_exit;
use model::format::MOST_ENTRIES;
use model::sizes::Sizes;
use words::put_word;

// The bytes of the longest block.
const BLOCK_BYTES: usize = RECORD_BYTES * MOST_ENTRIES;

// Whether both deliveries have lowers.
fn both_lowers(held: Shape, second: Shape) -> bool
    ensures { result ≡ (has_lowers held && has_lowers second) }
{
    has_lowers(held) & has_lowers(second)
}

// Whether either has mean steps.
fn either_means(held: Shape, second: Shape) -> bool
    ensures { result ≡ (has_means held || has_means second) }
{
    has_means(held) | has_means(second)
}

// The shape by whether it has lowers, and mean steps.
fn shape_with(lowers: bool, means: bool) -> Shape
    ensures { result ≡ shape_with lowers means }
{
    match (lowers, means) {
        (true, true) => Shape::ULR,
        (true, false) => Shape::UL,
        (false, true) => Shape::UR,
        (false, false) => Shape::U,
    }
}

// The shape of the merged delivery: lowers where both have them, mean steps where either has.
pub fn merged_shape(held: Shape, second: Shape) -> Shape
    ensures { result ≡ merged_shape held second }
{
    shape_with(both_lowers(held, second), either_means(held, second))
}

// What the rule keeps of each pair of the first n numbers of two lists.
fn kept_of<F: Fn(u32, u32) -> u32>(
    rule: F,
    a: &[u32; MOST_ENTRIES],
    b: &[u32; MOST_ENTRIES],
    n: usize,
) -> [u32; MOST_ENTRIES]
    requires { F.IsAlwaysCallable rule × (n ≤ most_entries) }
    ensures { KeptBy (F.post rule) n a.now b.now result }
{
    let mut list = [0u32; MOST_ENTRIES];
    for e in 0..n {
        list[e] = rule(a[e], b[e]);
    }
    list
}

// The smaller uppers of those that are held and those of the file.
fn merged_uppers(former: Numbers, file: &[u8], n: Sizes) -> [u32; MOST_ENTRIES]
    requires { HasEntries n file.now }
    ensures { result ≡ uppers_merged n.states n.symbols former file.now }
{
    let uppers = values_by_exit(file, n);
    kept_of(u32::min, &former.uppers, &uppers, n.entries())
}

// The larger lowers, where both deliveries have any.
fn merged_lowers(
    held: Shape,
    former: Numbers,
    second: Shape,
    file: &[u8],
    n: Sizes,
) -> [u32; MOST_ENTRIES]
    requires { ShapedFile n second file.now }
    ensures { result ≡ lowers_merged n.states n.symbols held former second file.now }
{
    if !both_lowers(held, second) {
        return [0u32; MOST_ENTRIES];
    }
    let lowers = lowers_of(file, n, second);
    kept_of(u32::max, &former.lowers, &lowers, n.entries())
}

// The mean steps: of both the smaller, of one that one's.
fn merged_means(
    held: Shape,
    former: Numbers,
    second: Shape,
    file: &[u8],
    n: Sizes,
) -> [u32; MOST_ENTRIES]
    requires { ShapedFile n second file.now }
    ensures { result ≡ means_merged n.states n.symbols held former second file.now }
{
    let means = means_of(file, n, second);
    if !has_means(held) {
        return means;
    }
    if !has_means(second) {
        return former.means;
    }
    kept_of(u32::min, &former.means, &means, n.rows())
}

// Puts the listed uppers of a row into its records, behind those of the rows before it.
fn put_row(list: &[u32; MOST_ENTRIES], n: Sizes, row: usize, block: &mut [u8; BLOCK_BYTES])
    requires listed { ChancesListed list.now × Fits n.states n.symbols × (row < rows_in n.states n.symbols) }
    requires before { Holds n.states n.symbols list.now (row * n.states) block.old }
    ensures { Holds n.states n.symbols list.now ((row + 1) * n.states) block.new }
{
    for q in 0..n.states {
        let e = n.entry_in(row, q);
        let at = n.exit_in(row, q);
        put_word(block, RECORD_BYTES * e + VALUE_BYTE, list[at]);
    }
}

// A block of records in the order of files whose values are uppers that are listed by exit.
fn block_of(list: &[u32; MOST_ENTRIES], n: Sizes) -> [u8; BLOCK_BYTES]
    requires { ChancesListed list.now × Fits n.states n.symbols }
    ensures { Holds n.states n.symbols list.now (entries_in n.states n.symbols) result }
{
    let mut block = [0u8; BLOCK_BYTES];
    for row in 0..n.rows() {
        put_row(list, n, row, &mut block);
    }
    block
}

// The margin of uppers that are listed by exit, or 0 where there are no lowers.
fn merged_margin(model: &[u8], n: Sizes, stand: bool, uppers: &[u32; MOST_ENTRIES]) -> u64
    requires { Sized model.now n.states n.symbols × ChancesListed uppers.now }
    ensures { result ≡ cond stand (margin_in model.now uppers.now) 0 }
{
    if stand {
        margin_of_uppers(model, &block_of(uppers, n), n)
    } else {
        0
    }
}

// The held numbers of a delivery of shape `held`, merged with those of the accepted delivery `file` of shape `second`.
pub fn merged_numbers(
    model: &[u8],
    n: Sizes,
    held: Shape,
    former: Numbers,
    second: Shape,
    file: &[u8],
) -> Numbers
    requires { AcceptedFile model.now n second file.now }
    ensures { result ≡ numbers_merged model.now held former second (numbers_held model.now second file.now) }
{
    let uppers = merged_uppers(former, file, n);
    let lowers = merged_lowers(held, former, second, file, n);
    let means = merged_means(held, former, second, file, n);
    let margin = merged_margin(model, n, both_lowers(held, second), &uppers);
    Numbers {
        uppers,
        lowers,
        means,
        margin,
    }
}
