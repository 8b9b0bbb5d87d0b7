// Where the shortest cycle starts, and from which arrivals it can still be closed in time.
#![tactic(auto)]

ghost use Rattle.std.specs.Prelude.{◌≡◌, ◌*◌, ◌<◌, ◌≤◌, length, IfSome};
ghost use Rattle.search.specs.Letters.{second_letter};
ghost use Rattle.starts.specs.Levels.{Widened, Behind, AtHome, level_words, Filled, level_at, length_number, letter_at};
ghost use Rattle.starts.specs.Starts.{Begun, begins};

use layout::MAX_CLASSES;
use search::{Arrivals, FirstLetter, SecondLetter, successors};
use successors::ROWS;

// ---- Back from the start: the arrivals from which a number of dependencies leads there.

// The set out, with class where a dependency goes from there into the set `to`.
fn widened(rows: &[u64; ROWS], class: u32, to: Arrivals, out: Arrivals) -> Arrivals
    requires { class < 64 }
    ensures { Widened rows.now class to out result }
{
    if successors(rows, class, FirstLetter::E).meets(to) {
        out.with(class, SecondLetter::R)
            .with(class, SecondLetter::N)
    } else if successors(rows, class, FirstLetter::S).meets(to) {
        out.with(class, SecondLetter::N)
    } else {
        out
    }
}

// The arrivals at classes from `from` on from which one dependency goes into the set.
fn behind(rows: &[u64; ROWS], from: u32, k: u32, to: Arrivals) -> Arrivals
    requires { (from ≤ k) × (k ≤ 64) }
    ensures { Behind rows.now from k to result }
{
    let mut out = Arrivals::NONE;
    for class in from..k {
        out = widened(rows, class, to, out);
    }
    out
}

// Where a cycle from class may end that begins as after the letter.
fn home(class: u32, letter: SecondLetter) -> Arrivals
    requires { class < 64 }
    ensures { AtHome class (second_letter letter) result }
{
    let by_n = Arrivals::NONE.with(class, SecondLetter::N);
    match letter {
        SecondLetter::R => by_n.with(class, SecondLetter::R),
        SecondLetter::N => by_n,
    }
}

// A set for each number of dependencies below MAX_CLASSES.
pub const LEVELS: usize = MAX_CLASSES;

// Kept: docs/PROMISES.md names it.
pub fn level(levels: &[Arrivals; LEVELS], m: usize) -> Arrivals
    requires { m < 64 }
    ensures { result ≡ level_at (level_words levels.now) m }
{
    levels[m]
}

// The length, up to limit, of a shortest cycle from class, its lowest, that begins as after the letter. Level m, for each m below it, gets the
// arrivals from which m dependencies lead to its end.
pub fn fill_after(
    rows: &[u64; ROWS],
    k: u32,
    class: u32,
    letter: SecondLetter,
    limit: usize,
    levels: &mut [Arrivals; LEVELS],
) -> Option<usize>
    requires { (k ≤ 64) × (class < k) × (limit ≤ 64) }
    ensures { Filled rows.now k class (second_letter letter) limit (length_number result) (level_words levels.new) × IfSome result (λ n. 0 < n) }
{
    let mut back = home(class, letter);
    for m in 0..limit {
        levels[m] = back;
        back = behind(rows, class, k, back);
        if back.contains(class, letter) {
            return Some(m + 1);
        }
        if back.is_empty() {
            return None;
        }
    }
    None
}

// The letter that a number stands for: 0 for R, else N.
fn letter_by(number: u32) -> SecondLetter
    ensures { second_letter result ≡ letter_at number }
{
    match number {
        0 => SecondLetter::R,
        _ => SecondLetter::N,
    }
}

// The same with the letter as a number.
// Kept: docs/PROMISES.md names it, and it promises this of any number.
pub fn fill(
    rows: &[u64; ROWS],
    k: u32,
    class: u32,
    letter: u32,
    limit: usize,
    levels: &mut [Arrivals; LEVELS],
) -> Option<usize>
    requires { (k ≤ 64) × (class < k) × (limit ≤ 64) }
    ensures { Filled rows.now k class (letter_at letter) limit (length_number result) (level_words levels.new) × IfSome result (λ n. 0 < n) }
{
    fill_after(rows, k, class, letter_by(letter), limit, levels)
}

// ---- The start: the lowest class from which a cycle of the fewest dependencies starts.

// A cycle of n dependencies from class as after the letter.
#[derive(Clone, Copy)]
pub struct Begin {
    pub n: usize,
    pub class: u32,
    pub letter: SecondLetter,
}

pub fn first_start(
    rows: &[u64; ROWS],
    k: u32,
    limit: usize,
    levels: &mut [Arrivals; LEVELS],
) -> Option<Begin>
    requires { (k ≤ 64) × (limit ≤ k) }
    ensures { Begun rows.now k limit (2 * k) (begins limit result) × IfSome result (λ b. (0 < b.n) × (b.class < k)) }
{
    let mut best = None;
    let mut most = limit;
    for class in 0..k {
        for letter in [SecondLetter::R, SecondLetter::N] {
            if let Some(n) = fill_after(rows, k, class, letter, most, levels) {
                best = Some(Begin { n, class, letter });
                most = n - 1;
            }
        }
    }
    best
}
