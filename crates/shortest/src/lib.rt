// The cycle that is shown: the fewest dependencies, and of these the least by the slip's bytes. First the start, then at each class the first
// dependency, by kind, source and next class, from which the start is reached again in time.
#![tactic(auto)]

ghost use Rattle.std.specs.Prelude.{◌≡◌, ◌+◌, ◌*◌, ◌/◌, ◌%◌, ◌<◌, ◌≤◌, length, IfSome};
ghost use Rattle.rules.specs.Ranks.{kind_at};
ghost use Rattle.search.specs.Letters.{second_letter};
ghost use Rattle.successors.specs.Column.{Columns};
ghost use Rattle.successors.specs.Successors.{Ready, SafeColumns};
ghost use Rattle.starts.specs.Levels.{level_words};
ghost use Rattle.shortest.specs.Shortest.{ranks_after, letter_number, choice_of, found_of, OfPlace, Picked, RankWord, RankWords, Chained, Shortest};

use layout::{MARKS_AT, MAX_CLASSES};
use search::{Arrivals, SecondLetter};
use starts::{Begin, LEVELS, fill_after, first_start, level};
use successors::{Irq, KindWords, Mark, ROWS, SafeWords, column_of, picked, safe_words};
use words::{both, lowest};

// ---- The dependencies of a class by rank: three times the kind's place (ER 0, EN 1, SR 2, SN 3) and the source. Ranks are in the order of
// the slip's bytes.
// Kept: the order of the shown cycle is that of these numbers, by `rank`, `kind_at` and `source_at` of the rules.

const RANKS: usize = 12;

// The ranks of ER and EN.
const RANKS_OF_E: usize = 6;

// What the dependencies of a kind come from: the word of the lock dependencies, the unsafe mark of the first letter, and the safe words of the
// second.
#[derive(Drop)]
struct Sources {
    lock: u64,
    mark: Mark,
    hard: u64,
    soft: u64,
}

fn sources_of(locks: KindWords, hard: SafeWords, soft: SafeWords, place: usize) -> Sources
    requires { place < 4 }
    ensures { OfPlace locks hard soft place result }
{
    match place {
        0 => Sources {
            lock: locks.er,
            mark: Mark::UnsafeE,
            hard: hard.r,
            soft: soft.r,
        },
        1 => Sources {
            lock: locks.en,
            mark: Mark::UnsafeE,
            hard: hard.n,
            soft: soft.n,
        },
        2 => Sources {
            lock: locks.sr,
            mark: Mark::UnsafeS,
            hard: hard.r,
            soft: soft.r,
        },
        _ => Sources {
            lock: locks.sn,
            mark: Mark::UnsafeS,
            hard: hard.n,
            soft: soft.n,
        },
    }
}

fn rank_word(mark: u8, locks: KindWords, hard: SafeWords, soft: SafeWords, rank: usize) -> u64
    requires { rank < 12 }
    ensures { RankWord mark locks hard soft rank result }
{
    let of = sources_of(locks, hard, soft, rank / 3);
    match rank % 3 {
        0 => of.lock,
        1 => picked(mark, Irq::Hard, of.mark, of.hard),
        _ => picked(mark, Irq::Soft, of.mark, of.soft),
    }
}

// The lock dependencies of a class by its row of the sheet, a kind at a time: once a log, where `successors` is quicker in every step.
fn row_words(row: &[u8]) -> KindWords
    requires { length row.now ≤ 64 }
    ensures { Columns row.now 0 (length row.now) result }
{
    KindWords {
        er: column_of(row, 0),
        en: column_of(row, 1),
        sr: column_of(row, 2),
        sn: column_of(row, 3),
    }
}

// The successors of a class by rank. hard, soft: the safe marks of the levels.
fn rank_words(
    desk: &[u8],
    sheet: &[u8],
    k: usize,
    class: usize,
    hard: SafeWords,
    soft: SafeWords,
) -> [u64; RANKS]
    requires { Ready desk.now sheet.now k × (class < k) × SafeColumns desk.now k 0 hard × SafeColumns desk.now k 4 soft }
    ensures { RankWords desk.now sheet.now k class result }
{
    let mark = desk[MARKS_AT + class];
    let locks = row_words(&sheet[class * k..(class + 1) * k]);
    let mut words = [0u64; RANKS];
    for rank in 0..RANKS {
        words[rank] = rank_word(mark, locks, hard, soft, rank);
    }
    words
}

// ---- The choice at a class.

// A dependency of a rank to a class.
#[derive(Clone, Copy)]
struct Choice {
    pub rank: usize,
    pub to: u32,
}

// The second letter of a rank.
fn letter_of(rank: usize) -> SecondLetter
    requires { rank < 12 }
    ensures { second_letter result ≡ (kind_at rank).second }
{
    if rank / 3 % 2 == 0 {
        SecondLetter::R
    } else {
        SecondLetter::N
    }
}

// The ranks that may follow: after R only E.
fn ranks(letter: SecondLetter) -> usize
    ensures { result ≡ ranks_after (second_letter letter) }
{
    match letter {
        SecondLetter::R => RANKS_OF_E,
        SecondLetter::N => RANKS,
    }
}

// The first dependency, by rank and then by class, that goes into the set.
fn pick(words: &[u64; RANKS], letter: SecondLetter, to: Arrivals) -> Option<Choice>
    ensures { Picked words.now (ranks_after (second_letter letter)) to (choice_of result) × IfSome result (λ c. c.rank < 12) }
{
    for rank in 0..ranks(letter) {
        let word = words[rank];
        let hit = both(word, to.by(letter_of(rank)));
        if hit != 0 {
            return Some(Choice {
                rank,
                to: lowest(hit),
            });
        }
    }
    None
}

// ---- The cycle.

// A dependency of a cycle: the class where it starts, and its rank.
#[derive(Clone, Copy)]
pub struct Ranked {
    pub class: u8,
    pub rank: u8,
}

// A cycle of n dependencies.
#[derive(Drop)]
pub struct Found {
    pub n: usize,
    pub dependencies: [Ranked; MAX_CLASSES],
}

// From the start on, at each class the first dependency that leads to the end in time: there is one, if desk and sheet are the graph that was searched.
fn chain(desk: &[u8], sheet: &[u8], k: usize, b: Begin, levels: &[Arrivals; LEVELS]) -> Found
    requires { Ready desk.now sheet.now k × (b.n ≤ k) × (b.class < k) }
    ensures { Chained desk.now sheet.now k b.n b.class (letter_number b.letter) (level_words levels.now) result }
{
    let hard = safe_words(desk, k, Irq::Hard);
    let soft = safe_words(desk, k, Irq::Soft);
    let mut found = Found {
        n: b.n,
        dependencies: [Ranked { class: 0, rank: 0 }; MAX_CLASSES],
    };
    let mut class = b.class;
    let mut letter = b.letter;
    for i in 0..b.n {
        let words = rank_words(desk, sheet, k, class as usize, hard, soft);
        let Some(c) = pick(&words, letter, level(levels, b.n - 1 - i)) else {
            return found;
        };
        found.dependencies[i] = Ranked {
            class: class as u8,
            rank: c.rank as u8,
        };
        class = c.to;
        letter = letter_of(c.rank);
    }
    found
}

// The cycle that is shown, if one has at most limit dependencies. At most 2 * k starts, limit levels each, and k classes each level.
pub fn shortest_cycle(
    desk: &[u8],
    sheet: &[u8],
    rows: &[u64; ROWS],
    k: usize,
    limit: usize,
) -> Option<Found>
    requires { Ready desk.now sheet.now k × (limit ≤ k) }
    ensures { Shortest desk.now sheet.now rows.now k limit (found_of result) }
{
    let mut levels = [Arrivals::NONE; LEVELS];
    let b = first_start(rows, k as u32, limit, &mut levels)?;
    let _ = fill_after(rows, k as u32, b.class, b.letter, b.n, &mut levels);
    Some(chain(desk, sheet, k, b, &levels))
}
