// The successor words of a desk and a sheet: for each lock class and each kind of dependency, the classes that a dependency goes to.
#![tactic(auto)]

ghost use Rattle.std.specs.Prelude.{◌≡◌, ℕ, ◌+◌, ◌*◌, ◌<◌, ◌≤◌, min, length};
ghost use Rattle.words.specs.Bits.{bit};
ghost use Rattle.layout.specs.Layout.{desk_size, marks_at};
ghost use Rattle.successors.specs.Column.{column, spread_of, Columns, Narrow, Joined};
ghost use Rattle.successors.specs.Successors.{Ready, level_number, mark_number, mark_digit, irq_digit, SafeColumns, WithIrq, ClassWords, stored, Successors};

use layout::{MARKS_AT, MAX_CLASSES};

pub const DEPENDENCY_KINDS: usize = 4;

// The successor words of all classes.
pub const ROWS: usize = DEPENDENCY_KINDS * MAX_CLASSES;

// A word for each kind of dependency.
// Kept: by an array numbers would stand for the kinds again, and the lines of `with_irq` would not say which kind has which marks.
#[derive(Clone, Copy)]
pub struct KindWords {
    pub er: u64,
    pub en: u64,
    pub sr: u64,
    pub sn: u64,
}

// A word for each safe mark of a level: the classes that have it.
#[derive(Clone, Copy)]
pub struct SafeWords {
    pub n: u64,
    pub r: u64,
}

// ---- Lock dependencies: the sheet, a byte at a time.

// Bytes in a block, and bits in a lane: a word has four lanes.
const BLOCK: usize = 16;

// The digits 0 to 3 of a byte, each at the bottom of 16 bits.
fn spread(byte: u8) -> u64
    ensures { result ≡ spread_of byte }
{
    (u64::from(byte) * 0x2000_4000_8001) & 0x1_0001_0001_0001
}

// The columns of up to 16 bytes, all four in one word on the way.
// Kept: the word is taken apart by its lanes, here and in `joined`, since the sheet is read sixteen bytes at a time, for speed (docs/DECISIONS.md, 36).
fn block(bytes: &[u8]) -> KindWords
    requires { length bytes.now ≤ 16 }
    ensures { Columns bytes.now 0 (length bytes.now) result }
{
    let mut lanes: u64 = 0;
    for byte in bytes.iter().rev() {
        lanes = lanes * 2 + spread(*byte);
    }
    KindWords {
        er: lanes % 65536,
        en: lanes / 65536 % 65536,
        sr: lanes / 4294967296 % 65536,
        sn: lanes / 281474976710656,
    }
}

// The words of a block, with those of the blocks above it.
fn joined(high: KindWords, low: KindWords) -> KindWords
    requires { Narrow high low }
    ensures { Joined high low result }
{
    KindWords {
        er: high.er * 65536 + low.er,
        en: high.en * 65536 + low.en,
        sr: high.sr * 65536 + low.sr,
        sn: high.sn * 65536 + low.sn,
    }
}

// The words of the lock dependencies in a row of the sheet.
fn lock_words(row: &[u8]) -> KindWords
    requires { length row.now ≤ 64 }
    ensures { Columns row.now 0 (length row.now) result }
{
    let blocks = row.len() / BLOCK;
    let mut words = block(&row[BLOCK * blocks..]);
    for i in (0..blocks).rev() {
        words = joined(words, block(&row[BLOCK * i..BLOCK * (i + 1)]));
    }
    words
}

// ---- Interrupt dependencies: by words.

// The levels of interrupts, by the first of a level's digits in a mark byte.
#[derive(Clone, Copy)]
pub enum Irq {
    Hard = 0,
    Soft = 4,
}

// The usage marks of a level, by their digits from the level's first on.
#[derive(Clone, Copy)]
pub enum Mark {
    SafeN,
    SafeR,
    UnsafeE,
    UnsafeS,
}

// The digit of a mark in a mark byte.
fn digit_of(level: Irq, mark: Mark) -> u32
    ensures { result ≡ mark_digit level mark }
{
    level as u32 + mark as u32
}

fn digit(byte: u8, d: u32) -> u64
    requires { d < 8 }
    ensures { result ≡ bit byte d }
{
    u64::from((byte >> d) % 2)
}

// The digits d of the bytes.
pub fn column_of(bytes: &[u8], d: u32) -> u64
    requires { (length bytes.now ≤ 64) × (d < 8) }
    ensures { result ≡ column bytes.now 0 d (length bytes.now) }
{
    let mut word: u64 = 0;
    for byte in bytes.iter().rev() {
        word = word * 2 + digit(*byte, d);
    }
    word
}

// The classes below k that have a mark.
fn marked(desk: &[u8], k: usize, level: Irq, mark: Mark) -> u64
    requires { (desk_size ≤ length desk.now) × (k ≤ 64) }
    ensures { result ≡ column desk.now marks_at (mark_digit level mark) k }
{
    column_of(&desk[MARKS_AT..MARKS_AT + k], digit_of(level, mark))
}

// The safe marks of a level.
pub fn safe_words(desk: &[u8], k: usize, level: Irq) -> SafeWords
    requires { (desk_size ≤ length desk.now) × (k ≤ 64) }
    ensures { SafeColumns desk.now k (level_number level) result }
{
    SafeWords {
        n: marked(desk, k, level, Mark::SafeN),
        r: marked(desk, k, level, Mark::SafeR),
    }
}

// The word, where the mark byte has the mark.
pub fn picked(byte: u8, level: Irq, mark: Mark, word: u64) -> u64
    ensures { (t : ℕ) → bit result t ≡ min (bit byte (mark_digit level mark)) (bit word t) }
{
    if digit(byte, digit_of(level, mark)) == 1 {
        word
    } else {
        0
    }
}

// The classes with a safe mark of a level at which the mark byte has the unsafe mark.
fn irq_word(byte: u8, mark: Mark, hard: u64, soft: u64) -> u64
    ensures { (t : ℕ) → bit result t ≡ irq_digit byte (mark_number mark) (bit hard t) (bit soft t) }
{
    picked(byte, Irq::Hard, mark, hard) | picked(byte, Irq::Soft, mark, soft)
}

fn with_irq(byte: u8, hard: SafeWords, soft: SafeWords, locks: KindWords) -> KindWords
    ensures { WithIrq byte hard soft locks result }
{
    KindWords {
        er: locks.er | irq_word(byte, Mark::UnsafeE, hard.r, soft.r),
        en: locks.en | irq_word(byte, Mark::UnsafeE, hard.n, soft.n),
        sr: locks.sr | irq_word(byte, Mark::UnsafeS, hard.r, soft.r),
        sn: locks.sn | irq_word(byte, Mark::UnsafeS, hard.n, soft.n),
    }
}

// ---- All dependencies.

fn class_words(
    desk: &[u8],
    sheet: &[u8],
    k: usize,
    class: usize,
    hard: SafeWords,
    soft: SafeWords,
) -> KindWords
    requires { Ready desk.now sheet.now k × (class < k) × SafeColumns desk.now k 0 hard × SafeColumns desk.now k 4 soft }
    ensures { ClassWords desk.now sheet.now k class result }
{
    with_irq(
        desk[MARKS_AT + class],
        hard,
        soft,
        lock_words(&sheet[class * k..(class + 1) * k]),
    )
}

// The words of a class stand at DEPENDENCY_KINDS * class and on, by kind: ER 0, EN 1, SR 2, SN 3.
fn store(rows: &mut [u64; ROWS], class: usize, words: KindWords)
    requires { class < 64 }
    ensures { rows.new ≡ stored rows.old class words }
{
    rows[DEPENDENCY_KINDS * class] = words.er;
    rows[DEPENDENCY_KINDS * class + 1] = words.en;
    rows[DEPENDENCY_KINDS * class + 2] = words.sr;
    rows[DEPENDENCY_KINDS * class + 3] = words.sn;
}

// Puts the successor words of the classes below k; those of the others are 0. A caller that lends the place has the words once in its stack.
pub fn put_successors(desk: &[u8], sheet: &[u8], k: usize, rows: &mut [u64; ROWS])
    requires { Ready desk.now sheet.now k }
    ensures { Successors desk.now sheet.now k rows.new }
{
    let hard = safe_words(desk, k, Irq::Hard);
    let soft = safe_words(desk, k, Irq::Soft);
    *rows = [0; ROWS];
    for class in 0..k {
        store(rows, class, class_words(desk, sheet, k, class, hard, soft));
    }
}

// The same by value.
// Kept: docs/PROMISES.md names it as what says of the words what `Successors` says.
pub fn successors(desk: &[u8], sheet: &[u8], k: usize) -> [u64; ROWS]
    requires { Ready desk.now sheet.now k }
    ensures { Successors desk.now sheet.now k result }
{
    let mut rows = [0; ROWS];
    put_successors(desk, sheet, k, &mut rows);
    rows
}
