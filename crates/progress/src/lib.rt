// How far a feed has come, and the lent buffer in which it is kept between calls. specs/Feed.antt says what its bytes stand for.
#![tactic(auto)]

ghost use Rattle.std.specs.Prelude.{◌≡◌, ◌++◌, ◌+◌, ◌≤◌, length, get_or, drop};
ghost use Rattle.rules.specs.Log.{unit_size};
ghost use Rattle.layout.specs.Fit.{all_below};
ghost use Rattle.progress.specs.Feed.{feed_size, longest, most_loose, count_at, bytes_of, view, is_step_answer, stands_with, well_formed, unused_zero, fits, unit_begun, with_part};
ghost use Rattle.progress.specs.Code.{feed_of, Counted, LooseIn};

use answers::{Refusal, Verdict};
use numbers::word_at;
use record::SIZE;

// A log is a header and then records, of SIZE bytes each. A header has a word behind it where its version, the third byte, is DECLARING.
pub const PLAIN_SIZE: usize = 4;

pub const VERSION_AT: usize = 2;

pub const DECLARING: u8 = 2;

// The most bytes that a unit has. Of one that is not complete the bytes are kept.
pub const UNIT_SIZE: usize = PLAIN_SIZE + 8;

const MOST_LOOSE: usize = UNIT_SIZE - 1;

// Answers as a feed keeps them.
pub const CLEAN: u8 = Verdict::Clean as u8;

const FAULT: u8 = Verdict::Fault as u8;

const BAD_OPENING: u8 = Refusal::BadOpening as u8;

const MALFORMED: u8 = Refusal::Malformed as u8;

const UNFIT: u8 = Refusal::Unfit as u8;

const WRONG_SORT: u8 = Refusal::WrongSort as u8;

const HISTORY_FULL: u8 = Refusal::HistoryFull as u8;

// The layout of a feed.
const ANSWER_AT: usize = 0;

const OPENED_AT: usize = 1;

const COUNT_AT: usize = 2;

const LOOSE_AT: usize = 3;

const NUMBER_AT: usize = LOOSE_AT + MOST_LOOSE;

const NUMBER_SIZE: usize = 8;

pub const FEED_SIZE: usize = NUMBER_AT + NUMBER_SIZE;

// A feed by value: the first `count` bytes of the array are the loose ones.
#[derive(Clone, Copy)]
pub struct Progress {
    // Kept: `load` promises the view of any byte that stands in the buffer, and such a byte need be no answer.
    pub answer: u8,
    pub opened: bool,
    pub loose: [u8; UNIT_SIZE],
    pub count: usize,
    pub number: u64,
}

// The bytes that the next unit has: the header's until the desk is opened, then a record's. Loose bytes tell which header it is as soon as there are three.
pub fn unit_size(p: Progress) -> usize
    requires { p.count ≤ longest }
    ensures { result ≡ unit_size p.opened (feed_of p).loose }
{
    if p.opened {
        SIZE
    } else if VERSION_AT < p.count && p.loose[VERSION_AT] == DECLARING {
        UNIT_SIZE
    } else {
        PLAIN_SIZE
    }
}

// Between two units: no loose bytes.
pub fn between_units(answer: u8, opened: bool, number: u64) -> Progress
    ensures { (feed_of result ≡ unit_begun answer opened number) × (result.count ≡ 0) }
{
    Progress {
        answer,
        opened,
        loose: [0; UNIT_SIZE],
        count: 0,
        number,
    }
}

// The loose bytes with a part of a piece behind them.
pub fn with_part(p: Progress, part: &[u8]) -> Progress
    requires { p.count + length part.now ≤ longest }
    ensures { (feed_of result ≡ with_part (feed_of p) part.now) × (result.count ≡ p.count + length part.now) }
{
    let count = p.count + part.len();
    let mut loose = p.loose;
    loose[p.count..count].copy_from_slice(part);
    Progress { loose, count, ..p }
}

fn loose_of(feed: &[u8]) -> [u8; UNIT_SIZE]
    requires { feed_size ≤ length feed.now }
    ensures { LooseIn feed.now result }
{
    let mut loose = [0; UNIT_SIZE];
    loose[..MOST_LOOSE].copy_from_slice(&feed[LOOSE_AT..NUMBER_AT]);
    loose
}

// The feed that the buffer stands for.
pub fn load(feed: &[u8]) -> Progress
    requires { (feed_size ≤ length feed.now) × (get_or feed.now count_at 0 ≤ most_loose) }
    ensures { (feed_of result ≡ view feed.now) × Counted result × (result.count ≤ most_loose) }
{
    Progress {
        answer: feed[ANSWER_AT],
        opened: feed[OPENED_AT] == 1,
        loose: loose_of(feed),
        count: feed[COUNT_AT] as usize,
        number: word_at(feed, NUMBER_AT),
    }
}

// Writes a feed into its buffer.
pub fn save(feed: &mut [u8], p: Progress)
    requires { (feed_size ≤ length feed.old) × (p.count ≤ most_loose) }
    ensures { feed.new ≡ bytes_of (feed_of p) ++ drop feed_size feed.old }
{
    feed[ANSWER_AT] = p.answer;
    feed[OPENED_AT] = u8::from(p.opened);
    feed[COUNT_AT] = p.count as u8;
    feed[LOOSE_AT..NUMBER_AT].fill(0);
    feed[LOOSE_AT..LOOSE_AT + p.count].copy_from_slice(&p.loose[..p.count]);
    feed[NUMBER_AT..FEED_SIZE].copy_from_slice(&p.number.to_le_bytes());
}

// Zeros behind the loose bytes.
fn unused_zero(feed: &[u8]) -> bool
    requires { (feed_size ≤ length feed.now) × (get_or feed.now count_at 0 ≤ most_loose) }
    ensures { result ≡ all_below most_loose (unused_zero feed.now) }
{
    let count = feed[COUNT_AT] as usize;
    feed[LOOSE_AT + count..NUMBER_AT].iter().all(|b| *b == 0)
}

// The step's answers.
fn is_step_answer(answer: u8) -> bool
    ensures { result ≡ is_step_answer answer }
{
    matches!(
        answer,
        CLEAN..=FAULT | MALFORMED..=UNFIT | WRONG_SORT..=HISTORY_FULL
    )
}

// Whether the standing answer and the number go together.
fn stands_with(opened: bool, answer: u8, number: u64) -> bool
    ensures { result ≡ stands_with opened answer number }
{
    if opened {
        is_step_answer(answer) && (answer == CLEAN || 1 <= number)
    } else {
        (answer == CLEAN || answer == BAD_OPENING) && number == 0
    }
}

#[tactic(auto, unfolding(crate::specs::Feed::well_formed))]
fn well_formed(p: Progress) -> bool
    requires { p.count ≤ most_loose }
    ensures { result ≡ well_formed (feed_of p) }
{
    p.count < unit_size(p)
        && (p.answer == CLEAN || p.count == 0)
        && stands_with(p.opened, p.answer, p.number)
}

// The fit test.
#[tactic(auto, unfolding(crate::specs::Feed::fits))]
pub fn fits_feed(feed: &[u8]) -> bool
    ensures { result ≡ fits feed.now }
{
    FEED_SIZE <= feed.len()
        && feed[OPENED_AT] <= 1
        && feed[COUNT_AT] as usize <= MOST_LOOSE
        && unused_zero(feed)
        && well_formed(load(feed))
}
