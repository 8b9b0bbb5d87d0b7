// Document 02, b: a log in pieces. The one place that cuts a log into its header and its records.
#![tactic(auto)]

ghost use Rattle.std.specs.Prelude.{◌≡◌, ◌<◌, ◌≤◌};
ghost use Rattle.answers.specs.Numbers.{refused_number};
ghost use Rattle.rules.specs.Verdict.{unfit};
ghost use Rattle.rules.specs.Log.{unit_size};
ghost use Rattle.progress.specs.Feed.{most_loose};
ghost use Rattle.progress.specs.Code.{feed_of, Counted};
ghost use Rattle.validator.specs.Calls.{buffers};
ghost use Rattle.feed.specs.Fed.{Fed, Ended};
ghost use Rattle.feed.specs.Calls.{Started, FedPiece, FedEnd};

use answers::Refusal;
use progress::{CLEAN, FEED_SIZE, Progress, between_units, fits_feed, load, save, unit_size};
use reader::next_part;
use unit::{take_part, validate_unit};

// Takes a piece, up to the first answer but 0.
fn take_piece(
    desk: &mut [u8],
    sheet: &mut [u8],
    seen: &mut [u8],
    history: &mut [u8],
    slip: &mut [u8],
    first: Progress,
    piece: &[u8],
) -> Progress
    requires { Counted first × (first.count < unit_size first.opened (feed_of first).loose) }
    ensures { Fed (feed_of first) (buffers desk.old sheet.old seen.old history.old slip.old) piece.now (feed_of result) (buffers desk.new sheet.new seen.new history.new slip.new) × (result.count ≤ most_loose) }
{
    let mut now = first;
    let mut at = 0;
    // Kept: a step is what the unit still lacks, so no range counts this loop.
    while at < piece.len() && now.answer == CLEAN {
        let part = next_part(piece, at, unit_size(now) - now.count);
        at += part.len();
        now = take_part(desk, sheet, seen, history, slip, now, part);
    }
    now
}

// The end of the log.
fn take_end(
    desk: &mut [u8],
    sheet: &mut [u8],
    seen: &mut [u8],
    history: &mut [u8],
    slip: &mut [u8],
    p: Progress,
) -> Progress
    requires { Counted p × (p.count ≤ most_loose) }
    ensures { Ended (feed_of p) (buffers desk.old sheet.old seen.old history.old slip.old) (feed_of result) (buffers desk.new sheet.new seen.new history.new slip.new) × (result.count ≤ most_loose) }
{
    if p.answer != CLEAN {
        return p;
    }
    if !p.opened {
        return between_units(Refusal::BadOpening.number(), false, p.number);
    }
    if p.count == 0 {
        return p;
    }
    validate_unit(
        desk,
        sheet,
        seen,
        history,
        slip,
        true,
        p.number,
        &p.loose[..p.count],
    )
}

// What a call of the feed says: the standing answer and its number.
#[derive(Clone, Copy)]
pub struct Said {
    // Kept: the standing answer is the byte that the feed keeps (see `Progress`), and 11 may stand in it as well as say that the feed is unfit.
    pub answer: u8,
    pub number: u64,
}

impl From<Progress> for Said {
    ghost from_gives = { λ p s. (s.answer ≡ p.answer) × (s.number ≡ p.number) };

    fn from(p: Progress) -> Said {
        Said {
            answer: p.answer,
            number: p.number,
        }
    }
}

// An unfit feed.
fn unfit() -> Said
    ensures { (result.answer ≡ unfit) × (result.number ≡ 0) }
{
    Said {
        answer: Refusal::Unfit.number(),
        number: 0,
    }
}

// A fresh feed.
pub fn start(feed: &mut [u8]) -> Result<(), Refusal>
    ensures { Started feed.old (refused_number result) feed.new }
{
    if feed.len() < FEED_SIZE {
        return Err(Refusal::BadOpening);
    }
    save(feed, between_units(CLEAN, false, 0));
    Ok(())
}

// A piece of the log.
pub fn feed_piece(
    feed: &mut [u8],
    desk: &mut [u8],
    sheet: &mut [u8],
    seen: &mut [u8],
    history: &mut [u8],
    slip: &mut [u8],
    piece: &[u8],
) -> Said
    ensures { FedPiece feed.old (buffers desk.old sheet.old seen.old history.old slip.old) piece.now result.answer result.number feed.new (buffers desk.new sheet.new seen.new history.new slip.new) }
{
    if !fits_feed(feed) {
        return unfit();
    }
    let next = take_piece(desk, sheet, seen, history, slip, load(feed), piece);
    save(feed, next);
    Said::from(next)
}

// The end of the log.
pub fn feed_end(
    feed: &mut [u8],
    desk: &mut [u8],
    sheet: &mut [u8],
    seen: &mut [u8],
    history: &mut [u8],
    slip: &mut [u8],
) -> Said
    ensures { FedEnd feed.old (buffers desk.old sheet.old seen.old history.old slip.old) result.answer result.number feed.new (buffers desk.new sheet.new seen.new history.new slip.new) }
{
    if !fits_feed(feed) {
        return unfit();
    }
    let next = take_end(desk, sheet, seen, history, slip, load(feed));
    save(feed, next);
    Said::from(next)
}
