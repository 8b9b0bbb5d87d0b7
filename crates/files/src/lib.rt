// What the programs do with files: a log from a file is fed, piece by piece as the reads give it, and ended; a text is written.
#![tactic(auto)]

ghost use Rattle.std.specs.Prelude.{◌≤◌, length};
ghost use Rattle.progress.specs.Feed.{feed_size};
ghost use Rattle.validator.specs.Calls.{buffers};
ghost use Rattle.files.specs.Replayed.{Taken, Replayed};

use layout::{ENTRIES_AT, ENTRY_SIZE, MAX_CLASSES, NUMBER_SIZE};
use outcome::Outcome;
use progress::CLEAN;
use std::io::{self, ErrorKind, Read, Write};

// The buffers of the largest number of classes.
pub const SHEET_SIZE: usize = MAX_CLASSES * MAX_CLASSES;

pub const SEEN_SIZE: usize = NUMBER_SIZE * SHEET_SIZE;

pub const SLIP_SIZE: usize = ENTRIES_AT + ENTRY_SIZE * MAX_CLASSES;

// The bytes of a log that are held at a time.
pub const BUF_SIZE: usize = 4096;

// Feeds what the reads give, up to the end of the file or to the first answer but 0; an error is a read that failed. A proved loop has to end, and
// nothing says that a log does: the reads are counted up to a number that no run uses up.
fn feed_input<R: Read>(
    file: &mut R,
    feed: &mut [u8],
    desk: &mut [u8],
    sheet: &mut [u8],
    seen: &mut [u8],
    history: &mut [u8],
    slip: &mut [u8],
    buf: &mut [u8],
) -> io::Result<()>
    ensures { Taken feed.old (buffers desk.old sheet.old seen.old history.old slip.old) feed.new (buffers desk.new sheet.new seen.new history.new slip.new) }
{
    for _ in 0..u64::MAX {
        let n = file.read(buf)?;
        if n == 0 {
            return Ok(());
        }
        let said = feed::feed_piece(feed, desk, sheet, seen, history, slip, &buf[..n]);
        if said.answer != CLEAN {
            return Ok(());
        }
    }
    Err(ErrorKind::Other.into())
}

// Validates the whole log of a file.
pub fn replay<R: Read>(
    file: &mut R,
    feed: &mut [u8],
    desk: &mut [u8],
    sheet: &mut [u8],
    seen: &mut [u8],
    history: &mut [u8],
    slip: &mut [u8],
    buf: &mut [u8],
) -> Outcome
    requires { feed_size ≤ length feed.old }
    ensures { Replayed (buffers desk.old sheet.old seen.old history.old slip.old) result (buffers desk.new sheet.new seen.new history.new slip.new) }
{
    let _ = feed::start(feed);
    if feed_input(file, feed, desk, sheet, seen, history, slip, buf).is_err() {
        return Outcome::Unread;
    }
    let said = feed::feed_end(feed, desk, sheet, seen, history, slip);
    outcome::outcome_of(said.answer, said.number)
}

// Writes a text, all at once: an answer to the first writer, a complaint to the second.
// Kept: the flag is no kind of value; a function for each would put the test of it at two callers.
pub fn print<O: Write, E: Write>(out: &mut O, err: &mut E, answer: bool, text: &[u8]) {
    if !answer {
        let _ = err.write_all(text);
        return;
    }
    if out.write_all(text).is_err() {
        let _ = err.write_all(b"write failed\n");
    }
}
