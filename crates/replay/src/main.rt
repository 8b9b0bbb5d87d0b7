// Document 01, "Logs for the bench": validates a log from standard input, and writes what came of it to standard output.
//
// The program is thin: each read gives a piece of the log, which the feed takes; the text of what came of it is `log_text::put_text`'s.
#![tactic(auto)]

ghost use Rattle.std.specs.Prelude.{◌+◌, ◌≤◌, length};
ghost use Rattle.rules.specs.Limits.{max_classes};
ghost use Rattle.layout.specs.Layout.{slip_size};
ghost use Rattle.progress.specs.Feed.{feed_size};
ghost use Rattle.log_text.specs.Text.{line_size, cycle_size};
ghost use Rattle.validator.specs.Calls.{buffers};
ghost use Rattle.replay.specs.Texts.{TextOfInput};

use files::{BUF_SIZE, SEEN_SIZE, SHEET_SIZE, SLIP_SIZE};
use layout::{DESK_SIZE, HISTORY_SIZE};
use log_text::TEXT_SIZE;
use outcome::is_answer;
use progress::FEED_SIZE;
use std::io::Read;

// Validates the whole log, and makes the text of what came of it: whether it is an answer, and its size.
fn text_of_input<R: Read>(
    input: &mut R,
    feed: &mut [u8],
    desk: &mut [u8],
    sheet: &mut [u8],
    seen: &mut [u8],
    history: &mut [u8],
    slip: &mut [u8],
    buf: &mut [u8],
    out: &mut [u8],
) -> (bool, usize)
    requires { (feed_size ≤ length feed.old) × (slip_size max_classes ≤ length slip.old) × (line_size + cycle_size ≤ length out.old) }
    ensures { TextOfInput (buffers desk.old sheet.old seen.old history.old slip.old) out.old result.0 out.new result.1 (buffers desk.new sheet.new seen.new history.new slip.new) }
{
    let outcome = files::replay(input, feed, desk, sheet, seen, history, slip, buf);
    let size = log_text::put_text(out, 0, outcome, slip);
    (is_answer(outcome), size)
}

fn main(rt: HostRuntime) {
    let mut feed = [0u8; FEED_SIZE];
    let mut desk = [0u8; DESK_SIZE];
    let mut sheet = [0u8; SHEET_SIZE];
    let mut seen = [0u8; SEEN_SIZE];
    let mut history = [0u8; HISTORY_SIZE];
    let mut slip = [0u8; SLIP_SIZE];
    let mut buf = [0u8; BUF_SIZE];
    let mut out = [0u8; TEXT_SIZE];
    let (answer, size) = text_of_input(
        &mut rt.stdin(),
        &mut feed,
        &mut desk,
        &mut sheet,
        &mut seen,
        &mut history,
        &mut slip,
        &mut buf,
        &mut out,
    );
    files::print(&mut rt.stdout(), &mut rt.stderr(), answer, &out[..size]);
}
