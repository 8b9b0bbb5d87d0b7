// Document 02, i: runs the two logs that its arguments name, and writes what the join of their benches says, or of a log that is not clean what that says by
// itself.
//
// The program is thin: each log is run by `files::replay`, as `replay` runs one, and the texts are `join_text`'s.
#![tactic(auto)]

ghost use Rattle.std.specs.Prelude.{◌+◌, ◌≤◌, length};
ghost use Rattle.rules.specs.Limits.{max_classes};
ghost use Rattle.layout.specs.Layout.{slip_size};
ghost use Rattle.progress.specs.Feed.{feed_size};
ghost use Rattle.log_text.specs.Text.{line_size, cycle_size, Showable};
ghost use Rattle.validator.specs.Calls.{buffers};
ghost use Rattle.files.specs.Replayed.{Replayed};

use files::{BUF_SIZE, SEEN_SIZE, SHEET_SIZE, SLIP_SIZE};
use join_text::is_clean;
use layout::{DESK_SIZE, HISTORY_SIZE};
use log_text::TEXT_SIZE;
use outcome::{Outcome, is_answer};
use progress::FEED_SIZE;
use std::env::Env;
use std::fs::{File, Files};
use std::io::{Read, Write};

// Room for a log's own text behind its name.
const OUT_SIZE: usize = 16 + TEXT_SIZE;

// The system opens no longer path.
const PATH_SIZE: usize = 4096;

// The file that an argument names, if it can be opened. A name that is not UTF-8 names none: std opens no such file.
fn open_log<R: Env + Files>(rt: &R, argument: usize) -> Option<R::File> {
    let mut path = [0u8; PATH_SIZE];
    let n = rt.arg(argument, &mut path).ok()?;
    let path = str::from_utf8(&path[..n]).ok()?;
    File::open(rt, path).ok()
}

// Validates the whole log of a file. Where there is none, no read of it will do.
fn replay_log<R: Read>(
    file: &mut Option<R>,
    feed: &mut [u8],
    desk: &mut [u8],
    sheet: &mut [u8],
    seen: &mut [u8],
    history: &mut [u8],
    slip: &mut [u8],
    buf: &mut [u8],
) -> Outcome
    requires { feed_size ≤ length feed.old }
    ensures { Replayed (buffers desk.old sheet.old seen.old history.old slip.old) result (buffers desk.new sheet.new seen.new history.new slip.new) }
{
    match file {
        Some(file) => files::replay(file, feed, desk, sheet, seen, history, slip, buf),
        None => Outcome::Unread,
    }
}

// Writes what a log says by itself, if it is not clean.
fn tell_own<O: Write, E: Write>(
    to: &mut O,
    err: &mut E,
    answer: bool,
    out: &mut [u8],
    name: &[u8],
    outcome: Outcome,
    slip: &[u8],
)
    requires { (length name.now + (line_size + cycle_size) ≤ length out.old) × (slip_size max_classes ≤ length slip.now) × Showable outcome slip.now }
{
    let size = join_text::put_own(out, name, outcome, slip);
    files::print(to, err, answer, &out[..size]);
}

fn main(rt: HostRuntime) {
    let mut feed = [0u8; FEED_SIZE];
    let mut desk1 = [0u8; DESK_SIZE];
    let mut sheet1 = [0u8; SHEET_SIZE];
    let mut seen1 = [0u8; SEEN_SIZE];
    let mut history = [0u8; HISTORY_SIZE];
    let mut slip1 = [0u8; SLIP_SIZE];
    let mut desk2 = [0u8; DESK_SIZE];
    let mut sheet2 = [0u8; SHEET_SIZE];
    let mut seen2 = [0u8; SEEN_SIZE];
    let mut slip2 = [0u8; SLIP_SIZE];
    let mut desk = [0u8; DESK_SIZE];
    let mut sheet = [0u8; SHEET_SIZE];
    let mut seen = [0u8; SEEN_SIZE];
    let mut slip = [0u8; SLIP_SIZE];
    let mut buf = [0u8; BUF_SIZE];
    let mut out = [0u8; OUT_SIZE];
    let mut log1 = open_log(&rt, 1);
    let one = replay_log(
        &mut log1,
        &mut feed,
        &mut desk1,
        &mut sheet1,
        &mut seen1,
        &mut history,
        &mut slip1,
        &mut buf,
    );
    let mut log2 = open_log(&rt, 2);
    let two = replay_log(
        &mut log2,
        &mut feed,
        &mut desk2,
        &mut sheet2,
        &mut seen2,
        &mut history,
        &mut slip2,
        &mut buf,
    );
    if is_clean(one) & is_clean(two) {
        let size = join_text::tell_join(
            &desk1, &sheet1, &seen1, &desk2, &sheet2, &seen2, &mut desk, &mut sheet, &mut seen,
            &mut slip, &mut out,
        );
        files::print(&mut rt.stdout(), &mut rt.stderr(), true, &out[..size]);
        return;
    }
    let answer = is_answer(one) & is_answer(two);
    let (mut to, mut err) = (rt.stdout(), rt.stderr());
    tell_own(&mut to, &mut err, answer, &mut out, b"log 1: ", one, &slip1);
    tell_own(&mut to, &mut err, answer, &mut out, b"log 2: ", two, &slip2);
}
