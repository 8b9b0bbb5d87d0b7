// The history: the acquires that are kept while a crosslock is in progress, and what a commit draws to them.
#![tactic(auto)]

ghost use Rattle.std.specs.Prelude.{◌≡◌, suc, ◌*◌, ◌<◌, ◌≤◌, length, MatchOption};
ghost use Rattle.rules.specs.Limits.{max_accepted, max_kept, mode_count};
ghost use Rattle.layout.specs.Layout.{frame_count, desk_size, history_size, seen_size, accepted_of, kept_of, place_of, lock_of};
ghost use Rattle.history.specs.Histories.{HistoryRoom, KeptIn, EntryStruck, Struck, EntriesIn, CommitDrawn, CommitNumbered};

use context::kind_bit;
use crosslocks::is_idle;
use layout::{ACCEPTED_AT, HELD_MODES, KEPT_AT, KEPT_SIZE, NUMBER_SIZE, SINCE_AT};
use numbering::number_pair;
use numbers::{number_at, put_number};

// How many acquires are kept, and how many were when a crosslock was acquired last.
fn kept_of(desk: &[u8]) -> usize
    requires { desk_size ≤ length desk.now }
    ensures { result ≡ kept_of desk.now }
{
    number_at(desk, KEPT_AT) as usize
}

fn since_of(desk: &[u8], class: usize) -> usize
    requires { (desk_size ≤ length desk.now) × (class < 64) }
    ensures { result ≡ Rattle.layout.specs.Layout.since_of desk.now class }
{
    number_at(desk, SINCE_AT + NUMBER_SIZE * class) as usize
}

// Keeps an acquire, if a crosslock is in progress and it is no try.
pub fn keep(desk: &mut [u8], history: &mut [u8], frame: usize, class: u8, mode: u8)
    requires { (desk_size ≤ length desk.old) × HistoryRoom desk.old history.old mode × (frame < frame_count) × (class < 64) × (mode < mode_count) }
    ensures { KeptIn desk.old history.old frame class mode desk.new history.new }
{
    if HELD_MODES <= mode || is_idle(desk) {
        return;
    }
    let kept = number_at(desk, KEPT_AT);
    let at = KEPT_SIZE * (kept as usize);
    history[at] = frame as u8 + 1;
    history[at + 1] = class + 64 * mode;
    put_number(desk, KEPT_AT, kept + 1);
}

// Strikes out an entry of a frame.
fn strike_entry(history: &mut [u8], i: usize, frame: usize)
    requires { (i < max_kept) × (history_size ≤ length history.old) × (frame < frame_count) }
    ensures { EntryStruck history.old i frame history.new }
{
    let at = KEPT_SIZE * i;
    if history[at] as usize == frame + 1 {
        history[at] = 0;
        history[at + 1] = 0;
    }
}

// A handler is left: what was acquired in its frame no longer counts.
pub fn strike(desk: &[u8], history: &mut [u8], frame: usize)
    requires { (desk_size ≤ length desk.now) × (kept_of desk.now ≤ max_kept) × (history_size ≤ length history.old) × (frame < frame_count) }
    ensures { Struck (kept_of desk.now) history.old frame history.new }
{
    for i in 0..kept_of(desk) {
        strike_entry(history, i, frame);
    }
}

// The lock of an entry, if that is of the frame.
fn lock_in(history: &[u8], i: usize, frame: usize) -> Option<usize>
    requires { (i < max_kept) × (history_size ≤ length history.now) × (frame < frame_count) }
    ensures { MatchOption result (place_of history.now i ≡ suc frame → ⊥) (λ held. (place_of history.now i ≡ suc frame) × (held ≡ lock_of history.now i)) }
{
    let entry = KEPT_SIZE * i;
    if history[entry] as usize == frame + 1 {
        return Some(history[entry + 1] as usize);
    }
    None
}

// A commit draws a dependency from the crosslock to each acquire of the frame that was kept since.
pub fn draw_commit(
    desk: &[u8],
    history: &[u8],
    sheet: &mut [u8],
    k: usize,
    frame: usize,
    class: usize,
)
    requires { (desk_size ≤ length desk.now) × (kept_of desk.now ≤ max_kept) × EntriesIn (kept_of desk.now) history.now k × (k * k ≤ length sheet.old) × (k ≤ 64) × (class < k) × (frame < frame_count) }
    ensures { CommitDrawn desk.now history.now k frame class sheet.old sheet.new }
{
    for i in since_of(desk, class)..kept_of(desk) {
        if let Some(held) = lock_in(history, i, frame) {
            let at = class * k + held % 64;
            sheet[at] |= kind_bit(0, held / 64);
        }
    }
}

// The pairs at which a commit draws get numbers.
// Kept: two walks, of two lines each. One for both would take a closure that changes a buffer, with clauses longer than the walk.
pub fn number_commit(
    desk: &[u8],
    history: &[u8],
    seen: &mut [u8],
    k: usize,
    frame: usize,
    class: usize,
)
    requires { (desk_size ≤ length desk.now) × (kept_of desk.now ≤ max_kept) × EntriesIn (kept_of desk.now) history.now k × (seen_size k ≤ length seen.old) × (k ≤ 64) × (class < k) × (frame < frame_count) × (accepted_of desk.now < max_accepted) }
    ensures { CommitNumbered desk.now history.now k frame class seen.old seen.new }
{
    let number = number_at(desk, ACCEPTED_AT) + 1;
    for i in since_of(desk, class)..kept_of(desk) {
        if let Some(held) = lock_in(history, i, frame) {
            let at = NUMBER_SIZE * (class * k + held % 64);
            number_pair(seen, at, number);
        }
    }
}
