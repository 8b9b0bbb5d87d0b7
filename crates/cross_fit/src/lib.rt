// The part of the fit test that looks at crosslocks: those of the desk, and the history.
#![tactic(auto)]

ghost use Rattle.std.specs.Prelude.{◌≡◌, ◌≤◌, length};
ghost use Rattle.rules.specs.Limits.{max_classes, max_kept};
ghost use Rattle.layout.specs.Layout.{desk_size, history_size, classes_of, kept_of};
ghost use Rattle.layout.specs.Fit.{word_fits, cross_fits, entry_fits, entries_fit};

use every::all_below;
use layout::{
    CLASSES_AT, DECLARED_AT, FRAMES, HELD_MODES, KEPT_AT, KEPT_SIZE, MAX_CLASSES, MAX_IN_PROGRESS,
    MAX_KEPT, PROGRESS_AT,
};
use numbers::{number_at, word_at};
use words::{count, without};

// No class of k or more is declared.
pub fn declares_below(k: usize, declared: u64) -> bool
    requires { k ≤ max_classes }
    ensures { result ≡ word_fits k declared }
{
    MAX_CLASSES <= k || declared >> (k as u32) == 0
}

// The crosslocks of the desk: which are declared, which of those are in progress, and how many acquires are kept.
pub fn cross_fits(desk: &[u8]) -> bool
    requires { (desk_size ≤ length desk.now) × (classes_of desk.now ≤ max_classes) }
    ensures { result ≡ cross_fits desk.now }
{
    let declared = word_at(desk, DECLARED_AT);
    let progress = word_at(desk, PROGRESS_AT);
    declares_below(usize::from(desk[CLASSES_AT]), declared)
        && without(progress, declared) == 0
        && count(progress) <= MAX_IN_PROGRESS
        && number_at(desk, KEPT_AT) as usize <= MAX_KEPT
}

// An entry of the history: struck out, or the number of a frame and one, and a held byte.
fn entry_fits(classes: u8, place: u8, held: u8) -> bool
    ensures { result ≡ entry_fits classes place held }
{
    if place == 0 {
        held == 0
    } else {
        usize::from(place) <= FRAMES && held % 64 < classes && held / 64 < HELD_MODES
    }
}

// The entries that are kept. Those behind them are not looked at.
pub fn entries_fit(desk: &[u8], history: &[u8]) -> bool
    requires { (desk_size ≤ length desk.now) × (kept_of desk.now ≤ max_kept) × (history_size ≤ length history.now) }
    ensures { result ≡ entries_fit desk.now history.now }
{
    let classes = desk[CLASSES_AT];
    let kept = number_at(desk, KEPT_AT) as usize;
    all_below(
        kept,
        |i| entry_fits(classes, history[KEPT_SIZE * i], history[KEPT_SIZE * i + 1]),
    )
}
