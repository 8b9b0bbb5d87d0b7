// The fit test of document 01: whether desk and both sheets are such as opening and steps leave.
#![tactic(auto)]

ghost use Rattle.std.specs.Prelude.{◌≡◌, ◌≤◌, ◌*◌, length};
ghost use Rattle.rules.specs.Limits.{max_classes};
ghost use Rattle.layout.specs.Layout.{sheet_size, number_size};
ghost use Rattle.layout.specs.Fit.{all_below, kinds_fit, graph_fits, number_fits};

use cross_fit::cross_fits;
use desk_fit::{cores_fit, frames_fit, marks_fit, origins_fit};
use every::all_below;
use layout::{CLASSES_AT, CLOSED_AT, DESK_SIZE, MAX_CLASSES, NUMBER_SIZE};
use numbers::number_at;

const ALL_KINDS: u8 = 15;

fn kinds_fit(sheet: &[u8], size: usize) -> bool
    requires { size ≤ length sheet.now }
    ensures { result ≡ all_below size (kinds_fit sheet.now) }
{
    all_below(size, |j| sheet[j] <= ALL_KINDS)
}

// All but the numbers of the second sheet.
#[tactic(auto, unfolding(layout::specs::Fit::graph_fits))]
fn graph_fits(desk: &[u8], sheet: &[u8]) -> bool
    ensures { result ≡ graph_fits desk.now sheet.now }
{
    if desk.len() < DESK_SIZE {
        return false;
    }
    let classes = desk[CLASSES_AT];
    let k = usize::from(classes);
    1 <= k
        && k <= MAX_CLASSES
        && k * k <= sheet.len()
        && desk[CLOSED_AT] <= 1
        && cores_fit(desk)
        && frames_fit(classes, desk)
        && origins_fit(desk)
        && marks_fit(k, desk)
        && kinds_fit(sheet, k * k)
}

// Each pair of the second sheet has a number exactly where the sheet has kinds. The test has no branch, so that the compiler makes vector instructions of it.
#[tactic(auto, unfolding(layout::specs::Fit::number_fits))]
fn numbers_fit(sheet: &[u8], seen: &[u8], size: usize) -> bool
    requires { (size ≤ length sheet.now) × (number_size * size ≤ length seen.now) × (size ≤ sheet_size max_classes) }
    ensures { result ≡ all_below size (number_fits sheet.now seen.now) }
{
    all_below(
        size,
        |j| (number_at(seen, NUMBER_SIZE * j) == 0) == (sheet[j] == 0),
    )
}

#[tactic(auto, unfolding(layout::specs::Fit::fits, layout::specs::Fit::numbers_fit))]
pub fn fits(desk: &[u8], sheet: &[u8], seen: &[u8]) -> bool
    ensures { result ≡ Rattle.layout.specs.Fit.fits desk.now sheet.now seen.now }
{
    if !graph_fits(desk, sheet) || !cross_fits(desk) {
        return false;
    }
    let k = usize::from(desk[CLASSES_AT]);
    let size = k * k;
    NUMBER_SIZE * size <= seen.len() && numbers_fit(sheet, seen, size)
}
