// Document 01, "Opening": a fresh desk, two empty sheets and an empty history.
#![tactic(auto)]

ghost use Rattle.std.specs.Prelude.{◌≡◌, ℕ, ◌<◌, ◌≤◌, length};
ghost use Rattle.rules.specs.Limits.{core_count};
ghost use Rattle.rules.specs.Context.{task_both_on};
ghost use Rattle.layout.specs.Layout.{desk_size, state_of};
ghost use Rattle.answers.specs.Numbers.{refused_number};
ghost use Rattle.opening.specs.Open.{opened_desk, Opened};

use answers::Refusal;
use context::CoreState;
use cross_fit::declares_below;
use layout::{
    CLASSES_AT, CORES, DECLARED_AT, DESK_SIZE, HISTORY_SIZE, MAX_CLASSES, NUMBER_SIZE, STATES_AT,
};
use numbers::put_word;

// Every core of a zeroed desk is fresh: this changes no byte, since the fresh state is 0.
fn seat_cores(desk: &mut [u8])
    requires { (desk_size ≤ length desk.old) × ((i : ℕ) → i < core_count → state_of desk.old i ≡ task_both_on) }
    ensures { desk.new ≡ desk.old }
{
    for i in 0..CORES {
        desk[STATES_AT + i] = u8::from(CoreState::fresh());
    }
}

// A fresh desk for so many classes, of which these are declared crosslocks.
pub fn fresh_desk(classes: u8, declared: u64, desk: &mut [u8])
    requires { desk_size ≤ length desk.old }
    ensures { desk.new ≡ opened_desk classes declared desk.old }
{
    desk[..DESK_SIZE].fill(0);
    seat_cores(desk);
    desk[CLASSES_AT] = classes;
    put_word(desk, DECLARED_AT, declared);
}

// The number of classes is wide, so that one past 255 is refused and not cut.
pub fn open(
    classes: u64,
    declared: u64,
    desk: &mut [u8],
    sheet: &mut [u8],
    seen: &mut [u8],
    history: &mut [u8],
) -> Result<(), Refusal>
    ensures { Opened classes declared desk.old sheet.old seen.old history.old (refused_number result) desk.new sheet.new seen.new history.new }
{
    let k = classes as usize;
    if k < 1 || MAX_CLASSES < k || !declares_below(k, declared) {
        return Err(Refusal::BadOpening);
    }
    let size = k * k;
    let numbers = NUMBER_SIZE * size;
    if desk.len() < DESK_SIZE
        || sheet.len() < size
        || seen.len() < numbers
        || history.len() < HISTORY_SIZE
    {
        return Err(Refusal::BadOpening);
    }
    fresh_desk(k as u8, declared, desk);
    sheet[..size].fill(0);
    seen[..numbers].fill(0);
    history[..HISTORY_SIZE].fill(0);
    Ok(())
}
