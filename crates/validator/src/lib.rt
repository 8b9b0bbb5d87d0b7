// The step: one record over the lent buffers.
#![tactic(auto)]

ghost use Rattle.answers.specs.Numbers.{answer_number};
ghost use Rattle.validator.specs.Step.{Stepped};

use action::act;
use answers::{Refusal, Verdict};
use conclusion::conclude;
use cross_fit::entries_fit;
use fit::fits;
use layout::{CLASSES_AT, CLOSED_AT, ENTRIES_AT, ENTRY_SIZE, HISTORY_SIZE};
use numbering::count_record;
use record::{CORE_AT, is_malformed};

// Validates one record.
// Kept: five lent buffers side by side, here and in the calls above and below: with a struct of `&mut` slices each function would have to promise, a field at a
// time, that it holds the same reference.
pub fn step(
    desk: &mut [u8],
    sheet: &mut [u8],
    seen: &mut [u8],
    history: &mut [u8],
    slip: &mut [u8],
    bytes: &[u8],
) -> Result<Verdict, Refusal>
    ensures { Stepped desk.old sheet.old seen.old history.old slip.old bytes.now (answer_number result) desk.new sheet.new seen.new history.new slip.new }
{
    if !fits(desk, sheet, seen)
        || history.len() < HISTORY_SIZE
        || !entries_fit(desk, history)
        || slip.len() < ENTRIES_AT + ENTRY_SIZE * (desk[CLASSES_AT] as usize)
    {
        return Err(Refusal::Unfit);
    }
    if desk[CLOSED_AT] == 1 {
        return Err(Refusal::Closed);
    }
    if is_malformed(bytes) {
        return Err(Refusal::Malformed);
    }
    act(desk, sheet, seen, history, bytes)?;
    count_record(desk);
    Ok(conclude(desk, sheet, seen, slip, bytes[CORE_AT] as usize))
}
