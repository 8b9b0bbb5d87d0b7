// Document 02, i: two benches, one drawing. Joins two open desks of one K, with their sheets, into a third.
#![tactic(auto)]

ghost use Rattle.answers.specs.Numbers.{answer_number};
ghost use Rattle.benches.specs.Benches.{bench};
ghost use Rattle.benches.specs.Code.{bench_of};
ghost use Rattle.joiner.specs.Joining.{Joined};
ghost use Rattle.joiner.specs.Parts.{Ready, DrawnOfBoth};

use answers::{Refusal, Verdict};
use benches::{Bench, refusal};
use conclusion::conclude;
use layout::{CLASSES_AT, DECLARED_AT, MARKS_AT, MAX_CLASSES};
use numbers::word_at;
use opening::fresh_desk;
use uniting::{join_numbers, unite};

// A fresh desk with the declarations and the marks of both benches, and their kinds and numbers.
fn draw(one: Bench, two: Bench, desk: &mut [u8], sheet: &mut [u8], seen: &mut [u8])
    requires { Ready (bench_of one) (bench_of two) desk.old sheet.old seen.old }
    ensures { DrawnOfBoth (bench_of one.entry) (bench_of two.entry) desk.old sheet.old seen.old desk.new sheet.new seen.new }
{
    let classes = one.desk[CLASSES_AT];
    let k = classes as usize;
    let size = k * k;
    fresh_desk(classes, word_at(one.desk, DECLARED_AT), desk);
    unite(one.desk, two.desk, desk, MARKS_AT, MARKS_AT + MAX_CLASSES);
    unite(one.sheet, two.sheet, sheet, 0, size);
    join_numbers(one.seen, two.seen, seen, size);
}

// Joins two benches. The cores of the joined desk are fresh, so that core 0 has no lock to mark, and what is left of the conclusion is the search.
// Kept: the benches come as slices; with two `Bench` parameters `conclude-requires` and `returns` stayed open: of a slice in a struct it isn't known that it has bytes.
pub fn join(
    desk1: &[u8],
    sheet1: &[u8],
    seen1: &[u8],
    desk2: &[u8],
    sheet2: &[u8],
    seen2: &[u8],
    desk: &mut [u8],
    sheet: &mut [u8],
    seen: &mut [u8],
    slip: &mut [u8],
) -> Result<Verdict, Refusal>
    ensures { Joined (bench desk1.now sheet1.now seen1.now) (bench desk2.now sheet2.now seen2.now) desk.old sheet.old seen.old slip.old (answer_number result) desk.new sheet.new seen.new slip.new }
{
    let one = Bench {
        desk: desk1,
        sheet: sheet1,
        seen: seen1,
    };
    let two = Bench {
        desk: desk2,
        sheet: sheet2,
        seen: seen2,
    };
    refusal(one, two, desk.len(), sheet.len(), seen.len(), slip.len())?;
    draw(one, two, desk, sheet, seen);
    Ok(conclude(desk, sheet, seen, slip, 0))
}
