// Document 02, i: when two benches, each a desk with its two sheets, are not joined.
#![tactic(auto)]

ghost use Rattle.std.specs.Prelude.{◌≡◌, ◌≤◌, length};
ghost use Rattle.rules.specs.Limits.{max_classes};
ghost use Rattle.layout.specs.Layout.{desk_size};
ghost use Rattle.answers.specs.Numbers.{refused_number};
ghost use Rattle.benches.specs.Benches.{bench_fits, bench_classes, is_closed, same_classes, has_room, join_refusal};
ghost use Rattle.benches.specs.Code.{bench_of};

use answers::Refusal;
use fit::fits;
use layout::{CLASSES_AT, CLOSED_AT, DECLARED_AT, DESK_SIZE, ENTRIES_AT, ENTRY_SIZE, NUMBER_SIZE};
use numbers::word_at;

// A desk with its two sheets. It is only read.
#[derive(Clone, Copy)]
pub struct Bench<'a> {
    pub desk: &'a [u8],
    pub sheet: &'a [u8],
    pub seen: &'a [u8],
}

impl<'a> Bench<'a> {
    fn fits(self) -> bool
        ensures { result ≡ bench_fits (bench_of self.entry) }
    {
        fits(self.desk, self.sheet, self.seen)
    }

    fn classes(self) -> usize
        requires { desk_size ≤ length self.desk.now }
        ensures { result ≡ bench_classes (bench_of self.entry) }
    {
        self.desk[CLASSES_AT] as usize
    }

    fn is_closed(self) -> bool
        requires { desk_size ≤ length self.desk.now }
        ensures { result ≡ is_closed (bench_of self.entry) }
    {
        self.desk[CLOSED_AT] == 1
    }
}

// Whether buffers of these lengths can be written for k classes.
#[tactic(auto, unfolding(crate::specs::Benches::has_room))]
fn has_room(k: usize, desk: usize, sheet: usize, seen: usize, slip: usize) -> bool
    requires { k ≤ max_classes }
    ensures { result ≡ has_room k desk sheet seen slip }
{
    let size = k * k;
    DESK_SIZE <= desk
        && size <= sheet
        && NUMBER_SIZE * size <= seen
        && ENTRIES_AT + ENTRY_SIZE * k <= slip
}

// Whether two desks have as many classes, and the same of them declared crosslocks.
#[tactic(auto, unfolding(crate::specs::Benches::same_classes))]
fn same_classes(desk1: &[u8], desk2: &[u8]) -> bool
    requires { (desk_size ≤ length desk1.now) × (desk_size ≤ length desk2.now) }
    ensures { result ≡ same_classes desk1.now desk2.now }
{
    desk1[CLASSES_AT] == desk2[CLASSES_AT]
        && word_at(desk1, DECLARED_AT) == word_at(desk2, DECLARED_AT)
}

// Whether two benches are not joined. The four lengths are those of the buffers to be written.
#[tactic(auto, unfolding(crate::specs::Benches::join_refusal, crate::specs::Benches::join_unfit))]
pub fn refusal(
    one: Bench,
    two: Bench,
    desk: usize,
    sheet: usize,
    seen: usize,
    slip: usize,
) -> Result<(), Refusal>
    ensures { refused_number result ≡ join_refusal (bench_of one.entry) (bench_of two.entry) desk sheet seen slip }
{
    if !one.fits() || !two.fits() {
        return Err(Refusal::Unfit);
    }
    let k1 = one.classes();
    let k2 = two.classes();
    if !has_room(k1.max(k2), desk, sheet, seen, slip) {
        return Err(Refusal::Unfit);
    }
    if !same_classes(one.desk, two.desk) {
        return Err(Refusal::OtherClasses);
    }
    if one.is_closed() || two.is_closed() {
        return Err(Refusal::BenchClosed);
    }
    Ok(())
}
