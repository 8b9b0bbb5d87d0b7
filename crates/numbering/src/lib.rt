// What an accepted record adds to the numbers: the count in the desk, and those of the pairs at which it draws.
#![tactic(auto)]

ghost use Rattle.std.specs.Prelude.{suc, ◌+◌, ◌<◌, ◌≤◌, length};
ghost use Rattle.rules.specs.Limits.{max_accepted};
ghost use Rattle.layout.specs.Layout.{accepted_at, number_size, desk_size, seen_size, accepted_of};
ghost use Rattle.numbers.specs.Numbers.{NumberPut};
ghost use Rattle.held.specs.Frames.{HeldIn};
ghost use Rattle.numbering.specs.Numbering.{PairNumbered, Numbered};

use held::held_bytes;
use layout::{ACCEPTED_AT, NUMBER_SIZE};
use numbers::{number_at, put_number};
use update::TRY;

// A pair of classes that has no number yet gets one.
pub fn number_pair(seen: &mut [u8], at: usize, number: u32)
    requires { at + number_size ≤ length seen.old }
    ensures { PairNumbered seen.old at number seen.new }
{
    if number_at(seen, at) == 0 {
        put_number(seen, at, number);
    }
}

// Where a pair of classes has no number yet and the acquire draws a dependency, the pair gets the record's number.
pub fn number_pairs(desk: &[u8], seen: &mut [u8], k: usize, frame: usize, class: usize, mode: usize)
    requires { HeldIn desk.now frame k × (seen_size k ≤ length seen.old) × (k ≤ 64) × (class < k) × (accepted_of desk.now < max_accepted) }
    ensures { Numbered desk.now k frame class mode seen.old seen.new }
{
    if mode >= TRY {
        return;
    }
    let number = number_at(desk, ACCEPTED_AT) + 1;
    for held in held_bytes(desk, frame) {
        let held = *held as usize;
        let at = NUMBER_SIZE * ((held % 64) * k + class);
        number_pair(seen, at, number);
    }
}

// One record more is accepted.
pub fn count_record(desk: &mut [u8])
    requires { (desk_size ≤ length desk.old) × (accepted_of desk.old < max_accepted) }
    ensures { NumberPut desk.old accepted_at (suc (accepted_of desk.old)) desk.new }
{
    let accepted = number_at(desk, ACCEPTED_AT);
    put_number(desk, ACCEPTED_AT, accepted + 1);
}
