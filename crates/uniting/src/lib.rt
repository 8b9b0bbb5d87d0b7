// Document 02, i: the bytes and the numbers of two benches joined.
#![tactic(auto)]

ghost use Rattle.std.specs.Prelude.{◌≡◌, ◌*◌, ◌≤◌, length};
ghost use Rattle.rules.specs.Limits.{max_classes};
ghost use Rattle.rules.specs.Join.{first_or};
ghost use Rattle.layout.specs.Layout.{number_size, sheet_size};
ghost use Rattle.uniting.specs.United.{United, NumbersJoined};

use layout::NUMBER_SIZE;
use numbers::{number_at, put_number};

// The bytes from `at` up to `end` get the bits of either bench: marks, and kinds.
pub fn unite(one: &[u8], two: &[u8], joined: &mut [u8], at: usize, end: usize)
    requires { (at ≤ end) × (end ≤ length one.now) × (end ≤ length two.now) × (end ≤ length joined.old) }
    ensures { United one.now two.now at end joined.old joined.new }
{
    for j in at..end {
        joined[j] = one[j] | two[j];
    }
}

// A pair's number: the first bench's, or the second's where that has none.
fn first_or(one: u32, two: u32) -> u32
    ensures { result ≡ first_or one two }
{
    if one == 0 { two } else { one }
}

// The numbers of so many pairs.
pub fn join_numbers(one: &[u8], two: &[u8], joined: &mut [u8], pairs: usize)
    requires { (pairs ≤ sheet_size max_classes) × (number_size * pairs ≤ length one.now) × (number_size * pairs ≤ length two.now) × (number_size * pairs ≤ length joined.old) }
    ensures { NumbersJoined one.now two.now pairs joined.old joined.new }
{
    for j in 0..pairs {
        let at = NUMBER_SIZE * j;
        let first = number_at(one, at);
        let second = number_at(two, at);
        put_number(joined, at, first_or(first, second));
    }
}
