// The origin bits of the desk: one for each place of a held lock, 1 for a try. Bit i is that of place i % MAX_DEPTH of frame i / MAX_DEPTH.
#![tactic(auto)]

ghost use Rattle.std.specs.Prelude.{◌≡◌, ◌<◌, ◌≤◌, length};
ghost use Rattle.layout.specs.Layout.{place_count, desk_size, origin_bit};
ghost use Rattle.origins.specs.Origins.{DigitPut, OriginPut};

use layout::ORIGINS_AT;

// Origin bit i.
// Kept: a number and no bool, since callers reckon with it: a lock's mode is `held / 64 + TRY * origin`.
pub fn origin(desk: &[u8], i: usize) -> u8
    requires { (desk_size ≤ length desk.now) × (i < place_count) }
    ensures { result ≡ origin_bit desk.now i }
{
    (desk[ORIGINS_AT + i / 8] >> (i % 8) as u32) % 2
}

// A byte with one of its digits put to 0 or 1.
fn with_digit(byte: u8, j: u32, digit: u8) -> u8
    requires { (j < 8) × (digit < 2) }
    ensures { DigitPut byte j digit result }
{
    (byte & !(1u8 << j)) | (digit << j)
}

// Origin bit i becomes 0 or 1; no other bit changes.
pub fn put_origin(desk: &mut [u8], i: usize, digit: u8)
    requires { (desk_size ≤ length desk.old) × (i < place_count) × (digit < 2) }
    ensures { OriginPut desk.old i digit desk.new }
{
    let at = ORIGINS_AT + i / 8;
    desk[at] = with_digit(desk[at], (i % 8) as u32, digit);
}
