// The text of the balances of a piece.
#![tactic(auto)]

ghost use Rattle.std.specs.Prelude.{◌≡◌, ◌+◌, ◌<◌, ◌≤◌, pos, length, get_or};
ghost use Rattle.rules.specs.Limits.{max_classes};
ghost use Rattle.log_text.specs.Text.{Appended};
ghost use Rattle.balance.specs.Code.{Room};
ghost use Rattle.balance_text.specs.Text.{signed_text, lines_below, piece_text, signed_room, line_room, text_room, LinePut};

use layout::MAX_CLASSES;
use log_text::Text;

// Room for the longest text: a line for each class.
pub const TEXT_SIZE: usize = 32 * MAX_CLASSES;

// A number's digits, behind a minus where it is below zero.
fn put_signed(text: &mut Text<'_>, z: i32)
    requires { text.old.end + signed_room ≤ length text.old.out.now }
    ensures same { text.new.out.ghost_name ≡ text.old.out.ghost_name }
    ensures put { Appended text.old.out.now text.old.end (signed_text z) text.new.out.now text.new.end }
{
    let size = u64::from(z.unsigned_abs());
    if z < 0 {
        text.put_word(b"-");
    }
    text.put_number(size);
}

// A class and its balance, as "9 -1"; nothing where it is 0.
fn put_line(text: &mut Text<'_>, class: u64, balance: i32)
    requires { (text.old.end + line_room ≤ length text.old.out.now) × (class < max_classes) }
    ensures same { text.new.out.ghost_name ≡ text.old.out.ghost_name }
    ensures put { LinePut text.old.out.now text.old.end class balance text.new.out.now text.new.end }
{
    if balance == 0 {
        return;
    }
    text.put_number(class);
    text.put_word(b" ");
    put_signed(text, balance);
    text.put_word(b"\n");
}

// The lines of all classes, the lowest first.
fn put_balances(text: &mut Text<'_>, balances: &[i32; MAX_CLASSES])
    requires { (text.old.end + text_room ≤ length text.old.out.now) × Room balances.now }
    ensures same { text.new.out.ghost_name ≡ text.old.out.ghost_name }
    ensures put { Appended text.old.out.now text.old.end (lines_below max_classes (λ c. get_or balances.now c (pos 0))) text.new.out.now text.new.end }
{
    for (class, balance) in balances.iter().enumerate() {
        put_line(text, class as u64, *balance);
    }
}

// What a piece says: its balances, or that it is refused.
fn put_piece(text: &mut Text<'_>, piece: &[u8])
    requires { text.old.end + text_room ≤ length text.old.out.now }
    ensures same { text.new.out.ghost_name ≡ text.old.out.ghost_name }
    ensures put { Appended text.old.out.now text.old.end (piece_text piece.now) text.new.out.now text.new.end }
{
    let mut balances = [0i32; MAX_CLASSES];
    if let Err(refusal) = balance::balance_of(piece, &mut balances) {
        text.put_refusal(refusal.number());
        return;
    }
    put_balances(text, &balances);
}

// The text of a piece.
pub fn put_text(out: &mut [u8], piece: &[u8]) -> usize
    requires { text_room ≤ length out.old }
    ensures { Appended out.old 0 (piece_text piece.now) out.new result }
{
    let mut text = Text { out, end: 0 };
    put_piece(&mut text, piece);
    text.end
}
