// What an accepted record draws in the bytes: lock dependencies and usage marks.
#![tactic(auto)]

ghost use Rattle.std.specs.Prelude.{◌*◌, ◌<◌, ◌≤◌, length};
ghost use Rattle.rules.specs.Limits.{mode_count};
ghost use Rattle.context.specs.States.{state_number};
ghost use Rattle.held.specs.Frames.{HeldIn};
ghost use Rattle.update.specs.Update.{Noted, Drawn, Marked};

use context::{CoreState, kind_bit, mark_bits};
use held::held_bytes;
use layout::{DEPTHS_AT, HELD_AT, HELD_MODES, MARKS_AT, MAX_DEPTH};
use origins::origin;

// The modes from here on are tries: what a try adds to the mode in which its lock is held.
pub const TRY: usize = HELD_MODES as usize;

// A lock dependency to the acquired class from every lock held in the frame; none to a try. Says whether one is new.
pub fn draw(
    desk: &[u8],
    sheet: &mut [u8],
    k: usize,
    frame: usize,
    class: usize,
    mode: usize,
) -> bool
    requires { HeldIn desk.now frame k × (k * k ≤ length sheet.old) × (k ≤ 64) × (class < k) × (mode < mode_count) }
    ensures { Drawn desk.now k frame class mode sheet.old sheet.new × Noted sheet.old sheet.new result }
{
    if TRY <= mode {
        return false;
    }
    let mut changed = false;
    for held in held_bytes(desk, frame) {
        let held = *held as usize;
        let at = (held % 64) * k + class;
        let seen = sheet[at];
        let kinds = seen | kind_bit(held / 64, mode);
        changed |= kinds != seen;
        sheet[at] = kinds;
    }
    changed
}

// Every lock held in the frame is marked by the core's state. Says whether a mark is new.
pub fn mark(desk: &mut [u8], frame: usize, k: usize, context: CoreState) -> bool
    requires { HeldIn desk.old frame k × (k ≤ 64) }
    ensures { Marked desk.old frame (state_number context) desk.new × Noted desk.old desk.new result }
{
    let mut changed = false;
    let d = desk[DEPTHS_AT + frame] as usize;
    // Kept: places, and not the held bytes as a slice, since the loop writes marks in the desk that holds them.
    for p in 0..d {
        let held = desk[HELD_AT + MAX_DEPTH * frame + p] as usize;
        let tried = origin(desk, MAX_DEPTH * frame + p) as usize;
        let at = MARKS_AT + held % 64;
        let seen = desk[at];
        let marks = seen | mark_bits(context, held / 64 + TRY * tried);
        changed |= marks != seen;
        desk[at] = marks;
    }
    changed
}
