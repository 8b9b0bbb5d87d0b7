// The held locks of a frame, in the bytes of the desk.
#![tactic(auto)]

ghost use Rattle.std.specs.Prelude.{◌≡◌, ◌<◌, ◌≤◌, length};
ghost use Rattle.rules.specs.Limits.{max_depth, mode_count};
ghost use Rattle.layout.specs.Layout.{frame_count, desk_size, depth_of};
ghost use Rattle.held.specs.Frames.{Pushed, HeldBytes, place_number, newest_of, fitting_of, OriginsMoved, Removed};

use layout::{DEPTHS_AT, HELD_AT, HELD_MODES, MAX_DEPTH};
use origins::{origin, put_origin};

// A lock is held in a frame that has room: it is the newest.
pub fn push(desk: &mut [u8], frame: usize, class: u8, mode: u8)
    requires { (desk_size ≤ length desk.old) × (frame < frame_count) × (depth_of desk.old frame < max_depth) × (class < 64) × (mode < mode_count) }
    ensures { Pushed desk.old frame class mode desk.new }
{
    let d = desk[DEPTHS_AT + frame];
    put_origin(desk, MAX_DEPTH * frame + d as usize, mode / HELD_MODES);
    desk[HELD_AT + MAX_DEPTH * frame + d as usize] = class + 64 * (mode % HELD_MODES);
    desk[DEPTHS_AT + frame] = d + 1;
}

// The held bytes of a frame, its oldest lock first.
pub fn held_bytes(desk: &[u8], frame: usize) -> &[u8]
    requires { (desk_size ≤ length desk.now) × (frame < frame_count) × (depth_of desk.now frame ≤ max_depth) }
    ensures { HeldBytes desk.now frame result.now }
{
    let first = HELD_AT + MAX_DEPTH * frame;
    let d = desk[DEPTHS_AT + frame] as usize;
    &desk[first..first + d]
}

// The place of the newest lock of the class in the frame.
fn newest(desk: &[u8], frame: usize, class: u8) -> Option<usize>
    requires { (desk_size ≤ length desk.now) × (frame < frame_count) × (depth_of desk.now frame ≤ max_depth) }
    ensures { place_number result ≡ newest_of desk.now frame class }
{
    held_bytes(desk, frame)
        .iter()
        .rposition(|held| *held % 64 == class)
}

// That place, if the lock there was acquired in this mode and origin: an older one that was does not count.
pub fn fitting(desk: &[u8], frame: usize, class: u8, mode: u8) -> Option<usize>
    requires { (desk_size ≤ length desk.now) × (frame < frame_count) × (depth_of desk.now frame ≤ max_depth) }
    ensures { place_number result ≡ fitting_of desk.now frame class mode }
{
    let p = newest(desk, frame, class)?;
    let held_as = desk[HELD_AT + MAX_DEPTH * frame + p] / 64;
    let tried = origin(desk, MAX_DEPTH * frame + p);
    if mode == held_as + HELD_MODES * tried {
        return Some(p);
    }
    None
}

// The origin bits of a frame behind a place move down one, and that of the last place is 0.
fn move_origins(desk: &mut [u8], frame: usize, at: usize, last: usize)
    requires { (desk_size ≤ length desk.old) × (frame < frame_count) × (at ≤ last) × (last < max_depth) }
    ensures { OriginsMoved desk.old frame at last desk.new }
{
    for p in at..last {
        let next = origin(desk, MAX_DEPTH * frame + p + 1);
        put_origin(desk, MAX_DEPTH * frame + p, next);
    }
    put_origin(desk, MAX_DEPTH * frame + last, 0);
}

// The lock at a place is released: later ones move down one.
pub fn remove(desk: &mut [u8], frame: usize, at: usize)
    requires { (desk_size ≤ length desk.old) × (frame < frame_count) × (depth_of desk.old frame ≤ max_depth) × (at < depth_of desk.old frame) }
    ensures { Removed desk.old frame at desk.new }
{
    let first = HELD_AT + MAX_DEPTH * frame;
    let last = desk[DEPTHS_AT + frame] as usize - 1;
    desk.copy_within(first + at + 1..first + last + 1, first + at);
    desk[first + last] = 0;
    desk[DEPTHS_AT + frame] = last as u8;
    move_origins(desk, frame, at, last);
}
