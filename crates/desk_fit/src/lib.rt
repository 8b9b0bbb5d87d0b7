// The part of the fit test of document 01 that looks at the desk: cores, frames, origins, usage marks.
#![tactic(auto)]

ghost use Rattle.std.specs.Prelude.{◌≡◌, ◌&&◌, ◌||◌, ◌<◌, ◌≤◌, ◌*◌, ◌/◌, ◌%◌, leb, eqb, length};
ghost use Rattle.rules.specs.Limits.{core_count, max_classes, max_depth};
ghost use Rattle.rules.specs.Context.{may_hold_soft, may_hold_hard};
ghost use Rattle.layout.specs.Layout.{frame_count, place_count, origin_bytes, desk_size};
ghost use Rattle.layout.specs.Fit.{all_below, core_fits, held_fits, frame_fits, origin_fits, mark_fits};
ghost use Rattle.context.specs.States.{state_number};
ghost use Rattle.desk_fit.specs.Empty.{empty_at, no_try_in, byte_fits};

use context::{CoreState, Frame};
use every::all_below;
use layout::{
    CORES, DEPTHS_AT, FRAMES, FRAMES_PER_CORE, HELD_AT, HELD_MODES, MARKS_AT, MAX_CLASSES,
    MAX_DEPTH, ORIGIN_BYTES, ORIGINS_AT, STATES_AT,
};
use origins::origin;

// The soft frame is empty, or the core's state is one in which it may hold locks.
fn soft_fits(depth: u8, state: CoreState) -> bool
    ensures { result ≡ (eqb depth 0 || may_hold_soft (state_number state)) }
{
    depth == 0
        || state == CoreState::SOFT_HARD_ON
        || state == CoreState::SOFT_HARD_OFF
        || state == CoreState::HARD_OVER_SOFT
}

// The same of the hard frame.
fn hard_fits(depth: u8, state: CoreState) -> bool
    ensures { result ≡ (eqb depth 0 || may_hold_hard (state_number state)) }
{
    depth == 0 || state.frame() == Frame::Hard
}

fn core_fits(desk: &[u8], i: usize) -> bool
    requires { (i < core_count) × (desk_size ≤ length desk.now) }
    ensures { result ≡ core_fits desk.now i }
{
    match CoreState::try_from(desk[STATES_AT + i]) {
        Ok(state) => {
            soft_fits(
                desk[DEPTHS_AT + (FRAMES_PER_CORE * i + Frame::Soft as usize)],
                state,
            ) && hard_fits(
                desk[DEPTHS_AT + (FRAMES_PER_CORE * i + Frame::Hard as usize)],
                state,
            )
        }
        Err(_) => false,
    }
}

pub fn cores_fit(desk: &[u8]) -> bool
    requires { desk_size ≤ length desk.now }
    ensures { result ≡ all_below core_count (core_fits desk.now) }
{
    all_below(CORES, |i| core_fits(desk, i))
}

fn held_fits(classes: u8, standing: bool, byte: u8) -> bool
    ensures { result ≡ held_fits classes standing byte }
{
    if standing {
        byte % 64 < classes && byte / 64 < HELD_MODES
    } else {
        byte == 0
    }
}

// A frame with no lock held: its bytes are zero. Most frames are such, and this test is the quicker one.
fn empty_frame_fits(desk: &[u8], n: usize) -> bool
    requires { (n < frame_count) × (desk_size ≤ length desk.now) }
    ensures { result ≡ all_below max_depth (empty_at desk.now n) }
{
    all_below(MAX_DEPTH, |p| desk[HELD_AT + MAX_DEPTH * n + p] == 0)
}

#[tactic(auto, unfolding(layout::specs::Fit::frame_fits))]
fn used_frame_fits(classes: u8, desk: &[u8], n: usize) -> bool
    requires { (n < frame_count) × (desk_size ≤ length desk.now) }
    ensures { result ≡ frame_fits classes desk.now n }
{
    let depth = usize::from(desk[DEPTHS_AT + n]);
    depth <= MAX_DEPTH
        && all_below(
            MAX_DEPTH,
            |p| held_fits(classes, p < depth, desk[HELD_AT + MAX_DEPTH * n + p]),
        )
}

fn frame_fits(classes: u8, desk: &[u8], n: usize) -> bool
    requires { (n < frame_count) × (desk_size ≤ length desk.now) }
    ensures { result ≡ frame_fits classes desk.now n }
{
    if desk[DEPTHS_AT + n] == 0 {
        empty_frame_fits(desk, n)
    } else {
        used_frame_fits(classes, desk, n)
    }
}

pub fn frames_fit(classes: u8, desk: &[u8]) -> bool
    requires { desk_size ≤ length desk.now }
    ensures { result ≡ all_below frame_count (frame_fits classes desk.now) }
{
    all_below(FRAMES, |n| frame_fits(classes, desk, n))
}

// Most desks hold no try: their origin bytes are all 0, and this test is the quicker one.
fn no_tries(desk: &[u8]) -> bool
    requires { desk_size ≤ length desk.now }
    ensures { result ≡ all_below origin_bytes (no_try_in desk.now) }
{
    all_below(ORIGIN_BYTES, |b| desk[ORIGINS_AT + b] == 0)
}

#[tactic(auto, unfolding(layout::specs::Fit::origin_fits))]
fn origin_fits(desk: &[u8], i: usize) -> bool
    requires { (i < place_count) × (desk_size ≤ length desk.now) }
    ensures { result ≡ origin_fits desk.now i }
{
    origin(desk, i) == 0 || i % MAX_DEPTH < usize::from(desk[DEPTHS_AT + i / MAX_DEPTH])
}

// The eight bits of one byte.
fn byte_fits(desk: &[u8], b: usize) -> bool
    requires { (b < origin_bytes) × (desk_size ≤ length desk.now) }
    ensures { result ≡ byte_fits desk.now b }
{
    desk[ORIGINS_AT + b] == 0 || all_below(8, |j| origin_fits(desk, 8 * b + j))
}

fn bytes_fit(desk: &[u8]) -> bool
    requires { desk_size ≤ length desk.now }
    ensures { result ≡ all_below origin_bytes (byte_fits desk.now) }
{
    all_below(ORIGIN_BYTES, |b| byte_fits(desk, b))
}

pub fn origins_fit(desk: &[u8]) -> bool
    requires { desk_size ≤ length desk.now }
    ensures { result ≡ all_below place_count (origin_fits desk.now) }
{
    no_tries(desk) || bytes_fit(desk)
}

// Bit 64 of a mark byte needs bit 4, and 128 needs 8.
fn unsafe_fits(mark: u8) -> bool
    ensures { result ≡ (leb (mark / 64 % 2) (mark / 4 % 2) && leb (mark / 128 % 2) (mark / 8 % 2)) }
{
    mark / 64 % 2 <= mark / 4 % 2 && mark / 128 % 2 <= mark / 8 % 2
}

#[tactic(auto, unfolding(layout::specs::Fit::mark_fits))]
fn used_marks_fit(classes: usize, desk: &[u8]) -> bool
    requires { (classes ≤ max_classes) × (desk_size ≤ length desk.now) }
    ensures { result ≡ all_below classes (mark_fits classes desk.now) }
{
    all_below(classes, |c| unsafe_fits(desk[MARKS_AT + c]))
}

// The classes from K on have no mark.
pub fn marks_fit(classes: usize, desk: &[u8]) -> bool
    requires { (classes ≤ max_classes) × (desk_size ≤ length desk.now) }
    ensures { result ≡ all_below max_classes (mark_fits classes desk.now) }
{
    used_marks_fit(classes, desk)
        && all_below(
            MAX_CLASSES - classes,
            |c| desk[MARKS_AT + (classes + c)] == 0,
        )
}
