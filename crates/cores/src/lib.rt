// The frame in which a core holds locks, and what the bytes of a core say.
#![tactic(auto)]

ghost use Rattle.std.specs.Prelude.{◌≡◌, ◌<◌, ◌≤◌, length};
ghost use Rattle.rules.specs.Context.{frame_of};
ghost use Rattle.rules.specs.Limits.{core_count};
ghost use Rattle.context.specs.States.{state_number};
ghost use Rattle.layout.specs.Layout.{desk_size, frame_number, state_of};

use context::CoreState;
use layout::{FRAMES_PER_CORE, STATES_AT};

// The state of a core.
pub fn state_of(desk: &[u8], core: usize) -> CoreState
    requires { (desk_size ≤ length desk.now) × (core < core_count) × (state_of desk.now core < 9) }
    ensures { state_number result ≡ state_of desk.now core }
{
    CoreState::try_from(desk[STATES_AT + core]).unwrap()
}

// The number of the frame in which a core holds locks now.
pub fn frame_of(desk: &[u8], core: usize) -> usize
    requires { (desk_size ≤ length desk.now) × (core < core_count) × (state_of desk.now core < 9) }
    ensures { result ≡ frame_number core (frame_of (state_of desk.now core)) }
{
    FRAMES_PER_CORE * core + state_of(desk, core).frame() as usize
}
