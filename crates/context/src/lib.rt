// Interrupt context: a core's state, the next-state table, and the bits that a state and a mode set.
#![tactic(auto)]

ghost use Rattle.std.specs.Prelude.{◌≡◌, ◌<◌, IfSome};
ghost use Rattle.rules.specs.Limits.{held_modes, mode_count};
ghost use Rattle.rules.specs.Context.{next_state, frame_of, leaves_handler};
ghost use Rattle.context.specs.Bits.{mark_bits, kind_bits, fresh};
ghost use Rattle.context.specs.States.{state_number, next_number, number_of_frame, event_number, StateBy};

use std::marker::Model;

// A core's frames.
#[derive(Clone, Copy, PartialEq, Eq)]
pub enum Frame {
    Task = 0,
    Soft = 1,
    Hard = 2,
}

// The state of a core, one of nine, by its number.
// Kept: a tuple struct with nine constants, and a table of numbers over them, are the forms that the project has for these (docs/DECISIONS.md, 34).
#[derive(Clone, Copy, PartialEq, Eq)]
pub struct CoreState(u8);

impl Model for CoreState {
    ghost use Rattle.std.specs.Prelude.{ℕ, ◌<◌};

    ghost Value = { ℕ };

    ghost view = { λ s. s.0 };

    ghost invariant = { λ s. s.0 < 9 };

    ghost inverse = { λ n. record { 0 = n } };
}

impl CoreState {
    pub const TASK_BOTH_ON: CoreState = CoreState(0);

    pub const TASK_SOFT_OFF: CoreState = CoreState(1);

    pub const TASK_HARD_OFF: CoreState = CoreState(2);

    pub const TASK_BOTH_OFF: CoreState = CoreState(3);

    pub const SOFT_HARD_ON: CoreState = CoreState(4);

    pub const SOFT_HARD_OFF: CoreState = CoreState(5);

    pub const HARD_OVER_BOTH_ON: CoreState = CoreState(6);

    pub const HARD_OVER_SOFT_OFF: CoreState = CoreState(7);

    pub const HARD_OVER_SOFT: CoreState = CoreState(8);

    // The state of a fresh core.
    pub fn fresh() -> Self
        ensures { result ≡ fresh }
    {
        Self::TASK_BOTH_ON
    }

    // The frame in which it holds locks.
    pub fn frame(self) -> Frame
        ensures { number_of_frame result ≡ frame_of (state_number self) }
    {
        if self.0 < Self::SOFT_HARD_ON.0 {
            return Frame::Task;
        }
        if self.0 < Self::HARD_OVER_BOTH_ON.0 {
            return Frame::Soft;
        }
        Frame::Hard
    }
}

// A byte of the desk that is no state.
#[derive(Clone, Copy)]
pub struct NoState;

impl From<CoreState> for u8 {
    ghost from_gives = { λ s byte. byte ≡ state_number s };

    fn from(state: CoreState) -> u8 {
        state.0
    }
}

impl TryFrom<u8> for CoreState {
    type Error = NoState;

    ghost try_from_gives = { StateBy };

    fn try_from(byte: u8) -> Result<Self, NoState> {
        if byte <= Self::HARD_OVER_SOFT.0 {
            Ok(Self(byte))
        } else {
            Err(NoState)
        }
    }
}

// An interrupt event, by its column in the table.
#[derive(Clone, Copy, PartialEq, Eq)]
pub enum Interrupt {
    HardOn = 0,
    HardOff = 1,
    SoftOn = 2,
    SoftOff = 3,
    EnterSoft = 4,
    ExitSoft = 5,
    EnterHard = 6,
    ExitHard = 7,
}

impl Interrupt {
    // It leaves a handler.
    pub fn leaves_handler(self) -> bool
        ensures { result ≡ leaves_handler (event_number self) }
    {
        matches!(self, Self::ExitSoft | Self::ExitHard)
    }
}

// The states by short names, for the table: task by what is off, soft interrupt, hard interrupt over task and over soft.
const ON: u8 = CoreState::TASK_BOTH_ON.0;

const SO: u8 = CoreState::TASK_SOFT_OFF.0;

const HO: u8 = CoreState::TASK_HARD_OFF.0;

const BO: u8 = CoreState::TASK_BOTH_OFF.0;

const SI: u8 = CoreState::SOFT_HARD_ON.0;

const SX: u8 = CoreState::SOFT_HARD_OFF.0;

const HT: u8 = CoreState::HARD_OVER_BOTH_ON.0;

const HX: u8 = CoreState::HARD_OVER_SOFT_OFF.0;

const HS: u8 = CoreState::HARD_OVER_SOFT.0;

// No state: the event is refused.
const X: u8 = 9;

// A row for each state, a column for each interrupt event: hard on, hard off, soft on, soft off, enter soft, exit soft, enter hard, exit hard.
const NEXT: [[u8; 8]; 9] = [
    [ON, HO, ON, SO, SI, X, HT, X],
    [SO, BO, ON, SO, X, X, HX, X],
    [ON, HO, HO, BO, X, X, X, X],
    [SO, BO, HO, BO, X, X, X, X],
    [SI, SX, X, X, X, ON, HS, X],
    [SI, SX, X, X, X, X, X, X],
    [X, X, X, X, X, X, X, ON],
    [X, X, X, X, X, X, X, SO],
    [X, X, X, X, X, X, X, SI],
];

// The usage marks that a state sets on a held lock of a mode. A try, in the last three columns, has no safe mark.
const MARK_BITS: [[u8; 6]; 9] = [
    [68, 136, 136, 68, 136, 136],
    [4, 8, 8, 4, 8, 8],
    [0, 0, 0, 0, 0, 0],
    [0, 0, 0, 0, 0, 0],
    [20, 24, 40, 4, 8, 8],
    [16, 16, 32, 0, 0, 0],
    [1, 1, 2, 0, 0, 0],
    [1, 1, 2, 0, 0, 0],
    [1, 1, 2, 0, 0, 0],
];

// The kind of the dependency from a held lock of one mode to an acquired lock of another.
const KIND_BITS: [[u8; 3]; 3] = [[2, 2, 1], [8, 8, 4], [8, 8, 4]];

// The state after an interrupt event; none if the event is refused.
pub fn next(state: CoreState, event: Interrupt) -> Option<CoreState>
    ensures number { next_number result ≡ next_state (state_number state) (event_number event) }
    ensures is_state { IfSome result (λ s. state_number s < 9) }
{
    CoreState::try_from(NEXT[state.0 as usize][event as usize]).ok()
}

pub fn mark_bits(state: CoreState, mode: usize) -> u8
    requires { mode < mode_count }
    ensures { result ≡ mark_bits (state_number state) mode }
{
    MARK_BITS[state.0 as usize][mode]
}

pub fn kind_bit(held: usize, acquired: usize) -> u8
    requires { (held < held_modes) × (acquired < held_modes) }
    ensures { result ≡ kind_bits held acquired }
{
    KIND_BITS[held][acquired]
}
