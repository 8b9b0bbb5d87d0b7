// The layout of the buffers, once for the code. specs/Layout.antt is the same for the definitions.
#![tactic(auto)]

pub const CORES: usize = 8;

pub const MAX_CLASSES: usize = 64;

pub const MAX_DEPTH: usize = 48;

// Modes in which a lock is held, and modes of an acquire and of its release: the same and by a try.
pub const HELD_MODES: u8 = 3;

pub const MODES: u8 = 2 * HELD_MODES;

pub const FRAMES_PER_CORE: usize = 3;

pub const FRAMES: usize = FRAMES_PER_CORE * CORES;

pub const CLASSES_AT: usize = 0;

pub const CLOSED_AT: usize = 1;

pub const STATES_AT: usize = 2;

pub const DEPTHS_AT: usize = STATES_AT + CORES;

pub const MARKS_AT: usize = DEPTHS_AT + FRAMES;

pub const HELD_AT: usize = MARKS_AT + MAX_CLASSES;

// The places for held locks. Each has a byte and an origin bit, 1 for a try; the bits eight to a byte, the lowest first.
const PLACES: usize = MAX_DEPTH * FRAMES;

pub const ORIGINS_AT: usize = HELD_AT + PLACES;

pub const ORIGIN_BYTES: usize = PLACES / 8;

// The count of accepted records, behind the origins.
pub const ACCEPTED_AT: usize = ORIGINS_AT + ORIGIN_BYTES;

// Bytes of a number, the low one first: the count, and the number of each pair in the second sheet and of each entry in the slip.
pub const NUMBER_SIZE: usize = 4;

// The most records that are accepted.
pub const MAX_ACCEPTED: u32 = 4294967295;

// Behind the count the crosslocks: two sets of classes as words, those that are declared and those in progress, how many acquires the history
// keeps, and for each class how many it kept when the crosslock was acquired last.
pub const WORD_SIZE: usize = 2 * NUMBER_SIZE;

pub const DECLARED_AT: usize = ACCEPTED_AT + NUMBER_SIZE;

pub const PROGRESS_AT: usize = DECLARED_AT + WORD_SIZE;

pub const KEPT_AT: usize = PROGRESS_AT + WORD_SIZE;

pub const SINCE_AT: usize = KEPT_AT + NUMBER_SIZE;

pub const DESK_SIZE: usize = SINCE_AT + NUMBER_SIZE * MAX_CLASSES;

// The most crosslocks in progress, and the most acquires in the history. An entry of the history is the number of a frame and one, and a held byte; both
// are 0 when it is struck out.
pub const MAX_IN_PROGRESS: u32 = 16;

pub const MAX_KEPT: usize = 256;

pub const KEPT_SIZE: usize = 2;

pub const HISTORY_SIZE: usize = KEPT_SIZE * MAX_KEPT;

// The slip: a count, and an entry for each dependency of the cycle.
pub const COUNT_AT: usize = 0;

pub const ENTRIES_AT: usize = 1;

// Where the number stands in an entry, behind class, kind and source.
pub const ENTRY_NUMBER_AT: usize = 3;

pub const ENTRY_SIZE: usize = ENTRY_NUMBER_AT + NUMBER_SIZE;
