// What a well-formed record does to fit buffers: it is refused with nothing changed, or its core, frame, crosslocks and lock dependencies are updated.
#![tactic(auto)]

ghost use Rattle.std.specs.Prelude.{◌≡◌, List, ℕ, ◌+◌, ◌≤◌, length};
ghost use Rattle.rules.specs.Context.{leaves_handler};
ghost use Rattle.rules.specs.Record.{kind_of};
ghost use Rattle.rules.specs.WellFormed.{WellFormed};
ghost use Rattle.layout.specs.Layout.{desk_size, sheet_size, seen_size, classes_of};
ghost use Rattle.context.specs.States.{state_number, event_number};
ghost use Rattle.cores.specs.Cores.{Cored};
ghost use Rattle.answers.specs.Numbers.{refused_number};
ghost use Rattle.acting.specs.Action.{Acted, Crossed, no_room_for};
ghost use Rattle.action.specs.Leaving.{Leaving};
ghost use Rattle.action.specs.Locks.{not_lock};

use acting::is_full;
use answers::Refusal;
use context::{CoreState, Interrupt, next};
use cores::{frame_of, state_of};
use crossing::cross;
use crosslocks::{is_declared, is_history_full, is_idle};
use held::{fitting, push, remove};
use history::{keep, strike};
use layout::{CLASSES_AT, DEPTHS_AT, HELD_MODES, MAX_DEPTH, STATES_AT};
use numbering::number_pairs;
use record::{CLASS_AT, CORE_AT, Kind, MODE_AT, kind_of};
use update::draw;

// The refusals that an acquire and a release may both meet: 4, then 15.
fn not_lock(desk: &[u8], class: u8) -> Result<(), Refusal>
    requires { Cored desk.now }
    ensures { refused_number result ≡ not_lock desk.now class }
{
    if desk[CLASSES_AT] <= class {
        return Err(Refusal::NoClass);
    }
    if is_declared(desk, class) {
        return Err(Refusal::WrongSort);
    }
    Ok(())
}

// No room for an acquire that is to be kept.
fn no_room(desk: &[u8], mode: u8) -> bool
    requires { desk_size ≤ length desk.now }
    ensures { result ≡ no_room_for desk.now mode }
{
    mode < HELD_MODES && !is_idle(desk) && is_history_full(desk)
}

fn acquire(
    desk: &mut [u8],
    sheet: &mut [u8],
    seen: &mut [u8],
    history: &mut [u8],
    bytes: &[u8],
) -> Result<(), Refusal>
    requires { Cored desk.old × (sheet_size (classes_of desk.old) ≤ length sheet.old) × (seen_size (classes_of desk.old) ≤ length seen.old) × WellFormed bytes.now × Crossed desk.old history.old × (kind_of bytes.now ≡ 0) }
    ensures { Acted desk.old sheet.old seen.old history.old bytes.now (refused_number result) desk.new sheet.new seen.new history.new }
{
    let class = bytes[CLASS_AT];
    not_lock(desk, class)?;
    let frame = frame_of(desk, bytes[CORE_AT] as usize);
    if MAX_DEPTH <= desk[DEPTHS_AT + frame] as usize {
        return Err(Refusal::TooDeep);
    }
    let mode = bytes[MODE_AT];
    if no_room(desk, mode) {
        return Err(Refusal::HistoryFull);
    }
    if is_full(desk) {
        return Err(Refusal::CountFull);
    }
    let k = desk[CLASSES_AT] as usize;
    draw(desk, sheet, k, frame, class as usize, mode as usize);
    number_pairs(desk, seen, k, frame, class as usize, mode as usize);
    push(desk, frame, class, mode);
    keep(desk, history, frame, class, mode);
    Ok(())
}

fn release(desk: &mut [u8], bytes: &[u8]) -> Result<(), Refusal>
    requires { Cored desk.old × WellFormed bytes.now × (kind_of bytes.now ≡ 1) }
    ensures { (sheet seen history : List ℕ) → Acted desk.old sheet seen history bytes.now (refused_number result) desk.new sheet seen history }
{
    let class = bytes[CLASS_AT];
    not_lock(desk, class)?;
    let frame = frame_of(desk, bytes[CORE_AT] as usize);
    let Some(place) = fitting(desk, frame, class, bytes[MODE_AT]) else {
        return Err(Refusal::NotHeld);
    };
    if is_full(desk) {
        return Err(Refusal::CountFull);
    }
    remove(desk, frame, place);
    Ok(())
}

// The event ends the visit of a handler. Apart from `interrupt`, so that a must-fail edit can turn this answer and nothing else.
fn leaves_handler(event: Interrupt) -> bool
    ensures { result ≡ leaves_handler (event_number event) }
{
    event.leaves_handler()
}

// A handler is left, for the state `to`: what was acquired in it is struck out of the history.
fn leave(desk: &mut [u8], history: &mut [u8], bytes: &[u8], to: CoreState) -> Result<(), Refusal>
    requires { Cored desk.old × Crossed desk.old history.old × WellFormed bytes.now × Leaving desk.old bytes.now (state_number to) }
    ensures { (sheet seen : List ℕ) → Acted desk.old sheet seen history.old bytes.now (refused_number result) desk.new sheet seen history.new }
{
    let core = bytes[CORE_AT] as usize;
    let frame = frame_of(desk, core);
    if desk[DEPTHS_AT + frame] != 0 {
        return Err(Refusal::StillHeld);
    }
    if is_full(desk) {
        return Err(Refusal::CountFull);
    }
    strike(desk, history, frame);
    desk[STATES_AT + core] = u8::from(to);
    Ok(())
}

fn interrupt(
    desk: &mut [u8],
    history: &mut [u8],
    bytes: &[u8],
    event: Interrupt,
) -> Result<(), Refusal>
    requires { Cored desk.old × Crossed desk.old history.old × WellFormed bytes.now × (kind_of bytes.now ≡ 2 + event_number event) }
    ensures { (sheet seen : List ℕ) → Acted desk.old sheet seen history.old bytes.now (refused_number result) desk.new sheet seen history.new }
{
    let core = bytes[CORE_AT] as usize;
    let Some(to) = next(state_of(desk, core), event) else {
        return Err(Refusal::NoTransition);
    };
    if leaves_handler(event) {
        return leave(desk, history, bytes, to);
    }
    if is_full(desk) {
        return Err(Refusal::CountFull);
    }
    desk[STATES_AT + core] = u8::from(to);
    Ok(())
}

// The record's event: it is accepted, or refused with nothing changed.
pub fn act(
    desk: &mut [u8],
    sheet: &mut [u8],
    seen: &mut [u8],
    history: &mut [u8],
    bytes: &[u8],
) -> Result<(), Refusal>
    requires { Cored desk.old × (sheet_size (classes_of desk.old) ≤ length sheet.old) × (seen_size (classes_of desk.old) ≤ length seen.old) × WellFormed bytes.now × Crossed desk.old history.old }
    ensures { Acted desk.old sheet.old seen.old history.old bytes.now (refused_number result) desk.new sheet.new seen.new history.new }
{
    match kind_of(bytes) {
        Kind::Acquire => acquire(desk, sheet, seen, history, bytes),
        Kind::Release => release(desk, bytes),
        Kind::Interrupt(event) => interrupt(desk, history, bytes, event),
        _ => cross(desk, sheet, seen, history, bytes),
    }
}
