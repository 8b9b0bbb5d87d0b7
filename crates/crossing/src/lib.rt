// What the three kinds of a crosslock do: its acquire, a commit, its release.
#![tactic(auto)]

ghost use Rattle.std.specs.Prelude.{◌≡◌, List, ℕ, ◌<◌, ◌≤◌, length};
ghost use Rattle.rules.specs.Record.{kind_of};
ghost use Rattle.rules.specs.WellFormed.{WellFormed};
ghost use Rattle.layout.specs.Layout.{sheet_size, seen_size, classes_of};
ghost use Rattle.cores.specs.Cores.{Cored};
ghost use Rattle.answers.specs.Numbers.{refused_number};
ghost use Rattle.acting.specs.Action.{Acted, Crossed};
ghost use Rattle.crossing.specs.Going.{not_going};

use acting::is_full;
use answers::Refusal;
use cores::frame_of;
use crosslocks::{end, enter, is_declared, is_in_progress, is_list_full};
use history::{draw_commit, number_commit};
use layout::CLASSES_AT;
use numbering::number_pairs;
use record::{CLASS_AT, CORE_AT, Kind, kind_of};
use update::draw;

// An exclusive lock: what the acquire of a crosslock draws, an exclusive one would.
const EXCLUSIVE: usize = 0;

// The refusals that all three may meet: 4, then 15.
fn not_crosslock(desk: &[u8], class: u8) -> Result<(), Refusal>
    requires { Cored desk.now }
    ensures { refused_number result ≡ Rattle.acting.specs.Action.not_crosslock desk.now class }
{
    if desk[CLASSES_AT] <= class {
        return Err(Refusal::NoClass);
    }
    if !is_declared(desk, class) {
        return Err(Refusal::WrongSort);
    }
    Ok(())
}

// The refusals that a commit and a release may meet: those, then 17 and 9.
fn not_going(desk: &[u8], class: u8) -> Result<(), Refusal>
    requires { Cored desk.now }
    ensures { refused_number result ≡ not_going desk.now class }
{
    not_crosslock(desk, class)?;
    if !is_in_progress(desk, class) {
        return Err(Refusal::NotInProgress);
    }
    if is_full(desk) {
        return Err(Refusal::CountFull);
    }
    Ok(())
}

fn cross_acquire(
    desk: &mut [u8],
    sheet: &mut [u8],
    seen: &mut [u8],
    bytes: &[u8],
) -> Result<(), Refusal>
    requires { Cored desk.old × (sheet_size (classes_of desk.old) ≤ length sheet.old) × (seen_size (classes_of desk.old) ≤ length seen.old) × WellFormed bytes.now × (kind_of bytes.now ≡ 10) }
    ensures { (history : List ℕ) → Acted desk.old sheet.old seen.old history bytes.now (refused_number result) desk.new sheet.new seen.new history }
{
    let class = bytes[CLASS_AT];
    not_crosslock(desk, class)?;
    if is_in_progress(desk, class) {
        return Err(Refusal::InProgress);
    }
    if is_list_full(desk) {
        return Err(Refusal::ListFull);
    }
    if is_full(desk) {
        return Err(Refusal::CountFull);
    }
    let k = desk[CLASSES_AT] as usize;
    let frame = frame_of(desk, bytes[CORE_AT] as usize);
    draw(desk, sheet, k, frame, class as usize, EXCLUSIVE);
    number_pairs(desk, seen, k, frame, class as usize, EXCLUSIVE);
    enter(desk, class);
    Ok(())
}

fn commit(
    desk: &[u8],
    sheet: &mut [u8],
    seen: &mut [u8],
    history: &[u8],
    bytes: &[u8],
) -> Result<(), Refusal>
    requires { Cored desk.now × Crossed desk.now history.now × (sheet_size (classes_of desk.now) ≤ length sheet.old) × (seen_size (classes_of desk.now) ≤ length seen.old) × WellFormed bytes.now × (kind_of bytes.now ≡ 11) }
    ensures { Acted desk.now sheet.old seen.old history.now bytes.now (refused_number result) desk.now sheet.new seen.new history.now }
{
    let class = bytes[CLASS_AT];
    not_going(desk, class)?;
    let k = desk[CLASSES_AT] as usize;
    let frame = frame_of(desk, bytes[CORE_AT] as usize);
    draw_commit(desk, history, sheet, k, frame, class as usize);
    number_commit(desk, history, seen, k, frame, class as usize);
    Ok(())
}

fn cross_release(desk: &mut [u8], bytes: &[u8]) -> Result<(), Refusal>
    requires { Cored desk.old × WellFormed bytes.now × (kind_of bytes.now ≡ 12) }
    ensures { (sheet seen history : List ℕ) → Acted desk.old sheet seen history bytes.now (refused_number result) desk.new sheet seen history }
{
    let class = bytes[CLASS_AT];
    not_going(desk, class)?;
    end(desk, class);
    Ok(())
}

// A record of kinds 10 to 12.
pub fn cross(
    desk: &mut [u8],
    sheet: &mut [u8],
    seen: &mut [u8],
    history: &[u8],
    bytes: &[u8],
) -> Result<(), Refusal>
    requires { Cored desk.old × Crossed desk.old history.now × (sheet_size (classes_of desk.old) ≤ length sheet.old) × (seen_size (classes_of desk.old) ≤ length seen.old) × WellFormed bytes.now × (10 ≤ kind_of bytes.now) }
    ensures { Acted desk.old sheet.old seen.old history.now bytes.now (refused_number result) desk.new sheet.new seen.new history.now }
{
    match kind_of(bytes) {
        Kind::CrossAcquire => cross_acquire(desk, sheet, seen, bytes),
        Kind::Commit => commit(desk, sheet, seen, history, bytes),
        _ => cross_release(desk, bytes),
    }
}
