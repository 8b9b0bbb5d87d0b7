// What follows an accepted record.
#![tactic(auto)]

ghost use Rattle.std.specs.Prelude.{◌<◌, ◌≤◌, length};
ghost use Rattle.rules.specs.Limits.{core_count};
ghost use Rattle.layout.specs.Layout.{seen_size, slip_size, classes_of};
ghost use Rattle.cores.specs.Cores.{Cored};
ghost use Rattle.answers.specs.Numbers.{verdict_number};
ghost use Rattle.conclusion.specs.Conclude.{Sheeted, Concluded};

use answers::Verdict;
use clash::cycle_bound;
use cores::{frame_of, state_of};
use layout::{CLASSES_AT, CLOSED_AT};
use report::show;
use shortest::shortest_cycle;
use successors::{ROWS, put_successors};
use update::mark;

// After an accepted record of a core: its held locks are marked, and the graph is searched.
pub fn conclude(desk: &mut [u8], sheet: &[u8], seen: &[u8], slip: &mut [u8], core: usize) -> Verdict
    requires { Cored desk.old × (core < core_count) × Sheeted (classes_of desk.old) sheet.now × (seen_size (classes_of desk.old) ≤ length seen.now) × (slip_size (classes_of desk.old) ≤ length slip.old) }
    ensures { Concluded desk.old sheet.now seen.now slip.old core (verdict_number result) desk.new slip.new }
{
    let k = desk[CLASSES_AT] as usize;
    let frame = frame_of(desk, core);
    let context = state_of(desk, core);
    mark(desk, frame, k, context);
    let mut rows = [0; ROWS];
    put_successors(desk, sheet, k, &mut rows);
    let Some(bound) = cycle_bound(desk, &rows, k) else {
        return Verdict::Clean;
    };
    let Some(found) = shortest_cycle(desk, sheet, &rows, k, bound) else {
        unreachable!()
    };
    show(slip, seen, k, &found);
    desk[CLOSED_AT] = 1;
    Verdict::Fault
}
