// A cycle in the slip: byte 0 is the number of its dependencies, and each has seven bytes: class, kind, source, and four of its number.
#![tactic(auto)]

ghost use Rattle.std.specs.Prelude.{◌≡◌, ◌+◌, ◌*◌, ◌/◌, ◌%◌, ◌<◌, ◌≤◌, length};
ghost use Rattle.rules.specs.Graph.{kind_bit, source_number};
ghost use Rattle.rules.specs.Ranks.{kind_at, source_at};
ghost use Rattle.layout.specs.Layout.{entries_at, entry_size, slip_size, seen_size, number_of};
ghost use Rattle.layout.specs.Decoding.{number_by};
ghost use Rattle.report.specs.Shown.{Ranged, EntryWritten, Shown};

use layout::{COUNT_AT, ENTRIES_AT, ENTRY_NUMBER_AT, ENTRY_SIZE, NUMBER_SIZE};
use numbers::{number_at, put_number};
use shortest::{Found, Ranked};

// The kind's bit of a rank.
fn kind_byte(rank: u8) -> u8
    ensures { result ≡ kind_bit (kind_at rank) }
{
    1 << (rank / 3).min(3)
}

// The source of a rank: 0 lock dependency, 1 hard interrupt, 2 soft interrupt.
// Kept: the slip's bytes are these numbers, here and in `number_by` and `write_entry` (docs/FORMATS.md, `source_number`).
fn source_byte(rank: u8) -> u8
    ensures { result ≡ source_number (source_at rank) }
{
    rank % 3
}

// The number of the record that first drew a lock dependency from a class to another; an interrupt dependency has 0.
fn number_by(source: u8, seen: &[u8], k: usize, from: u8, to: u8) -> u32
    requires { (k ≤ 64) × (from < k) × (to < k) × (seen_size k ≤ length seen.now) }
    ensures { result ≡ number_by source (number_of seen.now k from to) }
{
    if source == 0 {
        number_at(
            seen,
            NUMBER_SIZE * (usize::from(from) * k + usize::from(to)),
        )
    } else {
        0
    }
}

fn write_entry(slip: &mut [u8], i: usize, class: u8, kind: u8, source: u8, number: u32)
    requires { (i < 64) × (entries_at + entry_size * i + entry_size ≤ length slip.old) }
    ensures { EntryWritten slip.old i class kind source number slip.new }
{
    let at = ENTRIES_AT + ENTRY_SIZE * i;
    slip[at] = class;
    slip[at + 1] = kind;
    slip[at + 2] = source;
    put_number(slip, at + ENTRY_NUMBER_AT, number);
}

// Writes the cycle.
pub fn show(slip: &mut [u8], seen: &[u8], k: usize, found: &Found)
    requires { (k ≤ 64) × (found.now.n ≤ k) × Ranged k found.now × (seen_size k ≤ length seen.now) × (slip_size found.now.n ≤ length slip.old) }
    ensures { Shown found.now k seen.now slip.old slip.new }
{
    slip[COUNT_AT] = found.n as u8;
    for i in 0..found.n {
        let Ranked { class, rank } = found.dependencies[i];
        let next = found.dependencies[(i + 1) % found.n];
        let source = source_byte(rank);
        let number = number_by(source, seen, k, class, next.class);
        write_entry(slip, i, class, kind_byte(rank), source, number);
    }
}
