// The balance of a piece, of each lock class: its acquires less its releases, over the records of the piece that are not malformed.
#![tactic(auto)]

ghost use Rattle.std.specs.Prelude.{◌≡◌, ◌≤◌, ◌+ℤ◌};
ghost use Rattle.std.specs.Int.Signed.{mag};
ghost use Rattle.answers.specs.Numbers.{refused_number};
ghost use Rattle.record.specs.Kinds.{kind_number};
ghost use Rattle.balance.specs.Code.{Room, part_of, counted};
ghost use Rattle.balance.specs.Piece.{most_records, is_refused, zeros, PieceBalanced};

use answers::Refusal;
use layout::MAX_CLASSES;
use record::{CLASS_AT, Kind, SIZE};

// The most records that a piece may have, and their bytes.
pub const MOST_RECORDS: usize = 10000;

pub const MOST_BYTES: usize = SIZE * MOST_RECORDS;

// The condition of refusal 14: a piece that is longer, or no whole number of records.
fn is_refused(piece: &[u8]) -> bool
    ensures { result ≡ is_refused piece.now }
{
    MOST_BYTES < piece.len() || piece.len() % SIZE != 0
}

// What a record of a kind is in the balance of its class.
fn part_of(kind: Kind) -> i32
    ensures { result ≡ part_of (kind_number kind) }
{
    match kind {
        Kind::Acquire => 1,
        Kind::Release => -1,
        _ => 0,
    }
}

// Counts a record in the balance of its class.
fn count_record(balances: &mut [i32; MAX_CLASSES], bytes: &[u8])
    requires { Room balances.old }
    ensures { balances.new ≡ counted balances.old bytes.now }
{
    if record::is_malformed(bytes) {
        return;
    }
    let class = bytes[CLASS_AT] as usize;
    if MAX_CLASSES <= class {
        return;
    }
    let part = part_of(record::kind_of(bytes));
    balances[class] += part;
}

// The balances of a piece, or 14 and zeros.
pub fn balance_of(piece: &[u8], balances: &mut [i32; MAX_CLASSES]) -> Result<(), Refusal>
    ensures { PieceBalanced piece.now (refused_number result) balances.new }
{
    *balances = [0; MAX_CLASSES];
    if is_refused(piece) {
        return Err(Refusal::BadPiece);
    }
    for bytes in piece.chunks_exact(SIZE) {
        count_record(balances, bytes);
    }
    Ok(())
}
