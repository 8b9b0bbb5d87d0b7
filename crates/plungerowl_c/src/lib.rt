// Kept: the twins of plungerowl's calls are the C interface: a static library exports its own functions alone, and plungerowl's theorems are of a library.
// The static library: each of plungerowl's calls under its own name, with the same clauses, for a host in C. A slice is a pointer and then a length.
#![tactic(auto)]

ghost use Rattle.balance.specs.Piece.{PieceBalanced};
ghost use Rattle.feed.specs.Calls.{Started, FedPiece, FedEnd};
ghost use Rattle.benches.specs.Benches.{bench};
ghost use Rattle.joiner.specs.Joining.{Joined};
ghost use Rattle.opening.specs.Open.{Opened};
ghost use Rattle.question.specs.Question.{Asked};
ghost use Rattle.validator.specs.Calls.{buffers};
ghost use Rattle.validator.specs.Step.{Stepped};

use layout::MAX_CLASSES;

// Opens desk, both sheets and history for a number of lock classes, of which the word declares some crosslocks.
#[unsafe(no_mangle)]
pub extern "C" fn plungerowl_open(
    classes: u64,
    declared: u64,
    desk: &mut [u8],
    sheet: &mut [u8],
    seen: &mut [u8],
    history: &mut [u8],
) -> u8
    ensures { Opened classes declared desk.old sheet.old seen.old history.old result desk.new sheet.new seen.new history.new }
{
    plungerowl::plungerowl_open(classes, declared, desk, sheet, seen, history)
}

// Validates one record. With a fault the cycle stands in the slip.
#[unsafe(no_mangle)]
pub extern "C" fn plungerowl_step(
    desk: &mut [u8],
    sheet: &mut [u8],
    seen: &mut [u8],
    history: &mut [u8],
    slip: &mut [u8],
    bytes: &[u8],
) -> u8
    ensures { Stepped desk.old sheet.old seen.old history.old slip.old bytes.now result desk.new sheet.new seen.new history.new slip.new }
{
    plungerowl::plungerowl_step(desk, sheet, seen, history, slip, bytes)
}

// Which classes end a strong path from a class: one bit for each in `word`, and how many in `count`.
#[unsafe(no_mangle)]
pub extern "C" fn plungerowl_ask(
    desk: &[u8],
    sheet: &[u8],
    seen: &[u8],
    class: u64,
    word: &mut u64,
    count: &mut u32,
) -> u8
    ensures { Asked desk.now sheet.now seen.now class result word.new count.new }
{
    plungerowl::plungerowl_ask(desk, sheet, seen, class, word, count)
}

// Joins two benches: two open desks of one number of classes, with their sheets, into a third. With a fault the cycle stands in the slip.
#[unsafe(no_mangle)]
pub extern "C" fn plungerowl_join(
    desk1: &[u8],
    sheet1: &[u8],
    seen1: &[u8],
    desk2: &[u8],
    sheet2: &[u8],
    seen2: &[u8],
    desk: &mut [u8],
    sheet: &mut [u8],
    seen: &mut [u8],
    slip: &mut [u8],
) -> u8
    ensures { Joined (bench desk1.now sheet1.now seen1.now) (bench desk2.now sheet2.now seen2.now) desk.old sheet.old seen.old slip.old result desk.new sheet.new seen.new slip.new }
{
    plungerowl::plungerowl_join(
        desk1, sheet1, seen1, desk2, sheet2, seen2, desk, sheet, seen, slip,
    )
}

// A fresh feed, for a log in pieces.
#[unsafe(no_mangle)]
pub extern "C" fn plungerowl_feed_start(feed: &mut [u8]) -> u8
    ensures { Started feed.old result feed.new }
{
    plungerowl::plungerowl_feed_start(feed)
}

// Feeds a piece of the log. With answer 0 `record` is the number of records validated so far, else that of the record that got the answer.
#[unsafe(no_mangle)]
pub extern "C" fn plungerowl_feed(
    feed: &mut [u8],
    desk: &mut [u8],
    sheet: &mut [u8],
    seen: &mut [u8],
    history: &mut [u8],
    slip: &mut [u8],
    piece: &[u8],
    record: &mut u64,
) -> u8
    ensures { FedPiece feed.old (buffers desk.old sheet.old seen.old history.old slip.old) piece.now result «record».new feed.new (buffers desk.new sheet.new seen.new history.new slip.new) }
{
    plungerowl::plungerowl_feed(feed, desk, sheet, seen, history, slip, piece, record)
}

// Ends the log.
#[unsafe(no_mangle)]
pub extern "C" fn plungerowl_feed_end(
    feed: &mut [u8],
    desk: &mut [u8],
    sheet: &mut [u8],
    seen: &mut [u8],
    history: &mut [u8],
    slip: &mut [u8],
    record: &mut u64,
) -> u8
    ensures { FedEnd feed.old (buffers desk.old sheet.old seen.old history.old slip.old) result «record».new feed.new (buffers desk.new sheet.new seen.new history.new slip.new) }
{
    plungerowl::plungerowl_feed_end(feed, desk, sheet, seen, history, slip, record)
}

// The balance of each class over a piece of a log: its acquires less its releases.
#[unsafe(no_mangle)]
pub extern "C" fn plungerowl_balance(piece: &[u8], balances: &mut [i32; MAX_CLASSES]) -> u8
    ensures { PieceBalanced piece.now result balances.new }
{
    plungerowl::plungerowl_balance(piece, balances)
}
