// Document 02, f: reads a piece of a log from standard input, and writes its balances to standard output.
//
// The program is thin: what it writes of the bytes that it read is `balance_text::put_text`'s.
#![tactic(auto)]

ghost use Rattle.std.specs.Prelude.{◌≤◌, length, IfOk};

use balance::MOST_BYTES;
use balance_text::TEXT_SIZE;
use std::io::{self, Read};

// Room for the longest piece and a byte more: a piece that fills it is too long, and nothing behind it need be read.
const BUF_SIZE: usize = MOST_BYTES + 1;

// Reads up to the end of the input, or until the buffer is full, and says how many bytes that gave.
fn read_piece<R: Read>(input: &mut R, buf: &mut [u8]) -> io::Result<usize>
    ensures { IfOk result (λ size. size ≤ length buf.new) }
{
    let mut size = 0;
    // Kept: a read gives as many bytes as it has, so no range counts this loop.
    while size < buf.len() {
        let n = input.read(&mut buf[size..])?;
        if n == 0 {
            break;
        }
        size += n;
    }
    Ok(size)
}

fn main(rt: HostRuntime) {
    let mut buf = [0u8; BUF_SIZE];
    let mut out = [0u8; TEXT_SIZE];
    let Ok(n) = read_piece(&mut rt.stdin(), &mut buf) else {
        let _ = rt.stderr().write_all(b"read failed\n");
        return;
    };
    let size = balance_text::put_text(&mut out, &buf[..n]);
    if rt.stdout().write_all(&out[..size]).is_err() {
        let _ = rt.stderr().write_all(b"write failed\n");
    }
}
