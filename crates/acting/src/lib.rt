// What the event of a record does, said once for all kinds; and the last refusal, which any of them may meet.
#![tactic(auto)]

ghost use Rattle.std.specs.Prelude.{◌≡◌, ◌≤◌, leb, length};
ghost use Rattle.rules.specs.Limits.{max_accepted};
ghost use Rattle.layout.specs.Layout.{desk_size, accepted_of};

use layout::{ACCEPTED_AT, MAX_ACCEPTED};
use numbers::number_at;

// The count can take no record more.
pub fn is_full(desk: &[u8]) -> bool
    requires { desk_size ≤ length desk.now }
    ensures { result ≡ leb max_accepted (accepted_of desk.now) }
{
    MAX_ACCEPTED <= number_at(desk, ACCEPTED_AT)
}
