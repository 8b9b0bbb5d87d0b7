// A reader of a piece of a log: its method is thin, the work is in `part_at`, and other crates call `next_part`.
#![tactic(auto)]

ghost use Rattle.std.specs.Prelude.{◌≡◌, take, drop};

// A reader holds a lent piece of a log and its place in it.
// Kept: a struct with a piece and a place, thin over `part_at`, is the form that the project has for it (docs/DECISIONS.md, 77).
#[derive(Clone, Copy)]
pub struct Reader<'a> {
    pub piece: &'a [u8],
    pub at: usize,
}

impl<'a> Reader<'a> {
    // The next `wanted` bytes at the reader's place.
    pub fn part(self, wanted: usize) -> &'a [u8]
        ensures { result.now ≡ take wanted (drop self.entry.at self.entry.piece.now) }
    {
        part_at(self.piece, self.at, wanted)
    }
}

// The next `wanted` bytes of the piece, or as many as are left.
pub fn part_at(piece: &[u8], at: usize, wanted: usize) -> &[u8]
    ensures { result.now ≡ take wanted (drop at piece.now) }
{
    let left = &piece[at.min(piece.len())..];
    &left[..wanted.min(left.len())]
}

// The same by a reader: what other crates call.
pub fn next_part(piece: &[u8], at: usize, wanted: usize) -> &[u8]
    ensures { result.now ≡ take wanted (drop at piece.now) }
{
    Reader { piece, at }.part(wanted)
}
