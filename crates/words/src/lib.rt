// A word as a set of up to 64 lock classes: bit i is class i.
#![tactic(auto)]

ghost use Rattle.std.specs.Prelude.{◌≡◌, ◌-◌, ◌<◌, ◌≤◌};
ghost use Rattle.std.specs.Int.Count.{ones};
ghost use Rattle.words.specs.Bits.{Without, With, Lowest, Both};

pub fn with(word: u64, i: u32) -> u64
    requires { i < 64 }
    ensures { With word i result }
{
    word | (1u64 << i)
}

pub fn lowest(word: u64) -> u32
    requires { 0 < word }
    ensures { Lowest word result }
{
    word.trailing_zeros()
}

pub fn without(word: u64, other: u64) -> u64
    ensures { Without word other result }
{
    word & !other
}

pub fn count(word: u64) -> u32
    ensures { (result ≡ ones word) × (result ≤ 64) }
{
    word.count_ones()
}

pub fn both(word: u64, other: u64) -> u64
    ensures { Both word other result }
{
    word & other
}
