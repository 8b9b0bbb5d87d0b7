// A record of the log: six bytes, the mark 4C 4B, core, kind, class, mode.
#![tactic(auto)]

ghost use Rattle.std.specs.Prelude.{◌≡◌};
ghost use Rattle.rules.specs.Record.{kind_of, is_malformed, stray_byte};
ghost use Rattle.rules.specs.WellFormed.{WellFormed};
ghost use Rattle.record.specs.Kinds.{kind_number, KindBy};

use context::Interrupt;
use layout::{CORES, MODES};

pub const SIZE: usize = 6;

pub const CORE_AT: usize = 2;

pub const KIND_AT: usize = 3;

pub const CLASS_AT: usize = 4;

pub const MODE_AT: usize = 5;

// What a record says of its core.
#[derive(Clone, Copy, PartialEq, Eq)]
pub enum Kind {
    Acquire,
    Release,
    Interrupt(Interrupt),
    CrossAcquire,
    Commit,
    CrossRelease,
}

// A byte that is no kind.
#[derive(Clone, Copy)]
pub struct NoKind;

impl TryFrom<u8> for Kind {
    type Error = NoKind;

    ghost try_from_gives = { KindBy };

    fn try_from(byte: u8) -> Result<Self, NoKind> {
        match byte {
            0 => Ok(Self::Acquire),
            1 => Ok(Self::Release),
            2 => Ok(Self::Interrupt(Interrupt::HardOn)),
            3 => Ok(Self::Interrupt(Interrupt::HardOff)),
            4 => Ok(Self::Interrupt(Interrupt::SoftOn)),
            5 => Ok(Self::Interrupt(Interrupt::SoftOff)),
            6 => Ok(Self::Interrupt(Interrupt::EnterSoft)),
            7 => Ok(Self::Interrupt(Interrupt::ExitSoft)),
            8 => Ok(Self::Interrupt(Interrupt::EnterHard)),
            9 => Ok(Self::Interrupt(Interrupt::ExitHard)),
            10 => Ok(Self::CrossAcquire),
            11 => Ok(Self::Commit),
            12 => Ok(Self::CrossRelease),
            _ => Err(NoKind),
        }
    }
}

// The kind of a record that is not malformed.
pub fn kind_of(bytes: &[u8]) -> Kind
    requires { WellFormed bytes.now }
    ensures { kind_number result ≡ kind_of bytes.now }
{
    Kind::try_from(bytes[KIND_AT]).unwrap()
}

const MOST_CORES: u8 = CORES as u8;

// A byte that should be 0 is not: the class of an interrupt event, or the mode of what is no lock's. No branch: kinds come in any order.
fn has_stray_byte(kind: Kind, class: u8, mode: u8) -> bool
    ensures { result ≡ stray_byte (kind_number kind) class mode }
{
    let of_lock = matches!(kind, Kind::Acquire | Kind::Release);
    let of_event = matches!(kind, Kind::Interrupt(_));
    !of_lock & ((of_event & (class != 0)) | (mode != 0))
}

// The conditions of refusal 3.
#[tactic(auto, unfolding(rules::specs::Record::is_malformed))]
pub fn is_malformed(bytes: &[u8]) -> bool
    ensures { result ≡ is_malformed bytes.now }
{
    let [0x4C, 0x4B, core, kind, class, mode] = bytes else {
        return true;
    };
    let Ok(kind) = Kind::try_from(*kind) else {
        return true;
    };
    MOST_CORES <= *core || MODES <= *mode || has_stray_byte(kind, *class, *mode)
}
