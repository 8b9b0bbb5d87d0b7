// Whether there is a cycle, and how many dependencies the shortest has at most. A class whose usage marks clash is a cycle by itself: that is
// read from a table, and the walk is for the rest.
#![tactic(auto)]

ghost use Rattle.std.specs.Prelude.{◌≡◌, ◌<◌, ◌≤◌, length, IfSome};
ghost use Rattle.std.specs.List.{list_any};
ghost use Rattle.rules.specs.Limits.{max_classes};
ghost use Rattle.layout.specs.Layout.{desk_size};
ghost use Rattle.clash.specs.Clash.{Answers, Clashing, Bounded, answer_of, bound_number};

use layout::MARKS_AT;
use search::is_cyclic;
use successors::ROWS;

const MARK_BYTES: usize = 256;

// Kept: the rules ask for a table with an answer for each mark byte, which Answers says; no const is made by a call.
// For each mark byte, whether the marks in it are a cycle of one dependency: an interrupt dependency of the class to itself, strong where it closes.
const CLASHES: [bool; MARK_BYTES] = [
    false, // 0
    false, // 1: hard N
    false, // 2: hard R
    false, // 3: hard N R
    false, // 4: hard E
    true, // 5: hard N E
    true, // 6: hard R E
    true, // 7: hard N R E
    false, // 8: hard S
    true, // 9: hard N S
    false, // 10: hard R S
    true, // 11: hard N R S
    false, // 12: hard E S
    true, // 13: hard N E S
    true, // 14: hard R E S
    true, // 15: hard N R E S
    false, // 16: soft N
    false, // 17: hard N, soft N
    false, // 18: hard R, soft N
    false, // 19: hard N R, soft N
    false, // 20: hard E, soft N
    true, // 21: hard N E, soft N
    true, // 22: hard R E, soft N
    true, // 23: hard N R E, soft N
    false, // 24: hard S, soft N
    true, // 25: hard N S, soft N
    false, // 26: hard R S, soft N
    true, // 27: hard N R S, soft N
    false, // 28: hard E S, soft N
    true, // 29: hard N E S, soft N
    true, // 30: hard R E S, soft N
    true, // 31: hard N R E S, soft N
    false, // 32: soft R
    false, // 33: hard N, soft R
    false, // 34: hard R, soft R
    false, // 35: hard N R, soft R
    false, // 36: hard E, soft R
    true, // 37: hard N E, soft R
    true, // 38: hard R E, soft R
    true, // 39: hard N R E, soft R
    false, // 40: hard S, soft R
    true, // 41: hard N S, soft R
    false, // 42: hard R S, soft R
    true, // 43: hard N R S, soft R
    false, // 44: hard E S, soft R
    true, // 45: hard N E S, soft R
    true, // 46: hard R E S, soft R
    true, // 47: hard N R E S, soft R
    false, // 48: soft N R
    false, // 49: hard N, soft N R
    false, // 50: hard R, soft N R
    false, // 51: hard N R, soft N R
    false, // 52: hard E, soft N R
    true, // 53: hard N E, soft N R
    true, // 54: hard R E, soft N R
    true, // 55: hard N R E, soft N R
    false, // 56: hard S, soft N R
    true, // 57: hard N S, soft N R
    false, // 58: hard R S, soft N R
    true, // 59: hard N R S, soft N R
    false, // 60: hard E S, soft N R
    true, // 61: hard N E S, soft N R
    true, // 62: hard R E S, soft N R
    true, // 63: hard N R E S, soft N R
    false, // 64: soft E
    false, // 65: hard N, soft E
    false, // 66: hard R, soft E
    false, // 67: hard N R, soft E
    false, // 68: hard E, soft E
    true, // 69: hard N E, soft E
    true, // 70: hard R E, soft E
    true, // 71: hard N R E, soft E
    false, // 72: hard S, soft E
    true, // 73: hard N S, soft E
    false, // 74: hard R S, soft E
    true, // 75: hard N R S, soft E
    false, // 76: hard E S, soft E
    true, // 77: hard N E S, soft E
    true, // 78: hard R E S, soft E
    true, // 79: hard N R E S, soft E
    true, // 80: soft N E
    true, // 81: hard N, soft N E
    true, // 82: hard R, soft N E
    true, // 83: hard N R, soft N E
    true, // 84: hard E, soft N E
    true, // 85: hard N E, soft N E
    true, // 86: hard R E, soft N E
    true, // 87: hard N R E, soft N E
    true, // 88: hard S, soft N E
    true, // 89: hard N S, soft N E
    true, // 90: hard R S, soft N E
    true, // 91: hard N R S, soft N E
    true, // 92: hard E S, soft N E
    true, // 93: hard N E S, soft N E
    true, // 94: hard R E S, soft N E
    true, // 95: hard N R E S, soft N E
    true, // 96: soft R E
    true, // 97: hard N, soft R E
    true, // 98: hard R, soft R E
    true, // 99: hard N R, soft R E
    true, // 100: hard E, soft R E
    true, // 101: hard N E, soft R E
    true, // 102: hard R E, soft R E
    true, // 103: hard N R E, soft R E
    true, // 104: hard S, soft R E
    true, // 105: hard N S, soft R E
    true, // 106: hard R S, soft R E
    true, // 107: hard N R S, soft R E
    true, // 108: hard E S, soft R E
    true, // 109: hard N E S, soft R E
    true, // 110: hard R E S, soft R E
    true, // 111: hard N R E S, soft R E
    true, // 112: soft N R E
    true, // 113: hard N, soft N R E
    true, // 114: hard R, soft N R E
    true, // 115: hard N R, soft N R E
    true, // 116: hard E, soft N R E
    true, // 117: hard N E, soft N R E
    true, // 118: hard R E, soft N R E
    true, // 119: hard N R E, soft N R E
    true, // 120: hard S, soft N R E
    true, // 121: hard N S, soft N R E
    true, // 122: hard R S, soft N R E
    true, // 123: hard N R S, soft N R E
    true, // 124: hard E S, soft N R E
    true, // 125: hard N E S, soft N R E
    true, // 126: hard R E S, soft N R E
    true, // 127: hard N R E S, soft N R E
    false, // 128: soft S
    false, // 129: hard N, soft S
    false, // 130: hard R, soft S
    false, // 131: hard N R, soft S
    false, // 132: hard E, soft S
    true, // 133: hard N E, soft S
    true, // 134: hard R E, soft S
    true, // 135: hard N R E, soft S
    false, // 136: hard S, soft S
    true, // 137: hard N S, soft S
    false, // 138: hard R S, soft S
    true, // 139: hard N R S, soft S
    false, // 140: hard E S, soft S
    true, // 141: hard N E S, soft S
    true, // 142: hard R E S, soft S
    true, // 143: hard N R E S, soft S
    true, // 144: soft N S
    true, // 145: hard N, soft N S
    true, // 146: hard R, soft N S
    true, // 147: hard N R, soft N S
    true, // 148: hard E, soft N S
    true, // 149: hard N E, soft N S
    true, // 150: hard R E, soft N S
    true, // 151: hard N R E, soft N S
    true, // 152: hard S, soft N S
    true, // 153: hard N S, soft N S
    true, // 154: hard R S, soft N S
    true, // 155: hard N R S, soft N S
    true, // 156: hard E S, soft N S
    true, // 157: hard N E S, soft N S
    true, // 158: hard R E S, soft N S
    true, // 159: hard N R E S, soft N S
    false, // 160: soft R S
    false, // 161: hard N, soft R S
    false, // 162: hard R, soft R S
    false, // 163: hard N R, soft R S
    false, // 164: hard E, soft R S
    true, // 165: hard N E, soft R S
    true, // 166: hard R E, soft R S
    true, // 167: hard N R E, soft R S
    false, // 168: hard S, soft R S
    true, // 169: hard N S, soft R S
    false, // 170: hard R S, soft R S
    true, // 171: hard N R S, soft R S
    false, // 172: hard E S, soft R S
    true, // 173: hard N E S, soft R S
    true, // 174: hard R E S, soft R S
    true, // 175: hard N R E S, soft R S
    true, // 176: soft N R S
    true, // 177: hard N, soft N R S
    true, // 178: hard R, soft N R S
    true, // 179: hard N R, soft N R S
    true, // 180: hard E, soft N R S
    true, // 181: hard N E, soft N R S
    true, // 182: hard R E, soft N R S
    true, // 183: hard N R E, soft N R S
    true, // 184: hard S, soft N R S
    true, // 185: hard N S, soft N R S
    true, // 186: hard R S, soft N R S
    true, // 187: hard N R S, soft N R S
    true, // 188: hard E S, soft N R S
    true, // 189: hard N E S, soft N R S
    true, // 190: hard R E S, soft N R S
    true, // 191: hard N R E S, soft N R S
    false, // 192: soft E S
    false, // 193: hard N, soft E S
    false, // 194: hard R, soft E S
    false, // 195: hard N R, soft E S
    false, // 196: hard E, soft E S
    true, // 197: hard N E, soft E S
    true, // 198: hard R E, soft E S
    true, // 199: hard N R E, soft E S
    false, // 200: hard S, soft E S
    true, // 201: hard N S, soft E S
    false, // 202: hard R S, soft E S
    true, // 203: hard N R S, soft E S
    false, // 204: hard E S, soft E S
    true, // 205: hard N E S, soft E S
    true, // 206: hard R E S, soft E S
    true, // 207: hard N R E S, soft E S
    true, // 208: soft N E S
    true, // 209: hard N, soft N E S
    true, // 210: hard R, soft N E S
    true, // 211: hard N R, soft N E S
    true, // 212: hard E, soft N E S
    true, // 213: hard N E, soft N E S
    true, // 214: hard R E, soft N E S
    true, // 215: hard N R E, soft N E S
    true, // 216: hard S, soft N E S
    true, // 217: hard N S, soft N E S
    true, // 218: hard R S, soft N E S
    true, // 219: hard N R S, soft N E S
    true, // 220: hard E S, soft N E S
    true, // 221: hard N E S, soft N E S
    true, // 222: hard R E S, soft N E S
    true, // 223: hard N R E S, soft N E S
    true, // 224: soft R E S
    true, // 225: hard N, soft R E S
    true, // 226: hard R, soft R E S
    true, // 227: hard N R, soft R E S
    true, // 228: hard E, soft R E S
    true, // 229: hard N E, soft R E S
    true, // 230: hard R E, soft R E S
    true, // 231: hard N R E, soft R E S
    true, // 232: hard S, soft R E S
    true, // 233: hard N S, soft R E S
    true, // 234: hard R S, soft R E S
    true, // 235: hard N R S, soft R E S
    true, // 236: hard E S, soft R E S
    true, // 237: hard N E S, soft R E S
    true, // 238: hard R E S, soft R E S
    true, // 239: hard N R E S, soft R E S
    true, // 240: soft N R E S
    true, // 241: hard N, soft N R E S
    true, // 242: hard R, soft N R E S
    true, // 243: hard N R, soft N R E S
    true, // 244: hard E, soft N R E S
    true, // 245: hard N E, soft N R E S
    true, // 246: hard R E, soft N R E S
    true, // 247: hard N R E, soft N R E S
    true, // 248: hard S, soft N R E S
    true, // 249: hard N S, soft N R E S
    true, // 250: hard R S, soft N R E S
    true, // 251: hard N R S, soft N R E S
    true, // 252: hard E S, soft N R E S
    true, // 253: hard N E S, soft N R E S
    true, // 254: hard R E S, soft N R E S
    true, // 255: hard N R E S, soft N R E S
];

// Whether the table's answer is yes for one of the mark bytes.
fn some_clash(table: &[bool; MARK_BYTES], marks: &[u8]) -> bool
    requires { Answers table.now }
    ensures { result ≡ list_any answer_of marks.now }
{
    marks.iter().any(|&byte| table[usize::from(byte)])
}

// The same for the classes below k, with the table taken once for all.
fn clashes(desk: &[u8], k: usize) -> bool
    requires { (desk_size ≤ length desk.now) × (k ≤ max_classes) }
    ensures { Clashing desk.now k result }
{
    some_clash(&CLASHES, &desk[MARKS_AT..MARKS_AT + k])
}

// How many dependencies the shortest cycle has at most, 1 where a class's marks clash; or that there is no cycle.
pub fn cycle_bound(desk: &[u8], rows: &[u64; ROWS], k: usize) -> Option<usize>
    requires { (desk_size ≤ length desk.now) × (k ≤ max_classes) }
    ensures bounded { Bounded desk.now rows.now k (bound_number result) }
    ensures some { IfSome result (λ n. 0 < n) }
{
    if clashes(desk, k) {
        return Some(1);
    }
    is_cyclic(rows, k as u32).then_some(k)
}
