// The kernel by hand: a line of text is a call, and its answer is a line of text.
//
// start DIRECTIONS LIMITS SETPOINTS MINIMUM MAXIMUM-C MAXIMUM-P FAILSAFE-C FAILSAFE-P DURATION MANAGER PHASES CURRENT
// join ZONE RANK TIME, leave ZONE TIME, lost ZONE TIME, back ZONE TIME
// override REASON DIRECTION TIME, clear TIME, move TIME
// ask, plan ROOM, rows RECORDS
// frame ZONE TIME ROOM BYTES, request BYTES, response COMMAND BYTES
// scrap new ROOM BYTES, scrap same ROOM BYTES
// tick new TICK, tick same TICK
// rescue BYTES
// conf TYPE MAP PHASES DIRECTIONS LIMITS CURRENT SETPOINTS PROCESS ROOM ATTRIBUTES
// meas BYTES
//
// Words are parted by one space, numbers are decimal, bytes are lowercase hex, `-` is none. Any other line is answered
// `bad line` and changes nothing; an empty line has no answer.
#![tactic(auto)]

mod answers; // answers.rt: the commands whose answer is more than a number

pub use answers::{answer, before_start};
pub use console_other_lines::ROOM;

// The longest line; a longer one is a bad line.
pub const LONGEST: usize = 16384;

// A number's digits, and the byte behind them.
const CELL: usize = text::DIGITS + 1;

// No answer is longer: a number and those of the longest plan, or two digits for each byte of the longest frame; a rescued
// script and its runs, of a line's bytes, are shorter.
pub const ANSWER: usize = (1 + kernel::PLAN) * CELL + 2 * kernel::FRAME;
