// `conf TYPE MAP PHASES DIRECTIONS LIMITS CURRENT SETPOINTS PROCESS ROOM ATTRIBUTES`: what the report says of a device.

use console_line::FIELDS;
use console_words::{put_bad, put_end, put_pairs, read_list};
use kernel::REPORT;

// More than a line can list.
const ATTRIBUTES: usize = 8192;

fn inputs_of(f: [u64; FIELDS]) -> kernel::Inputs {
    kernel::Inputs {
        endpoint: f[0],
        features: f[1],
        phases: f[2],
        directions: f[3],
        limits: f[4] == 1,
        currents: f[5] == 1,
        setpoints: f[6] == 1,
        process: f[7] == 1,
    }
}

// Answers a line whose nine numbers are good; `word` lists the attributes.
pub fn conf(f: [u64; FIELDS], word: &[u8], out: &mut [u8], at: usize) -> usize {
    let mut attributes = [0u16; ATTRIBUTES];
    let Some(n) = read_list(word, &mut attributes) else {
        return put_bad(out, at);
    };
    let mut pairs = [0u64; REPORT];
    let lent = REPORT.min(f[8] as usize);
    let r = kernel::report(inputs_of(f), &attributes[..n], &mut pairs[..lent]);
    let p = text::put_decimal(out, at, r.number);
    let q = put_pairs(out, p, &pairs, r.count);
    put_end(out, q)
}
