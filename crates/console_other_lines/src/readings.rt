// `meas BYTES`: the number, the payload written again or `-`, then each flow that is there, or `-`.
ghost use Rattle.std.specs.Prelude.{◌≡◌, [], ◌∷◌};
ghost use Rattle.wire_bytes.specs.Bytes.{put_whole, past_whole};
ghost use Rattle.text.specs.Pieces.{put_all, past_all};
ghost use Rattle.console_words.specs.Hex.{hex_after};
ghost use Rattle.console_other_lines.specs.Meas.{is_there, flow_pieces, some_flow, flows_pieces, again_text, payload_pieces, meas_pieces};

use console_words::{put_bad, put_end, put_hex_or_none, read_hex};
use measurement::{
    Flow, WORDS, Words, dc_flow, number_in, phase_flow, power_flow, read_measurement,
    write_measurement,
};

// Bytes of the longest payload that is written.
const PAYLOAD: usize = 326;

// A name and a way.
fn put_named(out: &mut [u8], at: usize, name: &[u8], way: &[u8]) -> usize
    ensures value { result ≡ past_all out.old at (name.now ∷ way.now ∷ []) }
    ensures out_after { out.new ≡ put_all out.old at (name.now ∷ way.now ∷ []) }
{
    let p = wire_bytes::put_bytes(out, at, name, name.len());
    wire_bytes::put_bytes(out, p, way, way.len())
}

// A flow that is there, behind its name.
#[tactic(auto, unfolding(crate::specs::Meas::flow_pieces, text::specs::Pieces::put_all, text::specs::Pieces::past_all))]
fn put_flow(out: &mut [u8], at: usize, name: &[u8], flow: Flow) -> usize
    ensures value { result ≡ past_all out.old at (flow_pieces name.now flow) }
    ensures out_after { out.new ≡ put_all out.old at (flow_pieces name.now flow) }
{
    match flow {
        Flow::Absent => at,
        Flow::Neither => put_named(out, at, name, b":none"),
        Flow::In => put_named(out, at, name, b":in"),
        Flow::Out => put_named(out, at, name, b":out"),
    }
}

#[tactic(auto, unfolding(crate::specs::Meas::is_there))]
fn is_there(flow: Flow) -> bool
    ensures { result ≡ is_there flow }
{
    matches!(flow, Flow::Neither | Flow::In | Flow::Out)
}

#[tactic(auto, unfolding(crate::specs::Meas::some_flow))]
fn some_flow(words: &Words) -> bool
    ensures { result ≡ some_flow words.now }
{
    is_there(power_flow(words))
        || is_there(dc_flow(words))
        || is_there(phase_flow(words, 0))
        || is_there(phase_flow(words, 1))
        || is_there(phase_flow(words, 2))
}

// Attributes 1 and 40, then 10 by phase; `-` where no flow is there.
fn put_flows(out: &mut [u8], at: usize, words: &Words) -> usize
    ensures value { result ≡ past_all out.old at (flows_pieces words.now) }
    ensures out_after { out.new ≡ put_all out.old at (flows_pieces words.now) }
{
    if some_flow(words) {
        let p = put_flow(out, at, b" 1", power_flow(words));
        let q = put_flow(out, p, b" 40", dc_flow(words));
        let r = put_flow(out, q, b" 10.0", phase_flow(words, 0));
        let t = put_flow(out, r, b" 10.1", phase_flow(words, 1));
        return put_flow(out, t, b" 10.2", phase_flow(words, 2));
    }
    wire_bytes::put_bytes(out, at, b" -", 2)
}

// What was read, written again; `-` beside a refusal.
fn put_again(out: &mut [u8], at: usize, number: u64, words: &Words) -> usize
    ensures value { result ≡ past_whole out.old at (again_text number words.now) }
    ensures out_after { out.new ≡ put_whole out.old at (again_text number words.now) }
{
    if number == 0 {
        let mut again = [0u8; PAYLOAD];
        let w = write_measurement(words, &mut again);
        return put_hex_or_none(out, at, &again, w.length);
    }
    wire_bytes::put_byte(out, at, b'-')
}

// Answers for a payload.
fn payload(s: &[u8], out: &mut [u8], at: usize) -> usize
    ensures value { result ≡ past_all out.old at (payload_pieces s.now) }
    ensures out_after { out.new ≡ put_all out.old at (payload_pieces s.now) }
{
    let mut words = [0u64; WORDS];
    let number = number_in(read_measurement(s, &mut words));
    let p = text::put_decimal(out, at, number);
    let q = wire_bytes::put_byte(out, p, b' ');
    let r = put_again(out, q, number, &words);
    let t = put_flows(out, r, &words);
    put_end(out, t)
}

// Reads the bytes of the line's last word into `bytes`, and answers for them.
pub fn meas(word: &[u8], bytes: &mut [u8], out: &mut [u8], at: usize) -> usize
    ensures value { result ≡ past_all out.old at (meas_pieces word.now bytes.old) }
    ensures out_after { out.new ≡ put_all out.old at (meas_pieces word.now bytes.old) }
    ensures bytes_after { bytes.new ≡ hex_after word.now bytes.old }
{
    match read_hex(word, bytes) {
        Some(n) => payload(&bytes[..n], out, at),
        None => put_bad(out, at),
    }
}
