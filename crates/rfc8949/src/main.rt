// Runs vectors through the checker and the readers. A line of the input is a name and bytes in hex; a line of the output is the name and
// `refused`, or `accepted` and the item's heads in order: integers, strings as h'..' and t'..', false, true, null, and an array or a map with
// its count before its elements. Behind a map stand the keys 0 to 31 that are found in it, each with its value's position.
#![tactic(auto)]

use std::io;
use std::io::Write;
use wire_cbor::{KeyHead, Stop};
use wire_heads::{Head, read_head};
use wire_messages::Field;

fn text<W: Write>(output: &mut W, s: &[u8]) -> io::Result<()> {
    output.write_all(s)
}

// The value of a hex digit.
fn digit(b: u8) -> u8 {
    match b {
        b'a'.. => (b - b'a') % 6 + 10,
        b'0'.. => (b - b'0') % 10,
        _ => 0,
    }
}

fn pair(high: u8, low: u8) -> u8 {
    high % 16 * 16 + low % 16
}

// Puts the bytes that hex digits say into `out`, as far as it goes, and says how many there are.
fn decode(hex: &[u8], out: &mut [u8]) -> usize {
    let (pairs, _) = hex.as_chunks::<2>();
    for (b, [high, low]) in out.iter_mut().zip(pairs) {
        *b = pair(digit(*high), digit(*low));
    }
    hex.len() / 2
}

fn show_field<W: Write>(output: &mut W, field: Field) -> io::Result<()> {
    match field {
        Field::Absent | Field::Null => Ok(()),
        Field::Value(v) => write!(output, " {v}"),
    }
}

// Shows an integer by its head.
fn show_int<W: Write>(output: &mut W, major: u64, arg: u64) -> io::Result<()> {
    match wire_fields::read_value(KeyHead { major, arg }, false) {
        Some(field) => show_field(output, field),
        None => text(output, b" out of range"),
    }
}

// Shows at most n bytes, from `from` on.
fn show_hex<W: Write>(output: &mut W, s: &[u8], from: usize, n: u64) -> io::Result<()> {
    for b in s.iter().skip(from).take(n as usize) {
        write!(output, "{b:02x}")?;
    }
    text(output, b"'")
}

// The position n places on, or the end.
fn onward(s: &[u8], at: usize, n: u64) -> usize {
    at.saturating_add(n as usize).min(s.len())
}

fn show_count<W: Write>(output: &mut W, name: &[u8], n: u64) -> io::Result<()> {
    text(output, name)?;
    write!(output, "{n}")
}

fn show_simple<W: Write>(output: &mut W, v: u64) -> io::Result<()> {
    match v {
        20 => text(output, b" false"),
        21 => text(output, b" true"),
        22 => text(output, b" null"),
        _ => Ok(()),
    }
}

// Shows what a head says, and gives the position of the next head.
fn show_head<W: Write>(output: &mut W, s: &[u8], head: Head) -> io::Result<usize> {
    let Head { major, arg, next } = head;
    match major {
        0 | 1 => show_int(output, major, arg)?,
        2 | 3 => {
            text(output, if major == 2 { b" h'" } else { b" t'" })?;
            show_hex(output, s, next, arg)?;
            return Ok(onward(s, next, arg));
        }
        4 => show_count(output, b" array ", arg)?,
        5 => show_count(output, b" map ", arg)?,
        _ => show_simple(output, arg)?,
    }
    Ok(next)
}

fn show_heads<W: Write>(output: &mut W, s: &[u8]) -> io::Result<()> {
    let mut at = 0;
    // By hand: each head tells where the next one starts, and there are no more heads than bytes.
    for _ in 0..s.len() {
        let Some(head) = read_head(s, at) else {
            return Ok(());
        };
        at = show_head(output, s, head)?;
    }
    Ok(())
}

fn show_key<W: Write>(output: &mut W, s: &[u8], key: u64) -> io::Result<()> {
    if let Some(
        Head {
            major: 5,
            arg,
            next,
        },
    ) = read_head(s, 0)
    {
        show_found(
            output,
            wire_cbor::seek(s, next, arg, key, wire_cbor::DEPTH - 1),
            key,
        )?;
    }
    Ok(())
}

fn show_found<W: Write>(output: &mut W, stop: Stop, key: u64) -> io::Result<()> {
    if stop.there {
        show_count(output, b" ", key)?;
        show_count(output, b"@", stop.at as u64)?;
    }
    Ok(())
}

fn show<W: Write>(output: &mut W, s: &[u8]) -> io::Result<()> {
    if !wire_cbor::is_item(s) {
        return text(output, b" refused");
    }
    text(output, b" accepted")?;
    show_heads(output, s)?;
    for key in 0..32 {
        show_key(output, s, key)?;
    }
    Ok(())
}

// The name up to the first space, and the digits behind it.
fn parts(line: &[u8]) -> (&[u8], &[u8]) {
    match line.iter().position(|b| *b == b' ') {
        Some(i) => (&line[..i], &line[i + 1..]),
        None => (line, &[]),
    }
}

// One line: the name up to the space, the bytes behind it, by way of `out`.
fn show_line<W: Write>(output: &mut W, line: &[u8], out: &mut [u8]) -> io::Result<()> {
    let (name, hex) = parts(line);
    text(output, name)?;
    let n = decode(hex, out);
    if n <= out.len() {
        show(output, &out[..n])?;
    }
    text(output, b"\n")
}

fn main(rt: HostRuntime) -> io::Result<()> {
    let mut room = program_io::large_buffer();
    let mut item = program_io::buffer();
    let n = program_io::read_full(&mut rt.stdin(), &mut room)?;
    for line in room[..n].split_inclusive(|b| *b == b'\n') {
        show_line(
            &mut rt.stdout(),
            line.strip_suffix(b"\n").unwrap_or(line),
            &mut item,
        )?;
    }
    Ok(())
}
