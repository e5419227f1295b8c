// The kernel by hand: reads lines from standard input, and answers each with a line.
#![tactic(auto)]

use console_lines::{ANSWER, LONGEST, ROOM};
use kernel::{State, WORDS};
use receiver::RECORD;
use std::io;
use std::io::{Read, Write};
use ticks::FRONT;

// There is room for one byte more than the longest line, so that a longer one is still longer.
const KEPT: usize = LONGEST + 1;

const BYTES: usize = LONGEST / 2;

// Bytes of answers that are collected before they are written.
const OUT: usize = 65536;

// What the lines work on: the device, the receiver's record and its room, the tick counter's front, room for the bytes of a
// line; the beginning of a line, from earlier pieces of the input; and the answers that are not written yet.
#[derive(Drop)]
struct Console {
    device: State,
    record: [u64; RECORD],
    room: [u8; ROOM],
    front: [u64; FRONT],
    bytes: [u8; BYTES],
    kept: [u8; KEPT],
    have: usize,
    out: [u8; OUT],
    at: usize,
}

impl Console {
    fn new() -> Self {
        let mut device = [0u64; WORDS];
        console_lines::before_start(&mut device);
        Console {
            device,
            record: [0; RECORD],
            room: [0; ROOM],
            front: [0; FRONT],
            bytes: [0; BYTES],
            kept: [0; KEPT],
            have: 0,
            out: program_io::large_buffer(),
            at: 0,
        }
    }

    // Keeps bytes behind those kept, as far as there is room.
    fn keep(&mut self, s: &[u8]) {
        if self.have <= KEPT {
            let n = s.len().min(KEPT - self.have);
            self.kept[self.have..self.have + n].copy_from_slice(&s[..n]);
            self.have += n;
        }
    }

    // Writes the answers.
    fn flush<W: Write>(&mut self, output: &mut W) -> io::Result<()> {
        if self.at <= OUT {
            output.write_all(&self.out[..self.at])?;
        }
        self.at = 0;
        Ok(())
    }

    // Writes the answers that leave no room for another.
    fn settle<W: Write>(&mut self, output: &mut W) -> io::Result<()> {
        if self.at < OUT - ANSWER {
            return Ok(());
        }
        self.flush(output)
    }

    // Answers the line that is kept.
    fn answer_kept<W: Write>(&mut self, output: &mut W) -> io::Result<()> {
        self.settle(output)?;
        if self.have <= KEPT {
            self.at = console_lines::answer(
                &mut self.device,
                &mut self.record,
                &mut self.room,
                &mut self.front,
                &self.kept[..self.have],
                &mut self.bytes,
                &mut self.out,
                self.at,
            );
        }
        self.have = 0;
        Ok(())
    }

    // Answers a line, whose beginning may be kept.
    fn line<W: Write>(&mut self, output: &mut W, s: &[u8]) -> io::Result<()> {
        if self.have > 0 {
            self.keep(s);
            return self.answer_kept(output);
        }
        self.settle(output)?;
        self.at = console_lines::answer(
            &mut self.device,
            &mut self.record,
            &mut self.room,
            &mut self.front,
            s,
            &mut self.bytes,
            &mut self.out,
            self.at,
        );
        Ok(())
    }

    // Answers the lines of a piece of the input, and keeps what is left.
    fn piece<W: Write>(&mut self, output: &mut W, s: &[u8]) -> io::Result<()> {
        for part in s.split_inclusive(|b| *b == b'\n') {
            match part {
                [line @ .., b'\n'] => self.line(output, line)?,
                _ => self.keep(part),
            }
        }
        Ok(())
    }

    // Reads pieces, answers their lines, and writes the answers of each, so that one who types sees them. A last line without
    // its newline counts.
    fn run<R: Read, W: Write>(&mut self, input: &mut R, output: &mut W) -> io::Result<()> {
        for _ in 0..u64::MAX {
            let mut piece = program_io::large_buffer();
            let n = input.read(&mut piece)?;
            if n == 0 {
                break;
            }
            self.piece(output, &piece[..n])?;
            self.flush(output)?;
        }
        self.answer_kept(output)?;
        self.flush(output)
    }
}

fn main(rt: HostRuntime) -> io::Result<()> {
    Console::new().run(&mut rt.stdin(), &mut rt.stdout())
}
