// Raster operation codes against formulas from outside: each line of standard input is `CODE formula`, the code in two hexadecimal digits and the
// formula in reverse Polish over P, S, D, 0 and 1 with a (and), o (or), x (exclusive or) and n (not). Empty lines and lines that begin with # are passed over.
#![tactic(auto)]

ghost use Rattle.std.specs.Prelude.{◌<◌, IfSome};

use std::io::{self, BufWriter, Read, Write};

// The eight combinations of a pattern, a source and a target bit lie side by side in one byte: combination 4p + 2s + d at its bit.
const PATTERN: u8 = 0xf0;

const SOURCE: u8 = 0xcc;

const TARGET: u8 = 0xaa;

// A line that is neither passed over nor a code with a formula.
#[derive(Drop)]
struct Malformed;

// The values that a formula has put aside, at most 16.
#[derive(Clone, Copy)]
struct Stack {
    cells: [u8; 16],
    depth: usize,
}

impl Stack {
    fn push(&mut self, value: u8) -> Option<()> {
        *self.cells.get_mut(self.depth)? = value;
        self.depth = self.depth.wrapping_add(1);
        Some(())
    }

    fn pop(&mut self) -> Option<u8> {
        self.depth = self.depth.checked_sub(1)?;
        self.cells.get(self.depth).copied()
    }
}

// The formula, carried out; None where it is none, or puts more than 16 values aside.
fn evaluate(formula: &[u8]) -> Option<u8> {
    let mut stack = Stack {
        cells: [0; 16],
        depth: 0,
    };
    for &c in formula {
        let value = match c {
            b'P' => PATTERN,
            b'S' => SOURCE,
            b'D' => TARGET,
            b'0' => 0,
            b'1' => 255,
            b'n' => !stack.pop()?,
            b'a' => stack.pop()? & stack.pop()?,
            b'o' => stack.pop()? | stack.pop()?,
            b'x' => stack.pop()? ^ stack.pop()?,
            _ => return None,
        };
        stack.push(value)?;
    }
    let value = stack.pop()?;
    if stack.depth == 0 { Some(value) } else { None }
}

fn digit(c: u8) -> Option<u8>
    ensures { IfSome result (λ d. d < 16) }
{
    match c {
        b'0'..=b'9' => Some(c - b'0'),
        b'A'..=b'F' => Some(c - b'A' + 10),
        b'a'..=b'f' => Some(c - b'a' + 10),
        _ => None,
    }
}

// The code of a line, and what its formula gives.
fn read_pair(line: &[u8]) -> Option<(u8, u8)> {
    match line {
        [high, low, b' ', formula @ ..] => {
            Some((digit(*high)? << 4 | digit(*low)?, evaluate(formula)?))
        }
        _ => None,
    }
}

// The same, or nothing of a line that is passed over.
fn read_line(line: &[u8]) -> Result<Option<(u8, u8)>, Malformed> {
    match line.first() {
        None | Some(b'#') => Ok(None),
        _ => Ok(Some(read_pair(line).ok_or(Malformed)?)),
    }
}

// Whether the raster operation of this code gives, on all eight combinations, what the formula gives.
fn agrees(code: u8, formula: u8) -> bool {
    let all = raster::raster(code as u32, PATTERN as u32, SOURCE as u32, TARGET as u32);
    all % 256 == formula as u32
}

#[derive(Clone, Copy)]
struct Tally {
    agree: u64,
    differ: u64,
    malformed: u64,
    seen: [bool; 256],
}

impl Tally {
    fn judge<W: Write>(&mut self, out: &mut W, number: usize, line: &[u8]) -> io::Result<()> {
        match read_line(line) {
            Ok(None) => {}
            Ok(Some((code, formula))) if agrees(code, formula) => {
                self.seen[code as usize] = true;
                self.agree = self.agree.wrapping_add(1);
            }
            Ok(Some((code, _))) => {
                writeln!(
                    out,
                    "line {number}: code {code:02x} is not what its formula says"
                )?;
                self.differ = self.differ.wrapping_add(1);
            }
            Err(Malformed) => {
                writeln!(out, "line {number}: malformed")?;
                self.malformed = self.malformed.wrapping_add(1);
            }
        }
        Ok(())
    }
}

fn main(rt: HostRuntime) -> io::Result<()> {
    let alloc = rt.alloc();
    let mut out = BufWriter::new(alloc, rt.stdout())?;
    let mut text = Vec::new(alloc);
    if rt.stdin().take(65536).read_to_end(&mut text)? == 65536 {
        writeln!(out, "input of 65536 bytes or more: not read to its end")?;
        return out.flush();
    }
    let mut t = Tally {
        agree: 0,
        differ: 0,
        malformed: 0,
        seen: [false; 256],
    };
    let mut number = 0usize;
    for line in text.split(|&c| c == b'\n') {
        number = number.wrapping_add(1);
        t.judge(&mut out, number, line)?;
    }
    let codes = t.seen.iter().filter(|&&seen| seen).count();
    writeln!(out, "{} lines agree, over {codes} different codes", t.agree)?;
    writeln!(out, "{} lines disagree", t.differ)?;
    writeln!(out, "{} lines are malformed", t.malformed)?;
    out.flush()
}
