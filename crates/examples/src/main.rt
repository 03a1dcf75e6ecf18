// Worked examples of the databook, run on the engine from register writes: two host blits, the commands that are not built, the order of mono pixels, and
// the steps of packed sources. A write that matters is printed as offset, word, answer, and the pixels written and changed; of a pixel the low byte is
// shown: ff as #, 01 as o, 00 as a dot.
#![tactic(auto)]

use engine::Engine;
use scripts::play;
use std::io::{self, BufWriter, Write};

// A write that matters. Each program prints by itself: no contract settles what a writer gets, and every public function has a contract that settles it.
fn put_aloud<W: Write>(
    out: &mut W,
    e: Engine,
    mem: &mut [u8],
    offset: u32,
    word: u32,
) -> io::Result<Engine> {
    let done = e.write(mem, offset, word);
    write!(out, "{offset:02x} {word:08x}: answer ")?;
    match done.answer {
        Ok(t) => writeln!(out, "0, pixels {}, changed {}", t.count, t.changed)?,
        Err(refusal) => writeln!(out, "{}", refusal.number())?,
    }
    Ok(done.engine)
}

fn letter(low: u8) -> char {
    match low {
        0 => '.',
        1 => 'o',
        255 => '#',
        _ => '?',
    }
}

// Pixels of 16 bits; rows are 2048 bytes apart.
fn show<W: Write>(out: &mut W, mem: &[u8], width: usize, height: usize) -> io::Result<()> {
    for row in mem.chunks(2048).take(height) {
        for &low in row.iter().step_by(2).take(width) {
            write!(out, "{}", letter(low))?;
        }
        writeln!(out)?;
    }
    Ok(())
}

// The registers of the databook's first host blit, 11 by 7 pixels.
fn prepare(mem: &mut [u8], command: u32, format: u32) -> Engine {
    let writes = [
        (0x60, 0),
        (0x64, 0xffff),
        (0x6c, 0),
        (0x10, 0),
        (0x08, 0),
        (0x0c, 0xffff_ffff),
        (0x70, command),
        (0x14, 0x3_0800),
        (0x54, format),
        (0x68, 0x7_000b),
        (0x5c, 0),
    ];
    play(Engine::open(16384), mem, &writes)
}

fn host_example<W: Write>(out: &mut W, name: &str, command: u32, words: &[u32]) -> io::Result<()> {
    writeln!(out, "{name}")?;
    let mut mem = [0u8; 16384];
    let mut e = prepare(&mut mem, command, 0x40_0000);
    for &word in words {
        e = put_aloud(out, e, &mut mem, 0x80, word)?;
    }
    show(out, &mem, 11, 7)
}

// The words of the databook, and the same with the bytes of each half word swapped.
fn both_words<W: Write>(out: &mut W, printed: &str, swapped: &str, command: u32) -> io::Result<()> {
    host_example(
        out,
        printed,
        command,
        &[0xc060_8020, 0xc460_c060, 0x3b80_6ec0, 0x1100],
    )?;
    host_example(
        out,
        swapped,
        command,
        &[0x60c0_2080, 0x60c4_60c0, 0x803b_c06e, 0x11],
    )
}

// Source formats with a swizzle bit: both of them in the first example's, bit 21 in the second example's, which sets dstXY where it means dstSize.
fn swizzle_examples<W: Write>(out: &mut W) -> io::Result<()> {
    let mut mem = [0u8; 16384];
    writeln!(out, "host blit 1 with both swizzles")?;
    let e = prepare(&mut mem, 0xcc00_0003, 0x70_0000);
    put_aloud(out, e, &mut mem, 0x80, 0xc060_8020)?;
    writeln!(out, "host blit 2, its format as printed")?;
    let e = prepare(&mut mem, 0xcc00_0003, 0x24_0000);
    let e = put_aloud(out, e, &mut mem, 0x80, 0xc060_8020)?;
    let e = play(e, &mut mem, &[(0x68, 0), (0x6c, 0x7_000b)]);
    put_aloud(out, e, &mut mem, 0x80, 0xc060_8020)?;
    Ok(())
}

// A number that is not built: stored, refused at the launch, and refused when it is to run at once.
fn not_built<W: Write>(
    out: &mut W,
    e: Engine,
    mem: &mut [u8],
    command: u32,
    data: u32,
) -> io::Result<Engine> {
    let e = put_aloud(out, e, mem, 0x70, command)?;
    let e = put_aloud(out, e, mem, 0x80, data)?;
    put_aloud(out, e, mem, 0x70, command | 0x100)
}

fn not_built_examples<W: Write>(out: &mut W) -> io::Result<()> {
    let mut mem = [0u8; 16384];
    let e = prepare(&mut mem, 0xcc00_0003, 0x40_0000);
    writeln!(out, "polygon")?;
    let e = play(e, &mut mem, &[(0x5c, 0x1_0004)]);
    let mut e = not_built(out, e, &mut mem, 0xcc00_0008, 0x4_0002)?;
    writeln!(out, "SGRAM mode, colour and mask")?;
    for command in 13..16 {
        e = not_built(out, e, &mut mem, command, 0)?;
    }
    Ok(())
}

// One word of 32 mono pixels.
fn mono_word<W: Write>(out: &mut W, word: u32) -> io::Result<()> {
    let mut mem = [0u8; 16384];
    let e = prepare(&mut mem, 0xcc00_0003, 0x40_0000);
    let e = play(e, &mut mem, &[(0x60, 1), (0x68, 0x1_0020)]);
    put_aloud(out, e, &mut mem, 0x80, word)?;
    show(out, &mem, 32, 1)
}

// A fill with a mono pattern whose rows are bytes fe 80 80 f8 80 80 80 00.
fn mono_pattern<W: Write>(out: &mut W) -> io::Result<()> {
    writeln!(out, "mono pattern")?;
    let mut mem = [0u8; 16384];
    let e = prepare(&mut mem, 0xf000_2005, 0);
    let writes = [
        (0x60, 1),
        (0x44, 0xf880_80fe),
        (0x48, 0x0080_8080),
        (0x68, 0x8_0008),
    ];
    let e = play(e, &mut mem, &writes);
    put_aloud(out, e, &mut mem, 0x80, 0)?;
    show(out, &mem, 8, 8)
}

// How many words of data a waiting host blit takes, at most 64.
fn words_taken(start: Engine, mem: &mut [u8]) -> u32 {
    let mut e = start;
    for n in 0..64 {
        if !e.blit.waiting {
            return n;
        }
        e = play(e, mem, &[(0x80, 0)]);
    }
    64
}

fn words_of(source: u32, target: u32, size: u32) -> u32 {
    let mut mem = [0u8; 16384];
    let e = prepare(&mut mem, 0, source);
    let e = play(
        e,
        &mut mem,
        &[(0x14, target), (0x68, size), (0x70, 0xcc00_0103)],
    );
    words_taken(e, &mut mem)
}

// The steps under packing 1, 2 and 3. Five rows need four steps more than one row does, which is as many words more as the step has bytes.
fn say_steps<W: Write>(
    out: &mut W,
    name: &str,
    source: u32,
    target: u32,
    width: u32,
) -> io::Result<()> {
    write!(out, "{name}")?;
    for packing in [0x40_0000, 0x80_0000, 0xc0_0000] {
        let one = words_of(source | packing, target, 0x1_0000 | width);
        let five = words_of(source | packing, target, 0x5_0000 | width);
        match five.checked_sub(one) {
            Some(step) => write!(out, " {step}")?,
            None => write!(out, " ?")?,
        }
    }
    writeln!(out)
}

fn step_examples<W: Write>(out: &mut W) -> io::Result<()> {
    writeln!(out, "steps under packing 1, 2 and 3")?;
    say_steps(out, "11 pixels, mono:", 0, 0x3_0800, 11)?;
    say_steps(out, "9 pixels, mono:", 0, 0x3_0800, 9)?;
    say_steps(out, "5 pixels, 8 bits:", 0x1_0000, 0x1_0800, 5)?;
    say_steps(out, "3 pixels, 24 bits:", 0x4_0000, 0x3_0800, 3)
}

fn main(rt: HostRuntime) -> io::Result<()> {
    let mut out = BufWriter::new(rt.alloc(), rt.stdout())?;
    both_words(
        &mut out,
        "host blit 1, words as printed",
        "host blit 1, half words swapped",
        0xcc00_0003,
    )?;
    both_words(
        &mut out,
        "transparent, words as printed",
        "transparent, half words swapped",
        0xcc01_0003,
    )?;
    swizzle_examples(&mut out)?;
    not_built_examples(&mut out)?;
    writeln!(out, "mono order")?;
    for word in [0x80, 0x100, 0x8000_0000, 0x0100_0000] {
        mono_word(&mut out, word)?;
    }
    mono_pattern(&mut out)?;
    step_examples(&mut out)?;
    out.flush()
}
