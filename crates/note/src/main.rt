// A sheet of 20 by 16 pixels is saved under a note, the note is drawn, and the sheet is put back, by register writes; at 16 and at 24 bits a pixel.
// Of each drawing it says how many pixels were written and how many of these changed; then how many bytes the note changed, and how many outside the
// place aside are different at the end.
#![tactic(auto)]

use engine::Engine;
use scripts::play;
use std::io::{self, BufWriter, Write};

// A write with its answer printed. Each program prints by itself: no contract settles what a writer gets, and every public function has a contract that settles it.
fn put_aloud<W: Write>(
    out: &mut W,
    name: &str,
    e: Engine,
    mem: &mut [u8],
    offset: u32,
    word: u32,
) -> io::Result<Engine> {
    let done = e.write(mem, offset, word);
    match done.answer {
        Ok(t) => writeln!(
            out,
            "{name}: taken, pixels {}, changed {}",
            t.count, t.changed
        )?,
        Err(_) => writeln!(out, "{name}: refused")?,
    }
    Ok(done.engine)
}

// Whether byte a belongs to the 13 by 9 pixels from byte 1024 on, in rows of so many bytes.
fn in_aside(a: usize, stride: usize, bytes: usize) -> bool {
    match a.checked_sub(1024) {
        Some(k) if stride != 0 => (k / stride < 9) & (k % stride < 13 * (bytes % 8)),
        _ => false,
    }
}

// How many bytes differ, those of the place aside left out.
fn differ(start: &[u8], mem: &[u8], stride: usize, bytes: usize) -> usize {
    let mut n = 0usize;
    for (a, (old, new)) in start.iter().zip(mem).enumerate() {
        if (old != new) & !in_aside(a, stride, bytes) {
            n = n.wrapping_add(1);
        }
    }
    n
}

// The sheet lies at byte 0, the place aside at byte 1024, on a surface of the same step and format; the rectangle is 13 by 9 pixels from (3, 2).
fn save<W: Write>(out: &mut W, e: Engine, mem: &mut [u8], format: u32) -> io::Result<Engine> {
    let writes = [
        (0x10, 1024),
        (0x14, format),
        (0x34, 0),
        (0x54, format),
        (0x08, 0),
        (0x0c, 0x10_0014),
        (0x68, 0x9_000d),
        (0x6c, 0),
        (0x70, 0xcc00_0001),
    ];
    let e = play(e, mem, &writes);
    put_aloud(out, "copy aside", e, mem, 0x80, 0x2_0003)
}

// A fill, a glyph, a line and a stippled polyline, all inside the rectangle, and two writes that are refused.
fn draw_note<W: Write>(out: &mut W, e: Engine, mem: &mut [u8]) -> io::Result<Engine> {
    let fill = [
        (0x10, 0),
        (0x08, 0x2_0003),
        (0x0c, 0xb_0010),
        (0x64, 0xff_ee80),
        (0x60, 0x40),
        (0x70, 0xcc00_0005),
    ];
    let glyph = [
        (0x64, 0x12_3456),
        (0x54, 0x40_0000),
        (0x5c, 0),
        (0x68, 0x7_000b),
        (0x6c, 0x3_0004),
        (0x70, 0xcc01_0003),
    ];
    let e = play(e, mem, &fill);
    let e = put_aloud(out, "fill", e, mem, 0x80, 0x2_0003)?;
    let e = play(e, mem, &glyph);
    let e = put_aloud(out, "glyph, word 1", e, mem, 0x80, 0x60c0_2080)?;
    let e = put_aloud(out, "glyph, word 2", e, mem, 0x80, 0x60c4_60c0)?;
    let e = put_aloud(out, "a register while the glyph waits", e, mem, 0x64, 0)?;
    let e = put_aloud(out, "glyph, word 3", e, mem, 0x80, 0x803b_c06e)?;
    let e = put_aloud(out, "glyph, word 4", e, mem, 0x80, 0x11)?;
    let e = play(e, mem, &[(0x5c, 0), (0x70, 0xcc00_0006)]);
    let e = put_aloud(out, "line", e, mem, 0x80, 0xa_000f)?;
    let e = play(e, mem, &[(0x3c, 0x17), (0x40, 0x501), (0x70, 0x5a00_1007)]);
    let e = put_aloud(out, "stippled polyline", e, mem, 0x80, 0x3_0000)?;
    put_aloud(out, "a write past the registers", e, mem, 0x200, 0)
}

fn put_back<W: Write>(out: &mut W, e: Engine, mem: &mut [u8], format: u32) -> io::Result<Engine> {
    let writes = [
        (0x34, 1024),
        (0x54, format),
        (0x68, 0x9_000d),
        (0x6c, 0x2_0003),
        (0x70, 0xcc00_0001),
    ];
    let e = play(e, mem, &writes);
    put_aloud(out, "copy back", e, mem, 0x80, 0)
}

fn save_and_restore<W: Write>(
    out: &mut W,
    name: &str,
    format: u32,
    stride: usize,
    bytes: usize,
) -> io::Result<()> {
    writeln!(out, "{name}")?;
    // a sheet with no two rows alike
    let mut mem = [0u8; 2048];
    for (i, byte) in mem.iter_mut().enumerate() {
        *byte = (i % 251 * 7 % 251) as u8;
    }
    let start = mem;
    let e = save(out, Engine::open(2048), &mut mem, format)?;
    let e = draw_note(out, e, &mut mem)?;
    writeln!(
        out,
        "bytes that the note changed: {}",
        differ(&start, &mem, stride, bytes)
    )?;
    put_back(out, e, &mut mem, format)?;
    writeln!(
        out,
        "bytes outside the place aside that differ: {}",
        differ(&start, &mem, stride, bytes)
    )
}

fn main(rt: HostRuntime) -> io::Result<()> {
    let mut out = BufWriter::new(rt.alloc(), rt.stdout())?;
    save_and_restore(&mut out, "16 bits a pixel", 0x3_0028, 40, 2)?;
    save_and_restore(&mut out, "24 bits a pixel", 0x4_003c, 60, 3)?;
    out.flush()
}
