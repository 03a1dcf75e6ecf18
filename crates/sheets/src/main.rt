// The sheets that came out wrong, and an empty clip, drawn again by register writes: for each the pixels written, how many of them changed, the sheet, and
// the sheet of an engine that is wrong in that way. A sheet has 16 by 8 pixels of 8 bits: 0 is shown as a dot, 1 as o, 2 as x.
#![tactic(auto)]

use engine::Engine;
use scripts::play;
use std::io::{self, BufWriter, Write};

// A write with both counts printed. Each program prints by itself: no contract settles what a writer gets, and every public function has a contract that settles it.
fn put_aloud<W: Write>(
    out: &mut W,
    e: Engine,
    mem: &mut [u8],
    offset: u32,
    word: u32,
) -> io::Result<Engine> {
    let done = e.write(mem, offset, word);
    match done.answer {
        Ok(t) => writeln!(out, "pixels {}, changed {}", t.count, t.changed)?,
        Err(_) => writeln!(out, "refused")?,
    }
    Ok(done.engine)
}

fn say_register<W: Write>(out: &mut W, name: &str, e: Engine, offset: u32) -> io::Result<()> {
    match e.read(offset) {
        Some(word) => writeln!(out, "{name} {word:08x}"),
        None => writeln!(out, "{name} refused"),
    }
}

fn letter(pixel: u8) -> char {
    match pixel {
        0 => '.',
        1 => 'o',
        2 => 'x',
        _ => '?',
    }
}

fn show<W: Write>(out: &mut W, mem: &[u8], width: usize, height: usize) -> io::Result<()> {
    for row in mem.chunks(16).take(height) {
        for &pixel in row.iter().take(width) {
            write!(out, "{}", letter(pixel))?;
        }
        writeln!(out)?;
    }
    Ok(())
}

fn show_wrong<W: Write>(out: &mut W, sheet: &str) -> io::Result<()> {
    write!(out, "a wrong engine would show\n{sheet}")
}

// An engine for the whole sheet, with colorBack 1 and colorFore 2, and a rop register of plain copies.
fn open_sheet(mem: &mut [u8]) -> Engine {
    let writes = [
        (0x14, 0x1_0010),
        (0x0c, 0x8_0010),
        (0x30, 0xcc_cccc),
        (0x60, 1),
        (0x64, 2),
    ];
    play(Engine::open(128), mem, &writes)
}

// Eight mono pixels, .x.xx..x, with colorBack black, as a row.
fn draw_row(e: Engine, mem: &mut [u8], place: u32) -> Engine {
    let writes = [
        (0x60, 0),
        (0x54, 0x40_0000),
        (0x5c, 0),
        (0x68, 0x1_0008),
        (0x6c, place),
        (0x70, 0xcc00_0003),
        (0x80, 0x59),
    ];
    play(e, mem, &writes)
}

// The first row copied onto a row of o; where the source key matches, the target stays.
fn source_key<W: Write>(
    out: &mut W,
    name: &str,
    extra: u32,
    min: u32,
    max: u32,
    wrong: &str,
) -> io::Result<()> {
    writeln!(out, "{name}")?;
    let mut mem = [0u8; 128];
    let e = open_sheet(&mut mem);
    let e = draw_row(e, &mut mem, 0);
    let writes = [
        (0x64, 1),
        (0x70, 0xcc00_0005),
        (0x80, 0x1_0000),
        (0x54, 0x1_0010),
        (0x18, min),
        (0x1c, max),
        (0x38, extra),
        (0x30, 0xaa_aacc),
        (0x6c, 0x1_0000),
        (0x70, 0xcc00_0001),
    ];
    let e = play(e, &mut mem, &writes);
    put_aloud(out, e, &mut mem, 0x80, 0)?;
    show(out, &mem, 8, 2)?;
    show_wrong(out, wrong)
}

// The first row again, filled with o where the target key matches.
fn target_key<W: Write>(
    out: &mut W,
    name: &str,
    extra: u32,
    min: u32,
    max: u32,
    wrong: &str,
) -> io::Result<()> {
    writeln!(out, "{name}")?;
    let mut mem = [0u8; 128];
    let e = open_sheet(&mut mem);
    let e = draw_row(e, &mut mem, 0);
    let e = draw_row(e, &mut mem, 0x1_0000);
    let writes = [
        (0x64, 1),
        (0x20, min),
        (0x24, max),
        (0x38, extra),
        (0x30, 0xcc_aacc),
        (0x70, 0xaa00_0005),
    ];
    let e = play(e, &mut mem, &writes);
    put_aloud(out, e, &mut mem, 0x80, 0x1_0000)?;
    show(out, &mem, 8, 2)?;
    show_wrong(out, wrong)
}

// Key 0 to 0 is black only; with the enable bit clear, or with min above max, nothing matches.
fn black_key<W: Write>(out: &mut W) -> io::Result<()> {
    writeln!(out, "1. A key of 0 to 0")?;
    let filled = ".x.xx..x\noooooooo\n";
    source_key(out, "source key 0 to 0", 1, 0, 0, filled)?;
    source_key(out, "source key 0 to 0, not enabled", 0, 0, 0, filled)?;
    source_key(out, "source key 2 to 1", 1, 2, 1, filled)?;
    target_key(out, "target key 0 to 0", 2, 0, 0, filled)?;
    target_key(out, "target key 0 to 0, not enabled", 0, 0, 0, filled)?;
    target_key(out, "target key 2 to 1", 2, 2, 1, filled)
}

// A glyph of 8 by 7 mono pixels, a byte a row: fe 80 80 f8 80 80 80.
fn mono_order<W: Write>(out: &mut W) -> io::Result<()> {
    writeln!(out, "2. The leftmost mono pixel")?;
    let mut mem = [0u8; 128];
    let e = open_sheet(&mut mem);
    let e = play(
        e,
        &mut mem,
        &[(0x54, 0x40_0000), (0x68, 0x7_0008), (0x70, 0xcc00_0003)],
    );
    let e = put_aloud(out, e, &mut mem, 0x80, 0xf880_80fe)?;
    put_aloud(out, e, &mut mem, 0x80, 0x80_8080)?;
    show(out, &mem, 8, 7)?;
    show_wrong(
        out,
        "oxxxxxxx\nooooooox\nooooooox\noooxxxxx\nooooooox\nooooooox\nooooooox\n",
    )
}

// A cutting line of sixteen points under stipple xxxoxo: whole, and inside a clip from x = 3 on, where its dashes have to stand below those of the first.
fn stipple_goes_on<W: Write>(out: &mut W) -> io::Result<()> {
    writeln!(out, "3. A stippled line in a clip")?;
    let mut mem = [0u8; 128];
    let e = open_sheet(&mut mem);
    let e = play(
        e,
        &mut mem,
        &[(0x3c, 0x17), (0x40, 0x500), (0x70, 0xcc00_1006)],
    );
    let e = put_aloud(out, e, &mut mem, 0x80, 0xf)?;
    let e = play(e, &mut mem, &[(0x08, 3), (0x40, 0x500), (0x5c, 0x1_0000)]);
    let e = put_aloud(out, e, &mut mem, 0x80, 0x1_000f)?;
    say_register(out, "lineStyle", e, 0x40)?;
    show(out, &mem, 16, 2)?;
    show_wrong(out, "xxxoxoxxxoxoxxxo\n...xxxoxoxxxoxox\n")
}

// A fill of the whole sheet in a clip.
fn fill_in_clip<W: Write>(
    out: &mut W,
    name: &str,
    min: u32,
    max: u32,
    wrong: &str,
) -> io::Result<()> {
    writeln!(out, "{name}")?;
    let mut mem = [0u8; 128];
    let e = open_sheet(&mut mem);
    let e = play(
        e,
        &mut mem,
        &[
            (0x08, min),
            (0x0c, max),
            (0x68, 0x8_0010),
            (0x70, 0xcc00_0005),
        ],
    );
    put_aloud(out, e, &mut mem, 0x80, 0)?;
    show(out, &mem, 8, 6)?;
    show_wrong(out, wrong)
}

fn main(rt: HostRuntime) -> io::Result<()> {
    let mut out = BufWriter::new(rt.alloc(), rt.stdout())?;
    black_key(&mut out)?;
    mono_order(&mut out)?;
    stipple_goes_on(&mut out)?;
    fill_in_clip(
        &mut out,
        "4. Clip max, (2, 1) to (6, 4)",
        0x1_0002,
        0x4_0006,
        "........\n..xxxxx.\n..xxxxx.\n..xxxxx.\n..xxxxx.\n........\n",
    )?;
    fill_in_clip(
        &mut out,
        "Clip min 1, max 1",
        0x1_0001,
        0x1_0001,
        "........\n.x......\n........\n........\n........\n........\n",
    )?;
    out.flush()
}
