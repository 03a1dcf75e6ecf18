// Lines, stipples and a pattern that the databook prints, drawn by the engine from register writes: a pixel of colorFore is shown as x, one of colorBack
// as o, an untouched one as a dot.
#![tactic(auto)]

ghost use Rattle.std.specs.Prelude.{◌<◌};

use engine::Engine;
use scripts::play;
use std::io::{self, BufWriter, Write};

// A register by name. Each program prints by itself: no contract settles what a writer gets, and every public function has a contract that settles it.
fn say_register<W: Write>(out: &mut W, name: &str, e: Engine, offset: u32) -> io::Result<()> {
    match e.read(offset) {
        Some(word) => writeln!(out, "{name} {word:08x}"),
        None => writeln!(out, "{name} refused"),
    }
}

fn letter(pixel: u8) -> char {
    match pixel {
        0 => '.',
        1 => 'o',
        2 => 'x',
        _ => '?',
    }
}

// The first rows of a width.
fn show<W: Write>(out: &mut W, mem: &[u8], width: usize, height: usize) -> io::Result<()>
    requires { 0 < width }
{
    for row in mem.chunks(width).take(height) {
        for &pixel in row {
            write!(out, "{}", letter(pixel))?;
        }
        writeln!(out)?;
    }
    Ok(())
}

// Colours 2 and 1, a stipple and its style, on a surface of 8 bits a pixel.
fn prepare(
    mem: &mut [u8],
    format: u32,
    clip: u32,
    start: u32,
    stipple: u32,
    style: u32,
    command: u32,
) -> Engine {
    let writes = [
        (0x14, format),
        (0x0c, clip),
        (0x5c, start),
        (0x3c, stipple),
        (0x40, style),
        (0x60, 1),
        (0x64, 2),
        (0x70, command),
    ];
    play(Engine::open(512), mem, &writes)
}

// The line of the databook's example, by a command.
fn line_example<W: Write>(out: &mut W, name: &str, command: u32) -> io::Result<()> {
    writeln!(out, "{name}")?;
    let mut mem = [0u8; 512];
    let e = prepare(
        &mut mem, 0x1_0020, 0x10_0020, 0x2_0003, 6, 0x201_0202, command,
    );
    let e = play(e, &mut mem, &[(0x80, 0xc_0016)]);
    show(out, &mem, 32, 16)?;
    say_register(out, "lineStyle", e, 0x40)?;
    say_register(out, "srcXY", e, 0x5c)?;
    say_register(out, "dstXY", e, 0x6c)
}

// Points from (0, 0) to (last, 0) under a stipple.
fn stipple_example<W: Write>(out: &mut W, stipple: u32, style: u32, last: u32) -> io::Result<()> {
    let mut mem = [0u8; 512];
    let e = prepare(&mut mem, 0x1_0040, 0x1_0040, 0, stipple, style, 0xcc00_1006);
    let e = play(e, &mut mem, &[(0x80, last)]);
    show(out, &mem, 64, 1)?;
    say_register(out, "lineStyle", e, 0x40)
}

// Pattern bytes 0 to 63, offset 3 across and 5 down: the pixels of a fill of 2 by 2.
fn pattern_example<W: Write>(out: &mut W) -> io::Result<()> {
    let mut mem = [0u8; 512];
    let mut e = play(
        Engine::open(512),
        &mut mem,
        &[(0x14, 0x1_0010), (0x0c, 0x2_0010)],
    );
    for i in 0..16 {
        e = play(
            e,
            &mut mem,
            &[(0x100 + 4 * i, 0x0302_0100 + 0x0404_0404 * i)],
        );
    }
    play(
        e,
        &mut mem,
        &[(0x68, 0x2_0002), (0x70, 0xf056_0005), (0x80, 0)],
    );
    writeln!(out, "{} {} {}", mem[0], mem[1], mem[16])
}

fn main(rt: HostRuntime) -> io::Result<()> {
    let mut out = BufWriter::new(rt.alloc(), rt.stdout())?;
    line_example(&mut out, "line, stippled", 0xcc00_1006)?;
    line_example(&mut out, "polyline, stippled", 0xcc00_1007)?;
    line_example(&mut out, "line, not stippled", 0xcc00_0006)?;
    writeln!(out, "stipple 17, repeat 0, 1, 2")?;
    stipple_example(&mut out, 0x17, 0x500, 11)?;
    stipple_example(&mut out, 0x17, 0x501, 23)?;
    stipple_example(&mut out, 0x17, 0x502, 35)?;
    writeln!(out, "stipple 2b7 from the middle")?;
    stipple_example(&mut out, 0x2b7, 0x702_0904, 62)?;
    writeln!(out, "pattern from (3, 5): pixels (0, 0), (1, 0), (0, 1)")?;
    pattern_example(&mut out)?;
    out.flush()
}
