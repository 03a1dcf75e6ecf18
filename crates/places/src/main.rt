// Addresses, tiles and steps that source documents print, held against the surface crate: a byte is marked at the printed address, and the view of
// the pixel must show it; the tile of a byte and its place there are compared with the printed map; and the step of a packed source with the printed one.
#![tactic(auto)]

use std::io::{self, BufWriter, Write};
use surface::Surface;

fn verdict(ok: bool) -> &'static str {
    if ok { "agrees" } else { "DIFFERS" }
}

// Whether the view of pixel (x, y) at 8 bits a pixel begins with a marked byte.
fn sees_mark(mem: &[u8], stride: u32, x: u32, y: u32) -> bool {
    views::row_view(mem, 0, 0x1_0000 + stride % 0x4000, x, y, 1).first() == Some(&1)
}

// Whether the pixel is at an address: the view of it shows a mark there, and none before.
fn is_at(mem: &mut [u8], stride: u32, x: u32, y: u32, at: usize) -> bool {
    if mem.len() <= at {
        return false;
    }
    let before = sees_mark(mem, stride, x, y);
    mem[at] = 1;
    let seen = sees_mark(mem, stride, x, y);
    mem[at] = 0;
    seen & !before
}

// Whether a source of a format and a width has this step under a packing.
fn has_step(code: u32, width: u32, packing: u32, step: u32) -> bool {
    let format = code % 16 * 0x1_0000 + packing % 4 * 0x40_0000;
    formats::source_of(0, format, width % 0x2000).stride == step
}

// Whether a byte of a surface of eight tiles across is in the tile of this number, counted from 1, and at its row and column there.
fn in_tile(column: u16, y: u16, number: usize) -> bool {
    let s = Surface {
        base: 0,
        stride: 8,
        bytes: 1,
        tiled: true,
    };
    let (x, y) = (column as usize, y as usize);
    let at = surface::byte_at(s, x, y);
    (at / 4096 + 1 == number) & (at % 4096 == y % 32 * 128 + x % 128)
}

fn main(rt: HostRuntime) -> io::Result<()> {
    let alloc = rt.alloc();
    let mut out = BufWriter::new(alloc, rt.stdout())?;
    let mut mem = vec![in alloc; 0u8; 262144]?;
    writeln!(
        out,
        "Source document 004, lines 1740 to 1760 and 1917 to 2060"
    )?;
    let printed = [
        (640, 256, 256, 0x28100),
        (640, 261, 256, 0x28105),
        (640, 256, 257, 0x28380),
        (640, 256, 258, 0x28600),
        (640, 256, 259, 0x28880),
        (1024, 128, 128, 0x20080),
        (1024, 128, 130, 0x20880),
        (1024, 128, 133, 0x21480),
        (1024, 128, 134, 0x21880),
        (1024, 128, 135, 0x21c80),
    ];
    for &(stride, x, y, at) in &printed {
        let ok = is_at(&mut mem, stride, x, y, at);
        writeln!(
            out,
            "stride {stride}, pixel {x} of row {y} at {at:05x}: {}",
            verdict(ok)
        )?;
    }
    writeln!(
        out,
        "Source document 002, section 17.3: tiled memory of 1024 bytes by 192 lines"
    )?;
    // a row of tiles by one of its lines and the number of its first tile, and one byte's column in each of its eight tiles
    let columns = [37, 128, 383, 400, 600, 640, 895, 1000];
    for &(y, first) in &[
        (0u16, 1usize),
        (63, 9),
        (64, 17),
        (107, 25),
        (143, 33),
        (191, 41),
    ] {
        let last = first.wrapping_add(7);
        let ok = columns
            .iter()
            .enumerate()
            .all(|(k, &column)| in_tile(column, y, first.wrapping_add(k)));
        writeln!(
            out,
            "rows from {}: tiles {first} to {last}: {}",
            y / 32 * 32,
            verdict(ok)
        )?;
    }
    writeln!(out, "Source document 000, lines 1931 to 1935")?;
    let packed = [
        (0, 11, [2, 2, 4]),
        (0, 9, [2, 2, 4]),
        (1, 5, [5, 6, 8]),
        (4, 3, [9, 10, 12]),
    ];
    for &(code, width, steps) in &packed {
        for (step, packing) in steps.iter().zip(1..4) {
            let ok = has_step(code, width, packing, *step);
            writeln!(
                out,
                "format {code}, width {width}, packing {packing}: step {step}: {}",
                verdict(ok)
            )?;
        }
    }
    out.flush()
}
