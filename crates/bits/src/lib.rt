// Mono sources: the bits of a byte as pixels, and a mono rectangle copied a byte at a time.
#![tactic(auto)]

ghost use Rattle.std.specs.Prelude.{◌≡◌, false, ◌+◌, ◌-◌, ◌<◌, ◌≤◌, length};
ghost use Rattle.surface.specs.Asked.{Colour, Held};
ghost use Rattle.surface.specs.Pixels.{across, rect};
ghost use Rattle.paint.specs.Paint.{state, tallied, dab_at, paint};
ghost use Rattle.paint.specs.Asked.{Room};
ghost use Rattle.runs.specs.Asked.{RowOn};
ghost use Rattle.bits.specs.Bits.{coloured, byte_touches, monoly};
ghost use Rattle.bits.specs.Asked.{RowMono, CanMono};

use paint::Tally;
use surface::Surface;

// What each bit needs: the target, the colours of the two bits, and whether a 0 bit leaves its pixel unwritten.
#[derive(Clone, Copy)]
pub struct Plain {
    pub target: Surface,
    pub fore: u32,
    pub back: u32,
    pub clear: bool,
}

// A mono rectangle to be copied: its source, and the first pixel of the source and of the target.
#[derive(Clone, Copy)]
pub struct Mono {
    pub plain: Plain,
    pub from: Surface,
    pub sx: u32,
    pub sy: u32,
    pub x: u32,
    pub y: u32,
}

// A pixel of n bytes from an address on is given the colour of its bit, or it is left.
#[tactic(auto, unfolding(crate::specs::Bits::coloured))]
fn put_bit(mem: &mut [u8], at: usize, n: u32, p: Plain, bit: u32, tally: Tally) -> Tally
    requires { Held at n (length mem.old) × Room tally 1 }
    ensures { tallied mem.new result ≡ dab_at at n (coloured p bit) (tallied mem.old tally) }
{
    let set = bit == 1;
    let v = if set { p.fore } else { p.back };
    paint::put_value_at(mem, at, n, p.clear & !set, v, tally)
}

// The m pixels of row y from x on are given the bits of a byte from bit k on, the highest first; n is the target's bytes per pixel.
// A number, no const parameter: with that glyphs of some formats take up to a fifth longer.
pub fn put_run(
    mem: &mut [u8],
    p: Plain,
    n: u32,
    byte: u32,
    k: u32,
    x: u32,
    y: u32,
    m: u32,
    tally: Tally,
) -> Tally
    requires { ((Colour p.target × (p.target.tiled ≡ false)) × (RowOn p.target (length mem.old) x m y × Room tally m)) × ((k + m ≤ 8) × (n ≡ p.target.bytes)) }
    ensures { tallied mem.new result ≡ paint p.target (byte_touches p byte k x (across false x m y)) (tallied mem.old tally) }
{
    let at = surface::place_in_rows(p.target, x, y);
    let mut r = tally;
    for i in 0..m {
        let bit = (byte >> (7 - (k + i))) % 2;
        r = put_bit(mem, at + (i * n) as usize, n, p, bit, r);
    }
    r
}

// The same, with a loop for each number of bytes. Public: its parameters stay as docs/PUBLIC.md has them.
pub fn put_bits(
    mem: &mut [u8],
    p: Plain,
    byte: u32,
    k: u32,
    x: u32,
    y: u32,
    m: u32,
    tally: Tally,
) -> Tally
    requires { ((Colour p.target × (p.target.tiled ≡ false)) × (RowOn p.target (length mem.old) x m y × Room tally m)) × (k + m ≤ 8) }
    ensures { tallied mem.new result ≡ paint p.target (byte_touches p byte k x (across false x m y)) (tallied mem.old tally) }
{
    match p.target.bytes {
        1 => put_run(mem, p, 1, byte, k, x, y, m, tally),
        2 => put_run(mem, p, 2, byte, k, x, y, m, tally),
        3 => put_run(mem, p, 3, byte, k, x, y, m, tally),
        _ => put_run(mem, p, 4, byte, k, x, y, m, tally),
    }
}

// Row j of a mono rectangle, a byte of its source at a time; N is the target's bytes per pixel.
fn mono_run<const N: u32>(mem: &mut [u8], t: Mono, w: u32, j: u32, tally: Tally) -> Tally
    requires { RowMono t w j (length mem.old) tally × (N ≡ t.plain.target.bytes) }
    ensures { tallied mem.new result ≡ paint t.plain.target (monoly t (across false t.x w (t.y + j))) (tallied mem.old tally) }
{
    let mut r = tally;
    let mut i = 0;
    // while: the step is as many pixels as the source's byte has left
    while i < w {
        let column = t.sx + i;
        let k = column % 8;
        let m = (8 - k).min(w - i);
        let byte = surface::mono_in_rows(mem, t.from, column, t.sy + j);
        r = put_run(mem, t.plain, N, byte, k, t.x + i, t.y + j, m, r);
        i += m;
    }
    r
}

// The same, with a loop for each number of bytes.
fn mono_row(mem: &mut [u8], t: Mono, w: u32, j: u32, tally: Tally) -> Tally
    requires { RowMono t w j (length mem.old) tally }
    ensures { tallied mem.new result ≡ paint t.plain.target (monoly t (across false t.x w (t.y + j))) (tallied mem.old tally) }
{
    match t.plain.target.bytes {
        1 => mono_run::<1>(mem, t, w, j, tally),
        2 => mono_run::<2>(mem, t, w, j, tally),
        3 => mono_run::<3>(mem, t, w, j, tally),
        _ => mono_run::<4>(mem, t, w, j, tally),
    }
}

// A mono rectangle, row by row.
pub fn mono_rows(mem: &mut [u8], t: Mono, w: u32, h: u32) -> Tally
    requires { CanMono t w h (length mem.old) }
    ensures { tallied mem.new result ≡ paint t.plain.target (monoly t (rect false false t.x t.y w h)) (state mem.old 0 0) }
{
    let mut n = Tally {
        count: 0,
        changed: 0,
    };
    for j in 0..h {
        n = mono_row(mem, t, w, j, n);
    }
    n
}
