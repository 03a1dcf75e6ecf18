// Fills whose pixels depend on the pattern and on what stands there, by masks that are worked out before the pixels.
#![tactic(auto)]

ghost use Rattle.std.specs.Prelude.{◌≡◌, false, ℕ, ◌+◌, ◌*◌, ◌^◌, ◌<◌, ◌≤◌, length};
ghost use Rattle.surface.specs.Asked.{Colour};
ghost use Rattle.surface.specs.Pixels.{across, rect};
ghost use Rattle.paint.specs.Paint.{state, tallied, paint};
ghost use Rattle.paint.specs.Asked.{Room};
ghost use Rattle.runs.specs.Asked.{RectOn};
ghost use Rattle.tint.specs.Masking.{blended, mask_for, mask_rows, down_tints, tables, MasksOf, Painted};
ghost use Rattle.tint.specs.Asked.{Whole, RowsSound, CanBy, tinted};

use ink::Ink;
use paint::Tally;
use surface::Surface;

// The bits of a pixel that are kept, those that are then turned over, and 1 if the pixel is written.
#[derive(Clone, Copy)]
pub struct Mask {
    pub keep: u32,
    pub flip: u32,
    pub adds: u32,
}

// The eight masks of a row: those of three tables from number `first` on.
#[derive(Clone, Copy)]
struct Masks<'a> {
    keep: &'a [u8; 256],
    flip: &'a [u8; 256],
    adds: &'a [u32; 64],
    first: u32,
}

// The mask of a fill where the pattern has this value, and this bit if it is mono.
fn mask_of(ink: Ink, value: u32, bit: u32) -> Mask
    ensures { result ≡ mask_for ink value bit }
{
    if ink.clear & (ink.mono & (bit == 0)) {
        return Mask {
            keep: 0xffff_ffff,
            flip: 0,
            adds: 0,
        };
    }
    let flip = raster::raster(ink.rop0, value, ink.fore, 0);
    Mask {
        keep: raster::raster(ink.rop0, value, ink.fore, 0xffff_ffff) ^ flip,
        flip,
        adds: 1,
    }
}

// The masks of the first rows, at most eight, of eight pixels from (x, y) on, in the target's format, put at the start of three tables. Public: its parameters stay as docs/PUBLIC.md has them.
pub fn masks_at(
    keep: &mut [u8; 256],
    flip: &mut [u8; 256],
    adds: &mut [u32; 64],
    ink: Ink,
    pattern: [u8; 256],
    x: u32,
    y: u32,
    rows: u32,
)
    requires { Colour ink.target × (x ≤ 2 ^ 13) × (y ≤ 2 ^ 13) × (rows ≤ 8) × Whole (tables keep.old flip.old adds.old) }
    ensures { MasksOf ink pattern x y rows (tables keep.old flip.old adds.old) (tables keep.new flip.new adds.new) }
{
    let n = ink.target.bytes;
    let values = ink::values_at(ink, pattern, x, y, rows);
    for j in 0..rows {
        let row = ink::pattern_row(ink, y + j);
        let byte = pattern[row as usize] as u32;
        for i in 0..8 {
            let bit = ink::bit_of(byte, ink::pattern_column(ink, x + i));
            let k = j * 8 + i;
            let m = mask_of(ink, values[k as usize], bit);
            let at = (k * n) as usize;
            surface::put_bytes(keep, at, n, m.keep);
            surface::put_bytes(flip, at, n, m.flip);
            adds[k as usize] = m.adds;
        }
    }
}

// How many rows of masks h rows of pixels want.
#[tactic(auto, unfolding(crate::specs::Masking::mask_rows))]
pub fn mask_rows(h: u32) -> u32
    ensures { result ≡ mask_rows h }
{
    h.min(8)
}

// The n bytes from an address on, by the masks' bytes from number `from` on.
pub fn tint_bytes(mem: &mut [u8], at: usize, n: usize, keep: &[u8], flip: &[u8], from: usize)
    requires { ((i : ℕ) → i < n → at + i < length mem.old) × (from + n ≤ length keep.now) × (from + n ≤ length flip.now) }
    ensures { mem.new ≡ blended keep.now flip.now from at n mem.old }
{
    for i in 0..n {
        mem[at + i] = (mem[at + i] & keep[from + i]) ^ flip[from + i];
    }
}

// The w pixels, at most eight, of row y from x on, each of B bytes, by their masks; how many are written. Inline: see `tint_part`.
#[inline(always)]
fn tint_across<const B: u32>(
    mem: &mut [u8],
    s: Surface,
    masks: Masks,
    x: u32,
    w: u32,
    y: u32,
) -> u32
    requires { CanBy s masks (length mem.old) x w y × (B ≡ s.bytes) × (w ≤ 8) }
    ensures { Painted s (tinted s masks.entry x (across false x w y)) mem.old mem.new result }
{
    let Masks {
        keep,
        flip,
        adds,
        first,
    } = masks;
    let at = surface::place_in_rows(s, x, y);
    let many = (w * B) as usize;
    tint_bytes(mem, at, many, keep, flip, (first * B) as usize);
    let mut more = 0;
    // A loop: `iter().sum()` of their part of the table takes 1.6 times as long in wide rows of one byte a pixel.
    for i in 0..w {
        more += adds[(first + i) as usize];
    }
    more
}

// A row of any width: eight pixels at a time, by the same eight masks each time, and then those that are left. Inline: see `tint_part`.
#[inline(always)]
fn tint_run<const B: u32>(mem: &mut [u8], s: Surface, masks: Masks, x: u32, w: u32, y: u32) -> u32
    requires { CanBy s masks (length mem.old) x w y × (B ≡ s.bytes) }
    ensures { Painted s (tinted s masks.entry x (across false x w y)) mem.old mem.new result }
{
    let mut r = 0;
    for i in 0..w / 8 {
        r += tint_across::<B>(mem, s, masks, x + i * 8, 8, y);
    }
    r + tint_across::<B>(mem, s, masks, x + w / 8 * 8, w % 8, y)
}

// The same of pixels of any format, with a loop for each number of bytes. Inline: see `tint_part`.
#[inline(always)]
fn tint_pixels(mem: &mut [u8], s: Surface, masks: Masks, x: u32, w: u32, y: u32) -> u32
    requires { CanBy s masks (length mem.old) x w y }
    ensures { Painted s (tinted s masks.entry x (across false x w y)) mem.old mem.new result }
{
    match s.bytes {
        1 => tint_run::<1>(mem, s, masks, x, w, y),
        2 => tint_run::<2>(mem, s, masks, x, w, y),
        3 => tint_run::<3>(mem, s, masks, x, w, y),
        _ => tint_run::<4>(mem, s, masks, x, w, y),
    }
}

// At most 256 of them, after those that n tells of. What stood there is kept in a buffer, so that those that change can be counted.
// Inline: as a call it does not know that its masks lie apart from the memory, and fills in rows take 2.2 to 7.2 times as long.
#[inline(always)]
fn tint_part(
    mem: &mut [u8],
    old: &mut [u8],
    s: Surface,
    masks: Masks,
    x: u32,
    w: u32,
    y: u32,
    n: Tally,
) -> Tally
    requires { (CanBy s masks (length mem.old) x w y × ((w ≤ 256) × (1024 ≤ length old.old))) × Room n w }
    ensures { tallied mem.new result ≡ paint s (tinted s masks.entry x (across false x w y)) (tallied mem.old n) }
{
    let bytes = s.bytes;
    runs::keep_row(
        old,
        mem,
        s,
        (x * bytes) as usize,
        y as usize,
        (w * bytes) as usize,
    );
    let count = tint_pixels(mem, s, masks, x, w, y);
    let at = surface::place_in_rows(s, x, y);
    paint::note(n, count, runs::unlike(old, 0, mem, at, bytes, w))
}

// A row, 256 at a time. What changes from row to row stays a parameter, here and in tint_part.
fn tint_row(
    mem: &mut [u8],
    old: &mut [u8],
    s: Surface,
    masks: Masks,
    x: u32,
    w: u32,
    y: u32,
    n: Tally,
) -> Tally
    requires { CanBy s masks (length mem.old) x w y × ((1024 ≤ length old.old) × Room n w) }
    ensures { tallied mem.new result ≡ paint s (tinted s masks.entry x (across false x w y)) (tallied mem.old n) }
{
    let mut r = n;
    for i in 0..w / 256 {
        r = tint_part(mem, old, s, masks, x + i * 256, 256, y, r);
    }
    tint_part(mem, old, s, masks, x + w / 256 * 256, w % 256, y, r)
}

// A rectangle by tables of masks, its surface in rows, row by row from the upper left corner; the tally of the pixels written. Public: its parameters stay as docs/PUBLIC.md has them.
pub fn tint_rows(
    mem: &mut [u8],
    s: Surface,
    keep: &[u8; 256],
    flip: &[u8; 256],
    adds: &[u32; 64],
    x: u32,
    y: u32,
    w: u32,
    h: u32,
) -> Tally
    requires { (s.tiled ≡ false) × (RectOn s (length mem.old) x y w h × RowsSound s keep.now flip.now adds.now h) }
    ensures { tallied mem.new result ≡ paint s (down_tints s keep.now flip.now adds.now x y (rect false false x y w h)) (state mem.old 0 0) }
{
    let mut old = [0u8; 1024];
    let mut n = Tally {
        count: 0,
        changed: 0,
    };
    for j in 0..h {
        let masks = Masks {
            keep,
            flip,
            adds,
            first: j % 8 * 8,
        };
        n = tint_row(mem, &mut old, s, masks, x, w, y + j, n);
    }
    n
}
