// Rectangles of pixels, filled or copied: in rows as runs of bytes or bits where they can be, on tiles in blocks where they can be, and else pixel by pixel.
#![tactic(auto)]

ghost use Rattle.std.specs.Prelude.{◌≡◌, true, false, ◌+◌, ◌-◌, ◌*◌, ◌^◌, ◌<◌, length};
ghost use Rattle.surface.specs.Pixels.{rect};
ghost use Rattle.paint.specs.Paint.{state, tallied, paint, changing, summed};
ghost use Rattle.sweep.specs.Copy.{in_turn};
ghost use Rattle.sweep.specs.Asked.{CanPaint, Orderly};
ghost use Rattle.rect.specs.Fast.{solid, plainly, straight, straight_of, bitwise, mono_of, source_byte, behind, overlap, touching, late, to_row, from_row};
ghost use Rattle.rect.specs.Asked.{RowMoves, Moves, Apart, Cornered};
ghost use Rattle.runs.specs.Runs.{unlikes, Shifted, Given};

use bits::{Mono, Plain};
use blocks::Way;
use paint::Tally;
use straight::Straight;
use sweep::Task;

// Row y of a plain copy, as a run of its w pixels; how many change.
fn move_row(mem: &mut [u8], t: Task, w: u32, y: u32, to_left: bool) -> u32
    requires { RowMoves t w y (length mem.old) to_left }
    ensures { Shifted (to_row t y) (from_row t y) 0 (w * t.from.bytes) mem.old mem.new × (result ≡ unlikes mem.old mem.old t.from.bytes (to_row t y) (from_row t y) w) }
{
    let d = surface::byte_of(t.ink.target, t.x, y, 0);
    let s = surface::byte_of(t.from, t.sx, t.sy + (y - t.y), 0);
    runs::move_pixels(mem, d, s, t.from.bytes, w, to_left)
}

// A plain copy, row by row from the corner that the two flags name; how many pixels change.
fn move_rows(mem: &mut [u8], t: Task, w: u32, h: u32, to_left: bool, to_top: bool) -> u32
    requires { Moves t w h (length mem.old) to_left to_top }
    ensures { Given t.ink.target (source_byte t mem.old) t.x t.y w h mem.old mem.new × (result ≡ summed (changing t.ink.target mem.old mem.new) (rect false false t.x t.y w h)) }
{
    let mut r = 0;
    for j in 0..h {
        let y = paint::place(to_top, t.y, h, j);
        r += move_row(mem, t, w, y, to_left);
    }
    r
}

// Whether a copy moves the bytes of its source.
fn is_plain(t: Task) -> bool
    ensures { result ≡ plainly t }
{
    t.copies
        & (t.ink.rop0 == 0xcc)
        & !t.ink.src_key
        & !t.ink.dst_key
        & (t.from.bytes == t.ink.target.bytes)
}

// Whether a fill gives each pixel colorFore.
fn is_solid(t: Task) -> bool
    ensures { result ≡ solid t }
{
    !t.copies & (t.ink.rop0 == 0xcc) & !t.ink.dst_key & !(t.ink.clear & t.ink.mono)
}

// Whether a source place comes before the target's, going up, or after it, going down.
fn is_behind(down: bool, s: u32, x: u32) -> bool
    ensures { result ≡ behind down s x }
{
    if down {
        return x < s;
    }
    s < x
}

// Whether n places from s on and n from x on have one in common.
fn do_overlap(s: u32, x: u32, n: u32) -> bool
    ensures { result ≡ overlap s x n }
{
    let (s, x, n) = (s as usize, x as usize, n as usize);
    (s < x + n) & (x < s + n)
}

// Whether a copy shares a pixel with its source.
#[tactic(auto, unfolding(crate::specs::Fast::touching))]
fn is_touching(t: Task, w: u32, h: u32) -> bool
    ensures { result ≡ touching t w h }
{
    surface::same_surface(t.from, t.ink.target)
        & (do_overlap(t.sx, t.x, w) & do_overlap(t.sy, t.y, h))
}

// Whether, from the corner that the two flags name, it reads a pixel after it was overwritten.
#[tactic(auto, unfolding(crate::specs::Fast::late))]
fn is_late(t: Task, w: u32, h: u32, to_left: bool, to_top: bool) -> bool
    ensures { result ≡ late to_left to_top t w h }
{
    is_touching(t, w, h)
        & (is_behind(to_top, t.sy, t.y) | ((t.sy == t.y) & is_behind(to_left, t.sx, t.x)))
}

// Whether a mono copy gives each pixel the colour of its bit.
fn is_bitwise(t: Task) -> bool
    ensures { result ≡ bitwise t }
{
    t.copies & (t.from.bytes == 0) & paint::is_direct(t.ink)
}

#[tactic(auto, unfolding(crate::specs::Fast::mono_of))]
fn mono_of(t: Task) -> Mono
    ensures { (result ≡ mono_of t) × ((t.ink.fore < 2 ^ 32) × (t.ink.back < 2 ^ 32)) }
{
    Mono {
        plain: Plain {
            target: t.ink.target,
            fore: t.ink.fore,
            back: t.ink.back,
            clear: t.ink.clear,
        },
        from: t.from,
        sx: t.sx,
        sy: t.sy,
        x: t.x,
        y: t.y,
    }
}

// Whether a copy gives each pixel its source, or keeps what stands there where the source matches the key.
pub fn is_straight(t: Task) -> bool
    ensures { result ≡ straight t }
{
    t.copies
        & !(t.from.bytes == 0)
        & paint::is_direct(t.ink)
        & (!t.ink.src_key | (t.ink.rop2 == 0xaa))
}

#[tactic(auto, unfolding(crate::specs::Fast::straight_of))]
pub fn straight_of(t: Task) -> Straight
    ensures { result ≡ straight_of t }
{
    Straight {
        target: t.ink.target,
        from: t.from,
        key: t.ink.src_key,
        least: t.ink.src_min,
        most: t.ink.src_max,
        x: t.x,
        y: t.y,
        sx: t.sx,
        sy: t.sy,
    }
}

// A plain copy that shares no pixel with its source; how many change.
fn move_apart(mem: &mut [u8], t: Task, w: u32, h: u32) -> u32
    requires { Apart t w h (length mem.old) }
    ensures { Given t.ink.target (source_byte t mem.old) t.x t.y w h mem.old mem.new × (result ≡ summed (changing t.ink.target mem.old mem.new) (rect false false t.x t.y w h)) }
{
    let to = t.ink.target;
    let from = t.from;
    let n = to.bytes as usize;
    let b = Way {
        to,
        from,
        x: t.x as usize * n,
        y: t.y as usize,
        sx: t.sx as usize * n,
        sy: t.sy as usize,
    };
    let changed = blocks::unlike_rows(mem, to, from, t.x, t.y, t.sx, t.sy, w, h);
    blocks::move_blocks(mem, b, w as usize * n, h as usize);
    changed
}

// A rectangle filled, from the upper left corner, or copied, where a surface is tiled; the tally of the pixels written.
fn on_tiles(
    mem: &mut [u8],
    t: Task,
    pattern: [u8; 256],
    w: u32,
    h: u32,
    to_left: bool,
    to_top: bool,
) -> Tally
    requires { CanPaint t w h (length mem.old) × Cornered t w h to_left to_top }
    ensures { tallied mem.new result ≡ paint t.ink.target (in_turn t pattern (rect to_left to_top t.x t.y w h)) (state mem.old 0 0) }
{
    if (0 < w) & (0 < h) {
        if is_plain(t) & !is_touching(t, w, h) {
            return Tally {
                count: w * h,
                changed: move_apart(mem, t, w, h),
            };
        }
        if is_solid(t) {
            let v = raster::raster(0xcc, 0, t.ink.fore, 0);
            return blocks::solid_blocks(mem, t.ink.target, v, t.x, t.y, w, h);
        }
        if !t.copies & !t.ink.dst_key {
            return wash::wash_rows(mem, t.ink, pattern, t.x, t.y, w, h);
        }
    }
    patch::paint_rows(mem, t, pattern, w, h, to_left, to_top)
}

// A rectangle filled; the tally of the pixels written.
pub fn fill_rect(mem: &mut [u8], t: Task, pattern: [u8; 256], w: u32, h: u32) -> Tally
    requires { CanPaint t w h (length mem.old) × (t.copies ≡ false) }
    ensures { tallied mem.new result ≡ paint t.ink.target (in_turn t pattern (rect false false t.x t.y w h)) (state mem.old 0 0) }
{
    if t.ink.target.tiled {
        return on_tiles(mem, t, pattern, w, h, false, false);
    }
    if is_solid(t) {
        let v = raster::raster(0xcc, 0, t.ink.fore, 0);
        return runs::solid_rows(mem, t.ink.target, v, t.x, t.y, w, h);
    }
    if !t.ink.dst_key {
        return wash::wash_rows(mem, t.ink, pattern, t.x, t.y, w, h);
    }
    sweep::paint_rows(mem, t, pattern, w, h, false, false)
}

// A rectangle copied from the corner that the two flags name, each pixel from the source as it then stands; the tally of the pixels written.
pub fn copy_rect(
    mem: &mut [u8],
    t: Task,
    pattern: [u8; 256],
    w: u32,
    h: u32,
    to_left: bool,
    to_top: bool,
) -> Tally
    requires { CanPaint t w h (length mem.old) × ((t.copies ≡ true) × Orderly t w h) }
    ensures { tallied mem.new result ≡ paint t.ink.target (in_turn t pattern (rect to_left to_top t.x t.y w h)) (state mem.old 0 0) }
{
    if t.ink.target.tiled | t.from.tiled {
        return on_tiles(mem, t, pattern, w, h, to_left, to_top);
    }
    if is_bitwise(t) {
        return bits::mono_rows(mem, mono_of(t), w, h);
    }
    if is_plain(t) & !is_late(t, w, h, to_left, to_top) {
        return Tally {
            count: w * h,
            changed: move_rows(mem, t, w, h, to_left, to_top),
        };
    }
    if is_straight(t) {
        return straight::straight_rows(mem, straight_of(t), w, h, to_left, to_top);
    }
    sweep::paint_rows(mem, t, pattern, w, h, to_left, to_top)
}
