// Rectangles filled or copied with each pixel by itself, whatever the layouts of the surfaces.
#![tactic(auto)]

ghost use Rattle.std.specs.Prelude.{◌≡◌, length};
ghost use Rattle.surface.specs.Pixels.{px, across, rect};
ghost use Rattle.paint.specs.Paint.{state, tallied, paint};
ghost use Rattle.sweep.specs.Copy.{source_by, in_turn};
ghost use Rattle.sweep.specs.Asked.{HasSource, RowReady, CanPaint};
ghost use Rattle.patch.specs.Row.{in_row};

use paint::{Source, Tally};
use sweep::Task;

// The source of pixel (x, y); `bit` is the bit of a mono pattern there.
// A twin of sweep's, which reads surfaces in rows alone, with the key as a range worked out before: one for both would ask for the layout at each pixel.
#[tactic(auto, unfolding(sweep::specs::Copy::source_by, sweep::specs::Copy::source_place))]
fn source_at(mem: &[u8], t: Task, bit: u32, x: u32, y: u32) -> Source
    requires { HasSource t (length mem.now) x y }
    ensures { result ≡ source_by t bit mem.now (px x y) }
{
    if !t.copies {
        return sweep::fill_source(t.ink, bit);
    }
    let from = t.from;
    let sx = t.sx + (x - t.x);
    let sy = t.sy + (y - t.y);
    if from.bytes == 0 {
        return paint::bit_source(t.ink, surface::get_bit(mem, from, sx, sy));
    }
    paint::colour_source(t.ink, from.bytes, surface::get_pixel(mem, from, sx, sy))
}

// The w pixels of row y, from the left or from the right, after those that n tells of; `values` and `bits` are of the pattern's row there. A struct for this one call would only say its parameters twice.
fn paint_across(
    mem: &mut [u8],
    t: Task,
    values: [u32; 8],
    bits: u32,
    w: u32,
    y: u32,
    back: bool,
    n: Tally,
) -> Tally
    requires { RowReady t w y (length mem.old) n }
    ensures { tallied mem.new result ≡ paint t.ink.target (in_row t values bits (across back t.x w y)) (tallied mem.old n) }
{
    let mut r = n;
    for i in 0..w {
        let x = paint::place(back, t.x, w, i);
        let column = ink::pattern_column(t.ink, x);
        let s = source_at(mem, t, ink::bit_of(bits, column), x, y);
        r = paint::put_source(mem, t.ink, values[column as usize], x, y, s, r);
    }
    r
}

// A rectangle, row by row from the corner that the two flags name.
pub fn paint_rows(
    mem: &mut [u8],
    t: Task,
    pattern: [u8; 256],
    w: u32,
    h: u32,
    to_left: bool,
    to_top: bool,
) -> Tally
    requires { CanPaint t w h (length mem.old) }
    ensures { tallied mem.new result ≡ paint t.ink.target (in_turn t pattern (rect to_left to_top t.x t.y w h)) (state mem.old 0 0) }
{
    let mut n = Tally {
        count: 0,
        changed: 0,
    };
    for j in 0..h {
        let y = paint::place(to_top, t.y, h, j);
        let row = ink::pattern_row(t.ink, y);
        let bits = ink::pattern_byte(pattern, row);
        let values = ink::row_values(t.ink, pattern, row);
        n = paint_across(mem, t, values, bits, w, y, to_left, n);
    }
    n
}
