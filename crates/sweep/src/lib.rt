// Rectangles on surfaces in rows filled or copied pixel by pixel, row by row from one corner.
#![tactic(auto)]

ghost use Rattle.std.specs.Prelude.{◌≡◌, false, length};
ghost use Rattle.surface.specs.Pixels.{px, across, rect};
ghost use Rattle.paint.specs.Paint.{state, tallied, paint};
ghost use Rattle.paint.specs.Mix.{source, fill_source};
ghost use Rattle.sweep.specs.Copy.{source_by, in_turn};
ghost use Rattle.sweep.specs.Asked.{HasSource, RowReady, CanPaint, Rowwise, SourceKey, TargetKey, Laid};
ghost use Rattle.sweep.specs.Row.{in_row};

use ink::Ink;
use keys::Range;
use paint::{Source, Tally};
use surface::Surface;

// A rectangle's work: the ink; where it is copied from, if it is (a flag, as the definitions `fill_task` and `copy_task` have it); and the first pixel of the source and of the target.
#[derive(Clone, Copy)]
pub struct Task {
    pub ink: Ink,
    pub copies: bool,
    pub from: Surface,
    pub sx: u32,
    pub sy: u32,
    pub x: u32,
    pub y: u32,
}

#[tactic(auto, unfolding(paint::specs::Mix::fill_source))]
pub fn fill_source(ink: Ink, bit: u32) -> Source
    ensures { result ≡ fill_source ink bit }
{
    Source {
        value: ink.fore,
        key: false,
        left: ink.clear & (ink.mono & (bit == 0)),
    }
}

// What does not change while a rectangle is painted, worked out before its rows: the ranges of the two keys, the bits of the raster operations, and what those
// make where no pattern is looked at.
#[derive(Drop)]
struct Brush {
    task: Task,
    pattern: [u8; 256],
    source: Range,
    target: Range,
    masks: [u32; 32],
    blank: [u32; 128],
    ghost flat: { Rowwise task },
    ghost by_source: { SourceKey task source },
    ghost by_target: { TargetKey task target },
    ghost laid: { Laid task masks blank },
}

fn brush_of(task: Task, pattern: [u8; 256]) -> Brush
    requires { Rowwise task }
    ensures { (result.task ≡ task) × (result.pattern ≡ pattern) }
{
    let ink = task.ink;
    let masks = plan::masks_of(ink);
    Brush {
        task,
        pattern,
        source: keys::range_of(task.from.bytes, ink.src_min, ink.src_max),
        target: keys::range_of(ink.target.bytes, ink.dst_min, ink.dst_max),
        masks,
        blank: plan::quads_of(masks, [0u32; 8]),
    }
}

// The source of pixel (x, y); `bit` is the bit of a mono pattern there, and `range` that of the source key.
#[tactic(auto, unfolding(crate::specs::Copy::source_by, crate::specs::Copy::source_place))]
fn source_at(mem: &[u8], t: Task, range: Range, bit: u32, x: u32, y: u32) -> Source
    requires { HasSource t (length mem.now) x y × (SourceKey t range × Rowwise t) }
    ensures { result ≡ source_by t bit mem.now (px x y) }
{
    if !t.copies {
        return fill_source(t.ink, bit);
    }
    let from = t.from;
    let sx = t.sx + (x - t.x);
    let sy = t.sy + (y - t.y);
    if from.bytes == 0 {
        return paint::bit_source(t.ink, surface::get_bit(mem, from, sx, sy));
    }
    plan::source_of(
        t.ink,
        range,
        from.bytes,
        surface::get_in_rows(mem, from, sx, sy),
    )
}

// The w pixels of row y, from the left or from the right, after those that n tells of; `quads` and `bits` are of the pattern's row there. A struct for this one call would only say its parameters twice.
fn paint_across(
    mem: &mut [u8],
    b: &Brush,
    quads: &[u32; 128],
    bits: u32,
    w: u32,
    y: u32,
    back: bool,
    n: Tally,
) -> Tally
    requires { RowReady b.now.task w y (length mem.old) n }
    ensures { tallied mem.new result ≡ paint b.now.task.ink.target (in_row b.now.task quads.now bits (across back b.now.task.x w y)) (tallied mem.old n) }
{
    let t = b.task;
    let to = t.ink.target;
    // Read before the loop: read in it, they made keyed copies and fills a tenth slower.
    let source = b.source;
    let target = b.target;
    let mut r = n;
    for i in 0..w {
        let x = paint::place(back, t.x, w, i);
        let column = ink::pattern_column(t.ink, x);
        let s = source_at(mem, t, source, ink::bit_of(bits, column), x, y);
        let at = surface::place_in_rows(to, x, y);
        let old = surface::get_bytes(mem, at, to.bytes);
        let k = plan::quad_at(t.ink, target, s.key, old, column) as usize;
        let v = raster::merge(
            quads[k],
            quads[k + 1],
            quads[k + 2],
            quads[k + 3],
            s.value,
            old,
        );
        r = paint::put_value_at(mem, at, to.bytes, s.left, v, r);
    }
    r
}

// A row, of any pattern.
fn paint_row(mem: &mut [u8], b: &Brush, w: u32, y: u32, back: bool, n: Tally) -> Tally
    requires { RowReady b.now.task w y (length mem.old) n }
    ensures { tallied mem.new result ≡ paint b.now.task.ink.target (in_turn b.now.task b.now.pattern (across back b.now.task.x w y)) (tallied mem.old n) }
{
    let ink = b.task.ink;
    let row = ink::pattern_row(ink, y);
    let bits = ink::pattern_byte(b.pattern, row);
    if paint::is_patternless(ink) {
        return paint_across(mem, b, &b.blank, bits, w, y, back, n);
    }
    let quads = plan::quads_of(b.masks, ink::row_values(ink, b.pattern, row));
    paint_across(mem, b, &quads, bits, w, y, back, n)
}

// A rectangle, row by row from the corner that the two flags name.
pub fn paint_rows(
    mem: &mut [u8],
    t: Task,
    pattern: [u8; 256],
    w: u32,
    h: u32,
    to_left: bool,
    to_top: bool,
) -> Tally
    requires { CanPaint t w h (length mem.old) × Rowwise t }
    ensures { tallied mem.new result ≡ paint t.ink.target (in_turn t pattern (rect to_left to_top t.x t.y w h)) (state mem.old 0 0) }
{
    let b = brush_of(t, pattern);
    let mut n = Tally {
        count: 0,
        changed: 0,
    };
    for j in 0..h {
        n = paint_row(mem, &b, w, paint::place(to_top, t.y, h, j), to_left, n);
    }
    n
}
