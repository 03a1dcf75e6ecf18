// A line drawn point by point.
#![tactic(auto)]

ghost use Rattle.std.specs.Prelude.{◌≡◌, [], ◌∷◌, ◌+◌, ◌-◌, ◌<◌, length};
ghost use Rattle.surface.specs.Place.{read_px};
ghost use Rattle.surface.specs.Pixels.{px};
ghost use Rattle.surface.specs.Asked.{OnClose};
ghost use Rattle.paint.specs.Paint.{state, tallied, dab, paint};
ghost use Rattle.ink.specs.Pattern.{pattern_value};
ghost use Rattle.paint.specs.Mix.{bit_source, mixed};
ghost use Rattle.paint.specs.Asked.{Room};
ghost use Rattle.line.specs.Line.{point_count, points};
ghost use Rattle.line.specs.Stipple.{after, style_after};
ghost use Rattle.line.specs.Draw.{line_touches};
ghost use Rattle.line.specs.Asked.{Drawable, DrawablePoint};

use ink::Ink;
use line::{Line, Pen, Point, Tread};
use paint::{Clip, Tally};

// What a line leaves: the word lineStyle, and the tally of the pixels it wrote.
#[derive(Clone, Copy)]
pub struct LineDone {
    pub style: u32,
    pub tally: Tally,
}

// Pixel (x, y) of a line where its stipple has this bit, after those that n tells of.
fn put_point(
    mem: &mut [u8],
    ink: Ink,
    pattern: &[u8; 256],
    x: u32,
    y: u32,
    bit: u32,
    n: Tally,
) -> Tally
    requires { OnClose ink.target (length mem.old) x y × Room n 1 }
    ensures { tallied mem.new result ≡ dab ink.target (px x y) (mixed ink (pattern_value ink pattern.now x y) (bit_source ink bit) (read_px mem.old ink.target x y)) (tallied mem.old n) }
{
    let source = paint::bit_source(ink, bit);
    let s = ink.target;
    if paint::is_direct(ink) {
        return paint::put_close(mem, s, x, y, source.left, source.value, n);
    }
    let value = ink::pattern_seen(ink, pattern, x, y);
    let old = surface::get_close(mem, s, x, y);
    let v = paint::mix(ink, value, source, old);
    paint::put_close(mem, s, x, y, source.left, v, n)
}

// One point drawn, after those that left `done`.
fn paint_point(
    mem: &mut [u8],
    ink: Ink,
    pattern: &[u8; 256],
    c: Clip,
    p: Point,
    pen: Pen,
    done: LineDone,
) -> LineDone
    requires { DrawablePoint ink.target (length mem.old) c p done.tally }
    ensures { (tallied mem.new result.tally ≡ paint ink.target (line_touches ink pattern.now c pen done.style (p ∷ [])) (tallied mem.old done.tally)) × (result.style ≡ after pen done.style) }
{
    let style = line::style_after(pen, done.style);
    if !paint::covers(c, p.x, p.y) {
        return LineDone { style, ..done };
    }
    let bit = line::stipple_bit(pen, done.style);
    LineDone {
        style,
        tally: put_point(mem, ink, pattern, p.x - 16384, p.y - 16384, bit, done.tally),
    }
}

// The line drawn, point by point.
pub fn paint_each(
    mem: &mut [u8],
    ink: Ink,
    pattern: &[u8; 256],
    c: Clip,
    l: Line,
    pen: Pen,
    style: u32,
) -> LineDone
    requires { Drawable ink.target (length mem.old) c l }
    ensures { (tallied mem.new result.tally ≡ paint ink.target (line_touches ink pattern.now c pen style (points l)) (state mem.old 0 0)) × (result.style ≡ style_after pen (point_count l) style) }
{
    let n = line::long_side(l);
    let m = line::short_side(l);
    let tally = Tally {
        count: 0,
        changed: 0,
    };
    let mut done = LineDone { style, tally };
    let mut t = Tread { aside: 0, rest: n };
    for i in 0..line::point_count(l) {
        let p = line::place_point(l, i, t.aside);
        done = paint_point(mem, ink, pattern, c, p, pen, done);
        t = line::tread_on(n, m, t);
    }
    done
}
