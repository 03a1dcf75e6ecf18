// Which points a line has, the stipple's word from one to the next, and whether one of them is off the surface.
#![tactic(auto)]

ghost use Rattle.std.specs.Prelude.{◌≡◌, true, [], ◌∷◌, ◌+◌, ◌-◌, ◌%◌, ◌^◌, ◌<◌, ◌≤◌, min, max};
ghost use Rattle.surface.specs.Asked.{Colour};
ghost use Rattle.paint.specs.Asked.{Bits12};
ghost use Rattle.line.specs.Line.{far, towards, x_major, longer, shorter, place, point_count, points};
ghost use Rattle.line.specs.Tread.{trodden};
ghost use Rattle.line.specs.Asked.{Within, Placed, Testable};
ghost use Rattle.line.specs.Stipple.{stepped, stipple_bit, after};
ghost use Rattle.line.specs.Draw.{line_off};

use paint::Clip;
use surface::Surface;

#[derive(Clone, Copy)]
pub struct Point {
    pub x: u32,
    pub y: u32,
}

// From (x0, y0) to (x1, y1); poly: a part of a polyline, without its last point.
// Four numbers, not two Points: the definitions that the contracts of paint_line, line_off and command::line_of rest on name them.
#[derive(Clone, Copy)]
pub struct Line {
    pub x0: u32,
    pub y0: u32,
    pub x1: u32,
    pub y1: u32,
    pub poly: bool,
}

// A stipple's bits, and whether there is one: the definitions `stipple_bit` and `after` read the bits only where there is, and command::pen_of gives both.
#[derive(Clone, Copy)]
pub struct Pen {
    pub stipple: u32,
    pub stippled: bool,
}

// k steps from a towards b.
#[tactic(auto, unfolding(crate::specs::Line::towards, crate::specs::Line::far))]
fn moved(a: u32, b: u32, k: u32) -> u32
    requires { k ≤ far a b }
    ensures { result ≡ towards a b k }
{
    if a <= b { a + k } else { a - k }
}

#[tactic(auto, unfolding(crate::specs::Line::x_major, crate::specs::Line::far))]
pub fn x_major(l: Line) -> bool
    ensures { result ≡ x_major l }
{
    l.y0.abs_diff(l.y1) <= l.x0.abs_diff(l.x1)
}

#[tactic(auto, unfolding(crate::specs::Line::longer, crate::specs::Line::x_major, crate::specs::Line::far))]
pub fn long_side(l: Line) -> u32
    ensures { result ≡ longer l }
{
    l.x0.abs_diff(l.x1).max(l.y0.abs_diff(l.y1))
}

#[tactic(auto, unfolding(crate::specs::Line::shorter, crate::specs::Line::x_major, crate::specs::Line::far))]
pub fn short_side(l: Line) -> u32
    ensures { result ≡ shorter l }
{
    l.x0.abs_diff(l.x1).min(l.y0.abs_diff(l.y1))
}

#[tactic(auto, unfolding(crate::specs::Line::point_count, crate::specs::Line::longer, crate::specs::Line::far))]
pub fn point_count(l: Line) -> u32
    requires { Placed l }
    ensures { result ≡ point_count l }
{
    let n = long_side(l);
    if l.poly { n } else { n + 1 }
}

// The point a steps along the major axis and b along the minor.
#[tactic(auto, unfolding(crate::specs::Line::place, crate::specs::Line::longer, crate::specs::Line::shorter))]
pub fn place_point(l: Line, a: u32, b: u32) -> Point
    requires { (a ≤ longer l) × (b ≤ shorter l) }
    ensures { result ≡ place l a b }
{
    if x_major(l) {
        Point {
            x: moved(l.x0, l.x1, a),
            y: moved(l.y0, l.y1, b),
        }
    } else {
        Point {
            x: moved(l.x0, l.x1, b),
            y: moved(l.y0, l.y1, a),
        }
    }
}

// Where a walk along a line is: the steps along the minor axis, and what the division leaves that gives their number.
#[derive(Clone, Copy)]
pub struct Tread {
    pub aside: u32,
    pub rest: u32,
}

// From a point to the next, of a line of sides n and m: what is left over grows, or a step aside takes it up.
#[tactic(auto, unfolding(crate::specs::Tread::trodden))]
pub fn tread_on(n: u32, m: u32, t: Tread) -> Tread
    requires { (m ≤ n) × (n < 2 ^ 13) × (t.aside ≤ n) }
    ensures { result ≡ trodden n m t }
{
    let more = m + m;
    let limit = n + n - more;
    if t.rest < limit {
        Tread {
            rest: t.rest + more,
            ..t
        }
    } else {
        Tread {
            aside: t.aside + 1,
            rest: t.rest - limit,
        }
    }
}

// The word lineStyle after a point of a stippled line.
#[tactic(auto, unfolding(crate::specs::Stipple::stepped))]
fn style_step(style: u32) -> u32
    ensures { result ≡ stepped style }
{
    let count = style % 0x100;
    let size = style / 0x100 % 0x20;
    let position = style / 0x10000 % 0x100;
    let bit = style / 0x1000000 % 0x20;
    let (position, bit) = if position < count {
        (position + 1, bit)
    } else if bit < size {
        (0, bit + 1)
    } else {
        (0, 0)
    };
    count + size * 0x100 + position * 0x10000 + bit * 0x1000000
}

// After a point of any line.
#[tactic(auto, unfolding(crate::specs::Stipple::after))]
pub fn style_after(pen: Pen, style: u32) -> u32
    ensures { result ≡ after pen style }
{
    if pen.stippled {
        style_step(style)
    } else {
        style
    }
}

#[tactic(auto, unfolding(crate::specs::Stipple::stipple_bit))]
pub fn stipple_bit(pen: Pen, style: u32) -> u32
    ensures { result ≡ stipple_bit pen style }
{
    if pen.stippled {
        (pen.stipple >> (style / 0x1000000 % 0x20)) % 2
    } else {
        1
    }
}

// Whether a point is covered, and off the surface.
fn point_off(len: usize, s: Surface, c: Clip, p: Point) -> bool
    requires { Colour s × Bits12 c }
    ensures { result ≡ line_off s len c (p ∷ []) }
{
    paint::covers(c, p.x, p.y) && !spans::close_on(len, s, p.x - 16384, p.y - 16384)
}

// How many columns, from the first on, hold those of a line from a to b inside a clip up to, and without, `end`; or how many rows.
fn reach(a: u32, b: u32, end: u32) -> u32
    requires { Within a × (Within b × (end < 2 ^ 12)) }
    ensures { result ≡ min (max a b + 1) (16384 + end) - 16384 }
{
    (a.max(b) + 1).min(16384 + end).max(16384) - 16384
}

// Whether a covered point of the line is off the surface: none is where the rectangle is on it that holds them.
pub fn line_off(len: usize, s: Surface, c: Clip, l: Line) -> bool
    requires { Testable s c l }
    ensures { result ≡ line_off s len c (points l) }
{
    let w = reach(l.x0, l.x1, c.right);
    let h = reach(l.y0, l.y1, c.bottom);
    if spans::box_on(len, s, w, h) {
        return false;
    }
    let n = long_side(l);
    let m = short_side(l);
    // A step for each point, and no iterator of points: one would take more lines than it saves here and in the two crates that walk so.
    let mut t = Tread { aside: 0, rest: n };
    for i in 0..point_count(l) {
        if point_off(len, s, c, place_point(l, i, t.aside)) {
            return true;
        }
        t = tread_on(n, m, t);
    }
    false
}
