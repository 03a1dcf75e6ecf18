// The pages of memory that a line's written points lie in, and a rectangle that holds these points.
#![tactic(auto)]

ghost use Rattle.std.specs.Prelude.{◌≡◌, [], ◌∷◌, ◌^◌, ◌<◌, max};
ghost use Rattle.pages.specs.Pages.{marking};
ghost use Rattle.paint.specs.Asked.{Bits12};
ghost use Rattle.line.specs.Line.{points};
ghost use Rattle.line.specs.Stipple.{after};
ghost use Rattle.line.specs.Asked.{Placed};
ghost use Rattle.dots.specs.Dots.{dotted, box_low, box_size, line_box};
ghost use Rattle.dots.specs.Asked.{Dottable, DottablePoint, Ends};

use cuts::Cut;
use ink::Ink;
use line::{Line, Pen, Point, Tread};
use paint::Clip;

// The pages of one point are marked, where it is written. The answer is the word lineStyle after the point.
fn mark_dot(marks: &mut [bool; 4096], ink: Ink, c: Clip, p: Point, pen: Pen, style: u32) -> u32
    requires { DottablePoint ink c p }
    ensures { (marks.new ≡ marking ink.target (dotted ink c pen style (p ∷ [])) marks.old) × (result ≡ after pen style) }
{
    let next = line::style_after(pen, style);
    if !paint::covers(c, p.x, p.y) {
        return next;
    }
    let bit = line::stipple_bit(pen, style);
    let source = paint::bit_source(ink, bit);
    if !source.left {
        pages::mark_pixel(marks, ink.target, p.x - 16384, p.y - 16384);
    }
    next
}

// The pages of the line's written points are marked, point by point.
pub fn mark_dots(marks: &mut [bool; 4096], ink: Ink, c: Clip, l: Line, pen: Pen, style: u32)
    requires { Dottable ink c l }
    ensures { marks.new ≡ marking ink.target (dotted ink c pen style (points l)) marks.old }
{
    let n = line::long_side(l);
    let m = line::short_side(l);
    let total = line::point_count(l);
    let mut word = style;
    let mut t = Tread { aside: 0, rest: n };
    for i in 0..total {
        let p = line::place_point(l, i, t.aside);
        word = mark_dot(marks, ink, c, p, pen, word);
        t = line::tread_on(n, m, t);
    }
}

// The first column of a line from a to b inside a clip from `least` on; or the first row.
fn box_low(least: u32, a: u32, b: u32) -> u32
    requires { Ends least a b }
    ensures { result ≡ box_low least a b }
{
    a.min(b).max(16384 + least)
}

// How many columns there are, where the clip ends at `end`; or rows.
fn box_size(least: u32, end: u32, a: u32, b: u32) -> u32
    requires { Ends least a b × (end < 2 ^ 12) }
    ensures { result ≡ box_size least end a b }
{
    let low = box_low(least, a, b);
    let high = (a.max(b) + 1).min(16384 + end);
    high.saturating_sub(low)
}

// A rectangle that holds the line's points inside the clip.
pub fn line_box(l: Line, c: Clip) -> Cut
    requires { Placed l × Bits12 c }
    ensures { result ≡ line_box l c }
{
    Cut {
        x: box_low(c.left, l.x0, l.x1) - 16384,
        y: box_low(c.top, l.y0, l.y1) - 16384,
        w: box_size(c.left, c.right, l.x0, l.x1),
        h: box_size(c.top, c.bottom, l.y0, l.y1),
        sx: 0,
        sy: 0,
    }
}
