// A line drawn: walked by address where it lies inside the clip and its points get their source, and else point by point.
#![tactic(auto)]

ghost use Rattle.std.specs.Prelude.{◌≡◌, ◌+◌, ◌-◌, ◌/◌, ◌%◌, ◌^◌, ◌<◌, ◌≤◌, true, false, ◌&&◌, length, if◌then◌else◌};
ghost use Rattle.paint.specs.Paint.{state, tallied, paint};
ghost use Rattle.surface.specs.Asked.{Colour};
ghost use Rattle.ink.specs.Pattern.{pattern_pixel};
ghost use Rattle.paint.specs.Clip.{in_clip};
ghost use Rattle.paint.specs.Asked.{Bits12};
ghost use Rattle.line.specs.Line.{longer, shorter, point_count, points_from, points};
ghost use Rattle.line.specs.Tread.{AtStep};
ghost use Rattle.line.specs.Asked.{Placed, Drawable};
ghost use Rattle.line.specs.Stipple.{repeat_count, size, position, bit_number, style_of, stipple_bit, after, style_after};
ghost use Rattle.line.specs.Draw.{line_touches};
ghost use Rattle.strokes.specs.Walk.{shift, steps_of, walked_on, walk, plain_touches, clip_touches, walk_touches, whole, walks};
ghost use Rattle.strokes.specs.Mixed.{column_part, row_part, track_of, mix_touches, mixes};
ghost use Rattle.strokes.specs.Asked.{Ahead, Walkable, Mixable, Mixing, OnSpot, Sought, Entered, LeftAt, PartOn};

use ink::Ink;
use line::{Line, Pen, Tread};
use paint::{Clip, Tally};
use points::LineDone;
use raster::Quad;
use std::marker::Model;
use surface::Surface;

// No pixel written yet.
const NONE: Tally = Tally {
    count: 0,
    changed: 0,
};

// Where a walk along a line is: the address of a point's first byte, and the remainder of its steps along the minor axis.
#[derive(Clone, Copy)]
pub struct Walk {
    pub at: usize,
    pub rest: u32,
}

// What a step adds to the address, along the major axis alone and along both; the remainder from which on it goes along both, and what it adds to one below that.
#[derive(Clone, Copy)]
pub struct Steps {
    pub along: usize,
    pub both: usize,
    pub limit: u32,
    pub more: u32,
}

// The word lineStyle by its four fields: contracts see the word.
#[derive(Clone, Copy)]
pub struct Phase {
    repeat: u32,
    size: u32,
    position: u32,
    bit: u32,
}

impl Model for Phase {
    ghost use Rattle.std.specs.Prelude.{ℕ};
    ghost use Rattle.strokes.specs.Phase.{word_of, fields_of, Fields, fields-back};

    ghost Value = { ℕ };

    ghost view = { word_of };

    ghost invariant = { Fields };

    ghost inverse = { fields_of };

    ghost inverse_ok = { fields-back };
}

impl Phase {
    // Of a word, whose other bits go.
    fn of(style: u32) -> Phase
        ensures { result ≡ style_of (repeat_count style) (size style) (position style) (bit_number style) }
    {
        Phase {
            repeat: style % 0x100,
            size: style / 0x100 % 0x20,
            position: style / 0x10000 % 0x100,
            bit: style / 0x1000000 % 0x20,
        }
    }

    fn word(self) -> u32
        ensures { result ≡ self }
    {
        self.repeat + self.size * 0x100 + self.position * 0x10000 + self.bit * 0x1000000
    }

    // After a point.
    #[tactic(auto, unfolding(line::specs::Stipple::after, line::specs::Stipple::stepped))]
    fn after(self, pen: Pen) -> Phase
        ensures { result ≡ after pen self }
    {
        if !pen.stippled {
            self
        } else if self.position < self.repeat {
            Phase {
                position: self.position + 1,
                ..self
            }
        } else if self.bit < self.size {
            Phase {
                position: 0,
                bit: self.bit + 1,
                ..self
            }
        } else {
            Phase {
                position: 0,
                bit: 0,
                ..self
            }
        }
    }

    // The stipple's bit at a point.
    #[tactic(auto, unfolding(line::specs::Stipple::stipple_bit))]
    fn stipple_bit(self, pen: Pen) -> u32
        ensures { result ≡ stipple_bit pen self }
    {
        if pen.stippled {
            (pen.stipple >> self.bit) % 2
        } else {
            1
        }
    }
}

// u, or what takes u off in 64 bits.
#[tactic(auto, unfolding(crate::specs::Walk::shift))]
fn shifted(up: bool, u: usize) -> usize
    ensures { result ≡ shift up u }
{
    if up { u } else { u.wrapping_neg() }
}

// Where pixels are so many bytes apart, and rows so many.
#[tactic(auto, unfolding(crate::specs::Walk::steps_of, line::specs::Line::longer, line::specs::Line::shorter, line::specs::Line::x_major, line::specs::Line::far))]
fn steps_of(bytes: usize, stride: usize, l: Line) -> Steps
    requires { Placed l }
    ensures { result ≡ steps_of bytes stride l }
{
    let across = shifted(l.x0 <= l.x1, bytes);
    let down = shifted(l.y0 <= l.y1, stride);
    let more = 2 * line::short_side(l);
    Steps {
        along: if line::x_major(l) { across } else { down },
        both: across.wrapping_add(down),
        limit: 2 * line::long_side(l) - more,
        more,
    }
}

// The next point.
#[tactic(auto, unfolding(crate::specs::Walk::walked_on))]
fn walk_on(t: Steps, w: Walk) -> Walk
    requires { t.limit + t.more < 2 ^ 32 }
    ensures { result ≡ walked_on t w }
{
    if w.rest < t.limit {
        Walk {
            at: w.at.wrapping_add(t.along),
            rest: w.rest + t.more,
        }
    } else {
        Walk {
            at: w.at.wrapping_add(t.both),
            rest: w.rest - t.limit,
        }
    }
}

// Whether the word lineStyle has no bits but those of its fields.
fn is_whole(style: u32) -> bool
    ensures { result ≡ whole style }
{
    Phase::of(style).word() == style
}

// The line drawn by address, where each point, of N bytes, gets its source.
fn stipple_points<const N: u32>(mem: &mut [u8], ink: Ink, l: Line, pen: Pen, style: u32) -> LineDone
    requires { Walkable ink.target (length mem.old) l style × (N ≡ ink.target.bytes) }
    ensures { (tallied mem.new result.tally ≡ paint ink.target (walk_touches ink pen style (points l)) (state mem.old 0 0)) × (result.style ≡ style_after pen (point_count l) style) }
{
    let s = ink.target;
    let t = steps_of(s.bytes as usize, s.stride as usize, l);
    let mut w = Walk {
        at: surface::close_byte(s, l.x0 - 16384, l.y0 - 16384, 0),
        rest: line::long_side(l),
    };
    let mut p = Phase::of(style);
    let mut tally = NONE;
    for _i in 0..line::point_count(l) {
        let on = p.stipple_bit(pen) == 1;
        let v = if on { ink.fore } else { ink.back };
        tally = paint::put_value_at(mem, w.at, N, ink.clear & !on, v, tally);
        w = walk_on(t, w);
        p = p.after(pen);
    }
    LineDone {
        style: p.word(),
        tally,
    }
}

// By the number of bytes: a switch, since a const parameter is chosen by one, so that each has a loop of its own.
fn walk_line(mem: &mut [u8], ink: Ink, l: Line, pen: Pen, style: u32) -> LineDone
    requires { Walkable ink.target (length mem.old) l style }
    ensures { (tallied mem.new result.tally ≡ paint ink.target (walk_touches ink pen style (points l)) (state mem.old 0 0)) × (result.style ≡ style_after pen (point_count l) style) }
{
    match ink.target.bytes {
        1 => stipple_points::<1>(mem, ink, l, pen, style),
        2 => stipple_points::<2>(mem, ink, l, pen, style),
        3 => stipple_points::<3>(mem, ink, l, pen, style),
        _ => stipple_points::<4>(mem, ink, l, pen, style),
    }
}

// A column of the pattern in the bits from 32 on.
fn column_part(u: u32) -> usize
    requires { u < 2 ^ 14 }
    ensures { result ≡ column_part u }
{
    (u as usize) << 32
}

// A row of it in those from 46 on; the forced row is 0.
fn row_part(ink: Ink, u: u32) -> usize
    requires { u < 2 ^ 14 }
    ensures { result ≡ row_part ink u }
{
    if ink.forced { 0 } else { (u as usize) << 46 }
}

// The pixel of n bytes of a colour pattern whose column and row lie there.
fn cell_of(pattern: &[u8; 256], n: u32, at: usize) -> u32
    requires { (0 < n) × (n < 5) }
    ensures { result ≡ pattern_pixel n pattern.now (at / 2 ^ 32 % 8) (at / 2 ^ 46 % 8) }
{
    let cell = at / 0x4000_0000_0000 % 8 * 8 + at / 0x1_0000_0000 % 8;
    surface::get_bytes(pattern, cell * n as usize, n)
}

// A line and its ink, with what a walk along it goes by, worked out before: the walk's address has the pattern's cell in its high bits.
#[derive(Clone, Copy)]
pub struct Track {
    pub ink: Ink,
    pub line: Line,
    pub quad: Quad,
    pub steps: Steps,
    pub walk: Walk,
    pub total: u32,
}

fn track_of(ink: Ink, l: Line) -> Track
    requires { Colour ink.target × Ahead l }
    ensures { result ≡ track_of ink l }
{
    let s = ink.target;
    let x = l.x0 - 16384;
    let y = l.y0 - 16384;
    let bytes = s.bytes as usize + column_part(1);
    let stride = s.stride as usize + row_part(ink, 1);
    let place = surface::close_byte(s, x, y, 0);
    let column = column_part(ink.pat_x % 8 + x);
    let row = row_part(ink, ink.pat_y % 8 + y);
    Track {
        ink,
        line: l,
        quad: raster::quad_of(ink.rop0, ink.fore),
        steps: steps_of(bytes, stride, l),
        walk: Walk {
            at: place + column + row,
            rest: line::long_side(l),
        },
        total: line::point_count(l),
    }
}

// The line drawn by address, where each point, of N bytes, gets what pattern, colorFore and target make.
fn mix_points<const N: u32, const FLIP: bool>(
    mem: &mut [u8],
    pattern: &[u8; 256],
    track: Track,
) -> Tally
    requires { Mixing (length mem.old) N FLIP track }
    ensures { tallied mem.new result ≡ paint track.ink.target (mix_touches track.ink pattern.now (points track.line)) (state mem.old 0 0) }
{
    let mut w = track.walk;
    let mut tally = NONE;
    for _i in 0..track.total {
        let at = w.at % 0x1_0000_0000;
        let old = surface::get_bytes(mem, at, N);
        let p = cell_of(pattern, N, w.at);
        let v = raster::by_quad(track.quad, FLIP, p, old);
        tally = paint::put_value_at(mem, at, N, false, v, tally);
        w = walk_on(track.steps, w);
    }
    tally
}

// By the number of bytes too.
fn mix_line<const FLIP: bool>(mem: &mut [u8], pattern: &[u8; 256], track: Track) -> Tally
    requires { Mixing (length mem.old) track.ink.target.bytes FLIP track }
    ensures { tallied mem.new result ≡ paint track.ink.target (mix_touches track.ink pattern.now (points track.line)) (state mem.old 0 0) }
{
    match track.ink.target.bytes {
        1 => mix_points::<1, FLIP>(mem, pattern, track),
        2 => mix_points::<2, FLIP>(mem, pattern, track),
        3 => mix_points::<3, FLIP>(mem, pattern, track),
        _ => mix_points::<4, FLIP>(mem, pattern, track),
    }
}

// And by what the operation does to the target.
fn walk_mixed(mem: &mut [u8], ink: Ink, pattern: &[u8; 256], l: Line) -> Tally
    requires { Mixable ink (length mem.old) l }
    ensures { tallied mem.new result ≡ paint ink.target (mix_touches ink pattern.now (points l)) (state mem.old 0 0) }
{
    let track = track_of(ink, l);
    if raster::is_flip(ink.rop0) {
        mix_line::<true>(mem, pattern, track)
    } else {
        mix_line::<false>(mem, pattern, track)
    }
}

// A point of a line by its number, and the walk there.
#[derive(Clone, Copy)]
pub struct Spot {
    pub at: u32,
    pub tread: Tread,
}

// From a spot on, the first point inside the clip, or the first outside it; past the last where there is none.
fn seek<const INSIDE: bool>(c: Clip, l: Line, from: Spot) -> Spot
    requires { Placed l × Bits12 c × OnSpot l from }
    ensures { Sought c l INSIDE from.at result }
{
    let n = line::long_side(l);
    let m = line::short_side(l);
    let total = line::point_count(l);
    let mut tread = from.tread;
    for at in from.at..total {
        let p = line::place_point(l, at, tread.aside);
        if paint::covers(c, p.x, p.y) == INSIDE {
            return Spot { at, tread };
        }
        tread = line::tread_on(n, m, tread);
    }
    Spot { at: total, tread }
}

// How many steps one way lead out of a clip that holds position p.
fn room(up: bool, low: u32, high: u32, p: u32) -> u32
    requires { (16384 + low ≤ p) × (p < 16384 + high) × (high < 2 ^ 12) }
    ensures { result ≡ (if up then 16384 + high - p else p + 1 - (16384 + low)) }
{
    if up {
        16384 + high - p
    } else {
        p + 1 - (16384 + low)
    }
}

// The number of the first point that is outside the clip again, after one inside it. Where the line ends between the clip's sides along its minor axis, it leaves along the
// major one.
fn leave(c: Clip, l: Line, from: Spot) -> u32
    requires { Placed l × Bits12 c × Entered c l from }
    ensures { LeftAt c l from result }
{
    let p = line::place_point(l, from.at, from.tread.aside);
    let total = line::point_count(l);
    if line::x_major(l) {
        if paint::covers(c, p.x, l.y1) {
            return total.min(from.at + room(l.x0 <= l.x1, c.left, c.right, p.x));
        }
    } else {
        if paint::covers(c, l.x1, p.y) {
            return total.min(from.at + room(l.y0 <= l.y1, c.top, c.bottom, p.y));
        }
    }
    seek::<false>(c, l, from).at
}

// The points of a line from a spot up to, and without, one of number `past`.
#[derive(Clone, Copy)]
pub struct Part {
    pub line: Line,
    pub from: Spot,
    pub past: u32,
}

// They are drawn by address, and each gets colorFore: a loop with less to keep than that of a stipple. WHOLE, or a part inside the clip: the compiler has
// one for each caller, and puts it there, which a single one for both is not.
fn walk_part<const WHOLE: bool>(mem: &mut [u8], ink: Ink, part: Part) -> Tally
    requires { PartOn ink.target (length mem.old) part }
    ensures { tallied mem.new result ≡ paint ink.target (plain_touches ink.fore (points_from part.line part.from.at (part.past - part.from.at))) (state mem.old 0 0) }
{
    let s = ink.target;
    let t = steps_of(s.bytes as usize, s.stride as usize, part.line);
    let p = line::place_point(part.line, part.from.at, part.from.tread.aside);
    let mut w = Walk {
        at: surface::close_byte(s, p.x - 16384, p.y - 16384, 0),
        rest: part.from.tread.rest,
    };
    let mut tally = NONE;
    for _i in part.from.at..part.past {
        tally = paint::put_value_at(mem, w.at, s.bytes, false, ink.fore, tally);
        w = walk_on(t, w);
    }
    tally
}

// The first point of a line.
fn start_of(l: Line) -> Spot
    ensures { (result.at ≡ 0) × AtStep (longer l) (shorter l) 0 result.tread }
{
    Spot {
        at: 0,
        tread: Tread {
            aside: 0,
            rest: line::long_side(l),
        },
    }
}

// All points of a line without a stipple, each of which gets colorFore.
fn walk_plain(mem: &mut [u8], ink: Ink, l: Line) -> Tally
    requires { Walkable ink.target (length mem.old) l 0 }
    ensures { tallied mem.new result ≡ paint ink.target (plain_touches ink.fore (points l)) (state mem.old 0 0) }
{
    let part = Part {
        line: l,
        from: start_of(l),
        past: line::point_count(l),
    };
    walk_part::<true>(mem, ink, part)
}

// Those inside the clip: they follow each other.
fn walk_clipped(mem: &mut [u8], ink: Ink, c: Clip, l: Line) -> Tally
    requires { Drawable ink.target (length mem.old) c l × (ink.target.tiled ≡ false) }
    ensures { tallied mem.new result ≡ paint ink.target (clip_touches ink.fore c (points l)) (state mem.old 0 0) }
{
    let from = seek::<true>(c, l, start_of(l));
    if from.at == line::point_count(l) {
        return NONE;
    }
    let part = Part {
        line: l,
        from,
        past: leave(c, l, from),
    };
    walk_part::<false>(mem, ink, part)
}

fn ends_inside(c: Clip, l: Line) -> bool
    requires { Bits12 c }
    ensures { result ≡ (in_clip c l.x0 l.y0 && in_clip c l.x1 l.y1) }
{
    paint::covers(c, l.x0, l.y0) & paint::covers(c, l.x1, l.y1)
}

// Whether a line can be walked.
fn can_walk(ink: Ink, c: Clip, l: Line, style: u32) -> bool
    requires { Bits12 c }
    ensures { result ≡ walks ink c l style }
{
    paint::is_direct(ink) & is_whole(style) & ends_inside(c, l) & !ink.target.tiled
}

// Whether it can be walked with the pattern: without a key, a stipple or a mono pattern.
fn can_mix(ink: Ink, c: Clip, l: Line, pen: Pen) -> bool
    requires { Bits12 c }
    ensures { result ≡ mixes ink c l pen }
{
    !ink.dst_key & !ink.mono & !pen.stippled & ends_inside(c, l) & !ink.target.tiled
}

// The line drawn.
pub fn paint_line(
    mem: &mut [u8],
    ink: Ink,
    pattern: &[u8; 256],
    c: Clip,
    l: Line,
    pen: Pen,
    style: u32,
) -> LineDone
    requires { Drawable ink.target (length mem.old) c l }
    ensures { (tallied mem.new result.tally ≡ paint ink.target (line_touches ink pattern.now c pen style (points l)) (state mem.old 0 0)) × (result.style ≡ style_after pen (point_count l) style) }
{
    if can_walk(ink, c, l, style) {
        if !pen.stippled {
            let tally = walk_plain(mem, ink, l);
            return LineDone { style, tally };
        }
        return walk_line(mem, ink, l, pen, style);
    }
    if can_mix(ink, c, l, pen) {
        let tally = walk_mixed(mem, ink, pattern, l);
        return LineDone { style, tally };
    }
    if paint::is_direct(ink) & !pen.stippled & !ink.target.tiled {
        let tally = walk_clipped(mem, ink, c, l);
        return LineDone { style, tally };
    }
    points::paint_each(mem, ink, pattern, c, l, pen, style)
}
