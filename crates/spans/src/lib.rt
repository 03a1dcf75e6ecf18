// Which pixels are on a surface, and the span of a rectangle: from its lowest to its highest byte.
#![tactic(auto)]

ghost use Rattle.std.specs.Prelude.{◌≡◌, false, ◌+◌, ◌-◌, ◌^◌, ◌<◌, ◌≤◌};
ghost use Rattle.surface.specs.Place.{row_pixels, first_byte, byte_count, on_surface};
ghost use Rattle.surface.specs.Asked.{Small, Colour};
ghost use Rattle.surface.specs.Pixels.{rect};
ghost use Rattle.spans.specs.Span.{all_on, span_of, meet};
ghost use Rattle.spans.specs.Asked.{InRow};

use surface::Surface;

// The addresses from low up to, and without, past.
#[derive(Clone, Copy)]
pub struct Span {
    pub low: usize,
    pub past: usize,
}

// How many pixels a row has.
#[tactic(auto, unfolding(surface::specs::Place::row_pixels))]
pub fn row_pixels(s: Surface) -> usize
    requires { Small s }
    ensures { result ≡ row_pixels s }
{
    if s.bytes == 0 {
        return 8 * surface::row_bytes(s);
    }
    surface::row_bytes(s) / s.bytes as usize
}

// The first byte of its row that pixel x lies in.
#[tactic(auto, unfolding(surface::specs::Place::first_byte), using(surface::proofs::Bytes::product_lt))]
fn first_byte(s: Surface, x: usize) -> usize
    requires { Small s × (x < 2 ^ 34) }
    ensures { (result ≡ first_byte s x) × (result < 2 ^ 40) }
{
    if s.bytes == 0 {
        return x / 8;
    }
    x * s.bytes as usize
}

// The last one.
#[tactic(auto, unfolding(surface::specs::Place::first_byte, surface::specs::Place::byte_count), using(surface::proofs::Bytes::product_lt))]
fn last_byte(s: Surface, x: usize) -> usize
    requires { Small s × (x < 2 ^ 34) }
    ensures { (result ≡ first_byte s x + (byte_count s - 1)) × (result < 2 ^ 40) }
{
    if s.bytes == 0 {
        return x / 8;
    }
    x * s.bytes as usize + (s.bytes as usize - 1)
}

// Whether pixel (x, y) is on the surface, in a memory of len bytes.
pub fn on_surface(len: usize, s: Surface, x: usize, y: usize) -> bool
    requires { Small s × ((x < 2 ^ 34) × (y < 2 ^ 34)) }
    ensures { result ≡ on_surface s len x y }
{
    x < row_pixels(s) && surface::byte_at(s, last_byte(s, x), y) < len
}

// The same of a colour pixel close to the origin: without a division, and no product has more than 32 bits.
#[tactic(auto, using(surface::proofs::Bytes::product_lt))]
pub fn close_on(len: usize, s: Surface, x: u32, y: u32) -> bool
    requires { Colour s × (x < 2 ^ 13) × (y < 2 ^ 13) }
    ensures { result ≡ on_surface s len x y }
{
    let last = x * s.bytes + (s.bytes - 1);
    (last as usize) < surface::row_bytes(s) && surface::close_at(s, last, y) < len
}

// Whether every pixel of a rectangle is: where the last one is, all are.
pub fn rect_on(len: usize, s: Surface, x: u32, y: u32, w: u32, h: u32) -> bool
    requires { Small s }
    ensures { result ≡ all_on s len (rect false false x y w h) }
{
    w == 0
        || h == 0
        || on_surface(
            len,
            s,
            x as usize + (w as usize - 1),
            y as usize + (h as usize - 1),
        )
}

// The same of w by h pixels at the origin of a colour surface, again without a division.
pub fn box_on(len: usize, s: Surface, w: u32, h: u32) -> bool
    requires { Colour s × (w ≤ 2 ^ 13) × (h ≤ 2 ^ 13) }
    ensures { result ≡ all_on s len (rect false false 0 0 w h) }
{
    w == 0 || h == 0 || close_on(len, s, w - 1, h - 1)
}

// The span of a rectangle's pixels.
pub fn rect_span(s: Surface, x: u32, y: u32, w: u32, h: u32) -> Span
    requires { InRow s x w }
    ensures { result ≡ span_of s (rect false false x y w h) }
{
    if w == 0 || h == 0 {
        return Span { low: 0, past: 0 };
    }
    let low = surface::byte_at(s, first_byte(s, x as usize), y as usize);
    let high = surface::byte_at(
        s,
        last_byte(s, x as usize + (w as usize - 1)),
        y as usize + (h as usize - 1),
    );
    Span {
        low,
        past: high + 1,
    }
}

// Whether two spans have an address in common.
pub fn spans_meet(a: Span, b: Span) -> bool
    ensures { result ≡ meet a b }
{
    (a.low < b.past) & (b.low < a.past)
}
