// What changes memory: one covered pixel, stored and told in the tally, or left; and the place whose turn it is, of a row or a column of them. Nothing here
// knows a register's offset or an answer's number.
#![tactic(auto)]

ghost use Rattle.std.specs.Prelude.{◌≡◌, false, cond, ◌+◌, ◌-◌, ◌^◌, ◌<◌, ◌≤◌, length};
ghost use Rattle.std.proofs.Math.Option.{none, some};
ghost use Rattle.surface.specs.Place.{read_px, one};
ghost use Rattle.surface.specs.Pixels.{px};
ghost use Rattle.surface.specs.Asked.{Held, OnColour, OnClose};
ghost use Rattle.raster.specs.Rop.{rop_bits};
ghost use Rattle.paint.specs.Tally.{noted};
ghost use Rattle.paint.specs.Paint.{tallied, dab, dab_at, nth};
ghost use Rattle.paint.specs.Mix.{colour_source, bit_source, chosen, target_match, mixed, direct, patternless};
ghost use Rattle.paint.specs.Asked.{Room, Ready, Bits12};
ghost use Rattle.paint.specs.Clip.{in_clip};

use ink::Ink;
use surface::Surface;

// What is told of the pixels written so far: how many they are, and how many of them have other bytes than just before they were written.
#[derive(Clone, Copy)]
pub struct Tally {
    pub count: u32,
    pub changed: u32,
}

// A pixel's source: its value in the target's format, whether it matches the source key, and whether the pixel is left unwritten. Flags beside the value: the definitions `source` and `chosen` read each by itself.
#[derive(Clone, Copy)]
pub struct Source {
    pub value: u32,
    pub key: bool,
    pub left: bool,
}

// Columns from left up to, and without, right; rows from top up to, and without, bottom.
#[derive(Clone, Copy)]
pub struct Clip {
    pub left: u32,
    pub right: u32,
    pub top: u32,
    pub bottom: u32,
}

// Whether a position, counted from 16384, is inside the clip.
#[tactic(auto, unfolding(crate::specs::Clip::in_clip))]
pub fn covers(c: Clip, x: u32, y: u32) -> bool
    requires { Bits12 c }
    ensures { result ≡ in_clip c x y }
{
    ((16384 + c.left <= x) & (x < 16384 + c.right))
        & ((16384 + c.top <= y) & (y < 16384 + c.bottom))
}

// The place number i of n from `at`: from the low end, or from the high end.
pub fn place(down: bool, at: u32, n: u32, i: u32) -> u32
    requires { (i < n) × (at + n ≤ 2 ^ 13) }
    ensures { result ≡ nth down at n i }
{
    if down {
        return at + (n - 1 - i);
    }
    at + i
}

#[tactic(auto, unfolding(crate::specs::Mix::colour_source))]
pub fn colour_source(ink: Ink, bytes: u32, v: u32) -> Source
    ensures { result ≡ colour_source ink bytes v }
{
    let value = colour::convert(bytes, ink.target.bytes, v);
    let key = ink.src_key && keys::key_match(bytes, ink.src_min, ink.src_max, v);
    Source {
        value,
        key,
        left: false,
    }
}

#[tactic(auto, unfolding(crate::specs::Mix::bit_source))]
pub fn bit_source(ink: Ink, bit: u32) -> Source
    ensures { result ≡ bit_source ink bit }
{
    Source {
        value: if bit == 1 { ink.fore } else { ink.back },
        key: false,
        left: ink.clear & (bit == 0),
    }
}

// The raster operation for a pixel whose source, and whose target, match their keys or not.
#[tactic(auto, unfolding(crate::specs::Mix::chosen))]
fn choose(ink: Ink, by_source: bool, by_target: bool) -> u32
    ensures { result ≡ chosen ink by_source by_target }
{
    match (by_source, by_target) {
        (true, true) => ink.rop3,
        (true, false) => ink.rop2,
        (false, true) => ink.rop1,
        (false, false) => ink.rop0,
    }
}

fn matches_target(ink: Ink, old: u32) -> bool
    ensures { result ≡ target_match ink old }
{
    ink.dst_key && keys::key_match(ink.target.bytes, ink.dst_min, ink.dst_max, old)
}

// What pattern, source and target make.
pub fn mix(ink: Ink, pattern: u32, s: Source, old: u32) -> u32
    ensures { result ≡ rop_bits 32 (chosen ink s.key (target_match ink old)) pattern s.value old }
{
    let code = choose(ink, s.key, matches_target(ink, old));
    raster::raster(code, pattern, s.value, old)
}

// Whether a pixel gets its source, where the source matches no key.
pub fn is_direct(ink: Ink) -> bool
    ensures { result ≡ direct ink }
{
    (ink.rop0 == 0xcc) & !ink.dst_key
}

// Whether no raster operation of a command looks at the pattern.
pub fn is_patternless(ink: Ink) -> bool
    ensures { result ≡ patternless ink }
{
    (raster::is_pattern_free(ink.rop0) & raster::is_pattern_free(ink.rop1))
        & (raster::is_pattern_free(ink.rop2) & raster::is_pattern_free(ink.rop3))
}

// The tally after k pixels more were written, and c of them changed.
pub fn note(n: Tally, k: u32, c: u32) -> Tally
    requires { Room n k × (c ≤ k) }
    ensures { result ≡ noted k c n }
{
    Tally {
        count: n.count + k,
        changed: n.changed + c,
    }
}

// The tally after one pixel more was written.
fn stored(n: Tally, changed: bool) -> Tally
    requires { Room n 1 }
    ensures { result ≡ noted 1 (one changed) n }
{
    note(n, 1, u32::from(changed))
}

// The one store: the pixel at (x, y) becomes v and is told, or it is left.
#[tactic(auto, unfolding(crate::specs::Paint::dab))]
pub fn put_value(mem: &mut [u8], s: Surface, x: u32, y: u32, left: bool, v: u32, n: Tally) -> Tally
    requires { OnColour s (length mem.old) x y × Room n 1 }
    ensures { tallied mem.new result ≡ dab s (px x y) (cond left none (some v)) (tallied mem.old n) }
{
    if left {
        return n;
    }
    stored(n, surface::put_pixel(mem, s, x, y, v))
}

// The same of a pixel close to the origin: apart from the other two, since a closure for their one call would be no plainer.
#[tactic(auto, unfolding(crate::specs::Paint::dab))]
pub fn put_close(mem: &mut [u8], s: Surface, x: u32, y: u32, left: bool, v: u32, n: Tally) -> Tally
    requires { OnClose s (length mem.old) x y × Room n 1 }
    ensures { tallied mem.new result ≡ dab s (px x y) (cond left none (some v)) (tallied mem.old n) }
{
    if left {
        return n;
    }
    stored(n, surface::put_close(mem, s, x, y, v))
}

// The same of a pixel of so many bytes from an address on.
#[tactic(auto, unfolding(crate::specs::Paint::dab_at))]
pub fn put_value_at(mem: &mut [u8], at: usize, bytes: u32, left: bool, v: u32, n: Tally) -> Tally
    requires { Held at bytes (length mem.old) × Room n 1 }
    ensures { tallied mem.new result ≡ dab_at at bytes (cond left none (some v)) (tallied mem.old n) }
{
    if left {
        return n;
    }
    stored(n, surface::store_bytes(mem, at, bytes, v))
}

// A pixel by itself: it is given what pattern, source and target make, or it is left. Inline: as a call it makes pixels drawn one by one take up to 1.8 times as long.
#[tactic(auto, unfolding(crate::specs::Mix::mixed))]
#[inline(always)]
pub fn put_source(
    mem: &mut [u8],
    ink: Ink,
    pattern: u32,
    x: u32,
    y: u32,
    s: Source,
    n: Tally,
) -> Tally
    requires { Ready ink (length mem.old) x y n }
    ensures { tallied mem.new result ≡ dab ink.target (px x y) (mixed ink pattern s (read_px mem.old ink.target x y)) (tallied mem.old n) }
{
    let old = surface::get_pixel(mem, ink.target, x, y);
    let v = mix(ink, pattern, s, old);
    put_value(mem, ink.target, x, y, s.left, v, n)
}
