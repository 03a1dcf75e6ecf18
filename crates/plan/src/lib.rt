// What does not change while a rectangle is painted, worked out before its rows: the keys as ranges, and the raster operations of a row of the pattern.
#![tactic(auto)]

ghost use Rattle.std.specs.Prelude.{◌≡◌, ◌&&◌, ◌≤◌, ◌<◌};
ghost use Rattle.keys.specs.Range.{range_of, in_range};
ghost use Rattle.paint.specs.Mix.{colour_source};
ghost use Rattle.plan.specs.Plan.{code_of, MasksOf, QuadsFrom, code_at, quad_at};

use ink::Ink;
use keys::Range;
use paint::Source;

// Raster operation number i of a command. By a match, since the definitions have the four as fields of `Ink`.
#[tactic(auto, unfolding(crate::specs::Plan::code_of))]
fn code_of(ink: Ink, i: u32) -> u32
    ensures { result ≡ code_of ink i }
{
    match i {
        0 => ink.rop0,
        1 => ink.rop1,
        2 => ink.rop2,
        _ => ink.rop3,
    }
}

// The bits of the four raster operations, eight to each, every one at all 32 bits.
pub fn masks_of(ink: Ink) -> [u32; 32]
    ensures { MasksOf ink result }
{
    let mut masks = [0u32; 32];
    for i in 0..32 {
        masks[i as usize] = raster::spread(code_of(ink, i / 8), i % 8);
    }
    masks
}

// For each of the four raster operations at each of the eight pixels of a row of the pattern: four values, by the bits of source and target.
pub fn quads_of(masks: [u32; 32], values: [u32; 8]) -> [u32; 128]
    ensures { QuadsFrom masks values result }
{
    let mut quads = [0u32; 128];
    for i in 0..128 {
        let at = i / 32 * 8 + i % 4;
        quads[i] = raster::lay(masks[at], masks[at + 4], values[i / 4 % 8]);
    }
    quads
}

// Whether a key that is on, or is not, has a pixel in its range.
fn is_hit(on: bool, bytes: u32, range: Range, v: u32) -> bool
    ensures { result ≡ (on && in_range bytes range v) }
{
    on && keys::in_range(bytes, range, v)
}

// The source that the value v of a copied pixel makes.
pub fn source_of(ink: Ink, range: Range, from: u32, v: u32) -> Source
    requires { range ≡ range_of from ink.src_min ink.src_max }
    ensures { result ≡ colour_source ink from v }
{
    Source {
        value: colour::convert_by_rule(from, ink.target.bytes, v),
        key: is_hit(ink.src_key, from, range, v),
        left: false,
    }
}

// Where the values begin of the raster operation that the two key tests choose.
#[tactic(auto, unfolding(crate::specs::Plan::code_at))]
fn code_at(by_source: bool, by_target: bool) -> u32
    ensures { (result ≡ code_at by_source by_target) × (result ≤ 96) }
{
    u32::from(by_source) * 64 + u32::from(by_target) * 32
}

// Where the four values of a pixel begin: of the raster operation that its keys choose, at its column of the pattern.
pub fn quad_at(ink: Ink, range: Range, key: bool, old: u32, column: u32) -> u32
    requires { (range ≡ range_of ink.target.bytes ink.dst_min ink.dst_max) × (column < 8) }
    ensures { (result ≡ quad_at ink key old column) × (result ≤ 124) }
{
    code_at(key, is_hit(ink.dst_key, ink.target.bytes, range, old)) + column * 4
}
