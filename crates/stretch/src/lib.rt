// Stretch copies: walks along the rows and the columns say which source pixel each target pixel takes.
#![tactic(auto)]

ghost use Rattle.std.specs.Prelude.{◌≡◌, false, ◌+◌, ◌<◌, length};
ghost use Rattle.surface.specs.Place.{differ};
ghost use Rattle.surface.specs.Pixels.{px, across, rect};
ghost use Rattle.paint.specs.Asked.{Room};
ghost use Rattle.paint.specs.Paint.{state, tallied, paint};
ghost use Rattle.sweep.specs.Copy.{source_from};
ghost use Rattle.sweep.specs.Asked.{SourceKey, TargetKey, Laid};
ghost use Rattle.scale.specs.Stretch.{stretched, stretched_in_turn};
ghost use Rattle.scale.specs.Asked.{CanStretch};
ghost use Rattle.straight.specs.Straight.{copied};
ghost use Rattle.straight.specs.Asked.{PixelCopies};
ghost use Rattle.rect.specs.Fast.{straight_of};
ghost use Rattle.rect.specs.Asked.{Flat};
ghost use Rattle.stretch.specs.Row.{open_task, in_row, straightly};
ghost use Rattle.stretch.specs.Asked.{row_of, RowTakes, ColumnsAt, GoesStraight, OnSource, Begins};

use keys::Range;
use paint::{Source, Tally};
use scale::{Stretch, Walk};
use sweep::Task;

// What every row of a stretch shares: the stretch, its first column, how many columns there are, and the walk along them from there.
#[derive(Drop)]
struct Band {
    stretch: Stretch,
    x: u32,
    w: u32,
    columns: Walk,
    ghost begins: { ColumnsAt stretch columns x },
}

// And what they share where pattern, source and target are mixed: the pattern, the ranges of the two keys, the bits of the raster operations, and what those
// make where no pattern is looked at.
#[derive(Drop)]
struct Brush {
    band: Band,
    pattern: [u8; 256],
    source: Range,
    target: Range,
    masks: [u32; 32],
    blank: [u32; 128],
    ghost by_source: { SourceKey (open_task band.stretch) source },
    ghost by_target: { TargetKey (open_task band.stretch) target },
    ghost laid: { Laid (open_task band.stretch) masks blank },
}

fn brush_of(band: Band, pattern: [u8; 256]) -> Brush
    ensures { (result.band ≡ band) × (result.pattern ≡ pattern) }
{
    let ink = band.stretch.ink;
    let from = band.stretch.from;
    let masks = plan::masks_of(ink);
    Brush {
        band,
        pattern,
        source: keys::range_of(from.bytes, ink.src_min, ink.src_max),
        target: keys::range_of(ink.target.bytes, ink.dst_min, ink.dst_max),
        masks,
        blank: plan::quads_of(masks, [0u32; 8]),
    }
}

// The copy of a pixel, with its places left open.
fn task_of(t: Stretch) -> Task
    ensures { result ≡ open_task t }
{
    Task {
        ink: t.ink,
        copies: true,
        from: t.from,
        sx: 0,
        sy: 0,
        x: 0,
        y: 0,
    }
}

// The pixel whose `to` bytes begin at d, from the source whose `from` bytes begin at s; `keyed` where there is a source key. Whether it changes.
fn straight_pixel(
    mem: &mut [u8],
    t: Stretch,
    keyed: bool,
    from: u32,
    to: u32,
    d: usize,
    s: usize,
) -> bool
    requires { PixelCopies (straight_of (open_task t)) from to d s (length mem.old) × (keyed ≡ t.ink.src_key) }
    ensures { (mem.new ≡ copied (straight_of (open_task t)) d s mem.old) × (result ≡ differ (λ k. d + k) to mem.old mem.new) }
{
    let k = rect::straight_of(task_of(t));
    if keyed {
        return straight::straight_pixel(mem, k, from, to, d, s);
    }
    straight::plain_pixel(mem, k, from, to, d, s)
}

// Row y, whose source is row sy: each pixel, of TO bytes, gets its source, of FROM bytes, or stays as it is where the source matches the key, if it is KEYED;
// how many change. Each pair of formats has a loop of its own, with a key and without, since one that asks for them takes several times as long.
fn straight_across<const FROM: u32, const TO: u32, const KEYED: bool>(
    mem: &mut [u8],
    b: &Band,
    sy: u32,
    y: u32,
) -> u32
    requires { RowTakes b.now.stretch b.now.x y b.now.w (length mem.old) × (GoesStraight b.now.stretch FROM TO sy y × (KEYED ≡ b.now.stretch.ink.src_key)) }
    ensures { state mem.new b.now.w result ≡ paint b.now.stretch.ink.target (straightly b.now.stretch (across false b.now.x b.now.w y)) (state mem.old 0 0) }
{
    let t = b.stretch;
    let d = surface::byte_of(t.ink.target, b.x, y, 0);
    let s = surface::byte_of(t.from, 0, sy, 0);
    let mut walk = b.columns;
    let mut r = 0;
    for i in 0..b.w {
        let at = straight::pixel_at(d, TO, i);
        let source = straight::pixel_at(s, FROM, walk.at - 16384);
        r += u32::from(straight_pixel(mem, t, KEYED, FROM, TO, at, source));
        walk = scale::next(walk);
    }
    r
}

// The same, by the key.
fn straight_way<const FROM: u32, const TO: u32>(mem: &mut [u8], b: &Band, sy: u32, y: u32) -> u32
    requires { RowTakes b.now.stretch b.now.x y b.now.w (length mem.old) × GoesStraight b.now.stretch FROM TO sy y }
    ensures { state mem.new b.now.w result ≡ paint b.now.stretch.ink.target (straightly b.now.stretch (across false b.now.x b.now.w y)) (state mem.old 0 0) }
{
    if b.stretch.ink.src_key {
        return straight_across::<FROM, TO, true>(mem, b, sy, y);
    }
    straight_across::<FROM, TO, false>(mem, b, sy, y)
}

// The same, by the target's format.
fn straight_from<const FROM: u32>(mem: &mut [u8], b: &Band, sy: u32, y: u32) -> u32
    requires { RowTakes b.now.stretch b.now.x y b.now.w (length mem.old) × ((FROM ≡ b.now.stretch.from.bytes) × ((sy ≡ row_of b.now.stretch y) × ((0 < b.now.stretch.from.bytes) × Flat (open_task b.now.stretch)))) }
    ensures { state mem.new b.now.w result ≡ paint b.now.stretch.ink.target (straightly b.now.stretch (across false b.now.x b.now.w y)) (state mem.old 0 0) }
{
    match b.stretch.ink.target.bytes {
        1 => straight_way::<FROM, 1>(mem, b, sy, y),
        2 => straight_way::<FROM, 2>(mem, b, sy, y),
        3 => straight_way::<FROM, 3>(mem, b, sy, y),
        _ => straight_way::<FROM, 4>(mem, b, sy, y),
    }
}

// The same, by the source's format.
fn straight_row(mem: &mut [u8], b: &Band, sy: u32, y: u32) -> u32
    requires { RowTakes b.now.stretch b.now.x y b.now.w (length mem.old) × ((sy ≡ row_of b.now.stretch y) × ((0 < b.now.stretch.from.bytes) × Flat (open_task b.now.stretch))) }
    ensures { state mem.new b.now.w result ≡ paint b.now.stretch.ink.target (straightly b.now.stretch (across false b.now.x b.now.w y)) (state mem.old 0 0) }
{
    match b.stretch.from.bytes {
        1 => straight_from::<1>(mem, b, sy, y),
        2 => straight_from::<2>(mem, b, sy, y),
        3 => straight_from::<3>(mem, b, sy, y),
        _ => straight_from::<4>(mem, b, sy, y),
    }
}

// The h rows from y on of a stretch whose pixels get their sources, or stay as they are where the source matches the key.
fn straight_rows(mem: &mut [u8], b: &Band, rows: Walk, y: u32, h: u32) -> Tally
    requires { Begins b.now.stretch rows b.now.x y b.now.w h (length mem.old) × ((0 < b.now.stretch.from.bytes) × Flat (open_task b.now.stretch)) }
    ensures { tallied mem.new result ≡ paint b.now.stretch.ink.target (straightly b.now.stretch (rect false false b.now.x y b.now.w h)) (state mem.old 0 0) }
{
    let mut walk = rows;
    let mut changed = 0;
    for j in 0..h {
        changed += straight_row(mem, b, walk.at - 16384, y + j);
        walk = scale::next(walk);
    }
    Tally {
        count: b.w * h,
        changed,
    }
}

// The source at (sx, sy); `range` is that of the source key. Its surface in either layout, so that sweep's, for rows alone, does not serve.
// Fields by names of their own, here and in mixed_across: read as fields of t, they took a tenth longer.
fn source_at(mem: &[u8], t: Stretch, range: Range, sx: u32, sy: u32) -> Source
    requires { OnSource t sx sy (length mem.now) × SourceKey (open_task t) range }
    ensures { result ≡ source_from t.ink t.from mem.now (px sx sy) }
{
    let ink = t.ink;
    let from = t.from;
    let bytes = from.bytes;
    if bytes == 0 {
        return paint::bit_source(ink, surface::get_bit(mem, from, sx, sy));
    }
    plan::source_of(ink, range, bytes, surface::get_pixel(mem, from, sx, sy))
}

// Row y, its sources in row sy, after the pixels that n tells of; `quads` are of the pattern's row.
fn mixed_across(mem: &mut [u8], b: &Brush, quads: &[u32; 128], sy: u32, y: u32, n: Tally) -> Tally
    requires { (RowTakes b.now.band.stretch b.now.band.x y b.now.band.w (length mem.old) × Room n b.now.band.w) × (sy ≡ row_of b.now.band.stretch y) }
    ensures { tallied mem.new result ≡ paint b.now.band.stretch.ink.target (in_row b.now.band.stretch quads.now (across false b.now.band.x b.now.band.w y)) (tallied mem.old n) }
{
    let t = b.band.stretch;
    let ink = t.ink;
    let to = ink.target;
    let x = b.band.x;
    let source = b.source;
    let target = b.target;
    let mut walk = b.band.columns;
    let mut r = n;
    for i in 0..b.band.w {
        let at = x + i;
        let s = source_at(mem, t, source, walk.at - 16384, sy);
        let old = surface::get_pixel(mem, to, at, y);
        let column = ink::pattern_column(ink, at);
        let k = plan::quad_at(ink, target, s.key, old, column) as usize;
        let v = raster::merge(
            quads[k],
            quads[k + 1],
            quads[k + 2],
            quads[k + 3],
            s.value,
            old,
        );
        r = paint::put_value(mem, to, at, y, s.left, v, r);
        walk = scale::next(walk);
    }
    r
}

// The same, of any pattern.
fn mixed_row(mem: &mut [u8], b: &Brush, sy: u32, y: u32, n: Tally) -> Tally
    requires { (RowTakes b.now.band.stretch b.now.band.x y b.now.band.w (length mem.old) × Room n b.now.band.w) × (sy ≡ row_of b.now.band.stretch y) }
    ensures { tallied mem.new result ≡ paint b.now.band.stretch.ink.target (stretched_in_turn b.now.band.stretch b.now.pattern (across false b.now.band.x b.now.band.w y)) (tallied mem.old n) }
{
    let ink = b.band.stretch.ink;
    if paint::is_patternless(ink) {
        return mixed_across(mem, b, &b.blank, sy, y, n);
    }
    let values = ink::row_values(ink, b.pattern, ink::pattern_row(ink, y));
    let quads = plan::quads_of(b.masks, values);
    mixed_across(mem, b, &quads, sy, y, n)
}

// The h rows from y on of any stretch.
fn mixed_rows(mem: &mut [u8], b: &Brush, rows: Walk, y: u32, h: u32) -> Tally
    requires { Begins b.now.band.stretch rows b.now.band.x y b.now.band.w h (length mem.old) }
    ensures { tallied mem.new result ≡ paint b.now.band.stretch.ink.target (stretched_in_turn b.now.band.stretch b.now.pattern (rect false false b.now.band.x y b.now.band.w h)) (state mem.old 0 0) }
{
    let mut walk = rows;
    let mut n = Tally {
        count: 0,
        changed: 0,
    };
    for j in 0..h {
        n = mixed_row(mem, b, walk.at - 16384, y + j, n);
        walk = scale::next(walk);
    }
    n
}

// The w by h pixels from (x, y) on, each from its source as it was before; the tally of the pixels written.
pub fn paint_stretch(
    mem: &mut [u8],
    t: Stretch,
    pattern: [u8; 256],
    x: u32,
    y: u32,
    w: u32,
    h: u32,
) -> Tally
    requires { CanStretch t x y w h (length mem.old) }
    ensures { tallied mem.new result ≡ paint t.ink.target (stretched t pattern mem.old (rect false false x y w h)) (state mem.old 0 0) }
{
    if w == 0 || h == 0 {
        return Tally {
            count: 0,
            changed: 0,
        };
    }
    let band = Band {
        stretch: t,
        x,
        w,
        columns: scale::start(t.columns, 16384 + x),
    };
    let rows = scale::start(t.rows, 16384 + y);
    if !t.ink.target.tiled & !t.from.tiled & rect::is_straight(task_of(t)) {
        return straight_rows(mem, &band, rows, y, h);
    }
    mixed_rows(mem, &brush_of(band, pattern), rows, y, h)
}
