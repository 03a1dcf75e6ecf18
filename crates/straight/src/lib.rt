// Copies whose pixels get their source, converted, or stay as they are where the source matches the key.
#![tactic(auto)]

ghost use Rattle.std.specs.Prelude.{◌≡◌, true, false, ◌+◌, ◌*◌, ◌^◌, ◌<◌, length};
ghost use Rattle.surface.specs.Place.{differ};
ghost use Rattle.surface.specs.Pixels.{across, rect};
ghost use Rattle.paint.specs.Paint.{state, tallied, paint};
ghost use Rattle.straight.specs.Straight.{keyed, straightly, copied};
ghost use Rattle.straight.specs.Asked.{CanCopy, RowCopies, Formats, RunAt, PixelCopies};

use paint::Tally;
use surface::Surface;

// What a straight copy needs: the two surfaces, the source key if there is one (flag and bounds as the definition `straight_of` has them), and the first pixel of the target and of the source.
#[derive(Clone, Copy)]
pub struct Straight {
    pub target: Surface,
    pub from: Surface,
    pub key: bool,
    pub least: u32,
    pub most: u32,
    pub x: u32,
    pub y: u32,
    pub sx: u32,
    pub sy: u32,
}

// Whether a source value matches the key, if there is one.
fn is_keyed(t: Straight, from: u32, v: u32) -> bool
    requires { from ≡ t.from.bytes }
    ensures { result ≡ keyed t v }
{
    // Not `&&`: with it straight_pixel grows past what is put into its callers' loops, and copies of 16 to 32 bits took more than twice as long.
    if t.key {
        return keys::key_match(from, t.least, t.most, v);
    }
    false
}

// The address of pixel number k of a row that begins at `first`.
pub fn pixel_at(first: usize, bytes: u32, k: u32) -> usize
    requires { first + k * bytes < 2 ^ 64 }
    ensures { result ≡ first + k * bytes }
{
    first + (k as usize) * (bytes as usize)
}

// The pixel whose `to` bytes begin at d, from the source whose `from` bytes begin at s; whether it changes.
pub fn straight_pixel(mem: &mut [u8], t: Straight, from: u32, to: u32, d: usize, s: usize) -> bool
    requires { PixelCopies t from to d s (length mem.old) }
    ensures { (mem.new ≡ copied t d s mem.old) × (result ≡ differ (λ k. d + k) to mem.old mem.new) }
{
    let v = surface::get_bytes(mem, s, from);
    if is_keyed(t, from, v) {
        return false;
    }
    surface::store_bytes(mem, d, to, colour::convert_by_rule(from, to, v))
}

// The same of a copy without a key: apart, so that a stretch without one has no test of it in its loop.
pub fn plain_pixel(mem: &mut [u8], t: Straight, from: u32, to: u32, d: usize, s: usize) -> bool
    requires { PixelCopies t from to d s (length mem.old) × (t.key ≡ false) }
    ensures { (mem.new ≡ copied t d s mem.old) × (result ≡ differ (λ k. d + k) to mem.old mem.new) }
{
    let value = surface::get_bytes(mem, s, from);
    surface::store_bytes(mem, d, to, colour::convert_by_rule(from, to, value))
}

// The w pixels of row j, of TO bytes each from d on, and their sources, of FROM bytes each from s on: from the left, or BACK from the right; how many change.
// Each pair of formats and each direction has a loop of its own, since one that asks for them takes several times as long.
fn straight_run<const FROM: u32, const TO: u32, const BACK: bool>(
    mem: &mut [u8],
    t: Straight,
    d: usize,
    s: usize,
    w: u32,
    j: u32,
) -> u32
    requires { RowCopies t w j (length mem.old) × RunAt t FROM TO d s j }
    ensures { state mem.new w result ≡ paint t.target (straightly t (across BACK t.x w (t.y + j))) (state mem.old 0 0) }
{
    let mut r = 0;
    for i in 0..w {
        let k = paint::place(BACK, 0, w, i);
        let changed = straight_pixel(mem, t, FROM, TO, pixel_at(d, TO, k), pixel_at(s, FROM, k));
        r += u32::from(changed);
    }
    r
}

// Row j, whose formats are these, from the left or from the right.
fn straight_way<const FROM: u32, const TO: u32>(
    mem: &mut [u8],
    t: Straight,
    w: u32,
    j: u32,
    back: bool,
) -> u32
    requires { RowCopies t w j (length mem.old) × Formats t FROM TO }
    ensures { state mem.new w result ≡ paint t.target (straightly t (across back t.x w (t.y + j))) (state mem.old 0 0) }
{
    let d = surface::place_in_rows(t.target, t.x, t.y + j);
    let s = surface::place_in_rows(t.from, t.sx, t.sy + j);
    if back {
        return straight_run::<FROM, TO, true>(mem, t, d, s, w, j);
    }
    straight_run::<FROM, TO, false>(mem, t, d, s, w, j)
}

// Row j, whose source has this format.
fn straight_from<const FROM: u32>(mem: &mut [u8], t: Straight, w: u32, j: u32, back: bool) -> u32
    requires { RowCopies t w j (length mem.old) × (FROM ≡ t.from.bytes) }
    ensures { state mem.new w result ≡ paint t.target (straightly t (across back t.x w (t.y + j))) (state mem.old 0 0) }
{
    match t.target.bytes {
        1 => straight_way::<FROM, 1>(mem, t, w, j, back),
        2 => straight_way::<FROM, 2>(mem, t, w, j, back),
        3 => straight_way::<FROM, 3>(mem, t, w, j, back),
        _ => straight_way::<FROM, 4>(mem, t, w, j, back),
    }
}

// Row j.
fn straight_row(mem: &mut [u8], t: Straight, w: u32, j: u32, back: bool) -> u32
    requires { RowCopies t w j (length mem.old) }
    ensures { state mem.new w result ≡ paint t.target (straightly t (across back t.x w (t.y + j))) (state mem.old 0 0) }
{
    match t.from.bytes {
        1 => straight_from::<1>(mem, t, w, j, back),
        2 => straight_from::<2>(mem, t, w, j, back),
        3 => straight_from::<3>(mem, t, w, j, back),
        _ => straight_from::<4>(mem, t, w, j, back),
    }
}

// A straight copy, row by row from the corner that the two flags name; the tally of its pixels.
pub fn straight_rows(
    mem: &mut [u8],
    t: Straight,
    w: u32,
    h: u32,
    to_left: bool,
    to_top: bool,
) -> Tally
    requires { CanCopy t w h (length mem.old) }
    ensures { tallied mem.new result ≡ paint t.target (straightly t (rect to_left to_top t.x t.y w h)) (state mem.old 0 0) }
{
    let mut changed = 0;
    for i in 0..h {
        let j = paint::place(to_top, 0, h, i);
        changed += straight_row(mem, t, w, j, to_left);
    }
    Tally {
        count: w * h,
        changed,
    }
}
