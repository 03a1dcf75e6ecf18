// Fills by masks: in rows as tint lays them; on tiles the masks' bytes, repeated, go over each row in pieces that reach over no edge of a tile.
#![tactic(auto)]

ghost use Rattle.std.specs.Prelude.{◌≡◌, true, false, ℕ, ◌+◌, ◌*◌, ◌%◌, ◌^◌, ◌<◌, ◌≤◌, length};
ghost use Rattle.surface.specs.Pixels.{rect};
ghost use Rattle.paint.specs.Paint.{state, tallied, paint, changing, summed};
ghost use Rattle.runs.specs.Asked.{RowOn, RectOn};
ghost use Rattle.blocks.specs.Blocks.{Put};
ghost use Rattle.tint.specs.Tint.{fillings};
ghost use Rattle.wash.specs.Wash.{washed, in_rows, by_row, RowWashed, RowsWashed, Repeated, Widened};
ghost use Rattle.wash.specs.Asked.{Period, CanWash, Ones};
ghost use Rattle.wash.specs.Count.{counting, countings};

use blocks::Buffers;
use ink::Ink;
use paint::Tally;
use surface::Surface;

// Masks, repeated.
fn spread_row(out: &mut [u8], masks: &[u8])
    requires { 0 < length masks.now }
    ensures { Repeated masks.now (length out.old) out.new }
{
    let n = out.len();
    for i in (0..n).step_by(masks.len()) {
        let k = (n - i).min(masks.len());
        out[i..i + k].copy_from_slice(&masks[..k]);
    }
}

// The first rows of masks, made wide.
fn widen(table: &[u8; 256], rows: usize, period: usize, n: usize) -> [u8; 1280]
    requires { Period period × (rows ≤ 8) × (n ≤ 160) }
    ensures { Widened table.now rows period n result }
{
    let mut out = [0u8; 1280];
    for r in 0..rows {
        let masks = &table[r * period..r * period + period];
        spread_row(&mut out[r * 160..r * 160 + n], masks);
    }
    out
}

// Tiles, and masks over their bytes: eight rows of 160 in each table, whose first ones are repeated.
#[derive(Drop)]
struct Washing {
    s: Surface,
    keep: [u8; 1280],
    flip: [u8; 1280],
}

impl Washing {
    // The n bytes of row y from column x on, by the row of masks from number `first` on.
    fn wash_row(&self, mem: &mut [u8], first: usize, x: usize, y: usize, n: usize)
        requires { CanWash self.now first x y n (length mem.old) }
        ensures { Put self.now.s (by_row self.now first x mem.old) x y n 1 mem.old mem.new }
    {
        let s = self.s;
        let period = 8 * s.bytes as usize;
        let mut i = 0;
        // while: the step is what to_edge answers.
        while i < n {
            let k = runs::to_edge(s, x + i, 128, n - i);
            let at = surface::byte_at(s, x + i, y);
            tint::tint_bytes(mem, at, k, &self.keep, &self.flip, first + i % period);
            i += k;
        }
    }

    // At most 256 pixels of row y from x on; how many change. What stood there, and what then stands there, are put into buffers.
    fn wash_part(
        &self,
        mem: &mut [u8],
        buffers: &mut Buffers,
        first: usize,
        x: u32,
        y: u32,
        w: u32,
    ) -> u32
        requires { CanWash self.now first (x * self.now.s.bytes) y (w * self.now.s.bytes) (length mem.old) × ((w ≤ 256) × RowOn self.now.s (length mem.old) x w y) }
        ensures { RowWashed self.now first x y w result mem.old mem.new }
    {
        let s = self.s;
        let bytes = s.bytes as usize;
        let left = x as usize * bytes;
        let n = w as usize * bytes;
        runs::keep_row(&mut buffers.old, mem, s, left, y as usize, n);
        self.wash_row(mem, first, left, y as usize, n);
        runs::keep_row(&mut buffers.new, mem, s, left, y as usize, n);
        runs::unlike(&buffers.old, 0, &buffers.new, 0, s.bytes, w)
    }

    // Any number of them, 256 at a time.
    fn wash_line(
        &self,
        mem: &mut [u8],
        buffers: &mut Buffers,
        first: usize,
        x: u32,
        y: u32,
        w: u32,
    ) -> u32
        requires { CanWash self.now first (x * self.now.s.bytes) y (w * self.now.s.bytes) (length mem.old) × RowOn self.now.s (length mem.old) x w y }
        ensures { RowWashed self.now first x y w result mem.old mem.new }
    {
        let mut r = 0;
        for i in (0..w).step_by(256) {
            r += self.wash_part(mem, buffers, first, x + i, y, (w - i).min(256));
        }
        r
    }

    // h rows of them.
    fn wash_lines(&self, mem: &mut [u8], x: u32, y: u32, w: u32, h: u32) -> u32
        requires { RectOn self.now.s (length mem.old) x y w h × ((j : ℕ) → j < h → CanWash self.now (j % 8 * 160) (x * self.now.s.bytes) (y + j) (w * self.now.s.bytes) (length mem.old)) }
        ensures { RowsWashed self.now x y w h result mem.old mem.new }
    {
        let mut buffers = Buffers {
            old: [0; 1024],
            new: [0; 1024],
        };
        let mut r = 0;
        for j in 0..h {
            let first = (j % 8 * 160) as usize;
            r += self.wash_line(mem, &mut buffers, first, x, y + j, w);
        }
        r
    }
}

// How many of n pixels, at most eight, are counted.
fn count_few(adds: &[u32; 64], first: usize, n: u32) -> u32
    requires { Ones adds.now first × (n ≤ 8) }
    ensures { (result ≡ counting adds.now first 0 n) × (result ≤ n) }
{
    adds[first..first + n as usize].iter().sum()
}

// How many of a row.
fn count_row(adds: &[u32; 64], first: usize, w: u32) -> u32
    requires { Ones adds.now first × (w ≤ 2 ^ 13) }
    ensures { (result ≡ counting adds.now first 0 w) × (result ≤ w) }
{
    w / 8 * count_few(adds, first, 8) + count_few(adds, first, w % 8)
}

// How many of h rows.
fn count_rows(adds: &[u32; 64], w: u32, h: u32) -> u32
    requires { (w ≤ 2 ^ 13) × (h ≤ 2 ^ 13) × ((j : ℕ) → j < h → Ones adds.now (j % 8 * 8)) }
    ensures { result ≡ countings adds.now w 0 h }
{
    let mut r = 0;
    for j in 0..h {
        r += count_row(adds, (j % 8 * 8) as usize, w);
    }
    r
}

// A rectangle of pixels, by the first rows of masks in two tables; how many change. A struct for this one call would only say its parameters twice.
fn wash_masks(
    mem: &mut [u8],
    s: Surface,
    keeps: &[u8; 256],
    flips: &[u8; 256],
    rows: u32,
    x: u32,
    y: u32,
    w: u32,
    h: u32,
) -> u32
    requires { RectOn s (length mem.old) x y w h × ((s.tiled ≡ true) × (((0 < w) × (0 < h)) × ((rows ≤ 8) × ((j : ℕ) → j < h → j % 8 < rows)))) }
    ensures { Put s (washed s keeps.now flips.now (in_rows (8 * s.bytes) (8 * s.bytes) (x * s.bytes) y) mem.old) (x * s.bytes) y (w * s.bytes) h mem.old mem.new × (result ≡ summed (changing s mem.old mem.new) (rect false false x y w h)) }
{
    let bytes = s.bytes as usize;
    let period = 8 * bytes;
    let many = (w as usize * bytes).min(160);
    let washing = Washing {
        s,
        keep: widen(keeps, rows as usize, period, many),
        flip: widen(flips, rows as usize, period, many),
    };
    washing.wash_lines(mem, x, y, w, h)
}

// A fill without a target key: the masks are worked out once, and go over the rows as the layout has them; the tally of the pixels written.
pub fn wash_rows(
    mem: &mut [u8],
    ink: Ink,
    pattern: [u8; 256],
    x: u32,
    y: u32,
    w: u32,
    h: u32,
) -> Tally
    requires { RectOn ink.target (length mem.old) x y w h × ((ink.target.tiled ≡ true → (0 < w) × (0 < h)) × (ink.dst_key ≡ false)) }
    ensures { tallied mem.new result ≡ paint ink.target (fillings ink pattern (rect false false x y w h)) (state mem.old 0 0) }
{
    let rows = tint::mask_rows(h);
    let mut keep = [0u8; 256];
    let mut flip = [0u8; 256];
    let mut adds = [0u32; 64];
    tint::masks_at(&mut keep, &mut flip, &mut adds, ink, pattern, x, y, rows);
    if !ink.target.tiled {
        return tint::tint_rows(mem, ink.target, &keep, &flip, &adds, x, y, w, h);
    }
    let changed = wash_masks(mem, ink.target, &keep, &flip, rows, x, y, w, h);
    Tally {
        count: count_rows(&adds, w, h),
        changed,
    }
}
