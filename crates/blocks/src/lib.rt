// Rectangles of bytes moved block by block. A block is what lies in one tile, or all of it where the surface is in rows.
#![tactic(auto)]

ghost use Rattle.std.specs.Prelude.{◌≡◌, false, ◌+◌, ◌*◌, ◌<◌, ◌≤◌, length};
ghost use Rattle.surface.specs.Pixels.{across, rect};
ghost use Rattle.paint.specs.Paint.{state, tallied, paint};
ghost use Rattle.runs.specs.Runs.{evenly};
ghost use Rattle.runs.specs.Asked.{RowOn, RectOn};
ghost use Rattle.blocks.specs.Blocks.{Put, origin_byte, Laid, pitch, others, others_down};
ghost use Rattle.blocks.specs.Asked.{Lines, Goes, Columns, Rows, PartOn, RowsOn};

use paint::Tally;
use surface::Surface;

// Bytes go from one surface to another: the first column and row of both, columns in bytes.
#[derive(Clone, Copy)]
pub struct Way {
    pub to: Surface,
    pub from: Surface,
    pub x: usize,
    pub y: usize,
    pub sx: usize,
    pub sy: usize,
}

// How far apart the rows of a block are.
fn pitch_of(s: Surface) -> usize
    ensures { result ≡ pitch s }
{
    if s.tiled { 128 } else { s.stride as usize }
}

// h lines of n bytes, p bytes apart, from others r bytes apart; one run where nothing lies between them.
fn move_lines(mem: &mut [u8], d: usize, p: usize, s: usize, r: usize, n: usize, h: usize)
    requires { Lines d p s r n h (length mem.old) }
    ensures { Laid d p s r n h mem.old mem.new }
{
    if (n == p) & (n == r) {
        runs::run_up(mem, d, s, h * n);
        return;
    }
    for q in 0..h {
        runs::run_up(mem, d + q * p, s + q * r, n);
    }
}

// A block: n bytes of each of h rows, which reach over no edge of either surface.
fn move_block(mem: &mut [u8], b: Way, n: usize, h: usize)
    requires { Goes b n h (length mem.old) × ((Columns b.to b.x n × Columns b.from b.sx n) × (Rows b.to b.y h × Rows b.from b.sy h)) }
    ensures { Put b.to (origin_byte b mem.old) b.x b.y n h mem.old mem.new }
{
    let d = surface::byte_at(b.to, b.x, b.y);
    let s = surface::byte_at(b.from, b.sx, b.sy);
    move_lines(mem, d, pitch_of(b.to), s, pitch_of(b.from), n, h);
}

// Rows that reach over no edge, block by block.
fn move_band(mem: &mut [u8], b: Way, n: usize, h: usize)
    requires { Goes b n h (length mem.old) × (Rows b.to b.y h × Rows b.from b.sy h) }
    ensures { Put b.to (origin_byte b mem.old) b.x b.y n h mem.old mem.new }
{
    let mut i = 0;
    // while: the step is what to_edge answers.
    while i < n {
        let x = b.x + i;
        let sx = b.sx + i;
        let k = runs::to_edge(b.from, sx, 128, runs::to_edge(b.to, x, 128, n - i));
        move_block(mem, Way { x, sx, ..b }, k, h);
        i += k;
    }
}

// A rectangle of n by h bytes, none of which is both come from and gone to.
pub fn move_blocks(mem: &mut [u8], b: Way, n: usize, h: usize)
    requires { Goes b n h (length mem.old) }
    ensures { Put b.to (origin_byte b mem.old) b.x b.y n h mem.old mem.new }
{
    let mut j = 0;
    // while: the step is what to_edge answers.
    while j < h {
        let y = b.y + j;
        let sy = b.sy + j;
        let k = runs::to_edge(b.from, sy, 32, runs::to_edge(b.to, y, 32, h - j));
        move_band(mem, Way { y, sy, ..b }, n, k);
        j += k;
    }
}

// The bytes of two rows of at most 256 pixels, kept to be held to each other.
#[derive(Drop)]
pub struct Buffers {
    pub old: [u8; 1024],
    pub new: [u8; 1024],
}

// The w pixels of row y from x on of one surface, and those of row sy from sx on of another.
#[derive(Clone, Copy)]
struct Pair {
    to: Surface,
    from: Surface,
    x: u32,
    y: u32,
    sx: u32,
    sy: u32,
    w: u32,
}

impl Buffers {
    fn empty() -> Buffers {
        Buffers {
            old: [0; 1024],
            new: [0; 1024],
        }
    }

    // How many pixels of a row, at most 256, are not those of another; both rows are put into the buffers first.
    fn unlike_part(&mut self, mem: &[u8], p: Pair) -> u32
        requires { PartOn p.to p.from p.x p.y p.sx p.sy p.w (length mem.now) × (p.w ≤ 256) }
        ensures { result ≡ others p.to p.from mem.now p.x p.y p.sx p.sy p.w }
    {
        let bytes = p.to.bytes as usize;
        let n = p.w as usize * bytes;
        let column = p.x as usize * bytes;
        let source_column = p.sx as usize * bytes;
        runs::keep_row(&mut self.old, mem, p.to, column, p.y as usize, n);
        runs::keep_row(&mut self.new, mem, p.from, source_column, p.sy as usize, n);
        runs::unlike(&self.old, 0, &self.new, 0, p.to.bytes, p.w)
    }

    // Of any number of them, 256 at a time. Inline: as a call it does not know that what it copies lies apart, and needs `memmove` from outside the library.
    #[inline(always)]
    fn unlike_row(&mut self, mem: &[u8], p: Pair) -> u32
        requires { PartOn p.to p.from p.x p.y p.sx p.sy p.w (length mem.now) }
        ensures { result ≡ others p.to p.from mem.now p.x p.y p.sx p.sy p.w }
    {
        let mut r = 0;
        for i in (0..p.w).step_by(256) {
            let part = Pair {
                x: p.x + i,
                sx: p.sx + i,
                w: (p.w - i).min(256),
                ..p
            };
            r += self.unlike_part(mem, part);
        }
        r
    }
}

// Of h rows, each against a row of its own. Public: its parameters stay as docs/PUBLIC.md has them.
pub fn unlike_rows(
    mem: &[u8],
    to: Surface,
    from: Surface,
    x: u32,
    y: u32,
    sx: u32,
    sy: u32,
    w: u32,
    h: u32,
) -> u32
    requires { RowsOn to from x y sx sy w h (length mem.now) }
    ensures { result ≡ others_down to from mem.now x y sx sy w 0 h }
{
    let mut buffers = Buffers::empty();
    let mut r = 0;
    for j in 0..h {
        let row = Pair {
            to,
            from,
            x,
            y: y + j,
            sx,
            sy: sy + j,
            w,
        };
        r += buffers.unlike_row(mem, row);
    }
    r
}

// The w pixels of row y from x0 on, each of value v; how many of them change.
fn solid_line(mem: &mut [u8], s: Surface, v: u32, x0: u32, w: u32, y: u32) -> u32
    requires { RowOn s (length mem.old) x0 w y }
    ensures { state mem.new w result ≡ paint s (evenly v (across false x0 w y)) (state mem.old 0 0) }
{
    let mut r = 0;
    for x in x0..x0 + w {
        r += u32::from(surface::put_pixel(mem, s, x, y, v));
    }
    r
}

// A rectangle of one value, whatever the layout: its first row pixel by pixel; then the rows that are there go on below, as many again each time.
pub fn solid_blocks(mem: &mut [u8], s: Surface, v: u32, x0: u32, y0: u32, w: u32, h: u32) -> Tally
    requires { RectOn s (length mem.old) x0 y0 w h × ((0 < w) × (0 < h)) }
    ensures { tallied mem.new result ≡ paint s (evenly v (rect false false x0 y0 w h)) (state mem.old 0 0) }
{
    let bytes = s.bytes as usize;
    let x = x0 as usize * bytes;
    let y = y0 as usize;
    let n = w as usize * bytes;
    let end = h as usize;
    let mut changed = solid_line(mem, s, v, x0, w, y0);
    let mut buffers = Buffers::empty();
    let row = Pair {
        to: s,
        from: s,
        x: x0,
        y: y0,
        sx: x0,
        sy: y0,
        w,
    };
    for j in 1..h {
        changed += buffers.unlike_row(mem, Pair { y: y0 + j, ..row });
    }
    let b = Way {
        to: s,
        from: s,
        x,
        y,
        sx: x,
        sy: y,
    };
    let mut there = 1;
    // while: as many rows go on as are there already, so that the step grows.
    while there < end {
        let k = (end - there).min(there);
        move_blocks(mem, Way { y: y + there, ..b }, n, k);
        there += k;
    }
    Tally {
        count: w * h,
        changed,
    }
}
