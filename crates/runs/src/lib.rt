// Runs of bytes: a rectangle of one value, and pixels moved; those that change are counted before they do.
#![tactic(auto)]

ghost use Rattle.std.specs.Prelude.{◌≡◌, true, false, ℕ, ◌+◌, ◌-◌, ◌*◌, ◌%◌, ◌^◌, ◌<◌, ◌≤◌, length};
ghost use Rattle.surface.specs.Place.{one};
ghost use Rattle.surface.specs.Asked.{Colour};
ghost use Rattle.surface.specs.Pixels.{across, rect};
ghost use Rattle.paint.specs.Paint.{state, tallied, paint};
ghost use Rattle.runs.specs.Runs.{evenly, even_at, unlikes, Shifted, Kept, RowKept, to_edge};
ghost use Rattle.runs.specs.Asked.{RowOn, RectOn, PixelsOn, RowHeld, Run, Up, Down};

use paint::Tally;
use surface::Surface;

// A count of pixels. A loop names its width: the fewer bits a count has, the more pixels the compiler counts at once.
trait Count: Copy {
    ghost most: { ℕ };

    ghost value: { Self → ℕ };

    fn none() -> Self
        ensures { value result ≡ 0 };

    // One more for what is so.
    fn and(self, b: bool) -> Self
        requires { value self < most }
        ensures { value result ≡ value self + one b };

    fn total(self) -> u32
        ensures { result ≡ value self };
}

impl Count for u8 {
    ghost most = { 2 ^ 8 - 1 };

    ghost value = { λ n. n };

    fn none() -> u8 {
        0
    }

    fn and(self, b: bool) -> u8 {
        self + b as u8
    }

    fn total(self) -> u32 {
        self as u32
    }
}

impl Count for u16 {
    ghost most = { 2 ^ 16 - 1 };

    ghost value = { λ n. n };

    fn none() -> u16 {
        0
    }

    fn and(self, b: bool) -> u16 {
        self + b as u16
    }

    fn total(self) -> u32 {
        self as u32
    }
}

impl Count for u32 {
    ghost most = { 2 ^ 32 - 1 };

    ghost value = { λ n. n };

    fn none() -> u32 {
        0
    }

    fn and(self, b: bool) -> u32 {
        self + b as u32
    }

    fn total(self) -> u32 {
        self
    }
}

// The w pixels of B bytes from an address on, each of value v; how many change.
fn solid<C: Count, const B: u32>(mem: &mut [u8], at: usize, v: u32, w: usize) -> u32
    requires { PixelsOn at B w (length mem.old) × (w ≤ C.most) }
    ensures { state mem.new w result ≡ even_at B v at w (state mem.old 0 0) }
{
    let mut r = C::none();
    for i in 0..w {
        r = r.and(surface::store_bytes(mem, at + i * B as usize, B, v));
    }
    r.total()
}

// Any number of pixels of one byte, 128 at a time.
fn solid_bytes(mem: &mut [u8], at: usize, v: u32, w: usize) -> u32
    requires { PixelsOn at 1 w (length mem.old) }
    ensures { state mem.new w result ≡ even_at 1 v at w (state mem.old 0 0) }
{
    let mut r = 0;
    for i in 0..w / 128 {
        r += solid::<u8, 1>(mem, at + i * 128, v, 128);
    }
    r + solid::<u8, 1>(mem, at + w / 128 * 128, v, w % 128)
}

// The same of pixels of any format, with a loop for each number of bytes.
fn solid_run(mem: &mut [u8], at: usize, bytes: u32, v: u32, w: u32) -> u32
    requires { PixelsOn at bytes w (length mem.old) }
    ensures { state mem.new w result ≡ even_at bytes v at w (state mem.old 0 0) }
{
    let n = w as usize;
    match bytes {
        1 => solid_bytes(mem, at, v, n),
        2 => solid::<u16, 2>(mem, at, v, n),
        3 => solid::<u16, 3>(mem, at, v, n),
        _ => solid::<u32, 4>(mem, at, v, n),
    }
}

// The w pixels of row y from x0 on, each of value v; how many change.
fn solid_row(mem: &mut [u8], s: Surface, v: u32, x0: u32, w: u32, y: u32) -> u32
    requires { (s.tiled ≡ false) × (Colour s × RowOn s (length mem.old) x0 w y) }
    ensures { state mem.new w result ≡ paint s (evenly v (across false x0 w y)) (state mem.old 0 0) }
{
    let at = surface::place_in_rows(s, x0, y);
    solid_run(mem, at, s.bytes, v, w)
}

// The n bytes from s on go to d, the first one first.
pub fn run_up(mem: &mut [u8], d: usize, s: usize, n: usize)
    requires { Run d s n (length mem.old) × Up d s n }
    ensures { Shifted d s 0 n mem.old mem.new }
{
    // A loop: `copy_within` moves the last byte first where d > s, and takes 1.7 times as long there.
    for i in 0..n {
        mem[d + i] = mem[s + i];
    }
}

// The same, the last one first. A `while`: `copy_within` would make the library for C need a name from outside, `memmove`.
fn run_down(mem: &mut [u8], d: usize, s: usize, n: usize)
    requires { Run d s n (length mem.old) × Down d s n }
    ensures { Shifted d s 0 n mem.old mem.new }
{
    let mut i = n;
    while 0 < i {
        i -= 1;
        mem[d + i] = mem[s + i];
    }
}

// How many of w pixels of B bytes from d on in one memory are not those from s on in another.
fn unlike_in<C: Count, const B: u32>(a: &[u8], d: usize, b: &[u8], s: usize, w: usize) -> u32
    requires { (PixelsOn d B w (length a.now) × PixelsOn s B w (length b.now)) × (w ≤ C.most) }
    ensures { result ≡ unlikes a.now b.now B d s w }
{
    let mut r = C::none();
    for i in 0..w {
        let k = i * B as usize;
        r = r.and(surface::get_bytes(a, d + k, B) != surface::get_bytes(b, s + k, B));
    }
    r.total()
}

// Of any number of pixels of one byte, 128 at a time.
fn unlike_bytes(a: &[u8], d: usize, b: &[u8], s: usize, w: usize) -> u32
    requires { PixelsOn d 1 w (length a.now) × PixelsOn s 1 w (length b.now) }
    ensures { result ≡ unlikes a.now b.now 1 d s w }
{
    let mut r = 0;
    for i in 0..w / 128 {
        r += unlike_in::<u8, 1>(a, d + i * 128, b, s + i * 128, 128);
    }
    let k = w / 128 * 128;
    r + unlike_in::<u8, 1>(a, d + k, b, s + k, w % 128)
}

// Of pixels of any format, with a loop for each number of bytes.
pub fn unlike(a: &[u8], d: usize, b: &[u8], s: usize, bytes: u32, w: u32) -> u32
    requires { PixelsOn d bytes w (length a.now) × PixelsOn s bytes w (length b.now) }
    ensures { result ≡ unlikes a.now b.now bytes d s w }
{
    let n = w as usize;
    match bytes {
        1 => unlike_bytes(a, d, b, s, n),
        2 => unlike_in::<u16, 2>(a, d, b, s, n),
        3 => unlike_in::<u16, 3>(a, d, b, s, n),
        _ => unlike_in::<u32, 4>(a, d, b, s, n),
    }
}

// How many of n columns or rows, from number `at` on, come before the next edge of a tile.
pub fn to_edge(s: Surface, at: usize, edge: usize, n: usize) -> usize
    requires { 0 < edge }
    ensures { (result ≤ n) × (0 < n → 0 < result) × (s.tiled ≡ true → at % edge + result ≤ edge) × (result ≡ to_edge s at edge n) }
{
    if s.tiled {
        return n.min(edge - at % edge);
    }
    n
}

// The n bytes of row y from column x on, in either layout, put at the start of a buffer.
pub fn keep_row(out: &mut [u8], mem: &[u8], s: Surface, x: usize, y: usize, n: usize)
    requires { (n ≤ length out.old) × RowHeld s x y n (length mem.now) }
    ensures { RowKept s mem.now x y n out.old out.new }
{
    let mut i = 0;
    // A `while`, since each step is as long as its tile lets it be.
    while i < n {
        let k = to_edge(s, x + i, 128, n - i);
        let at = surface::byte_at(s, x + i, y);
        out[i..i + k].copy_from_slice(&mem[at..at + k]);
        i += k;
    }
}

// The w pixels from s on go to d, in an order in which no byte is read after it was overwritten; how many change, counted before they do.
pub fn move_pixels(mem: &mut [u8], d: usize, s: usize, bytes: u32, w: u32, back: bool) -> u32
    requires { (PixelsOn d bytes w (length mem.old) × PixelsOn s bytes w (length mem.old)) × ((back ≡ false → Up d s (w * bytes)) × (back ≡ true → Down d s (w * bytes))) }
    ensures { Shifted d s 0 (w * bytes) mem.old mem.new × (result ≡ unlikes mem.old mem.old bytes d s w) }
{
    let changed = unlike(mem, d, mem, s, bytes, w);
    let n = (w * bytes) as usize;
    if back {
        run_down(mem, d, s, n);
    } else {
        run_up(mem, d, s, n);
    }
    changed
}

// A rectangle of one value, its surface in rows.
pub fn solid_rows(mem: &mut [u8], s: Surface, v: u32, x0: u32, y0: u32, w: u32, h: u32) -> Tally
    requires { (s.tiled ≡ false) × RectOn s (length mem.old) x0 y0 w h }
    ensures { tallied mem.new result ≡ paint s (evenly v (rect false false x0 y0 w h)) (state mem.old 0 0) }
{
    let mut changed = 0;
    for j in 0..h {
        changed += solid_row(mem, s, v, x0, w, y0 + j);
    }
    let count = w * h;
    Tally { count, changed }
}
