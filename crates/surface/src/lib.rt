// A surface, and the bytes and bits of its pixels in memory.
#![tactic(auto)]

ghost use Rattle.std.specs.Prelude.{◌≡◌, ℕ, false, ◌+◌, ◌-◌, ◌/◌, ◌%◌, ◌^◌, ◌<◌, ◌≤◌, length, get_or, set};
ghost use Rattle.surface.specs.Place.{same_surface, row_bytes, byte_at, byte_of, read_bytes, write_bytes, read_px, write_px, differ, differs, three, mono_bit};
ghost use Rattle.surface.specs.Asked.{Small, Colour, Near, Close, Held, OnColour, OnClose, OnMono};

#[derive(Clone, Copy, PartialEq, Eq)]
pub struct Surface {
    pub base: u32,
    pub stride: u32,
    pub bytes: u32,
    pub tiled: bool,
}

// Equality as the definitions say it.
pub fn same_surface(a: Surface, b: Surface) -> bool
    ensures { result ≡ same_surface a b }
{
    a == b
}

// The address of byte `column` of row y.
#[tactic(auto, unfolding(crate::specs::Place::byte_at))]
pub fn byte_at(s: Surface, column: usize, y: usize) -> usize
    requires { Near s column y }
    ensures { result ≡ byte_at s column y }
{
    let base = s.base as usize;
    let stride = s.stride as usize;
    if s.tiled {
        return base + (y / 32 * stride + column / 128) * 4096 + (y % 32 * 128 + column % 128);
    }
    base + y * stride + column
}

// How many bytes a row has.
#[tactic(auto, unfolding(crate::specs::Place::row_bytes))]
pub fn row_bytes(s: Surface) -> usize
    requires { Small s }
    ensures { (result ≡ row_bytes s) × (result < 2 ^ 24) }
{
    let stride = s.stride as usize;
    if s.tiled { 128 * stride } else { stride }
}

// The address of byte k of pixel (x, y).
#[tactic(auto, unfolding(crate::specs::Place::byte_of))]
pub fn byte_of(s: Surface, x: u32, y: u32, k: u32) -> usize
    requires { Colour s × (k < s.bytes) }
    ensures { result ≡ byte_of s x y k }
{
    byte_at(s, x as usize * s.bytes as usize + k as usize, y as usize)
}

// The address of the first byte of pixel (x, y) of a surface in rows.
#[tactic(auto, unfolding(crate::specs::Place::byte_of, crate::specs::Place::byte_at))]
pub fn place_in_rows(s: Surface, x: u32, y: u32) -> usize
    requires { Colour s × (s.tiled ≡ false) }
    ensures { result ≡ byte_of s x y 0 }
{
    s.base as usize + y as usize * s.stride as usize + x as usize * s.bytes as usize
}

// The address of byte `column` of row y, and of byte k of a pixel, close to the origin: no product has more than 32 bits.
#[tactic(auto, unfolding(crate::specs::Place::byte_at))]
pub fn close_at(s: Surface, column: u32, y: u32) -> usize
    requires { Close s column y }
    ensures { result ≡ byte_at s column y }
{
    if s.tiled {
        return (y / 32 * s.stride + column / 128) as usize * 4096
            + (s.base + (y % 32 * 128 + column % 128)) as usize;
    }
    (s.base + y * s.stride + column) as usize
}

#[tactic(auto, unfolding(crate::specs::Place::byte_of))]
pub fn close_byte(s: Surface, x: u32, y: u32, k: u32) -> usize
    requires { Colour s × (k < s.bytes) × (x < 2 ^ 13) × (y < 2 ^ 13) }
    ensures { result ≡ byte_of s x y k }
{
    close_at(s, x * s.bytes + k, y)
}

// The number in the n bytes from an address on, low byte first. An arm for each n and no loop: where n is known, one load is left of it.
#[tactic(auto, unfolding(crate::specs::Place::read_bytes))]
pub fn get_bytes(mem: &[u8], at: usize, n: u32) -> u32
    requires { Held at n (length mem.now) }
    ensures { result ≡ read_bytes mem.now (λ k. at + k) 0 n }
{
    match n {
        1 => u32::from(mem[at]),
        2 => u32::from_le_bytes([mem[at], mem[at + 1], 0, 0]),
        3 => u32::from_le_bytes([mem[at], mem[at + 1], mem[at + 2], 0]),
        _ => u32::from_le_bytes([mem[at], mem[at + 1], mem[at + 2], mem[at + 3]]),
    }
}

// The n bytes from an address on become those of v.
#[tactic(auto, unfolding(crate::specs::Place::write_bytes))]
pub fn put_bytes(mem: &mut [u8], at: usize, n: u32, v: u32)
    requires { Held at n (length mem.old) }
    ensures { mem.new ≡ write_bytes (λ k. at + k) 0 n v mem.old }
{
    let [b0, b1, b2, b3] = v.to_le_bytes();
    mem[at] = b0;
    if 1 < n {
        mem[at + 1] = b1;
    }
    if 2 < n {
        mem[at + 2] = b2;
    }
    if 3 < n {
        mem[at + 3] = b3;
    }
}

// What the n low bytes of v make.
pub fn low_bytes(n: u32, v: u32) -> u32
    requires { (0 < n) × (n < 5) }
    ensures { result ≡ v % 256 ^ n }
{
    match n {
        1 => v % 0x100,
        2 => v % 0x1_0000,
        3 => v % 0x100_0000,
        _ => v,
    }
}

// The same; whether they were others before.
pub fn store_bytes(mem: &mut [u8], at: usize, n: u32, v: u32) -> bool
    requires { Held at n (length mem.old) }
    ensures { (mem.new ≡ write_bytes (λ k. at + k) 0 n v mem.old) × (result ≡ differ (λ k. at + k) n mem.old mem.new) }
{
    let old = get_bytes(mem, at, n);
    put_bytes(mem, at, n, v);
    old != low_bytes(n, v)
}

// Three bytes, wherever each of them lies: beside the others, whose bytes lie at one address after the other.
#[tactic(auto, unfolding(crate::specs::Place::read_bytes))]
fn get_three(mem: &[u8], at0: usize, at1: usize, at2: usize) -> u32
    requires { (at0 < length mem.now) × (at1 < length mem.now) × (at2 < length mem.now) }
    ensures { result ≡ read_bytes mem.now (three at0 at1 at2) 0 3 }
{
    u32::from_le_bytes([mem[at0], mem[at1], mem[at2], 0])
}

#[tactic(auto, unfolding(crate::specs::Place::write_bytes))]
fn put_three(mem: &mut [u8], at0: usize, at1: usize, at2: usize, v: u32)
    requires { (at0 < length mem.old) × (at1 < length mem.old) × (at2 < length mem.old) }
    ensures { mem.new ≡ write_bytes (three at0 at1 at2) 0 3 v mem.old }
{
    let [b0, b1, b2, _] = v.to_le_bytes();
    mem[at0] = b0;
    mem[at1] = b1;
    mem[at2] = b2;
}

// The same; whether they were others before.
fn store_three(mem: &mut [u8], at0: usize, at1: usize, at2: usize, v: u32) -> bool
    requires { (at0 < length mem.old) × (at1 < length mem.old) × (at2 < length mem.old) }
    ensures { (mem.new ≡ write_bytes (three at0 at1 at2) 0 3 v mem.old) × (result ≡ differ (three at0 at1 at2) 3 mem.old mem.new) }
{
    let old = get_three(mem, at0, at1, at2);
    put_three(mem, at0, at1, at2, v);
    old != get_three(mem, at0, at1, at2)
}

// A pixel of a surface in rows: for callers that know the layout, and so have no test of it in their loop.
pub fn get_in_rows(mem: &[u8], s: Surface, x: u32, y: u32) -> u32
    requires { OnColour s (length mem.now) x y × (s.tiled ≡ false) }
    ensures { result ≡ read_px mem.now s x y }
{
    let at = place_in_rows(s, x, y);
    get_bytes(mem, at, s.bytes)
}

pub fn put_in_rows(mem: &mut [u8], s: Surface, x: u32, y: u32, v: u32) -> bool
    requires { OnColour s (length mem.old) x y × (s.tiled ≡ false) }
    ensures { (mem.new ≡ write_px mem.old s x y v) × (result ≡ differs s x y mem.old mem.new) }
{
    let at = place_in_rows(s, x, y);
    store_bytes(mem, at, s.bytes, v)
}

// A pixel whose byte k lies at place(k): three bytes that may lie in two tiles, or one piece.
fn get_at<F: Fn(u32) -> usize>(mem: &[u8], s: Surface, x: u32, y: u32, place: F) -> u32
    requires on { OnColour s (length mem.now) x y }
    requires known { (k : ℕ) → k < s.bytes → F.pre place k }
    requires there { (k a : ℕ) → k < s.bytes → F.post place k a → a ≡ byte_of s x y k }
    ensures { result ≡ read_px mem.now s x y }
{
    let at = place(0);
    if s.tiled & (s.bytes == 3) {
        return get_three(mem, at, place(1), place(2));
    }
    get_bytes(mem, at, s.bytes)
}

// The store of a pixel: its bytes become those of v; whether they were others just before.
fn put_at<F: Fn(u32) -> usize>(mem: &mut [u8], s: Surface, x: u32, y: u32, v: u32, place: F) -> bool
    requires on { OnColour s (length mem.old) x y }
    requires known { (k : ℕ) → k < s.bytes → F.pre place k }
    requires there { (k a : ℕ) → k < s.bytes → F.post place k a → a ≡ byte_of s x y k }
    ensures { (mem.new ≡ write_px mem.old s x y v) × (result ≡ differs s x y mem.old mem.new) }
{
    let at = place(0);
    if s.tiled & (s.bytes == 3) {
        return store_three(mem, at, place(1), place(2), v);
    }
    store_bytes(mem, at, s.bytes, v)
}

// A pixel of either.
pub fn get_pixel(mem: &[u8], s: Surface, x: u32, y: u32) -> u32
    requires { OnColour s (length mem.now) x y }
    ensures { result ≡ read_px mem.now s x y }
{
    if !s.tiled {
        return get_in_rows(mem, s, x, y);
    }
    get_at(mem, s, x, y, |k| byte_of(s, x, y, k))
}

pub fn put_pixel(mem: &mut [u8], s: Surface, x: u32, y: u32, v: u32) -> bool
    requires { OnColour s (length mem.old) x y }
    ensures { (mem.new ≡ write_px mem.old s x y v) × (result ≡ differs s x y mem.old mem.new) }
{
    if !s.tiled {
        return put_in_rows(mem, s, x, y, v);
    }
    put_at(mem, s, x, y, v, |k| byte_of(s, x, y, k))
}

// The same two of a pixel close to the origin.
pub fn get_close(mem: &[u8], s: Surface, x: u32, y: u32) -> u32
    requires { OnClose s (length mem.now) x y }
    ensures { result ≡ read_px mem.now s x y }
{
    get_at(mem, s, x, y, |k| close_byte(s, x, y, k))
}

pub fn put_close(mem: &mut [u8], s: Surface, x: u32, y: u32, v: u32) -> bool
    requires { OnClose s (length mem.old) x y }
    ensures { (mem.new ≡ write_px mem.old s x y v) × (result ≡ differs s x y mem.old mem.new) }
{
    put_at(mem, s, x, y, v, |k| close_byte(s, x, y, k))
}

// The byte that a mono pixel lies in, of a surface in rows.
#[tactic(auto, using(crate::proofs::OnLaws::mono_inside), unfolding(crate::specs::Place::byte_at))]
pub fn mono_in_rows(mem: &[u8], s: Surface, x: u32, y: u32) -> u32
    requires { OnMono s (length mem.now) x y × (s.tiled ≡ false) }
    ensures { (result ≡ get_or mem.now (byte_at s (x / 8) y) 0) × (result < 256) }
{
    let at = s.base as usize + y as usize * s.stride as usize + (x / 8) as usize;
    u32::from(mem[at])
}

// The byte that a mono pixel lies in.
#[tactic(auto, using(crate::proofs::OnLaws::mono_inside))]
fn mono_byte(mem: &[u8], s: Surface, x: u32, y: u32) -> u32
    requires { OnMono s (length mem.now) x y }
    ensures { (result ≡ get_or mem.now (byte_at s (x / 8) y) 0) × (result < 256) }
{
    u32::from(mem[byte_at(s, (x / 8) as usize, y as usize)])
}

// The bit of a mono pixel.
#[tactic(auto, unfolding(crate::specs::Place::mono_bit))]
pub fn get_bit(mem: &[u8], s: Surface, x: u32, y: u32) -> u32
    requires { OnMono s (length mem.now) x y }
    ensures { result ≡ mono_bit mem.now s x y }
{
    (mono_byte(mem, s, x, y) >> (7 - x % 8)) % 2
}
