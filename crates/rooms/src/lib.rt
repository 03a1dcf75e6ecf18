// What is kept of source and target beside the registers: how many pixels a row has, and for how many whole rows memory has room. They are worked out when a
// register of theirs is written, and shorten the test whether pixels are on a surface; what it says does not hang on them.
#![tactic(auto)]

ghost use Rattle.std.specs.Prelude.{◌≡◌, true, false, ◌+◌, ◌-◌, ◌^◌, ◌<◌, ◌≤◌, leb};
ghost use Rattle.surface.specs.Place.{row_pixels};
ghost use Rattle.surface.specs.Asked.{Small};
ghost use Rattle.surface.specs.Pixels.{rect};
ghost use Rattle.spans.specs.Span.{all_on};
ghost use Rattle.rooms.specs.Room.{no_room, no_rooms, whole_rows, room_of, target_room, source_room, after, told, depth};

use registers::Regs;
use surface::Surface;

// Of one surface.
#[derive(Clone, Copy)]
pub struct Room {
    pub pixels: u32,
    pub rows: u32,
}

// Of both.
#[derive(Clone, Copy)]
pub struct Rooms {
    pub source: Room,
    pub target: Room,
}

pub fn no_room() -> Room
    ensures { result ≡ no_room }
{
    Room { pixels: 0, rows: 0 }
}

pub fn no_rooms() -> Rooms
    ensures { result ≡ no_rooms }
{
    Rooms {
        source: no_room(),
        target: no_room(),
    }
}

// The whole rows in a memory of len bytes.
#[tactic(auto, unfolding(crate::specs::Room::whole_rows))]
fn whole_rows(len: u32, s: Surface) -> u32
    requires { Small s × (0 < s.stride) × (len ≤ 2 ^ 24) }
    ensures { result ≡ whole_rows len s }
{
    let left = len.saturating_sub(s.base);
    if s.tiled {
        return 32 * (left / (4096 * s.stride));
    }
    left / s.stride
}

// The room that a surface has, worked out.
#[tactic(auto, unfolding(crate::specs::Room::room_of))]
fn work(len: u32, s: Surface) -> Room
    requires { Small s × (len ≤ 2 ^ 24) }
    ensures { result ≡ room_of len s }
{
    if s.stride == 0 {
        return no_room();
    }
    Room {
        pixels: spans::row_pixels(s) as u32,
        rows: whole_rows(len, s),
    }
}

// By a target's words.
#[tactic(auto, unfolding(crate::specs::Room::target_room))]
pub fn target_room(len: u32, base: u32, format: u32) -> Room
    requires { len ≤ 2 ^ 24 }
    ensures { result ≡ target_room len base format }
{
    if formats::names_target(format) {
        return work(len, formats::target_of(base, format));
    }
    no_room()
}

// By a source's, its packing left out.
#[tactic(auto, unfolding(crate::specs::Room::source_room))]
pub fn source_room(len: u32, base: u32, format: u32) -> Room
    requires { len ≤ 2 ^ 24 }
    ensures { result ≡ source_room len base format }
{
    let open = format % 0x40_0000;
    if formats::names_source(base, open) {
        return work(len, formats::source_of(base, open, 0));
    }
    no_room()
}

// What is kept after a store at an offset that left these registers.
pub fn follow(len: u32, offset: u32, r: Regs, k: Rooms) -> Rooms
    requires { len ≤ 2 ^ 24 }
    ensures { result ≡ after len offset r k }
{
    match offset {
        0x10 | 0x14 => Rooms {
            target: target_room(len, r.dst_base_addr, r.dst_format),
            ..k
        },
        0x34 | 0x54 => Rooms {
            source: source_room(len, r.src_base_addr, r.src_format),
            ..k
        },
        _ => k,
    }
}

// What may be told of both: nothing of a packed source, which has another step.
pub fn tell(format: u32, k: Rooms) -> Rooms
    ensures { result ≡ told format k }
{
    if format / 0x40_0000 % 4 == 0 {
        return k;
    }
    Rooms {
        source: no_room(),
        ..k
    }
}

// Whether the rows of a surface have n pixels: by a product.
fn has_pixels(s: Surface, n: u32) -> bool
    requires { Small s }
    ensures { result ≡ true → n ≤ row_pixels s }
{
    let row = surface::row_bytes(s);
    if s.bytes == 0 {
        return n as usize <= 8 * row;
    }
    n as usize * s.bytes as usize <= row
}

// Whether n rows of it are in a memory of len bytes: by another.
fn has_rows(len: usize, s: Surface, n: u32) -> bool
    requires { Small s }
    ensures { result ≡ true → depth s n ≤ len - s.base }
{
    let base = s.base as usize;
    let stride = s.stride as usize;
    if s.tiled {
        return base + (n as usize + 31) / 32 * (4096 * stride) <= len;
    }
    base + n as usize * stride <= len
}

// Whether n places from one on are below a number.
fn fits(at: u32, n: u32, most: u32) -> bool
    ensures { result ≡ leb (at + n) most }
{
    at as usize + n as usize <= most as usize
}

// Whether every pixel of a rectangle is on a surface of which that room is told: below both numbers all are, where the surface has that room. Elsewhere, as in a
// last row that is not whole, and where it has not, the last pixel decides.
pub fn rect_in(len: usize, s: Surface, k: Room, x: u32, y: u32, w: u32, h: u32) -> bool
    requires { Small s }
    ensures { result ≡ all_on s len (rect false false x y w h) }
{
    if (fits(x, w, k.pixels) & fits(y, h, k.rows))
        && (has_pixels(s, k.pixels) & has_rows(len, s, k.rows))
    {
        return true;
    }
    spans::rect_on(len, s, x, y, w, h)
}
