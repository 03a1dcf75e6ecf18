// The pages of a rectangle of which some pixels are left unwritten: a pattern's bit of 0 in a transparent fill, a mono source's in a transparent copy.
#![tactic(auto)]

ghost use Rattle.std.specs.Prelude.{◌≡◌, true, false, ◌+◌, ◌^◌, ◌<◌, ◌≤◌, length};
ghost use Rattle.surface.specs.Pixels.{px, across, rect};
ghost use Rattle.surface.specs.Asked.{Colour};
ghost use Rattle.pages.specs.Pages.{marking};
ghost use Rattle.sweep.specs.Asked.{HasSource};
ghost use Rattle.sift.specs.Sift.{chosen, task_at, left_at, wet, run_of};
ghost use Rattle.sift.specs.Asked.{Scaled, Siftable};

use scale::Scale;
use surface::Surface;
use sweep::Task;

// A rectangle's work; and where it is a stretch copy, which source pixel each of its pixels takes.
// A flag with the scales beside it, no Option: specs/Sift.antt and trail's specs/Trail.antt define `task_at`, `stretch_in` and `sieve_of` by these fields.
#[derive(Clone, Copy)]
pub struct Sieve {
    pub task: Task,
    pub stretched: bool,
    pub columns: Scale,
    pub rows: Scale,
}

// Whether the source of pixel (x, y) leaves it.
fn is_left(mem: &[u8], t: Task, pattern: &[u8; 256], x: u32, y: u32) -> bool
    requires { HasSource t (length mem.now) x y }
    ensures { result ≡ left_at t pattern.now mem.now (px x y) }
{
    let ink = t.ink;
    if t.copies {
        if t.from.bytes == 0 {
            let bit = surface::get_bit(mem, t.from, t.sx + (x - t.x), t.sy + (y - t.y));
            return ink.clear & (bit == 0);
        }
        return false;
    }
    let row = ink::pattern_row(ink, y) as usize;
    let bit = ink::bit_of(pattern[row] as u32, ink::pattern_column(ink, x));
    ink.clear & (ink.mono & (bit == 0))
}

// The work of pixel (x, y).
fn task_at(v: Sieve, x: u32, y: u32) -> Task
    requires { (x < 2 ^ 13) × (y < 2 ^ 13) × (v.stretched ≡ true → Scaled v x y) }
    ensures { result ≡ task_at v (px x y) }
{
    if v.stretched {
        return Task {
            copies: true,
            sx: scale::place_of(v.columns, 16384 + x) - 16384,
            sy: scale::place_of(v.rows, 16384 + y) - 16384,
            x,
            y,
            ..v.task
        };
    }
    v.task
}

// How many pixels from (x, y) on have all their bytes in the page of its first byte.
fn run_of(s: Surface, x: u32, y: u32) -> u32
    requires { Colour s × (x < 2 ^ 13) }
    ensures { result ≡ run_of s x y }
{
    let column = x * s.bytes;
    let at = surface::byte_at(s, column as usize, y as usize);
    let room = 4096 - (at % 4096) as u32;
    if s.tiled {
        return room.min(128 - column % 128) / s.bytes;
    }
    room / s.bytes
}

// The first pixels of the w from (x, y) on: those in a page that is marked already, all at once; or else one, whose pages are marked if it is written. How many they
// are.
fn sift_some(
    marks: &mut [bool; 4096],
    mem: &[u8],
    v: Sieve,
    pattern: &[u8; 256],
    x: u32,
    y: u32,
    w: u32,
) -> u32
    requires { Siftable v x y w 1 (length mem.now) × (0 < w) }
    ensures { (0 < result) × (result ≤ w) × (marks.new ≡ marking v.task.ink.target (chosen (wet v pattern.now mem.now) (across false x result y)) marks.old) }
{
    let s = v.task.ink.target;
    let at = surface::byte_of(s, x, y, 0);
    if marks[at / 4096] {
        let n = run_of(s, x, y).min(w);
        if 0 < n {
            return n;
        }
    }
    if is_left(mem, task_at(v, x, y), pattern, x, y) {
        return 1;
    }
    pages::mark_pixel(marks, s, x, y);
    1
}

// The pages of the pixels of a row that are written.
fn sift_row(
    marks: &mut [bool; 4096],
    mem: &[u8],
    v: Sieve,
    pattern: &[u8; 256],
    x: u32,
    y: u32,
    w: u32,
)
    requires { Siftable v x y w 1 (length mem.now) }
    ensures { marks.new ≡ marking v.task.ink.target (chosen (wet v pattern.now mem.now) (across false x w y)) marks.old }
{
    let mut i: u32 = 0;
    // while: the step is what `sift_some` answers
    while i < w {
        i += sift_some(marks, mem, v, pattern, x + i, y, w - i);
    }
}

// The pages of a rectangle's pixels that are written, row by row. Public: its parameters stay as docs/PUBLIC.md has them.
pub fn sift_rows(
    marks: &mut [bool; 4096],
    mem: &[u8],
    v: Sieve,
    pattern: &[u8; 256],
    x: u32,
    y: u32,
    w: u32,
    h: u32,
)
    requires { Siftable v x y w h (length mem.now) }
    ensures { marks.new ≡ marking v.task.ink.target (chosen (wet v pattern.now mem.now) (rect false false x y w h)) marks.old }
{
    for j in 0..h {
        sift_row(marks, mem, v, pattern, x, y + j, w);
    }
}
