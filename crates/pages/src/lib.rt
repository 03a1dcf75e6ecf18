// The marks of the 4,096 pages of memory: setting those of written pixels, the first that is set, and how many are.
#![tactic(auto)]

ghost use Rattle.std.specs.Prelude.{◌≡◌, false, [], ◌∷◌, ◌-◌, ◌^◌, ◌<◌, ◌≤◌};
ghost use Rattle.surface.specs.Pixels.{px, rect};
ghost use Rattle.surface.specs.Asked.{Small};
ghost use Rattle.pages.specs.Pages.{no_marks, marked_at, marking, first_marked, count_marked};
ghost use Rattle.pages.specs.Extent.{starts, band_of, first_page, last_page, extent_of};
ghost use Rattle.pages.specs.Asked.{MarkablePixel, Markable, InBand, Sized};

use surface::Surface;

// The pages from first up to, and without, past; and whether each of them has a byte of a written pixel for sure.
#[derive(Clone, Copy)]
pub struct Extent {
    pub first: usize,
    pub past: usize,
    pub whole: bool,
}

pub fn no_marks() -> [bool; 4096]
    ensures { result ≡ no_marks }
{
    [false; 4096]
}

// The pages from first up to, and without, past are marked.
pub fn mark_pages(marks: &mut [bool; 4096], first: usize, past: usize)
    requires { past ≤ 4096 }
    ensures { marks.new ≡ marked_at (starts first (past - first)) marks.old }
{
    for page in first..past {
        marks[page] = true;
    }
}

// The pages of a pixel are marked, byte by byte: its bytes may lie in two tiles.
pub fn mark_pixel(marks: &mut [bool; 4096], s: Surface, x: u32, y: u32)
    requires { MarkablePixel s x y }
    ensures { marks.new ≡ marking s (px x y ∷ []) marks.old }
{
    for k in 0..s.bytes {
        let at = surface::byte_of(s, x, y, k);
        marks[at / 4096] = true;
    }
}

// Of h rows from row y on, how many lie so close that no page fits between two of them.
fn band(s: Surface, y: u32, h: u32) -> u32
    ensures { (result ≡ band_of s y h) × (result ≤ h) × (0 < h → 0 < result) }
{
    if s.tiled {
        return h.min(32 - y % 32);
    }
    if s.stride <= 4096 {
        return h;
    }
    h.min(1)
}

// The page of a rectangle's first byte, and that of its last.
fn first_page(s: Surface, x: u32, y: u32) -> usize
    requires { Small s × (x ≤ 2 ^ 13) }
    ensures { result ≡ first_page s x y }
{
    surface::byte_at(s, (x * s.bytes) as usize, y as usize) / 4096
}

fn last_page(s: Surface, x: u32, y: u32, w: u32, h: u32) -> usize
    requires { Sized s x y w h × (0 < w) × (0 < h) }
    ensures { result ≡ last_page s x y w h }
{
    let column = ((x + w) * s.bytes - 1) as usize;
    surface::byte_at(s, column, (y + (h - 1)) as usize) / 4096
}

// The pages of a rectangle in one band: those from its first byte to its last.
fn mark_band(marks: &mut [bool; 4096], s: Surface, x: u32, y: u32, w: u32, h: u32)
    requires { InBand s x y w h }
    ensures { marks.new ≡ marking s (rect false false x y w h) marks.old }
{
    let first = first_page(s, x, y);
    mark_pages(marks, first, last_page(s, x, y, w, h) + 1);
}

// The pages of a rectangle's pixels are marked, band by band.
pub fn mark_rect(marks: &mut [bool; 4096], s: Surface, x: u32, y: u32, w: u32, h: u32)
    requires { Markable s x y w h }
    ensures { marks.new ≡ marking s (rect false false x y w h) marks.old }
{
    if w == 0 {
        return;
    }
    let mut j: u32 = 0;
    // while: the step is what `band` answers
    while j < h {
        let n = band(s, y + j, h - j);
        mark_band(marks, s, x, y + j, w, n);
        j += n;
    }
}

// Where `count` of the pixels of a rectangle are written: the pages from its first byte to its last, and whether all of them are to be marked.
pub fn extent_of(s: Surface, x: u32, y: u32, w: u32, h: u32, count: u32) -> Extent
    requires { Sized s x y w h }
    ensures { result ≡ extent_of s x y w h count }
{
    if count == 0 {
        return Extent {
            first: 0,
            past: 0,
            whole: true,
        };
    }
    if (0 < w) & (0 < h) {
        let first = first_page(s, x, y);
        let last = last_page(s, x, y, w, h);
        if last < 4096 {
            return Extent {
                first,
                past: last + 1,
                whole: (first == last) | ((count == w * h) & (band(s, y, h) == h)),
            };
        }
    }
    Extent {
        first: 0,
        past: 4096,
        whole: false,
    }
}

// The first marked page at or after a number.
pub fn first_marked(marks: &[bool; 4096], page: u32) -> Option<u32>
    ensures { result ≡ first_marked marks.now page }
{
    for k in page..4096 {
        if marks[k as usize] {
            return Some(k);
        }
    }
    None
}

// How many pages are marked.
pub fn count_marked(marks: &[bool; 4096]) -> u32
    ensures { result ≡ count_marked marks.now }
{
    let mut n: u32 = 0;
    for &marked in marks {
        if marked {
            n += 1;
        }
    }
    n
}
