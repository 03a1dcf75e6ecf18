// Text put into a lent buffer, and clip0's rectangle of the target surface as the text of a plain PPM.
#![tactic(auto)]

ghost use Rattle.std.specs.Prelude.{◌≡◌, false, ◌+◌, ◌/◌, ◌%◌, ◌^◌, ◌<◌, length, [], ◌∷◌};
ghost use Rattle.surface.specs.Place.{read_px};
ghost use Rattle.surface.specs.Asked.{OnColour};
ghost use Rattle.surface.specs.Pixels.{across, rect};
ghost use Rattle.ppm.specs.Text.{digit, numeral};
ghost use Rattle.ppm.specs.Says.{Says};
ghost use Rattle.ppm.specs.Picture.{shade as Picture·shade, line, lines, header, shows, picture};
ghost use Rattle.ppm.specs.Asked.{RowOn, RectOn};

use registers::Regs;
use surface::Surface;

// A lent buffer, and how many of its bytes are used.
#[derive(Drop)]
pub struct Page<'a> {
    pub bytes: &'a mut [u8],
    pub used: usize,
}

impl Page<'_> {
    // One byte more, where there is room.
    #[tactic(auto, unfolding(crate::specs::Text::put, basics::specs::Each::each))]
    fn put(&mut self, b: u8)
        ensures { Says (b ∷ []) self.old self.new }
    {
        if self.used < self.bytes.len() {
            self.bytes[self.used] = b;
            self.used += 1;
        }
    }

    pub fn say(&mut self, text: &[u8])
        ensures { Says text.now self.old self.new }
    {
        for &b in text {
            self.put(b);
        }
    }

    #[tactic(auto, using(crate::proofs::TextLaws::says_none), unfolding(crate::specs::Text::digit))]
    fn digit(&mut self, n: u64, power: u64)
        requires { 0 < power }
        ensures { Says (digit n power) self.old self.new }
    {
        // Written so, this is one comparison with the larger of n and 1; as its opposite over the call, a picture's text takes twice as long.
        if (n < power) & (1 < power) {
            return;
        }
        self.put(48 + (n / power % 10) as u8);
    }

    // A number in decimal, and a byte after it.
    pub fn number(&mut self, n: u64, after: u8)
        ensures { Says (numeral n after) self.old self.new }
    {
        let mut power: u64 = 10_000_000_000_000_000_000;
        for k in (0..20u32).rev() {
            self.digit(n, power);
            power /= 10;
        }
        self.put(after);
    }
}

fn shade(bytes: u32, v: u32) -> u32
    ensures { result ≡ Picture·shade bytes v }
{
    if bytes == 1 {
        return v % 0x100 * 0x10101;
    }
    colour::convert(bytes, 3, v)
}

fn channel(rgb: u32) -> u64
    ensures { result ≡ rgb % 2 ^ 8 }
{
    (rgb % 0x100) as u64
}

// Whether clip0's rectangle is not empty and on the target surface.
fn has_picture(len: usize, r: Regs) -> bool
    ensures { result ≡ shows r len }
{
    if !formats::names_target(r.dst_format) {
        return false;
    }
    let left = r.clip0_min % 0x1000;
    let right = r.clip0_max % 0x1000;
    if right <= left {
        return false;
    }
    let top = r.clip0_min / 0x1_0000 % 0x1000;
    let bottom = r.clip0_max / 0x1_0000 % 0x1000;
    if bottom <= top {
        return false;
    }
    let s = formats::target_of(r.dst_base_addr, r.dst_format);
    spans::rect_on(len, s, left, top, right - left, bottom - top)
}

impl Page<'_> {
    fn line(&mut self, rgb: u32)
        ensures { Says (line rgb) self.old self.new }
    {
        self.number(channel(rgb / 0x1_0000), b' ');
        self.number(channel(rgb / 0x100), b' ');
        self.number(channel(rgb), b'\n');
    }

    fn pixel(&mut self, mem: &[u8], s: Surface, x: u32, y: u32)
        requires { OnColour s (length mem.now) x y }
        ensures { Says (line (Picture·shade s.bytes (read_px mem.now s x y))) self.old self.new }
    {
        self.line(shade(s.bytes, surface::get_pixel(mem, s, x, y)));
    }

    fn row(&mut self, mem: &[u8], s: Surface, x: u32, w: u32, y: u32)
        requires { RowOn s (length mem.now) x w y × (x + w < 2 ^ 13) }
        ensures { Says (lines s mem.now (across false x w y)) self.old self.new }
    {
        for column in x..x + w {
            self.pixel(mem, s, column, y);
        }
    }

    fn rows(&mut self, mem: &[u8], s: Surface, x: u32, y: u32, w: u32, h: u32)
        requires { RectOn s (length mem.now) x y w h × ((x + w < 2 ^ 13) × (y + h < 2 ^ 13)) }
        ensures { Says (lines s mem.now (rect false false x y w h)) self.old self.new }
    {
        for row in y..y + h {
            self.row(mem, s, x, w, row);
        }
    }

    fn header(&mut self, w: u32, h: u32)
        ensures { Says (header w h) self.old self.new }
    {
        self.say(b"P3\n");
        self.number(w as u64, b' ');
        self.number(h as u64, b'\n');
        self.say(b"255\n");
    }

    pub fn picture(&mut self, mem: &[u8], r: Regs)
        ensures { Says (picture r mem.now) self.old self.new }
    {
        if !has_picture(mem.len(), r) {
            self.say(b"no picture\n");
            return;
        }
        let left = r.clip0_min % 0x1000;
        let top = r.clip0_min / 0x1_0000 % 0x1000;
        let w = r.clip0_max % 0x1000 - left;
        let h = r.clip0_max / 0x1_0000 % 0x1000 - top;
        let s = formats::target_of(r.dst_base_addr, r.dst_format);
        self.header(w, h);
        self.rows(mem, s, left, top, w, h);
    }
}
