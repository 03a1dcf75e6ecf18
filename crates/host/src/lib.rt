// Host blits: the pixels that a word of data finishes, painted. Nothing here knows a register's offset or an answer's number.
#![tactic(auto)]

ghost use Rattle.std.specs.Prelude.{◌≡◌, [], ◌∷◌, ◌+◌, ◌-◌, ◌*◌, ◌/◌, ◌%◌, ◌^◌, ◌<◌, length};
ghost use Rattle.formats.specs.Step.{bits_per, data_words};
ghost use Rattle.paint.specs.Paint.{state, tallied};
ghost use Rattle.paint.specs.Asked.{Room};
ghost use Rattle.host.specs.Host.{pixel, value_of, whole, by_byte, by_word, by_run};
ghost use Rattle.host.specs.Asked.{Sizes, Opened, Waits, WaitsFor};
ghost use Rattle.host.specs.Draw.{host_source, drawn};

use ink::Ink;
use paint::{Clip, Source, Tally};

// The source (its step, its size in pixels, its bytes per pixel with 0 for mono), and the target position of its upper left pixel, counted from
// 16384.
#[derive(Clone, Copy)]
pub struct Feed {
    pub step: u32,
    pub width: u32,
    pub height: u32,
    pub bytes: u32,
    pub x: u32,
    pub y: u32,
}

// The words that a blit needs.
pub fn words_needed(feed: Feed) -> u32
    requires { Sizes feed }
    ensures { result ≡ data_words feed.bytes feed.step feed.width feed.height }
{
    if feed.width == 0 {
        return 0;
    }
    if feed.height == 0 {
        return 0;
    }
    let row = formats::row_length(feed.bytes, feed.width);
    ((feed.height - 1) * feed.step + row + 3) / 4
}

// The pixels that so many bytes hold whole.
fn pixels_of(bytes: u32, count: u32) -> u32
    requires { (bytes < 5) × (count < 2 ^ 18) }
    ensures { result ≡ 8 * count / bits_per bytes }
{
    match bytes {
        0 => 8 * count,
        1 => count,
        2 => count / 2,
        3 => count / 3,
        _ => count / 4,
    }
}

// The pixels of a row that its first `count` bytes hold whole.
#[tactic(auto, unfolding(crate::specs::Host::whole, crate::specs::Host::bits_of))]
pub fn whole_pixels(feed: Feed, count: u32) -> u32
    requires { (feed.bytes < 5) × (count < 2 ^ 18) }
    ensures { result ≡ whole feed count }
{
    feed.width.min(pixels_of(feed.bytes, count))
}

// The number in the low bytes of v.
fn low_bytes(v: u64, bytes: u32) -> u32
    requires { (0 < bytes) × (bytes < 5) }
    ensures { result ≡ v % 2 ^ (8 * bytes) }
{
    (v % (1 << (8 * bytes))) as u32
}

// The value of pixel i, whose last byte is byte t of this word.
#[tactic(auto, unfolding(crate::specs::Host::value_of))]
pub fn value_of(feed: Feed, last: u32, word: u32, t: u32, i: u32) -> u32
    requires { (feed.bytes < 5) × (t < 4) }
    ensures { result ≡ value_of feed last word t i }
{
    let v = last as u64 + word as u64 * 0x1_0000_0000;
    if feed.bytes == 0 {
        return ((v >> (8 * (4 + t) + (7 - i % 8))) % 2) as u32;
    }
    low_bytes(v >> (8 * (5 + t - feed.bytes)), feed.bytes)
}

// The source that a value of the feed gives.
#[tactic(auto, unfolding(crate::specs::Draw::host_source))]
fn source_of(ink: Ink, feed: Feed, v: u32) -> Source
    ensures { result ≡ host_source ink feed v }
{
    if feed.bytes == 0 {
        return paint::bit_source(ink, v);
    }
    paint::colour_source(ink, feed.bytes, v)
}

// A blit: with what it paints, where it may, and what the data is.
#[derive(Clone, Copy)]
struct Blit {
    ink: Ink,
    pattern: [u8; 256],
    clip: Clip,
    feed: Feed,
}

impl Blit {
    // Pixel (i, j) of value v, after those that n tells of.
    fn draw_pixel(&self, mem: &mut [u8], i: u32, j: u32, v: u32, n: Tally) -> Tally
        requires { Opened self.now.ink self.now.clip self.now.feed (length mem.old) × ((i < self.now.feed.width) × ((j < self.now.feed.height) × Room n 1)) }
        ensures { tallied mem.new result ≡ drawn self.now.ink self.now.pattern self.now.clip self.now.feed (pixel i j v ∷ []) (tallied mem.old n) }
    {
        let x = self.feed.x + i;
        let y = self.feed.y + j;
        if paint::covers(self.clip, x, y) {
            let column = x - 16384;
            let row = y - 16384;
            let p = ink::pattern_at(self.ink, self.pattern, column, row);
            let s = source_of(self.ink, self.feed, v);
            return paint::put_source(mem, self.ink, p, column, row, s, n);
        }
        n
    }

    // The pixels that byte o of the data finishes; it is of `word`, which comes after `last`.
    fn draw_byte(&self, mem: &mut [u8], last: u32, word: u32, o: u32, n: Tally) -> Tally
        requires { Opened self.now.ink self.now.clip self.now.feed (length mem.old) × Room n self.now.feed.width }
        ensures { tallied mem.new result ≡ drawn self.now.ink self.now.pattern self.now.clip self.now.feed (by_byte self.now.feed last word o) (tallied mem.old n) }
    {
        let j = o / self.feed.step;
        if self.feed.height <= j {
            return n;
        }
        let column = o % self.feed.step;
        let start = whole_pixels(self.feed, column);
        let end = whole_pixels(self.feed, column + 1);
        let mut r = n;
        for i in start..end {
            let v = value_of(self.feed, last, word, o % 4, i);
            r = self.draw_pixel(mem, i, j, v, r);
        }
        r
    }

    // Those that word number `taken` finishes.
    fn draw_word(&self, mem: &mut [u8], taken: u32, last: u32, word: u32, n: Tally) -> Tally
        requires { Waits self.now.ink self.now.clip self.now.feed (length mem.old) taken × Room n (2 ^ 15) }
        ensures { tallied mem.new result ≡ drawn self.now.ink self.now.pattern self.now.clip self.now.feed (by_word self.now.feed last word taken) (tallied mem.old n) }
    {
        let mut r = n;
        for t in 0..4 {
            r = self.draw_byte(mem, last, word, 4 * taken + t, r);
        }
        r
    }
}

// The pixels that word number `taken` finishes, after those that n tells of; `last` is the word before it. Public: its parameters stay as docs/PUBLIC.md has them.
pub fn host_word(
    mem: &mut [u8],
    ink: Ink,
    pattern: [u8; 256],
    c: Clip,
    feed: Feed,
    taken: u32,
    last: u32,
    word: u32,
    n: Tally,
) -> Tally
    requires { Waits ink c feed (length mem.old) taken × Room n (2 ^ 15) }
    ensures { tallied mem.new result ≡ drawn ink pattern c feed (by_word feed last word taken) (tallied mem.old n) }
{
    let blit = Blit {
        ink,
        pattern,
        clip: c,
        feed,
    };
    blit.draw_word(mem, taken, last, word, n)
}

// Those that some words finish, the first of them number `taken`; `last` is the word before them. The tally of those written. Public: its parameters stay as docs/PUBLIC.md has them.
pub fn host_words(
    mem: &mut [u8],
    ink: Ink,
    pattern: [u8; 256],
    c: Clip,
    feed: Feed,
    taken: u32,
    last: u32,
    words: &[u32],
) -> Tally
    requires { WaitsFor ink c feed (length mem.old) taken (length words.now) }
    ensures { tallied mem.new result ≡ drawn ink pattern c feed (by_run feed last words.now taken) (state mem.old 0 0) }
{
    let blit = Blit {
        ink,
        pattern,
        clip: c,
        feed,
    };
    let mut n = Tally {
        count: 0,
        changed: 0,
    };
    let mut k = taken;
    let mut before = last;
    for word in words {
        n = blit.draw_word(mem, k, before, *word, n);
        k += 1;
        before = *word;
    }
    n
}
