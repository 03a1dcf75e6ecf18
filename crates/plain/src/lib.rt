// A plain host blit, drawn a part of a row at a time.
#![tactic(auto)]

ghost use Rattle.std.specs.Prelude.{◌≡◌, true, false, [], ◌∷◌, ◌+◌, ◌-◌, ◌*◌, ◌/◌, ◌%◌, ◌^◌, ◌<◌, ◌≤◌, length, take, eqb, IfSome};
ghost use Rattle.paint.specs.Paint.{state, tallied, paint};
ghost use Rattle.paint.specs.Mix.{source};
ghost use Rattle.paint.specs.Asked.{Bits12, Room};
ghost use Rattle.host.specs.Host.{last_column, pixel, by_bytes, by_word, by_run};
ghost use Rattle.host.specs.Stream.{data_byte, row_from, rows};
ghost use Rattle.host.specs.Draw.{host_source, drawn};
ghost use Rattle.host.specs.Asked.{Rows, Opened, Waits, WaitsFor};
ghost use Rattle.pours.specs.Pours.{word_in};
ghost use Rattle.plain.specs.Plain.{plain_ink, stretch, mono_touches};
ghost use Rattle.plain.specs.Asked.{opened, painted, Part, Within, Straight, Whole, Glyph};

use bits::Plain;
use host::Feed;
use paint::{Clip, Source, Tally};

// A plain blit: its target and colours, where it may paint, and what the data is.
#[derive(Clone, Copy)]
struct Blit {
    plain: Plain,
    clip: Clip,
    feed: Feed,
}

// Row j, where byte `column` of it is byte t of a word of the data; `last` is the word before that.
#[derive(Clone, Copy)]
struct Row {
    blit: Blit,
    last: u32,
    word: u32,
    t: u32,
    j: u32,
    column: u32,
}

// What a turn over the words of a run did: how many it took, and the tally after them.
#[derive(Clone, Copy)]
struct Turn {
    taken: usize,
    n: Tally,
}

// The source of a pixel of value v: of one bit, or of a colour.
#[tactic(auto, unfolding(crate::specs::Plain::plain_ink, host::specs::Draw::host_source, paint::specs::Mix::bit_source, paint::specs::Mix::colour_source))]
fn plain_source<const MONO: bool>(p: Plain, feed: Feed, v: u32) -> Source
    requires { MONO ≡ eqb feed.bytes 0 }
    ensures { source result.value false result.left ≡ host_source (plain_ink p) feed v }
{
    if MONO {
        return Source {
            value: if v == 1 { p.fore } else { p.back },
            key: false,
            left: p.clear & (v == 0),
        };
    }
    Source {
        value: colour::convert_by_rule(feed.bytes, p.target.bytes, v),
        key: false,
        left: false,
    }
}

// The last byte of pixel i in its row.
fn last_column(feed: Feed, i: u32) -> u32
    requires { (feed.bytes < 5) × (i < 2 ^ 13) }
    ensures { result ≡ last_column feed i }
{
    if feed.bytes == 0 {
        return i / 8;
    }
    i * feed.bytes + (feed.bytes - 1)
}

// Of so many words, as many as are whole pixels.
fn whole_words(bytes: u32, n: u32) -> u32
    ensures { (result ≤ n) × (bytes ≡ 3 → result % 3 ≡ 0) }
{
    if bytes == 3 {
        return n / 3 * 3;
    }
    n
}

impl Row {
    // The pixels from start up to end, one by one.
    fn draw_each<const MONO: bool>(self, mem: &mut [u8], start: u32, end: u32, n: Tally) -> Tally
        requires { opened self.blit (length mem.old) × (Within self.blit.feed self.t self.j self.column start end n × (MONO ≡ eqb self.blit.feed.bytes 0)) }
        ensures { tallied mem.new result ≡ painted self.blit (stretch self.blit.feed self.last self.word self.j start (end - start)) (tallied mem.old n) }
    {
        let mut r = n;
        for i in start..end {
            let t = self.t + last_column(self.blit.feed, i) - self.column;
            let v = host::value_of(self.blit.feed, self.last, self.word, t, i);
            let s = plain_source::<MONO>(self.blit.plain, self.blit.feed, v);
            r = self.blit.draw_pixel(mem, i, self.j, v, s, r);
        }
        r
    }

    // m of them that one byte of the word holds, mono: as bits of that byte where all are inside the clip.
    fn draw_bits(self, mem: &mut [u8], i: u32, m: u32, n: Tally) -> Tally
        requires { opened self.blit (length mem.old) × (Within self.blit.feed self.t self.j self.column i (i + m) n × ((self.blit.feed.bytes ≡ 0) × ((0 < m) × (i % 8 + m ≤ 8)))) }
        ensures { tallied mem.new result ≡ painted self.blit (stretch self.blit.feed self.last self.word self.j i m) (tallied mem.old n) }
    {
        let p = self.blit.plain;
        let x = self.blit.feed.x + i;
        let y = self.blit.feed.y + self.j;
        if paint::covers(self.blit.clip, x, y) {
            if paint::covers(self.blit.clip, x + (m - 1), y) & !p.target.tiled {
                let b = self.t + i / 8 - self.column;
                let byte = (self.word >> (8 * b)) % 256;
                return bits::put_bits(mem, p, byte, i % 8, x - 16384, y - 16384, m, n);
            }
        }
        self.draw_each::<true>(mem, i, i + m, n)
    }

    // All of them, mono, byte by byte.
    fn draw_mono(self, mem: &mut [u8], start: u32, end: u32, n: Tally) -> Tally
        requires { opened self.blit (length mem.old) × (Within self.blit.feed self.t self.j self.column start end n × (self.blit.feed.bytes ≡ 0)) }
        ensures { tallied mem.new result ≡ painted self.blit (stretch self.blit.feed self.last self.word self.j start (end - start)) (tallied mem.old n) }
    {
        let mut r = n;
        let mut i = start;
        // while: the step is as many pixels as a byte has left
        while i < end {
            let m = (8 - i % 8).min(end - i);
            r = self.draw_bits(mem, i, m, r);
            i += m;
        }
        r
    }

    // The pixels that m bytes finish, which are the word's.
    fn draw(self, mem: &mut [u8], m: u32, n: Tally) -> Tally
        requires { opened self.blit (length mem.old) × (Part self.blit.feed self.t self.j self.column m × Room n self.blit.feed.width) }
        ensures { tallied mem.new result ≡ painted self.blit (by_bytes self.blit.feed self.last self.word (self.j * self.blit.feed.step + self.column) m) (tallied mem.old n) }
    {
        let start = host::whole_pixels(self.blit.feed, self.column);
        let end = host::whole_pixels(self.blit.feed, self.column + m);
        if self.blit.feed.bytes == 0 {
            return self.draw_mono(mem, start, end, n);
        }
        self.draw_each::<false>(mem, start, end, n)
    }
}

impl Blit {
    // Pixel (i, j) of value v, whose source is s, after those that n tells of. Inline: as a call it makes pixels that are converted take up to twice as long.
    #[inline(always)]
    fn draw_pixel(self, mem: &mut [u8], i: u32, j: u32, v: u32, s: Source, n: Tally) -> Tally
        requires { opened self (length mem.old) × ((i < self.feed.width) × ((j < self.feed.height) × (Room n 1 × (source s.value false s.left ≡ host_source (plain_ink self.plain) self.feed v)))) }
        ensures { tallied mem.new result ≡ painted self (pixel i j v ∷ []) (tallied mem.old n) }
    {
        let x = self.feed.x + i;
        let y = self.feed.y + j;
        if paint::covers(self.clip, x, y) {
            let target = self.plain.target;
            return paint::put_value(mem, target, x - 16384, y - 16384, s.left, s.value, n);
        }
        n
    }

    // The pixels that word number `taken` finishes: row by row, as far as its four bytes go.
    fn draw_word(self, mem: &mut [u8], taken: u32, last: u32, word: u32, n: Tally) -> Tally
        requires { Waits (plain_ink self.plain) self.clip self.feed (length mem.old) taken × Room n (2 ^ 15) }
        ensures { tallied mem.new result ≡ painted self (by_word self.feed last word taken) (tallied mem.old n) }
    {
        let step = self.feed.step;
        let mut j = 4 * taken / step;
        let mut column = 4 * taken % step;
        let mut r = n;
        let mut t = 0;
        // while: the step is as many bytes as a row has left
        while t < 4 {
            if self.feed.height <= j {
                return r;
            }
            let m = (step - column).min(4 - t);
            let row = Row {
                blit: self,
                last,
                word,
                t,
                j,
                column,
            };
            r = row.draw(mem, m, r);
            column = 0;
            j += 1;
            t += m;
        }
        r
    }

    // Of so many words of data from number k on, how many are whole pixels of one row, all inside the clip, that go into memory as they are; none where the next is not.
    fn straight_words(self, k: u32, left: u32) -> Option<u32>
        requires { Rows self.feed × (Bits12 self.clip × ((self.feed.x < 2 ^ 15) × ((self.feed.y < 2 ^ 15) × (k < 2 ^ 29)))) }
        ensures { IfSome result (λ w. Straight self.plain self.clip self.feed k left w) }
    {
        let bytes = self.feed.bytes;
        let step = self.feed.step;
        if (bytes == 0) | (bytes != self.plain.target.bytes) | self.plain.target.tiled {
            return None;
        }
        let j = 4 * k / step;
        let column = 4 * k % step;
        if self.feed.height <= j {
            return None;
        }
        let i = column / bytes;
        if (column % bytes != 0) | (self.feed.width <= i) {
            return None;
        }
        let w = whole_words(bytes, ((self.feed.width - i) * bytes / 4).min(left));
        if w == 0 {
            return None;
        }
        let x = self.feed.x + i;
        let y = self.feed.y + j;
        if paint::covers(self.clip, x, y) {
            if paint::covers(self.clip, x + (4 * w / bytes - 1), y) {
                return Some(w);
            }
        }
        None
    }

    // The first words of a run, number k the first: as many as go into memory as they are, or else one.
    fn take_some(self, mem: &mut [u8], k: u32, last: u32, words: &[u32], n: Tally) -> Turn
        requires { WaitsFor (plain_ink self.plain) self.clip self.feed (length mem.old) k (length words.now) × ((0 < length words.now) × Room n (2 ^ 15 * length words.now)) }
        ensures { (0 < result.taken) × ((result.taken ≤ length words.now) × (tallied mem.new result.n ≡ painted self (by_run self.feed last (take result.taken words.now) k) (tallied mem.old n))) }
    {
        let Some(w) = self.straight_words(k, words.len() as u32) else {
            let n = self.draw_word(mem, k, last, words[0], n);
            return Turn { taken: 1, n };
        };
        let bytes = self.feed.bytes;
        let x = self.feed.x + 4 * k % self.feed.step / bytes - 16384;
        let y = self.feed.y + 4 * k / self.feed.step - 16384;
        let at = surface::place_in_rows(self.plain.target, x, y);
        let taken = w as usize;
        let changed = pours::put_words(mem, at, bytes, &words[..taken]);
        let n = paint::note(n, 4 * w / bytes, changed);
        Turn { taken, n }
    }

    // The words of a run, a turn at a time.
    fn by_turns(self, mem: &mut [u8], taken: u32, last: u32, words: &[u32]) -> Tally
        requires { WaitsFor (plain_ink self.plain) self.clip self.feed (length mem.old) taken (length words.now) }
        ensures { tallied mem.new result ≡ painted self (by_run self.feed last words.now taken) (state mem.old 0 0) }
    {
        let mut n = Tally {
            count: 0,
            changed: 0,
        };
        let mut before = last;
        let mut i = 0;
        // while: the step is as many words as a turn takes
        while i < words.len() {
            let t = self.take_some(mem, taken + i as u32, before, &words[i..], n);
            n = t.n;
            i += t.taken;
            before = words[i - 1];
        }
        n
    }

    // Whether n words after `taken` others are all of a mono blit whose rectangle is inside the clip, on a target in rows.
    fn is_whole(self, taken: u32, n: usize) -> bool
        requires { Rows self.feed × (Bits12 self.clip × ((self.feed.x < 2 ^ 15) × (self.feed.y < 2 ^ 15))) }
        ensures { result ≡ true → Whole self.plain self.clip self.feed taken n }
    {
        if (self.feed.bytes != 0)
            | self.plain.target.tiled
            | (taken != 0)
            | (self.feed.height == 0)
        {
            return false;
        }
        if host::words_needed(self.feed) as usize != n {
            return false;
        }
        let right = self.feed.x + (self.feed.width - 1);
        let bottom = self.feed.y + (self.feed.height - 1);
        paint::covers(self.clip, self.feed.x, self.feed.y)
            && paint::covers(self.clip, right, bottom)
    }
}

// What host_word does, for a plain blit. Public: its parameters stay as docs/PUBLIC.md has them.
pub fn plain_word(
    mem: &mut [u8],
    p: Plain,
    c: Clip,
    feed: Feed,
    taken: u32,
    last: u32,
    word: u32,
    n: Tally,
) -> Tally
    requires { Waits (plain_ink p) c feed (length mem.old) taken × Room n (2 ^ 15) }
    ensures { tallied mem.new result ≡ drawn (plain_ink p) [] c feed (by_word feed last word taken) (tallied mem.old n) }
{
    let blit = Blit {
        plain: p,
        clip: c,
        feed,
    };
    blit.draw_word(mem, taken, last, word, n)
}

// Byte o of the data.
#[tactic(auto, unfolding(host::specs::Stream::data_byte))]
fn data_byte(words: &[u32], o: u32) -> u32
    requires { o / 4 < length words.now }
    ensures { result ≡ data_byte (word_in words.now) o }
{
    (words[(o / 4) as usize] >> (8 * (o % 4))) % 256
}

// Row j of a mono blit, a byte of its data at a time; n is the target's bytes per pixel. Inline: so that n is a number that the compiler knows.
#[inline(always)]
fn mono_line(
    mem: &mut [u8],
    p: Plain,
    n: u32,
    feed: Feed,
    words: &[u32],
    j: u32,
    tally: Tally,
) -> Tally
    requires { Glyph p feed (length mem.old) (length words.now) × ((n ≡ p.target.bytes) × ((j < feed.height) × Room tally feed.width)) }
    ensures { tallied mem.new result ≡ paint p.target (mono_touches p feed (row_from (word_in words.now) feed j 0 feed.width)) (tallied mem.old tally) }
{
    let from = j * feed.step;
    let y = feed.y + j - 16384;
    let mut r = tally;
    let mut i = 0;
    // while: what is left of the row goes on from i. Where eight stands, the compiler unrolls the bits of a byte, and rows take about half the time.
    while i + 8 <= feed.width {
        let byte = data_byte(words, from + i / 8);
        r = bits::put_run(mem, p, n, byte, 0, feed.x + i - 16384, y, 8, r);
        i += 8;
    }
    // Fewer than eight: `% 8` changes nothing, and tells the compiler so.
    let rest = (feed.width - i) % 8;
    if rest != 0 {
        let byte = data_byte(words, from + i / 8);
        r = bits::put_run(mem, p, n, byte, 0, feed.x + i - 16384, y, rest, r);
    }
    r
}

// A mono blit from all its words, row by row; n is the target's bytes per pixel. Inline: for the same reason.
#[inline(always)]
fn mono_blit(mem: &mut [u8], p: Plain, n: u32, feed: Feed, words: &[u32]) -> Tally
    requires { Glyph p feed (length mem.old) (length words.now) × (n ≡ p.target.bytes) }
    ensures { tallied mem.new result ≡ paint p.target (mono_touches p feed (rows (word_in words.now) feed feed.height)) (state mem.old 0 0) }
{
    let mut r = Tally {
        count: 0,
        changed: 0,
    };
    for j in 0..feed.height {
        r = mono_line(mem, p, n, feed, words, j, r);
    }
    r
}

// The same, with a loop for each number of bytes.
fn mono_blits(mem: &mut [u8], p: Plain, feed: Feed, words: &[u32]) -> Tally
    requires { Glyph p feed (length mem.old) (length words.now) }
    ensures { tallied mem.new result ≡ paint p.target (mono_touches p feed (rows (word_in words.now) feed feed.height)) (state mem.old 0 0) }
{
    match p.target.bytes {
        1 => mono_blit(mem, p, 1, feed, words),
        2 => mono_blit(mem, p, 2, feed, words),
        3 => mono_blit(mem, p, 3, feed, words),
        _ => mono_blit(mem, p, 4, feed, words),
    }
}

// What host_words does, for a plain blit: all of a mono one that is inside the clip row by row, any other by turns.
pub fn plain_words(
    mem: &mut [u8],
    p: Plain,
    c: Clip,
    feed: Feed,
    taken: u32,
    last: u32,
    words: &[u32],
) -> Tally
    requires { WaitsFor (plain_ink p) c feed (length mem.old) taken (length words.now) }
    ensures { tallied mem.new result ≡ drawn (plain_ink p) [] c feed (by_run feed last words.now taken) (state mem.old 0 0) }
{
    let blit = Blit {
        plain: p,
        clip: c,
        feed,
    };
    if blit.is_whole(taken, words.len()) {
        return mono_blits(mem, p, feed, words);
    }
    blit.by_turns(mem, taken, last, words)
}
