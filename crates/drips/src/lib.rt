// Which pages of memory the written pixels of a host blit's words lie in, and which rows the words can reach.
#![tactic(auto)]

ghost use Rattle.std.specs.Prelude.{◌≡◌, [], ◌∷◌, ◌+◌, ◌-◌, ◌*◌, ◌^◌, ◌<◌, ◌≤◌, min, max, length};
ghost use Rattle.host.specs.Host.{pixel, by_byte, by_word, by_run};
ghost use Rattle.host.specs.Draw.{host_source};
ghost use Rattle.host.specs.Asked.{Sizes};
ghost use Rattle.pages.specs.Pages.{marking};
ghost use Rattle.drips.specs.Drips.{dripped, first_row, past_row, data_box};
ghost use Rattle.drips.specs.Rows.{whole_by, left_of, right_of, row_drips, rows_drips};
ghost use Rattle.drips.specs.Asked.{Dripping, RowOf, Drippable, Boxable};

use cuts::Cut;
use host::Feed;
use ink::Ink;
use paint::Clip;

// Whether a pixel of value v is left unwritten: a mono bit of 0 where the command is transparent.
fn is_left(ink: Ink, feed: Feed, v: u32) -> bool
    ensures { result ≡ (host_source ink feed v).left }
{
    feed.bytes == 0 && ink.clear & (v == 0)
}

// The rows of the data that n words from number `taken` on can reach: the first.
#[tactic(auto, unfolding(crate::specs::Drips::first_row))]
fn first_row(feed: Feed, taken: u32) -> u32
    requires { (0 < feed.step) × (taken < 2 ^ 29) }
    ensures { result ≡ first_row feed taken }
{
    4 * taken / feed.step
}

// And the one after the last.
#[tactic(auto, unfolding(crate::specs::Drips::past_row))]
fn past_row(feed: Feed, taken: u32, n: u32) -> u32
    requires { (0 < feed.step) × ((feed.step < 2 ^ 17) × (taken + n < 2 ^ 29)) }
    ensures { result ≡ past_row feed taken n }
{
    (4 * (taken + n) + (feed.step - 1)) / feed.step
}

// How many pixels of row j are whole with the data's first n bytes.
fn whole_by(feed: Feed, j: u32, n: u32) -> u32
    requires { Sizes feed × (j < feed.height) }
    ensures { (result ≡ whole_by feed j n) × (result ≤ feed.width) }
{
    host::whole_pixels(feed, n.saturating_sub(j * feed.step).min(feed.step))
}

// Where the pixels of row j begin that the bytes from number `from` on finish, as far as the clip's columns reach.
fn left_of(c: Clip, feed: Feed, from: u32, j: u32) -> u32
    requires { RowOf c feed j }
    ensures { result ≡ left_of c feed from j }
{
    (feed.x + whole_by(feed, j, from)).max(16384 + c.left)
}

// And where those end that the first `past` bytes finish.
fn right_of(c: Clip, feed: Feed, past: u32, j: u32) -> u32
    requires { RowOf c feed j }
    ensures { result ≡ right_of c feed past j }
{
    (feed.x + whole_by(feed, j, past)).min(16384 + c.right)
}

// A host blit as it is written: where, with what, and which data it takes.
#[derive(Clone, Copy)]
struct Drip {
    ink: Ink,
    clip: Clip,
    feed: Feed,
}

impl Drip {
    // The pages of pixel (i, j) of value v.
    fn mark_one(self, marks: &mut [bool; 4096], i: u32, j: u32, v: u32)
        requires { Dripping self.ink self.clip self.feed × ((i < self.feed.width) × (j < self.feed.height)) }
        ensures { marks.new ≡ marking self.ink.target (dripped self.ink self.clip self.feed (pixel i j v ∷ [])) marks.old }
    {
        let x = self.feed.x + i;
        let y = self.feed.y + j;
        if paint::covers(self.clip, x, y) {
            if is_left(self.ink, self.feed, v) {
                return;
            }
            pages::mark_pixel(marks, self.ink.target, x - 16384, y - 16384);
        }
    }

    // Those of the pixels that byte o of the data finishes.
    fn mark_byte(self, marks: &mut [bool; 4096], last: u32, word: u32, o: u32)
        requires { Dripping self.ink self.clip self.feed }
        ensures { marks.new ≡ marking self.ink.target (dripped self.ink self.clip self.feed (by_byte self.feed last word o)) marks.old }
    {
        let j = o / self.feed.step;
        if self.feed.height <= j {
            return;
        }
        let column = o % self.feed.step;
        let start = host::whole_pixels(self.feed, column);
        let end = host::whole_pixels(self.feed, column + 1);
        for i in start..end {
            let v = host::value_of(self.feed, last, word, o % 4, i);
            self.mark_one(marks, i, j, v);
        }
    }

    // Those that word number `taken` finishes; `last` is the word before it.
    fn mark_word(self, marks: &mut [bool; 4096], taken: u32, last: u32, word: u32)
        requires { Drippable self.ink self.clip self.feed taken 1 }
        ensures { marks.new ≡ marking self.ink.target (dripped self.ink self.clip self.feed (by_word self.feed last word taken)) marks.old }
    {
        for t in 0..4 {
            self.mark_byte(marks, last, word, 4 * taken + t);
        }
    }

    // Those that some words finish, pixel by pixel.
    fn mark_each(self, marks: &mut [bool; 4096], taken: u32, last: u32, words: &[u32])
        requires { Drippable self.ink self.clip self.feed taken (length words.now) }
        ensures { marks.new ≡ marking self.ink.target (dripped self.ink self.clip self.feed (by_run self.feed last words.now taken)) marks.old }
    {
        let mut before = last;
        for i in 0..words.len() {
            let word = words[i];
            self.mark_word(marks, taken + i as u32, before, word);
            before = word;
        }
    }

    // The pages of the pixels of row j that the bytes from number `from` up to, and without, `past` finish.
    fn mark_row(self, marks: &mut [bool; 4096], from: u32, past: u32, j: u32)
        requires { Dripping self.ink self.clip self.feed × (j < self.feed.height) }
        ensures { marks.new ≡ marking self.ink.target (row_drips self.clip self.feed from past j) marks.old }
    {
        let y = self.feed.y + j;
        if y < 16384 + self.clip.top || 16384 + self.clip.bottom <= y {
            return;
        }
        let left = left_of(self.clip, self.feed, from, j);
        let right = right_of(self.clip, self.feed, past, j);
        if left < right {
            pages::mark_rect(
                marks,
                self.ink.target,
                left - 16384,
                y - 16384,
                right - left,
                1,
            );
        }
    }

    // Those that n words finish, row by row.
    fn mark_rows(self, marks: &mut [bool; 4096], taken: u32, n: u32)
        requires { Drippable self.ink self.clip self.feed taken n }
        ensures { marks.new ≡ marking self.ink.target (rows_drips self.clip self.feed (4 * taken) (4 * (taken + n)) (first_row self.feed taken) (min self.feed.height (past_row self.feed taken n) - first_row self.feed taken)) marks.old }
    {
        let from = 4 * taken;
        let past = 4 * (taken + n);
        let end = self.feed.height.min(past_row(self.feed, taken, n));
        for j in first_row(self.feed, taken)..end {
            self.mark_row(marks, from, past, j);
        }
    }
}

// The pages of the written pixels among those that some words finish, the first of them number `taken`; `last` is the word before them. Where no pixel can be left
// unwritten, row by row.
pub fn mark_data(
    marks: &mut [bool; 4096],
    ink: Ink,
    c: Clip,
    feed: Feed,
    taken: u32,
    last: u32,
    words: &[u32],
)
    requires { Drippable ink c feed taken (length words.now) }
    ensures { marks.new ≡ marking ink.target (dripped ink c feed (by_run feed last words.now taken)) marks.old }
{
    let drip = Drip { ink, clip: c, feed };
    if feed.bytes == 0 && ink.clear {
        drip.mark_each(marks, taken, last, words);
        return;
    }
    drip.mark_rows(marks, taken, words.len() as u32);
}

// Of a cut, the rows that n words from number `taken` on can reach.
pub fn data_box(feed: Feed, cut: Cut, taken: u32, n: u32) -> Cut
    requires { Boxable feed cut taken n }
    ensures { result ≡ data_box feed cut taken n }
{
    let bottom = cut.y + cut.h;
    let first = (feed.y + first_row(feed, taken)).saturating_sub(16384);
    let low = cut.y.max(first).min(bottom);
    let past = (feed.y + past_row(feed, taken, n))
        .saturating_sub(16384)
        .min(bottom);
    Cut {
        x: cut.x,
        y: low,
        w: cut.w,
        h: past.saturating_sub(low),
        sx: 0,
        sy: 0,
    }
}
