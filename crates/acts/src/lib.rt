// The commands: each carried out on the registers and the memory, or refused by its row in the table of answers.
#![tactic(auto)]

ghost use Rattle.std.specs.Prelude.{◌≡◌, List, ℕ, ◌+◌, ◌^◌, ◌≤◌, min, length};
ghost use Rattle.paint.specs.Tally.{tally};
ghost use Rattle.paint.specs.Paint.{tallied};
ghost use Rattle.host.specs.Host.{last_of};
ghost use Rattle.acts.specs.Deed.{no_blit, rect_ended, line_ended, touched_by_word, painted_by, bank_of, with_ends, deed, judged, filling, copying, stretching, lining, opening, feeding, carrying, aimed, starting};
ghost use Rattle.acts.specs.Operation.{operation_of};
ghost use Rattle.acts.specs.Fed.{touched_by_words, blit_after, feed_ended, fed, feeding_run};
ghost use Rattle.acts.specs.Asked.{Feeds};

use bank::Bank;
use paint::Tally;
use registers::Regs;
use rooms::Rooms;
use table::Fault;

// The command that the low four bits of a command register name.
#[derive(Clone, Copy, Debug, PartialEq, Eq)]
pub enum Operation {
    Nop,
    Copy,
    Stretch,
    HostBlit,
    Fill,
    // A line or a polyline.
    Line,
    NotBuilt,
}

impl Operation {
    pub fn of(r: Regs) -> Operation
        ensures { result ≡ operation_of r }
    {
        match r.command % 16 {
            0 => Operation::Nop,
            1 => Operation::Copy,
            2 => Operation::Stretch,
            3 => Operation::HostBlit,
            5 => Operation::Fill,
            6 | 7 => Operation::Line,
            _ => Operation::NotBuilt,
        }
    }
}

// A host blit: how many words it has taken, the last of them, and whether it waits for more.
// A flag beside numbers: `no_blit` and `feeding` of the definitions hold the three, and so does the state that a caller in C keeps.
#[derive(Clone, Copy)]
pub struct Blit {
    pub taken: u32,
    pub last: u32,
    pub waiting: bool,
}

// The registers that a command can change.
#[derive(Clone, Copy)]
pub struct Ends {
    pub line_style: u32,
    pub src_xy: u32,
    pub dst_xy: u32,
}

// What a command that is carried out left: those registers and the host blit after it; the tally of the pixels written.
#[derive(Clone, Copy)]
pub struct Act {
    pub ends: Ends,
    pub blit: Blit,
    pub tally: Tally,
}

pub fn no_blit() -> Blit
    ensures { result ≡ no_blit }
{
    Blit {
        waiting: false,
        taken: 0,
        last: 0,
    }
}

// The registers that a command can change, as they are.
#[tactic(auto, unfolding(crate::specs::Deed::with_ends, registers::specs::Regs::put_reg))]
fn ends_of(regs: Regs) -> Ends
    ensures { (p : List ℕ) → with_ends (bank_of regs p) result ≡ bank_of regs p }
{
    Ends {
        line_style: regs.line_style,
        src_xy: regs.src_xy,
        dst_xy: regs.dst_xy,
    }
}

// The registers with those that a command left.
#[tactic(auto, unfolding(crate::specs::Deed::with_ends, registers::specs::Regs::put_reg))]
pub fn with_ends(regs: Regs, e: Ends) -> Regs
    ensures { (p : List ℕ) → bank_of result p ≡ with_ends (bank_of regs p) e }
{
    Regs {
        line_style: e.line_style,
        src_xy: e.src_xy,
        dst_xy: e.dst_xy,
        ..regs
    }
}

#[tactic(auto, unfolding(crate::specs::Deed::rect_ended, crate::specs::Deed::with_ends, bank::specs::Bank::stored, registers::specs::Regs::put_reg))]
fn end_rect(regs: Regs) -> Ends
    ensures { (p : List ℕ) → with_ends (bank_of regs p) result ≡ rect_ended (bank_of regs p) }
{
    let c = regs.command;
    let xy = positions::step_xy(
        regs.dst_xy,
        regs.dst_size,
        c / 0x400 % 2 == 1,
        c / 0x800 % 2 == 1,
    );
    Ends {
        line_style: regs.line_style,
        src_xy: regs.src_xy,
        dst_xy: registers::kept_bits(0x6c, xy),
    }
}

#[tactic(auto, unfolding(crate::specs::Deed::line_ended, crate::specs::Deed::with_ends, bank::specs::Bank::stored, registers::specs::Regs::put_reg))]
fn end_line(regs: Regs, style: u32) -> Ends
    ensures { (p : List ℕ) → with_ends (bank_of regs p) result ≡ line_ended (bank_of regs p) style }
{
    Ends {
        line_style: registers::kept_bits(0x40, style),
        src_xy: registers::kept_bits(0x5c, regs.dst_xy),
        dst_xy: regs.dst_xy,
    }
}

// A command that paints nothing.
fn unpainted(ends: Ends, blit: Blit) -> Act
    ensures { result ≡ record { ends = ends; blit = blit; tally = tally 0 0 } }
{
    Act {
        ends,
        blit,
        tally: Tally {
            count: 0,
            changed: 0,
        },
    }
}

// Registers, pattern, blit, memory and rooms one by one, here and below: `carry`, `start` and `launch` are given them so.
#[tactic(auto, using(crate::proofs::Laws::verdicts), unfolding(command::specs::Decode::fill_task, command::specs::Decode::ink_of))]
fn fill(
    regs: Regs,
    pattern: &[u8; 256],
    blit: Blit,
    mem: &mut [u8],
    rooms: Rooms,
) -> Result<Act, Fault>
    ensures { deed (bank_of regs pattern.now) blit result mem.new ≡ judged (filling (bank_of regs pattern.now) blit mem.old) (bank_of regs pattern.now) blit mem.old }
{
    table::fill_verdict(mem.len(), regs, rooms)?;
    let c = cuts::fill_cut(regs);
    let task = command::fill_task(regs);
    let tally = rect::fill_rect(mem, task, *pattern, c.w, c.h);
    Ok(Act {
        ends: end_rect(regs),
        blit,
        tally,
    })
}

#[tactic(auto, using(crate::proofs::Laws::verdicts), unfolding(command::specs::Decode::copy_task, command::specs::Decode::ink_of))]
fn copy(
    regs: Regs,
    pattern: &[u8; 256],
    blit: Blit,
    mem: &mut [u8],
    rooms: Rooms,
) -> Result<Act, Fault>
    ensures { deed (bank_of regs pattern.now) blit result mem.new ≡ judged (copying (bank_of regs pattern.now) blit mem.old) (bank_of regs pattern.now) blit mem.old }
{
    table::copy_verdict(mem.len(), regs, rooms)?;
    let c = cuts::copy_cut(regs);
    let task = command::copy_task(regs);
    let to_left = cuts::from_right(regs);
    let to_top = cuts::from_bottom(regs);
    let tally = rect::copy_rect(mem, task, *pattern, c.w, c.h, to_left, to_top);
    Ok(Act {
        ends: end_rect(regs),
        blit,
        tally,
    })
}

#[tactic(auto, using(crate::proofs::Laws::verdicts), unfolding(command::specs::Decode::stretch_of, command::specs::Decode::ink_of))]
fn stretch(
    regs: Regs,
    pattern: &[u8; 256],
    blit: Blit,
    mem: &mut [u8],
    rooms: Rooms,
) -> Result<Act, Fault>
    ensures { deed (bank_of regs pattern.now) blit result mem.new ≡ judged (stretching (bank_of regs pattern.now) blit mem.old) (bank_of regs pattern.now) blit mem.old }
{
    table::stretch_verdict(mem.len(), regs, rooms)?;
    let c = cuts::fill_cut(regs);
    let t = command::decode_stretch(regs);
    let tally = stretch::paint_stretch(mem, t, *pattern, c.x, c.y, c.w, c.h);
    Ok(Act {
        ends: end_rect(regs),
        blit,
        tally,
    })
}

#[tactic(auto, using(crate::proofs::Laws::verdicts), unfolding(command::specs::Decode::ink_of))]
fn draw(regs: Regs, pattern: &[u8; 256], blit: Blit, mem: &mut [u8]) -> Result<Act, Fault>
    ensures { deed (bank_of regs pattern.now) blit result mem.new ≡ judged (lining (bank_of regs pattern.now) blit mem.old) (bank_of regs pattern.now) blit mem.old }
{
    table::line_verdict(mem.len(), regs)?;
    let ink = command::decode_ink(regs);
    let clip = cuts::decode_clip(regs);
    let l = command::decode_line(regs);
    let pen = command::decode_pen(regs);
    let drawn = strokes::paint_line(mem, ink, pattern, clip, l, pen, regs.line_style);
    Ok(Act {
        ends: end_line(regs, drawn.style),
        blit,
        tally: drawn.tally,
    })
}

// Opens the host blit that the registers hold.
#[tactic(auto, using(crate::proofs::Laws::openings))]
fn begin(regs: Regs, blit: Blit, mem: &[u8], rooms: Rooms) -> Result<Act, Fault>
    ensures { (p : List ℕ) → deed (bank_of regs p) blit result mem.now ≡ judged (opening (bank_of regs p) mem.now) (bank_of regs p) blit mem.now }
{
    table::host_verdict(mem.len(), regs, rooms)?;
    let feed = command::decode_feed(regs);
    if 0 < host::words_needed(feed) {
        let opened = Blit {
            waiting: true,
            ..no_blit()
        };
        return Ok(unpainted(ends_of(regs), opened));
    }
    Ok(unpainted(end_rect(regs), no_blit()))
}

// The pixels that a word of data finishes; the tally of those written. Apart from `paint_words`: `plain` and `host` have a function for each.
fn paint_word(regs: Regs, pattern: [u8; 256], blit: Blit, mem: &mut [u8], word: u32) -> Tally
    requires { Feeds (bank_of regs pattern) blit (length mem.old) 1 }
    ensures { tallied mem.new result ≡ painted_by (bank_of regs pattern) (touched_by_word (bank_of regs pattern) blit word) mem.old }
{
    let feed = command::decode_feed(regs);
    let clip = cuts::decode_clip(regs);
    let none = Tally {
        count: 0,
        changed: 0,
    };
    if command::is_plain(regs) {
        let plain = command::decode_plain(regs);
        return plain::plain_word(mem, plain, clip, feed, blit.taken, blit.last, word, none);
    }
    let ink = command::decode_ink(regs);
    host::host_word(
        mem, ink, pattern, clip, feed, blit.taken, blit.last, word, none,
    )
}

// The pixels that some words of data finish.
fn paint_words(regs: Regs, pattern: &[u8; 256], blit: Blit, mem: &mut [u8], words: &[u32]) -> Tally
    requires { Feeds (bank_of regs pattern.now) blit (length mem.old) (length words.now) }
    ensures { tallied mem.new result ≡ painted_by (bank_of regs pattern.now) (touched_by_words (bank_of regs pattern.now) blit words.now) mem.old }
{
    let feed = command::decode_feed(regs);
    let clip = cuts::decode_clip(regs);
    if command::is_plain(regs) {
        let plain = command::decode_plain(regs);
        return plain::plain_words(mem, plain, clip, feed, blit.taken, blit.last, words);
    }
    let ink = command::decode_ink(regs);
    host::host_words(mem, ink, *pattern, clip, feed, blit.taken, blit.last, words)
}

// A word of data for the host blit that the registers hold, opened or not yet.
#[tactic(auto, using(crate::proofs::Laws::openings))]
fn feed(
    regs: Regs,
    pattern: [u8; 256],
    blit: Blit,
    mem: &mut [u8],
    word: u32,
    rooms: Rooms,
) -> Result<Act, Fault>
    ensures { deed (bank_of regs pattern) blit result mem.new ≡ judged (feeding (bank_of regs pattern) blit mem.old word) (bank_of regs pattern) blit mem.old }
{
    table::host_verdict(mem.len(), regs, rooms)?;
    let feed = command::decode_feed(regs);
    let words = host::words_needed(feed);
    if words <= blit.taken {
        return Ok(unpainted(end_rect(regs), no_blit()));
    }
    let tally = paint_word(regs, pattern, blit, mem, word);
    if blit.taken + 1 < words {
        return Ok(Act {
            ends: ends_of(regs),
            blit: Blit {
                waiting: true,
                taken: blit.taken + 1,
                last: word,
            },
            tally,
        });
    }
    Ok(Act {
        ends: end_rect(regs),
        blit: no_blit(),
        tally,
    })
}

// The command that the registers hold.
#[tactic(auto, using(crate::proofs::Numbers::carries), unfolding(crate::specs::Deed::judged))]
pub fn carry(
    regs: Regs,
    pattern: &[u8; 256],
    blit: Blit,
    mem: &mut [u8],
    rooms: Rooms,
) -> Result<Act, Fault>
    ensures { deed (bank_of regs pattern.now) blit result mem.new ≡ judged (carrying (bank_of regs pattern.now) blit mem.old) (bank_of regs pattern.now) blit mem.old }
{
    match Operation::of(regs) {
        Operation::Nop => Ok(unpainted(ends_of(regs), blit)),
        Operation::Copy => copy(regs, pattern, blit, mem, rooms),
        Operation::Stretch => stretch(regs, pattern, blit, mem, rooms),
        Operation::HostBlit => begin(regs, blit, mem, rooms),
        Operation::Fill => fill(regs, pattern, blit, mem, rooms),
        Operation::Line => draw(regs, pattern, blit, mem),
        Operation::NotBuilt => Err(Fault::NotBuilt),
    }
}

// A launch write's word in the register that the command takes it from.
#[tactic(auto, using(crate::proofs::Numbers::aims), unfolding(bank::specs::Bank::stored, registers::specs::Regs::put_reg))]
fn aim(regs: Regs, word: u32) -> Regs
    ensures { (p : List ℕ) → bank_of result p ≡ aimed (bank_of regs p) word }
{
    match Operation::of(regs) {
        Operation::Copy | Operation::Stretch => Regs {
            src_xy: registers::kept_bits(0x5c, word),
            ..regs
        },
        Operation::Fill | Operation::Line => Regs {
            dst_xy: registers::kept_bits(0x6c, word),
            ..regs
        },
        _ => regs,
    }
}

// The command started with a launch write's word. A host blit takes its words by `feed`. Inline: as calls this function, `table::target_row` and `cuts::copy_cut` make a fill of one pixel take a fifth longer.
#[inline(always)]
pub fn start(
    regs: Regs,
    pattern: &[u8; 256],
    blit: Blit,
    mem: &mut [u8],
    word: u32,
    rooms: Rooms,
) -> Result<Act, Fault>
    ensures { deed (aimed (bank_of regs pattern.now) word) blit result mem.new ≡ judged (carrying (aimed (bank_of regs pattern.now) word) blit mem.old) (aimed (bank_of regs pattern.now) word) blit mem.old }
{
    carry(aim(regs, word), pattern, blit, mem, rooms)
}

// A launch write: data for a host blit, or the command started with its word.
#[tactic(auto, using(crate::proofs::Numbers::launches))]
pub fn launch(
    regs: Regs,
    pattern: [u8; 256],
    blit: Blit,
    mem: &mut [u8],
    word: u32,
    rooms: Rooms,
) -> Result<Act, Fault>
    ensures { deed (aimed (bank_of regs pattern) word) blit result mem.new ≡ judged (starting (bank_of regs pattern) blit mem.old word) (aimed (bank_of regs pattern) word) blit mem.old }
{
    match Operation::of(regs) {
        Operation::HostBlit => feed(regs, pattern, blit, mem, word, rooms),
        _ => {
            // a copy, made past the question for a host blit: words of data need none
            let lent = pattern;
            start(regs, &lent, blit, mem, word, rooms)
        }
    }
}

// What words of data left: the host blit after those that were used; their tally, and how many they are.
#[derive(Clone, Copy)]
pub struct Fed {
    pub blit: Blit,
    pub tally: Tally,
    pub used: usize,
}

// How many of n words are used at once: no more than the blit still needs, and at most 65,536.
fn reach(needs: u32, n: usize) -> usize
    ensures { result ≡ min (min needs (2 ^ 16)) n }
{
    (needs.min(0x1_0000) as usize).min(n)
}

#[tactic(auto, using(host::proofs::Runs::last_none, host::proofs::Runs::last_some))]
fn last_of(last: u32, words: &[u32]) -> u32
    ensures { result ≡ last_of last words.now }
{
    match words.last() {
        Some(w) => *w,
        None => last,
    }
}

// The host blit after some of its words: it waits for more, or it has ended.
#[tactic(auto, unfolding(crate::specs::Fed::blit_after))]
fn blit_after(blit: Blit, words: &[u32], needed: u32) -> Blit
    requires { blit.taken + length words.now ≤ needed }
    ensures { result ≡ blit_after blit words.now needed }
{
    let taken = blit.taken + words.len() as u32;
    if taken < needed {
        return Blit {
            waiting: true,
            taken,
            last: last_of(blit.last, words),
        };
    }
    no_blit()
}

// Words of data for the host blit that the registers hold, opened or not yet: those up to its end, with one verdict for all of them. A blit that needs no
// words uses up one.
#[tactic(auto, using(crate::proofs::Feeding::feedings))]
pub fn feed_run(
    bank: Bank,
    blit: Blit,
    mem: &mut [u8],
    words: &[u32],
    rooms: Rooms,
) -> Result<Fed, Fault>
    ensures { fed blit result mem.new ≡ feeding_run bank blit mem.old words.now }
{
    let regs = bank.regs;
    table::host_verdict(mem.len(), regs, rooms)?;
    let feed = command::decode_feed(regs);
    let needed = host::words_needed(feed);
    if needed <= blit.taken {
        return Ok(Fed {
            blit: no_blit(),
            tally: Tally {
                count: 0,
                changed: 0,
            },
            used: 1,
        });
    }
    let n = reach(needed - blit.taken, words.len());
    let part = &words[..n];
    let tally = paint_words(regs, &bank.pattern, blit, mem, part);
    Ok(Fed {
        blit: blit_after(blit, part, needed),
        tally,
        used: n,
    })
}

// The registers once a host blit has had its words: stepped where it waits for no more.
#[tactic(auto, unfolding(crate::specs::Fed::feed_ended))]
pub fn end_feed(bank: Bank, blit: Blit) -> Bank
    ensures { result ≡ feed_ended bank blit }
{
    if blit.waiting {
        return bank;
    }
    Bank {
        regs: with_ends(bank.regs, end_rect(bank.regs)),
        ..bank
    }
}
