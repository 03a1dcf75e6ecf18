// The pages of the pixels that a command has written, marked after it.
#![tactic(auto)]

ghost use Rattle.std.specs.Prelude.{◌≡◌, false, ◌*◌, length};
ghost use Rattle.cuts.specs.Cut.{number, clip_of, fill_cut, covered};
ghost use Rattle.command.specs.Decode.{target, line_of, feed_of};
ghost use Rattle.pages.specs.Pages.{marking};
ghost use Rattle.sift.specs.Sift.{chosen, wet};
ghost use Rattle.sift.specs.Asked.{Siftable};
ghost use Rattle.dots.specs.Dots.{line_box};
ghost use Rattle.drips.specs.Drips.{data_box};
ghost use Rattle.acts.specs.Deed.{bank_of};
ghost use Rattle.trail.specs.Trail.{wet_by, box_by, extent_by, no_scale, sieve_of};
ghost use Rattle.trail.specs.Asked.{Gone, Went};

use acts::Blit;
use cuts::Cut;
use pages::Extent;
use registers::Regs;
use scale::Scale;
use sift::Sieve;
use sweep::Task;

// The work of a rectangle that is not stretched.
fn plainly(task: Task) -> Sieve
    ensures { result ≡ record { task = task; stretched = false; columns = no_scale; rows = no_scale } }
{
    let none = Scale {
        to: 0,
        size: 0,
        from: 0,
        source_size: 0,
    };
    Sieve {
        task,
        stretched: false,
        columns: none,
        rows: none,
    }
}

// The work of a copy, a stretch or a fill, pixel by pixel.
fn sieve_of(r: Regs) -> Sieve
    ensures { result ≡ sieve_of r }
{
    match r.command % 16 {
        1 => plainly(command::copy_task(r)),
        2 => {
            let t = command::decode_stretch(r);
            let task = Task {
                ink: t.ink,
                copies: true,
                from: t.from,
                sx: 0,
                sy: 0,
                x: 0,
                y: 0,
            };
            Sieve {
                task,
                stretched: true,
                columns: t.columns,
                rows: t.rows,
            }
        }
        _ => plainly(command::fill_task(r)),
    }
}

// The pages of the pixels of a cut that are written, where they are `count`: all of them by rows, any other one by one.
fn mark_some(
    marks: &mut [bool; 4096],
    v: Sieve,
    pattern: &[u8; 256],
    mem: &[u8],
    c: Cut,
    count: u32,
)
    requires { Siftable v c.x c.y c.w c.h (length mem.now) × (count ≡ c.w * c.h → chosen (wet v pattern.now mem.now) (covered c) ≡ covered c) }
    ensures { marks.new ≡ marking v.task.ink.target (chosen (wet v pattern.now mem.now) (covered c)) marks.old }
{
    let s = v.task.ink.target;
    if count == c.w * c.h {
        pages::mark_rect(marks, s, c.x, c.y, c.w, c.h);
        return;
    }
    sift::sift_rows(marks, mem, v, pattern, c.x, c.y, c.w, c.h);
}

// A rectangle that holds what n words of a host blit write; and one that holds what a line does.
fn data_cut(r: Regs, taken: u32, n: u32) -> Cut
    requires { Gone r taken n × (number r ≡ 3) }
    ensures { result ≡ data_box (feed_of r) (fill_cut r) taken n }
{
    drips::data_box(command::decode_feed(r), cuts::fill_cut(r), taken, n)
}

fn line_cut(r: Regs) -> Cut
    ensures { result ≡ line_box (line_of r) (clip_of r) }
{
    dots::line_box(command::decode_line(r), cuts::decode_clip(r))
}

// A rectangle that holds what a command writes.
fn box_of(r: Regs, taken: u32, n: u32) -> Cut
    requires { Gone r taken n }
    ensures { result ≡ box_by r taken n }
{
    match r.command % 16 {
        1 => cuts::copy_cut(r),
        3 => data_cut(r, taken, n),
        6.. => line_cut(r),
        _ => cuts::fill_cut(r),
    }
}

// The pages that a command may have written, where it wrote `count` pixels, and whether all of them are to be marked.
pub fn extent_of(r: Regs, taken: u32, n: u32, count: u32) -> Extent
    requires { Gone r taken n }
    ensures { result ≡ extent_by r taken n count }
{
    let c = box_of(r, taken, n);
    pages::extent_of(command::target_surface(r), c.x, c.y, c.w, c.h, count)
}

// The pages of its pixels, found one by one: of a rectangle that is written whole, by its rows.
pub fn walk(
    marks: &mut [bool; 4096],
    r: Regs,
    pattern: &[u8; 256],
    blit: Blit,
    mem: &[u8],
    words: &[u32],
    count: u32,
)
    requires { Went (bank_of r pattern.now) blit words.now mem.now count }
    ensures { marks.new ≡ marking (target r) (wet_by (bank_of r pattern.now) blit words.now mem.now) marks.old }
{
    match r.command % 16 {
        1 => mark_some(marks, sieve_of(r), pattern, mem, cuts::copy_cut(r), count),
        3 => {
            let ink = command::decode_ink(r);
            let clip = cuts::decode_clip(r);
            let feed = command::decode_feed(r);
            drips::mark_data(marks, ink, clip, feed, blit.taken, blit.last, words);
        }
        6.. => {
            let ink = command::decode_ink(r);
            let clip = cuts::decode_clip(r);
            let line = command::decode_line(r);
            let pen = command::decode_pen(r);
            dots::mark_dots(marks, ink, clip, line, pen, r.line_style);
        }
        _ => mark_some(marks, sieve_of(r), pattern, mem, cuts::fill_cut(r), count),
    }
}

// The pages of the pixels that a command has written are marked.
pub fn mark(
    marks: &mut [bool; 4096],
    r: Regs,
    pattern: &[u8; 256],
    blit: Blit,
    mem: &[u8],
    words: &[u32],
    count: u32,
)
    requires { Went (bank_of r pattern.now) blit words.now mem.now count }
    ensures { marks.new ≡ marking (target r) (wet_by (bank_of r pattern.now) blit words.now mem.now) marks.old }
{
    let e = extent_of(r, blit.taken, words.len() as u32, count);
    if e.whole {
        pages::mark_pages(marks, e.first, e.past);
        return;
    }
    walk(marks, r, pattern, blit, mem, words, count);
}
