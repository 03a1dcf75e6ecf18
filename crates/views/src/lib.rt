// The view of some pixels of a row.
#![tactic(auto)]

ghost use Rattle.std.specs.Prelude.{◌≡◌, ◌+◌, ◌-◌, ◌<◌, length};
ghost use Rattle.views.specs.View.{view_answer, view_start, viewed, further};

// The answer to a view of some pixels of a row: 0, or the number of the refusal, as the C interface gives it to its caller.
#[tactic(auto, using(crate::proofs::ViewLaws::row_on), unfolding(crate::specs::View::view_answer))]
pub fn view_answer(len: usize, base: u32, format: u32, x: u32, y: u32, width: u32) -> u32
    ensures { result ≡ view_answer len base format x y width }
{
    if 0x100_0000 < len {
        return 1;
    }
    if !formats::names_view(base, format) {
        return 5;
    }
    if width == 0 {
        return 7;
    }
    let s = formats::target_of(base, format);
    if spans::rect_on(len, s, x, y, width, 1) {
        0
    } else {
        7
    }
}

// The bytes of some pixels of a row, as a part of the lent memory itself; none where the view is refused.
pub fn row_view(mem: &[u8], base: u32, format: u32, x: u32, y: u32, width: u32) -> &[u8]
    ensures { (result.now ≡ viewed mem.now base format x y width) × (result.ref_ptr ≡ further mem.entry.ref_ptr (view_start (length mem.now) base format x y width)) }
{
    if view_answer(mem.len(), base, format, x, y, width) != 0 {
        return &mem[..0];
    }
    let s = formats::target_of(base, format);
    let start = surface::byte_of(s, x, y, 0);
    let end = start + width as usize * s.bytes as usize;
    &mem[start..end]
}
