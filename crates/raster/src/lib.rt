// Raster operations, and which of them do not look at the pattern.
#![tactic(auto)]

ghost use Rattle.std.specs.Prelude.{◌≡◌, ◌%◌, ◌<◌};
ghost use Rattle.raster.specs.Rop.{rop_bits, pattern_free};
ghost use Rattle.raster.specs.Masks.{mask, muxed, merged, quad_of, turns, flips, quad_made};

// Bit k of a code at all 32 bits.
#[tactic(auto, unfolding(crate::specs::Masks::mask))]
pub fn spread(code: u32, k: u32) -> u32
    requires { k < 8 }
    ensures { result ≡ mask 32 code k }
{
    (code >> k) % 2 * 0xffff_ffff
}

// By the bits of a pattern's pixel: `high` where it has a 1, `low` where it has a 0.
#[tactic(auto, unfolding(crate::specs::Masks::muxed))]
pub fn lay(low: u32, high: u32, p: u32) -> u32
    ensures { result ≡ muxed p high low }
{
    low ^ (p & (high ^ low))
}

// Of four values, at each bit the one whose number is 2s + d there.
#[tactic(auto, unfolding(crate::specs::Masks::merged))]
pub fn merge(q0: u32, q1: u32, q2: u32, q3: u32, s: u32, d: u32) -> u32
    ensures { result ≡ merged q0 q1 q2 q3 s d }
{
    lay(lay(q0, q1, d), lay(q2, q3, d), s)
}

// The raster operation at all 32 bits: of the bits of the code, by pattern, source and target.
pub fn raster(code: u32, p: u32, s: u32, d: u32) -> u32
    ensures { result ≡ rop_bits 32 code p s d }
{
    let q0 = lay(spread(code, 0), spread(code, 4), p);
    let q1 = lay(spread(code, 1), spread(code, 5), p);
    let q2 = lay(spread(code, 2), spread(code, 6), p);
    let q3 = lay(spread(code, 3), spread(code, 7), p);
    merge(q0, q1, q2, q3, s, d)
}

// What a raster operation makes of a known source, by the bits of pattern and target: `merge` of the four.
#[derive(Clone, Copy)]
pub struct Quad {
    pub q0: u32,
    pub q1: u32,
    pub q2: u32,
    pub q3: u32,
}

#[tactic(auto, unfolding(crate::specs::Masks::quad_of))]
pub fn quad_of(code: u32, s: u32) -> Quad
    ensures { result ≡ quad_of code s }
{
    Quad {
        q0: lay(spread(code, 0), spread(code, 2), s),
        q1: lay(spread(code, 1), spread(code, 3), s),
        q2: lay(spread(code, 4), spread(code, 6), s),
        q3: lay(spread(code, 5), spread(code, 7), s),
    }
}

fn turns(c: u32) -> bool
    ensures { result ≡ turns c }
{
    c % 2 + c / 2 % 2 == 1
}

// Whether it only flips bits of the target, as 5A and 66 do: whatever pattern and source are, the code's bits for target 0 and target 1 differ.
pub fn is_flip(code: u32) -> bool
    ensures { result ≡ flips code }
{
    turns(code) & turns(code / 4) & turns(code / 16) & turns(code / 64)
}

// What it makes of pattern and target; where it only flips, by what it makes of target 0.
pub fn by_quad(q: Quad, flip: bool, p: u32, d: u32) -> u32
    ensures { result ≡ quad_made flip q p d }
{
    if flip {
        return d ^ lay(q.q0, q.q2, p);
    }
    merge(q.q0, q.q1, q.q2, q.q3, p, d)
}

// Whether the code gives the same whatever the pattern is.
pub fn is_pattern_free(code: u32) -> bool
    ensures { result ≡ pattern_free code }
{
    code / 16 % 16 == code % 16
}
