// The marks of the 4,096 pages of memory as bits in lent bytes: 512 bytes from `at` on, low bit first (specs/Bits.antt).
#![tactic(auto)]

ghost use Rattle.std.specs.Prelude.{◌≡◌, ◌+◌, ◌-◌, ◌/◌, ◌%◌, ◌^◌, ◌<◌, ◌≤◌, length, get_or};
ghost use Rattle.pages.specs.Pages.{first_marked, count_marked};
ghost use Rattle.bitmap.specs.Bits.{bits_in, with_bit, with_bits, with_marks, cleared};

// Bit k and those above it in its byte.
fn rest_of(s: &[u8], at: usize, k: usize) -> u32
    requires { (at + 512 ≤ length s.now) × (k < 4096) }
    ensures { result ≡ get_or s.now (at + k / 8) 0 / 2 ^ (k % 8) }
{
    s[at + k / 8] as u32 >> (k % 8) as u32
}

fn set_bit(s: &mut [u8], at: usize, k: usize)
    requires { (at + 512 ≤ length s.old) × (k < 4096) }
    ensures { s.new ≡ with_bit s.old at k }
{
    let i = at + k / 8;
    let j = (k % 8) as u32;
    let byte = s[i] as u32;
    if (byte >> j) % 2 == 0 {
        s[i] = (byte + (1u32 << j)) as u8;
    }
}

// The bits of the pages from first up to, and without, past are set. A place beside the bytes, here and below: the bits lie in a state that C lends, behind other bytes.
pub fn set_bits(s: &mut [u8], at: usize, first: usize, past: usize)
    requires { (at + 512 ≤ length s.old) × (past ≤ 4096) }
    ensures { s.new ≡ with_bits s.old at first (past - first) }
{
    for k in first..past {
        set_bit(s, at, k);
    }
}

// Of these pages, the bits of those that are marked are set.
pub fn add_marks(s: &mut [u8], at: usize, marks: &[bool; 4096], first: usize, past: usize)
    requires { (at + 512 ≤ length s.old) × (past ≤ 4096) }
    ensures { s.new ≡ with_marks s.old at marks.now first (past - first) }
{
    for k in first..past {
        if marks[k] {
            set_bit(s, at, k);
        }
    }
}

pub fn clear_bits(s: &mut [u8], at: usize)
    requires { at + 512 ≤ length s.old }
    ensures { s.new ≡ cleared s.old at 512 }
{
    for i in at..at + 512 {
        s[i] = 0;
    }
}

// The first page at or after a number whose bit is set. Where no more bits of a byte are, the search goes on at the next byte.
pub fn first_bit(s: &[u8], at: usize, page: u32) -> Option<u32>
    requires { at + 512 ≤ length s.now }
    ensures { result ≡ first_marked (bits_in s.now at) page }
{
    let mut k = page as usize;
    // while: eight pages at a time where no bit of their byte is set
    while k < 4096 {
        let rest = rest_of(s, at, k);
        if rest % 2 == 1 {
            return Some(k as u32);
        }
        if rest == 0 {
            k = k / 8 * 8 + 8;
        } else {
            k += 1;
        }
    }
    None
}

// How many bits are set.
pub fn count_bits(s: &[u8], at: usize) -> u32
    requires { at + 512 ≤ length s.now }
    ensures { result ≡ count_marked (bits_in s.now at) }
{
    let mut n: u32 = 0;
    let mut k: usize = 0;
    // while: as in `first_bit`
    while k < 4096 {
        let rest = rest_of(s, at, k);
        if rest == 0 {
            k = k / 8 * 8 + 8;
        } else {
            n += rest % 2;
            k += 1;
        }
    }
    n
}
