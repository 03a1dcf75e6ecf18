// Widening, and the conversion of a pixel's value from one format to another. A format is its bytes per pixel, 0 is mono.
#![tactic(auto)]

ghost use Rattle.std.specs.Prelude.{◌≡◌, ◌<◌, ◌%◌, eqb};
ghost use Rattle.colour.specs.Convert.{repeated, widened, narrowed, lessened, converted, deep, allowed};

// Five bits to eight.
const WIDEN5: [u8; 32] = [
    0, 8, 16, 24, 33, 41, 49, 57, 66, 74, 82, 90, 99, 107, 115, 123, 132, 140, 148, 156, 165, 173,
    181, 189, 198, 206, 214, 222, 231, 239, 247, 255,
];

// Six bits to eight.
const WIDEN6: [u8; 64] = [
    0, 4, 8, 12, 16, 20, 24, 28, 32, 36, 40, 44, 48, 52, 56, 60, 65, 69, 73, 77, 81, 85, 89, 93,
    97, 101, 105, 109, 113, 117, 121, 125, 130, 134, 138, 142, 146, 150, 154, 158, 162, 166, 170,
    174, 178, 182, 186, 190, 195, 199, 203, 207, 211, 215, 219, 223, 227, 231, 235, 239, 243, 247,
    251, 255,
];

// The low five or six bits of a number, widened to eight.
trait Widening {
    fn five(n: u32) -> u32
        ensures { result ≡ repeated 5 (n % 32) };

    fn six(n: u32) -> u32
        ensures { result ≡ repeated 6 (n % 64) };
}

// By the tables.
struct ByTable;

impl Widening for ByTable {
    fn five(n: u32) -> u32 {
        u32::from(WIDEN5[(n % 32) as usize])
    }

    fn six(n: u32) -> u32 {
        u32::from(WIDEN6[(n % 64) as usize])
    }
}

// By the rule of the tables: a table is put on the stack at each call, which takes longer than the rule.
struct ByRule;

impl Widening for ByRule {
    fn five(n: u32) -> u32 {
        let bits = n % 32;
        bits * 8 + bits / 4
    }

    fn six(n: u32) -> u32 {
        let bits = n % 64;
        bits * 4 + bits / 16
    }
}

// A pixel of 2 bytes as one of 3.
fn widen<W: Widening>(v: u32) -> u32
    ensures { result ≡ widened v }
{
    W::five(v / 2048) * 65536 + W::six(v / 32) * 256 + W::five(v)
}

// A pixel of 3 or 4 bytes as one of 2.
fn narrow(v: u32) -> u32
    ensures { result ≡ narrowed v }
{
    v / 65536 % 256 / 8 * 2048 + v / 256 % 256 / 4 * 32 + v % 256 / 8
}

fn is_sixteen(format: u32) -> bool
    ensures { result ≡ eqb format 2 }
{
    format == 2
}

// A pixel of 3 or 4 bytes in another format, without the top byte of 4.
fn lessen(to: u32, v: u32) -> u32
    ensures { result ≡ lessened to v }
{
    if is_sixteen(to) {
        return narrow(v);
    }
    v % 16777216
}

// A pixel's value in another format.
#[tactic(auto, unfolding(crate::specs::Convert::converted))]
fn convert_with<W: Widening>(from: u32, to: u32, v: u32) -> u32
    ensures { result ≡ converted from to v }
{
    if from == to {
        return v;
    }
    if is_sixteen(from) {
        return widen::<W>(v);
    }
    lessen(to, v)
}

// The same by the tables.
pub fn convert(from: u32, to: u32, v: u32) -> u32
    ensures { result ≡ converted from to v }
{
    convert_with::<ByTable>(from, to, v)
}

// The same by the rule of the tables.
pub fn convert_by_rule(from: u32, to: u32, v: u32) -> u32
    ensures { result ≡ converted from to v }
{
    convert_with::<ByRule>(from, to, v)
}

fn is_deep(format: u32) -> bool
    ensures { result ≡ deep format }
{
    (2 <= format) & (format <= 4)
}

// Whether pixels of one format may be put where another is kept.
#[tactic(auto, unfolding(crate::specs::Convert::allowed))]
pub fn may_convert(from: u32, to: u32) -> bool
    ensures { result ≡ allowed from to }
{
    if from == 0 {
        return (1 <= to) & (to <= 4);
    }
    if from == 1 {
        return to == 1;
    }
    is_deep(from) & is_deep(to)
}
