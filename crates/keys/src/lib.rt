// Colour keys. A format is its bytes per pixel.
#![tactic(auto)]

ghost use Rattle.std.specs.Prelude.{◌≡◌, ◌&&◌, ◌<◌, ◌%◌, leb};
ghost use Rattle.keys.specs.Key.{chan, channel, key_match};
ghost use Rattle.keys.specs.Range.{range_of, in_range};

// The least and the most of each channel of a key; a format of one channel has the others 0. Six numbers and not three pairs: specs/Range.antt names them so.
#[derive(Clone, Copy)]
pub struct Range {
    pub low0: u32,
    pub high0: u32,
    pub low1: u32,
    pub high1: u32,
    pub low2: u32,
    pub high2: u32,
}

// The channel of v that starts at bit `start` and has so many values: a remainder by a number that is known, so that it is no division.
fn channel_of<const VALUES: u32>(start: u32, v: u32) -> u32
    requires { (start < 32) × (0 < VALUES) }
    ensures { result ≡ channel (chan start VALUES) v }
{
    (v >> start) % VALUES
}

// Both comparisons with no branch between them: it is done at each pixel.
fn is_between(low: u32, x: u32, high: u32) -> bool
    ensures { result ≡ (leb low x && leb x high) }
{
    (low <= x) & (x <= high)
}

// The channels of lo and hi, for pixels of so many bytes.
#[tactic(auto, unfolding(crate::specs::Range::range_of))]
pub fn range_of(bytes: u32, lo: u32, hi: u32) -> Range
    ensures { result ≡ range_of bytes lo hi }
{
    match bytes {
        1 => Range {
            low0: channel_of::<256>(0, lo),
            high0: channel_of::<256>(0, hi),
            low1: 0,
            high1: 0,
            low2: 0,
            high2: 0,
        },
        2 => Range {
            low0: channel_of::<32>(0, lo),
            high0: channel_of::<32>(0, hi),
            low1: channel_of::<64>(5, lo),
            high1: channel_of::<64>(5, hi),
            low2: channel_of::<32>(11, lo),
            high2: channel_of::<32>(11, hi),
        },
        _ => Range {
            low0: channel_of::<256>(0, lo),
            high0: channel_of::<256>(0, hi),
            low1: channel_of::<256>(8, lo),
            high1: channel_of::<256>(8, hi),
            low2: channel_of::<256>(16, lo),
            high2: channel_of::<256>(16, hi),
        },
    }
}

// Whether every channel of v is in its range.
#[tactic(auto, unfolding(crate::specs::Range::in_range))]
pub fn in_range(bytes: u32, r: Range, v: u32) -> bool
    ensures { result ≡ in_range bytes r v }
{
    match bytes {
        1 => is_between(r.low0, channel_of::<256>(0, v), r.high0),
        2 => {
            is_between(r.low0, channel_of::<32>(0, v), r.high0)
                & (is_between(r.low1, channel_of::<64>(5, v), r.high1)
                    & is_between(r.low2, channel_of::<32>(11, v), r.high2))
        }
        _ => {
            is_between(r.low0, channel_of::<256>(0, v), r.high0)
                & (is_between(r.low1, channel_of::<256>(8, v), r.high1)
                    & is_between(r.low2, channel_of::<256>(16, v), r.high2))
        }
    }
}

// Whether every channel of v is between those of lo and hi.
pub fn key_match(bytes: u32, lo: u32, hi: u32, v: u32) -> bool
    ensures { result ≡ key_match bytes lo hi v }
{
    in_range(bytes, range_of(bytes, lo, hi), v)
}
