// A stretch copy: which source pixel each target pixel takes, worked out at once or by a running remainder.
#![tactic(auto)]

ghost use Rattle.std.specs.Prelude.{◌≡◌, ◌^◌, ◌<◌};
ghost use Rattle.scale.specs.Scale.{scaled, walk_at, next_of};
ghost use Rattle.scale.specs.Asked.{OnScale, Steps};

use ink::Ink;
use surface::Surface;

// One axis: where the target and the source begin, counted from 16384, and how many pixels each has.
#[derive(Clone, Copy)]
pub struct Scale {
    pub to: u32,
    pub size: u32,
    pub from: u32,
    pub source_size: u32,
}

// A stretch: the ink, the surface it takes from, and its columns and rows.
#[derive(Clone, Copy)]
pub struct Stretch {
    pub ink: Ink,
    pub from: Surface,
    pub columns: Scale,
    pub rows: Scale,
}

// A walk along an axis: the source place now, what its division leaves, and what a step adds to the two.
#[derive(Clone, Copy)]
pub struct Walk {
    pub at: u32,
    pub rest: u32,
    pub whole: u32,
    pub over: u32,
    pub size: u32,
}

// The source place that a target place takes.
#[tactic(auto, using(crate::proofs::ScaleLaws::product, crate::proofs::ScaleLaws::scaled_small), unfolding(crate::specs::Scale::scaled))]
pub fn place_of(s: Scale, place: u32) -> u32
    requires { OnScale s place }
    ensures { (result ≡ scaled s place) × (result < 2 ^ 15) }
{
    s.from + (place - s.to) * s.source_size / s.size
}

// A walk that begins at a target place.
#[tactic(auto, using(crate::proofs::ScaleLaws::product), unfolding(crate::specs::Scale::walk_at))]
pub fn start(s: Scale, place: u32) -> Walk
    requires { OnScale s place }
    ensures { result ≡ walk_at s place }
{
    Walk {
        at: place_of(s, place),
        rest: (place - s.to) * s.source_size % s.size,
        whole: s.source_size / s.size,
        over: s.source_size % s.size,
        size: s.size,
    }
}

// The walk at the next place: nothing is divided.
#[tactic(auto, unfolding(crate::specs::Scale::next_of))]
pub fn next(w: Walk) -> Walk
    requires { Steps w }
    ensures { result ≡ next_of w }
{
    let rest = w.rest + w.over;
    if rest < w.size {
        return Walk {
            at: w.at + w.whole,
            rest,
            ..w
        };
    }
    Walk {
        at: w.at + w.whole + 1,
        rest: rest - w.size,
        ..w
    }
}
