// A level over those below it, as a search over midpoints reads them.
ghost use Rattle.std.specs.Prelude.{◌≡◌, ℕ, ◌<◌, get_or};
ghost use Rattle.twins.specs.Standing.{Ready};
ghost use Rattle.twins.specs.Skips.{Laid};
ghost use Rattle.twins.specs.Props.{Ready-prop};

use super::steps::Steps;

// Functions that write the area take the four apart: while a struct holds the area, nothing is written to it.

// Level i of n items: the levels below it are right, and what the search passes over is laid out in the area.
#[derive(Clone, Copy)]
pub struct Over<'a> {
    pub n: usize,
    pub i: usize,
    pub levels: &'a [u32],
    pub area: &'a [u8],
    pub ghost ready: { Ready n i levels.now area.now } by { Ready-prop _ _ _ _ },
    pub ghost laid: { Laid n i levels.now area.now },
    pub ghost bytes: { (q : ℕ) → get_or area.now q 0 < 256 },
}

impl<'a> Over<'a> {
    // The marks in its area.
    pub fn steps(self) -> Steps<'a>
        ensures { (result.n ≡ self.entry.n) × (result.area ≡ self.entry.area) }
    {
        Steps {
            n: self.n,
            area: self.area,
        }
    }
}
