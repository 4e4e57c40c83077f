// A number that alike positions share, from the hashes of their midpoints: any hash would serve.
ghost use Rattle.std.specs.Prelude.{◌≡◌, List, ℕ, ◌+◌, ◌*◌, ◌/◌, ◌%◌, ◌<◌, length};
ghost use Rattle.twins.specs.Chains.{mix_of, Raised, Mosts, most_of};
ghost use Rattle.twins.specs.Halves.{Midpoints};

// The largest hashes so far, by four turns.
#[derive(Clone, Copy)]
pub struct Most {
    pub none: u64,
    pub quarter: u64,
    pub half: u64,
    pub most: u64,
}

// A hash of a midpoint's number.
fn mix(x: u64) -> u64
    ensures { (result ≡ mix_of x) × (result < 4294967296) }
{
    (x / 4294967296 * 2654435761 % 4294967296 + x % 4294967296 * 2246822519 % 4294967296)
        % 4294967296
}

// A hash turned by k.
fn turn(y: u64, k: u64) -> u64
    requires { (y < 4294967296) × (k < 4294967296) }
    ensures { (result ≡ (y + k) % 4294967296) × (result < 4294967296) }
{
    (y + k) % 4294967296
}

impl Most {
    // The largest hashes, with those of one midpoint more.
    fn raised(self, x: u64) -> Most
        ensures { Raised x self.none self.quarter self.half self.most result.none result.quarter result.half result.most }
    {
        let y = mix(x);
        Most {
            none: self.none.max(turn(y, 0)),
            quarter: self.quarter.max(turn(y, 1073741824)),
            half: self.half.max(turn(y, 2147483648)),
            most: self.most.max(turn(y, 3221225472)),
        }
    }

    // The largest hashes of a list.
    fn of(list: &[u64]) -> Most
        ensures { Mosts list.now (length list.now) result.none result.quarter result.half result.most }
    {
        let mut most = Most {
            none: 0,
            quarter: 0,
            half: 0,
            most: 0,
        };
        for x in list {
            most = most.raised(*x);
        }
        most
    }
}

// The largest hashes of a list of midpoints, together.
pub fn most_at(list: &[u64]) -> u64
    ensures { ((n i p : ℕ) → (levels : List ℕ) → Midpoints n i levels (p / n) (p % n) (length list.now) list.now → result ≡ most_of n i levels p) × (result < 17179869184) }
{
    let m = Most::of(list);
    m.none + m.quarter + m.half + m.most
}
