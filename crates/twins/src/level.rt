// The numbers of one level.
ghost use Rattle.std.specs.Prelude.{◌≡◌, ◌*◌, length};
ghost use Rattle.rules.specs.Levels.{number_at, level_of};
ghost use Rattle.twins.specs.Standing.{Pair, Stands};

// A number for each pair of n items.
#[derive(Clone, Copy)]
pub struct Level<'a> {
    pub n: usize,
    pub numbers: &'a [u32],
    pub ghost whole: { length numbers.now ≡ n * n },
}

impl<'a> Level<'a> {
    // Level i among the levels.
    pub fn of(n: usize, levels: &'a [u32], i: usize) -> Level<'a>
        requires { Stands n levels.now i }
        ensures { (result.n ≡ n) × (result.numbers.now ≡ level_of n levels.now i) }
    {
        let from = (i - 1) * (n * n);
        let to = i * (n * n);
        Level {
            n,
            numbers: &levels[from..to],
        }
    }

    // The number of the pair (v,u).
    #[tactic(auto, using(rules::proofs::Laws::Places::place_lt))]
    pub fn number_at(self, v: usize, u: usize) -> u32
        requires { Pair self.n v u }
        ensures { result ≡ number_at self.entry.n self.entry.numbers.now v u }
    {
        self.numbers[v * self.n + u]
    }
}
