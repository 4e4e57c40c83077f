// What the step marks say of pairs.
ghost use Rattle.std.specs.Prelude.{◌≡◌, ℕ, ◌+◌, ◌*◌, ◌/◌, ◌%◌, ◌<◌, ◌≤◌, length, get_or};
ghost use Rattle.rules.specs.Graph.{connected};
ghost use Rattle.rules.specs.Levels.{same_steps};
ghost use Rattle.twins.specs.Marks.{marked_graph};
ghost use Rattle.twins.specs.Standing.{Pair};

// The two items of a pair.
#[derive(Clone, Copy)]
pub struct Ends {
    pub v: usize,
    pub u: usize,
}

impl Ends {
    // Those of the pair at position p.
    pub fn at(n: usize, p: usize) -> Ends
        requires { p < n * n }
        ensures { (result.v ≡ p / n) × (result.u ≡ p % n) }
    {
        Ends { v: p / n, u: p % n }
    }
}

// The step marks of n items, at the front of the area.
#[derive(Clone, Copy)]
pub struct Steps<'a> {
    pub n: usize,
    pub area: &'a [u8],
    pub ghost room: { n * n ≤ length area.now },
    pub ghost bytes: { (q : ℕ) → get_or area.now q 0 < 256 },
}

impl<'a> Steps<'a> {
    // The mark of the pair (v,u).
    pub fn mark_at(self, v: usize, u: usize) -> u8
        requires { Pair self.n v u }
        ensures { (result ≡ get_or self.entry.area.now (v * self.entry.n + u) 0) × (result < 256) }
    {
        self.area[v * self.n + u]
    }

    // The same step symbols lead from one item to the other in both pairs.
    pub fn same_steps(self, a: Ends, b: Ends) -> bool
        requires { (Pair self.n a.v a.u) × (Pair self.n b.v b.u) }
        ensures { result ≡ same_steps (marked_graph self.entry.n self.entry.area.now) a.v a.u b.v b.u }
    {
        if self.mark_at(a.v, a.u) != self.mark_at(b.v, b.u) {
            return false;
        }
        self.mark_at(a.u, a.v) == self.mark_at(b.u, b.v)
    }

    // v is u, or some step leads from v to u.
    pub fn next_to(self, v: usize, u: usize) -> bool
        requires { Pair self.n v u }
        ensures { result ≡ connected (marked_graph self.entry.n self.entry.area.now) 1 v u }
    {
        if v == u {
            return true;
        }
        if self.mark_at(v, u) != 0 {
            return true;
        }
        self.mark_at(u, v) != 0
    }
}
