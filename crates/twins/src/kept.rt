// The midpoints of a position, kept: they are not looked for again while the same position is asked for.
ghost use Rattle.std.specs.Prelude.{◌≤◌};

use super::halves::midpoints;
use super::over::Over;

#[derive(Drop)]
pub struct Kept {
    pub position: Option<usize>,
    pub many: usize,
    pub list: [u64; 384],
    pub ghost room: { many ≤ 384 },
}

impl Kept {
    ghost use Rattle.std.specs.Prelude.{◌≡◌, ℕ, List, Some, ◌*◌, ◌/◌, ◌%◌, ◌<◌, length};
    ghost use Rattle.twins.specs.Halves.{Midpoints};
    ghost use Rattle.twins.specs.Held.{Held};

    // None yet.
    pub fn new() -> Kept
        ensures { (n i : ℕ) → (levels : List ℕ) → Held n i levels result }
    {
        Kept {
            position: None,
            many: 0,
            list: [0; 384],
        }
    }

    // Those of position p are kept.
    pub fn keep(&mut self, over: Over, p: usize)
        requires { (p < over.n * over.n) × (Held over.n over.i over.levels.now self.old) }
        ensures { (Held over.entry.n over.entry.i over.entry.levels.now self.new) × (self.new.position ≡ Some p) }
    {
        if self.position == Some(p) {
            return;
        }
        self.many = midpoints(over, p, &mut self.list);
        self.position = Some(p);
    }

    // Those that are kept.
    pub fn midpoints(&self) -> &[u64]
        ensures { (n i : ℕ) → (levels : List ℕ) → (p : ℕ) → Held n i levels self.now → self.now.position ≡ Some p → Midpoints n i levels (p / n) (p % n) (length result.now) result.now }
    {
        &self.list[..self.many]
    }
}
