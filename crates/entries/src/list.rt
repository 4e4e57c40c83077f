// A list of entries as it grows: counted, written where there is room, and compared with a stored list, in one go.

ghost use Rattle.std.specs.Prelude.{◌≡◌, List, [], ◌∷◌, ◌++◌, ℕ, true, ◌+◌, ◌*◌, ◌<◌, length};
ghost use Rattle.rules.specs.Accept.{difference};
ghost use Rattle.entries.specs.Entries.{Went};
ghost use Rattle.entries.specs.Lent.{Same};

// How far the entries have come: how many there are, and the first number at which they differ from the stored list.
#[derive(Clone, Copy)]
pub struct Progress {
    pub count: usize,
    pub met: usize,
}

// The stored list, the list to write to, and how far the entries have come.
#[derive(Drop)]
pub struct EntryList<'a> {
    pub stored: &'a [u32],
    pub out: &'a mut [u32],
    pub past: Progress,
}

// The first difference of a list from the stored one when an entry is put behind its k entries; m is that before.
fn meet(stored: &[u32], m: usize, k: usize, code: u32, class: u32) -> usize
    requires { k < 1152921504606846976 }
    ensures { (before : List ℕ) → length before ≡ 2 * k → m ≡ difference before stored.now → result ≡ difference (before ++ (code ∷ (class ∷ []))) stored.now }
{
    let i = 2 * k;
    if m != i {
        return m;
    }
    if i >= stored.len() {
        return i;
    }
    if stored[i] != code {
        return i;
    }
    if i + 1 >= stored.len() {
        return i + 1;
    }
    if stored[i + 1] != class {
        return i + 1;
    }
    i + 2
}

impl<'a> EntryList<'a> {
    // Says that there is nothing to compare with and nothing to write to.
    pub(crate) fn only_counts(&self) -> bool
        ensures { result ≡ true → length self.now.stored.now + length self.now.out.now ≡ 0 }
    {
        self.stored.is_empty() && self.out.is_empty()
    }

    // One entry more.
    pub(crate) fn put(&mut self, code: u32, class: u32)
        requires { self.old.past.count < 1152921504606846976 }
        ensures { (self.new.past.count ≡ self.old.past.count + 1) × (Went self.old.past.count self.old.past.met self.new.past.count self.new.past.met (code ∷ (class ∷ [])) self.old.stored.now self.old.out.now self.new.out.now) × (Same self.old self.new) }
    {
        let k = self.past.count;
        let met = meet(self.stored, self.past.met, k, code, class);
        self.past = Progress { count: k + 1, met };
        let i = 2 * k;
        if i + 1 >= self.out.len() {
            return;
        }
        self.out[i] = code;
        self.out[i + 1] = class;
    }
}
