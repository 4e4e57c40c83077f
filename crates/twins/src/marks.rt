// Step marks from the edge table.
ghost use Rattle.std.specs.Prelude.{◌≡◌, ◌*◌, drop};
ghost use Rattle.rules.specs.Writing.{fill};
ghost use Rattle.twins.specs.Marks.{Marked};
ghost use Rattle.twins.specs.Standing.{Marks, EdgesFit, Cleared};

use packing::bits::one_bit;

// The marks of n items are zero.
fn clear_marks(n: usize, area: &mut [u8])
    requires { Marks n area.old }
    ensures { area.new ≡ fill area.old 0 (n * n) (λ _. 0) }
{
    area[..n * n].fill(0);
}

// For each pair the labels that lead from its first item to its second.
fn add_marks(n: usize, edges: &[u32], area: &mut [u8])
    requires { (EdgesFit n 8 edges.now) × (Cleared n area.old) }
    ensures { (Marked n edges.now area.new) × (drop (n * n) area.new ≡ drop (n * n) area.old) }
{
    let count = edges.len() / 3;
    for e in 0..count {
        let v = edges[3 * e] as usize;
        let u = edges[3 * e + 1] as usize;
        let b = one_bit(edges[3 * e + 2] as usize);
        let p = v * n + u;
        area[p] |= b;
    }
}

// The marks of the edge table, whatever stood in the area.
pub fn mark_edges(n: usize, edges: &[u32], area: &mut [u8])
    requires { (EdgesFit n 8 edges.now) × (Marks n area.old) }
    ensures { (Marked n edges.now area.new) × (drop (n * n) area.new ≡ drop (n * n) area.old) }
{
    clear_marks(n, area);
    add_marks(n, edges, area);
}
