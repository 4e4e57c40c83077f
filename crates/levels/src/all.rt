// All levels, one over the other: built from the edge table, or checked against it.
ghost use Rattle.twins.specs.Standing.{EdgesFit};
ghost use Rattle.levels.specs.Needs.{Room, Stacked, Judged, LevelsBuilt, LevelsChecked};

use super::over::{level_fault, next_level};
use rules::Refusal;
use twins::marks::mark_edges;

// Levels 1 to k are numbered, where the marks stand. Answers how many classes level k has.
fn number_levels(n: usize, k: usize, levels: &mut [u32], area: &mut [u8]) -> u32
    requires { Room n k levels.old area.old }
    ensures { Stacked n k levels.old area.old result levels.new area.new }
{
    let mut top: u32 = 0;
    for i in 0..k {
        top = next_level(n, i + 1, levels, area, top);
    }
    top
}

// Levels 1 to k are checked, where the marks stand.
fn judge_levels(n: usize, k: usize, levels: &[u32], area: &mut [u8]) -> Result<(), Refusal>
    requires { Room n k levels.now area.old }
    ensures { Judged n k levels.now area.old result area.new }
{
    for i in 0..k {
        if let Some(p) = level_fault(n, i + 1, levels, area) {
            return Err(Refusal::LevelFault((i + 1) as u32, p as u32));
        }
    }
    Ok(())
}

// Writes the levels 1 to k of the edge table. Answers how many classes level k has.
pub fn build_levels(n: usize, k: usize, edges: &[u32], levels: &mut [u32], area: &mut [u8]) -> u32
    requires { (EdgesFit n 8 edges.now) × (Room n k levels.old area.old) }
    ensures { LevelsBuilt n k edges.now levels.old area.old result levels.new area.new }
{
    mark_edges(n, edges, area);
    number_levels(n, k, levels, area)
}

// Checks the levels 1 to k against the edge table: the first faulty level with its first faulty position, or none.
pub fn check_levels(
    n: usize,
    k: usize,
    edges: &[u32],
    levels: &[u32],
    area: &mut [u8],
) -> Result<(), Refusal>
    requires { (EdgesFit n 8 edges.now) × (Room n k levels.now area.old) }
    ensures { LevelsChecked n k edges.now levels.now area.old result area.new }
{
    mark_edges(n, edges, area);
    judge_levels(n, k, levels, area)
}
