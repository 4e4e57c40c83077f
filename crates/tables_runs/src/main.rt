// The examples P1 to P5, P11 and P12 of document 01 through build and check, and two tables that build does not make: one with finer
// classes, which check accepts, and one with a coarser class, which it refuses. Each list is lent with a number more than it needs, and 7
// stands there before; so does 9 in the area. A result is document 01's number and values.

#![tactic(auto)]

use rules::{Counts, Report};
use std::io::Result;

const EDGES: [u32; 9] = [0, 2, 0, 1, 2, 0, 3, 2, 1];

// How many items there are, and the edges between them, which have two labels.
#[derive(Clone, Copy)]
struct Graph<'a> {
    items: u32,
    edges: &'a [u32],
}

// The tables of an index.
#[derive(Clone, Copy)]
struct Tables<'a> {
    levels: &'a [u32],
    starts: &'a [u32],
    order: &'a [u32],
    entries: &'a [u32],
}

// The first n numbers, or all if there are fewer.
fn front(list: &[u32], n: usize) -> &[u32] {
    list.get(..n).unwrap_or(list)
}

impl<'a> Tables<'a> {
    // The lists without what stands behind the counts that build returned.
    fn cut(self, counts: Counts) -> Tables<'a> {
        Tables {
            starts: front(self.starts, counts.classes as usize + 1),
            order: front(self.order, counts.pairs as usize),
            entries: front(self.entries, 2 * counts.entries as usize),
            ..self
        }
    }
}

fn write_list(rt: &impl Print, name: &str, list: &[u32]) -> Result<()> {
    print!(rt; "{name}")?;
    for x in list {
        print!(rt; " {x}")?;
    }
    print!(rt; "\n")
}

// The bytes of the area that are not 0.
fn write_area(rt: &impl Print, area: &[u8]) -> Result<()> {
    print!(rt; "area")?;
    for byte in area.iter().filter(|byte| **byte != 0) {
        print!(rt; " {byte}")?;
    }
    print!(rt; "\n")
}

fn write_report(rt: &impl Print, name: &str, r: Report) -> Result<()> {
    write_list(rt, name, &[r.number, r.a, r.b, r.c])
}

// What stands in the lists that were lent.
fn write_tables(rt: &impl Print, tables: Tables<'_>) -> Result<()> {
    write_list(rt, "levels", tables.levels)?;
    write_list(rt, "starts", tables.starts)?;
    write_list(rt, "order", tables.order)?;
    write_list(rt, "entries", tables.entries)
}

// What check says of tables.
fn judge(
    rt: &impl Print,
    graph: Graph<'_>,
    k: u32,
    tables: Tables<'_>,
    area: &mut [u8],
) -> Result<()> {
    let Tables {
        levels,
        starts,
        order,
        entries,
    } = tables;
    let checked = index::check(
        graph.items,
        2,
        k,
        graph.edges,
        levels,
        starts,
        order,
        entries,
        area,
    );
    write_report(rt, "checked", reports::report_checked(checked))?;
    write_area(rt, area)
}

// What build says and makes, and what check says of it.
fn run(
    rt: &impl Print,
    graph: Graph<'_>,
    levels: &mut [u32],
    starts: &mut [u32],
    order: &mut [u32],
    entries: &mut [u32],
    area: &mut [u8],
) -> Result<()> {
    let built = index::build(
        graph.items,
        2,
        2,
        graph.edges,
        levels,
        starts,
        order,
        entries,
        area,
    );
    let tables = Tables {
        levels,
        starts,
        order,
        entries,
    };
    write_report(rt, "built", reports::report_built(built))?;
    write_tables(rt, tables)?;
    write_area(rt, area)?;
    match built {
        Ok(counts) => judge(rt, graph, 2, tables.cut(counts), area),
        Err(_) => Ok(()),
    }
}

// The example's edge table, with room for so many entry numbers.
fn example(rt: &impl Print, entries: &mut [u32]) -> Result<()> {
    let graph = Graph {
        items: 4,
        edges: &EDGES,
    };
    run(
        rt,
        graph,
        &mut [7; 33],
        &mut [7; 18],
        &mut [7; 17],
        entries,
        &mut [9; 145],
    )
}

// No items.
fn nothing(rt: &impl Print) -> Result<()> {
    let graph = Graph {
        items: 0,
        edges: &[],
    };
    run(
        rt,
        graph,
        &mut [7],
        &mut [7; 2],
        &mut [7],
        &mut [7],
        &mut [9],
    )
}

// Tables of the example for k = 1 that were not built: they differ in the levels alone.
fn stored(rt: &impl Print, levels: &[u32]) -> Result<()> {
    let graph = Graph {
        items: 4,
        edges: &EDGES,
    };
    let tables = Tables {
        levels,
        starts: &[0, 3, 5, 6, 8, 9, 10],
        order: &[0, 10, 15, 2, 6, 5, 8, 9, 11, 14],
        entries: &[0, 1, 0, 3, 1, 2, 2, 4, 3, 6, 4, 5],
    };
    judge(rt, graph, 1, tables, &mut [9; 145])
}

fn main(rt: HostRuntime) -> Result<()> {
    example(&rt, &mut [7; 29])?;
    example(&rt, &mut [7; 27])?;
    nothing(&rt)?;
    // finer classes
    stored(&rt, &[1, 0, 2, 0, 0, 3, 2, 0, 4, 4, 1, 5, 0, 0, 6, 1])?;
    // a coarser class
    stored(&rt, &[1, 0, 2, 0, 0, 1, 2, 0, 3, 3, 1, 3, 0, 0, 4, 1])
}
