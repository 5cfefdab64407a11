ghost use Rattle.mill_base.specs.Lattices.{IsLattice};
ghost use Rattle.mill_base.specs.Numbers.{Within};
ghost use Rattle.mill_base.specs.declared.limits.TheConstants.{MAX_COORDINATE};

use mill_base::{Lattice, Pt3, Tool};
use mill_level::{Chain, joins_are_apart, one_waterline, waterline};
use mill_part::SortedPart;
use mill_tables::{coordinate, halves, lattice, part_of, tool};
use std::alloc::Global;
use std::process::Abort;
use std::test::Fail;

mod ends;
mod shapes;

fn add_point(alloc: Global, told: &mut String, point: &Pt3, z: i32) -> Result<(), Fail> {
    let Pt3 { x, y, .. } = point;
    if point.z != z {
        return Err(Fail::from("a point at another height"));
    }
    told.push_str(&format!(in alloc; " ({x} {y})")?)?;
    Ok(())
}

/// A chain by its points in x and y, which have to be at the height z.
fn told_chain(alloc: Global, chain: &Chain, z: i32) -> Result<String, Fail> {
    let word = if chain.closed { "closed" } else { "open" };
    let mut told = String::from_str(alloc, word)?;
    for point in &chain.points {
        add_point(alloc, &mut told, point, z)?;
    }
    Ok(told)
}

fn add_chain(alloc: Global, told: &mut String, chain: &Chain, z: i32) -> Result<(), Fail> {
    if !told.is_empty() {
        told.push_str(", ")?;
    }
    told.push_str(&told_chain(alloc, chain, z)?)?;
    Ok(())
}

fn told(alloc: Global, chains: &[Chain], z: i32) -> Result<String, Fail> {
    if chains.is_empty() {
        return Ok(String::from_str(alloc, "none")?);
    }
    let mut told = String::new(alloc);
    for chain in chains {
        add_chain(alloc, &mut told, chain, z)?;
    }
    Ok(told)
}

/// What the waterline of a tool comes to.
fn told_round(
    alloc: Global,
    part: &SortedPart,
    held: &Tool,
    z: i32,
    nodes: &Lattice,
) -> Result<String, Fail>
    requires z_ok { Within MAX_COORDINATE z }
    requires nodes_ok { IsLattice nodes.now }
{
    match waterline(alloc, part, held, z, nodes) {
        Ok(chains) => told(alloc, &chains, z),
        Err(fault) => Ok(format!(in alloc; "{fault:?}")?),
    }
}

/// What the waterline of a tool comes to by a text: at which height, over which lattice, and round which
/// part.
fn told_of(alloc: Global, held: &Tool, text: &str) -> Result<String, Fail> {
    let (z, others) = text.split_once(" over ").ok_or("a row without a lattice")?;
    let (nodes, tris) = others.split_once(": ").ok_or("a row without a part")?;
    let (z, nodes) = (coordinate(z)?, lattice(nodes)?);
    told_round(alloc, &part_of(alloc, tris)?, held, z, &nodes)
}

fn look<R: Abort + AllocGlobal>(rt: &R, row: &str) -> Result<(), Fail> {
    let (text, wanted) = halves(row)?;
    let (held, text) = text.split_once(" at ").ok_or("a row without a height")?;
    let held = tool(held)?;
    let found = told_of(rt.alloc(), &held, text)?;
    assert_eq!(rt; found.as_str(), wanted, "{row}");
    Ok(())
}

/// Looks at many waterlines: each row has what it asks for, and what that comes to.
fn each_waterline<R: Abort + AllocGlobal>(rt: &R, table: &str) -> Result<(), Fail> {
    for row in table.lines() {
        look(rt, row)?;
    }
    Ok(())
}

// One blocked node inside a lattice, at its corner, in its one row, in its one column, and as its one
// node.
const ONE_BLOCKED_NODE: &str = "\
flat 100 at 0 over 0 0 to 1000 1000 by 100: 500 500 300 => closed (400 500) (500 400) (600 500) (500 600)
flat 100 at 0 over 0 0 to 1000 1000 by 100: 0 0 300 => open (100 0) (0 100)
flat 100 at 0 over 0 0 to 1000 1000 by 5000: 0 0 300 => open (100 0) (0 100)
flat 100 at 0 over 0 0 to 1000 0 by 100: 500 0 300 => open (400 0), open (600 0)
flat 100 at 0 over 0 0 to 0 1000 by 100: 0 500 300 => open (0 400), open (0 600)
flat 100 at 0 over 0 0 to 0 0 by 100: 0 0 300 => none";

// All nodes free, all blocked, and no triangle.
const NO_CROSSING: &str = "\
flat 100 at 0 over 0 0 to 1000 1000 by 100: -200 0 300 => none
flat 800 at 0 over 0 0 to 1000 1000 by 100: 500 500 300 => none
flat 100 at 0 over 0 0 to 1000 1000 by 100: nothing => none";

// More than one blocked stretch between two nodes: the crossing is the last free place on the way from
// the free node. Two free nodes have none, nor have two blocked ones. Then a shorter last step.
const BETWEEN_NODES: &str = "\
flat 100 at 0 over 0 0 to 1000 0 by 1000: 0 0 300; 500 0 300 => open (600 0)
flat 100 at 0 over 0 0 to 1000 0 by 1000: 500 0 300; 1000 0 300 => open (400 0)
flat 100 at 0 over 0 0 to 1000 0 by 1000: 500 0 300 => none
flat 100 at 0 over 0 0 to 1000 0 by 1000: 0 0 300; 1000 0 300 => none
flat 50 at 0 over 0 0 to 1000 0 by 300: 1000 0 300 => open (950 0)";

// Squares with four crossings: the blocked corners stay apart, also where crossings have equal points.
const FOUR_CROSSINGS: &str = "\
flat 100 at 0 over 0 0 to 1000 1000 by 1000: 0 0 300; 1000 1000 300 => \
    open (100 0) (0 100), open (900 1000) (1000 900)
flat 100 at 0 over 0 0 to 1000 1000 by 1000: 1000 0 300; 0 1000 300 => \
    open (0 900) (100 1000), open (1000 100) (900 0)
flat 1 at 0 over 0 0 to 3 3 by 1: 1 1 300; 2 2 300 => \
    closed (0 1) (1 0) (2 1) (1 2), closed (1 2) (2 1) (3 2) (2 3)";

// A ring of blocked nodes: the line round it, and the line round the free node inside, whose four
// crossings are all at that node.
const RING: &str = "\
flat 1 at 0 over 0 0 to 4 4 by 1: \
    1 1 300; 2 1 300; 3 1 300; 1 2 300; 3 2 300; 1 3 300; 2 3 300; 3 3 300 => \
    closed (0 1) (1 0) (2 0) (3 0) (4 1) (4 2) (4 3) (3 4) (2 4) (1 4) (0 3) (0 2), \
    closed (2 2) (2 2) (2 2) (2 2)";

const TOO_MANY_NODES: &str = "\
flat 100 at 0 over 0 0 to 20010 20010 by 10: 0 0 300 => TooManyNodes { nodes: 4008004 }";

#[test]
fn waterlines(rt: HostRuntime) -> Result<(), Fail> {
    let tables = [
        ONE_BLOCKED_NODE,
        NO_CROSSING,
        BETWEEN_NODES,
        FOUR_CROSSINGS,
        RING,
        TOO_MANY_NODES,
    ];
    for table in tables {
        each_waterline(&rt, table)?;
    }
    joins_are_apart();
    one_waterline();
    Ok(())
}
