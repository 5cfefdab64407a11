use crate::tables::same;
use mill_base::{Pt3, Tri, Unit};
use mill_decimal::Snap;
use mill_stl::{StlFault, read_stl};
use mill_tables::{halves, with_bytes};
use std::alloc::Global;
use std::process::Abort;
use std::test::Fail;

mod writing;

const TWO_SOLIDS: &str =
    "SOLID a\r\nFACET NORMAL nan nan nan\r\nOUTER LOOP\r\nVERTEX 0 0 2\r\nVERTEX 1e1 0 2\r\nVERTEX 0 10.000 2\r\nENDLOOP\r\nENDFACET\r\nENDSOLID a\r\nsolid b\r\nendsolid b\r\n";

const PLATE: &str = "solid plate 40 x 20\rendsolid
  facet normal 0 0 1
    outer loop
      vertex 0 0 2
      vertex 40 0 2.0
      vertex +40. 20 2.00
    endloop
  endfacet
Facet Normal - nan solid Outer Loop vertex 0 0 -.5 Vertex 40.004 20 2 vertex 0 20 2.000001 EndLoop EndFacet
EndSolid plate\t\u{b}and facet";

fn point(x: i32, y: i32, z: i32) -> Pt3 {
    Pt3 { x, y, z }
}

// A text reads as these triangles, with so many coordinates that are rounded.
fn is_read<R: Abort>(
    rt: &R,
    alloc: Global,
    text: &str,
    snap: Snap,
    unit: Unit,
    tris: &[Tri],
    rounded: u64,
) -> Result<(), StlFault> {
    let read = read_stl(alloc, text.as_bytes(), snap, unit)?;
    assert_eq!(rt; (read.tris.as_slice(), read.rounded), (tris, rounded));
    Ok(())
}

#[test]
fn reads_two_solids(rt: HostRuntime) -> Result<(), StlFault> {
    let want = Tri {
        a: point(0, 0, 200),
        b: point(1000, 0, 200),
        c: point(0, 1000, 200),
    };
    let unit = Unit::Hundredth;
    is_read(&rt, rt.alloc(), TWO_SOLIDS, Snap::Exact, unit, &[want], 0)
}

#[test]
fn counts_what_it_rounds(rt: HostRuntime) -> Result<(), StlFault> {
    let want = [
        Tri {
            a: point(0, 0, 200),
            b: point(4000, 0, 200),
            c: point(4000, 2000, 200),
        },
        Tri {
            a: point(0, 0, -50),
            b: point(4000, 2000, 200),
            c: point(0, 2000, 200),
        },
    ];
    let unit = Unit::Hundredth;
    is_read(&rt, rt.alloc(), PLATE, Snap::Nearest, unit, &want, 2)
}

#[test]
fn reads_thousandths(rt: HostRuntime) -> Result<(), StlFault> {
    let want = [
        Tri {
            a: point(0, 0, 2000),
            b: point(40000, 0, 2000),
            c: point(40000, 20000, 2000),
        },
        Tri {
            a: point(0, 0, -500),
            b: point(40004, 20000, 2000),
            c: point(0, 20000, 2000),
        },
    ];
    let unit = Unit::Thousandth;
    is_read(&rt, rt.alloc(), PLATE, Snap::Nearest, unit, &want, 1)
}

// Words and white space that are longer than what is looked at together, with bytes below a blank.
#[test]
fn reads_long_words(rt: HostRuntime) -> Result<(), StlFault> {
    let text = "  solid \u{1}\u{2}a name of more than sixteen bytes\u{7f}\u{ff}\n\r\n\n
                                          facet normal \u{1}23456789012345678901234567890 0123456789abcdef e
                  outer\u{c}loop\tvertex 0000000000000000000000.5 -00.10 +5.0e-1
        vertex 1 0 0\u{b}vertex 0\r1 0000000000000000 endloop endfacet
    endsolid of_more_than_sixteen_bytes\u{1}\u{1f}";
    let want = Tri {
        a: point(50, -10, 50),
        b: point(100, 0, 0),
        c: point(0, 100, 0),
    };
    is_read(
        &rt,
        rt.alloc(),
        text,
        Snap::Exact,
        Unit::Hundredth,
        &[want],
        0,
    )
}

// What is said of a text that isn't read.
fn told_fault(alloc: Global, text: &str) -> Result<String, Fail> {
    let read = read_stl(alloc, text.as_bytes(), Snap::Exact, Unit::Hundredth);
    let fault = read.err().ok_or("a text without a fault")?;
    Ok(format!(in alloc; "{fault:?}")?)
}

fn has_fault<R: Abort>(rt: &R, alloc: Global, row: &str) -> Result<(), Fail> {
    let (text, wanted) = halves(row)?;
    let text = with_bytes(alloc, text)?;
    same(rt, &told_fault(alloc, &text)?, wanted, row);
    Ok(())
}

const FAULTS: &str = " => CutShort { line: 1 }
solid endsolid\\n => CutShort { line: 2 }
solid\\nendsolid a\\nsolid b => CutShort { line: 3 }
\\nsolids\\nendsolid => Expected { line: 2, what: Solid }
solid\\r\\nface => Expected { line: 2, what: FacetOrEnd }
solid\\nfacet\\n\\nnormals => Expected { line: 4, what: Normal }
solid\\nfacet normal 0 0\\n1\\nloop => Expected { line: 4, what: Outer }
solid\\nfacet normal 0 0 1 outer loop vertex 1 2\\n3e => Coord { line: 3, fault: Spelling }
solid\\nfacet normal 0 0 1 outer loop vertex 1 .005 => Coord { line: 2, fault: OffGrid }
SOLID\\r\\nFACET NORMAL 0 0 1\\r\\nOUTER LOOP\\r\\nVERTEX 0 0 2\\r\\nVERTEX 1e1 0 2\\r\\nVERTEX 0 10.000 2\\r\\nENDLOOP => CutShort { line: 7 }
solid\\nendsolid a\\nfacet => Expected { line: 3, what: SolidOrEnd }
solid\\n\\n                    \\r\\n                         facet\u{1} normal => Expected { line: 4, what: FacetOrEnd }
solid of_more_than_sixteen_bytes\\nfacetfacetfacetfacetfacet => Expected { line: 2, what: FacetOrEnd }";

#[test]
fn names_the_first_bad_place(rt: HostRuntime) -> Result<(), Fail> {
    for row in FAULTS.lines() {
        has_fault(&rt, rt.alloc(), row)?;
    }
    Ok(())
}

// The line of a fault, or for other faults 0, which no line has.
fn line_of(fault: Option<StlFault>) -> Option<u64> {
    match fault {
        Some(StlFault::Expected { line, .. })
        | Some(StlFault::Coord { line, .. })
        | Some(StlFault::CutShort { line }) => Some(line),
        Some(_) => Some(0),
        None => None,
    }
}

// Right behind an `endsolid` line, or between solids.
fn may_end(text: &[u8]) -> bool {
    text.ends_with(b"ENDSOLID")
        || text.ends_with(b"ENDSOLID ")
        || text.ends_with(b"ENDSOLID a")
        || text.ends_with(b"ENDSOLID a\r")
        || text.ends_with(b"ENDSOLID a\r\n")
        || text.ends_with(b"endsolid")
        || text.ends_with(b"endsolid ")
        || text.ends_with(b"endsolid b")
        || text.ends_with(b"endsolid b\r")
}

fn prefix_is_refused<R: Abort>(rt: &R, alloc: Global, prefix: &[u8], last_line: u64) {
    let read = read_stl(alloc, prefix, Snap::Exact, Unit::Hundredth);
    let line = line_of(read.err());
    let wanted = if may_end(prefix) {
        None
    } else {
        Some(last_line)
    };
    assert_eq!(rt; line, wanted, "at {}", prefix.len());
}

// A text that is cut off reads only where it may end; else the fault is on its last line.
#[test]
fn no_prefix_reads(rt: HostRuntime) {
    let text = TWO_SOLIDS.as_bytes();
    let mut line: u64 = 1;
    for length in 0..text.len() {
        let (prefix, _) = text.split_at(length);
        prefix_is_refused(&rt, rt.alloc(), prefix, line);
        if text[length] == b'\n' {
            line = line.saturating_add(1);
        }
    }
}
