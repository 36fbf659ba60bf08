//! Edges by the vertices at their ends, in both directions: the program asks for those at sources alone.
ghost use Rattle.std.specs.Prelude.{◌≡◌};

use pg_adj::{Adj, EdgeEnds};
use pg_chunks::Steps;
use pg_value::{Dir, EdgeNo, Key, List, Text, Value, print_value};
use std::alloc::{AllocError, Global};
use std::marker::Brand;
use std::sync::ledger::{Blank, Ledger};
use std::test::Fail;

fn key(alloc: Global, number: i128) -> Result<Key, AllocError> {
    let mut values = List::new(alloc);
    values.push(Value::int(number))?;
    Ok(Key::new(values))
}

/// Edges by their numbers, with the numbers of their sources and of their destinations.
fn edges(alloc: Global, numbers: &[(i128, i128, i128)]) -> Result<List<EdgeEnds>, AllocError> {
    let mut all = List::new(alloc);
    for (edge, source, dest) in numbers {
        let edge = key(alloc, *edge)?;
        let source = key(alloc, *source)?;
        let dest = key(alloc, *dest)?;
        all.push(EdgeEnds { edge, source, dest })?;
    }
    Ok(all)
}

/// The keys of the edges at a vertex.
fn printed<L: Ledger>(
    alloc: Global,
    blank: Blank,
    adj: &Adj,
    dir: Dir,
    vertex: i128,
) -> Result<Text, AllocError>
    requires name { blank.name ≡ L.name }
    requires parts { blank.parts ≡ L.parts }
    requires one { blank.parts ≡ 1 }
{
    let mut steps = Steps::<L>::start(blank);
    let vertex = key(alloc, vertex)?;
    let mut out = Text::new(alloc);
    for edge in adj.edges_at(EdgeNo(1), dir, &vertex, &mut steps) {
        for value in edge.values.as_slice() {
            print_value(value, &mut out)?;
            out.push_ascii(b' ')?;
        }
    }
    Ok(out)
}

/// The same, with a counter of its own.
fn edges_at(alloc: Global, adj: &Adj, dir: Dir, vertex: i128) -> Result<Text, AllocError> {
    printed::<Brand>(alloc, Blank::new(1), adj, dir, vertex)
}

#[test]
fn edges_stand_at_both_ends(rt: HostRuntime) -> Result<(), Fail> {
    let alloc = rt.alloc();
    let mut lists = List::new(alloc);
    lists.push(List::new(alloc))?;
    lists.push(edges(
        alloc,
        &[(1, 5, 2), (3, 2, 2), (4, 5, -9), (7, 2, 5), (8, 5, 2)],
    )?)?;
    let adj = Adj::build(alloc, lists)?;
    assert!(rt; edges_at(alloc, &adj, Dir::Out, 5)?.as_str() == "1 4 8 ");
    assert!(rt; edges_at(alloc, &adj, Dir::Out, 2)?.as_str() == "3 7 ");
    assert!(rt; edges_at(alloc, &adj, Dir::Out, -9)?.as_str() == "");
    assert!(rt; edges_at(alloc, &adj, Dir::In, 2)?.as_str() == "1 3 8 ");
    assert!(rt; edges_at(alloc, &adj, Dir::In, -9)?.as_str() == "4 ");
    assert!(rt; edges_at(alloc, &adj, Dir::In, 5)?.as_str() == "7 ");
    Ok(())
}
