//! The script that a seed and a size give, for measuring.
ghost use Rattle.std.specs.Prelude.{◌≡◌, ◌+◌, ◌*◌, ◌<◌, ◌≤◌, ◌++◌, IfOk, OnOk};
ghost use Rattle.pg_script.specs.Text.{line};
ghost use Rattle.pg_script.specs.Generated as spec;

use crate::draws::Draws;
use pg_value::Text;
use std::alloc::{AllocError, Global};

/// How many rows an INSERT has, but for the last one.
const ROWS: u64 = 100;

/// How many changes session `a` makes.
const UPDATES: u64 = 300;

/// Which table is filled.
#[derive(Clone, Copy)]
pub enum Filled {
    Persons,
    Edges,
}

/// The name of the table that is filled.
fn name_of(filled: Filled) -> &'static str
    ensures { result.now ≡ spec.name_of filled }
{
    match filled {
        Filled::Persons => "person",
        Filled::Edges => "knows",
    }
}

/// Appends a line.
fn push_line(out: &mut Text, text: &str) -> Result<(), AllocError>
    ensures { OnOk result (out.new ≡ out.old ++ line text.now) }
{
    out.push_str(text)?;
    out.push_str("\n")
}

/// Appends the row of a person.
fn push_person(out: &mut Text, at: u64) -> Result<(), AllocError>
    requires { at < 80000 }
    ensures { OnOk result (out.new ≡ out.old ++ spec.person_row at) }
{
    out.push_str("(")?;
    out.push_number(at + 1)?;
    out.push_str(", 'P')")
}

/// Appends a comma and a number.
fn push_next(out: &mut Text, number: u64) -> Result<(), AllocError>
    ensures { OnOk result (out.new ≡ out.old ++ spec.next_text number) }
{
    out.push_str(", ")?;
    out.push_number(number)
}

/// Appends the row of an edge, which draws its two ends and its weight.
fn push_edge(out: &mut Text, draws: &mut Draws, persons: u64, at: u64) -> Result<(), AllocError>
    requires persons { 0 < persons }
    requires most { persons ≤ 20000 }
    requires at { at < 80000 }
    requires made { draws.old.made ≡ 3 * at }
    ensures text { OnOk result (out.new ≡ out.old ++ spec.knows_row draws.old.seed persons at) }
    ensures made { OnOk result (draws.new.made ≡ 3 * (at + 1)) }
    ensures seed { draws.new.seed ≡ draws.old.seed }
{
    let source = draws.draw(persons) + 1;
    let dest = draws.draw(persons) + 1;
    let weight = draws.draw(100);
    out.push_str("(")?;
    out.push_number(at + 1)?;
    push_next(out, source)?;
    push_next(out, dest)?;
    push_next(out, weight)?;
    out.push_str(")")
}

/// Appends a row.
fn push_row(
    out: &mut Text,
    draws: &mut Draws,
    filled: Filled,
    persons: u64,
    at: u64,
) -> Result<(), AllocError>
    requires persons { 0 < persons }
    requires most { persons ≤ 20000 }
    requires at { at < 80000 }
    requires made { draws.old.made ≡ spec.draws_before filled at }
    ensures text { OnOk result (out.new ≡ out.old ++ spec.row_text draws.old.seed persons filled at) }
    ensures made { OnOk result (draws.new.made ≡ spec.draws_before filled (at + 1)) }
    ensures seed { draws.new.seed ≡ draws.old.seed }
{
    match filled {
        Filled::Persons => push_person(out, at),
        Filled::Edges => push_edge(out, draws, persons, at),
    }
}

/// Appends a comma and a row.
fn push_further(
    out: &mut Text,
    draws: &mut Draws,
    filled: Filled,
    persons: u64,
    at: u64,
) -> Result<(), AllocError>
    requires persons { 0 < persons }
    requires most { persons ≤ 20000 }
    requires at { at < 80000 }
    requires made { draws.old.made ≡ spec.draws_before filled at }
    ensures text { OnOk result (out.new ≡ out.old ++ spec.further_row draws.old.seed persons filled at) }
    ensures made { OnOk result (draws.new.made ≡ spec.draws_before filled (at + 1)) }
    ensures seed { draws.new.seed ≡ draws.old.seed }
{
    out.push_str(", ")?;
    push_row(out, draws, filled, persons, at)
}

/// Appends so many rows from a place on.
fn push_rows(
    out: &mut Text,
    draws: &mut Draws,
    filled: Filled,
    persons: u64,
    first: u64,
    count: u64,
) -> Result<(), AllocError>
    requires persons { 0 < persons }
    requires most { persons ≤ 20000 }
    requires count { 0 < count }
    requires end { first + count ≤ 80000 }
    requires made { draws.old.made ≡ spec.draws_before filled first }
    ensures text { OnOk result (out.new ≡ out.old ++ spec.rows_text draws.old.seed persons filled first count) }
    ensures made { OnOk result (draws.new.made ≡ spec.draws_before filled (first + count)) }
    ensures seed { draws.new.seed ≡ draws.old.seed }
{
    push_row(out, draws, filled, persons, first)?;
    for k in 0..count - 1 {
        push_further(out, draws, filled, persons, first + 1 + k)?;
    }
    Ok(())
}

/// Appends the INSERT of a place.
fn push_insert(
    out: &mut Text,
    draws: &mut Draws,
    filled: Filled,
    persons: u64,
    count: u64,
    place: u64,
) -> Result<(), AllocError>
    requires persons { 0 < persons }
    requires most { persons ≤ 20000 }
    requires count { count ≤ 80000 }
    requires place { 100 * place < count }
    requires made { draws.old.made ≡ spec.draws_before filled (100 * place) }
    ensures text { OnOk result (out.new ≡ out.old ++ spec.insert_line draws.old.seed persons filled count place) }
    ensures made { OnOk result (draws.new.made ≡ spec.draws_before filled (100 * place + spec.rows_in count place)) }
    ensures seed { draws.new.seed ≡ draws.old.seed }
{
    let first = ROWS * place;
    let rows = ROWS.min(count - first);
    out.push_str("INSERT INTO ")?;
    out.push_str(name_of(filled))?;
    out.push_str(" VALUES ")?;
    push_rows(out, draws, filled, persons, first, rows)?;
    out.push_str(";\n")
}

/// Appends the INSERTs of a table.
fn push_inserts(
    out: &mut Text,
    draws: &mut Draws,
    filled: Filled,
    persons: u64,
    count: u64,
) -> Result<(), AllocError>
    requires persons { 0 < persons }
    requires most { persons ≤ 20000 }
    requires count { count ≤ 80000 }
    requires made { draws.old.made ≡ 0 }
    ensures text { OnOk result (out.new ≡ out.old ++ spec.insert_lines draws.old.seed persons filled count) }
    ensures made { OnOk result (draws.new.made ≡ spec.draws_before filled count) }
    ensures seed { draws.new.seed ≡ draws.old.seed }
{
    for place in 0..count.div_ceil(ROWS) {
        push_insert(out, draws, filled, persons, count, place)?;
    }
    Ok(())
}

/// Appends the change of a place.
fn push_update(
    out: &mut Text,
    draws: &mut Draws,
    persons: u64,
    place: u64,
) -> Result<(), AllocError>
    requires persons { 0 < persons }
    requires most { persons ≤ 20000 }
    requires place { place < 300 }
    requires made { draws.old.made ≡ 12 * persons + place }
    ensures text { OnOk result (out.new ≡ out.old ++ spec.update_line draws.old.seed persons place) }
    ensures made { OnOk result (draws.new.made ≡ 12 * persons + (place + 1)) }
    ensures seed { draws.new.seed ≡ draws.old.seed }
{
    let id = draws.draw(4 * persons) + 1;
    out.push_str("UPDATE knows SET w = w + 1 WHERE id = ")?;
    out.push_number(id)?;
    out.push_str(";\n")
}

/// Appends the changes of session `a`.
fn push_updates(out: &mut Text, draws: &mut Draws, persons: u64) -> Result<(), AllocError>
    requires persons { 0 < persons }
    requires most { persons ≤ 20000 }
    requires made { draws.old.made ≡ 12 * persons }
    ensures { OnOk result (out.new ≡ out.old ++ spec.each_below (spec.update_line draws.old.seed persons) 300) }
{
    for place in 0..UPDATES {
        push_update(out, draws, persons, place)?;
    }
    Ok(())
}

/// Appends the definitions of the tables and of the graph.
fn push_definitions(out: &mut Text) -> Result<(), AllocError>
    ensures { OnOk result (out.new ≡ out.old ++ spec.definitions) }
{
    out.push_str(
        "@setup\n\
        CREATE TABLE person (id INTEGER PRIMARY KEY, name VARCHAR(20));\n\
        CREATE TABLE knows (id INTEGER PRIMARY KEY, a INTEGER, b INTEGER, w INTEGER);\n\
        CREATE PROPERTY GRAPH social VERTEX TABLES (person) EDGE TABLES (knows SOURCE KEY (a) REFERENCES person (id) DESTINATION KEY (b) REFERENCES person (id));\n",
    )
}

/// Appends session `b`.
fn push_queries(out: &mut Text) -> Result<(), AllocError>
    ensures { OnOk result (out.new ≡ out.old ++ spec.queries) }
{
    out.push_str(
        "@session b\n\
        BEGIN;\n\
        SELECT * FROM GRAPH_TABLE (social MATCH (x)-[e]->(y) COLUMNS (x.id AS p, y.id AS q));\n\
        SELECT * FROM GRAPH_TABLE (social MATCH ANY SHORTEST (x WHERE x.id = 1)->+(y) COLUMNS (y.id AS q));\n\
        COMMIT;\n\
        SELECT * FROM GRAPH_TABLE (social MATCH (x)-[e]->(y WHERE y.id = 1) COLUMNS (e.id AS q));\n",
    )
}

/// Appends the turns of session `a`.
fn push_turns(out: &mut Text) -> Result<(), AllocError>
    ensures { OnOk result (out.new ≡ out.old ++ spec.each_below spec.turn_of_a 300) }
{
    for _turn in 0..UPDATES {
        push_line(out, "a")?;
    }
    Ok(())
}

/// Appends the order of the turns.
fn push_order(out: &mut Text) -> Result<(), AllocError>
    ensures { OnOk result (out.new ≡ out.old ++ spec.order) }
{
    out.push_str("@order\nb\n")?;
    push_turns(out)?;
    push_line(out, "b b b b")
}

/// The text of a script for measuring, of so many persons and four times as many edges between them, which are drawn from the
/// seed by a linear congruence. Session `b` begins a transaction, then session `a` changes an edge 300 times, and then `b`
/// asks. Only want of memory refuses it.
pub fn generate(alloc: Global, seed: u64, size: u32) -> Result<Text, AllocError>
    requires least { 0 < size }
    requires most { size ≤ 20000 }
    ensures { IfOk result (λ text. text ≡ spec.generated seed size) }
{
    let persons = size as u64;
    let mut out = Text::new(alloc);
    let mut draws = Draws::new(seed);
    push_definitions(&mut out)?;
    push_inserts(&mut out, &mut draws, Filled::Persons, persons, persons)?;
    push_inserts(&mut out, &mut draws, Filled::Edges, persons, 4 * persons)?;
    push_line(&mut out, "@session a")?;
    push_updates(&mut out, &mut draws, persons)?;
    push_queries(&mut out)?;
    push_order(&mut out)?;
    Ok(out)
}
