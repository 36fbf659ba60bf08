//! Values that no statement of today gives, and lists, texts and writes by the calls that no statement makes.
use indexmap::IndexSet;
use pg_value::{
    Cmp, ElemId, Key, List, PutFault, Row, TableNo, Text, Truth, Value, Write, Writes, compare,
    copy_key, copy_row, order_values, print_value, sort_rows,
};
use std::alloc::{AllocError, Global};
use std::test::Fail;

fn text(alloc: Global, text: &str) -> Result<Value, AllocError> {
    Ok(Value::Text(Text::from_str(alloc, text)?))
}

fn list_of(alloc: Global, value: Value) -> Result<List<Value>, AllocError> {
    let mut values = List::new(alloc);
    values.push(value)?;
    Ok(values)
}

/// 2 ^ 126, which has 127 binary digits.
const MOST: i128 = 85070591730234615865843651857942052864;

/// NULL, numbers by size, texts by bytes, and truth values.
fn rising(alloc: Global) -> Result<List<Value>, AllocError> {
    let mut rising = List::new(alloc);
    rising.push(Value::Null)?;
    for number in [-MOST, -10, -9, 0, 9, 10, MOST] {
        rising.push(Value::int(number))?;
    }
    for bytes in ["", "B", "a", "aa", "b\"c", "it's", "é"] {
        rising.push(text(alloc, bytes)?)?;
    }
    rising.push(Value::Bool(false))?;
    rising.push(Value::Bool(true))?;
    Ok(rising)
}

const PRINTED: &str = "NULL -85070591730234615865843651857942052864 -10 -9 0 9 10 \
     85070591730234615865843651857942052864 '' 'B' 'a' 'aa' 'b\"c' 'it''s' 'é' FALSE TRUE ";

fn push_all(values: &[Value], out: &mut Text) -> Result<(), AllocError> {
    for value in values {
        print_value(value, out)?;
        out.push_ascii(b' ')?;
    }
    Ok(())
}

#[test]
fn values_are_ordered_and_printed(rt: HostRuntime) -> Result<(), Fail> {
    let alloc = rt.alloc();
    let rising = rising(alloc)?;
    let mut out = Text::new(alloc);
    push_all(rising.as_slice(), &mut out)?;
    assert_eq!(rt; out.as_str(), PRINTED);
    for (i, a) in rising.as_slice().iter().enumerate() {
        for (j, b) in rising.as_slice().iter().enumerate() {
            assert_eq!(rt; order_values(a, b), i.cmp(&j), "{i} against {j}");
        }
    }
    Ok(())
}

#[test]
fn rows_are_copied_and_sorted(rt: HostRuntime) -> Result<(), Fail> {
    let alloc = rt.alloc();
    let mut rows = Vec::new(alloc);
    for number in [2, -1, 10] {
        let fresh = Row::new(alloc, list_of(alloc, Value::int(number))?)?;
        rows.push(copy_row(&fresh)?)?;
        rows.push(fresh)?;
    }
    sort_rows(&mut rows)?;
    let mut out = Text::new(alloc);
    for row in &rows {
        push_all(row.values.as_slice(), &mut out)?;
    }
    assert_eq!(rt; out.as_str(), "-1 -1 2 2 10 10 ");
    Ok(())
}

#[test]
fn values_are_compared(rt: HostRuntime) {
    let (yes, no, unknown) = (Truth::True, Truth::False, Truth::Unknown);
    for (op, want) in [
        (Cmp::Eq, [no, yes, no]),
        (Cmp::Ne, [yes, no, yes]),
        (Cmp::Lt, [yes, no, no]),
        (Cmp::Le, [yes, yes, no]),
        (Cmp::Gt, [no, no, yes]),
        (Cmp::Ge, [no, yes, yes]),
    ] {
        for (number, truth) in want.iter().enumerate() {
            assert_eq!(rt;
                compare(op, &Value::int(number as i128), &Value::int(1)),
                *truth
            );
        }
        assert_eq!(rt; compare(op, &Value::int(1), &Value::Null), unknown);
        assert_eq!(rt; compare(op, &Value::Null, &Value::Null), unknown);
    }
}

/// A row of one truth value, or none.
fn row(alloc: Global, truth: Option<bool>) -> Result<Option<Row>, AllocError> {
    match truth {
        Some(truth) => Ok(Some(Row::new(alloc, list_of(alloc, Value::Bool(truth))?)?)),
        None => Ok(None),
    }
}

/// A table, a key and a row's truth value, or none for a row that is taken away.
type Put = (u32, i128, Option<bool>);

fn write(alloc: Global, of: Put) -> Result<Write, AllocError> {
    let (table, number, truth) = of;
    Ok(Write {
        table: TableNo(table),
        key: Key::new(list_of(alloc, Value::int(number))?),
        row: row(alloc, truth)?,
    })
}

/// A write as its table, a copy of its key, and its row, or `-` where it takes a row away.
fn push_write(alloc: Global, write: &Write, out: &mut Text) -> Result<(), AllocError> {
    out.push_number(write.table.0 as u64)?;
    out.push_str(": ")?;
    let key = copy_key(alloc, &write.key)?;
    push_all(key.values.as_slice(), out)?;
    match &write.row {
        Some(row) => push_all(row.values.as_slice(), out),
        None => out.push_str("- "),
    }
}

/// Puts a write among the others, or pushes it where these are full.
fn put(alloc: Global, writes: &mut Writes, of: Put, out: &mut Text) -> Result<(), AllocError> {
    match writes.put(write(alloc, of)?) {
        Ok(()) => Ok(()),
        Err(PutFault::Full(back)) => {
            out.push_str("full ")?;
            push_write(alloc, &back, out)
        }
        Err(_) => Err(AllocError),
    }
}

/// Five places are the limit: a place again is no place more.
const PUTS: &[Put] = &[
    (1, 5, Some(false)),
    (1, 7, Some(false)),
    (0, 9, Some(true)),
    (1, 6, None),
    (1, 5, Some(true)),
    (2, 0, Some(false)),
    (3, 0, None),
    (1, 7, None),
    (0, 8, Some(true)),
];

#[test]
fn writes_stand_by_table_and_key(rt: HostRuntime) -> Result<(), Fail> {
    let alloc = rt.alloc();
    let mut writes = Writes::new(alloc, 5);
    let mut out = Text::new(alloc);
    for of in PUTS {
        put(alloc, &mut writes, *of, &mut out)?;
    }
    for at in 0..writes.len() {
        push_write(alloc, writes.at(at), &mut out)?;
    }
    assert_eq!(rt;
        out.as_str(),
        "full 3: 0 - full 0: 8 TRUE 0: 9 TRUE 1: 5 TRUE 1: 6 - 1: 7 - 2: 0 FALSE "
    );
    Ok(())
}

/// The keys of writes, in order, each before a space.
fn keys_of(alloc: Global, writes: &Writes) -> Result<Text, AllocError> {
    let mut out = Text::new(alloc);
    for at in 0..writes.len() {
        push_all(writes.at(at).key.values.as_slice(), &mut out)?;
    }
    Ok(out)
}

/// The numbers below 401, without 364, each before a space.
fn numbers_without_one(alloc: Global) -> Result<Text, AllocError> {
    let mut out = Text::new(alloc);
    for number in 0..401u64 {
        if number != 364 {
            out.push_number(number)?;
            out.push_str(" ")?;
        }
    }
    Ok(out)
}

#[test]
fn many_writes_out_of_order_stand_in_order(rt: HostRuntime) -> Result<(), Fail> {
    let alloc = rt.alloc();
    let mut writes = Writes::new(alloc, 1000);
    let mut full = Text::new(alloc);
    for number in 0..400u64 {
        let key = number * 37 % 401;
        put(alloc, &mut writes, (0, key as i128, None), &mut full)?;
    }
    assert_eq!(rt; full.as_str(), "");
    let keys = keys_of(alloc, &writes)?;
    let numbers = numbers_without_one(alloc)?;
    assert_eq!(rt; keys.as_str(), numbers.as_str());
    Ok(())
}

#[test]
fn lists_and_texts_grow(rt: HostRuntime) -> Result<(), Fail> {
    let mut list = List::new(rt.alloc());
    list.push(1u8)?;
    list.push(3)?;
    assert!(rt; list.insert(1, 2).is_ok());
    list.set(0, 7);
    assert_eq!(rt; list.into_vec().as_slice(), [7, 2, 3].as_slice());

    let mut text = Text::from_string(rt.alloc(), String::from_str(rt.alloc(), "a")?)?;
    text.push_quoted("b\"c", '"')?;
    let copy = text.copy(rt.alloc())?;
    assert!(rt; copy == text);
    assert_eq!(rt; copy.as_str(), "a\"b\"\"c\"");
    Ok(())
}

/// A vertex or an edge: its table, a number in its key, and a text behind it or none.
type Named = (u32, i128, Option<&'static str>);

fn element(alloc: Global, of: Named) -> Result<ElemId, AllocError> {
    let (table, number, behind) = of;
    let mut values = list_of(alloc, Value::int(number))?;
    if let Some(behind) = behind {
        values.push(text(alloc, behind)?)?;
    }
    Ok(ElemId {
        table: TableNo(table),
        key: Key::new(values),
    })
}

#[test]
fn elements_are_looked_up(rt: HostRuntime) -> Result<(), Fail> {
    let alloc = rt.alloc();
    let all = [
        (0, 1, None),
        (0, 2, None),
        (1, 1, None),
        (0, 1, Some("one of two")),
        (0, 1, Some("the other")),
    ];
    let mut places = IndexSet::new(alloc);
    for of in all {
        places.insert(element(alloc, of)?)?;
        places.insert(element(alloc, of)?)?;
    }
    for (place, of) in all.into_iter().enumerate() {
        assert_eq!(rt; places.get_index_of(&element(alloc, of)?), Some(place));
    }
    assert_eq!(rt; places.get_index_of(&element(alloc, (1, 2, None))?), None);
    Ok(())
}
