//! Scripts of several sessions, which no run takes yet: their AFTERs and their orders; and scripts that a seed gives.
use pg_script::{Item, Script, generate, one_answer, split};
use std::alloc::{AllocError, Global};
use std::test::Fail;

fn item_text(alloc: Global, item: &Item) -> Result<String, AllocError> {
    match *item {
        Item::Sql { from, to } => format!(in alloc; " {from}-{to}"),
        Item::After { section, n } => format!(in alloc; " >{section}.{n}"),
    }
}

/// Each section's name and items, a statement by its places and an AFTER by its section and number; and behind `/` the
/// turns of the order.
fn script_text(alloc: Global, script: &Script) -> Result<String, AllocError> {
    let mut out = String::new(alloc);
    for section in script.sections.as_slice() {
        out.push_str(section.name.as_str())?;
        for item in section.items.as_slice() {
            out.push_str(item_text(alloc, item)?.as_str())?;
        }
        out.push_str("; ")?;
    }
    out.push('/')?;
    for turn in script.order.as_slice() {
        let turn = *turn;
        out.push_str(format!(in alloc; " {turn}")?.as_str())?;
    }
    Ok(out)
}

const SCRIPTS: &[(&str, &str)] = &[
    (
        "@session a\nx;\n@session order\nAFTER a 1;y\n@order\n a -- a\n\torder a\r\n",
        "setup; a 11-13; order >1.1 39-41; / 1 2 1",
    ),
    (
        "@session a\n'x\n@session b\ny';",
        "setup; a 11-14; b 25-28; /",
    ),
    (
        "@setup\nz;\n@session a\nx;\n y; -- z\n@session b\naFtEr--\na\t002 ;",
        "setup 7-9; a 21-23 25-27; b >1.2; /",
    ),
    (
        "@session a\nx;\n@session b\nAFTERS a 1;",
        "setup; a 11-13; b 25-36; /",
    ),
    (
        "@session a\nx;\n@session b\nAFTER a 1;\n@session c\nAFTER b 1;",
        "setup; a 11-13; b >1.1; c >2.1; /",
    ),
    (
        "@setup\n@session a\n@session b\n@order\nb a--b\n a",
        "setup; a; b; / 2 1 1",
    ),
];

#[test]
fn sessions_wait_and_have_turns(rt: HostRuntime) -> Result<(), Fail> {
    one_answer();
    for (input, want) in SCRIPTS {
        let Ok(script) = split(rt.alloc(), input.as_bytes()) else {
            return Err(Fail::from(AllocError));
        };
        assert!(rt; script.text.as_str() == *input);
        assert_eq!(rt; script_text(rt.alloc(), &script)?.as_str(), *want);
    }
    Ok(())
}

/// A number that a text has, and hardly another.
fn mark(text: &[u8]) -> u64 {
    let mut mark: u64 = 0;
    for byte in text {
        mark = mark.wrapping_mul(31).wrapping_add(*byte as u64);
    }
    mark
}

/// Lengths and marks were found by another program, from the rules.
#[test]
fn scripts_are_generated(rt: HostRuntime) -> Result<(), Fail> {
    let one = generate(rt.alloc(), 7, 1)?;
    assert_eq!(rt;
        (one.len(), mark(one.as_bytes())),
        (13654, 383326006123644790)
    );
    let thirty = generate(rt.alloc(), 7, 30)?;
    assert_eq!(rt;
        (thirty.len(), mark(thirty.as_bytes())),
        (16336, 3498839086158356190)
    );
    let last_seed = generate(rt.alloc(), u64::MAX, 26)?;
    assert_eq!(rt;
        (last_seed.len(), mark(last_seed.as_bytes())),
        (15974, 3875302279550719825)
    );
    Ok(())
}
