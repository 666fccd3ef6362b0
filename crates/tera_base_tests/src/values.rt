//! Values, keys, maps and contexts.

use std::alloc::{AllocError, Global};
use std::hash::{DefaultHasher, Hasher};
use std::process::Abort;
use std::test::Fail;
use tera_base::{Context, Error, Key, Map, Value, ValueKind, laws};

fn key(alloc: Global, name: &str) -> Result<Key, AllocError> {
    Ok(Key::String(String::from_str(alloc, name)?))
}

// Whether the map gives this value as the one before, when the pair is put into it.
fn puts(all: &mut Map, key: Key, value: Value, before: Option<Value>) -> Result<bool, Error> {
    Ok(all.insert(key, value)? == before)
}

fn finds_both(all: &Map, text: &Key) -> bool {
    all.len() == 2
        && !all.is_empty()
        && all.get(text) == Some(&Value::I64(3))
        && all.get(&Key::I64(1)) == Some(&Value::I64(2))
        && all.get(&Key::Bool(true)) == None
}

fn are_in_order(all: &Map, text: &Key) -> bool {
    let mut pairs = all.iter();
    pairs.next() == Some((text, &Value::I64(3)))
        && pairs.next() == Some((&Key::I64(1), &Value::I64(2)))
        && pairs.next() == None
}

#[test]
fn a_key_that_is_there_keeps_its_place(rt: HostRuntime) -> Result<(), Fail> {
    let text = key(rt.alloc(), "1")?;
    let mut all = Map::new(rt.alloc());
    assert!(rt; all.is_empty());
    assert!(rt; puts(&mut all, text.clone()?, Value::None, None)?);
    assert!(rt; puts(&mut all, Key::I64(1), Value::I64(2), None)?);
    assert!(rt; puts(&mut all, text.clone()?, Value::I64(3), Some(Value::None))?);
    assert!(rt; finds_both(&all, &text) && are_in_order(&all, &text));
    Ok(())
}

fn hash_alike(one: &Key, other: &Key) -> bool {
    let (mut first, mut second) = (DefaultHasher::new(), DefaultHasher::new());
    laws::hashes_agree(one, other, &mut first, &mut second);
    first.finish() == second.finish()
}

#[test]
fn equal_keys_hash_alike(rt: HostRuntime) -> Result<(), Fail> {
    let (one, same) = (key(rt.alloc(), "1")?, key(rt.alloc(), "1")?);
    assert!(rt; laws::same_key(&one, &same) && hash_alike(&one, &same));
    let other = Key::I64(1);
    assert!(rt; !laws::same_key(&one, &other) && !hash_alike(&one, &other));
    Ok(())
}

fn keys(alloc: Global) -> Result<[(Key, &'static str); 4], AllocError> {
    Ok([
        (key(alloc, "it's")?, "it's"),
        (Key::I64(-1), "-1"),
        (Key::Bool(true), "true"),
        (Key::Bool(false), "false"),
    ])
}

#[test]
fn texts_of_keys(rt: HostRuntime) -> Result<(), Fail> {
    for (key, text) in &keys(rt.alloc())? {
        let shown = format!(in rt.alloc(); "{key}")?;
        assert!(rt; shown.as_str() == *text, "{shown} for {text}");
    }
    Ok(())
}

// A map of these keys and numbers.
fn map(alloc: Global, pairs: &[(&str, i64)]) -> Result<Map, Error> {
    let mut all = Map::new(alloc);
    for (name, number) in pairs {
        all.insert(key(alloc, name)?, Value::I64(*number))?;
    }
    Ok(all)
}

fn are_reported_apart(all: &Map, same: &Map, other: &Map) -> bool {
    laws::same_map(all, same) && all != other
}

const PAIRS: [(&str, i64); 2] = [("a", 1), ("b", 2)];

const TURNED: [(&str, i64); 2] = [("b", 2), ("a", 1)];

#[test]
fn maps_equal_by_their_pairs_and_order(rt: HostRuntime) -> Result<(), Fail> {
    let all = map(rt.alloc(), &PAIRS)?;
    let same = map(rt.alloc(), &PAIRS)?;
    let other = map(rt.alloc(), &TURNED)?;
    assert!(rt; are_reported_apart(&all, &same, &other));
    Ok(())
}

fn values(alloc: Global) -> Result<[Value; 19], Error> {
    let one = String::from_str(alloc, "1")?;
    let bytes = vec![in alloc; 49u8]?;
    let items = vec![in alloc; Value::I64(1)]?;
    let pairs = map(alloc, &PAIRS)?;
    Ok([
        Value::Undefined,
        Value::None,
        Value::Bool(true),
        Value::Bool(false),
        Value::I64(1),
        Value::I64(i64::MIN),
        Value::U64(1),
        Value::U64(u64::MAX),
        Value::I128(1),
        Value::I128(i128::MIN),
        Value::U128(1),
        Value::U128(u128::MAX),
        Value::String(one),
        Value::String(String::new(alloc)),
        Value::Bytes(bytes),
        Value::Array(items),
        Value::Array(Vec::new(alloc)),
        Value::Map(pairs),
        Value::Map(Map::new(alloc)),
    ])
}

const LEAST: &str = "-170141183460469231731687303715884105728";

const MOST: &str = "340282366920938463463374607431768211455";

const LEAST_OF_I64: &str = "-9223372036854775808";

const MOST_OF_U64: &str = "18446744073709551615";

// For each of the values: the name of its kind, what its tests give, its text, and a part of its `Debug` text.
const EXPECTED: [[&str; 4]; 19] = [
    ["undefined", "u", "undefined", "Undefined"],
    ["none", "0", "null", "None"],
    ["bool", "b", "true", "Bool(true)"],
    ["bool", "b", "false", "Bool(false)"],
    ["i64", "n", "1", "I64(1)"],
    ["i64", "n", LEAST_OF_I64, "I64(-"],
    ["u64", "n", "1", "U64(1)"],
    ["u64", "n", MOST_OF_U64, "U64("],
    ["i128", "n", "1", "I128(1)"],
    ["i128", "n", LEAST, "I128("],
    ["u128", "n", "1", "U128(1)"],
    ["u128", "n", MOST, "U128("],
    ["string", "s", "1", "String("],
    ["string", "s", "", ""],
    ["bytes", "y", "<bytes>", "Bytes("],
    ["array", "a", "[1]", "Array("],
    ["array", "a", "[]", ""],
    ["map", "mp", r#"{"a": 1, "b": 2}"#, "Map("],
    ["map", "mp", "{}", ""],
];

// What is asked of a value, one letter for each yes.
fn answers(alloc: Global, value: &Value) -> Result<String, AllocError> {
    let mut all = String::new(alloc);
    for (yes, letter) in [
        (value.is_undefined(), "u"),
        (value.is_none(), "0"),
        (value.is_bool(), "b"),
        (value.is_number(), "n"),
        (value.is_string(), "s"),
        (value.is_bytes(), "y"),
        (value.is_array(), "a"),
        (value.is_map(), "m"),
        (value.as_map().is_some(), "p"),
    ] {
        if yes {
            all.push_str(letter)?;
        }
    }
    Ok(all)
}

fn answers_as(alloc: Global, value: &Value, name: &str, letters: &str) -> Result<bool, AllocError> {
    let answers = answers(alloc, value)?;
    Ok(value.name() == name && value.kind().name() == name && answers.as_str() == letters)
}

fn shows(alloc: Global, value: &Value, text: &str, part: &str) -> Result<bool, AllocError> {
    let shown = format!(in alloc; "{value}")?;
    let reported = format!(in alloc; "{value:?}")?;
    Ok(shown.as_str() == text && reported.as_str().contains(part))
}

#[test]
fn kinds_and_texts_of_values(rt: HostRuntime) -> Result<(), Fail> {
    for (value, [name, letters, text, part]) in values(rt.alloc())?.iter().zip(&EXPECTED) {
        assert!(rt; answers_as(rt.alloc(), value, name, letters)?, "{name}");
        assert!(rt; shows(rt.alloc(), value, text, part)?, "{text}");
    }
    assert!(rt; Value::U128(1).kind() == ValueKind::U128);
    Ok(())
}

fn is_copied(value: &Value) -> Result<bool, AllocError> {
    Ok(value.clone()? == *value)
}

#[test]
fn values_equal_their_copies_alone(rt: HostRuntime) -> Result<(), Fail> {
    let all = values(rt.alloc())?;
    for (i, a) in all.iter().enumerate() {
        assert!(rt; is_copied(a)?, "{i}");
        for (j, b) in all.iter().enumerate() {
            let is_same = i == j;
            assert!(rt;
                (a == b) == is_same && laws::same_value(a, b) == is_same,
                "{i} {j}"
            );
        }
    }
    Ok(())
}

fn keeps_the_last(context: &Context) -> bool {
    context.get("b") == Some(&Value::I64(2))
        && context.get("c") == None
        && context.iter().count() == 2
}

#[test]
fn a_context_keeps_what_was_put_last(rt: HostRuntime) -> Result<(), Fail> {
    let mut context = Context::new(rt.alloc());
    context.insert_value("b", Value::I64(1))?;
    context.insert_value("a", Value::Bool(true))?;
    context.insert_value("b", Value::I64(2))?;
    assert!(rt; keeps_the_last(&context));
    Ok(())
}
