use script_reader::reader::read_script;
use script_reader::scripts::Script;
use std::alloc::Global;
use std::fmt::Write;
use std::process::Abort;
use std::test::Fail;

// A script in words, since tests keep their expected texts: `0` where it sets no capacity, and `-` where
// it names no kind of cost.
fn words_of(heap: Global, script: &Script) -> Result<String, Fail> {
    let Script {
        opening,
        capacity,
        cost,
        calls,
    } = script;
    let units = capacity.unwrap_or(0);
    let mut out = format!(in heap; "{opening}, {units}")?;
    match cost {
        Some(kind) => write!(out, ", {kind}")?,
        None => write!(out, ", -")?,
    }
    for call in calls {
        write!(out, ", {call}")?;
    }
    Ok(out)
}

// What is read of `text` is, in words, `words`.
fn reads_as(rt: &impl Abort, heap: Global, text: &[u8], words: &str) -> Result<(), Fail> {
    let read = match read_script(heap, text) {
        Ok(script) => words_of(heap, &script)?,
        Err(error) => error.to_string(heap)?,
    };
    assert_eq!(rt; read.as_str(), words);
    Ok(())
}

// A script and what is read of it.
const PAIRS: [(&str, &str); 28] = [
    (
        "# a shift\n\n \t map a/b.map \ncapacity 10\n#c\ncost c\nshut 1\n\treopen  0004\narcs 9999999999\n",
        "map a/b.map, 10, c, shut 1, reopen 4, arcs 9999999999",
    ),
    (
        "grid 2 3 20 10\r\ncost s\r\n\r\nshut 4",
        "grid 2 3 20 10, 0, s, shut 4",
    ),
    ("map a", "map a, 0, -"),
    (
        "map a\nshut 0\nshut 0000000042",
        "map a, 0, -, shut 0, shut 42",
    ),
    (
        "map a\nshut 00000000001",
        "line 2: a number has 1 to 10 digits",
    ),
    ("map a\nshut 12a", "line 2: a number has 1 to 10 digits"),
    ("map a\nshut +1", "line 2: a number has 1 to 10 digits"),
    (
        "",
        "line 1: no opening line in the script: expected `map FILE` or `grid ROWS COLUMNS SECONDS CLIMB`",
    ),
    (
        "# nothing\n\n",
        "line 3: no opening line in the script: expected `map FILE` or `grid ROWS COLUMNS SECONDS CLIMB`",
    ),
    (
        "\nshut 1\nmap a\n",
        "line 2: expected `map FILE` or `grid ROWS COLUMNS SECONDS CLIMB` as the first line",
    ),
    (
        "map a\ngrid 1 1 1 1\n",
        "line 2: `map` and `grid` stand only on the first line",
    ),
    (
        "map a\ncapacity 1\ncapacity 1",
        "line 3: `capacity` stands at most once, before `cost` and before any call",
    ),
    (
        "map a\ncost s\ncapacity 1",
        "line 3: `capacity` stands at most once, before `cost` and before any call",
    ),
    (
        "map a\nshut 1\ncapacity 1",
        "line 3: `capacity` stands at most once, before `cost` and before any call",
    ),
    (
        "map a\ncost s\ncost s",
        "line 3: `cost` stands at most once, before any call",
    ),
    (
        "map a\narcs 1\ncost c",
        "line 3: `cost` stands at most once, before any call",
    ),
    (
        "map a\nSHUT 1\nshut x\n",
        "line 2: unknown word: no line of a script begins so",
    ),
    ("map a b\n", "line 1: `map` takes one word: a file"),
    (
        "grid 1 2 3\n",
        "line 1: `grid` takes four numbers: rows, columns, seconds and climb",
    ),
    (
        "grid 1 2 3 4 5\n",
        "line 1: `grid` takes four numbers: rows, columns, seconds and climb",
    ),
    ("grid 1 two 3 4\n", "line 1: a number has 1 to 10 digits"),
    (
        "map a\ncapacity\n",
        "line 2: `capacity` takes one number: the units that fit aboard",
    ),
    (
        "map a\ncost m\n",
        "line 2: `cost` takes one word: `s` for seconds or `c` for climb",
    ),
    ("map a\nshut\n", "line 2: `shut` takes one number: an arc"),
    (
        "map a\nreopen 1 2\n",
        "line 2: `reopen` takes one number: an arc",
    ),
    ("map a\narcs\n", "line 2: `arcs` takes one number: a point"),
    (
        "map a\nshut 12345678901\n",
        "line 2: a number has 1 to 10 digits",
    ),
    ("map a\nshut 4\r", "line 2: a number has 1 to 10 digits"),
];

#[test]
fn reads_scripts(rt: HostRuntime) -> Result<(), Fail> {
    for (text, words) in PAIRS {
        reads_as(&rt, rt.alloc(), text.as_bytes(), words)?;
    }
    reads_as(
        &rt,
        rt.alloc(),
        b"map \xff",
        "line 1: the name of a file is text in UTF-8",
    )
}
