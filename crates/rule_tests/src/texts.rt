// Texts, and what a book says of them: its rules, or the fault.
use rule_exprs::expr::{Expr, Place};
use rule_text::book::Book;
use rule_text::rule::RuleKind;
use rule_tokens::fault::Fault;
use std::alloc::{AllocError, Global};
use std::process::Abort;
use std::test::Fail;

// The fault of a text, if it has one.
fn fault(heap: Global, text: &[u8]) -> Option<Fault> {
    let mut book = Book::new(heap);
    book.load(heap, text).err()
}

// A text and what is found wrong with it.
const TEXTS: [(&str, Option<Fault>); 48] = [
    ("ban 0 at 1 then at 2.", Some(Fault::Value(4))),
    ("need 1 and[at 1] then at 2.", Some(Fault::Order(15))),
    ("ban 7 at 1 then at 2", Some(Fault::Order(20))),
    ("", None),
    ("\n\n ", None),
    ("ban 7 at 1 then at 2.", None),
    ("\nban\n7 at\n\n1 then at 2 .\n\n", None),
    ("ban7at1then at2.need8to0then use4095.", None),
    ("ban7at1thenat2.", Some(Fault::Order(7))),
    ("ban 1 at 1 then at 2.\tban", Some(Fault::Token(21))),
    ("Ban 1 at 1 then at 2.", Some(Fault::Token(0))),
    ("ban 1 at 1 then at 2!", Some(Fault::Token(20))),
    ("ban 01 at 1 then at 2.", Some(Fault::Token(4))),
    ("ban 00 at 1 then at 2.", Some(Fault::Token(4))),
    ("ban 123456 at 1 then at 2.", Some(Fault::Token(4))),
    ("ban 99999 at 1 then at 2.", Some(Fault::Value(4))),
    ("ban 10000 at 1 then at 2.", Some(Fault::Value(4))),
    ("ban 9999 at 0 then use 0.", None),
    ("ban 1 at 1023 then from 1023.", None),
    ("ban 1 at 1024 then at 2.", Some(Fault::Value(9))),
    ("ban 1 use 4096 then at 2.", Some(Fault::Value(10))),
    ("ban 1 to 1024 then at 2.", Some(Fault::Value(9))),
    (
        "ban 1 at 1 then at 2. need 1 at 1 then at 1.",
        Some(Fault::Value(27)),
    ),
    ("ban 1 at 1 then at 2. ban 2 at 1 then at 1.", None),
    ("ban", Some(Fault::Order(3))),
    ("ban ban", Some(Fault::Order(4))),
    ("ban 1 then at 2.", Some(Fault::Order(6))),
    ("ban 1 it 1 then at 2.", Some(Fault::Order(6))),
    ("ban 1 at 1 at 2.", Some(Fault::Order(11))),
    ("ban 1 at 1 then at 2 ban", Some(Fault::Order(21))),
    ("at 1", Some(Fault::Order(0))),
    (".", Some(Fault::Order(0))),
    ("ban 1 not at 1 then at 2.", Some(Fault::Order(10))),
    ("ban 1 not[at 1 at 2] then at 2.", Some(Fault::Order(15))),
    ("ban 1 not[] then at 2.", Some(Fault::Order(10))),
    ("ban 1 not[at 1] then or[at 1 at 2].", None),
    ("ban 1 seq[at 1] then at 2.", Some(Fault::Order(14))),
    ("ban 1 seq[at 1 use 2] then at 2.", None),
    ("ban 1 seq[at 1 to 2] then at 2.", Some(Fault::Order(15))),
    (
        "ban 1 seq[at 1 seq[at 1 at 2]] then at 2.",
        Some(Fault::Order(15)),
    ),
    (
        "ban 1 or[to 1 to 1 to 1 to 1 to 1 to 1 to 1 to 1] then at 2.",
        None,
    ),
    (
        "ban 1 or[to 1 to 1 to 1 to 1 to 1 to 1 to 1 to 1 to 1] then at 2.",
        Some(Fault::Order(49)),
    ),
    (
        "ban 1 or[to 1 to 1 to 1 to 1 to 1 to 1 to 1 to 1 7] then at 2.",
        Some(Fault::Order(49)),
    ),
    (
        "ban 1 seq[at 1 at 1 at 1 at 1 at 1 at 1 at 1 at 1 at 1] then at 2.",
        Some(Fault::Order(50)),
    ),
    (
        "ban 1 not[not[not[not[not[not[not[at 1]]]]]]] then at 2.",
        None,
    ),
    (
        "ban 1 not[not[not[not[not[not[not[not[at 1]]]]]]]] then at 2.",
        Some(Fault::Limit(37)),
    ),
    (
        "ban 1 not[not[not[not[not[not[seq[at 1 at 2]]]]]]] then at 2.",
        None,
    ),
    (
        "ban 1 not[not[not[not[not[not[not[seq[at 1 at 2]]]]]]]] then at 2.",
        Some(Fault::Limit(37)),
    ),
];

#[test]
fn texts_are_judged(rt: HostRuntime) {
    for (text, wrong) in TEXTS {
        assert_eq!(rt; fault(rt.alloc(), text.as_bytes()), wrong, "{}", text);
    }
}

// The first text is accepted, and the second is beyond a limit from this place on.
fn is_limited(rt: &impl Abort, heap: Global, most: &[u8], over: &[u8], place: usize) {
    assert_eq!(rt; fault(heap, most), None);
    assert_eq!(rt; fault(heap, over), Some(Fault::Limit(place)));
}

// A text of this many rules, each with two unmarked expressions.
fn rules(heap: Global, count: u16) -> Result<String, AllocError> {
    let mut text = String::new(heap);
    for n in 1..=count {
        let rule = format!(in heap; "ban {n} to 1 then to 2.\n")?;
        text.push_str(rule.as_str())?;
    }
    Ok(text)
}

#[test]
fn rules_are_limited(rt: HostRuntime) -> Result<(), Fail> {
    let heap = rt.alloc();
    let most = rules(heap, 16)?;
    let over = rules(heap, 17)?;
    is_limited(&rt, heap, most.as_bytes(), over.as_bytes(), most.len());
    let then_wrong = format!(in heap; "{most}then")?;
    assert_eq!(rt;
        fault(heap, then_wrong.as_bytes()),
        Some(Fault::Order(most.len()))
    );
    Ok(())
}

// Seven brackets of eight and seven or eight: 63 or 64 expressions, and one more.
const SEVEN: &str = "to 1 to 1 to 1 to 1 to 1 to 1 to 1";

#[test]
fn expressions_are_limited(rt: HostRuntime) -> Result<(), Fail> {
    let heap = rt.alloc();
    let eight = format!(in heap; "or[{SEVEN} to 1]")?;
    let six = format!(in heap; "{eight}{eight}{eight}{eight}{eight}{eight}")?;
    let most = format!(in heap; "need 1 and[{six}or[{SEVEN}]] then to 2.")?;
    let condition = format!(in heap; "need 1 and[{six}{eight}] then ")?;
    let over = format!(in heap; "{condition}to 2.")?;
    is_limited(&rt, heap, most.as_bytes(), over.as_bytes(), condition.len());
    Ok(())
}

#[test]
fn marked_terms_are_limited(rt: HostRuntime) -> Result<(), Fail> {
    let heap = rt.alloc();
    let eight = "at 1 use 2 at 3 use 4 at 5 use 6 at 7 use 8";
    let most = format!(in heap; "ban 1 seq[{eight}] then or[{eight}].")?;
    let unmarked = format!(in heap; "{most} ban 2 to 1 then to 2.")?;
    assert_eq!(rt; fault(heap, unmarked.as_bytes()), None);
    let over = format!(in heap; "{most} ban 2 from 1 then to 2.")?;
    is_limited(&rt, heap, most.as_bytes(), over.as_bytes(), most.len() + 7);
    Ok(())
}

#[test]
fn bytes_are_limited(rt: HostRuntime) {
    let heap = rt.alloc();
    let blanks = [b' '; 4097];
    is_limited(&rt, heap, &blanks[0..4096], &blanks, 4096);
    let unknown = [b'?'; 4097];
    assert_eq!(rt; fault(heap, &unknown), Some(Fault::Limit(4096)));
    assert_eq!(rt; fault(heap, &unknown[0..4096]), Some(Fault::Token(0)));
}

#[test]
fn trees_are_built(rt: HostRuntime) -> Result<(), Fail> {
    let heap = rt.alloc();
    let mut book = Book::new(heap);
    book.load(
        heap,
        b"ban 3 and[from 5 not[use 6]] then seq[at 7 use 8].\nneed 12 to 1 then at 2.",
    )?;
    let [first, second] = book.rules() else {
        return Err(Fail::new("two rules"));
    };
    assert_eq!(rt; (first.kind, first.number), (RuleKind::Ban, 3));
    assert_eq!(rt; (second.kind, second.number), (RuleKind::Need, 12));
    let Expr::And(members) = &first.condition else {
        return Err(Fail::new("and"));
    };
    let [Expr::From(5), Expr::Not(_)] = members.as_slice() else {
        return Err(Fail::new("from 5 and not"));
    };
    let Expr::Seq(places) = &first.consequence else {
        return Err(Fail::new("seq"));
    };
    assert_eq!(rt; places.first(), Some(&Place::At(7)));
    Ok(())
}

#[test]
fn a_refused_text_changes_nothing(rt: HostRuntime) -> Result<(), Fail> {
    let heap = rt.alloc();
    let mut book = Book::new(heap);
    assert_eq!(rt; book.rules().len(), 0);
    book.load(heap, b"ban 3 at 1 then at 2. need 4 at 1 then at 2.")?;
    assert_eq!(rt; book.rules().len(), 2);
    assert!(rt;
        book.load(heap, b"ban 5 at 1 then at 2. ban 5 at 1 then at 2.")
            .is_err()
    );
    assert_eq!(rt; book.rules().len(), 2);
    book.load(heap, b"")?;
    assert_eq!(rt; book.rules().len(), 0);
    Ok(())
}
