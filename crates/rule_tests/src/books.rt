// A book that is loaded, and asked about walks.
use policies::policy::Policy;
use rule_book::book::RuleBook;
use rule_tokens::fault::Fault;
use std::test::Fail;

#[test]
fn a_loaded_book_judges_walks(rt: HostRuntime) -> Result<(), Fail> {
    let heap = rt.alloc();
    let mut book = RuleBook::new(heap);
    book.load(
        heap,
        b"ban 1 seq[at 1 use 2 at 3] then to 3. need 2 from 1 then or[use 4 to 9].",
    )?;
    assert_eq!(rt; book.count(), 2);
    // at 1, use 2, at 3, from 1, use 4
    assert_eq!(rt; book.width(), 5);
    let start = book.depart(1);
    assert_eq!(rt; start, 0b01001);
    let direct = book.cross(start, 2, 3);
    assert_eq!(rt; direct, 0b01111);
    assert!(rt; !book.may_end(direct, 3));
    assert!(rt; book.may_end(direct, 9));
    let around = book.cross(book.cross(start, 4, 5), 6, 3);
    assert_eq!(rt; around, 0b11001);
    assert!(rt; book.may_end(around, 3));
    Ok(())
}

#[test]
fn a_refused_text_keeps_the_book(rt: HostRuntime) -> Result<(), Fail> {
    let heap = rt.alloc();
    let mut book = RuleBook::new(heap);
    book.load(heap, b"ban 3 at 1 then use 2.")?;
    assert_eq!(rt;
        book.load(heap, b"ban 3 at 1 then use 2"),
        Err(Fault::Order(21))
    );
    assert_eq!(rt; (book.count(), book.width()), (1, 2));
    Ok(())
}
