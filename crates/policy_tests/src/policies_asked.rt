// Policies at their edges.
use crate::nested::all_permit;
use crate::walk::{is_permitted, word_after};
use policies::pair::Pair;
use policies::policy::Policy;
use policies::step::Step;
use policies::stops::Stops;
use std::test::Fail;

const SIXTEEN: [usize; 16] = [1, 2, 3, 4, 5, 6, 7, 8, 9, 10, 11, 12, 13, 14, 15, 16];

// From point to point, up to the last.
fn along(points: &[usize; 16]) -> [Step; 16] {
    points.map(|head| Step { number: 0, head })
}

fn stops(points: &[usize]) -> Result<Stops, Fail> {
    Stops::new(points).ok_or_else(|| Fail::new("more than sixteen doorsteps"))
}

#[test]
fn doorsteps(rt: HostRuntime) -> Result<(), Fail> {
    let none = stops(&[])?;
    assert_eq!(rt; none.width(), 0);
    assert!(rt; is_permitted(&none, 7, &[]));
    let two = stops(&[2, 5])?;
    let by_five = [Step { number: 1, head: 5 }, Step { number: 2, head: 3 }];
    assert_eq!(rt; word_after(&two, 0, &by_five), 2);
    assert!(rt; !is_permitted(&two, 0, &by_five));
    // the departure counts
    assert_eq!(rt; two.depart(2), 1);
    assert!(rt; is_permitted(&two, 2, &by_five));
    // a word that is too wide
    assert_eq!(rt; two.cross(4, 1, 5), 0);
    assert!(rt; !two.may_end(7, 5));
    assert!(rt; Stops::new(&[0; 17]).is_none());
    Ok(())
}

#[test]
fn one_doorstep_twice(rt: HostRuntime) -> Result<(), Fail> {
    let both = stops(&[4, 4])?;
    assert_eq!(rt; both.width(), 2);
    assert_eq!(rt; both.depart(4), 3);
    assert!(rt; is_permitted(&both, 0, &[Step { number: 9, head: 4 }]));
    Ok(())
}

#[test]
fn widths(rt: HostRuntime) -> Result<(), Fail> {
    let sixteen = stops(&SIXTEEN)?;
    let one = stops(&[16])?;
    let steps = along(&SIXTEEN);
    let full = Pair {
        first: sixteen,
        second: &sixteen,
    };
    assert_eq!(rt; full.width(), 32);
    assert_eq!(rt; word_after(&full, 0, &steps), 4294967295);
    assert!(rt; is_permitted(&full, 0, &steps));
    assert!(rt; !is_permitted(&full, 0, &steps[1..]));
    let seventeen = Pair {
        first: one,
        second: sixteen,
    };
    assert_eq!(rt; seventeen.width(), 17);
    // the second's word stands above the first's
    assert_eq!(rt; seventeen.depart(2), 4);
    assert_eq!(rt; seventeen.depart(16), 65537);
    let wide = Pair {
        first: &seventeen,
        second: sixteen,
    };
    assert_eq!(rt; wide.width(), 33);
    assert_eq!(rt; wide.depart(1), 0);
    assert_eq!(rt; wide.cross(0, 0, 1), 0);
    assert!(rt; !wide.may_end(0, 16) && !is_permitted(&wide, 0, &steps));
    Ok(())
}

#[test]
fn pair_of_pairs(rt: HostRuntime) -> Result<(), Fail> {
    let steps = along(&SIXTEEN);
    let sixteen = stops(&SIXTEEN)?;
    let others = stops(&[3, 4])?;
    assert!(rt; all_permit(others, others, others, &sixteen, 0, &steps));
    assert!(rt; !all_permit(others, stops(&[99])?, others, &sixteen, 0, &steps));
    assert!(rt; !all_permit(others, others, sixteen, &sixteen, 0, &steps));
    Ok(())
}
