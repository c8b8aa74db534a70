// A yard of two rows and three columns, with closures over it.
use streets::arc::{Arc, Weight};
use streets::closures::ClosureLayer;
use streets::grid::GridMap;
use streets::map::Map;
use streets::refusal::Refusal;

// Point, slot, and the head that the slot leads to.
const HEADS: [(usize, usize, Option<u16>); 8] = [
    (1, 0, Some(2)),
    (1, 1, Some(4)),
    (1, 2, Some(0)),
    (1, 3, None),
    (2, 0, None),
    (5, 3, Some(2)),
    (5, 4, None),
    (6, 0, None),
];

// An arc of the yard: they all take 20 seconds.
fn arc(number: u16, head: u16, climb: u16) -> Arc {
    Arc {
        number,
        head,
        weight: Weight {
            seconds: 20,
            climb,
            toll: 0,
        },
    }
}

#[test]
fn yard_leads_to_neighbours(rt: HostRuntime) {
    let yard = GridMap::new(2, 3, 20, 7);
    for (point, slot, head) in HEADS {
        assert_eq!(rt; yard.slot(point, slot).map(|arc| arc.head), head);
    }
    assert_eq!(rt; [yard.points(), yard.slots(5), yard.slots(6)], [6, 4, 0]);
    assert_eq!(rt; yard.slot(5, 3), Some(arc(23, 2, 7)));
    assert_eq!(rt; yard.slot(2, 1), Some(arc(9, 5, 0)));
}

// Rows, columns, seconds, climb, and how many points that makes.
const YARDS: [(usize, usize, usize, usize, usize); 6] = [
    (32, 32, 3600, 400, 1024),
    (0, 3, 1, 1, 0),
    (33, 1, 1, 1, 0),
    (1, 33, 1, 1, 0),
    (1, 1, 3601, 1, 0),
    (1, 1, 1, 401, 0),
];

#[test]
fn yards_within_limits(rt: HostRuntime) {
    for (rows, columns, seconds, climb, points) in YARDS {
        assert_eq!(rt;
            GridMap::new(rows, columns, seconds, climb).points(),
            points
        );
    }
}

#[test]
fn layers_nest(rt: HostRuntime) {
    let yard = GridMap::new(2, 3, 20, 7);
    let mut lower = ClosureLayer::new(&yard);
    assert_eq!(rt; lower.shut(4), Ok(()));
    assert_eq!(rt; lower.shut(4096), Err(Refusal::ArcOutside));
    assert_eq!(rt; lower.reopen(5000), Err(Refusal::ArcOutside));
    assert_eq!(rt; Refusal::ArcOutside.number(), 4);
    let mut upper = ClosureLayer::new(&lower);
    for done in [upper.shut(5), upper.reopen(4), upper.reopen(5)] {
        assert_eq!(rt; done, Ok(()));
    }
    let _ = upper.shut(6);
    for (slot, head) in [(0, None), (1, Some(4)), (2, None)] {
        assert_eq!(rt; upper.slot(1, slot).map(|arc| arc.head), head);
    }
}
