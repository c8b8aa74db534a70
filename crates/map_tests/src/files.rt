// Files, cut or altered, and what the check and the map say of them.
use map_file::check::check;
use map_file::file::FileMap;
use std::alloc::{AllocError, Global};
use std::test::Fail;
use streets::arc::{Arc, Weight};
use streets::map::Map;
use streets::refusal::Refusal;

// 4 points and 6 arcs: the counts, the pairs, and a record a line: 0 to 1, 0 to 2, 1 to 3, 2 to 1, 2 to 3, 3 to 0.
const FOUR_POINTS: &[u8; 80] = b"\
    \x04\0\x06\0\
    \0\0\x02\0\x02\0\x01\0\x03\0\x02\0\x05\0\x01\0\
    \0\0\x01\0\x3c\0\0\0\0\0\
    \x01\0\x02\0\x1e\0\x50\0\0\0\
    \x02\0\x03\0\x28\0\x0a\0\0\0\
    \x03\0\x01\0\x14\0\0\0\0\0\
    \x04\0\x03\0\x5a\0\0\0\x96\0\
    \x05\0\0\0\x32\0\x14\0\0\0";

// The four points with the field at a place replaced.
fn altered(at: usize, field: [u8; 2]) -> [u8; 80] {
    let mut bytes = *FOUR_POINTS;
    if at < 79 {
        bytes[at..at + 2].copy_from_slice(&field);
    }
    bytes
}

#[test]
fn four_points_are_read(rt: HostRuntime) {
    assert_eq!(rt; check(FOUR_POINTS), Ok(()));
    assert_eq!(rt; FileMap::open(FOUR_POINTS).err(), None);
    let map = FileMap::new(FOUR_POINTS);
    assert_eq!(rt; (map.points(), map.slots(2), map.slots(4)), (4, 2, 0));
    let arc = Arc {
        number: 4,
        head: 3,
        weight: Weight {
            seconds: 90,
            climb: 0,
            toll: 150,
        },
    };
    assert_eq!(rt; map.slot(2, 1), Some(arc));
    assert_eq!(rt; (map.slot(2, 2), map.slot(4, 0)), (None, None));
}

// A field's place, the two bytes that replace it, and the refusal with its number and place.
const FAULTS: [(usize, [u8; 2], Refusal, u8, usize); 12] = [
    (0, [0, 0], Refusal::FileCounts, 12, 0),
    (0, [1, 4], Refusal::FileCounts, 12, 0),
    (2, [1, 16], Refusal::FileCounts, 12, 0),
    (0, [0, 4], Refusal::FileLength, 11, 0),
    (8, [3, 0], Refusal::PairOutOfLine(1), 13, 1),
    (18, [2, 0], Refusal::PairOutOfLine(4), 13, 4),
    (22, [4, 0], Refusal::RecordOutside(0), 14, 0),
    (34, [17, 14], Refusal::RecordOutside(1), 14, 1),
    (46, [145, 1], Refusal::RecordOutside(2), 14, 2),
    (58, [17, 39], Refusal::RecordOutside(3), 14, 3),
    (60, [0, 0], Refusal::NumberTaken(4), 15, 4),
    (70, [0, 16], Refusal::NumberTaken(5), 15, 5),
];

#[test]
fn faults_are_told(rt: HostRuntime) {
    for (at, field, refusal, number, place) in FAULTS {
        assert_eq!(rt; check(&altered(at, field)), Err(refusal));
        assert_eq!(rt; (refusal.number(), refusal.place()), (number, Some(place)));
    }
    assert_eq!(rt; check(&altered(70, [255, 15])), Ok(()));
}

#[test]
fn files_cut_short(rt: HostRuntime) {
    let short = Refusal::FileLength;
    assert_eq!(rt; (short.number(), short.place()), (11, Some(0)));
    for end in 0..80 {
        let file = &FOUR_POINTS[..end];
        assert_eq!(rt; check(file), Err(short));
        assert_eq!(rt; FileMap::open(file).err(), Some(short));
        assert_eq!(rt; FileMap::new(file).points(), 0);
    }
}

fn push_fields(bytes: &mut Vec<u8>, fields: &[u16]) -> Result<(), AllocError> {
    for field in fields {
        bytes.extend_from_slice(&field.to_le_bytes())?;
    }
    Ok(())
}

// As many points and arcs as there may be, every field at its limit.
fn largest(heap: Global) -> Result<Vec<u8>, AllocError> {
    let mut bytes = Vec::new(heap);
    push_fields(&mut bytes, &[1024, 4096])?;
    for p in 0..1024 {
        push_fields(&mut bytes, &[4 * p, 4])?;
    }
    for i in 0..4096 {
        push_fields(&mut bytes, &[4095 - i, 1023, 3600, 400, 10000])?;
    }
    Ok(bytes)
}

#[test]
fn largest_file(rt: HostRuntime) -> Result<(), Fail> {
    let bytes = largest(rt.alloc())?;
    assert_eq!(rt; (bytes.len(), check(&bytes)), (45060, Ok(())));
    let map = FileMap::new(&bytes);
    assert_eq!(rt; (map.points(), map.slots(1023)), (1024, 4));
    let arc = Arc {
        number: 0,
        head: 1023,
        weight: Weight {
            seconds: 3600,
            climb: 400,
            toll: 10000,
        },
    };
    assert_eq!(rt; map.slot(1023, 3), Some(arc));
    Ok(())
}
