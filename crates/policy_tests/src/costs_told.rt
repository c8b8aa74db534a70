// Kinds of cost at their edges.
use costs::climb::Climb;
use costs::cost::Cost;
use costs::seconds::Seconds;
use streets::arc::Weight;

fn weight(seconds: u16, climb: u16) -> Weight {
    Weight {
        seconds,
        climb,
        toll: 0,
    }
}

#[test]
fn seconds(rt: HostRuntime) {
    assert_eq!(rt; Seconds::LETTER, b's');
    assert_eq!(rt; Seconds::zero().told(), 0);
    assert_eq!(rt;
        Seconds::zero()
            .plus(weight(60, 400))
            .plus(weight(30, 0))
            .told(),
        90
    );
    let most = Seconds { value: 4294967295 };
    assert_eq!(rt; most.plus(weight(3600, 0)).told(), 4294967295);
    let near = Seconds { value: 4294966295 };
    assert_eq!(rt; near.plus(weight(999, 0)).told(), 4294967294);
    assert_eq!(rt; near.plus(weight(1000, 0)).told(), 4294967295);
    assert_eq!(rt; near.plus(weight(1001, 0)).told(), 4294967295);
    assert!(rt; near.at_most(most) && !most.at_most(near) && most.at_most(most));
}

#[test]
fn climb(rt: HostRuntime) {
    assert_eq!(rt; Climb::LETTER, b'c');
    assert_eq!(rt; Climb::zero().told(), 0);
    let steep = Climb::zero().plus(weight(3600, 80)).plus(weight(0, 10));
    assert_eq!(rt; steep.told(), 80);
    assert_eq!(rt; steep.plus(weight(0, 400)).told(), 400);
    let flat = Climb::zero().plus(weight(9, 0));
    assert!(rt; flat.at_most(steep) && !steep.at_most(flat) && flat.at_most(Climb::zero()));
}
