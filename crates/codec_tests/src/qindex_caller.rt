//! The caller that qindex's README shows.
use qindex::{Control, Geometry, Index, advance_mask, close_mask};

#[test]
fn a_full_ring_of_four_slots(rt: HostRuntime) {
    let geometry = Geometry::new(2).expect(&rt, "1 to 19");
    // The last slot of the first lap, and a ring's length further on.
    let cons = Index::new(geometry, 3).expect(&rt, "below 8");
    let prod = cons.forward(4);
    assert_eq!(rt; (prod.place(), prod.wrap()), (3, true));
    assert!(rt; prod.is_full(cons));
    let closed = false;
    let word = Control { prod, cons, closed }.pack();
    assert_eq!(rt; word, 0x0000_0003_0000_0007);
    // Two commands are taken, and the ring is closed: each is one atomic operation.
    let word = (word ^ advance_mask(cons, cons.forward(2))) | close_mask();
    assert_eq!(rt; word, 0x0000_0005_8000_0007);
    let control = Control::unpack(geometry, word).expect(&rt, "a control");
    assert_eq!(rt; (control.prod_register(), control.cons_register(0)), (7, 5));
    assert_eq!(rt; control.prod.distance(control.cons), 2);
}
