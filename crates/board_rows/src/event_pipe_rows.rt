//! A pipe of three places, at each number of waiting items.

use event_pipe::{has_item, has_room, ring_at};

#[test]
fn a_pipe_at_each_fill_level(rt: HostRuntime) {
    assert!(rt; !has_item(7, 7) && has_room(3, 7, 7));
    assert!(rt; has_item(8, 7) && has_room(3, 8, 7));
    assert!(rt; has_item(9, 7) && has_room(3, 9, 7));
    assert!(rt; has_item(10, 7) && !has_room(3, 10, 7));
}

#[test]
fn items_go_round_the_ring(rt: HostRuntime) {
    assert!(rt; ring_at(100, 3, 6) == 100);
    assert!(rt; ring_at(100, 3, 7) == 101);
    assert!(rt; ring_at(100, 3, 8) == 102);
}
