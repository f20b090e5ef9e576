//! Timers and chains at their edges.

use persist_timer::{after_service, armed, due_at, is_due, is_expired};

#[test]
fn a_timer_is_due_at_its_tick(rt: HostRuntime) {
    assert!(rt; due_at(0) == None && !is_due(0, 1000));
    assert!(rt; due_at(1) == Some(0) && is_due(1, 0));
    assert!(rt; !is_due(11, 9) && is_due(11, 10) && is_due(11, 11));
}

#[test]
fn a_timer_without_a_period_is_off_after_its_service(rt: HostRuntime) {
    assert!(rt; after_service(11, 0) == 0);
    assert!(rt; after_service(11, 10) == 21);
    assert!(rt; armed(5, 0) == 6 && armed(5, 10) == 16);
}

#[test]
fn a_chain_may_take_as_many_ticks_as_it_expires_after(rt: HostRuntime) {
    assert!(rt; !is_expired(20, 100, 120) && is_expired(20, 100, 121));
    assert!(rt; !is_expired(0, 100, 100) && is_expired(0, 100, 101));
}
