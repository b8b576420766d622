//! Numbers of bytes and of milliseconds.
use site_peers::{
    BackOff, DialEnd, ItemTime, Lag, LagStep, MOST_AHEAD, ReadCount, Window, WindowFault,
};

#[test]
fn a_window_has_room_for_256_kib_and_reads_are_acknowledged_in_time(rt: HostRuntime) {
    let mut window = Window::new();
    assert!(rt; MOST_AHEAD == 262_144 && window.room() == 262_144);
    window.write(262_144);
    assert!(rt; window.room() == 0);
    assert!(rt; window.acknowledge(262_145) == Err(WindowFault::NotWritten));
    assert!(rt; window.acknowledge(65_536) == Ok(()));
    assert!(rt; window.acknowledge(65_535) == Err(WindowFault::WentBack));
    assert!(rt; window.room() == 65_536);
    drop(window);
    let mut count = ReadCount::new(5_000);
    assert!(rt; count.after_read(20, 5_899) == None);
    assert!(rt; count.after_read(20, 5_900) == Some(40));
    assert!(rt; count.after_read(65_535, 5_901) == None);
    assert!(rt; count.after_read(1, 5_902) == Some(65_576));
    drop(count);
}

// A pause is half of 100, 200 and so on, and a random part. An item takes less than 60 seconds, or comes fast.
#[test]
fn pauses_and_items_have_their_times(rt: HostRuntime) {
    let mut pauses = BackOff::new();
    assert!(rt; pauses.pause(DialEnd::Failed, 0) == 50);
    assert!(rt; pauses.pause(DialEnd::Failed, 100) == 200);
    assert!(rt; pauses.pause(DialEnd::Refused, 7) == 5_000);
    assert!(rt; pauses.pause(DialEnd::Itself, 7) == 60_000);
    assert!(rt; pauses.pause(DialEnd::WasUp, 100) == 150);
    assert!(rt; pauses.pause(DialEnd::Failed, 0) == 100);
    drop(pauses);
    let mut time = ItemTime::new(1_000);
    assert!(rt; !time.after_read(1, 2_000));
    assert!(rt; time.after_read(1, 62_000));
    time.after_item(5);
    assert!(rt; !time.after_read(0, 121_999));
    assert!(rt; time.after_read(0, 122_000));
    assert!(rt; !time.after_read(480_000, 122_000));
    drop(time);
}

#[test]
fn a_whole_is_asked_for_each_5_seconds_until_one_is_taken(rt: HostRuntime) {
    let mut lag = Lag::new(true, 1_000);
    assert!(rt; lag.step(5_999) == LagStep::Wait);
    assert!(rt; lag.step(6_000) == LagStep::Ask);
    assert!(rt; lag.step(11_000) == LagStep::Ask);
    lag.give();
    lag.refuse();
    assert!(rt; lag.step(16_000) == LagStep::Ask);
    lag.give();
    assert!(rt; lag.step(20_999) == LagStep::Wait);
    assert!(rt; lag.step(21_000) == LagStep::CaughtUp);
    assert!(rt; lag.step(30_000) == LagStep::Wait);
    drop(lag);
}
