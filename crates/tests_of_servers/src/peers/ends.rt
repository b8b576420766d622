//! Why a site ends.
use site_peers::{EndReason, Ending};
use std::time::Duration;

#[test]
fn a_hurry_ends_a_wait_and_the_first_reason_stays(rt: HostRuntime) {
    let ending = Ending::new();
    let hurries = ending.hurries(&rt);
    assert!(rt; !ending.wait_unhurried(&rt, Duration::ZERO, hurries));
    ending.hurry(&rt);
    assert!(rt; ending.hurries(&rt) != hurries);
    assert!(rt; !ending.wait_unhurried(&rt, Duration::from_secs(60), hurries));
    assert!(rt; ending.reason(&rt).is_none() && !ending.wait_within(&rt, Duration::ZERO));
    assert!(rt; ending.end(&rt, EndReason::NotMine));
    assert!(rt; !ending.end(&rt, EndReason::Asked));
    assert!(rt; ending.reason(&rt) == Some(EndReason::NotMine));
    assert!(rt; ending.wait_within(&rt, Duration::from_secs(60)));
    drop(ending);
}
