//! The end of a link that receives.
use ami_text::MemorySource;
use link_keys::Key;
use site_peers::LinkInlet;

#[test]
fn an_inlet_gives_back_what_acknowledges_its_bytes(rt: HostRuntime) {
    let key = Key::of_secret(b"correct horse battery staple 123");
    let source = MemorySource::new(b"", 7);
    let inlet = LinkInlet::new(rt.alloc(), key, source, 5u32);
    assert!(rt; inlet.fault().is_none());
    assert!(rt; inlet.into_acknowledger() == 5);
}
