//! The caller that caches' README shows.
use caches::{CacheFault, Caches, Entry, Tag};
use cmdcodec::{Command, Sid, Ssid};

#[test]
fn what_is_cached_of_a_stream(rt: HostRuntime) -> Result<(), CacheFault> {
    let sid = Sid::new(5).expect(&rt, "32 bits");
    let ssid = Ssid::new(1).expect(&rt, "20 bits");
    let (stream, substream) = (Tag::Ste { sid }, Tag::Cd { sid, ssid });
    let mut caches = Caches::new(rt.alloc(), 64)?;
    let (value, born) = (70, 0);
    for tag in [stream, substream] {
        caches.fill(Entry { tag, value, born })?;
    }
    let leaf = true;
    // The context descriptor of the substream goes, and then the stream table entry.
    assert_eq!(rt; caches.apply(&Command::CfgiCd { sid, ssid, leaf }), 1);
    assert!(rt; caches.lookup(&substream).is_none());
    assert!(rt; caches.lookup(&stream).is_some());
    assert_eq!(rt; caches.apply(&Command::CfgiSte { sid, leaf }), 1);
    assert_eq!(rt; caches.len(), 0);
    Ok(())
}
