//! The addresses of pages.
use cmdcodec::PageRun;
use regions::{Addresses, Pages};

#[test]
fn bytes_of_pages(rt: HostRuntime) {
    let all = Addresses {
        first: 0,
        last: u64::MAX,
    };
    assert_eq!(rt; Pages::Every.addresses(), all);
    let last_page = Addresses {
        first: 0xffff_ffff_ffff_f000,
        last: u64::MAX,
    };
    let run = PageRun {
        first: (1 << 52) - 1,
        end: 1 << 52,
    };
    assert_eq!(rt; Pages::Run(run).addresses(), last_page);
    let two = Addresses {
        first: 0x8000,
        last: 0x9fff,
    };
    let run = PageRun { first: 8, end: 10 };
    assert_eq!(rt; Pages::Run(run).addresses(), two);
}
