//! Tags that a region holds, and such that it just misses.
use crate::regions_tests::fields::{asid, region, vmid};
use caches::{Scope, Tag};
use cmdcodec::Page;
use regions::Region;
use std::process::Abort;

/// Whether the region holds the block of `2^span` pages that begins at a page, of VMID 1.
fn holds_block(rt: &impl Abort, region: &Region, scope: &Scope, page: u64, span: u8) -> bool {
    let vmid = vmid(rt, 1);
    let page = Page::new(page).expect(rt, "52 bits");
    let tag = Tag::S1 {
        vmid,
        scope: *scope,
        page,
        span,
    };
    assert!(rt; tag.is_block());
    region.holds(&tag)
}

#[test]
fn blocks_of_a_range(rt: HostRuntime) {
    // CMD_TLBI_NH_VA of VMID 1 and ASID 2, 32 pages from 0x10 on.
    let region = region(&rt, 0x0002_0001_0050_0012, 0x1_0401);
    let own = &Scope::Of(asid(&rt, 2));
    assert!(rt; holds_block(&rt, &region, own, 0x10, 0));
    assert!(rt; holds_block(&rt, &region, own, 0x2f, 0));
    assert!(rt; !holds_block(&rt, &region, own, 0xf, 0));
    assert!(rt; !holds_block(&rt, &region, own, 0x30, 0));
    assert!(rt; holds_block(&rt, &region, own, 0, 9));
}

#[test]
fn scopes(rt: HostRuntime) {
    let by_address = region(&rt, 0x0002_0001_0000_0012, 0x1_0001);
    let by_asid = region(&rt, 0x0002_0001_0000_0011, 0);
    let other = &Scope::Of(asid(&rt, 3));
    assert!(rt; holds_block(&rt, &by_address, &Scope::Global, 0x10, 0));
    assert!(rt; !holds_block(&rt, &by_asid, &Scope::Global, 0x10, 0));
    assert!(rt; !holds_block(&rt, &by_address, other, 0x10, 0));
    assert!(rt; !holds_block(&rt, &by_asid, other, 0x10, 0));
}
