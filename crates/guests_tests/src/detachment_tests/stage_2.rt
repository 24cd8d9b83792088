//! A change of stage 2 beneath a nested stage 1, whose entries go behind it.
use crate::detachment_tests::making::{CHANGED, POLICY, bytes, nesting, stage_2};
use caches::{Caches, Scope, Tag};
use cmdcodec::{Asid, Page, Raw, Vmid};
use detachment::Stage2Change;
use engine::{Engine, RunAnswer};
use invalidations::Invalidation;
use ring::{Ring, RingFault};

#[test]
fn stage_1_behind_stage_2(rt: HostRuntime) -> Result<(), RingFault> {
    let (ring, mut senders, consumer) = Ring::new(rt.alloc(), 3, 1, 100)?;
    let sender = senders.pop().expect(&rt, "one sender");
    let caches = Caches::new(rt.alloc(), 8).expect(&rt, "1 to 65,536");
    let mut engine = Engine::new(consumer, caches);
    let vmid = Vmid::new(0x21).expect(&rt, "16 bits");
    let page = Page::new(0x100).expect(&rt, "52 bits");
    let parent = Tag::S2 {
        vmid,
        page,
        span: 0,
    };
    let scope = Scope::Of(Asid::new(5).expect(&rt, "16 bits"));
    let nested = Tag::S1 {
        vmid,
        scope,
        page,
        span: 0,
    };
    assert!(rt; engine.fill(parent, 70).is_ok());
    let change = Stage2Change::new(&stage_2(vmid, CHANGED), &nesting(), &POLICY)
        .ok()
        .expect(&rt, "the SMMU has stage 2");
    let Ok((mut sender, changing)) = change.send(&ring, sender, 1) else {
        panic!(rt; "the batch is refused");
    };
    let Err(changing) = changing.look(&ring, &mut sender) else {
        panic!(rt; "nothing is taken");
    };
    // Until then a translation of stage 1 may be made through the old one.
    assert!(rt; engine.fill(nested, 71).is_ok());
    let (count, removed) = (2, 1);
    assert_eq!(rt;
        engine.step_run(&ring, 64),
        RunAnswer::Applied { count, removed }
    );
    let Ok(changed) = changing.look(&ring, &mut sender) else {
        panic!(rt; "its CMD_SYNC is complete");
    };
    let behind = changed.stage_1().expect(&rt, "the SMMU has stage 1");
    let Ok((_sender, _receipt)) = sender.send(&ring, &behind, 1) else {
        panic!(rt; "the batch is refused");
    };
    let (count, removed) = (2, 1);
    assert_eq!(rt;
        engine.step_run(&ring, 64),
        RunAnswer::Applied { count, removed }
    );
    Ok(())
}

#[test]
fn words_of_a_change(rt: HostRuntime) {
    let vmid = Vmid::new(0x21).expect(&rt, "16 bits");
    let change = Stage2Change::new(&stage_2(vmid, CHANGED), &nesting(), &POLICY)
        .ok()
        .expect(&rt, "the SMMU has stage 2");
    // CMD_TLBI_S2_IPA with Leaf 1 of the page at 0x10_0000.
    let word = Raw {
        lo: 0x0000_0021_0000_002a,
        hi: 0x10_0001,
    };
    assert_eq!(rt; change.commands().as_slice(), &[word][..]);
}

#[test]
fn words_of_more_pages_than_a_batch_has_room_for(rt: HostRuntime) {
    let vmid = Vmid::new(0x21).expect(&rt, "16 bits");
    let many = Invalidation {
        bytes: bytes(0x10_0000, 64 * 0x1000),
        ..stage_2(vmid, CHANGED)
    };
    let change = Stage2Change::new(&many, &nesting(), &POLICY)
        .ok()
        .expect(&rt, "the SMMU has stage 2");
    // CMD_TLBI_S12_VMALL.
    let word = Raw {
        lo: 0x0000_0021_0000_0028,
        hi: 0,
    };
    assert_eq!(rt; change.commands().as_slice(), &[word][..]);
}
