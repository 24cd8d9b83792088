//! Changes whose commands aren't made.
use crate::detachment_tests::making::{POLICY, bare, bytes, nesting, smmu, stage_2};
use cmdcodec::Vmid;
use detachment::{ChangeFault, Stage2Change};
use invalidations::{Invalidation, Space};

#[test]
fn of_stage_2(rt: HostRuntime) {
    let vmid = Vmid::new(0x21).expect(&rt, "16 bits");
    let change = stage_2(vmid, bytes(0x10_0000, 0x1000));
    let fault = Stage2Change::new(&change, &smmu(), &POLICY).err();
    assert_eq!(rt; fault, Some(ChangeFault::Unsupported));
    let none = stage_2(vmid, bytes(0x10_0000, 0));
    let fault = Stage2Change::new(&none, &nesting(), &POLICY).err();
    assert_eq!(rt; fault, Some(ChangeFault::NoByte));
    let past = stage_2(vmid, bytes(1 << 52, 1));
    let fault = Stage2Change::new(&past, &nesting(), &POLICY).err();
    assert_eq!(rt; fault, Some(ChangeFault::PastEnd));
    assert!(rt; Stage2Change::new(&change, &bare(), &POLICY).is_ok());
}

#[test]
fn of_stage_1(rt: HostRuntime) {
    let vmid = Vmid::new(0x21).expect(&rt, "16 bits");
    let change = Invalidation {
        space: Space::Stage1 { vmid, asid: None },
        ..stage_2(vmid, bytes(0x10_0000, 0x1000))
    };
    let fault = Stage2Change::new(&change, &nesting(), &POLICY).err();
    assert_eq!(rt; fault, Some(ChangeFault::OtherStage));
}
