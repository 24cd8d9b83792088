//! The caller that the README of invalidations shows.
use batch::Batch;
use cmdcodec::{Asid, Granule, Vmid};
use invalidations::{
    Body, ByteRange, Bytes, Commands, Entries, Gather, InvalidationFault, Level, Policy, Space,
};
use smmu_features::Smmu;

#[test]
fn two_unmapped_buffers(rt: HostRuntime) -> Result<(), InvalidationFault> {
    let smmu = Smmu::from_registers(0x603, 0, 0x400, 0x70);
    // As Linux: 512 commands at most, and no page is global.
    let policy = Policy {
        most_commands: 512,
        global_pages: false,
    };
    let space = Space::Stage1 {
        vmid: Vmid::new(1).expect(&rt, "16 bits"),
        asid: Some(Asid::new(2).expect(&rt, "16 bits")),
    };
    let pages = Entries::Leaves {
        level: Some(Level::Three),
    };
    let mut gather = Gather::new(space, Granule::Kib4, pages);
    for first in [0x10_0000, 0x10_8000] {
        let length = 0x8000;
        gather.add(&Bytes::Range(ByteRange { first, length }))?;
    }
    // They are neighbours: 16 pages.
    let invalidation = gather.take().expect(&rt, "gathered");
    let mut commands = Commands::new(&invalidation, &smmu, &policy)?;
    let mut body = Body::new();
    commands.fill(&mut body);
    let batch = Batch::from_raws(body.as_slice())
        .ok()
        .expect(&rt, "1 to 63 commands");
    // TG 1, TTL 3, SCALE 4, NUM 0, Leaf 1.
    assert_eq!(rt; batch.as_slice()[0].lo, 0x0002_0001_0040_0012);
    assert_eq!(rt; batch.as_slice()[0].hi, 0x10_0701);
    assert!(rt; batch.len() == 1 && gather.take().is_none());
    Ok(())
}
