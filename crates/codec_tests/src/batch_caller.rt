//! The caller that batch's README shows.
use batch::{Batch, BatchFault, BorrowedBatch};
use cmdcodec::{Asid, Page, Raw, Vmid};

#[test]
fn an_unmapped_buffer(rt: HostRuntime) -> Result<(), BatchFault> {
    let vmid = Vmid::new(1).expect(&rt, "16 bits");
    let asid = Asid::new(2).expect(&rt, "16 bits");
    let page = Page::new(0x10).expect(&rt, "52 bits");
    let mut batch = Batch::range(vmid, asid, page, 33)?;
    // One page, and the 32 behind it: TG 1, SCALE 5, NUM 0.
    let one = Raw {
        lo: 0x0002_0001_0000_0012,
        hi: 0x1_0001,
    };
    let more = Raw {
        lo: 0x0002_0001_0050_0012,
        hi: 0x1_1401,
    };
    assert_eq!(rt; batch.as_slice(), &[one, more][..]);
    // A batch has no CMD_SYNC inside: the ring puts one behind it.
    let sync = Raw { lo: 0x46, hi: 0 };
    assert_eq!(rt; batch.push_raw(sync), Err(BatchFault::SyncInside));
    batch.invalidate_range(vmid, asid, page, 64)?;
    assert_eq!(rt; batch.len(), 3);
    // A batch of commands that stay where they are.
    let commands = [one, more];
    let borrowed = BorrowedBatch::new(&commands)?;
    assert_eq!(rt; (borrowed.len(), borrowed.get(1)), (2, Some(more)));
    assert_eq!(rt; batch.as_borrowed().as_slice(), batch.as_slice());
    assert!(rt; BorrowedBatch::new(&[sync]).is_err());
    Ok(())
}
