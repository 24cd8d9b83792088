//! Random commands of a guest, in a world of few entries: what they cover is computed, and what the host's commands for them
//! cover.
use crate::guest_commands_tests::expecting::{full, guest, sid};
use caches::{Scope, Tag, covers};
use cmdcodec::{Asid, Command, Page, Raw, Sid, Ssid, Vmid, decode};
use guest_commands::Guest;
use smmu_features::Smmu;
use std::process::Abort;

/// Each opcode with masks of lo and hi, for fields of few values and a bit that has no field.
const KINDS: [(u64, u64, u64); 12] = [
    (0x05, 0x0000_0007_0010_3800, 0x3),
    (0x06, 0x0000_0007_0000_f800, 0x3),
    (0x10, 0x0000_0003_0000_0100, 0x3),
    (0x11, 0x0103_0003_0000_0100, 0x3),
    (0x12, 0x0103_0003_0030_3100, 0x0001_ff03),
    (0x12, 0x0103_0003_0030_3100, 0x0001_ff03),
    (0x13, 0x0103_0003_0030_3100, 0x0001_ff03),
    (0x30, 0x0000_0003_0000_0100, 0x3),
    (0x40, 0x0000_0007_0010_3a00, 0x0001_f047),
    (0x40, 0x0000_0007_0010_3a00, 0x0001_f047),
    (0x01, 0x0000_0007_0000_0000, 0x3),
    (0x46, 0x0000_0003_0000_3000, 0x3),
];

/// A linear congruential generator, mixed.
#[derive(Drop)]
struct Random {
    state: u64,
}

impl Random {
    fn next(&mut self) -> u64 {
        self.state = self
            .state
            .wrapping_mul(6364136223846793005)
            .wrapping_add(1442695040888963407);
        self.state ^ self.state >> 29
    }

    fn command(&mut self) -> Raw {
        let (opcode, lo, hi) = KINDS[(self.next() % 12) as usize];
        Raw {
            lo: self.next() & lo | opcode,
            hi: self.next() & hi,
        }
    }
}

/// Adds translations of some pages, alone and in blocks.
fn add_pages<R: AllocGlobal + Abort>(rt: &R, tags: &mut Vec<Tag>, vmid: Vmid, asid: Option<Asid>) {
    for (page, span) in [
        (0, 0),
        (1, 0),
        (2, 1),
        (4, 2),
        (8, 3),
        (16, 0),
        (20, 0),
        (24, 3),
    ] {
        let page = Page::new(page).expect(rt, "52 bits");
        let scope = match asid {
            None => Scope::Global,
            Some(asid) => Scope::Of(asid),
        };
        let tag = Tag::S1 {
            vmid,
            scope,
            page,
            span,
        };
        tags.push(tag).ok().expect(rt, "memory");
    }
}

/// Adds the translations of a virtual machine: global ones, and of two address spaces.
fn add_translations<R: AllocGlobal + Abort>(rt: &R, tags: &mut Vec<Tag>, vmid: u64) {
    let vmid = Vmid::new(vmid).expect(rt, "16 bits");
    add_pages(rt, tags, vmid, None);
    add_pages(rt, tags, vmid, Asid::new(1));
    add_pages(rt, tags, vmid, Asid::new(0x101));
}

/// Adds what an endpoint caches of some pages, with a SubstreamID or without.
fn add_endpoint<R: AllocGlobal + Abort>(rt: &R, tags: &mut Vec<Tag>, sid: Sid, ssid: Option<u64>) {
    for page in [0, 1, 17, 30] {
        let page = Page::new(page).expect(rt, "52 bits");
        let ssid = match ssid {
            None => None,
            Some(ssid) => Ssid::new(ssid),
        };
        let tag = Tag::Atc {
            sid,
            ssid,
            page,
            span: 0,
        };
        tags.push(tag).ok().expect(rt, "memory");
    }
}

/// Adds what is cached for a stream.
fn add_stream<R: AllocGlobal + Abort>(rt: &R, tags: &mut Vec<Tag>, stream: u64) {
    let sid = sid(rt, stream);
    add_endpoint(rt, tags, sid, None);
    for ssid in [0, 1, 2, 0x101] {
        add_endpoint(rt, tags, sid, Some(ssid));
        let ssid = Ssid::new(ssid).expect(rt, "20 bits");
        tags.push(Tag::Cd { sid, ssid }).ok().expect(rt, "memory");
    }
}

/// The guest's entries: of two of its virtual machines, and of streams that it has and one that it hasn't.
fn entries_of_the_guest<R: AllocGlobal + Abort>(rt: &R) -> Vec<Tag> {
    let mut tags = Vec::new(rt.alloc());
    add_translations(rt, &mut tags, 0);
    add_translations(rt, &mut tags, 1);
    add_stream(rt, &mut tags, 3);
    add_stream(rt, &mut tags, 4);
    add_stream(rt, &mut tags, 5);
    tags
}

/// Entries of the host that aren't the guest's: of two other virtual machines, of other streams, and of the endpoint
/// without ATS.
fn entries_of_others<R: AllocGlobal + Abort>(rt: &R) -> Vec<Tag> {
    let mut tags = Vec::new(rt.alloc());
    add_translations(rt, &mut tags, 0);
    add_translations(rt, &mut tags, 1);
    add_stream(rt, &mut tags, 3);
    add_stream(rt, &mut tags, 4);
    add_stream(rt, &mut tags, 0x102);
    add_stream(rt, &mut tags, 0x106);
    tags
}

/// Whether the command covers the entry.
fn is_covered(command: &Command, tag: &Tag) -> bool {
    tag.is_block() && covers(command, tag)
}

/// The streams of the host that a stream of the guest is, each with whether it has ATS.
fn hosts_of(stream: Sid) -> [Option<(u64, bool)>; 2] {
    match stream.get() {
        3 => [Some((0x103, true)), None],
        4 => [Some((0x104, true)), Some((0x105, false))],
        _ => [None, None],
    }
}

fn has_substream(smmu: &Smmu, ssid: Ssid) -> bool {
    match smmu.substream_bits {
        0 => ssid.get() == 0,
        8 => ssid.get() < 0x100,
        _ => true,
    }
}

/// Whether the host has entries with the tag's substream. Without stage 1 it has no context descriptors.
fn has_substream_of(smmu: &Smmu, tag: &Tag) -> bool {
    match *tag {
        Tag::Cd { ssid, .. } => smmu.stage_1 && has_substream(smmu, ssid),
        Tag::Atc {
            ssid: Some(ssid),
            ..
        } => { smmu.substream_bits > 0 && has_substream(smmu, ssid) }
        _ => true,
    }
}

/// What the guest's entry is on the host, by one of its streams there.
fn image<R: Abort>(rt: &R, smmu: &Smmu, tag: &Tag, host: (u64, bool)) -> Option<Tag> {
    if !has_substream_of(smmu, tag) {
        return None;
    }
    let sid = sid(rt, host.0);
    match *tag {
        Tag::Cd { ssid, .. } => Some(Tag::Cd { sid, ssid }),
        Tag::Atc {
            ssid,
            page,
            span,
            ..
        } => {
            let image = Tag::Atc {
                sid,
                ssid,
                page,
                span,
            };
            if host.1 && smmu.ats {
                Some(image)
            } else {
                None
            }
        }
        _ => None,
    }
}

/// What the guest's entry is on the host: nothing, one entry, or two.
fn images<R: Abort>(rt: &R, smmu: &Smmu, tag: &Tag) -> [Option<Tag>; 2] {
    match *tag {
        Tag::S1 {
            scope,
            page,
            span,
            ..
        } if smmu.stage_1 => {
            let vmid = Vmid::new(0x21).expect(rt, "16 bits");
            let image = Tag::S1 {
                vmid,
                scope,
                page,
                span,
            };
            [Some(image), None]
        }
        Tag::Cd { sid, .. } | Tag::Atc { sid, .. } => {
            let [first, second] = hosts_of(sid);
            let first = match first {
                Some(host) => image(rt, smmu, tag, host),
                None => None,
            };
            let second = match second {
                Some(host) => image(rt, smmu, tag, host),
                None => None,
            };
            [first, second]
        }
        _ => [None, None],
    }
}

fn is_covered_by_one(tag: &Tag, commands: &[Raw]) -> bool {
    for raw in commands {
        if let Ok(command) = decode(*raw) {
            if is_covered(&command, tag) {
                return true;
            }
        }
    }
    false
}

/// Whether each image of each entry that the command covers is covered.
fn is_complete<R: Abort>(
    rt: &R,
    smmu: &Smmu,
    command: &Command,
    own: &[Tag],
    commands: &[Raw],
) -> bool {
    for tag in own {
        if is_covered(command, tag) {
            for image in images(rt, smmu, tag) {
                if let Some(image) = image {
                    if !is_covered_by_one(&image, commands) {
                        return false;
                    }
                }
            }
        }
    }
    true
}

fn is_isolated(others: &[Tag], commands: &[Raw]) -> bool {
    for tag in others {
        if is_covered_by_one(tag, commands) {
            return false;
        }
    }
    true
}

fn are_legal(smmu: &Smmu, commands: &[Raw]) -> bool {
    for raw in commands {
        if smmu.judge(*raw).is_some() {
            return false;
        }
    }
    true
}

/// Judges 250,000 commands, and returns how many the host's are for them.
fn judge<R: AllocGlobal + Abort>(rt: &R, smmu: Smmu, seed: u64) -> u64 {
    let guest: Guest = guest(rt, smmu);
    let own = entries_of_the_guest(rt);
    let others = entries_of_others(rt);
    let mut random = Random { state: seed };
    let mut sent = 0u64;
    for _ in 0..250_000u32 {
        let raw = random.command();
        let converted = guest.convert_all(&[raw]);
        let commands = converted.commands();
        sent = sent.wrapping_add(commands.len() as u64);
        if converted.taken() == 1 {
            let command = decode(raw).ok().expect(rt, "legal");
            assert!(rt; is_complete(rt, &smmu, &command, own.as_slice(), commands));
            assert!(rt; is_isolated(others.as_slice(), commands) && are_legal(&smmu, commands));
        }
    }
    sent
}

#[test]
fn on_a_full_host(rt: HostRuntime) {
    assert!(rt; judge(&rt, full(), 1) > 100_000);
}

#[test]
fn on_a_poor_host(rt: HostRuntime) {
    // no ASID16, no substreams, no ranges
    assert!(rt; judge(&rt, Smmu::from_registers(0x403, 0x10, 0, 0x10), 2) > 100_000);
}

#[test]
fn on_a_host_with_16_kib_granules(rt: HostRuntime) {
    // no ASID16, no ATS
    assert!(rt; judge(&rt, Smmu::from_registers(0x3, 0x210, 0x400, 0x20), 3) > 100_000);
}

#[test]
fn on_a_host_without_stage_1(rt: HostRuntime) {
    // CMD_ATC_INV alone
    assert!(rt; judge(&rt, Smmu::from_registers(0x401, 0x210, 0x400, 0x70), 4) > 5_000);
}
