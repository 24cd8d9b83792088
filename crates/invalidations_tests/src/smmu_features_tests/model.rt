//! An SMMU as an emulator has it.
use smmu_features::Smmu;

/// Stage 1 alone, ASIDs and VMIDs of 16 bits, ranges, three granules; SubstreamIDs of 8 bits, StreamIDs of 16.
pub fn emulated() -> Smmu {
    // IDR0: S1P 1, TTF 3:2 of 2, COHACC 4, ASID16 12, VMID16 18, TTENDIAN 22:21 of 2, STALL_MODEL 25:24 of 1,
    // TERM_MODEL 26, ST_LEVEL 28:27 of 1. IDR1: SIDSIZE 5:0, SSIDSIZE 10:6, CMDQS 25:21 of 19. IDR3: HAD 2, RIL 10,
    // BBML 12:11 of 2. IDR5: OAS 2:0 of 4, the granules 4, 5 and 6.
    Smmu::from_registers(0x0d44_101a, 0x0260_0210, 0x1404, 0x74)
}
