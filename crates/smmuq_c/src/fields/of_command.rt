//! The fields of a command.
ghost use Rattle.std.specs.Prelude.{◌≡◌, ◌<◌, ◌*◌, ◌^◌};
ghost use Rattle.cmdcodec.specs.Fields.{bit};
ghost use Rattle.cmdcodec.specs.Opcodes.{number_of};
ghost use Rattle.cmdcodec.specs.declared.command.Command.TheVariants.{CfgiSte, CfgiSteRange, CfgiCd, CfgiCdAll, TlbiNhAll, TlbiNhAsid, TlbiNhVa, TlbiNhVaa, TlbiEl2Asid, TlbiEl2Va, TlbiEl2Vaa, TlbiS12Vmall, TlbiS2Ipa, AtcInv, Kept, CmdSync};
ghost use Rattle.range_hints.specs.Hints.{ttl_number};
ghost use Rattle.smmuq_c.specs.Commands.{SaysCommand, SaysReach, by_page, fields_of, no_fields};

use crate::fields::Fields;
use cmdcodec::{
    Asid, Attr, Command, Cs, IpaPage, KeptRaw, Msh, MsiWord, Opcode, Page, Reach, Sid, Size, Ssid,
    StreamRange, Vmid,
};
use range_hints::Ttl;

impl From<Command> for Fields {
    fn from(command: Command) -> Fields
        ensures says { SaysCommand result command }
        ensures exactly { result ≡ fields_of command }
    {
        match command {
            Command::CfgiSte { sid, leaf } => Fields::cfgi_ste(sid, leaf),
            Command::CfgiSteRange { sid, range } => Fields::cfgi_ste_range(sid, range),
            Command::CfgiCd { sid, ssid, leaf } => Fields::cfgi_cd(sid, ssid, leaf),
            Command::CfgiCdAll { sid } => Fields::cfgi_cd_all(sid),
            Command::TlbiNhAll { vmid } => Fields::tlbi_nh_all(vmid),
            Command::TlbiNhAsid { vmid, asid } => Fields::tlbi_nh_asid(vmid, asid),
            Command::TlbiNhVa {
                vmid,
                asid,
                leaf,
                page,
                reach,
            } => Fields::tlbi_nh_va(vmid, asid, leaf, page, reach),
            Command::TlbiNhVaa {
                vmid,
                leaf,
                page,
                reach,
            } => Fields::tlbi_nh_vaa(vmid, leaf, page, reach),
            Command::TlbiEl2All => Fields::of(Opcode::TlbiEl2All),
            Command::TlbiEl2Asid { asid } => Fields::tlbi_el2_asid(asid),
            Command::TlbiEl2Va {
                asid,
                leaf,
                page,
                reach,
            } => Fields::tlbi_el2_va(asid, leaf, page, reach),
            Command::TlbiEl2Vaa { leaf, page, reach } => Fields::tlbi_el2_vaa(leaf, page, reach),
            Command::TlbiS12Vmall { vmid } => Fields::tlbi_s12_vmall(vmid),
            Command::TlbiS2Ipa {
                vmid,
                leaf,
                page,
                reach,
            } => Fields::tlbi_s2_ipa(vmid, leaf, page, reach),
            Command::TlbiNsnhAll => Fields::of(Opcode::TlbiNsnhAll),
            Command::AtcInv {
                sid,
                ssv,
                ssid,
                global,
                size,
                page,
            } => Fields::atc_inv(sid, ssv, ssid, global, size, page),
            Command::CmdSync {
                cs,
                msh,
                attr,
                data,
                address,
            } => Fields::cmd_sync(cs, msh, attr, data, address),
            Command::Kept(kept) => Fields::kept(kept),
        }
    }
}

impl Fields {
    const NONE: Fields = Fields {
        opcode: 0,
        sid: 0,
        ssid: 0,
        vmid: 0,
        asid: 0,
        leaf: 0,
        tg: 0,
        num: 0,
        scale: 0,
        ttl: 0,
        ssv: 0,
        global: 0,
        size: 0,
        cs: 0,
        msh: 0,
        attr: 0,
        data: 0,
        unused: 0,
        address: 0,
        lo: 0,
        hi: 0,
    };

    /// The fields of a command and its level hint.
    pub(crate) fn with_hint(command: Command, ttl: Ttl) -> Fields
        ensures command { SaysCommand result command }
        ensures exactly { result ≡ record (fields_of command) { ttl = result.ttl } }
        ensures hint { result.ttl ≡ ttl_number ttl }
    {
        Fields {
            ttl: u32::from(ttl.get()),
            ..Fields::from(command)
        }
    }

    fn of(opcode: Opcode) -> Fields
        ensures { result ≡ record no_fields { opcode = number_of opcode } }
    {
        Fields {
            opcode: opcode as u32,
            ..Fields::NONE
        }
    }

    /// The fields of an invalidation by address.
    fn by_page(opcode: Opcode, leaf: bool, page: u64, reach: Reach) -> Fields
        requires { page < 2 ^ 52 }
        ensures exactly { result ≡ by_page (number_of opcode) leaf page reach }
        ensures opcode { result.opcode ≡ number_of opcode }
        ensures leaf { result.leaf ≡ bit leaf }
        ensures address { result.address ≡ page * 4096 }
        ensures reach { SaysReach result reach }
    {
        let from = Fields {
            leaf: u32::from(leaf),
            address: page << 12,
            ..Fields::of(opcode)
        };
        match reach {
            Reach::Page => from,
            Reach::Range { tg, num, scale } => Fields {
                tg: u32::from(tg.get()),
                num: u32::from(num.get()),
                scale: u32::from(scale.get()),
                ..from
            },
        }
    }

    fn cfgi_ste(sid: Sid, leaf: bool) -> Fields
        ensures says { SaysCommand result (CfgiSte sid leaf) }
        ensures exactly { result ≡ fields_of (CfgiSte sid leaf) }
    {
        Fields {
            sid: sid.get(),
            leaf: u32::from(leaf),
            ..Fields::of(Opcode::CfgiSte)
        }
    }

    fn cfgi_ste_range(sid: Sid, range: StreamRange) -> Fields
        ensures says { SaysCommand result (CfgiSteRange sid range) }
        ensures exactly { result ≡ fields_of (CfgiSteRange sid range) }
    {
        Fields {
            sid: sid.get(),
            size: u32::from(range.get()),
            ..Fields::of(Opcode::CfgiSteRange)
        }
    }

    fn cfgi_cd(sid: Sid, ssid: Ssid, leaf: bool) -> Fields
        ensures says { SaysCommand result (CfgiCd sid ssid leaf) }
        ensures exactly { result ≡ fields_of (CfgiCd sid ssid leaf) }
    {
        Fields {
            sid: sid.get(),
            ssid: ssid.get(),
            leaf: u32::from(leaf),
            ..Fields::of(Opcode::CfgiCd)
        }
    }

    fn cfgi_cd_all(sid: Sid) -> Fields
        ensures says { SaysCommand result (CfgiCdAll sid) }
        ensures exactly { result ≡ fields_of (CfgiCdAll sid) }
    {
        Fields {
            sid: sid.get(),
            ..Fields::of(Opcode::CfgiCdAll)
        }
    }

    fn tlbi_nh_all(vmid: Vmid) -> Fields
        ensures says { SaysCommand result (TlbiNhAll vmid) }
        ensures exactly { result ≡ fields_of (TlbiNhAll vmid) }
    {
        Fields {
            vmid: u32::from(vmid.get()),
            ..Fields::of(Opcode::TlbiNhAll)
        }
    }

    fn tlbi_nh_asid(vmid: Vmid, asid: Asid) -> Fields
        ensures says { SaysCommand result (TlbiNhAsid vmid asid) }
        ensures exactly { result ≡ fields_of (TlbiNhAsid vmid asid) }
    {
        Fields {
            vmid: u32::from(vmid.get()),
            asid: u32::from(asid.get()),
            ..Fields::of(Opcode::TlbiNhAsid)
        }
    }

    fn tlbi_nh_va(vmid: Vmid, asid: Asid, leaf: bool, page: Page, reach: Reach) -> Fields
        ensures says { SaysCommand result (TlbiNhVa vmid asid leaf page reach) }
        ensures exactly { result ≡ fields_of (TlbiNhVa vmid asid leaf page reach) }
    {
        Fields {
            vmid: u32::from(vmid.get()),
            asid: u32::from(asid.get()),
            ..Fields::by_page(Opcode::TlbiNhVa, leaf, page.get(), reach)
        }
    }

    fn tlbi_nh_vaa(vmid: Vmid, leaf: bool, page: Page, reach: Reach) -> Fields
        ensures says { SaysCommand result (TlbiNhVaa vmid leaf page reach) }
        ensures exactly { result ≡ fields_of (TlbiNhVaa vmid leaf page reach) }
    {
        Fields {
            vmid: u32::from(vmid.get()),
            ..Fields::by_page(Opcode::TlbiNhVaa, leaf, page.get(), reach)
        }
    }

    fn tlbi_el2_asid(asid: Asid) -> Fields
        ensures says { SaysCommand result (TlbiEl2Asid asid) }
        ensures exactly { result ≡ fields_of (TlbiEl2Asid asid) }
    {
        Fields {
            asid: u32::from(asid.get()),
            ..Fields::of(Opcode::TlbiEl2Asid)
        }
    }

    fn tlbi_el2_va(asid: Asid, leaf: bool, page: Page, reach: Reach) -> Fields
        ensures says { SaysCommand result (TlbiEl2Va asid leaf page reach) }
        ensures exactly { result ≡ fields_of (TlbiEl2Va asid leaf page reach) }
    {
        Fields {
            asid: u32::from(asid.get()),
            ..Fields::by_page(Opcode::TlbiEl2Va, leaf, page.get(), reach)
        }
    }

    fn tlbi_el2_vaa(leaf: bool, page: Page, reach: Reach) -> Fields
        ensures says { SaysCommand result (TlbiEl2Vaa leaf page reach) }
        ensures exactly { result ≡ fields_of (TlbiEl2Vaa leaf page reach) }
    {
        Fields {
            ..Fields::by_page(Opcode::TlbiEl2Vaa, leaf, page.get(), reach)
        }
    }

    fn tlbi_s12_vmall(vmid: Vmid) -> Fields
        ensures says { SaysCommand result (TlbiS12Vmall vmid) }
        ensures exactly { result ≡ fields_of (TlbiS12Vmall vmid) }
    {
        Fields {
            vmid: u32::from(vmid.get()),
            ..Fields::of(Opcode::TlbiS12Vmall)
        }
    }

    fn tlbi_s2_ipa(vmid: Vmid, leaf: bool, page: IpaPage, reach: Reach) -> Fields
        ensures says { SaysCommand result (TlbiS2Ipa vmid leaf page reach) }
        ensures exactly { result ≡ fields_of (TlbiS2Ipa vmid leaf page reach) }
    {
        Fields {
            vmid: u32::from(vmid.get()),
            ..Fields::by_page(Opcode::TlbiS2Ipa, leaf, page.get(), reach)
        }
    }

    fn atc_inv(sid: Sid, ssv: bool, ssid: Ssid, global: bool, size: Size, page: Page) -> Fields
        ensures says { SaysCommand result (AtcInv sid ssv ssid global size page) }
        ensures exactly { result ≡ fields_of (AtcInv sid ssv ssid global size page) }
    {
        Fields {
            sid: sid.get(),
            ssv: u32::from(ssv),
            ssid: ssid.get(),
            global: u32::from(global),
            size: u32::from(size.get()),
            address: page.get() << 12,
            ..Fields::of(Opcode::AtcInv)
        }
    }

    fn cmd_sync(cs: Cs, msh: Msh, attr: Attr, data: u32, address: MsiWord) -> Fields
        ensures says { SaysCommand result (CmdSync cs msh attr «data» address) }
        ensures exactly { result ≡ fields_of (CmdSync cs msh attr «data» address) }
    {
        Fields {
            cs: u32::from(cs.get()),
            msh: u32::from(msh.get()),
            attr: u32::from(attr.get()),
            data,
            address: address.get() << 2,
            ..Fields::of(Opcode::CmdSync)
        }
    }

    fn kept(kept: KeptRaw) -> Fields
        ensures says { SaysCommand result (Kept kept) }
        ensures exactly { result ≡ fields_of (Kept kept) }
    {
        let raw = kept.get();
        Fields {
            opcode: (raw.lo % 256) as u32,
            lo: raw.lo,
            hi: raw.hi,
            ..Fields::NONE
        }
    }
}
