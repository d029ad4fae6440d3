//! The wildcard bits of OpenFlow 1.0.0, section 5.2.3 (`ofp_flow_wildcards`).

/// The ingress port is wildcarded.
pub const OFPFW_IN_PORT: u32 = 1 << 0;
/// The VLAN id is wildcarded.
pub const OFPFW_DL_VLAN: u32 = 1 << 1;
/// The Ethernet source address is wildcarded.
pub const OFPFW_DL_SRC: u32 = 1 << 2;
/// The Ethernet destination address is wildcarded.
pub const OFPFW_DL_DST: u32 = 1 << 3;
/// The Ethernet frame type is wildcarded.
pub const OFPFW_DL_TYPE: u32 = 1 << 4;
/// The IP protocol is wildcarded.
pub const OFPFW_NW_PROTO: u32 = 1 << 5;
/// The source port is wildcarded.
pub const OFPFW_TP_SRC: u32 = 1 << 6;
/// The destination port is wildcarded.
pub const OFPFW_TP_DST: u32 = 1 << 7;
/// The place of the count of low bits of the IPv4 source address that are not compared.
pub const OFPFW_NW_SRC_SHIFT: u32 = 8;
/// How many bits that count has. From 32 on it is the whole field.
pub const OFPFW_NW_SRC_BITS: u32 = 6;
/// The bits of that count.
pub const OFPFW_NW_SRC_MASK: u32 = ((1 << OFPFW_NW_SRC_BITS) - 1) << OFPFW_NW_SRC_SHIFT;
/// That count where the whole source address is wildcarded.
pub const OFPFW_NW_SRC_ALL: u32 = 32 << OFPFW_NW_SRC_SHIFT;
/// The place of the count of low bits of the IPv4 destination address that are not compared.
pub const OFPFW_NW_DST_SHIFT: u32 = 14;
/// How many bits that count has. From 32 on it is the whole field.
pub const OFPFW_NW_DST_BITS: u32 = 6;
/// The bits of that count.
pub const OFPFW_NW_DST_MASK: u32 = ((1 << OFPFW_NW_DST_BITS) - 1) << OFPFW_NW_DST_SHIFT;
/// That count where the whole destination address is wildcarded.
pub const OFPFW_NW_DST_ALL: u32 = 32 << OFPFW_NW_DST_SHIFT;
/// The VLAN priority is wildcarded.
pub const OFPFW_DL_VLAN_PCP: u32 = 1 << 20;
/// The IP type of service is wildcarded.
pub const OFPFW_NW_TOS: u32 = 1 << 21;
/// Every bit that stands for something, each count at its highest.
pub const OFPFW_ALL: u32 = (1 << 22) - 1;

// The numbers that the standard gives, once more: a constant that is another number is refused.
const _: () = prove!(OFPFW_IN_PORT == 0x1);

const _: () = prove!(OFPFW_DL_VLAN == 0x2);

const _: () = prove!(OFPFW_DL_SRC == 0x4);

const _: () = prove!(OFPFW_DL_DST == 0x8);

const _: () = prove!(OFPFW_DL_TYPE == 0x10);

const _: () = prove!(OFPFW_NW_PROTO == 0x20);

const _: () = prove!(OFPFW_TP_SRC == 0x40);

const _: () = prove!(OFPFW_TP_DST == 0x80);

const _: () = prove!(OFPFW_NW_SRC_SHIFT == 8);

const _: () = prove!(OFPFW_NW_SRC_BITS == 6);

const _: () = prove!(OFPFW_NW_SRC_MASK == 0x3f00);

const _: () = prove!(OFPFW_NW_SRC_ALL == 0x2000);

const _: () = prove!(OFPFW_NW_DST_SHIFT == 14);

const _: () = prove!(OFPFW_NW_DST_BITS == 6);

const _: () = prove!(OFPFW_NW_DST_MASK == 0xf_c000);

const _: () = prove!(OFPFW_NW_DST_ALL == 0x8_0000);

const _: () = prove!(OFPFW_DL_VLAN_PCP == 0x10_0000);

const _: () = prove!(OFPFW_NW_TOS == 0x20_0000);

const _: () = prove!(OFPFW_ALL == 0x3f_ffff);
