//! The reserved ports of OpenFlow 1.0.0, section 5.2.1 (`ofp_port`).

/// The highest number of a real port.
pub const OFPP_MAX: u16 = 0xff00;
/// Send out of the port by which the packet came in.
pub const OFPP_IN_PORT: u16 = 0xfff8;
/// Hand the packet to the flow table; in a packet-out alone.
pub const OFPP_TABLE: u16 = 0xfff9;
/// Process as a switch without OpenFlow would.
pub const OFPP_NORMAL: u16 = 0xfffa;
/// Every port but the ingress port and those that are not to flood.
pub const OFPP_FLOOD: u16 = 0xfffb;
/// Every port but the ingress port.
pub const OFPP_ALL: u16 = 0xfffc;
/// The controller.
pub const OFPP_CONTROLLER: u16 = 0xfffd;
/// The switch's own network stack.
pub const OFPP_LOCAL: u16 = 0xfffe;
/// No port.
pub const OFPP_NONE: u16 = 0xffff;

// The numbers that the standard gives, once more: a constant that is another number is refused.
const _: () = prove!(OFPP_MAX == 0xff00);

const _: () = prove!(OFPP_IN_PORT == 0xfff8);

const _: () = prove!(OFPP_TABLE == 0xfff9);

const _: () = prove!(OFPP_NORMAL == 0xfffa);

const _: () = prove!(OFPP_FLOOD == 0xfffb);

const _: () = prove!(OFPP_ALL == 0xfffc);

const _: () = prove!(OFPP_CONTROLLER == 0xfffd);

const _: () = prove!(OFPP_LOCAL == 0xfffe);

const _: () = prove!(OFPP_NONE == 0xffff);
