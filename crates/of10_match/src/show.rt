//! Ports, addresses and matches as text, in the manner of `ovs-ofctl`.

ghost use Rattle.std.specs.Prelude.{◌≡◌, ◌<◌, ◌*◌, ◌/◌, ◌%◌, ◌^◌, Some};
ghost use Rattle.of10_match.specs.Text.{ethernet_text, port_text};

use crate::field::Prefix;
use crate::matches::Match;
use crate::ports::*;
use std::fmt;
use std::net::Ipv4Addr;

/// A port by its name or its number: `LOCAL`, `2`.
#[derive(Clone, Copy, Debug, PartialEq, Eq)]
pub struct Port(pub u16);

impl fmt::Display for Port {
    ghost output = { λ p. Some (port_text p.0) };

    fn fmt<W: fmt::Write>(&self, f: &mut fmt::Formatter<W>) -> fmt::Result {
        match self.0 {
            OFPP_IN_PORT => write!(f, "IN_PORT"),
            OFPP_TABLE => write!(f, "TABLE"),
            OFPP_NORMAL => write!(f, "NORMAL"),
            OFPP_FLOOD => write!(f, "FLOOD"),
            OFPP_ALL => write!(f, "ALL"),
            OFPP_CONTROLLER => write!(f, "CONTROLLER"),
            OFPP_LOCAL => write!(f, "LOCAL"),
            OFPP_NONE => write!(f, "NONE"),
            number => write!(f, "{number}"),
        }
    }
}

/// A byte of a number, counted from the lowest.
fn byte_at(number: u64, place: u32) -> u8
    requires { place < 8 }
    ensures { result ≡ number / 2 ^ (8 * place) % 256 }
{
    ((number >> (8 * place)) % 256) as u8
}

/// An Ethernet address by its six bytes in hex: `00:00:00:00:00:0a`. Bits above 48 are not shown.
#[derive(Clone, Copy, Debug, PartialEq, Eq)]
pub struct EthernetAddress(pub u64);

impl fmt::Display for EthernetAddress {
    ghost output = { λ a. Some (ethernet_text a.0) };

    fn fmt<W: fmt::Write>(&self, f: &mut fmt::Formatter<W>) -> fmt::Result {
        let high = byte_at(self.0, 5);
        let a = byte_at(self.0, 4);
        let b = byte_at(self.0, 3);
        let c = byte_at(self.0, 2);
        let d = byte_at(self.0, 1);
        let low = byte_at(self.0, 0);
        write!(f, "{high:02x}:{a:02x}:{b:02x}:{c:02x}:{d:02x}:{low:02x}")
    }
}

/// An IPv4 address, and the number of its compared bits where these are not all.
#[derive(Clone, Copy)]
struct Network(Prefix);

impl fmt::Display for Network {
    fn fmt<W: fmt::Write>(&self, f: &mut fmt::Formatter<W>) -> fmt::Result {
        let (address, bits) = self.0;
        let address = Ipv4Addr::from_bits(address);
        if bits == 32 {
            write!(f, "{address}")
        } else {
            write!(f, "{address}/{bits}")
        }
    }
}

/// An Ethernet frame type, with its four digits in hex.
#[derive(Clone, Copy)]
struct FrameType(u16);

impl fmt::Display for FrameType {
    fn fmt<W: fmt::Write>(&self, f: &mut fmt::Formatter<W>) -> fmt::Result {
        let number = self.0;
        write!(f, "0x{number:04x}")
    }
}

/// Writes a field that is there after what stands before it, and gives what stands before the next one.
fn show<W: fmt::Write, T: fmt::Display + Copy>(
    f: &mut fmt::Formatter<W>,
    before: &'static str,
    name: &str,
    field: Option<T>,
) -> Result<&'static str, fmt::Error> {
    match field {
        None => Ok(before),
        Some(value) => {
            write!(f, "{before}{name}={value}")?;
            Ok(",")
        }
    }
}

/// The fields that are there, with commas between them; `*` where there is none.
impl fmt::Display for Match {
    fn fmt<W: fmt::Write>(&self, f: &mut fmt::Formatter<W>) -> fmt::Result {
        let before = show(f, "", "in_port", self.in_port.map(|port| Port(port)))?;
        let before = show(f, before, "dl_vlan", self.dl_vlan)?;
        let before = show(f, before, "dl_vlan_pcp", self.dl_vlan_pcp)?;
        let before = show(
            f,
            before,
            "dl_src",
            self.dl_src.map(|address| EthernetAddress(address)),
        )?;
        let before = show(
            f,
            before,
            "dl_dst",
            self.dl_dst.map(|address| EthernetAddress(address)),
        )?;
        let before = show(
            f,
            before,
            "dl_type",
            self.dl_type.map(|number| FrameType(number)),
        )?;
        let before = show(
            f,
            before,
            "nw_src",
            self.nw_src.map(|prefix| Network(prefix)),
        )?;
        let before = show(
            f,
            before,
            "nw_dst",
            self.nw_dst.map(|prefix| Network(prefix)),
        )?;
        let before = show(f, before, "nw_proto", self.nw_proto)?;
        let before = show(f, before, "nw_tos", self.nw_tos)?;
        let before = show(f, before, "tp_src", self.tp_src)?;
        let before = show(f, before, "tp_dst", self.tp_dst)?;
        if before.is_empty() {
            write!(f, "*")?;
        }
        Ok(())
    }
}

#[cfg(test)]
mod tests {
    use super::*;
    use std::test::Fail;

    #[test]
    fn matches_as_text(rt: HostRuntime) -> Result<(), Fail> {
        let any = Match::any();
        let exact = Match {
            in_port: Some(1),
            dl_src: Some(1),
            dl_dst: Some(0xaabb_ccdd_eeff),
            dl_vlan: Some(65535),
            dl_vlan_pcp: Some(0),
            dl_type: Some(0x0800),
            nw_tos: Some(0),
            nw_proto: Some(6),
            nw_src: Some((0x0a00_0001, 32)),
            nw_dst: Some((0x0a00_0002, 32)),
            tp_src: Some(1000),
            tp_dst: Some(80),
        };
        for (matches, text) in [
            (any, "*"),
            (
                exact,
                "in_port=1,dl_vlan=65535,dl_vlan_pcp=0,dl_src=00:00:00:00:00:01,dl_dst=aa:bb:cc:dd:ee:ff,dl_type=0x0800,nw_src=10.0.0.1,nw_dst=10.0.0.2,nw_proto=6,nw_tos=0,tp_src=1000,tp_dst=80",
            ),
            (
                Match {
                    in_port: Some(OFPP_LOCAL),
                    nw_dst: Some((0x0a00_0000, 8)),
                    ..any
                },
                "in_port=LOCAL,nw_dst=10.0.0.0/8",
            ),
            (
                Match {
                    dl_type: Some(0x88cc),
                    ..any
                },
                "dl_type=0x88cc",
            ),
        ] {
            assert_eq!(rt; matches.to_string(rt.alloc())?.as_str(), text);
        }
        Ok(())
    }
}
