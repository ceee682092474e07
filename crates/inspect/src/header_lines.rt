// The lines of a packet's common header and address header.
use crate::text;
use crate::text::Hex;
use address::host::HostAddr;
use address::ia::IsdAsn;
use packet_address_header::{AddressHeader, HostAddress, MaybeEncoded};
use packet_common_header::CommonHeader;
use std::fmt::Display;
use std::{fmt, io};

// What a path type means.
fn path_type_name(path_type: u8) -> &'static str {
    match path_type {
        0 => "empty",
        1 => "standard",
        _ => "opaque",
    }
}

pub fn common(out: &impl Print, header: CommonHeader) -> io::Result<()> {
    let path_type = header.path_type;
    print!(out; "common header\n")?;
    text::line(out, "  version", header.version)?;
    text::line(out, "  traffic class", header.traffic_class)?;
    text::line(out, "  flow", header.flow_id)?;
    text::line(out, "  next header", header.next_header)?;
    text::line(out, "  header length factor", header.header_length_factor)?;
    text::size_line(out, "  header length", header.header_length())?;
    text::size_line(out, "  payload length", header.payload_size())?;
    text::line(
        out,
        "  path type",
        format_args!("{path_type} {}", path_type_name(path_type)),
    )?;
    text::line(out, "  destination kind", header.destination_kind)?;
    text::line(out, "  source kind", header.source_kind)?;
    text::line(out, "  reserved", header.reserved)
}

// A network: its number, and the ISD and the AS that it is made of.
fn network(out: &impl Print, title: &str, isd_asn: IsdAsn) -> io::Result<()> {
    text::line(
        out,
        title,
        format_args!(
            "0x{:016x} isd {} as {}",
            isd_asn.0,
            isd_asn.isd(),
            isd_asn.asn()
        ),
    )
}

// A host: the four numbers of an IPv4 address, the bytes of an IPv6 address, a service's number and its padding; of a kind without a
// name the first bytes of the sixteen.
fn host(out: &impl Print, title: &str, address: HostAddress) -> io::Result<()> {
    let bytes = address.bytes;
    match address.host {
        MaybeEncoded::Decoded(HostAddr::V4) => text::line(
            out,
            title,
            format_args!("IPv4 {}.{}.{}.{}", bytes[0], bytes[1], bytes[2], bytes[3]),
        ),
        MaybeEncoded::Decoded(HostAddr::V6) => {
            text::line(out, title, format_args!("IPv6 {}", Hex(&bytes)))
        }
        MaybeEncoded::Decoded(HostAddr::Svc(service)) => text::line(
            out,
            title,
            format_args!(
                "service 0x{:04x} padding 0x{:04x}",
                service.0, address.padding
            ),
        ),
        MaybeEncoded::Encoded(_) => {
            let own = &bytes[..address.encoded_length()];
            text::line(out, title, format_args!("opaque {}", Hex(own)))
        }
    }
}

pub fn address(out: &impl Print, header: AddressHeader) -> io::Result<()> {
    print!(out; "address header\n")?;
    network(out, "  destination network", header.destination_ia)?;
    network(out, "  source network", header.source_ia)?;
    host(out, "  destination host", header.destination)?;
    host(out, "  source host", header.source)
}
