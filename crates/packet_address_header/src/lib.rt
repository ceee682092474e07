// The address header of a packet, by value: the networks and the hosts of both ends, read from bytes and written as bytes. To be
// written, a host's kind and bytes are taken out of its enum once.
#![tactic(auto)]

ghost use Rattle.std.specs.Prelude.{◌≡◌, ◌+◌, ◌/◌, ◌%◌, ◌≤◌, length};
ghost use Rattle.std.proofs.lemmas.List.Edits.{sets};
ghost use Rattle.wire_encoding.specs.Answers.{put_answer};
ghost use Rattle.wire_encoding.specs.BigEndian.{part, placed, written};
ghost use Rattle.wire_encoding.specs.Result.{done, or_else};
ghost use Rattle.packet_common_header.specs.CommonHeader.{host_length};
ghost use Rattle.packet_address_header.specs.AddressHeader as spec;

use address::host::HostAddr;
use address::ia::IsdAsn;
use address::scion_address::ScionAddr;
use address::service::ServiceAddr;
use errors::packet_error::{DecodeError, EncodeError};
use packet_common_header::AddressInfo;
use wire_encoding::number::Number;
use wire_encoding::read::get_or_zero;
use wire_encoding::write::{InadequateBufferSize, put};

// A host of a kind that has a name, or another kind.
#[derive(Clone, Copy, Debug, PartialEq, Eq, Hash)]
pub enum MaybeEncoded {
    Decoded(HostAddr),
    Encoded(u8),
}

// A host and the bytes beside it: they begin with the host's own, the others are zero. A service's number stands in `host`, and in
// `padding` the two bytes that follow it on the wire; no other host has a padding, and there it is zero.
#[derive(Clone, Copy, Debug, PartialEq, Eq, Hash)]
pub struct HostAddress {
    pub host: MaybeEncoded,
    pub bytes: [u8; 16],
    pub padding: u16,
}

#[derive(Clone, Copy, Debug, PartialEq, Eq, Hash)]
pub struct AddressHeader {
    pub destination_ia: IsdAsn,
    pub source_ia: IsdAsn,
    pub destination: HostAddress,
    pub source: HostAddress,
}

// An address header that was read, and its length in bytes.
#[derive(Clone, Copy, Debug, PartialEq, Eq, Hash)]
pub struct AddressHeaderRead {
    pub header: AddressHeader,
    pub length: usize,
}

// A host as it is on the wire: its kind, a number that may be any, and sixteen bytes that begin with its own.
#[derive(Clone, Copy, Debug, PartialEq, Eq, Hash)]
pub struct WireHost {
    pub kind: u8,
    pub bytes: [u8; 16],
}

// An address header as it is on the wire.
#[derive(Clone, Copy, Debug, PartialEq, Eq, Hash)]
pub struct WireAddress {
    pub destination_ia: u64,
    pub source_ia: u64,
    pub destination: WireHost,
    pub source: WireHost,
}

// The `len` bytes at `at`, then zeros. Four, which most hosts have, are a length that the compiler copies as one word.
#[tactic(auto, using(crate::proofs::AddressHeaderLaws::padded_copied))]
fn raw_host_address(bytes: &[u8], at: usize, len: usize) -> [u8; 16]
    requires { (len ≤ 16) × (at + len ≤ length bytes.now) }
    ensures { result ≡ spec.padded bytes.now at len }
{
    let mut host = [0; 16];
    if len == 4 {
        host[..4].copy_from_slice(&bytes[at..at + 4]);
        return host;
    }
    host[..len].copy_from_slice(&bytes[at..at + len]);
    host
}

// A service's number and its padding, then zeros. The two go over as one word, of which the compiler loads and stores whole hosts.
#[tactic(auto, using(crate::proofs::AddressHeaderLaws::service_copied))]
fn service_bytes(number: u16, padding: u16) -> [u8; 16]
    ensures { result ≡ spec.service_bytes number padding }
{
    let mut raw = [0; 16];
    let word = u32::from(number) * 0x1_0000 + u32::from(padding);
    raw[..4].copy_from_slice(&word.to_be_bytes());
    raw
}

// Writes the word of four bytes that begins at `done` to the place of the same in a run at `at`, by way of a number: a copy from slice to
// slice looks first whether the two overlap.
#[tactic(auto, using(crate::proofs::AddressHeaderLaws::word_put))]
fn put_word(bytes: &[u8], done: usize, dst: &mut [u8], at: usize)
    requires { (done + 4 ≤ length bytes.now) × (at + done + 4 ≤ length dst.old) }
    ensures { dst.new ≡ sets dst.old (at + done) (part done 4 bytes.now) }
{
    let word: u32 = get_or_zero(bytes, done);
    word.write_be(&mut dst[at + done..at + done + 4]);
}

impl WireHost {
    // How many bytes the host has on the wire.
    pub fn encoded_length(self) -> usize
        ensures { (result ≡ host_length self.kind) × (result ≤ 16) }
    {
        AddressInfo(self.kind).address_length()
    }

    // Writes the host at `at`, where there is room for it: one to four words. In a loop the compiler sees a copy of any length, which is a
    // call, and longer than the words of most hosts.
    #[tactic(auto, using(crate::proofs::AddressHeaderLaws::next_words), unfolding(crate::specs::AddressHeader::wire_host_bytes, packet_common_header::specs::CommonHeader::host_length))]
    fn put(self, dst: &mut [u8], at: usize)
        requires { at + host_length self.kind ≤ length dst.old }
        ensures { dst.new ≡ sets dst.old at (spec.wire_host_bytes self) }
    {
        let len = self.encoded_length();
        let bytes = self.bytes;
        put_word(&bytes, 0, dst, at);
        if len == 4 {
            return;
        }
        put_word(&bytes, 4, dst, at);
        if len == 8 {
            return;
        }
        put_word(&bytes, 8, dst, at);
        if len == 12 {
            return;
        }
        put_word(&bytes, 12, dst, at);
    }
}

impl WireAddress {
    // How many bytes the header has on the wire.
    #[tactic(auto, unfolding(crate::specs::AddressHeader::wire_length, crate::specs::AddressHeader::length_of_kinds))]
    pub fn encoded_length(self) -> usize
        ensures { (result ≡ spec.wire_length self) × (result ≤ 48) }
    {
        AddressHeader::BASE_LENGTH
            + self.destination.encoded_length()
            + self.source.encoded_length()
    }

    // Writes all of the header at `at`, or nothing for want of room. Each host goes before its network: after its loop the compiler
    // stores the network's eight bytes at once.
    #[tactic(auto, using(crate::proofs::AddressHeaderLaws::puts), unfolding(crate::specs::AddressHeader::wire_length, crate::specs::AddressHeader::length_of_kinds))]
    pub fn put(self, dst: &mut [u8], at: usize) -> Result<(), InadequateBufferSize>
        ensures value { result ≡ put_answer (written dst.old at (spec.wire_bytes self)) }
        ensures dst_after { dst.new ≡ placed dst.old at (spec.wire_bytes self) }
    {
        if dst.len() < at {
            return Err(InadequateBufferSize);
        }
        if dst.len() - at < self.encoded_length() {
            return Err(InadequateBufferSize);
        }
        let destination_at = at + AddressHeader::BASE_LENGTH;
        let source_at = destination_at + self.destination.encoded_length();
        self.destination.put(dst, destination_at);
        put(dst, at, self.destination_ia)?;
        self.source.put(dst, source_at);
        put(dst, at + 8, self.source_ia)
    }
}

impl MaybeEncoded {
    // The host kind on the wire.
    #[tactic(auto, unfolding(crate::specs::AddressHeader::kind_of))]
    pub fn kind(self) -> u8
        ensures { result ≡ spec.kind_of self }
    {
        match self {
            MaybeEncoded::Decoded(host) => host.kind(),
            MaybeEncoded::Encoded(kind) => kind,
        }
    }

    // A host of a kind that is no service: IPv4, IPv6, or one without a name.
    #[tactic(auto, unfolding(crate::specs::AddressHeader::host_of_kind))]
    fn of_kind(kind: u8) -> MaybeEncoded
        ensures { result ≡ spec.host_of_kind kind }
    {
        if kind == 0 {
            return MaybeEncoded::Decoded(HostAddr::V4);
        }
        if kind == 3 {
            return MaybeEncoded::Decoded(HostAddr::V6);
        }
        MaybeEncoded::Encoded(kind)
    }
}

// The host of an address; its padding is zero.
impl From<ScionAddr> for HostAddress {
    ghost from_gives = { λ address host. host ≡ spec.host_of address };

    fn from(address: ScionAddr) -> HostAddress {
        let bytes = address.bytes;
        HostAddress {
            host: MaybeEncoded::Decoded(address.host),
            bytes,
            padding: 0,
        }
    }
}

impl HostAddress {
    // The host kind on the wire.
    pub fn kind(self) -> u8
        ensures { result ≡ spec.kind_of self.host }
    {
        self.host.kind()
    }

    // How many bytes the host has on the wire.
    pub fn encoded_length(self) -> usize
        ensures { (result ≡ host_length (spec.kind_of self.host)) × (result ≤ 16) }
    {
        AddressInfo(self.kind()).address_length()
    }

    // The host of a kind at `at`, whose bytes are there.
    #[tactic(auto, using(wire_encoding::proofs::BigEndian::or_zero_is), unfolding(crate::specs::AddressHeader::host_at, packet_common_header::specs::CommonHeader::host_length))]
    fn read(bytes: &[u8], at: usize, kind: u8) -> HostAddress
        requires { at + host_length kind ≤ length bytes.now }
        ensures { result ≡ spec.host_at kind bytes.now at }
    {
        let len = AddressInfo(kind).address_length();
        if kind == 4 {
            let number = get_or_zero(bytes, at);
            let padding = get_or_zero(bytes, at + 2);
            return HostAddress {
                host: MaybeEncoded::Decoded(HostAddr::Svc(ServiceAddr(number))),
                bytes: [0; 16],
                padding,
            };
        }
        let host = MaybeEncoded::of_kind(kind);
        let raw = raw_host_address(bytes, at, len);
        HostAddress {
            host,
            bytes: raw,
            padding: 0,
        }
    }

    // The host as it is on the wire; a service is its number and its padding.
    #[tactic(auto, unfolding(crate::specs::AddressHeader::host_on_wire, crate::specs::AddressHeader::kind_of, crate::specs::AddressHeader::raw_of))]
    fn on_wire(self) -> WireHost
        ensures { result ≡ spec.host_on_wire self }
    {
        let host = self.host;
        let bytes = self.bytes;
        let padding = self.padding;
        match host {
            MaybeEncoded::Decoded(named) => match named {
                HostAddr::V4 => WireHost { kind: 0, bytes },
                HostAddr::V6 => WireHost { kind: 3, bytes },
                HostAddr::Svc(service) => WireHost {
                    kind: 4,
                    bytes: service_bytes(service.0, padding),
                },
            },
            MaybeEncoded::Encoded(kind) => WireHost { kind, bytes },
        }
    }

    // The host with its network, where it has a name.
    #[tactic(auto, unfolding(crate::specs::AddressHeader::endhost_in))]
    fn in_network(self, isd_asn: IsdAsn) -> Option<ScionAddr>
        ensures { result ≡ spec.endhost_of self isd_asn }
    {
        match self.host {
            MaybeEncoded::Decoded(host) => Some(ScionAddr::new(isd_asn, host, self.bytes)),
            MaybeEncoded::Encoded(_) => None,
        }
    }
}

impl AddressHeader {
    // The length of the two network numbers.
    pub const BASE_LENGTH: usize = 16;

    // The header of two ends; their paddings are zero.
    #[tactic(auto, unfolding(crate::specs::AddressHeader::address_header_of))]
    pub fn new(destination: ScionAddr, source: ScionAddr) -> AddressHeader
        ensures { result ≡ spec.address_header_of destination source }
    {
        AddressHeader {
            destination_ia: destination.isd_asn,
            source_ia: source.isd_asn,
            destination: HostAddress::from(destination),
            source: HostAddress::from(source),
        }
    }

    // The destination, where its host has a name.
    pub fn destination(self) -> Option<ScionAddr>
        ensures { result ≡ spec.endhost_of self.destination self.destination_ia }
    {
        self.destination.in_network(self.destination_ia)
    }

    // The source, where its host has a name.
    pub fn source(self) -> Option<ScionAddr>
        ensures { result ≡ spec.endhost_of self.source self.source_ia }
    {
        self.source.in_network(self.source_ia)
    }

    // The header that stands in the place of one that was refused.
    #[tactic(auto, unfolding(crate::specs::AddressHeader::zero_address, crate::specs::AddressHeader::address_at, crate::specs::AddressHeader::host_at, crate::specs::AddressHeader::host_of_kind, crate::specs::AddressHeader::padded, packet_common_header::specs::CommonHeader::host_length, wire_encoding::specs::BigEndian::big_endian))]
    pub fn zero() -> AddressHeader
        ensures { result ≡ spec.zero_address }
    {
        let host = HostAddress {
            host: MaybeEncoded::Decoded(HostAddr::V4),
            bytes: [0; 16],
            padding: 0,
        };
        AddressHeader {
            destination_ia: IsdAsn(0),
            source_ia: IsdAsn(0),
            destination: host,
            source: host,
        }
    }

    // The same header with both paddings zero, as the headers of a new packet have them.
    #[tactic(auto, unfolding(crate::specs::AddressHeader::without_padding, crate::specs::AddressHeader::with_padding))]
    pub fn without_padding(self) -> AddressHeader
        ensures { result ≡ spec.without_padding self }
    {
        let mut header = self;
        header.destination.padding = 0;
        header.source.padding = 0;
        header
    }

    // How many bytes the header has on the wire.
    #[tactic(auto, unfolding(crate::specs::AddressHeader::address_length, crate::specs::AddressHeader::length_of_kinds))]
    pub fn encoded_length(self) -> usize
        ensures { (result ≡ spec.address_length self) × (result ≤ 48) }
    {
        AddressHeader::BASE_LENGTH
            + self.destination.encoded_length()
            + self.source.encoded_length()
    }

    // Reads the address header that begins `bytes`. `host_kinds` is the common header's byte of them, the destination's in its high
    // half, so no kind is above 15.
    #[tactic(auto, using(crate::proofs::AddressHeaderLaws::reads), unfolding(crate::specs::AddressHeader::address_at, crate::specs::AddressHeader::length_of_kinds))]
    pub fn decode_with_context(
        bytes: &[u8],
        host_kinds: u8,
    ) -> Result<AddressHeaderRead, DecodeError>
        ensures { result ≡ spec.address_answer (spec.read_address bytes.now (host_kinds / 16) (host_kinds % 16)) }
    {
        let destination_kind = host_kinds / 16;
        let source_kind = host_kinds % 16;
        let after = AddressHeader::BASE_LENGTH + AddressInfo(destination_kind).address_length();
        let end = after + AddressInfo(source_kind).address_length();
        if bytes.len() < end {
            return Err(DecodeError::PacketEmptyOrTruncated);
        }
        let destination = HostAddress::read(bytes, AddressHeader::BASE_LENGTH, destination_kind);
        let source = HostAddress::read(bytes, after, source_kind);
        Ok(AddressHeaderRead {
            header: AddressHeader {
                destination_ia: IsdAsn(get_or_zero(bytes, 0)),
                source_ia: IsdAsn(get_or_zero(bytes, 8)),
                destination,
                source,
            },
            length: end,
        })
    }

    // The header as it is on the wire.
    #[tactic(auto, unfolding(crate::specs::AddressHeader::on_wire))]
    pub fn on_wire(self) -> WireAddress
        ensures { result ≡ spec.on_wire self }
    {
        WireAddress {
            destination_ia: self.destination_ia.0,
            source_ia: self.source_ia.0,
            destination: self.destination.on_wire(),
            source: self.source.on_wire(),
        }
    }

    // Writes the header to `dst`, or leaves it as it is.
    #[tactic(auto, using(crate::proofs::AddressHeaderLaws::encodes), unfolding(crate::specs::AddressHeader::write_address, crate::specs::AddressHeader::on_wire, crate::specs::AddressHeader::host_on_wire, wire_encoding::specs::Result::done))]
    pub fn encode_to(self, dst: &mut [u8]) -> Result<(), EncodeError>
        ensures value { result ≡ done (spec.write_address self (length dst.old)) }
        ensures dst_after { dst.new ≡ or_else (spec.write_address self (length dst.old)) dst.old }
    {
        let wire = self.on_wire();
        if 16 <= wire.destination.kind {
            return Err(EncodeError::NumberTooWide);
        }
        if 16 <= wire.source.kind {
            return Err(EncodeError::NumberTooWide);
        }
        if dst.len() != wire.encoded_length() {
            return Err(EncodeError::InadequateBufferSize);
        }
        wire.put(dst, 0).unwrap();
        Ok(())
    }
}
