// Hosts. The sixteen bytes of an IP address stand beside the enum.
ghost use Rattle.std.specs.Prelude.{◌≡◌};
ghost use Rattle.std.specs.Option.{ok_or};
ghost use Rattle.address.specs.Host.{host_type_of, host_type_number, type_of_host, host_kind, kind_of_type};

use crate::service::ServiceAddr;

// An IPv4 or IPv6 host, or a service. The bytes stand beside it: `ScionAddr::new` and `set_host` promise to hand all sixteen on,
// whatever the host (`address_of`, `with_host`), which four bytes in a variant could not.
#[derive(Clone, Copy, Debug, PartialEq, Eq, Hash)]
pub enum HostAddr {
    V4,
    V6,
    Svc(ServiceAddr),
}

// The kinds of host that have a name. Their numbers, 0 to 3, are not the host kinds on the wire.
#[derive(Clone, Copy, Debug, PartialEq, Eq, Hash)]
pub enum HostType {
    None,
    Ipv4,
    Ipv6,
    Svc,
}

// A byte that names no host type.
#[derive(Clone, Copy, Debug, PartialEq, Eq, Hash)]
pub struct UnknownHostType;

impl HostAddr {
    // The number of bytes that stand beside a host.
    pub const MAX_ADDRESS_BYTES: usize = 16;

    // The host kind on the wire: 0 for IPv4, 3 for IPv6, 4 for a service.
    pub fn kind(self) -> u8
        ensures { result ≡ host_kind self }
    {
        match self {
            HostAddr::V4 => 0,
            HostAddr::V6 => 3,
            HostAddr::Svc(_) => 4,
        }
    }
}

impl From<HostAddr> for HostType {
    ghost from_gives = { λ host kind. kind ≡ type_of_host host };

    fn from(host: HostAddr) -> HostType {
        match host {
            HostAddr::V4 => HostType::Ipv4,
            HostAddr::V6 => HostType::Ipv6,
            HostAddr::Svc(_) => HostType::Svc,
        }
    }
}

impl From<HostType> for u8 {
    ghost from_gives = { λ kind byte. byte ≡ host_type_number kind };

    fn from(kind: HostType) -> u8 {
        match kind {
            HostType::None => 0,
            HostType::Ipv4 => 1,
            HostType::Ipv6 => 2,
            HostType::Svc => 3,
        }
    }
}

// The type of a byte 0 to 3.
impl TryFrom<u8> for HostType {
    type Error = UnknownHostType;

    ghost try_from_gives = { λ byte read. read ≡ ok_or (host_type_of byte) (record {}) };

    #[tactic(auto, unfolding(crate::specs::Host::host_type_of))]
    fn try_from(byte: u8) -> Result<HostType, UnknownHostType> {
        match byte {
            0 => Ok(HostType::None),
            1 => Ok(HostType::Ipv4),
            2 => Ok(HostType::Ipv6),
            3 => Ok(HostType::Svc),
            _ => Err(UnknownHostType),
        }
    }
}

impl HostType {
    // The host kind on the wire; `None` has none.
    pub fn kind(self) -> Option<u8>
        ensures { result ≡ kind_of_type self }
    {
        match self {
            HostType::None => None,
            HostType::Ipv4 => Some(0),
            HostType::Ipv6 => Some(3),
            HostType::Svc => Some(4),
        }
    }
}
