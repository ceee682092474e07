// A host in a network: the byte-level fields of a SCION address.
ghost use Rattle.std.specs.Prelude.{◌≡◌};
ghost use Rattle.address.specs.Host.{host_kind};
ghost use Rattle.address.specs.ScionAddress.{address_of, with_isd_asn, with_host};

use crate::host::HostAddr;
use crate::ia::IsdAsn;

// `bytes` begins with the bytes of an IP address; a service's stand in `host`.
#[derive(Clone, Copy, Debug, PartialEq, Eq, Hash)]
pub struct ScionAddr {
    pub isd_asn: IsdAsn,
    pub host: HostAddr,
    pub bytes: [u8; 16],
}

impl ScionAddr {
    pub fn new(isd_asn: IsdAsn, host: HostAddr, bytes: [u8; 16]) -> ScionAddr
        ensures { result ≡ address_of isd_asn host bytes }
    {
        ScionAddr {
            isd_asn,
            host,
            bytes,
        }
    }

    // The same host in another network.
    pub fn set_isd_asn(self, isd_asn: IsdAsn) -> ScionAddr
        ensures { result ≡ with_isd_asn self isd_asn }
    {
        ScionAddr { isd_asn, ..self }
    }

    // Another host in the same network.
    pub fn set_host(self, host: HostAddr, bytes: [u8; 16]) -> ScionAddr
        ensures { result ≡ with_host self host bytes }
    {
        ScionAddr {
            host,
            bytes,
            ..self
        }
    }

    // The host kind on the wire.
    pub fn kind(self) -> u8
        ensures { result ≡ host_kind self.host }
    {
        self.host.kind()
    }
}
