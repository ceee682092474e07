// The number of a service, 16 bits; its highest bit says multicast.
ghost use Rattle.std.specs.Prelude.{◌≡◌, not};
ghost use Rattle.address.specs.Service.{is_multicast, multicast_of, anycast_of};

#[derive(Clone, Copy, Debug, PartialEq, Eq, Hash)]
pub struct ServiceAddr(pub u16);

// The number with its multicast bit set.
fn with_flag(number: u16) -> u16
    ensures { result ≡ multicast_of number }
{
    number | ServiceAddr::MULTICAST_FLAG
}

// The number with its multicast bit cleared.
fn without_flag(number: u16) -> u16
    ensures { result ≡ anycast_of number }
{
    number & !ServiceAddr::MULTICAST_FLAG
}

impl ServiceAddr {
    pub const DAEMON: ServiceAddr = ServiceAddr(0x0001);

    pub const CONTROL: ServiceAddr = ServiceAddr(0x0002);

    pub const WILDCARD: ServiceAddr = ServiceAddr(0x0010);
    // No service.
    pub const NONE: ServiceAddr = ServiceAddr(0xFFFF);

    pub const ENCODED_LENGTH: usize = 2;

    pub const MULTICAST_FLAG: u16 = 0x8000;

    pub fn is_multicast(self) -> bool
        ensures { result ≡ is_multicast self.0 }
    {
        let number = self.0;
        number / ServiceAddr::MULTICAST_FLAG % 2 == 1
    }

    pub fn is_anycast(self) -> bool
        ensures { result ≡ not (is_multicast self.0) }
    {
        !self.is_multicast()
    }

    // The same service with the multicast bit set.
    pub fn multicast(self) -> ServiceAddr
        ensures { result.0 ≡ multicast_of self.0 }
    {
        ServiceAddr(with_flag(self.0))
    }

    // The same service with the multicast bit cleared.
    pub fn anycast(self) -> ServiceAddr
        ensures { result.0 ≡ anycast_of self.0 }
    {
        ServiceAddr(without_flag(self.0))
    }
}
