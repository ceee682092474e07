// The number of a network: the ISD in its highest 16 bits, the AS in the other 48.
ghost use Rattle.std.specs.Prelude.{◌≡◌};
ghost use Rattle.address.specs.Ia.{isd_of, asn_of, is_wildcard, joined, joined_of};

#[derive(Clone, Copy, Debug, PartialEq, Eq, Hash)]
pub struct IsdAsn(pub u64);

impl From<u64> for IsdAsn {
    ghost from_gives = { λ number ia. ia.0 ≡ number };

    fn from(number: u64) -> IsdAsn {
        IsdAsn(number)
    }
}

impl From<IsdAsn> for u64 {
    ghost from_gives = { λ ia number. number ≡ ia.0 };

    fn from(ia: IsdAsn) -> u64 {
        ia.0
    }
}

impl IsdAsn {
    pub const BITS: u32 = 64;

    pub const ISD_BITS: u32 = 16;

    pub const ASN_BITS: u32 = 48;
    // ISD 0 and AS 0.
    pub const WILDCARD: IsdAsn = IsdAsn(0);

    pub const MAX: IsdAsn = IsdAsn(0xFFFF_FFFF_FFFF_FFFF);

    // The identifier of an ISD and an AS, unless the AS number has more than 48 bits.
    #[tactic(auto, unfolding(crate::specs::Ia::joined))]
    pub fn new(isd: u16, asn: u64) -> Option<IsdAsn>
        ensures { joined_of result ≡ joined isd asn }
    {
        if asn < 0x1_0000_0000_0000 {
            return Some(IsdAsn(isd as u64 * 0x1_0000_0000_0000 + asn));
        }
        None
    }

    // The ISD: the highest 16 bits.
    #[tactic(auto, using(crate::proofs::Laws::isd_below))]
    pub fn isd(self) -> u16
        ensures { result ≡ isd_of self.0 }
    {
        let number = self.0;
        (number / 0x1_0000_0000_0000) as u16
    }

    // The AS: the lower 48 bits.
    pub fn asn(self) -> u64
        ensures { result ≡ asn_of self.0 }
    {
        let number = self.0;
        number % 0x1_0000_0000_0000
    }

    // Whether the ISD or the AS is 0.
    pub fn is_wildcard(self) -> bool
        ensures { result ≡ is_wildcard self.0 }
    {
        if self.isd() == 0 {
            return true;
        }
        self.asn() == 0
    }
}
