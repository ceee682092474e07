// The info fields and hop fields of a standard path, read from parts of exactly 8 and 12 bytes.
#![tactic(auto)]

ghost use Rattle.std.specs.Prelude.{◌≡◌, ◌+◌, ◌≤◌};
ghost use Rattle.wire_encoding.specs.Bits.{bit_of};
ghost use Rattle.path_fields.specs.Fields as spec;

use errors::path_error::PathError;
use wire_encoding::flags::with_bit;
use wire_encoding::read::{get_or_zero, part_of};

// The head of a segment.
#[derive(Clone, Copy, Debug, PartialEq, Eq, Hash)]
pub struct InfoField {
    pub flags: u8,
    pub reserved: u8,
    pub accumulator: u16,
    pub timestamp: u32,
}

// One network's entry in a segment; `mac` is its code.
#[derive(Clone, Copy, Debug, PartialEq, Eq, Hash)]
pub struct HopField {
    pub flags: u8,
    pub exp_time: u8,
    pub cons_ingress: u16,
    pub cons_egress: u16,
    pub mac: [u8; 6],
}

// The number of an interface; 0 on the wire means none.
pub type Interface = Option<u16>;

impl InfoField {
    pub const LENGTH: usize = 8;

    pub const PEERING_FLAG: u8 = 0b10;

    pub const CONSTRUCTION_DIRECTION_FLAG: u8 = 0b01;

    pub const ZERO: InfoField = InfoField {
        flags: 0,
        reserved: 0,
        accumulator: 0,
        timestamp: 0,
    };

    // The info field that a part of exactly 8 bytes spells.
    #[tactic(auto, using(wire_encoding::proofs::BigEndian::or_zero_is), unfolding(crate::specs::Fields::new_info_field, crate::specs::Fields::info_field_at))]
    pub fn new(part: &[u8]) -> Result<InfoField, PathError>
        ensures { result ≡ spec.new_info_field part.now }
    {
        if part.len() == InfoField::LENGTH {
            return Ok(InfoField {
                flags: part[0],
                reserved: part[1],
                accumulator: get_or_zero(part, 2),
                timestamp: get_or_zero(part, 4),
            });
        }
        Err(PathError::InadequateBufferSize)
    }

    // The info field at `start`; all zero where the bytes end before it does.
    #[tactic(auto, unfolding(crate::specs::Fields::zero_info_field))]
    pub fn at(bytes: &[u8], start: usize) -> InfoField
        ensures { result ≡ spec.info_field_in bytes.now start }
    {
        InfoField::new(part_of(bytes, start, InfoField::LENGTH)).unwrap_or(InfoField::ZERO)
    }

    // Whether the segment has a peering hop field.
    pub fn is_peering(self) -> bool
        ensures { result ≡ spec.peering self }
    {
        self.flags / InfoField::PEERING_FLAG % 2 == 1
    }

    // Whether the hop fields stand in construction direction.
    pub fn is_constructed_dir(self) -> bool
        ensures { result ≡ spec.constructed_dir self }
    {
        self.flags / InfoField::CONSTRUCTION_DIRECTION_FLAG % 2 == 1
    }

    // The field with its direction bit set or cleared.
    #[tactic(auto, unfolding(crate::specs::Fields::with_constructed_dir))]
    pub fn set_constructed_dir(self, is_constructed_dir: bool) -> InfoField
        ensures { result ≡ spec.with_constructed_dir is_constructed_dir self }
    {
        InfoField {
            flags: with_bit::<0>(self.flags, is_constructed_dir),
            ..self
        }
    }
}

impl HopField {
    pub const LENGTH: usize = 12;

    pub const CONS_INGRESS_ALERT_FLAG: u8 = 0b10;

    pub const CONS_EGRESS_ALERT_FLAG: u8 = 0b01;

    pub const ZERO: HopField = HopField {
        flags: 0,
        exp_time: 0,
        cons_ingress: 0,
        cons_egress: 0,
        mac: [0; 6],
    };

    // The hop field that a part of exactly 12 bytes spells.
    #[tactic(auto, using(wire_encoding::proofs::BigEndian::or_zero_is, wire_encoding::proofs::Lists::part_bytes), unfolding(crate::specs::Fields::new_hop_field, crate::specs::Fields::hop_field_at))]
    pub fn new(part: &[u8]) -> Result<HopField, PathError>
        ensures { result ≡ spec.new_hop_field part.now }
    {
        if part.len() == HopField::LENGTH {
            return Ok(HopField {
                flags: part[0],
                exp_time: part[1],
                cons_ingress: get_or_zero(part, 2),
                cons_egress: get_or_zero(part, 4),
                mac: [part[6], part[7], part[8], part[9], part[10], part[11]],
            });
        }
        Err(PathError::InadequateBufferSize)
    }

    // The hop field at `start`; all zero where the bytes end before it does.
    #[tactic(auto, unfolding(crate::specs::Fields::zero_hop_field))]
    pub fn at(bytes: &[u8], start: usize) -> HopField
        ensures { result ≡ spec.hop_field_in bytes.now start }
    {
        HopField::new(part_of(bytes, start, HopField::LENGTH)).unwrap_or(HopField::ZERO)
    }

    pub fn is_cons_ingress_router_alert(self) -> bool
        ensures { result ≡ bit_of 1 self.flags }
    {
        self.flags / HopField::CONS_INGRESS_ALERT_FLAG % 2 == 1
    }

    pub fn is_cons_egress_router_alert(self) -> bool
        ensures { result ≡ bit_of 0 self.flags }
    {
        self.flags / HopField::CONS_EGRESS_ALERT_FLAG % 2 == 1
    }

    // The field with its ingress alert flag set or cleared.
    #[tactic(auto, unfolding(crate::specs::Fields::with_flags))]
    pub fn set_cons_ingress_router_alert(self, enable: bool) -> HopField
        ensures { result ≡ spec.with_alert 1 enable self }
    {
        HopField {
            flags: with_bit::<1>(self.flags, enable),
            ..self
        }
    }

    // The field with its egress alert flag set or cleared.
    #[tactic(auto, unfolding(crate::specs::Fields::with_flags))]
    pub fn set_cons_egress_router_alert(self, enable: bool) -> HopField
        ensures { result ≡ spec.with_alert 0 enable self }
    {
        HopField {
            flags: with_bit::<0>(self.flags, enable),
            ..self
        }
    }

    pub fn cons_ingress_interface(self) -> Interface
        ensures { result ≡ spec.interface_of self.cons_ingress }
    {
        interface_of(self.cons_ingress)
    }

    pub fn cons_egress_interface(self) -> Interface
        ensures { result ≡ spec.interface_of self.cons_egress }
    {
        interface_of(self.cons_egress)
    }

    // The interface by which a packet enters, in the direction of its segment.
    #[tactic(auto, unfolding(crate::specs::Fields::ingress_interface))]
    pub fn ingress_interface(self, info_field: InfoField) -> Interface
        ensures { result ≡ spec.ingress_interface info_field self }
    {
        if info_field.is_constructed_dir() {
            return interface_of(self.cons_ingress);
        }
        interface_of(self.cons_egress)
    }

    // The interface by which a packet leaves, in the direction of its segment.
    #[tactic(auto, unfolding(crate::specs::Fields::egress_interface))]
    pub fn egress_interface(self, info_field: InfoField) -> Interface
        ensures { result ≡ spec.egress_interface info_field self }
    {
        if info_field.is_constructed_dir() {
            return interface_of(self.cons_egress);
        }
        interface_of(self.cons_ingress)
    }

    // How long the field is valid, in ms: 337,500 for each unit of its expiry byte and one more.
    #[tactic(auto, unfolding(crate::specs::Fields::expiry_time))]
    pub fn expiry_offset(self) -> u64
        ensures { result ≡ spec.expiry_offset self.exp_time }
    {
        expiry(0, self.exp_time)
    }

    // When the field expires, in ms since 1970.
    pub fn expiry_time(self, info_field: InfoField) -> u64
        ensures { (result ≡ spec.expiry_time info_field.timestamp self.exp_time) × (result ≤ 4295053695000) }
    {
        expiry(info_field.timestamp, self.exp_time)
    }
}

// The expiry in ms of a hop field with this expiry byte under this timestamp.
#[tactic(auto, unfolding(crate::specs::Fields::expiry_time, crate::specs::Fields::expiry_offset))]
pub fn expiry(timestamp: u32, exp_time: u8) -> u64
    ensures { (result ≡ spec.expiry_time timestamp exp_time) × (result ≤ 4295053695000) }
{
    u64::from(timestamp) * 1000 + 337500 * (1 + u64::from(exp_time))
}

// The interface of a number on the wire.
#[tactic(auto, unfolding(crate::specs::Fields::interface_of))]
pub fn interface_of(number: u16) -> Interface
    ensures { result ≡ spec.interface_of number }
{
    if number == 0 {
        return None;
    }
    Some(number)
}
