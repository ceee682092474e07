// The interfaces of a path in the order of travel.
#![tactic(auto)]

ghost use Rattle.std.specs.Prelude.{◌≡◌};
ghost use Rattle.std.specs.Option.{ok_or};
ghost use Rattle.errors.specs.declared.path_error.PathError.TheVariants.{NoSuchField};
ghost use Rattle.path.specs.Standard.{beside};
ghost use Rattle.path.specs.Dataplane.{path_of};
ghost use Rattle.path_interfaces.specs.Interfaces as spec;

use errors::path_error::PathError;
use path::dataplane::DataplanePath;
use path::standard::Found;
use path::standard::peering::is_peering_path;
use path_fields::{HopField, InfoField, Interface};
use path_meta_header::PathMetaHeader;

// An interface, and the hop field that it belongs to.
#[derive(Clone, Copy, Debug, PartialEq, Eq, Hash)]
pub struct InterfaceAt {
    pub hop_field: usize,
    pub interface: Interface,
}

// The number of interfaces of a path that was read.
#[tactic(auto, using(path::proofs::Peering::two_segments, path_meta_header::proofs::MetaHeader::info_le_hop), unfolding(crate::specs::Interfaces::count_on))]
fn count_on(bytes: &[u8], meta_header: PathMetaHeader) -> usize
    ensures { result ≡ spec.count_on bytes.now meta_header }
{
    if is_peering_path(meta_header, bytes) {
        return (meta_header.hop_fields_count() - 1) * 2;
    }
    meta_header.interfaces_count()
}

// The hop field that interface `index` of a path that was read belongs to.
#[tactic(auto, unfolding(crate::specs::Interfaces::hop_field_on, crate::specs::Interfaces::count_on, path_meta_header::specs::MetaHeader::hop_field_of))]
fn hop_field_on(bytes: &[u8], meta_header: PathMetaHeader, index: usize) -> Option<usize>
    ensures { ok_or result NoSuchField ≡ spec.hop_field_on bytes.now meta_header index }
{
    if count_on(bytes, meta_header) <= index {
        return None;
    }
    if is_peering_path(meta_header, bytes) {
        return Some((index + 1) / 2);
    }
    meta_header.hop_field_index_for_interface(index)
}

// Interface `index` at hop field `hop`: its egress where the index is even, else its ingress.
#[tactic(auto, using(path_fields::proofs::Fields::field_reads), unfolding(crate::specs::Interfaces::interface_at))]
fn interface_at(bytes: &[u8], meta_header: PathMetaHeader, hop: usize, index: usize) -> Interface
    requires { spec.hop_is_there bytes.now meta_header hop }
    ensures { result ≡ spec.interface_at bytes.now meta_header hop index }
{
    let segment = meta_header.segment_of(hop);
    let info_field = InfoField::at(bytes, PathMetaHeader::LENGTH + segment * InfoField::LENGTH);
    let hop_field = HopField::at(
        bytes,
        meta_header.hop_fields_start() + hop * HopField::LENGTH,
    );
    if index % 2 == 0 {
        return hop_field.egress_interface(info_field);
    }
    hop_field.ingress_interface(info_field)
}

// The number of interfaces on the path.
#[tactic(auto, using(path::proofs::Reading::answers_read), unfolding(crate::specs::Interfaces::interfaces_in))]
pub fn interfaces_count(path: DataplanePath, bytes: &[u8]) -> Result<Found<usize>, PathError>
    ensures { result
        ≡ beside (path_of path.path_type bytes.now) (spec.interfaces_in path.path_type bytes.now) }
{
    let read = path.standard(bytes)?;
    Ok(Found {
        path: read,
        value: count_on(bytes, read.meta_header),
    })
}

// Interface `index` in the order of travel, and its hop field: its egress where the index is even, else its ingress.
#[tactic(auto, using(path::proofs::Reading::answers_read, crate::proofs::Interfaces::interface_there), unfolding(crate::specs::Interfaces::interface_in))]
pub fn interface(
    path: DataplanePath,
    bytes: &[u8],
    index: usize,
) -> Result<Found<InterfaceAt>, PathError>
    ensures { result
        ≡ beside (path_of path.path_type bytes.now)
        (spec.interface_in path.path_type bytes.now index) }
{
    let read = path.standard(bytes)?;
    let meta_header = read.meta_header;
    let hop_field = hop_field_on(bytes, meta_header, index).ok_or(PathError::NoSuchField)?;
    let interface = interface_at(bytes, meta_header, hop_field, index);
    Ok(Found {
        path: read,
        value: InterfaceAt {
            hop_field,
            interface,
        },
    })
}
