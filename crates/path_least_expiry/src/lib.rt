// When a path expires: the least expiry of its hop fields, by segment and of the whole path.
#![tactic(auto)]

ghost use Rattle.std.specs.Prelude.{◌≡◌, ◌+◌, ◌-◌, ◌/◌, ◌≤◌, ◌<◌, length};
ghost use Rattle.wire_encoding.specs.BigEndian.{big_endian};
ghost use Rattle.path_meta_header.specs.MetaHeader as meta;
ghost use Rattle.path_least_expiry.specs.Expiry as spec;

use path_fields::{HopField, InfoField, expiry};
use path_meta_header::PathMetaHeader;
use wire_encoding::read::get_or_zero;

// The least expiry byte of a run of hop fields, of which there is at least one.
#[tactic(auto, using(crate::proofs::Least::least_one, crate::proofs::Least::least_more))]
fn least_exp_time(hop_fields: &[u8]) -> u8
    requires { 12 ≤ length hop_fields.now }
    ensures { result ≡ spec.least (spec.exp_time_at hop_fields.now 0) (length hop_fields.now / 12 - 1) }
{
    let count = hop_fields.len() / HopField::LENGTH;
    let mut least = hop_fields[1];
    for last in 1..count {
        least = least.min(hop_fields[last * HopField::LENGTH + 1]);
    }
    least
}

// The timestamp of the info field at `at`.
#[tactic(auto, using(wire_encoding::proofs::BigEndian::or_zero_is))]
fn timestamp_at(bytes: &[u8], at: usize) -> u32
    requires { at + 8 ≤ length bytes.now }
    ensures { result ≡ big_endian 4 bytes.now (at + 4) }
{
    get_or_zero(bytes, at + 4)
}

// The expiry of segment `k`, which is there: the least of its hop fields'.
fn segment_expiry(bytes: &[u8], meta_header: PathMetaHeader, k: usize) -> u64
    requires { (k < meta.info_fields_count meta_header) × (meta.path_length meta_header ≤ length bytes.now) }
    ensures { (result ≡ spec.segment_expiry bytes.now meta_header k) × (result ≤ spec.largest_expiry) }
{
    let first = meta_header.hop_fields_start() + meta_header.first_hop_field(k) * HopField::LENGTH;
    let end = first + meta_header.segment_length(k) * HopField::LENGTH;
    let timestamp = timestamp_at(bytes, PathMetaHeader::LENGTH + k * InfoField::LENGTH);
    expiry(timestamp, least_exp_time(&bytes[first..end]))
}

// The expiry of a path that was read: the least of its segments'.
#[tactic(auto, using(crate::proofs::Least::least_one, crate::proofs::Least::least_more), unfolding(crate::specs::Expiry::path_expiry))]
fn path_expiry(bytes: &[u8], meta_header: PathMetaHeader) -> u64
    requires { (0 < meta.info_fields_count meta_header) × (meta.path_length meta_header ≤ length bytes.now) }
    ensures { (result ≡ spec.path_expiry bytes.now meta_header) × (result ≤ spec.largest_expiry) }
{
    let count = meta_header.info_fields_count();
    let mut least = segment_expiry(bytes, meta_header, 0);
    for k in 1..count {
        let next = segment_expiry(bytes, meta_header, k);
        least = least.min(next);
    }
    least
}

// Whether segment `k` is there, and all fields of the path are among the bytes.
#[tactic(auto, unfolding(crate::specs::Expiry::is_there))]
fn is_there(bytes: &[u8], meta_header: PathMetaHeader, k: usize) -> bool
    ensures { result ≡ spec.is_there bytes.now meta_header k }
{
    if meta_header.info_fields_count() <= k {
        return false;
    }
    meta_header.encoded_path_length() <= bytes.len()
}

// The expiry of segment `k`; 0 where it is not there.
#[tactic(auto, using(crate::proofs::There::there), unfolding(crate::specs::Expiry::segment_expiry_or_zero))]
pub fn segment_expiry_or_zero(bytes: &[u8], meta_header: PathMetaHeader, k: usize) -> u64
    ensures { (result ≡ spec.segment_expiry_or_zero bytes.now meta_header k) × (result ≤ spec.largest_expiry) }
{
    if is_there(bytes, meta_header, k) {
        return segment_expiry(bytes, meta_header, k);
    }
    0
}

// The expiry of the path; 0 where its fields are not all there.
#[tactic(auto, using(crate::proofs::There::there), unfolding(crate::specs::Expiry::path_expiry_or_zero))]
pub fn path_expiry_or_zero(bytes: &[u8], meta_header: PathMetaHeader) -> u64
    ensures { (result ≡ spec.path_expiry_or_zero bytes.now meta_header) × (result ≤ spec.largest_expiry) }
{
    if is_there(bytes, meta_header, 0) {
        return path_expiry(bytes, meta_header);
    }
    0
}
