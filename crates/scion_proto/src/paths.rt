// The calls on paths: each takes the path's type byte beside its bytes, and hands the library's answer over.
ghost use Rattle.std.specs.Prelude.{◌≡◌};
ghost use Rattle.path.specs.Standard.{beside};
ghost use Rattle.path.specs.Dataplane as dataplane;
ghost use Rattle.path.specs.TimeLeft as left;
ghost use Rattle.path_reverse.specs.Copy as copy;
ghost use Rattle.path_expiry.specs.Expiry as expiry;
ghost use Rattle.path_interfaces.specs.Interfaces as interfaces;
ghost use Rattle.path_reverse.specs.Reverse as reversal;
ghost use Rattle.path_moves.specs.Moves as moves;
ghost use Rattle.scion_paths.specs.Paths as spec;

use path::dataplane::DataplanePath;
use path::standard::StandardPath;
use path_moves::{single_move, walk};
use path_reverse::{copy_to_slice, reverse_to_slice};
use scion_paths::{
    ScionExpiry, ScionHopField, ScionInfoField, ScionInterface, ScionInterfaceCount,
    ScionPathAnswer, ScionPathRead, ScionSegment, ScionTimeLeft, ScionWalk, ScionWrittenPath,
    hop_field_out, info_field_out,
};

// Reads a path by its type: its record, and how many of the bytes are the path's.
#[unsafe(no_mangle)]
pub extern "C" fn scion_read_path(path_type: u8, bytes: &[u8]) -> ScionPathRead
    ensures { result ≡ spec.path_read_out (dataplane.read_dataplane path_type bytes.now) }
{
    ScionPathRead::from(DataplanePath::new(path_type).decode(bytes))
}

// Info field `index`.
#[unsafe(no_mangle)]
pub extern "C" fn scion_info_field(path_type: u8, bytes: &[u8], index: usize) -> ScionInfoField
    ensures { result
        ≡ spec.info_field_out bytes.now
        (beside (dataplane.path_of path_type bytes.now)
        (dataplane.info_field_in path_type bytes.now index)) }
{
    info_field_out(
        bytes,
        DataplanePath::new(path_type).locate_info_field(bytes, index),
    )
}

// Hop field `index`.
#[unsafe(no_mangle)]
pub extern "C" fn scion_hop_field(path_type: u8, bytes: &[u8], index: usize) -> ScionHopField
    ensures { result
        ≡ spec.hop_field_out bytes.now
        (beside (dataplane.path_of path_type bytes.now)
        (dataplane.hop_field_in path_type bytes.now index)) }
{
    hop_field_out(
        bytes,
        DataplanePath::new(path_type).locate_hop_field(bytes, index),
    )
}

// Segment `index`: where its info field and its hop fields lie.
#[unsafe(no_mangle)]
pub extern "C" fn scion_segment(path_type: u8, bytes: &[u8], index: usize) -> ScionSegment
    ensures { result
        ≡ spec.segment_out
        (beside (dataplane.path_of path_type bytes.now) (dataplane.segment_in path_type bytes.now index)) }
{
    ScionSegment::from(DataplanePath::new(path_type).segment(bytes, index))
}

// The expiry of segment `index`.
#[unsafe(no_mangle)]
pub extern "C" fn scion_segment_expiry(path_type: u8, bytes: &[u8], index: usize) -> ScionExpiry
    ensures { result
        ≡ spec.expiry_out
        (beside (dataplane.path_of path_type bytes.now)
        (expiry.segment_expiry_in path_type bytes.now index)) }
{
    ScionExpiry::from(path_expiry::segment_expiry_time(DataplanePath::new(path_type), bytes, index))
}

// The expiry of the path.
#[unsafe(no_mangle)]
pub extern "C" fn scion_expiry(path_type: u8, bytes: &[u8]) -> ScionExpiry
    ensures { result
        ≡ spec.expiry_out
        (beside (dataplane.path_of path_type bytes.now) (expiry.expiry_in path_type bytes.now)) }
{
    ScionExpiry::from(path_expiry::expiry_time(DataplanePath::new(path_type), bytes))
}

// The path's expiry less `at`, a time of 0 to 9,000,000,000,000 ms.
#[unsafe(no_mangle)]
pub extern "C" fn scion_time_left(path_type: u8, bytes: &[u8], at: u64) -> ScionTimeLeft
    ensures { result
        ≡ spec.time_left_out
        (beside (dataplane.path_of path_type bytes.now) (expiry.time_left_in path_type bytes.now at)) }
{
    ScionTimeLeft::from(path_expiry::time_left(DataplanePath::new(path_type), bytes, at))
}

// When the path of a record expires, as the record has it; no bytes are looked at.
#[unsafe(no_mangle)]
pub extern "C" fn scion_record_expiry(path: StandardPath) -> u64
    ensures { result ≡ path.expiry }
{
    path.expiry_time()
}

// The record's expiry less `at`, both within their bounds.
#[unsafe(no_mangle)]
pub extern "C" fn scion_record_time_left(path: StandardPath, at: u64) -> ScionTimeLeft
    ensures { result ≡ spec.time_left_out (beside path (left.time_left_of path at)) }
{
    ScionTimeLeft::from(path.time_left(at))
}

// The number of interfaces on the path.
#[unsafe(no_mangle)]
pub extern "C" fn scion_interfaces_count(path_type: u8, bytes: &[u8]) -> ScionInterfaceCount
    ensures { result
        ≡ spec.interface_count_out
        (beside (dataplane.path_of path_type bytes.now)
        (interfaces.interfaces_in path_type bytes.now)) }
{
    ScionInterfaceCount::from(path_interfaces::interfaces_count(
        DataplanePath::new(path_type),
        bytes,
    ))
}

// Interface `index` in the order of travel, and its hop field.
#[unsafe(no_mangle)]
pub extern "C" fn scion_interface(path_type: u8, bytes: &[u8], index: usize) -> ScionInterface
    ensures { result
        ≡ spec.interface_out
        (beside (dataplane.path_of path_type bytes.now)
        (interfaces.interface_in path_type bytes.now index)) }
{
    ScionInterface::from(path_interfaces::interface(DataplanePath::new(path_type), bytes, index))
}

// Sets or clears the ingress alert flag of hop field `index`.
#[unsafe(no_mangle)]
pub extern "C" fn scion_set_ingress_router_alert(
    path_type: u8,
    bytes: &mut [u8],
    index: usize,
    on: bool,
) -> ScionPathAnswer
    ensures value { result ≡ spec.path_answer_out (dataplane.written_answer path_type (dataplane.alerted 1 on path_type bytes.old index)) }
    ensures bytes_after { bytes.new ≡ dataplane.contents (dataplane.alerted 1 on path_type bytes.old index) bytes.old }
{
    ScionPathAnswer::from(DataplanePath::new(path_type).set_cons_ingress_router_alert(
        bytes, index, on,
    ))
}

// Sets or clears the egress alert flag of hop field `index`.
#[unsafe(no_mangle)]
pub extern "C" fn scion_set_egress_router_alert(
    path_type: u8,
    bytes: &mut [u8],
    index: usize,
    on: bool,
) -> ScionPathAnswer
    ensures value { result ≡ spec.path_answer_out (dataplane.written_answer path_type (dataplane.alerted 0 on path_type bytes.old index)) }
    ensures bytes_after { bytes.new ≡ dataplane.contents (dataplane.alerted 0 on path_type bytes.old index) bytes.old }
{
    ScionPathAnswer::from(DataplanePath::new(path_type).set_cons_egress_router_alert(
        bytes, index, on,
    ))
}

// A single move.
#[unsafe(no_mangle)]
pub extern "C" fn scion_move(path_type: u8, bytes: &mut [u8]) -> ScionPathAnswer
    ensures value { result ≡ spec.path_answer_out (dataplane.written_answer path_type (moves.move path_type bytes.old)) }
    ensures bytes_after { bytes.new ≡ moves.moved path_type bytes.old }
{
    ScionPathAnswer::from(single_move(DataplanePath::new(path_type), bytes))
}

// A walk: moves until the last hop field or the limit.
#[unsafe(no_mangle)]
pub extern "C" fn scion_walk(path_type: u8, bytes: &mut [u8], limit: usize) -> ScionWalk
    ensures value { result ≡ spec.walk_out (moves.walk_answer path_type (moves.walk path_type bytes.old limit)) }
    ensures bytes_after { bytes.new ≡ moves.walked path_type bytes.old limit }
{
    ScionWalk::from(walk(DataplanePath::new(path_type), bytes, limit))
}

// Copies the path to the front of a destination of at least its length; the bytes behind it stay as they are.
#[unsafe(no_mangle)]
pub extern "C" fn scion_copy_path(path_type: u8, bytes: &[u8], dst: &mut [u8]) -> ScionWrittenPath
    ensures value { result
        ≡ spec.written_path_out (copy.written_path path_type (copy.copy path_type bytes.now dst.old)) }
    ensures dst_after { dst.new
        ≡ copy.contents_after (copy.copy path_type bytes.now dst.old) dst.old }
{
    ScionWrittenPath::from(copy_to_slice(DataplanePath::new(path_type), bytes, dst))
}

// Writes the reply's path to the front of a destination of at least the path's length; the bytes behind it stay as they are.
#[unsafe(no_mangle)]
pub extern "C" fn scion_reverse_path(
    path_type: u8,
    bytes: &[u8],
    dst: &mut [u8],
) -> ScionWrittenPath
    ensures value { result
        ≡ spec.written_path_out (copy.written_path path_type (reversal.reverse path_type bytes.now dst.old)) }
    ensures dst_after { dst.new
        ≡ copy.contents_after (reversal.reverse path_type bytes.now dst.old) dst.old }
{
    ScionWrittenPath::from(reverse_to_slice(DataplanePath::new(path_type), bytes, dst))
}
