// What calls on paths hand to C, in the layout of include/scion_proto.h, and how it is made.
#![tactic(auto)]

ghost use Rattle.std.specs.Prelude.{◌≡◌};
ghost use Rattle.errors.specs.Errors.{path_number, path_value};
ghost use Rattle.wire_encoding.specs.Result.{or_else};
ghost use Rattle.path.specs.Standard.{no_path};
ghost use Rattle.path.specs.Dataplane.{unread};
ghost use Rattle.scion_paths.specs.Answer.{answer_out, decoded_out};
ghost use Rattle.scion_paths.specs.Paths as spec;

use errors::packet_error::DecodeError;
use errors::path_error::PathError;
use path::dataplane::Extent;
use path::standard::segment::Segment;
use path::standard::{Found, Part, StandardPath};
use path_fields::{HopField, InfoField};
use path_interfaces::InterfaceAt;
use path_moves::WalkAnswer;

// The structs are C's, field by field (include/scion_proto.h): there a refusal is a number, beside zeros.

// 0 where the call was carried out, else the number of the refusal; the value is 0 unless the number is 2 or 3.
#[repr(C)]
#[derive(Clone, Copy)]
pub struct ScionAnswer {
    pub number: u8,
    pub value: u8,
}

impl ScionAnswer {
    pub const ACCEPTED: ScionAnswer = ScionAnswer {
        number: 0,
        value: 0,
    };
}

impl From<PathError> for ScionAnswer {
    ghost from_gives = { λ error answer. answer ≡ record { number = path_number error; value = path_value error } };

    fn from(error: PathError) -> ScionAnswer {
        ScionAnswer {
            number: error.number(),
            value: error.value(),
        }
    }
}

// The answer of a call.
#[tactic(auto, unfolding(crate::specs::Answer::answer_out))]
pub fn answer_out<T>(read: &Result<T, PathError>) -> ScionAnswer
    ensures { result ≡ answer_out read.now }
{
    match read {
        Ok(_) => ScionAnswer::ACCEPTED,
        Err(error) => ScionAnswer::from(*error),
    }
}

// The answer of a reader.
#[tactic(auto, unfolding(crate::specs::Answer::decoded_out))]
pub fn decoded_out<T>(read: &Result<T, DecodeError>) -> ScionAnswer
    ensures { result ≡ decoded_out read.now }
{
    match read {
        Ok(_) => ScionAnswer::ACCEPTED,
        Err(error) => ScionAnswer::from(PathError::Decode(*error)),
    }
}

// Whether a call was carried out, and the record of the path as the call leaves it.
#[repr(C)]
#[derive(Clone, Copy)]
pub struct ScionPathAnswer {
    pub answer: ScionAnswer,
    pub path: StandardPath,
}

// A path that was read, and how many of the bytes are the path's.
#[repr(C)]
#[derive(Clone, Copy)]
pub struct ScionPathRead {
    pub answer: ScionAnswer,
    pub path: StandardPath,
    pub length: usize,
}

// Whether a path was written, its record, and how many bytes of the destination it is.
#[repr(C)]
#[derive(Clone, Copy)]
pub struct ScionWrittenPath {
    pub answer: ScionAnswer,
    pub path: StandardPath,
    pub length: usize,
}

// An info field and where it starts.
#[repr(C)]
#[derive(Clone, Copy)]
pub struct ScionInfoField {
    pub answer: ScionAnswer,
    pub path: StandardPath,
    pub start: usize,
    pub flags: u8,
    pub reserved: u8,
    pub accumulator: u16,
    pub timestamp: u32,
}

// A hop field and where it starts.
#[repr(C)]
#[derive(Clone, Copy)]
pub struct ScionHopField {
    pub answer: ScionAnswer,
    pub path: StandardPath,
    pub start: usize,
    pub flags: u8,
    pub exp_time: u8,
    pub cons_ingress: u16,
    pub cons_egress: u16,
    pub mac: [u8; 6],
}

// A segment: where its info field and its hop fields lie.
#[repr(C)]
#[derive(Clone, Copy)]
pub struct ScionSegment {
    pub answer: ScionAnswer,
    pub path: StandardPath,
    pub info_field: Part,
    pub hop_fields: Part,
}

// An expiry in ms since 1970.
#[repr(C)]
#[derive(Clone, Copy)]
pub struct ScionExpiry {
    pub answer: ScionAnswer,
    pub path: StandardPath,
    pub ms: u64,
}

// The time left in ms, below zero once the path has expired.
#[repr(C)]
#[derive(Clone, Copy)]
pub struct ScionTimeLeft {
    pub answer: ScionAnswer,
    pub path: StandardPath,
    pub ms: i64,
}

// The number of interfaces.
#[repr(C)]
#[derive(Clone, Copy)]
pub struct ScionInterfaceCount {
    pub answer: ScionAnswer,
    pub path: StandardPath,
    pub count: usize,
}

// An interface, 0 for none, and the hop field that it belongs to.
#[repr(C)]
#[derive(Clone, Copy)]
pub struct ScionInterface {
    pub answer: ScionAnswer,
    pub path: StandardPath,
    pub hop_field: usize,
    pub id: u16,
}

// How many moves a walk made, and whether it stands at the last hop field.
#[repr(C)]
#[derive(Clone, Copy)]
pub struct ScionWalk {
    pub answer: ScionAnswer,
    pub path: StandardPath,
    pub moves: usize,
    pub arrived: bool,
}

// What is found of a path; the record is all zero, and the value is `zero`, where it was refused. The zeros of a record are made in an
// arm of their own, here and below, so that an accepted call does not make them.
fn found_out<T: Copy + Drop>(read: Result<Found<T>, PathError>, zero: T) -> Found<T>
    ensures { result ≡ spec.found_out zero read }
{
    match read {
        Ok(found) => found,
        Err(_) => Found {
            path: StandardPath::zero(),
            value: zero,
        },
    }
}

// The record of a path; all zero where it was refused.
fn path_out(read: Result<StandardPath, PathError>) -> StandardPath
    ensures { result ≡ or_else read no_path }
{
    match read {
        Ok(path) => path,
        Err(_) => StandardPath::zero(),
    }
}

// A path and its length; all zero where it was refused.
fn extent_out<E: Copy + Drop>(read: Result<Extent, E>) -> Extent
    ensures { result ≡ or_else read (unread 0) }
{
    match read {
        Ok(extent) => extent,
        Err(_) => Extent {
            path: StandardPath::zero(),
            length: 0,
        },
    }
}

// A call that hands the path's record over.
impl From<Result<StandardPath, PathError>> for ScionPathAnswer {
    ghost from_gives = { λ left out. out ≡ spec.path_answer_out left };

    #[tactic(auto, unfolding(crate::specs::Paths::path_answer_out))]
    fn from(left: Result<StandardPath, PathError>) -> ScionPathAnswer {
        ScionPathAnswer {
            answer: answer_out(&left),
            path: path_out(left),
        }
    }
}

impl From<Result<Extent, DecodeError>> for ScionPathRead {
    ghost from_gives = { λ read out. out ≡ spec.path_read_out read };

    #[tactic(auto, unfolding(crate::specs::Paths::path_read_out))]
    fn from(read: Result<Extent, DecodeError>) -> ScionPathRead {
        let answer = decoded_out(&read);
        let extent = extent_out(read);
        ScionPathRead {
            answer,
            path: extent.path,
            length: extent.length,
        }
    }
}

impl From<Result<Extent, PathError>> for ScionWrittenPath {
    ghost from_gives = { λ written out. out ≡ spec.written_path_out written };

    #[tactic(auto, unfolding(crate::specs::Paths::written_path_out))]
    fn from(written: Result<Extent, PathError>) -> ScionWrittenPath {
        let answer = answer_out(&written);
        let front = extent_out(written);
        ScionWrittenPath {
            answer,
            path: front.path,
            length: front.length,
        }
    }
}

impl From<Result<Found<Segment>, PathError>> for ScionSegment {
    ghost from_gives = { λ read out. out ≡ spec.segment_out read };

    #[tactic(auto, unfolding(crate::specs::Paths::segment_out))]
    fn from(read: Result<Found<Segment>, PathError>) -> ScionSegment {
        let answer = answer_out(&read);
        let nowhere = Part { start: 0, len: 0 };
        let found = found_out(
            read,
            Segment {
                info_field: nowhere,
                hop_fields: nowhere,
            },
        );
        ScionSegment {
            answer,
            path: found.path,
            info_field: found.value.info_field,
            hop_fields: found.value.hop_fields,
        }
    }
}

impl From<Result<Found<u64>, PathError>> for ScionExpiry {
    ghost from_gives = { λ read out. out ≡ spec.expiry_out read };

    #[tactic(auto, unfolding(crate::specs::Paths::expiry_out))]
    fn from(read: Result<Found<u64>, PathError>) -> ScionExpiry {
        let answer = answer_out(&read);
        let found = found_out(read, 0);
        ScionExpiry {
            answer,
            path: found.path,
            ms: found.value,
        }
    }
}

impl From<Result<Found<i64>, PathError>> for ScionTimeLeft {
    ghost from_gives = { λ read out. out ≡ spec.time_left_out read };

    #[tactic(auto, unfolding(crate::specs::Paths::time_left_out))]
    fn from(read: Result<Found<i64>, PathError>) -> ScionTimeLeft {
        let answer = answer_out(&read);
        let found = found_out(read, 0);
        ScionTimeLeft {
            answer,
            path: found.path,
            ms: found.value,
        }
    }
}

impl From<Result<Found<usize>, PathError>> for ScionInterfaceCount {
    ghost from_gives = { λ read out. out ≡ spec.interface_count_out read };

    #[tactic(auto, unfolding(crate::specs::Paths::interface_count_out))]
    fn from(read: Result<Found<usize>, PathError>) -> ScionInterfaceCount {
        let answer = answer_out(&read);
        let found = found_out(read, 0);
        ScionInterfaceCount {
            answer,
            path: found.path,
            count: found.value,
        }
    }
}

impl From<Result<Found<InterfaceAt>, PathError>> for ScionInterface {
    ghost from_gives = { λ read out. out ≡ spec.interface_out read };

    #[tactic(auto, unfolding(crate::specs::Paths::interface_out))]
    fn from(read: Result<Found<InterfaceAt>, PathError>) -> ScionInterface {
        let answer = answer_out(&read);
        let found = found_out(
            read,
            InterfaceAt {
                hop_field: 0,
                interface: None,
            },
        );
        ScionInterface {
            answer,
            path: found.path,
            hop_field: found.value.hop_field,
            id: found.value.interface.unwrap_or(0),
        }
    }
}

impl From<Result<WalkAnswer, PathError>> for ScionWalk {
    ghost from_gives = { λ walked out. out ≡ spec.walk_out walked };

    #[tactic(auto, unfolding(crate::specs::Paths::walk_out))]
    fn from(walked: Result<WalkAnswer, PathError>) -> ScionWalk {
        let answer = answer_out(&walked);
        let walk = match walked {
            Ok(walk) => walk,
            Err(_) => WalkAnswer {
                path: StandardPath::zero(),
                moves: 0,
                arrived: false,
            },
        };
        ScionWalk {
            answer,
            path: walk.path,
            moves: walk.moves,
            arrived: walk.arrived,
        }
    }
}

// An info field that was found among `bytes`, and where it starts.
#[tactic(auto, unfolding(crate::specs::Paths::info_field_out, path_fields::specs::Fields::zero_info_field))]
pub fn info_field_out(bytes: &[u8], read: Result<Found<Part>, PathError>) -> ScionInfoField
    ensures { result ≡ spec.info_field_out bytes.now read }
{
    let answer = answer_out(&read);
    let found = found_out(read, Part { start: 0, len: 0 });
    let field = InfoField::new(found.value.of(bytes)).unwrap_or(InfoField::ZERO);
    ScionInfoField {
        answer,
        path: found.path,
        start: found.value.start,
        flags: field.flags,
        reserved: field.reserved,
        accumulator: field.accumulator,
        timestamp: field.timestamp,
    }
}

// A hop field that was found among `bytes`, and where it starts.
#[tactic(auto, unfolding(crate::specs::Paths::hop_field_out, path_fields::specs::Fields::zero_hop_field))]
pub fn hop_field_out(bytes: &[u8], read: Result<Found<Part>, PathError>) -> ScionHopField
    ensures { result ≡ spec.hop_field_out bytes.now read }
{
    let answer = answer_out(&read);
    let found = found_out(read, Part { start: 0, len: 0 });
    let field = HopField::new(found.value.of(bytes)).unwrap_or(HopField::ZERO);
    let mac = field.mac;
    ScionHopField {
        answer,
        path: found.path,
        start: found.value.start,
        flags: field.flags,
        exp_time: field.exp_time,
        cons_ingress: field.cons_ingress,
        cons_egress: field.cons_egress,
        mac,
    }
}
