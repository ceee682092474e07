// Moves: how a packet's path goes from hop field to hop field. Move, walk, owner and spared are document 01's words.
#![tactic(auto)]

ghost use Rattle.std.specs.Prelude.{◌≡◌, ◌+◌, ◌≤◌, ◌<◌, length, Ok};
ghost use Rattle.path.specs.Standard.{info_at};
ghost use Rattle.path_meta_header.specs.MetaHeader.{path_length, info_start};
ghost use Rattle.path.specs.Dataplane.{path_of, path_answer, written_answer};
ghost use Rattle.path_moves.specs.Rules as rules;
ghost use Rattle.path_moves.specs.Moves as spec;

use errors::path_error::PathError;
use path::dataplane::DataplanePath;
use path::standard::StandardPath;
use path::standard::peering::both_peering;
use path_fields::{HopField, InfoField};
use path_meta_header::PathMetaHeader;
use wire_encoding::number::Number;
use wire_encoding::read::{get_or_zero, wide};

// Info field `k`, which is there.
#[tactic(auto, using(path_fields::proofs::Fields::info_of_part))]
fn info_field_at(bytes: &[u8], k: usize) -> InfoField
    requires { (info_start k + 8 ≤ length bytes.now) × (k < 256) }
    ensures { result ≡ info_at bytes.now k }
{
    let at = PathMetaHeader::LENGTH + k * InfoField::LENGTH;
    InfoField::new(&bytes[at..at + InfoField::LENGTH]).unwrap()
}

// Whether peering is set on one of the first `count` info fields.
#[tactic(auto, using(crate::proofs::Rules::some_peering_lem), unfolding(crate::specs::Rules::some_peering))]
fn some_peering(bytes: &[u8], count: usize) -> bool
    requires { (info_start count ≤ length bytes.now) × (count ≤ 3) }
    ensures { result ≡ rules.some_peering bytes.now count }
{
    for k in 0..count {
        if info_field_at(bytes, k).is_peering() {
            return true;
        }
    }
    false
}

// Whether peering is set on no info field, or the path is a peering path.
#[tactic(auto, unfolding(crate::specs::Rules::peering_allowed, path::specs::Standard::peering_path, path_meta_header::specs::MetaHeader::path_length))]
fn peering_allowed(bytes: &[u8], meta_header: PathMetaHeader) -> bool
    requires { path_length meta_header ≤ length bytes.now }
    ensures { result ≡ rules.peering_allowed bytes.now meta_header }
{
    let count = meta_header.info_fields_count();
    if some_peering(bytes, count) {
        return both_peering(count, bytes);
    }
    true
}

// Reading, 8 for every type but 1, then 13 for too many hop fields and 14 for peering: where moves and walks begin.
#[tactic(auto, using(path::proofs::Reading::answers_read, crate::proofs::Rules::standard_whole), unfolding(crate::specs::Rules::movable, path::specs::Dataplane::path_answer))]
pub fn movable(path: DataplanePath, bytes: &[u8]) -> Result<StandardPath, PathError>
    ensures { result
        ≡ path_answer (path_of path.path_type bytes.now) (rules.movable path.path_type bytes.now) }
{
    let read = path.standard(bytes)?;
    let meta_header = read.meta_header;
    if 64 < meta_header.hop_fields_count() {
        return Err(PathError::TooManyHopFields);
    }
    if peering_allowed(bytes, meta_header) {
        return Ok(read);
    }
    Err(PathError::PeeringNotOnBoth)
}

// The owner of the move from hop field `hop` inside a segment: the hop field whose code the accumulator takes in.
#[tactic(auto, unfolding(crate::specs::Rules::owner_of))]
pub fn owner_of(info_field: InfoField, hop: u8) -> usize
    ensures { (result ≡ rules.owner_of info_field hop) × (result ≤ hop + 1) × (result ≤ 256) }
{
    let owner = wide(hop);
    if info_field.is_constructed_dir() {
        return owner;
    }
    owner + 1
}

// Whether peering spares this owner: the last hop field of the first segment, and the first of the second.
#[tactic(auto, unfolding(crate::specs::Rules::spared))]
pub fn is_spared(info_field: InfoField, owner: usize, first_length: usize) -> bool
    ensures { result ≡ rules.spared info_field owner first_length }
{
    if info_field.is_peering() {
        if owner < first_length {
            return owner == first_length - 1;
        }
        return owner == first_length;
    }
    false
}

// The pair of pointers in a path's bytes.
#[derive(Clone, Copy, Debug, PartialEq, Eq, Hash)]
pub struct Position {
    pub current_info_field: u8,
    pub current_hop_field: u8,
}

// A move: the new position, and what the accumulator of the segment that was left changes by.
#[derive(Clone, Copy, Debug, PartialEq, Eq, Hash)]
pub struct Moved {
    pub position: Position,
    pub change: u16,
}

// A walk that was made: the record of the path that it leaves, how many moves it made, and whether it stands at the last hop field.
#[derive(Clone, Copy, Debug, PartialEq, Eq, Hash)]
pub struct WalkAnswer {
    pub path: StandardPath,
    pub moves: usize,
    pub arrived: bool,
}

// How many moves a walk made, and the header that it left.
#[derive(Clone, Copy, Debug, PartialEq, Eq, Hash)]
pub struct Walked {
    pub meta_header: PathMetaHeader,
    pub moves: usize,
}

impl Position {
    // The pointers of a header.
    #[tactic(auto, unfolding(crate::specs::Moves::position_of))]
    fn of(meta_header: PathMetaHeader) -> Position
        ensures { result ≡ spec.position_of meta_header }
    {
        Position {
            current_info_field: meta_header.current_info_field,
            current_hop_field: meta_header.current_hop_field,
        }
    }

    // The move from this position, which is the path's own and not its last.
    #[tactic(auto, using(crate::proofs::Moves::pointers_there, wire_encoding::proofs::BigEndian::or_zero_is), unfolding(crate::specs::Moves::move_from, crate::specs::Moves::change_of, crate::specs::Moves::takes_in))]
    fn moved(self, bytes: &[u8], meta_header: PathMetaHeader) -> Moved
        requires can_move { spec.CanMove bytes.now meta_header }
        requires self_value { self ≡ spec.position_of meta_header }
        ensures { result ≡ spec.move_from bytes.now meta_header self }
    {
        let segment = wide(self.current_info_field);
        let hop = wide(self.current_hop_field);
        let next = meta_header.segment_of(hop + 1);
        let position = Position {
            current_info_field: next as u8,
            current_hop_field: (hop + 1) as u8,
        };
        if next != segment {
            return Moved {
                position,
                change: 0,
            };
        }
        let info_field = info_field_at(bytes, segment);
        let owner = owner_of(info_field, self.current_hop_field);
        if is_spared(info_field, owner, meta_header.segment_length(0)) {
            return Moved {
                position,
                change: 0,
            };
        }
        let owner_at = meta_header.hop_fields_start() + owner * HopField::LENGTH;
        Moved {
            position,
            change: get_or_zero(bytes, owner_at + 6),
        }
    }
}

// The header with its pointers at another position.
#[tactic(auto, unfolding(crate::specs::Moves::at_position))]
fn at_position(meta_header: PathMetaHeader, position: Position) -> PathMetaHeader
    ensures { result ≡ spec.at_position meta_header position }
{
    PathMetaHeader {
        current_info_field: position.current_info_field,
        current_hop_field: position.current_hop_field,
        ..meta_header
    }
}

// Writes a move out of segment `segment` to the path's bytes: the pointers, and the two bytes of its accumulator.
#[tactic(auto, using(crate::proofs::Moves::applied_lent))]
fn apply(bytes: &mut [u8], segment: usize, moved: Moved)
    requires segment_in_bounds { info_start segment + 4 ≤ length bytes.old }
    requires current_info_field_bound { (moved.position.current_info_field < 4) × (moved.position.current_hop_field < 64) }
    ensures { bytes.new ≡ spec.applied bytes.old segment moved }
{
    let at = PathMetaHeader::LENGTH + segment * InfoField::LENGTH + 2;
    let position = moved.position;
    let accumulator = get_or_zero::<u16>(bytes, at) ^ moved.change;
    bytes[0] = position.current_info_field * 64 + position.current_hop_field;
    accumulator.write_be(&mut bytes[at..at + 2]);
}

// One move of a path that can be moved; hands back the header that it leaves.
#[tactic(auto, using(crate::proofs::Moves::applies), unfolding(crate::specs::Moves::moved_meta))]
fn step(bytes: &mut [u8], meta_header: PathMetaHeader) -> PathMetaHeader
    requires { spec.CanMove bytes.old meta_header }
    ensures value { result ≡ spec.moved_meta bytes.old meta_header }
    ensures bytes_after { bytes.new ≡ spec.move_bytes bytes.old meta_header }
{
    let position = Position::of(meta_header);
    let moved = position.moved(bytes, meta_header);
    apply(bytes, wide(meta_header.current_info_field), moved);
    at_position(meta_header, moved.position)
}

// One move on lent bytes: the hop pointer gains 1, the info pointer names the new segment, the accumulator takes the owner's code in.
#[tactic(auto, using(crate::proofs::Moves::single_moves), unfolding(crate::specs::Moves::moved, path::specs::Dataplane::written_answer))]
pub fn single_move(path: DataplanePath, bytes: &mut [u8]) -> Result<StandardPath, PathError>
    ensures value { result ≡ written_answer path.path_type (spec.move path.path_type bytes.old) }
    ensures bytes_after { bytes.new ≡ spec.moved path.path_type bytes.old }
{
    let read = movable(path, bytes)?;
    let meta_header = read.meta_header;
    if wide(meta_header.current_hop_field) + 1 == meta_header.hop_fields_count() {
        return Err(PathError::AtLastHopField);
    }
    let left = step(bytes, meta_header);
    Ok(StandardPath {
        meta_header: left,
        expiry: read.expiry,
    })
}

// Moves until the last hop field or the limit.
#[tactic(auto, using(crate::proofs::Walks::walking), unfolding(crate::specs::Moves::walk_moves))]
fn steps(bytes: &mut [u8], start: PathMetaHeader, limit: usize) -> Walked
    requires { rules.movable 1 bytes.old ≡ Ok start }
    ensures moves_value { result.moves ≡ spec.walk_moves start limit }
    ensures bytes_value { path_of 1 (spec.iterate result.moves (spec.moved 1) bytes.old)
        ≡ record { meta_header = result.meta_header; expiry = (path_of 1 bytes.old).expiry } }
    ensures bytes_after { bytes.new ≡ spec.iterate result.moves (spec.moved 1) bytes.old }
{
    let to_the_last = start.hop_fields_count() - 1 - wide(start.current_hop_field);
    let moves = limit.min(to_the_last);
    let mut meta_header = start;
    for _ in 0..moves {
        meta_header = step(bytes, meta_header);
    }
    Walked { meta_header, moves }
}

// A walk on lent bytes: moves until the last hop field or the limit.
#[tactic(auto, using(crate::proofs::Walks::walks), unfolding(crate::specs::Moves::walked, crate::specs::Moves::walk_answer, crate::specs::Moves::is_last))]
pub fn walk(path: DataplanePath, bytes: &mut [u8], limit: usize) -> Result<WalkAnswer, PathError>
    ensures value { result ≡ spec.walk_answer path.path_type (spec.walk path.path_type bytes.old limit) }
    ensures bytes_after { bytes.new ≡ spec.walked path.path_type bytes.old limit }
{
    let read = movable(path, bytes)?;
    let start = read.meta_header;
    let walked = steps(bytes, start, limit);
    let moves = walked.moves;
    Ok(WalkAnswer {
        path: StandardPath {
            meta_header: walked.meta_header,
            expiry: read.expiry,
        },
        moves,
        arrived: wide(start.current_hop_field) + moves + 1 == start.hop_fields_count(),
    })
}
