// Segments: an info field and its run of hop fields.
use crate::standard::Part;

// A segment: where its info field and its hop fields lie.
#[derive(Clone, Copy, Debug, PartialEq, Eq, Hash)]
pub struct Segment {
    pub info_field: Part,
    pub hop_fields: Part,
}
