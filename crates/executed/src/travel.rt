// Calls that change paths: word 1 is the type, word 2 the bytes.
use crate::{print, words};
use errors::path_error::PathError;
use path::dataplane::{DataplanePath, Extent};
use path::standard::StandardPath;
use path_moves::WalkAnswer;
use scion_paths::{ScionPathAnswer, ScionWalk, ScionWrittenPath};
use std::io;

// The path of the type in word 1.
pub fn path_at(line: &[u8]) -> DataplanePath {
    DataplanePath::new(words::number_at(line, 1))
}

// Whether a call was carried out.
pub fn done(out: &impl Print, left: Result<StandardPath, PathError>) -> io::Result<()> {
    print::handed(out, ScionPathAnswer::from(left).answer)
}

// Whether a path was written, and how many bytes of the destination it is.
pub fn written(out: &impl Print, written: Result<Extent, PathError>) -> io::Result<()> {
    let written = ScionWrittenPath::from(written);
    print::handed(out, written.answer)?;
    print::number(out, written.length)
}

// The ingress (word 4 is 1) or egress (it is 0) alert flag of hop field `index` set to word 5.
pub fn set_alert(line: &[u8], bytes: &mut [u8], index: usize) -> Result<StandardPath, PathError> {
    let enable = words::flag_at(line, 5);
    if words::flag_at(line, 4) {
        path_at(line).set_cons_ingress_router_alert(bytes, index, enable)
    } else {
        path_at(line).set_cons_egress_router_alert(bytes, index, enable)
    }
}

// `walk T B limit`: how many moves a walk made, whether it stands at the last hop field, and the bytes after it.
pub fn walk(out: &impl Print, walked: Result<WalkAnswer, PathError>) -> io::Result<()> {
    let walk = ScionWalk::from(walked);
    print::handed(out, walk.answer)?;
    print::number(out, walk.moves)?;
    print::flag(out, walk.arrived)
}
