// Calls on runs of hop fields.
use crate::print;
use crate::print::Hex;
use path::dataplane::DataplanePath;
use path_fields::HopField;
use path_hop_fields::run;
use path_hop_fields::view::{HopFields, read_ends};
use std::io;

// The numbers of a hop field: flags, expiry byte, construction interfaces, code.
fn hop_field(out: &impl Print, field: HopField) -> io::Result<()> {
    print!(out;
        " {} {} {} {} {}",
        field.flags,
        field.exp_time,
        field.cons_ingress,
        field.cons_egress,
        Hex(&field.mac)
    )
}

// `ends B`: whether B is a run, how many hop fields it has, the one read at the front, then the one read at the back, and how many are left.
pub fn ends(out: &impl Print, bytes: &[u8]) -> io::Result<()> {
    print::answer(out, run::check(bytes))?;
    print::number(out, run::count(run::whole(bytes)))?;
    let ends = read_ends(bytes);
    hop_field(out, ends.first)?;
    hop_field(out, ends.last)?;
    print::number(out, ends.between)
}

// `parts B`: the hop field at the front of a run, the run without it, the hop field at its back, and the run without that.
pub fn parts(out: &impl Print, bytes: &[u8]) -> io::Result<()> {
    let whole = run::whole(bytes);
    print!(out;
        " {} {} {} {}",
        Hex(run::first(whole)),
        Hex(run::after_first(whole)),
        Hex(run::last(whole)),
        Hex(run::before_last(whole))
    )
}

// `reads B S`: whether B is a run, and how many hop fields it has; then for each letter of S a read, `f` at the front and `b` at the
// back: the hop field, `-` where none is left, and how many are left.
pub fn reads(out: &impl Print, bytes: &[u8], order: &[u8]) -> io::Result<()> {
    print::answer(out, run::check(bytes))?;
    let mut hop_fields = HopFields::new(bytes);
    print::number(out, hop_fields.len())?;
    for letter in order {
        let read = match *letter {
            b'f' => hop_fields.next(),
            _ => hop_fields.next_back(),
        };
        print!(out; " {} {}", Hex(read), hop_fields.len())?;
    }
    Ok(())
}

// `hops T B`: whether the path has hop fields, how many, and their bytes.
pub fn hops(out: &impl Print, path: DataplanePath, bytes: &[u8]) -> io::Result<()> {
    print::answer(out, path_hop_fields::locate(path, bytes))?;
    let hop_fields = path_hop_fields::hop_fields(path, bytes);
    print!(out; " {} {}", run::count(hop_fields), Hex(hop_fields))
}

// `seghops T B i`: how many hop fields segment i has, and their bytes.
pub fn seghops(
    out: &impl Print,
    path: DataplanePath,
    bytes: &[u8],
    index: usize,
) -> io::Result<()> {
    let hop_fields = path.segment_hop_fields(bytes, index);
    print!(out; " {} {}", run::count(hop_fields), Hex(hop_fields))
}
