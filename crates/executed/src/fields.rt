// Calls on info fields and hop fields.
use crate::print::Hex;
use crate::{print, words};
use path_fields::{HopField, InfoField};
use std::io;

// A call on a flag byte.
#[derive(Clone, Copy)]
pub enum FlagsCall {
    // `infobits n`: its direction (n 0) or peering bit (n 1).
    InfoBits,
    // `infodirs n`: it with the direction set to n.
    InfoDirs,
    // `hopbits k`: its egress (k 0) or ingress alert flag (k 1).
    HopBits,
    // `hopalerts k n`: it with that flag set to n.
    HopAlerts,
}

// `info B`: direction, peering, reserved byte, accumulator, time and flags.
pub fn info(out: &impl Print, bytes: &[u8]) -> io::Result<()> {
    let read = InfoField::new(bytes);
    print::answer_number(out, read)?;
    let field = read.unwrap_or(InfoField::ZERO);
    print::flag(out, field.is_constructed_dir())?;
    print::flag(out, field.is_peering())?;
    print!(out;
        " {} {} {} {}",
        field.reserved, field.accumulator, field.timestamp, field.flags
    )
}

// `infodir B n`: the flags with the direction set to n.
pub fn infodir(out: &impl Print, line: &[u8], bytes: &[u8]) -> io::Result<()> {
    let field = InfoField::new(bytes).unwrap_or(InfoField::ZERO);
    print::number(
        out,
        field.set_constructed_dir(words::flag_at(line, 2)).flags,
    )
}

// `hop B`: alert flags, expiry byte, interfaces, code, and for how many ms it is valid.
pub fn hop(out: &impl Print, bytes: &[u8]) -> io::Result<()> {
    let read = HopField::new(bytes);
    print::answer_number(out, read)?;
    let field = read.unwrap_or(HopField::ZERO);
    print::flag(out, field.is_cons_ingress_router_alert())?;
    print::flag(out, field.is_cons_egress_router_alert())?;
    print!(out;
        " {} {} {} {} {}",
        field.exp_time,
        field.cons_ingress_interface().unwrap_or(0),
        field.cons_egress_interface().unwrap_or(0),
        Hex(&field.mac),
        field.expiry_offset()
    )
}

// The flags with the ingress alert flag or the egress alert flag set or cleared.
fn alerted(out: &impl Print, field: HopField, is_ingress: bool, enable: bool) -> io::Result<()> {
    let flagged = if is_ingress {
        field.set_cons_ingress_router_alert(enable)
    } else {
        field.set_cons_egress_router_alert(enable)
    };
    print::number(out, flagged.flags)
}

// `hopflags B k n`: the flags with the ingress (k 1) or egress (k 0) alert flag set to n.
pub fn hopflags(out: &impl Print, line: &[u8], bytes: &[u8]) -> io::Result<()> {
    let field = HopField::new(bytes).unwrap_or(HopField::ZERO);
    alerted(out, field, words::flag_at(line, 2), words::flag_at(line, 3))
}

// `sides B D`: by which interfaces a packet enters and leaves hop field D under info field B, and when D expires.
pub fn sides(out: &impl Print, line: &[u8], bytes: &[u8]) -> io::Result<()> {
    let info_field = InfoField::new(bytes).unwrap_or(InfoField::ZERO);
    let mut room = [0u8; words::MOST_BYTES];
    let field = HopField::new(words::bytes_at(line, 2, &mut room)).unwrap_or(HopField::ZERO);
    print!(out;
        " {} {} {}",
        field.ingress_interface(info_field).unwrap_or(0),
        field.egress_interface(info_field).unwrap_or(0),
        field.expiry_time(info_field)
    )
}

// What a call prints of one flag byte.
fn of_flags(out: &impl Print, call: FlagsCall, flags: u8, k: bool, n: bool) -> io::Result<()> {
    let info_field = InfoField {
        flags,
        ..InfoField::ZERO
    };
    let hop_field = HopField {
        flags,
        ..HopField::ZERO
    };
    match call {
        FlagsCall::InfoBits => {
            if k {
                print::flag(out, info_field.is_peering())
            } else {
                print::flag(out, info_field.is_constructed_dir())
            }
        }
        FlagsCall::InfoDirs => print::number(out, info_field.set_constructed_dir(k).flags),
        FlagsCall::HopBits => {
            if k {
                print::flag(out, hop_field.is_cons_ingress_router_alert())
            } else {
                print::flag(out, hop_field.is_cons_egress_router_alert())
            }
        }
        FlagsCall::HopAlerts => alerted(out, hop_field, k, n),
    }
}

// Answers a call for every flag byte, from 0 on.
pub fn each_flags(out: &impl Print, call: FlagsCall, k: bool, n: bool) -> io::Result<()> {
    for flags in 0..=u8::MAX {
        of_flags(out, call, flags, k, n)?;
    }
    Ok(())
}
