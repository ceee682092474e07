// Which call a line is: of each kind of calls a table has their names and the kinds of their words. A call's byte strings are read here.
// A line that is none of a table's calls goes on to the next table.
ghost use Rattle.std.specs.Prelude.{◌<◌};

use crate::fields::FlagsCall;
use crate::{fields, meta_headers, packets, paths, print, records, runs, travel, values, words};
use path::dataplane::DataplanePath;
use path_fields::expiry;
use path_reverse::{copy_to_slice, reverse_to_slice};
use std::io;
use wire_encoding::bounded::{U2, U4, U6, U20};

// A call on the path whose type is word 1 and whose bytes are word 2.
#[derive(Clone, Copy)]
enum PathCall {
    Path,
    LocInfo,
    LocHop,
    Segment,
    SegExp,
    PathExp,
    Left,
    IfCount,
    Iface,
    Raw,
    RecordRead,
    RecordViews,
}

// Answers the line of a call, or prints `?` where it is none.
pub fn answer(out: &impl Print, line: &[u8]) -> io::Result<()> {
    let table = &[
        ("path", "bs", PathCall::Path),
        ("locinfo", "bsn", PathCall::LocInfo),
        ("lochop", "bsn", PathCall::LocHop),
        ("segment", "bsn", PathCall::Segment),
        ("segexp", "bsn", PathCall::SegExp),
        ("pathexp", "bs", PathCall::PathExp),
        ("left", "bsn", PathCall::Left),
        ("ifcount", "bs", PathCall::IfCount),
        ("iface", "bsn", PathCall::Iface),
        ("raw", "bs", PathCall::Raw),
        ("recordread", "bs", PathCall::RecordRead),
        ("recordviews", "bsn", PathCall::RecordViews),
    ];
    let Some(call) = words::call_of(line, table) else {
        return answer_part(out, line);
    };
    let mut room = [0u8; words::MOST_BYTES];
    let bytes = words::bytes_at(line, 2, &mut room);
    read_at(
        out,
        call,
        travel::path_at(line),
        bytes,
        words::number_at(line, 3),
    )
}

// Answers a call on a path, at the index of word 3.
fn read_at(
    out: &impl Print,
    call: PathCall,
    path: DataplanePath,
    bytes: &[u8],
    index: usize,
) -> io::Result<()> {
    match call {
        PathCall::Path => paths::read(out, path, bytes),
        PathCall::LocInfo => paths::locinfo(out, path, bytes, index),
        PathCall::LocHop => paths::lochop(out, path, bytes, index),
        PathCall::Segment => paths::segment(out, path, bytes, index),
        // `segexp T B i`: when segment i expires.
        PathCall::SegExp => {
            paths::expiry(out, path_expiry::segment_expiry_time(path, bytes, index))
        }
        // `pathexp T B`: when the path expires.
        PathCall::PathExp => paths::expiry(out, path_expiry::expiry_time(path, bytes)),
        PathCall::Left => paths::left(out, path, bytes, index as u64),
        PathCall::IfCount => paths::ifcount(out, path, bytes),
        PathCall::Iface => paths::iface(out, path, bytes, index),
        PathCall::Raw => paths::raw(out, path, bytes),
        PathCall::RecordRead => records::read(out, path, bytes),
        PathCall::RecordViews => records::views(out, path, bytes, index),
    }
}

// A call on a part of the bytes of word 2.
#[derive(Clone, Copy)]
enum PartCall {
    Hops,
    SegHops,
    Get2,
    Get4,
    Get8,
}

// Answers a call on a part of the bytes of word 2.
fn answer_part(out: &impl Print, line: &[u8]) -> io::Result<()> {
    let table = &[
        ("hops", "bs", PartCall::Hops),
        ("seghops", "bsn", PartCall::SegHops),
        ("get", "2sn", PartCall::Get2),
        ("get", "4sn", PartCall::Get4),
        ("get", "8sn", PartCall::Get8),
    ];
    let Some(call) = words::call_of(line, table) else {
        return answer_change(out, line);
    };
    let mut room = [0u8; words::MOST_BYTES];
    let bytes = words::bytes_at(line, 2, &mut room);
    read_part(
        out,
        call,
        travel::path_at(line),
        bytes,
        words::number_at(line, 3),
    )
}

// Answers a call on the hop fields of a path or a segment, or on the number at the index of word 3.
fn read_part(
    out: &impl Print,
    call: PartCall,
    path: DataplanePath,
    bytes: &[u8],
    index: usize,
) -> io::Result<()> {
    match call {
        PartCall::Hops => runs::hops(out, path, bytes),
        PartCall::SegHops => runs::seghops(out, path, bytes, index),
        PartCall::Get2 => values::get::<u16>(out, bytes, index),
        PartCall::Get4 => values::get::<u32>(out, bytes, index),
        PartCall::Get8 => values::get::<u64>(out, bytes, index),
    }
}

// A call that changes the bytes of word 2.
#[derive(Clone, Copy)]
enum ChangeCall {
    Alert,
    Move,
    Walk,
    Put2,
    Put4,
    Put8,
    RecordAlert,
    RecordMove,
    RecordWalk,
}

// Answers a call that changes the bytes of word 2, and prints them.
fn answer_change(out: &impl Print, line: &[u8]) -> io::Result<()> {
    let table = &[
        ("alert", "bsnff", ChangeCall::Alert),
        ("move", "bs", ChangeCall::Move),
        ("walk", "bsn", ChangeCall::Walk),
        ("put", "2snh", ChangeCall::Put2),
        ("put", "4snw", ChangeCall::Put4),
        ("put", "8snn", ChangeCall::Put8),
        ("recordalert", "bsnff", ChangeCall::RecordAlert),
        ("recordmove", "bs", ChangeCall::RecordMove),
        ("recordwalk", "bsn", ChangeCall::RecordWalk),
    ];
    let Some(call) = words::call_of(line, table) else {
        return answer_write(out, line);
    };
    let mut room = [0u8; words::MOST_BYTES];
    let bytes = words::bytes_at(line, 2, &mut room);
    change(out, call, line, bytes, words::number_at(line, 3))?;
    print::bytes(out, bytes)
}

// Changes the bytes of word 2 at the index of word 3.
fn change(
    out: &impl Print,
    call: ChangeCall,
    line: &[u8],
    bytes: &mut [u8],
    index: usize,
) -> io::Result<()> {
    let path = travel::path_at(line);
    match call {
        // `alert T B i k n`: the bytes with the ingress (k 1) or egress (k 0) alert flag of hop field i set to n.
        ChangeCall::Alert => travel::done(out, travel::set_alert(line, bytes, index)),
        // `move T B`: the bytes after a single move.
        ChangeCall::Move => travel::done(out, path_moves::single_move(path, bytes)),
        ChangeCall::Walk => travel::walk(out, path_moves::walk(path, bytes, index)),
        // `put 2 B at n`: a 16-bit number written.
        ChangeCall::Put2 => values::put::<u16>(out, bytes, index, words::number_at(line, 4)),
        // `put 4 B at n`: a 32-bit number written.
        ChangeCall::Put4 => values::put::<u32>(out, bytes, index, words::number_at(line, 4)),
        // `put 8 B at n`: a 64-bit number written.
        ChangeCall::Put8 => values::put::<u64>(out, bytes, index, words::number_at(line, 4)),
        // `recordalert T B i k n`: the ingress (k 1) or egress (k 0) alert flag of hop field i set to n.
        ChangeCall::RecordAlert => records::left(out, travel::set_alert(line, bytes, index)),
        // `recordmove T B`: a single move.
        ChangeCall::RecordMove => records::left(out, path_moves::single_move(path, bytes)),
        // `recordwalk T B limit`: a walk.
        ChangeCall::RecordWalk => records::walk(out, path_moves::walk(path, bytes, index)),
    }
}

// A call that writes to its last word's bytes.
#[derive(Clone, Copy)]
enum WriteCall {
    Copy,
    Turn,
    Encode,
    PutAddress,
    NewAddr,
    PutCommon,
    New,
    Write,
    RecordCopy,
    RecordTurn,
}

// Answers a call that writes to its last word's bytes, and prints them.
fn answer_write(out: &impl Print, line: &[u8]) -> io::Result<()> {
    let table = &[
        ("copy", "bss", WriteCall::Copy),
        ("turn", "bss", WriteCall::Turn),
        ("encode", "bbbbbbs", WriteCall::Encode),
        ("putaddress", "nnbhshbhshs", WriteCall::PutAddress),
        ("newaddr", "nnbhsbhss", WriteCall::NewAddr),
        ("putcommon", "bbwbbhbbbhs", WriteCall::PutCommon),
        ("new", "bnwbnnbhshbhshss", WriteCall::New),
        ("write", "bbwbnnbhnnbhshbhshss", WriteCall::Write),
        ("recordcopy", "bss", WriteCall::RecordCopy),
        ("recordturn", "bss", WriteCall::RecordTurn),
    ];
    let Some(call) = words::call_of(line, table) else {
        return answer_read(out, line);
    };
    let last = last_word(call);
    let mut room = [0u8; words::MOST_BYTES];
    let bytes = words::bytes_at(line, last - 1, &mut room);
    let mut dst_room = [0u8; words::MOST_BYTES];
    let dst = words::bytes_at(line, last, &mut dst_room);
    write(out, call, line, bytes, dst)?;
    print::bytes(out, dst)
}

// The last word of a call that writes.
fn last_word(call: WriteCall) -> usize
    ensures { 0 < result }
{
    match call {
        WriteCall::Copy | WriteCall::Turn | WriteCall::RecordCopy | WriteCall::RecordTurn => 3,
        WriteCall::Encode => 7,
        WriteCall::NewAddr => 9,
        WriteCall::PutAddress | WriteCall::PutCommon => 11,
        WriteCall::New => 16,
        WriteCall::Write => 20,
    }
}

// Writes to a destination, some calls by the bytes of the word before it.
fn write(
    out: &impl Print,
    call: WriteCall,
    line: &[u8],
    bytes: &[u8],
    dst: &mut [u8],
) -> io::Result<()> {
    let path = travel::path_at(line);
    match call {
        // `copy T B D`: the path copied to a destination that holds D.
        WriteCall::Copy => travel::written(out, copy_to_slice(path, bytes, dst)),
        // `turn T B D`: the path reversed into a destination that holds D.
        WriteCall::Turn => travel::written(out, reverse_to_slice(path, bytes, dst)),
        WriteCall::Encode => meta_headers::encode(out, line, dst),
        // `putaddress`, the ten words of an address header, and D: an address header written alone.
        WriteCall::PutAddress => {
            packets::encoded(out, packets::address_at(line, 1).encode_to(dst))
        }
        WriteCall::NewAddr => packets::new_address(out, line, dst),
        WriteCall::PutCommon => packets::put_common(out, line, dst),
        WriteCall::New => packets::new(out, line, bytes, dst),
        WriteCall::Write => packets::write(out, line, bytes, dst),
        // `recordcopy T B D`: the path copied to a destination that holds D.
        WriteCall::RecordCopy => records::written(out, copy_to_slice(path, bytes, dst)),
        // `recordturn T B D`: the path reversed into a destination that holds D.
        WriteCall::RecordTurn => records::written(out, reverse_to_slice(path, bytes, dst)),
    }
}

// A call that reads the bytes of word 1.
#[derive(Clone, Copy)]
enum ReadCall {
    Common,
    Meta,
    Firsts,
    Info,
    InfoDir,
    Hop,
    HopFlags,
    Sides,
    Ends,
    Parts,
    Reads,
}

// Answers a call that reads the bytes of word 1.
fn answer_read(out: &impl Print, line: &[u8]) -> io::Result<()> {
    let table = &[
        ("common", "s", ReadCall::Common),
        ("meta", "s", ReadCall::Meta),
        ("firsts", "s", ReadCall::Firsts),
        ("info", "s", ReadCall::Info),
        ("infodir", "sf", ReadCall::InfoDir),
        ("hop", "s", ReadCall::Hop),
        ("hopflags", "sff", ReadCall::HopFlags),
        ("sides", "ss", ReadCall::Sides),
        ("ends", "s", ReadCall::Ends),
        ("parts", "s", ReadCall::Parts),
        ("reads", "so", ReadCall::Reads),
    ];
    let Some(call) = words::call_of(line, table) else {
        return answer_packets(out, line);
    };
    let mut room = [0u8; words::MOST_BYTES];
    let bytes = words::bytes_at(line, 1, &mut room);
    read(out, call, line, bytes)
}

// Reads the bytes of word 1.
fn read(out: &impl Print, call: ReadCall, line: &[u8], bytes: &[u8]) -> io::Result<()> {
    match call {
        ReadCall::Common => packets::common(out, bytes),
        ReadCall::Meta => meta_headers::meta(out, bytes),
        ReadCall::Firsts => meta_headers::firsts(out, bytes),
        ReadCall::Info => fields::info(out, bytes),
        ReadCall::InfoDir => fields::infodir(out, line, bytes),
        ReadCall::Hop => fields::hop(out, bytes),
        ReadCall::HopFlags => fields::hopflags(out, line, bytes),
        ReadCall::Sides => fields::sides(out, line, bytes),
        ReadCall::Ends => runs::ends(out, bytes),
        ReadCall::Parts => runs::parts(out, bytes),
        ReadCall::Reads => runs::reads(out, bytes, words::word(line, 2)),
    }
}

// A call that splits the packet or the capture of word 1.
#[derive(Clone, Copy)]
enum PacketCall {
    Packet,
    Capture,
    RecordPacket,
    RecordCapture,
}

// Answers a call that splits the packet or the capture of word 1.
fn answer_packets(out: &impl Print, line: &[u8]) -> io::Result<()> {
    let table = &[
        ("packet", "s", PacketCall::Packet),
        ("capture", "s", PacketCall::Capture),
        ("recordpacket", "s", PacketCall::RecordPacket),
        ("recordcapture", "s", PacketCall::RecordCapture),
    ];
    let Some(call) = words::call_of(line, table) else {
        return answer_numbers(out, line);
    };
    let mut room = [0u8; words::MOST_BYTES];
    let bytes = words::bytes_at(line, 1, &mut room);
    split(out, call, bytes)
}

// Splits the packet or the capture that begins the bytes.
fn split(out: &impl Print, call: PacketCall, bytes: &[u8]) -> io::Result<()> {
    match call {
        PacketCall::Packet => packets::packet(out, bytes),
        PacketCall::Capture => packets::capture(out, bytes),
        PacketCall::RecordPacket => records::packet(out, bytes),
        PacketCall::RecordCapture => records::capture(out, bytes),
    }
}

// A call on the numbers of fields and of meta headers.
#[derive(Clone, Copy)]
enum NumberCall {
    Flags(FlagsCall),
    Expiry,
    Counts,
    IfHop,
    Offset,
    RecordExp,
    RecordLeft,
}

// Answers a call on the numbers of fields and of meta headers.
fn answer_numbers(out: &impl Print, line: &[u8]) -> io::Result<()> {
    let table = &[
        ("infobits", "f", NumberCall::Flags(FlagsCall::InfoBits)),
        ("infodirs", "f", NumberCall::Flags(FlagsCall::InfoDirs)),
        ("hopbits", "f", NumberCall::Flags(FlagsCall::HopBits)),
        ("hopalerts", "ff", NumberCall::Flags(FlagsCall::HopAlerts)),
        ("expiry", "wb", NumberCall::Expiry),
        ("counts", "bbbbbb", NumberCall::Counts),
        ("ifhop", "bbbn", NumberCall::IfHop),
        ("offset", "bbbn", NumberCall::Offset),
        ("recordexp", "n", NumberCall::RecordExp),
        ("recordleft", "nn", NumberCall::RecordLeft),
    ];
    let Some(call) = words::call_of(line, table) else {
        return answer_values(out, line);
    };
    match call {
        NumberCall::Flags(of_flags) => fields::each_flags(
            out,
            of_flags,
            words::flag_at(line, 1),
            words::flag_at(line, 2),
        ),
        // `expiry t e`: the expiry of a hop field with expiry byte e under time t.
        NumberCall::Expiry => {
            print::number(
                out,
                expiry(words::number_at(line, 1), words::number_at(line, 2)),
            )
        }
        NumberCall::Counts => meta_headers::counts(out, line),
        NumberCall::IfHop => meta_headers::ifhop(out, line),
        NumberCall::Offset => meta_headers::offset(out, line),
        NumberCall::RecordExp => records::expiry(out, line),
        NumberCall::RecordLeft => records::time_left(out, line),
    }
}

// A call on addresses, host types and constants.
#[derive(Clone, Copy)]
enum ValueCall {
    Address,
    EndHost,
    IsdAsn,
    NewIsdAsn,
    Service,
    HostType,
    HostKind,
    HostLength,
    Constant,
}

// Answers a call on addresses, host types and constants.
fn answer_values(out: &impl Print, line: &[u8]) -> io::Result<()> {
    let table = &[
        ("address", "bbs", ValueCall::Address),
        ("endhost", "nbhsnbhs", ValueCall::EndHost),
        ("isdasn", "n", ValueCall::IsdAsn),
        ("newisdasn", "hn", ValueCall::NewIsdAsn),
        ("service", "h", ValueCall::Service),
        ("hosttype", "b", ValueCall::HostType),
        ("hostkind", "b", ValueCall::HostKind),
        ("hostlength", "b", ValueCall::HostLength),
        ("constant", "b", ValueCall::Constant),
    ];
    let Some(call) = words::call_of(line, table) else {
        return answer_bounded(out, line);
    };
    match call {
        ValueCall::Address => packets::address(out, line),
        ValueCall::EndHost => packets::endhost(out, line),
        ValueCall::IsdAsn => values::isdasn(out, line),
        ValueCall::NewIsdAsn => values::new_isdasn(out, line),
        ValueCall::Service => values::service(out, line),
        ValueCall::HostType => values::hosttype(out, line),
        ValueCall::HostKind => values::hostkind(out, line),
        ValueCall::HostLength => values::hostlength(out, line),
        ValueCall::Constant => values::constant(out, words::number_at(line, 1)),
    }
}

// A call on a bounded number.
#[derive(Clone, Copy)]
enum BoundedCall {
    Bounded2,
    Bounded4,
    Bounded6,
    Bounded20,
}

// Answers a call on a bounded number, or prints `?`.
fn answer_bounded(out: &impl Print, line: &[u8]) -> io::Result<()> {
    let table = &[
        ("bounded", "2b", BoundedCall::Bounded2),
        ("bounded", "4b", BoundedCall::Bounded4),
        ("bounded", "6b", BoundedCall::Bounded6),
        ("bounded", "tw", BoundedCall::Bounded20),
    ];
    let Some(call) = words::call_of(line, table) else {
        return print::unknown(out);
    };
    let byte = words::number_at(line, 2);
    match call {
        // `bounded 2 n`: a number of 2 bits.
        BoundedCall::Bounded2 => values::fitting(out, U2::new(byte).map(|number| number.get())),
        // `bounded 4 n`: a number of 4 bits.
        BoundedCall::Bounded4 => values::fitting(out, U4::new(byte).map(|number| number.get())),
        // `bounded 6 n`: a number of 6 bits.
        BoundedCall::Bounded6 => values::fitting(out, U6::new(byte).map(|number| number.get())),
        // `bounded 20 n`: a number of 20 bits.
        BoundedCall::Bounded20 => {
            let number = U20::new(words::number_at(line, 2));
            values::fitting(out, number.map(|number| number.get()))
        }
    }
}
