// The calls on packets: reading one, or a capture of one, and writing the headers of one.
ghost use Rattle.std.specs.Prelude.{◌≡◌, length};
ghost use Rattle.wire_encoding.specs.Result.{done, or_else};
ghost use Rattle.packet.specs.Raw.{read_packet, reader_of, packet_answer, capture_answer};
ghost use Rattle.packet_headers.specs.Headers as headers;
ghost use Rattle.scion_packets.specs.Packets as spec;

use packet::raw::ScionPacketRaw;
use packet_headers::ScionHeaders as Headers;
use scion_packets::{
    ScionCapture, ScionHeaders, ScionHost, ScionPacket, address_in, capture_out, encoded_out,
};
use scion_paths::ScionAnswer;

// A packet, or a capture, for C: one function for both, so that its code is there once.
fn split(bytes: &[u8], capture: bool) -> ScionPacket
    ensures { result ≡ spec.packet_out (packet_answer (reader_of capture bytes.now)) }
{
    ScionPacket::from(ScionPacketRaw::split(bytes, capture))
}

// Splits the packet that begins `bytes`; one with fewer bytes than its headers say is refused.
#[unsafe(no_mangle)]
pub extern "C" fn scion_read_packet(bytes: &[u8]) -> ScionPacket
    ensures { result ≡ spec.packet_out (packet_answer (read_packet bytes.now)) }
{
    split(bytes, false)
}

// Splits the capture that begins `bytes`, whether or not it has as many bytes as its headers say.
#[unsafe(no_mangle)]
#[tactic(auto, using(scion_packets::proofs::Packets::short_handed))]
pub extern "C" fn scion_read_capture(bytes: &[u8]) -> ScionCapture
    ensures { result ≡ spec.capture_out (capture_answer bytes.now) }
{
    capture_out(split(bytes, true), bytes.len())
}

// The headers of a packet with a path of `path_len` bytes: version, traffic class and reserved 0, the factor by the lengths.
#[unsafe(no_mangle)]
pub extern "C" fn scion_new_headers(
    destination_ia: u64,
    destination: ScionHost,
    source_ia: u64,
    source: ScionHost,
    path_type: u8,
    path_len: usize,
    next_header: u8,
    payload_length: usize,
    flow_id: u32,
) -> ScionHeaders
    ensures { result
        ≡ spec.headers_out
        (headers.new_headers (spec.address_in destination_ia destination source_ia source) path_type path_len next_header payload_length
        flow_id) }
{
    let address = address_in(destination_ia, destination, source_ia, source);
    ScionHeaders::from(Headers::new(
        address,
        path_type,
        path_len,
        next_header,
        payload_length,
        flow_id,
    ))
}

// How many bytes the headers take with a path of `path_len` bytes.
#[unsafe(no_mangle)]
pub extern "C" fn scion_headers_length(given: ScionHeaders, path_len: usize) -> usize
    ensures { result ≡ headers.encoded_length (spec.headers_in given) path_len }
{
    Headers::from(given).encoded_length(path_len)
}

// Writes the headers and the path to `dst`, or leaves it as it is.
#[unsafe(no_mangle)]
pub extern "C" fn scion_write_headers(
    given: ScionHeaders,
    path: &[u8],
    dst: &mut [u8],
) -> ScionAnswer
    ensures value { result ≡ spec.encoded_out (done (headers.write_headers (spec.headers_in given) path.now (length dst.old))) }
    ensures dst_after { dst.new
        ≡ or_else (headers.write_headers (spec.headers_in given) path.now (length dst.old)) dst.old }
{
    encoded_out(&Headers::from(given).encode_to(path, dst))
}

// Writes the headers that `scion_new_headers` makes and the path to `dst`, or leaves it as it is: both calls in one.
#[unsafe(no_mangle)]
pub extern "C" fn scion_write_new_headers(
    destination_ia: u64,
    destination: ScionHost,
    source_ia: u64,
    source: ScionHost,
    path_type: u8,
    next_header: u8,
    payload_length: usize,
    flow_id: u32,
    path: &[u8],
    dst: &mut [u8],
) -> ScionAnswer
    ensures value { result
        ≡ spec.encoded_out
        (done
        (headers.write_headers
        (headers.new_headers (spec.address_in destination_ia destination source_ia source) path_type (length path.now)
        next_header
        payload_length
        flow_id)
        path.now
        (length dst.old))) }
    ensures dst_after { dst.new
        ≡ or_else
        (headers.write_headers
        (headers.new_headers (spec.address_in destination_ia destination source_ia source) path_type (length path.now)
        next_header
        payload_length
        flow_id)
        path.now
        (length dst.old))
        dst.old }
{
    let address = address_in(destination_ia, destination, source_ia, source);
    let made = Headers::new(
        address,
        path_type,
        path.len(),
        next_header,
        payload_length,
        flow_id,
    );
    encoded_out(&made.encode_to(path, dst))
}
