//! The endpoints that a packet names, and the part that is theirs.

ghost use Rattle.std.specs.Prelude.{◌≡◌, ◌<◌, ◌≤◌, ◌^◌, if◌then◌else◌, length};
ghost use Rattle.packet_heads.specs.Ipv4 as ipv4_words;
ghost use Rattle.packet_heads.specs.Link.{datagram_start};
ghost use Rattle.packet_heads.specs.Tcp as tcp_words;
ghost use Rattle.capture_parts.specs.Pair as words;

use packet_heads::ipv4::{IPV4_HEADER, TCP_PROTOCOL, VERSION_4};
use packet_heads::{Endpoint, ethernet, ipv4, tcp};
use pcap_records::RAW_IP;

/// The endpoints of a packet.
#[derive(Clone, Copy)]
pub struct Endpoints {
    /// Its sender.
    pub from: Endpoint,
    /// Its receiver.
    pub to: Endpoint,
}

/// The length of the two ports in bytes.
pub(crate) const PORTS: usize = 4;

/// Where the datagram begins in a packet with this front.
fn datagram_start(link: u16, front: &[u8]) -> usize
    requires { 14 ≤ length front.now }
    ensures start { result ≡ datagram_start link front.now }
    ensures small { result ≤ 18 }
{
    if link == RAW_IP {
        0
    } else {
        ethernet::header_length(front)
    }
}

fn sender(datagram: &[u8], segment: &[u8]) -> Endpoint
    requires datagram { 20 ≤ length datagram.now }
    requires segment { 4 ≤ length segment.now }
    ensures { result ≡ record {
      address = ipv4_words.source_address datagram.now;
      port = tcp_words.source_port segment.now;
    } }
{
    Endpoint {
        address: ipv4::source_address(datagram),
        port: tcp::source_port(segment),
    }
}

fn receiver(datagram: &[u8], segment: &[u8]) -> Endpoint
    requires datagram { 20 ≤ length datagram.now }
    requires segment { 4 ≤ length segment.now }
    ensures { result ≡ record {
      address = ipv4_words.destination_address datagram.now;
      port = tcp_words.destination_port segment.now;
    } }
{
    Endpoint {
        address: ipv4::destination_address(datagram),
        port: tcp::destination_port(segment),
    }
}

/// The endpoints in a datagram of IPv4 and TCP, where its ports are there.
fn pair_in(datagram: &[u8]) -> Option<Endpoints>
    ensures { result ≡ (if words.names_endpoints datagram.now then Some (words.pair_in datagram.now) else None) }
{
    if datagram.len() < IPV4_HEADER
        || ipv4::version(datagram) != VERSION_4
        || ipv4::protocol(datagram) != TCP_PROTOCOL
    {
        return None;
    }
    let header = ipv4::header_length(datagram);
    if datagram.len() < header + PORTS {
        return None;
    }
    let segment = &datagram[header..];
    Some(Endpoints {
        from: sender(datagram, segment),
        to: receiver(datagram, segment),
    })
}

/// The endpoints that a packet with this front names.
pub(crate) fn pair_of(link: u16, front: &[u8]) -> Option<Endpoints>
    ensures { result ≡ words.pair_of link front.now }
{
    if front.len() < IPV4_HEADER {
        return None;
    }
    let start = datagram_start(link, front);
    pair_in(&front[start..])
}

/// 2^64 divided by the golden ratio: its multiples lie far apart.
const MULTIPLIER: u64 = 11_400_714_819_323_198_485;

fn endpoint_key(endpoint: Endpoint) -> u64
    ensures key { result ≡ words.endpoint_key endpoint }
    ensures small { result < 2 ^ 48 }
{
    u64::from(endpoint.address) * 65_536 + u64::from(endpoint.port)
}

/// A number that spreads pairs over parts.
fn spread(number: u64, pair: Option<Endpoints>) -> u64
    ensures { result ≡ words.spread number pair }
{
    match pair {
        Some(pair) => {
            let sum = endpoint_key(pair.from) + endpoint_key(pair.to);
            sum.wrapping_mul(MULTIPLIER) >> 32
        }
        None => number,
    }
}

/// The part of a record of this number, with this pair, counted from 0, where there are so many parts.
pub(crate) fn part_of(parts: usize, number: u64, pair: Option<Endpoints>) -> usize
    requires { 0 < parts }
    ensures part { result ≡ words.part_of parts number pair }
    ensures within { result < parts }
{
    (spread(number, pair) % parts as u64) as usize
}
