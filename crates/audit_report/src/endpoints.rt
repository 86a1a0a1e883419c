ghost use Rattle.std.specs.Prelude.{◌≡◌, ◌+◌, ◌≤◌, ◌++◌, drop};
ghost use Rattle.audit_report.specs.Endpoint.{address_text, endpoint_text};

use crate::lines::{LINE_ROOM, put_field, put_number};
use packet_heads::Endpoint;

/// Puts the four bytes of an IPv4 address, with dots between them, just before index `end`, and returns where
/// they begin.
fn put_address(line: &mut [u8; LINE_ROOM], end: usize, address: u32) -> usize
    requires { (83 ≤ end) × (end ≤ 512) }
    ensures begins { (result ≤ end) × (end ≤ result + 83) }
    ensures put { drop result line.new ≡ address_text address ++ drop end line.old }
{
    let end = put_field(line, end, ".", (address % 256) as u64);
    let end = put_field(line, end, ".", (address / 256 % 256) as u64);
    let end = put_field(line, end, ".", (address / 65536 % 256) as u64);
    put_number(line, end, (address / 16777216) as u64)
}

/// Puts `address:port` just before index `end`, and returns where it begins.
pub(crate) fn put_endpoint(line: &mut [u8; LINE_ROOM], end: usize, endpoint: Endpoint) -> usize
    requires { (104 ≤ end) × (end ≤ 512) }
    ensures begins { (result ≤ end) × (end ≤ result + 104) }
    ensures put { drop result line.new ≡ endpoint_text endpoint ++ drop end line.old }
{
    let end = put_field(line, end, ":", endpoint.port as u64);
    put_address(line, end, endpoint.address)
}
