//! The first lines of a section, on the opening of its connection and on its flows. They are made together.

ghost use Rattle.std.specs.Prelude.{◌≡◌, ◌+◌, ◌≤◌, ◌++◌, drop};
ghost use Rattle.packet_heads.specs.declared.packets.Endpoint.{Endpoint};
ghost use Rattle.audit_terms.specs.declared.sides.Side.{Side};
ghost use Rattle.audit_report.specs.FlowLine.{gap_text, flow_line};
ghost use Rattle.audit_report.specs.code.Contents.{contents_words, opening_line, opening_text};
ghost use Rattle.audit_report.specs.code.Heading.{headed_text};
ghost use Rattle.audit_report.specs.code.Pages.{Adds, HasRoom};
ghost use Rattle.audit_report.specs.code.Roles.{roles_text};

use crate::contents::{Contents, tail_in};
use crate::endpoints::put_endpoint;
use crate::extents::Extent;
use crate::headings::SectionHeading;
use crate::lines::{LINE_ROOM, add_line, put_field, put_number, put_word, put_words};
use audit_terms::{Side, Sides};
use packet_heads::Endpoint;

/// Adds to a page the line of the `k`-th connection, counted from 1, and the lines of its client's and its server's
/// flow. They count as one line.
pub fn add_opening(
    page: &mut Vec<u8>,
    k: u64,
    heading: SectionHeading,
    extents: &Sides<Extent>,
    contents: Contents,
)
    requires { HasRoom 1 page.old }
    ensures { Adds 1 (opening_text k heading extents.now contents) page.old page.new }
{
    let mut line = [0; LINE_ROOM];
    let begin = put_opening(&mut line, k, heading, extents, contents);
    add_line(page, &line, begin);
}

/// Makes the lines of the connection and of both flows, and returns where they begin.
fn put_opening(
    line: &mut [u8; LINE_ROOM],
    k: u64,
    heading: SectionHeading,
    extents: &Sides<Extent>,
    contents: Contents,
) -> usize
    ensures begins { result ≤ 512 }
    ensures made { drop result line.new ≡ opening_text k heading extents.now contents }
{
    let tail = tail_in(contents, Side::Server);
    let end = put_flow_line(line, LINE_ROOM, Side::Server, extents.server, tail);
    let tail = tail_in(contents, Side::Client);
    let end = put_flow_line(line, end, Side::Client, extents.client, tail);
    put_opening_line(line, end, k, heading, contents)
}

/// Puts the line of a connection just before index `end`, and returns where it begins.
fn put_opening_line(
    line: &mut [u8; LINE_ROOM],
    end: usize,
    k: u64,
    heading: SectionHeading,
    contents: Contents,
) -> usize
    requires { (318 ≤ end) × (end ≤ 512) }
    ensures begins { (result ≤ end) × (end ≤ result + 318) }
    ensures put { drop result line.new ≡ opening_line k heading contents ++ drop end line.old }
{
    let end = put_word(line, end, "\n");
    let end = put_contents(line, end, contents);
    let end = put_word(line, end, " ");
    put_heading(line, end, k, heading)
}

/// Puts the heading of a connection just before index `end`, and returns where it begins.
fn put_heading(line: &mut [u8; LINE_ROOM], end: usize, k: u64, heading: SectionHeading) -> usize
    requires { (283 ≤ end) × (end ≤ 512) }
    ensures begins { (result ≤ end) × (end ≤ result + 283) }
    ensures put { drop result line.new ≡ headed_text k heading ++ drop end line.old }
{
    let end = put_field(line, end, " record ", heading.rec as u64);
    let end = put_roles(line, end, heading.client, heading.server);
    put_field(line, end, "connection ", k)
}

/// Puts both ends of a connection just before index `end`, and returns where they begin.
#[tactic(auto, unfolding(crate::specs::code::Roles::roles_text))]
fn put_roles(line: &mut [u8; LINE_ROOM], end: usize, client: Endpoint, server: Endpoint) -> usize
    requires { (224 ≤ end) × (end ≤ 512) }
    ensures begins { (result ≤ end) × (end ≤ result + 224) }
    ensures put { drop result line.new ≡ roles_text client server ++ drop end line.old }
{
    let end = put_endpoint(line, end, server);
    let end = put_word(line, end, " server ");
    let end = put_endpoint(line, end, client);
    put_word(line, end, " client ")
}

/// Puts the contents of flows just before index `end`, and returns where they begin.
fn put_contents(line: &mut [u8; LINE_ROOM], end: usize, contents: Contents) -> usize
    requires { (33 ≤ end) × (end ≤ 512) }
    ensures begins { (result ≤ end) × (end ≤ result + 33) }
    ensures put { drop result line.new ≡ contents_words contents ++ drop end line.old }
{
    match contents {
        Contents::Http2 { frames, .. } => put_field(line, end, "http2 frames ", frames),
        Contents::NotHttp2 => put_word(line, end, "not-http2"),
        Contents::NoPreface => put_word(line, end, "no-preface"),
        Contents::NoHandshake => put_word(line, end, "no-handshake"),
    }
}

/// Puts the line of a flow just before index `end`, and returns where it begins.
fn put_flow_line(
    line: &mut [u8; LINE_ROOM],
    end: usize,
    side: Side,
    extent: Extent,
    tail: u32,
) -> usize
    requires { (90 ≤ end) × (end ≤ 512) }
    ensures begins { (result ≤ end) × (end ≤ result + 90) }
    ensures put { drop result line.new ≡ flow_line side extent tail ++ drop end line.old }
{
    let end = put_word(line, end, "\n");
    let end = put_field(line, end, " tail ", tail as u64);
    let end = put_gap(line, end, extent.gap);
    let end = put_word(line, end, " gap ");
    let end = put_field(line, end, " bytes ", extent.size);
    put_words(line, end, "flow ", side.name())
}

/// Puts a gap, if there is one, just before index `end`, and returns where it begins.
fn put_gap(line: &mut [u8; LINE_ROOM], end: usize, gap: Option<u64>) -> usize
    requires { (20 ≤ end) × (end ≤ 512) }
    ensures begins { (result ≤ end) × (end ≤ result + 20) }
    ensures put { drop result line.new ≡ gap_text gap ++ drop end line.old }
{
    match gap {
        None => put_word(line, end, "none"),
        Some(offset) => put_number(line, end, offset),
    }
}
