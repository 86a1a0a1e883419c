ghost use Rattle.std.specs.Prelude.{◌≡◌};

use audit_report::Extent;
use audit_terms::Sides;
use tcp_streams::FlowEnd;

/// The extent of a flow of a capture in 8 bytes: if bytes are missing, the first missing offset is its length.
#[derive(Clone, Copy)]
pub struct Reach {
    /// The number of bytes.
    pub(crate) size: u32,
    /// Are bytes missing before later ones that were captured?
    pub(crate) has_gap: bool,
}

const _: () = prove!(size_of::<Reach>() == 8);

impl Reach {
    ghost use Rattle.audit_report.specs.FlowLine.{extent_of, extents_of};
    ghost use Rattle.report_pages.specs.code.Reach.{HasGapAtEnd, extent_in, extents_in};
    ghost use Rattle.h2_frames.specs.code.ConnectionFrames.{EndsSo};
    ghost use Rattle.tcp_streams.specs.declared.flows.Flow.{Flow as FlowTerm};

    /// The reach of a flow that ends so.
    fn of_end(end: FlowEnd) -> Reach
        ensures { (flow : FlowTerm) → EndsSo flow end → HasGapAtEnd flow → extent_in result ≡ extent_of flow }
    {
        Reach {
            size: end.length,
            has_gap: end.gap.is_some(),
        }
    }

    /// The reach of a connection's flows, which end so.
    pub fn of_ends(client: FlowEnd, server: FlowEnd) -> Sides<Reach>
        ensures { (client_flow server_flow : FlowTerm) → EndsSo client_flow client → EndsSo server_flow server
            → HasGapAtEnd client_flow → HasGapAtEnd server_flow
            → extents_in result ≡ extents_of client_flow server_flow }
    {
        Sides {
            client: Reach::of_end(client),
            server: Reach::of_end(server),
        }
    }

    /// The extent that it stands for.
    fn extent(self) -> Extent
        ensures { result ≡ extent_in self }
    {
        let size = self.size as u64;
        Extent {
            size,
            gap: if self.has_gap { Some(size) } else { None },
        }
    }

    /// The extents of a connection's flows that reach so far.
    pub(crate) fn extents(both: &Sides<Reach>) -> Sides<Extent>
        ensures { result ≡ extents_in both.now }
    {
        Sides {
            client: both.client.extent(),
            server: both.server.extent(),
        }
    }
}
