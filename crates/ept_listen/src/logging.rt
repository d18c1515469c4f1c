//! The log of a connection.

use ept_conn::End;
use ept_log::Log;
use std::io;
use std::net::SocketAddr;

/// The log of the connection to this peer, if there is memory for it. A peer without an address is `-`.
pub(crate) fn log_of(
    host: &HostRuntime,
    peer: io::Result<SocketAddr>,
) -> Option<Log<'_, HostRuntime>> {
    let alloc = host.alloc();
    let name = match peer {
        Ok(peer) => format!(in alloc; "{peer}"),
        Err(_) => String::from_str(alloc, "-"),
    };
    Some(Log::new(host, alloc, name.ok()?))
}

/// The word for the end of a connection. If the connection was closed, its last response was sent whole.
pub(crate) fn how_ended(end: End) -> &'static str {
    match end {
        End::Closed => "sent",
        End::LinkFault => "link-fault",
        End::StoreFault => "store-fault",
        End::Damaged { .. } => "damaged",
        End::Memory => "memory",
    }
}
