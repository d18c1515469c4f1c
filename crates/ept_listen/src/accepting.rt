//! What is done if accepting a connection fails.

use std::io::Error;

/// The time that the system has to find room for a connection before it is asked again, in milliseconds.
pub(crate) const PAUSE: u64 = 50;

/// The system's errors after which another connection can be accepted:
///
/// - There is no room for one more connection: ENOMEM, ENFILE, EMFILE, ENOBUFS.
/// - A signal came: EINTR.
/// - The new connection failed: EPROTO, ECONNABORTED, ENONET, ENOPROTOOPT, EOPNOTSUPP, ENETDOWN, ENETUNREACH, ETIMEDOUT,
///   EHOSTDOWN, EHOSTUNREACH.
/// - A firewall refuses the new connection: EPERM.
const PASSING: [i32; 16] = [
    12, 23, 24, 105, 4, 71, 103, 64, 92, 95, 100, 101, 110, 112, 113, 1,
];

/// Whether another connection can be accepted after this error.
pub(crate) fn is_passing(error: &Error) -> bool {
    error
        .raw_os_error()
        .is_some_and(|code| PASSING.contains(&code))
}
