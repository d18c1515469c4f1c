//! Where a head ends.

ghost use Rattle.std.specs.Prelude.{◌≡◌, ◌≤◌, length, take, drop, vec_len, None};
ghost use Rattle.ept_conn.specs.HeadEnd.{head_end};

/// Returns where the first head of these bytes ends. No head ends in the first `searched` of them.
pub fn find_end(bytes: &[u8], searched: usize) -> Option<usize>
    requires within { searched ≤ length bytes.now }
    requires clear { head_end (take searched bytes.now) ≡ None }
    ensures { result ≡ head_end bytes.now }
{
    for at in searched.saturating_sub(3)..bytes.len() {
        if bytes[at..].starts_with(b"\r\n\r\n") {
            return Some(at + 4);
        }
    }
    None
}

/// The first bytes, at most `most` of them.
pub fn first(bytes: &[u8], most: usize) -> &[u8]
    ensures { result.now ≡ take most bytes.now }
{
    &bytes[..most.min(bytes.len())]
}

/// Removes the first `count` bytes.
pub fn drop_front(bytes: &mut Vec<u8>, count: usize)
    requires { count ≤ vec_len bytes.old }
    ensures { bytes.new.items ≡ drop count bytes.old.items }
{
    let rest = bytes.len() - count;
    bytes.rotate_left(count);
    bytes.truncate(rest);
}
