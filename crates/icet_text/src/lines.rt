ghost use Rattle.std.specs.Prelude.{◌≡◌, ◌≤◌, ◌<◌, ◌==◌, ◌∷◌, IfSome, drop, length, position};
ghost use Rattle.icet_text.specs.Lines.{lines_of};

use memchr::memchr;

/// The line that begins at a place of a text, without its newline, and where the next one begins.
pub fn line_at(bytes: &[u8], at: usize) -> (&[u8], usize)
    requires { at < length bytes.now }
    ensures lines { lines_of (drop at bytes.now) ≡ result.0.now ∷ lines_of (drop result.1 bytes.now) }
    ensures later { at < result.1 }
    ensures within { result.1 ≤ length bytes.now }
{
    let rest = &bytes[at..];
    match newline_in(rest) {
        None => (rest, bytes.len()),
        Some(end) => (&rest[..end], at + end + 1),
    }
}

/// Where the first newline stands, which is searched for many bytes at a time.
fn newline_in(bytes: &[u8]) -> Option<usize>
    ensures first { result ≡ position (λ b. b == 10) bytes.now }
    ensures within { IfSome result (λ at. at < length bytes.now) }
{
    memchr(b'\n', bytes)
}
