//! Lines of HTTP, by which a browser begins, whatever port a page leads it to.

ghost use Rattle.std.specs.Prelude.{◌≡◌, ◌≤◌, length};
ghost use Rattle.plc_console.specs.Web.{is_alphanumeric, is_field_line, is_of_http, is_request_line, is_token_byte, token_len};

fn is_alphanumeric(byte: u8) -> bool
    ensures { result ≡ is_alphanumeric byte }
{
    (b'0' <= byte && byte <= b'9')
        || (b'A' <= byte && byte <= b'Z')
        || (b'a' <= byte && byte <= b'z')
}

/// Whether a token may have this byte (RFC 9110, section 5.6.2).
fn is_token_byte(byte: u8) -> bool
    ensures { result ≡ is_token_byte byte }
{
    let marks: &[u8] = b"!#$%&'*+-.^_`|~";
    is_alphanumeric(byte) || marks.contains(&byte)
}

/// How long the token is that a line begins with.
fn token_len(line: &[u8]) -> usize
    ensures value { result ≡ token_len line.now }
    ensures within { result ≤ length line.now }
{
    line.iter().take_while(|byte| is_token_byte(**byte)).count()
}

/// Whether the line begins as a field of a header: by a name and a colon.
fn is_field_line(line: &[u8]) -> bool
    ensures { result ≡ is_field_line line.now }
{
    let name = token_len(line);
    name != 0 && line[name..].starts_with(b":")
}

/// Whether the line ends as the first one of a request: by the version.
fn is_request_line(line: &[u8]) -> bool
    ensures { result ≡ is_request_line line.now }
{
    line.ends_with(b" HTTP/1.1")
        || line.ends_with(b" HTTP/1.1\r")
        || line.ends_with(b" HTTP/1.0")
        || line.ends_with(b" HTTP/1.0\r")
}

/// Whether the line is one of HTTP/1.1: the first one of a request, or a field of a header.
pub(crate) fn is_of_http(line: &[u8]) -> bool
    ensures { result ≡ is_of_http line.now }
{
    is_request_line(line) || is_field_line(line)
}
