//! What a page is of, and how a request is answered by it.

ghost use Rattle.std.specs.Prelude.{◌≡◌};
ghost use Rattle.http.specs.Request.{head_of};
ghost use Rattle.field_page.specs.Sites.{is_ours, is_read, judged, shown_at, verdict_of};

use bytes::Bytes;
use http::Request;
use plc_page::{Show, Verdict};

/// What a page is of, whatever shows.
#[derive(Drop)]
pub struct FieldSite {
    /// The names under which it's asked for, as a `Host` has them.
    pub hosts: Vec<Vec<u8>>,
    /// Of the program that serves it.
    pub version: Vec<u8>,
    /// What goes where, a line each.
    pub table: Vec<u8>,
}

/// What this path shows.
fn shown_at(path: &str) -> Option<Show>
    ensures { result ≡ shown_at path.now }
{
    if path == "/" {
        Some(Show::Page)
    } else if path == "/style.css" {
        Some(Show::Style)
    } else if path == "/script.js" {
        Some(Show::Script)
    } else if path == "/state" {
        Some(Show::State)
    } else if path == "/metrics" {
        Some(Show::Metrics)
    } else {
        None
    }
}

/// Whether this is one of the site's names.
fn is_ours(site: &FieldSite, host: &[u8]) -> bool
    ensures { result ≡ is_ours site.now host.now }
{
    site.hosts.iter().any(|ours| ours.as_slice() == host)
}

/// Whether a method only reads.
fn is_read(method: &str) -> bool
    ensures { result ≡ is_read method.now }
{
    method == "GET" || method == "HEAD"
}

/// How a request is answered that's for this site.
fn judged(method: &str, path: &str) -> Verdict
    ensures { result ≡ judged method.now path.now }
{
    if !is_read(method) {
        return Verdict::Refused;
    }
    match shown_at(path) {
        Some(show) => Verdict::Shows(show),
        None => Verdict::Missing,
    }
}

/// How a request is answered. A browser says by `Host` which name it was given: under a name that isn't the site's,
/// another site's page could read it.
pub(crate) fn verdict_of(site: &FieldSite, request: &Request<Bytes>) -> Verdict
    ensures { result ≡ verdict_of site.now (head_of request.now) }
{
    let Some(host) = request.headers().get("host") else {
        return Verdict::Malformed;
    };
    if request.uri().scheme_str().is_some() || !is_ours(site, host.as_bytes()) {
        return Verdict::Misdirected;
    }
    judged(request.method().as_str(), request.uri().path())
}
