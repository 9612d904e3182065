//! What a request is answered: a function of the request and of what shows.

ghost use Rattle.std.specs.Prelude.{◌≡◌, ◌++◌, ◌∷◌, [], IfOk, IsTrue, OnOk};
ghost use Rattle.http.specs.Request.{head_of};
ghost use Rattle.http_header.specs.FieldValue.{is_visible_text};
ghost use Rattle.http_header.specs.FieldName.{is_header_name};
ghost use Rattle.http_server.specs.Response.{IsBlank, IsResponse, fields_of};
ghost use Rattle.plc_page.specs.Answers.{IsAnswered, is_ours, is_read, judged, shown_at, verdict_of};
ghost use Rattle.plc_page.specs.Answers.{code_of, content_of, fields_by, kind_field, kind_of};
ghost use Rattle.plc_figures.specs.Texts.{IsAdded};

use crate::page::{POLICY, SCRIPT, STYLE, put_page, put_text};
use bytes::{BufMut, Bytes};
use http::{Request, StatusCode};
use http_header::{HeaderName, HeaderValue};
use http_server::Response;
use plc_figures::{Reading, put, put_metrics, put_state};
use std::alloc::{AllocError, Global};

/// What a path shows.
#[derive(Clone, Copy, PartialEq, Eq)]
pub enum Show {
    /// The page.
    Page,
    /// Its style.
    Style,
    /// Its script.
    Script,
    /// What shows, as JSON.
    State,
    /// Figures for Prometheus.
    Metrics,
    /// The listing of the program.
    Program,
    /// The values of the controller's variables, as JSON.
    Values,
}

/// How a request is answered.
#[derive(Clone, Copy, PartialEq, Eq)]
pub enum Verdict {
    Shows(Show),
    /// It has no host.
    Malformed,
    /// It's for another host.
    Misdirected,
    /// It's neither GET nor HEAD.
    Refused,
    /// There's nothing at its path.
    Missing,
}

/// What a page is of, whatever shows: the names under which it's asked for, and the version of the program that serves
/// it.
#[derive(Drop)]
pub struct Site {
    /// As a `Host` has them.
    pub hosts: Vec<Vec<u8>>,
    pub version: &'static [u8],
}

/// What this path shows.
fn shown_at(path: &str) -> Option<Show>
    ensures { result ≡ shown_at path.now }
{
    if path == "/" {
        Some(Show::Page)
    } else if path == "/style.css" {
        Some(Show::Style)
    } else if path == "/script.js" {
        Some(Show::Script)
    } else if path == "/state" {
        Some(Show::State)
    } else if path == "/metrics" {
        Some(Show::Metrics)
    } else if path == "/program" {
        Some(Show::Program)
    } else if path == "/values" {
        Some(Show::Values)
    } else {
        None
    }
}

/// Whether this is one of the site's names.
fn is_ours(site: &Site, host: &[u8]) -> bool
    ensures { result ≡ is_ours site.now host.now }
{
    site.hosts.iter().any(|ours| ours.as_slice() == host)
}

/// Whether a method only reads.
fn is_read(method: &str) -> bool
    ensures { result ≡ is_read method.now }
{
    method == "GET" || method == "HEAD"
}

/// How a request is answered that's for this site.
fn judged(method: &str, path: &str) -> Verdict
    ensures { result ≡ judged method.now path.now }
{
    if !is_read(method) {
        return Verdict::Refused;
    }
    match shown_at(path) {
        Some(show) => Verdict::Shows(show),
        None => Verdict::Missing,
    }
}

/// How a request is answered. A browser says by `Host` which name it was given: under a name that isn't the site's,
/// another site's page could read it.
pub fn verdict_of(site: &Site, request: &Request<Bytes>) -> Verdict
    ensures { result ≡ verdict_of site.now (head_of request.now) }
{
    let Some(host) = request.headers().get("host") else {
        return Verdict::Malformed;
    };
    if request.uri().scheme_str().is_some() || !is_ours(site, host.as_bytes()) {
        return Verdict::Misdirected;
    }
    judged(request.method().as_str(), request.uri().path())
}

/// The status code of an answer (RFC 9110, 15).
fn code_of(verdict: Verdict) -> StatusCode
    ensures { result ≡ code_of verdict }
{
    match verdict {
        Verdict::Shows(_) => StatusCode::OK,
        Verdict::Malformed => StatusCode::BAD_REQUEST,
        Verdict::Misdirected => StatusCode::MISDIRECTED_REQUEST,
        Verdict::Refused => StatusCode::METHOD_NOT_ALLOWED,
        Verdict::Missing => StatusCode::NOT_FOUND,
    }
}

/// Of which type the content of an answer is.
fn kind_of(verdict: Verdict) -> HeaderValue
    ensures { result.bytes ≡ kind_of verdict }
{
    match verdict {
        Verdict::Shows(Show::Page) => HeaderValue::from_static("text/html; charset=utf-8"),
        Verdict::Shows(Show::Style) => HeaderValue::from_static("text/css; charset=utf-8"),
        Verdict::Shows(Show::Script) => HeaderValue::from_static("text/javascript; charset=utf-8"),
        Verdict::Shows(Show::State | Show::Values) => {
            HeaderValue::from_static("application/json")
        }
        Verdict::Shows(Show::Metrics) => {
            HeaderValue::from_static("text/plain; version=0.0.4; charset=utf-8")
        }
        _ => HeaderValue::from_static("text/plain; charset=utf-8"),
    }
}

/// Adds a field that's the same in each answer.
fn add(response: &mut Response, name: &'static str, value: &'static str) -> Result<(), AllocError>
    requires { IsTrue (is_header_name name.now) × IsTrue (is_visible_text value.now) }
    ensures headers { OnOk result (fields_of response.new ≡ fields_of response.old ++ (name.now, value.now) ∷ []) }
    ensures status { response.new.status ≡ response.old.status }
    ensures body { response.new.body ≡ response.old.body }
{
    response.add_header(
        HeaderName::from_static(name),
        HeaderValue::from_static(value),
    )
}

/// Adds the field that tells the type of an answer.
fn add_kind(response: &mut Response, verdict: Verdict) -> Result<(), AllocError>
    ensures headers { OnOk result (fields_of response.new ≡ fields_of response.old ++ kind_field verdict ∷ []) }
    ensures status { response.new.status ≡ response.old.status }
    ensures body { response.new.body ≡ response.old.body }
{
    response.add_header(HeaderName::from_static("content-type"), kind_of(verdict))
}

/// Adds the fields of an answer: its type; that it's not kept; that nothing of another site is loaded, nor its type
/// guessed; and what is allowed, where the method isn't.
fn put_fields(verdict: Verdict, response: &mut Response) -> Result<(), AllocError>
    ensures headers { OnOk result (fields_of response.new ≡ fields_of response.old ++ fields_by verdict) }
    ensures status { response.new.status ≡ response.old.status }
    ensures body { response.new.body ≡ response.old.body }
{
    add_kind(response, verdict)?;
    add(response, "cache-control", "no-store")?;
    add(response, "x-content-type-options", "nosniff")?;
    add(response, "content-security-policy", POLICY)?;
    add(response, "allow", "GET, HEAD")?;
    Ok(())
}

/// Adds what stands in an answer.
fn put_content(
    out: &mut Vec<u8>,
    site: &Site,
    verdict: Verdict,
    reading: &Reading,
    program: &[u8],
    seen: &[u8],
) -> Result<(), AllocError>
    ensures { OnOk result (IsAdded out.old.items
        (content_of site.now verdict reading.now program.now seen.now) out.new.items) }
{
    match verdict {
        Verdict::Shows(Show::Page) => put_page(out, reading),
        Verdict::Shows(Show::Style) => put_text(out, STYLE),
        Verdict::Shows(Show::Script) => put_text(out, SCRIPT),
        Verdict::Shows(Show::State) => put_state(out, site.version, reading),
        Verdict::Shows(Show::Metrics) => put_metrics(out, site.version, reading),
        Verdict::Shows(Show::Program) => put(out, program),
        Verdict::Shows(Show::Values) => put(out, seen),
        Verdict::Malformed => put(out, b"The request has no Host.\n"),
        Verdict::Misdirected => put(out, b"This is another host.\n"),
        Verdict::Refused => put(out, b"This page is only read.\n"),
        Verdict::Missing => put(out, b"There is nothing here.\n"),
    }
}

/// What stands in an answer.
fn content_of(
    alloc: Global,
    site: &Site,
    verdict: Verdict,
    reading: &Reading,
    program: &[u8],
    seen: &[u8],
) -> Result<Vec<u8>, AllocError>
    ensures { IfOk result
        (λ v. v.items ≡ content_of site.now verdict reading.now program.now seen.now) }
{
    let mut out = Vec::new(alloc);
    put_content(&mut out, site, verdict, reading, program, seen)?;
    Ok(out)
}

/// Answers by this verdict, with this content.
pub fn put_answer(
    verdict: Verdict,
    content: &[u8],
    response: &mut Response,
) -> Result<(), AllocError>
    requires { IsBlank response.old }
    ensures { OnOk result (IsResponse (code_of verdict) (fields_by verdict) content.now response.new) }
{
    response.status = code_of(verdict);
    put_fields(verdict, response)?;
    response.body.put_slice(content)
}

/// Answers a request, by what shows, and by the texts of the program and of the values.
pub fn respond(
    alloc: Global,
    site: &Site,
    request: &Request<Bytes>,
    reading: &Reading,
    program: &[u8],
    seen: &[u8],
    response: &mut Response,
) -> Result<(), AllocError>
    requires { IsBlank response.old }
    ensures { OnOk result (IsAnswered site.now (head_of request.now) reading.now program.now
        seen.now response.new) }
{
    let verdict = verdict_of(site, request);
    let content = content_of(alloc, site, verdict, reading, program, seen)?;
    put_answer(verdict, content.as_slice(), response)
}
