//! What a request is answered: a function of the request and of what shows.

ghost use Rattle.std.specs.Prelude.{◌≡◌, IfOk, OnOk};
ghost use Rattle.http.specs.Request.{head_of};
ghost use Rattle.http_server.specs.Response.{IsBlank};
ghost use Rattle.field_page.specs.Answers.{IsAnswered, content_of};
ghost use Rattle.plc_figures.specs.Texts.{IsAdded};

use crate::metrics::put_metrics;
use crate::page::{SCRIPT, put_page};
use crate::reading::Reading;
use crate::site::{FieldSite, verdict_of};
use crate::state::put_state;
use crate::text::put_text;
use bytes::Bytes;
use http::Request;
use http_server::Response;
use plc_figures::{Told, put};
use plc_page::{STYLE, Show, Verdict, put_answer};
use std::alloc::{AllocError, Global};

/// Adds what stands in an answer.
fn put_content(
    out: &mut Vec<u8>,
    site: &FieldSite,
    verdict: Verdict,
    reading: &Reading,
    told: &[Told],
) -> Result<(), AllocError>
    ensures { OnOk result (IsAdded out.old.items (content_of site.now verdict reading.now told.now) out.new.items) }
{
    match verdict {
        Verdict::Shows(Show::Page) => put_page(out, site, reading),
        Verdict::Shows(Show::Style) => put_text(out, STYLE),
        Verdict::Shows(Show::Script) => put_text(out, SCRIPT),
        Verdict::Shows(Show::State) => put_state(out, site, reading, told),
        Verdict::Shows(Show::Metrics) => put_metrics(out, site, reading),
        Verdict::Malformed => put(out, b"The request has no Host.\n"),
        Verdict::Misdirected => put(out, b"This is another host.\n"),
        Verdict::Refused => put(out, b"This page is only read.\n"),
        Verdict::Shows(Show::Program | Show::Values) | Verdict::Missing => {
            put(out, b"There is nothing here.\n")
        }
    }
}

/// What stands in an answer.
fn content_of(
    alloc: Global,
    site: &FieldSite,
    verdict: Verdict,
    reading: &Reading,
    told: &[Told],
) -> Result<Vec<u8>, AllocError>
    ensures { IfOk result (λ v. v.items ≡ content_of site.now verdict reading.now told.now) }
{
    let mut out = Vec::new(alloc);
    put_content(&mut out, site, verdict, reading, told)?;
    Ok(out)
}

/// Answers a request, by what shows, and by the last lines that were told.
pub fn respond(
    alloc: Global,
    site: &FieldSite,
    request: &Request<Bytes>,
    reading: &Reading,
    told: &[Told],
    response: &mut Response,
) -> Result<(), AllocError>
    requires { IsBlank response.old }
    ensures { OnOk result (IsAnswered site.now (head_of request.now) reading.now told.now response.new) }
{
    let verdict = verdict_of(site, request);
    let content = content_of(alloc, site, verdict, reading, told)?;
    put_answer(verdict, content.as_slice(), response)
}
