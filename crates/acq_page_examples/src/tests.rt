//! Requests, replies, and figures in a host's texts.

use acq_page::{
    Asked, HostSaid, HttpConnection, LONGEST_HEAD, Piece, Questions, Request, all_behind,
    first_behind, lines_of, reply_to, spell,
};
use httpdate::HttpDate;
use std::alloc::{AllocError, Global};

const STATUS: &[u8] = b"version 0.2.0\nday 2024-05-02\nplaces 64\nopen_places 0\n\
    log_lines_lost_total 5\noldest_pending_age_seconds 61\nnew_figure <b>\nreplies_total.00 112\n\
    replies_total.other 3\npending.2024-05-01 1\npending.2024-05-02 0\n";

const METRICS: &[u8] = b"# TYPE acqd_reply_seconds histogram\n\
    acqd_reply_seconds_bucket{le=\"0.001\"} 80\nacqd_reply_seconds_bucket{le=\"0.002\"} 101\n";

const PENDING: &[u8] = b"answer,1714608000,\"<i>, \"\"BAGS&CO \",000000000007,none,\n";

const SUMS: &[u8] = b"currency,credits\n978,1\n";

/// What a host said.
fn said(alloc: Global) -> Result<HostSaid, AllocError> {
    Ok(HostSaid {
        status: Some(Vec::from_slice(alloc, STATUS)?),
        metrics: Some(Vec::from_slice(alloc, METRICS)?),
        pending: Vec::from_slice(alloc, PENDING)?,
        sums: Some(Vec::from_slice(alloc, SUMS)?),
    })
}

/// What comes to a request for something.
fn replied(alloc: Global, asked: Asked, with_body: bool) -> Result<Vec<u8>, AllocError> {
    let request = Request { asked, with_body };
    let date = HttpDate::from_unix_secs(784_111_777).ok();
    reply_to(alloc, request, &said(alloc)?, date)
}

/// Whether a text has a part.
fn has(text: &[u8], part: &[u8]) -> bool {
    text.windows(part.len().max(1)).any(|found| found == part)
}

#[test]
fn heads(rt: HostRuntime) {
    let cases: [(&[u8], Asked, bool); 10] = [
        (b"GET / HTTP/1.1\r\n\r\n", Asked::Page, true),
        (b"HEAD /metrics HTTP/1.0\n\n", Asked::Metrics, false),
        (
            b"GET /metrics HTTP/1.1\r\nHost: LocalHost:80\r\n\r\nmore",
            Asked::Metrics,
            true,
        ),
        (
            b"HEAD / HTTP/1.1\r\nhost: [::1]\r\nHOST: here\r\n\r\n",
            Asked::OtherHost,
            false,
        ),
        (
            b"POST / HTTP/1.1\r\nHost: here\r\n\r\n",
            Asked::OtherMethod,
            true,
        ),
        (b"GET /../etc HTTP/1.1\r\n\r\n", Asked::Missing, true),
        (b"POST / HTTP/1.1\r\n\r\n", Asked::OtherMethod, true),
        (b"GET / HTTP/2.0\r\n\r\n", Asked::Bad, true),
        (b"\x16\x03\x01\x02", Asked::Bad, true),
        (&[b'a'; LONGEST_HEAD + 1], Asked::TooLong, true),
    ];
    for (bytes, asked, with_body) in cases {
        let mut connection = HttpConnection::new(rt.alloc());
        let whole = Some(Request { asked, with_body });
        assert!(&rt; connection.feed(bytes).expect(&rt, "memory") == whole);
    }
}

#[test]
fn a_head_in_pieces(rt: HostRuntime) {
    let mut connection = HttpConnection::new(rt.alloc());
    for piece in [b"GET ".as_slice(), b"/ HTTP", b"/1.1\r\n"] {
        assert!(&rt; connection.feed(piece).expect(&rt, "memory").is_none());
    }
    assert!(&rt; connection.feed(b"\r\n").expect(&rt, "memory").is_some());
    assert!(&rt; !connection.is_over());
    connection.reply(Vec::from_slice(rt.alloc(), b"HTTP").expect(&rt, "memory"));
    assert!(&rt; connection.to_write() == b"HTTP".as_slice());
    connection.wrote(4);
    assert!(&rt; connection.is_over());
}

#[test]
fn a_page(rt: HostRuntime) {
    let reply = replied(rt.alloc(), Asked::Page, true).expect(&rt, "memory");
    let reply = reply.as_slice();
    assert!(&rt; reply.starts_with(b"HTTP/1.1 200 OK\r\nDate: Sun, 06 Nov 1994 08:49:37 GMT\r\n"));
    let parts: [&[u8]; 9] = [
        b"places free: 0 of 64",
        b"1 waiting of 2024-05-01, a day that is over",
        b"No place for a terminal is free",
        b"Lines of the log that were lost: 5",
        b"has waited for 61 seconds",
        b"<th>new_figure</th><td class=\"n\">&lt;b&gt;</td>",
        b"<td>&lt;i&gt;, &quot;BAGS&amp;CO </td><td>000000000007</td>",
        b"<th>0.002</th><td class=\"n\">21</td>",
        b"<td class=\"n\">978</td>",
    ];
    for part in parts {
        assert!(&rt; has(reply, part));
    }
    assert!(&rt; !has(reply, b"<b>") && !has(reply, b"<i>,"));
    let head = replied(rt.alloc(), Asked::Page, false).expect(&rt, "memory");
    assert!(&rt; reply.starts_with(head.as_slice()) && head.as_slice().ends_with(b"\r\n\r\n"));
}

#[test]
fn metrics(rt: HostRuntime) {
    let reply = replied(rt.alloc(), Asked::Metrics, true).expect(&rt, "memory");
    assert!(&rt; reply.as_slice().ends_with(METRICS));
    let kind = b"\r\nContent-Type: text/plain; version=0.0.4; charset=utf-8\r\n";
    assert!(&rt; has(reply.as_slice(), kind));
}

#[test]
fn without_a_host(rt: HostRuntime) {
    let silent = HostSaid {
        status: None,
        metrics: None,
        pending: Vec::new(rt.alloc()),
        sums: None,
    };
    for asked in [Asked::Page, Asked::Metrics] {
        let request = Request {
            asked,
            with_body: true,
        };
        let reply = reply_to(rt.alloc(), request, &silent, None).expect(&rt, "memory");
        let begin = b"HTTP/1.1 503 Service Unavailable\r\nContent-Type: ";
        assert!(&rt; reply.as_slice().starts_with(begin));
        assert!(&rt; has(reply.as_slice(), b"The host doesn't answer"));
    }
}

#[test]
fn other_statuses(rt: HostRuntime) {
    let cases: [(Asked, &[u8]); 5] = [
        (Asked::Missing, b"HTTP/1.1 404 "),
        (Asked::OtherMethod, b"HTTP/1.1 405 "),
        (Asked::OtherHost, b"HTTP/1.1 421 Misdirected Request\r\n"),
        (Asked::Bad, b"HTTP/1.1 400 "),
        (Asked::TooLong, b"HTTP/1.1 431 "),
    ];
    for (asked, begin) in cases {
        let reply = replied(rt.alloc(), asked, true).expect(&rt, "memory");
        assert!(&rt; reply.as_slice().starts_with(begin));
        let allows = has(reply.as_slice(), b"\r\nAllow: GET, HEAD\r\n");
        assert!(&rt; allows == (asked == Asked::OtherMethod));
    }
}

#[test]
fn questions(rt: HostRuntime) {
    let questions = Questions::behind(rt.alloc(), STATUS).expect(&rt, "memory");
    assert!(&rt; questions.pending.len() == 1);
    for line in questions.pending.iter() {
        assert!(&rt; line.as_slice() == b"pending,2024-05-01".as_slice());
    }
    assert!(&rt;
        questions
            .sums
            .is_some_and(|line| line.as_slice() == b"sums,2024-05-02".as_slice())
    );
}

#[test]
fn lines(rt: HostRuntime) {
    let lines = lines_of(rt.alloc(), STATUS).expect(&rt, "memory");
    assert!(&rt; first_behind(lines.as_slice(), b"day ") == Some(b"2024-05-02".as_slice()));
    assert!(&rt; first_behind(lines.as_slice(), b"lines_total ").is_none());
    let days = all_behind(rt.alloc(), lines.as_slice(), b"pending.").expect(&rt, "memory");
    assert!(&rt; days.as_slice() == [b"2024-05-01 1".as_slice(), b"2024-05-02 0"].as_slice());
}

#[test]
fn pieces(rt: HostRuntime) {
    let pieces = [
        Piece::Markup("<p>"),
        Piece::Text(b"a<b>&'\"\n"),
        Piece::Number(7),
    ];
    let page = spell(rt.alloc(), &pieces).expect(&rt, "memory");
    assert!(&rt; page.as_slice() == b"<p>a&lt;b&gt;&amp;&#39;&quot;.7".as_slice());
}
