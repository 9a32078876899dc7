//! `limit`, `retire`, `stop`, `resume` and `day` over a ledger in memory: what they print, what
//! they say on errors, and their statuses; the same of a report of two. And which texts are printed
//! logins.
//!
//! The helpers have no clauses but the one that its caller needs, so that a test stays cheap to
//! prove.
ghost use Rattle.std.specs.Prelude.{IfOk};
ghost use Rattle.mq_command.specs.Allowing.{IsSetter};

use mq_command::{
    Form, ReportOrder, ReportedLogins, SetEnd, Setter, StopOrder, ask_default, is_login_text,
    json_of_sound, json_of_wrong, login_of_text, login_text, print_day, print_sum, push_json_limit,
    run_day, run_fresh, run_fresh_at, run_limit, run_restore, run_resume, run_retire, run_stop,
    run_totals, share_of,
};
use mq_frame::{decode_request, encode_request};
use mq_ledger::{PlainLedger, Zone};
use mq_link::{Link, LinkFault};
use mq_request::{Host, Login, Request, is_host, is_login, is_moment, is_request};
use mq_server::serve;
use mq_stream::{FromRead, WriterSink};
use std::alloc::Global;
use std::net::{Ipv4Addr, SocketAddr};
use std::process::Abort;
use std::str;
use std::test::Fail;

/// A link to a ledger in memory: each exchange is a connection of its own.
#[derive(Drop)]
struct Near {
    alloc: Global,
    ledger: PlainLedger,
    /// Whether it can't be reached.
    is_down: bool,
}

impl Link for Near {
    fn exchange(&mut self, frame: &[u8], reply: &mut Vec<u8>) -> Result<(), LinkFault> {
        reply.clear();
        if self.is_down {
            return Err(LinkFault::Down);
        }
        let mut input = FromRead::new(frame);
        let mut output = WriterSink::new(Vec::new(self.alloc));
        if serve(self.alloc, &mut input, &mut output, &mut self.ledger).is_err() {
            return Err(LinkFault::Memory);
        }
        let written = output.into_inner();
        // The body stands after the two bytes of its length.
        let body = written.as_slice().get(2..).unwrap_or(&[]);
        reply.extend_from_slice(body).or(Err(LinkFault::Memory))
    }
}

/// The request of a body of hexadecimal digits.
fn request_of(alloc: Global, digits: &str) -> Result<Request, Fail> {
    let body = hex::decode(alloc, digits.as_bytes())?;
    match decode_request(alloc, body.as_slice()) {
        Ok(request) => Ok(request),
        Err(_) => Err("no request".into()),
    }
}

/// What is done.
#[derive(Clone, Copy)]
enum Act {
    /// This order is sent, or this frame of a filter.
    Send(&'static str),
    /// This limit is sent under the first number that isn't used.
    SendFresh(&'static str),
    /// Login `u` is stopped on this day, and whether it is meant is said.
    Stop(u32, bool),
    /// Login `u` has on this day, and on each later one, the limit that it had.
    Restore(u32),
    /// Login `u` may have so many more on this day and on each later one.
    Resume(u32, u32),
    /// The day of a moment is told.
    Day(u64),
}

/// Run 7 of host `c`, which sets limits of login `u`.
fn setter(alloc: Global) -> Result<Setter, Fail>
    ensures { IfOk result IsSetter }
{
    let host = Host::from_slice(alloc, b"c")?;
    let login = Login::from_slice(alloc, b"u")?;
    if !is_host(host.as_slice()) || !is_login(login.as_slice()) {
        return Err("no setter".into());
    }
    Ok(Setter {
        host,
        run: 7,
        login,
    })
}

/// The status of an order, or of a frame that a filter sends.
fn sent(
    alloc: Global,
    link: &mut Near,
    digits: &str,
    output: &mut Vec<u8>,
    errors: &mut Vec<u8>,
) -> Result<u8, Fail> {
    let request = request_of(alloc, digits)?;
    if !is_request(&request) {
        return Err("a request out of range".into());
    }
    match &request {
        Request::Limit { .. } => Ok(run_limit(alloc, link, &request, output, errors)),
        Request::Retire { .. } => Ok(run_retire(alloc, link, &request, output, errors)),
        _ => {
            let mut frame = Vec::new(alloc);
            encode_request(&request, &mut frame)?;
            let mut reply = Vec::new(alloc);
            Ok(u8::from(link.exchange(frame.as_slice(), &mut reply).is_err()))
        }
    }
}

/// The status of a limit that is sent under the first number that isn't used.
fn sent_fresh(
    alloc: Global,
    link: &mut Near,
    digits: &str,
    output: &mut Vec<u8>,
    errors: &mut Vec<u8>,
) -> Result<u8, Fail> {
    let request = request_of(alloc, digits)?;
    if !is_request(&request) {
        return Err("a request out of range".into());
    }
    match request {
        Request::Limit { .. } => Ok(run_fresh(alloc, link, request, output, errors)),
        _ => Err("no limit".into()),
    }
}

/// The status of a stop on this day.
fn stopped(
    alloc: Global,
    link: &mut Near,
    day: u32,
    is_meant: bool,
    output: &mut Vec<u8>,
    errors: &mut Vec<u8>,
) -> Result<u8, Fail> {
    if day > 376_199 {
        return Err("a day out of range".into());
    }
    let whose = setter(alloc)?;
    let order = StopOrder {
        day,
        is_meant,
        is_all: false,
    };
    Ok(run_stop(alloc, link, &whose, order, output, errors).status())
}

/// The status of a limit that is given back on this day.
fn restored(
    alloc: Global,
    link: &mut Near,
    day: u32,
    output: &mut Vec<u8>,
    errors: &mut Vec<u8>,
) -> Result<u8, Fail> {
    if day > 376_199 {
        return Err("a day out of range".into());
    }
    let whose = setter(alloc)?;
    Ok(run_restore(alloc, link, &whose, day, output, errors))
}

/// The status of a resume on this day, with so many recipients more.
fn resumed(
    alloc: Global,
    link: &mut Near,
    day: u32,
    more: u32,
    output: &mut Vec<u8>,
    errors: &mut Vec<u8>,
) -> Result<u8, Fail> {
    if day > 376_199 || more > 1_000_000 {
        return Err("numbers out of range".into());
    }
    let whose = setter(alloc)?;
    Ok(run_resume(alloc, link, &whose, day, more, output, errors))
}

/// The status of the day of a moment.
fn printed_day(
    alloc: Global,
    moment: u64,
    output: &mut Vec<u8>,
    errors: &mut Vec<u8>,
) -> Result<u8, Fail> {
    if !is_moment(moment) {
        return Err("a moment out of range".into());
    }
    match Zone::of_rule(RULE) {
        Ok(zone) => Ok(run_day(alloc, &zone, moment, output, errors)),
        Err(_) => Err("no rule".into()),
    }
}

/// The status of what is done.
fn done(
    alloc: Global,
    link: &mut Near,
    act: Act,
    output: &mut Vec<u8>,
    errors: &mut Vec<u8>,
) -> Result<u8, Fail> {
    match act {
        Act::Send(digits) => sent(alloc, link, digits, output, errors),
        Act::SendFresh(digits) => sent_fresh(alloc, link, digits, output, errors),
        Act::Stop(day, is_meant) => stopped(alloc, link, day, is_meant, output, errors),
        Act::Restore(day) => restored(alloc, link, day, output, errors),
        Act::Resume(day, more) => resumed(alloc, link, day, more, output, errors),
        Act::Day(moment) => printed_day(alloc, moment, output, errors),
    }
}

/// Asserts what is printed, said and ended with, with a `|` between.
fn assert_told(
    rt: &(impl Abort + AllocGlobal),
    link: &mut Near,
    act: Act,
    wanted: &str,
) -> Result<(), Fail> {
    let alloc = rt.alloc();
    let mut output = Vec::new(alloc);
    let mut errors = Vec::new(alloc);
    let status = done(alloc, link, act, &mut output, &mut errors)?;
    let printed = str::from_utf8(output.as_slice())?;
    let said = str::from_utf8(errors.as_slice())?;
    let found = format!(in alloc; "{printed}|{said}|{status}")?;
    assert_eq!(rt; found.as_str(), wanted);
    Ok(())
}

/// The rule of the days that are told.
const RULE: &str = "CET-1CEST,M3.5.0,M10.5.0/3";

/// What is done in turn, and what is told of it.
const ACTS: [(Act, &str); 22] = [
    // Reserves of 1 and of 2 recipients for login `u` on day 1, under numbers 1 and 2 of run 1 of
    // host `a`.
    (
        Act::Send("010161000000000000000100000001000000010000000000015180017500000001"),
        "||0",
    ),
    (
        Act::Send("010161000000000000000100000002000000010000000000015180017500000002"),
        "||0",
    ),
    // Limits from day 1 on: below what is used; what is used; another one under the same number,
    // and under the next run's.
    (
        Act::Send("04016200000000000000020000000100000001000000020175"),
        "|mailquota: over day 1 used 3\n|1",
    ),
    (
        Act::Send("04016200000000000000020000000200000001000000030175"),
        "set\n||0",
    ),
    (
        Act::Send("04016200000000000000020000000200000001000000040175"),
        "|mailquota: number used with another limit\n|1",
    ),
    (
        Act::SendFresh("04016200000000000000020000000200000001000000040175"),
        "set\n||0",
    ),
    (
        Act::Send("04016200000000000000030000000200000001000000050175"),
        "|mailquota: number used with another limit\n|1",
    ),
    // The runs of host `a` below 2, twice, and below 1; then under a number that a limit has.
    (Act::Send("070161000000000000000200000001"), "retired\n||0"),
    (Act::Send("070161000000000000000200000001"), "retired\n||0"),
    (
        Act::Send("070161000000000000000100000009"),
        "|mailquota: run is retired\n|1",
    ),
    (
        Act::Send("070162000000000000000200000001"),
        "|mailquota: number used with another request\n|1",
    ),
    // A limit under a number of a run that was given up.
    (
        Act::Send("04016100000000000000010000000900000001000000040175"),
        "|mailquota: run is retired\n|1",
    ),
    // A limit of 4 is what is used, and 1 more; then it is what is used, and nothing more.
    (Act::Resume(1, 1), "resumed: u may use 4 on day 1\n||0"),
    (
        Act::Send("010161000000000000000200000002000000010000000000015180017500000001"),
        "||0",
    ),
    (
        Act::Stop(1, false),
        "stopped: u used 4 on day 1\nlimit before: 4\n||0",
    ),
    // It sent something on the day before.
    (
        Act::Stop(2, false),
        "stopped: u used 0 on day 2\nlimit before: 0\n||0",
    ),
    (
        Act::Stop(0, false),
        "|mailquota: nothing sent on day 0 or the two before; check the login, or use --force\n|1",
    ),
    // What is used on the next day is above its limit of the day, which stays.
    (
        Act::Stop(0, true),
        "stopped: u may use 3 on day 0\nlimit before: 3\nlimit after: 4 up to day 1\n||0",
    ),
    // On day 0 it had the default, which is less than is used on day 1. It was stopped from day 2 on.
    (
        Act::Restore(1),
        "resumed: u may use 4 on day 1\nlimit after: 3\n|mailquota: note: a limit of 0 stays in force from day 3 on; use resume --day 3\n|0",
    ),
    (
        Act::Restore(1),
        "not stopped: u may use 4 on day 1\nlimit after: 3\n|mailquota: note: a limit of 0 stays in force from day 3 on; use resume --day 3\n|0",
    ),
    // The last second of a day of winter, and the first of the next.
    (Act::Day(1576105199), "18241\n||0"),
    (Act::Day(1576105200), "18242\n||0"),
];

#[test]
fn orders(rt: HostRuntime) -> Result<(), Fail> {
    let alloc = rt.alloc();
    let mut link = Near {
        alloc,
        ledger: PlainLedger::new(alloc, Zone::of_offset(0).expect(&rt, "UTC"), 3),
        is_down: false,
    };
    for (act, wanted) in ACTS {
        assert_told(&rt, &mut link, act, wanted)?;
    }
    Ok(())
}

/// Texts, and the logins that are printed so.
const TEXTS: [(&str, Option<&[u8]>); 10] = [
    ("alice", Some(b"alice")),
    ("a\\x5cb\\x20\\xc3\\xa9\\xff", Some(b"a\\b \xc3\xa9\xff")),
    // A digit is in lower case, and only what isn't visible is told by digits.
    ("\\xC3", None),
    ("\\x41", None),
    ("\\xf", None),
    ("\\xfg", None),
    ("\\", None),
    ("a b", None),
    ("\u{e9}", None),
    // No login has no bytes.
    ("", None),
];

/// The login that is printed so, if there is one.
fn read_back(alloc: Global, text: &str) -> Result<Option<Login>, Fail> {
    if is_login_text(text) {
        Ok(login_of_text(alloc, text)?)
    } else {
        Ok(None)
    }
}

#[test]
fn printed_logins(rt: HostRuntime) -> Result<(), Fail> {
    let alloc = rt.alloc();
    for (text, wanted) in TEXTS {
        let found = read_back(alloc, text)?;
        match (&found, wanted) {
            (Some(login), Some(bytes)) => {
                assert_eq!(&rt; login.as_slice(), bytes);
                assert_eq!(&rt; login_text(alloc, bytes)?.as_str(), text);
            }
            (None, None) => {}
            _ => return Err("another login".into()),
        }
    }
    Ok(())
}

/// Numbers of a first server, a server's default, the first one's, and the share.
const SHARES: [[u32; 4]; 7] = [
    [2_000, 100, 1_000, 200],
    [1, 100, 1_000, 1],
    [10, 3, 4, 8],
    [0, 100, 1_000, 0],
    [5, 0, 1_000, 0],
    [7, 100, 0, 7],
    [1_000_000, 1_000_000, 1, 1_000_000],
];

/// A server whose default is this, at which frames were sent.
fn server_with(alloc: Global, default: u32, frames: &[&str]) -> Result<Near, Fail> {
    if default > 1_000_000 {
        return Err("a default out of range".into());
    }
    let Ok(zone) = Zone::of_offset(0) else {
        return Err("no zone".into());
    };
    let mut link = Near {
        alloc,
        ledger: PlainLedger::new(alloc, zone, default),
        is_down: false,
    };
    let mut output = Vec::new(alloc);
    let mut errors = Vec::new(alloc);
    for digits in frames {
        sent(alloc, &mut link, digits, &mut output, &mut errors)?;
    }
    Ok(link)
}

/// What is reported of day 1, with a `|` between output, errors and status.
fn reported(alloc: Global, links: &mut [Near], order: &ReportOrder) -> Result<String, Fail> {
    let servers = [
        SocketAddr::new(Ipv4Addr::new(192, 0, 2, 5).into(), 7025),
        SocketAddr::new(Ipv4Addr::new(192, 0, 2, 6).into(), 7025),
    ];
    if links.len() != 2 {
        return Err("no two links".into());
    }
    let mut output = Vec::new(alloc);
    let mut errors = Vec::new(alloc);
    let status = run_totals(
        alloc,
        links,
        &servers,
        order,
        "1970-01-02",
        &mut output,
        &mut errors,
    );
    let printed = str::from_utf8(output.as_slice())?;
    let said = str::from_utf8(errors.as_slice())?;
    Ok(format!(in alloc; "{printed}|{said}|{status}")?)
}

/// All logins of day 1 in this form.
fn all_in(form: Form) -> ReportOrder {
    ReportOrder {
        day: 1,
        logins: ReportedLogins::All,
        form,
    }
}

#[test]
fn two_servers(rt: HostRuntime) -> Result<(), Fail> {
    let alloc = rt.alloc();
    for [number, default, first, wanted] in SHARES {
        assert_eq!(rt; share_of(number, default, first), wanted);
    }
    // Login `u` used 3 at the first server, and `v` used 5 at the second, whose default is a tenth.
    let mut first = server_with(
        alloc,
        1_000,
        &[
            "010161000000000000000100000001000000010000000000015180017500000001",
            "010161000000000000000100000002000000010000000000015180017500000002",
        ],
    )?;
    let mut second = server_with(
        alloc,
        100,
        &["010162000000000000000100000001000000010000000000015180017600000005"],
    )?;
    assert_eq!(rt; ask_default(alloc, &mut first, 1), Ok(1_000));
    assert_eq!(rt; ask_default(alloc, &mut second, 1), Ok(100));

    let mut links = [first, second];
    let wanted = "      0       3    1100 u\n      0       5    1100 v\n||0";
    assert_eq!(rt;
        reported(alloc, &mut links, &all_in(Form::Plain))?.as_str(),
        wanted
    );
    let wanted =
        "settled reserved  limit login\n      0       3    1100 u\n      0       5    1100 v\n||0";
    assert_eq!(rt;
        reported(alloc, &mut links, &all_in(Form::Shown))?.as_str(),
        wanted
    );
    let wanted =
        "{\"day\":1,\"date\":\"1970-01-02\",\"logins\":[{\"login\":\"u\",\"settled\":0,\"reserved\":3,\"limit\":1100},{\"login\":\"v\",\"settled\":0,\"reserved\":5,\"limit\":1100}]}\n||0";
    assert_eq!(rt;
        reported(alloc, &mut links, &all_in(Form::Json))?.as_str(),
        wanted
    );
    let order = ReportOrder {
        day: 1,
        logins: ReportedLogins::Top(1),
        form: Form::Plain,
    };
    assert_eq!(rt;
        reported(alloc, &mut links, &order)?.as_str(),
        "      0       5    1100 v\n||0"
    );
    // One who sent nothing, and whose login is no visible text.
    let order = ReportOrder {
        day: 1,
        logins: ReportedLogins::One(Login::from_slice(alloc, b"\"\\ ")?),
        form: Form::Json,
    };
    let wanted =
        "{\"day\":1,\"date\":\"1970-01-02\",\"logins\":[{\"login\":\"\\\"\\\\x5c\\\\x20\",\"settled\":0,\"reserved\":0,\"limit\":1100}]}\n||0";
    assert_eq!(rt; reported(alloc, &mut links, &order)?.as_str(), wanted);

    // The second is away, and then both are.
    links[1].is_down = true;
    let wanted =
        "      0       3    1000 u\n|mailquota: server 192.0.2.6:7025 is left out: quota service unavailable\n|1";
    assert_eq!(rt;
        reported(alloc, &mut links, &all_in(Form::Plain))?.as_str(),
        wanted
    );
    links[0].is_down = true;
    let wanted =
        "|mailquota: server 192.0.2.5:7025 is left out: quota service unavailable\nmailquota: server 192.0.2.6:7025 is left out: quota service unavailable\n|1";
    assert_eq!(rt;
        reported(alloc, &mut links, &all_in(Form::Plain))?.as_str(),
        wanted
    );
    Ok(())
}

#[test]
fn forms_of_a_day(rt: HostRuntime) -> Result<(), Fail> {
    let alloc = rt.alloc();
    let mut output = Vec::new(alloc);
    let mut errors = Vec::new(alloc);
    for form in [Form::Plain, Form::Shown, Form::Json] {
        assert_eq!(rt;
            print_day(alloc, form, 20_787, "2026-11-30", &mut output, &mut errors),
            0
        );
    }
    for after in [None, Some(20_787)] {
        assert_eq!(rt; print_sum(alloc, 2_200, after, &mut output, &mut errors), 0);
    }
    let printed = str::from_utf8(output.as_slice())?;
    let wanted =
        "20787\n20787 2026-11-30\n{\"day\":20787,\"date\":\"2026-11-30\"}\nin all at most 2200 a day\nin all at most 2200 a day after day 20787\n";
    assert_eq!(rt; printed, wanted);
    Ok(())
}

#[test]
fn objects_of_limits_and_books(rt: HostRuntime) -> Result<(), Fail> {
    let alloc = rt.alloc();
    let mut text = Vec::new(alloc);
    push_json_limit(alloc, &mut text, b"a\"b", 20_787, 2_000)?;
    text.extend_from_slice(b"\n")?;
    // Days that no ledger has.
    push_json_limit(alloc, &mut text, b"\xff", 376_201, 0)?;
    text.extend_from_slice(b"\n")?;
    push_json_limit(alloc, &mut text, b"u", -1, -5)?;
    text.extend_from_slice(b"\n")?;
    text.extend_from_slice(json_of_sound(alloc, 3, 4)?.as_bytes())?;
    text.extend_from_slice(json_of_wrong(alloc, b"u", 376_200)?.as_slice())?;
    let wanted =
        "{\"login\":\"a\\\"b\",\"from_day\":20787,\"from_date\":\"2026-11-30\",\"limit\":2000}\n{\"login\":\"\\\\xff\",\"from_day\":376201,\"from_date\":null,\"limit\":0}\n{\"login\":\"u\",\"from_day\":-1,\"from_date\":null,\"limit\":-5}\n{\"sound\":true,\"days\":3,\"transactions\":4}\n{\"sound\":false,\"login\":\"u\",\"day\":376200,\"date\":\"3000-01-01\"}\n";
    assert_eq!(rt; str::from_utf8(text.as_slice())?, wanted);
    Ok(())
}

#[test]
fn set_at_a_server(rt: HostRuntime) -> Result<(), Fail> {
    let alloc = rt.alloc();
    let mut link = server_with(alloc, 100, &[])?;
    let mut output = Vec::new(alloc);
    let mut errors = Vec::new(alloc);
    // A limit of 4 from day 1 on.
    let request = request_of(alloc, "04016200000000000000020000000100000001000000040175")?;
    if !is_request(&request) || !matches!(&request, Request::Limit { .. }) {
        return Err("no limit".into());
    }
    let server = "192.0.2.6:7025";
    let end = run_fresh_at(alloc, &mut link, request, server, &mut output, &mut errors);
    assert_eq!(rt; end, SetEnd::Set);
    assert_eq!(rt;
        str::from_utf8(output.as_slice())?,
        "set 4 at 192.0.2.6:7025\n"
    );
    Ok(())
}
