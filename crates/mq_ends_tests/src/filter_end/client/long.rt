//! Inputs that are too long to be written down.
use super::*;

/// A text, so many times.
type Piece<'a> = (usize, &'a str);

fn append_often(rt: &impl Abort, whole: &mut String, piece: Piece<'_>) {
    let (count, text) = piece;
    for _ in 0..count {
        append_text(rt, whole, text);
    }
}

fn text_of(rt: &impl Abort, alloc: Global, pieces: &[Piece<'_>]) -> String {
    let mut whole = String::new(alloc);
    for piece in pieces {
        append_often(rt, &mut whole, *piece);
    }
    whole
}

/// A run whose input and output are built.
#[derive(Clone, Copy)]
struct Built<'a> {
    row: Row<'a>,
    input: &'a [Piece<'a>],
    /// How many bytes it has.
    length: usize,
    output: &'a [Piece<'a>],
}

/// How many bytes there are in front of the one recipient's request.
const FRONT: usize = CONFIG.len() + AUTH.len() + BEGIN.len();

/// One recipient more than a transaction may have.
const THOUSAND_RECIPIENTS: Built<'static> = Built {
    row: Row {
        name: "a thousand recipients",
        replies: &[Reply::Recipients(1000)],
        ended: Ok(RunEnd {
            answers: 1001,
            left: 0,
        }),
        sent: Sent::Count(1000),
        held: 1,
        ..PLAIN
    },
    input: &[(1, CONFIG), (1, AUTH), (1, BEGIN), (1001, RECIPIENT)],
    length: FRONT + 1001 * RECIPIENT.len(),
    output: &[(1, REGISTRATION), (1000, PROCEED), (1, SERVICE)],
};

/// How many bytes the session and the token of the longest request have.
const LONGEST_NAME: usize = 32_746;

const LONGEST_REQUEST: Built<'static> = Built {
    row: Row {
        name: "the longest request",
        ..PLAIN
    },
    input: &[
        (1, CONFIG),
        (1, "filter|0.7|1576146010.1|smtp-in|rcpt-to|"),
        (LONGEST_NAME, "s"),
        (1, "|"),
        (LONGEST_NAME, "s"),
        (1, "|xy\n"),
    ],
    length: CONFIG.len() + 65_536 + 1,
    output: &[
        (1, REGISTRATION),
        (1, "filter-result|"),
        (LONGEST_NAME, "s"),
        (1, "|"),
        (LONGEST_NAME, "s"),
        (1, "|proceed\n"),
    ],
};

const LINE_TOO_LONG: Built<'static> = Built {
    row: Row {
        name: "a line too long",
        ended: Err(FilterFault::TooLong),
        ..PLAIN
    },
    input: &[(1, CONFIG), (65_537, "a")],
    length: CONFIG.len() + 65_537,
    output: &[(1, REGISTRATION)],
};

const BUILT: &[Built<'static>] = &[THOUSAND_RECIPIENTS, LONGEST_REQUEST, LINE_TOO_LONG];

fn assert_built(rt: &impl Abort, alloc: Global, run: &Built<'_>) {
    let input = text_of(rt, alloc, run.input);
    assert_count(rt, input.len(), run.length, run.row.name);
    let output = text_of(rt, alloc, run.output);
    assert_run(rt, alloc, &run.row, &input, &output);
}

#[test]
fn long_inputs(rt: HostRuntime) {
    for run in BUILT {
        assert_built(&rt, rt.alloc(), run);
    }
}
