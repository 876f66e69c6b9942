//! Talks of a client with a session, row by row.

use admission::Answer;
use session_records::Receipt;

/// What happens.
#[derive(Clone, Copy)]
pub(super) enum Comes {
    /// A complete request arrives.
    Request(&'static [u8]),
    /// The slot of this number comes.
    Slot(u64),
}

/// What the station answers.
#[derive(Clone, Copy)]
pub(super) enum Told {
    /// It isn't asked.
    Nothing,
    /// The place of the entry, and the slot in which the play begins.
    Admitted(u64, u64),
    /// The place of the entry, the slot, the bytes booked in it, and the bytes asked for.
    Overflow(u64, u64, u64, u64),
    /// The entries of the journal, and the open plays.
    Full(u64, u64),
    /// The place of the entry, and the bytes that the halt must keep.
    Halted(u64, u64),
    /// The place of the entry, the last slot, the slot that was looked at, the bytes booked in it.
    Looked(u64, u64, u64, u64),
}

/// What happens, what the station answers, and all bytes that the session sends then.
#[derive(Clone, Copy)]
pub(super) struct Row {
    pub(super) comes: Comes,
    pub(super) told: Told,
    pub(super) sent: &'static [u8],
}

/// A talk row by row, and what the session notes of it.
pub(super) struct Dialog {
    pub(super) rows: &'static [Row],
    pub(super) receipts: &'static [Receipt],
    pub(super) plays: usize,
    pub(super) offers: usize,
}

/// Each method, with a play to its first slot; the PAUSE is answered behind the report.
const METHODS: Dialog = Dialog {
    rows: &METHOD_ROWS,
    receipts: &METHOD_RECEIPTS,
    plays: 1,
    offers: 1,
};

const METHOD_ROWS: [Row; 10] = [
    Row {
        comes: Comes::Request(b"OPTIONS * RTSP/1.0\r\nCSeq: 1\r\n\r\n"),
        told: Told::Nothing,
        sent: b"RTSP/1.0 200 OK\r\nCSeq: 1\r\n\
            Public: OPTIONS, DESCRIBE, SETUP, PLAY, PAUSE, TEARDOWN, GET_PARAMETER\r\n\r\n",
    },
    Row {
        comes: Comes::Request(b"DESCRIBE rtsp://h/b.mpg RTSP/1.0\r\nCSeq: 2\r\n\r\n"),
        told: Told::Nothing,
        sent: b"RTSP/1.0 200 OK\r\nCSeq: 2\r\nContent-Base: rtsp://h/b.mpg/\r\n\
            Content-Type: application/sdp\r\nContent-Length: 138\r\n\r\n\
            v=0\r\no=- 0 0 IN IP4 127.0.0.1\r\ns=b.mpg\r\nc=IN IP4 0.0.0.0\r\nt=0 0\r\n\
            a=control:*\r\na=range:npt=0-0.080\r\nm=video 0 RTP/AVP 32\r\na=control:video\r\n",
    },
    Row {
        comes: Comes::Request(
            b"GET_PARAMETER rtsp://h/b.mpg RTSP/1.0\r\nCSeq: 3\r\nContent-Length: 8\r\n\r\n\
                x-Booked",
        ),
        told: Told::Looked(0, 3, 0, 77),
        sent: b"RTSP/1.0 200 OK\r\nCSeq: 3\r\nContent-Type: text/parameters\r\n\
            Content-Length: 35\r\n\r\nx-Now: 3\r\nx-Slot: 0\r\nx-Booked: 77\r\n",
    },
    Row {
        comes: Comes::Request(
            b"SETUP rtsp://h/b.mpg RTSP/1.0\r\nCSeq: 4\r\n\
                Transport: RTP/AVP/TCP;unicast;interleaved=0-1\r\nx-Startup: 2\r\n\r\n",
        ),
        told: Told::Nothing,
        sent: b"RTSP/1.0 200 OK\r\nCSeq: 4\r\n\
            Transport: RTP/AVP/TCP;unicast;interleaved=0-1;ssrc=01020304\r\n\
            Session: 0123456789abcdef\r\n\r\n",
    },
    Row {
        comes: Comes::Request(
            b"GET_PARAMETER rtsp://h/b.mpg RTSP/1.0\r\nCSeq: 5\r\nx-Wait: 1\r\n\
                Content-Length: 7\r\n\r\nx-Offer",
        ),
        told: Told::Nothing,
        sent: b"RTSP/1.0 200 OK\r\nCSeq: 5\r\nContent-Type: text/parameters\r\n\
            Content-Length: 15\r\n\r\nx-Start: none\r\n",
    },
    Row {
        comes: Comes::Request(
            b"PLAY rtsp://h/b.mpg RTSP/1.0\r\nCSeq: 6\r\nSession: 0123456789abcdef\r\n\r\n",
        ),
        told: Told::Admitted(1, 1),
        sent: b"RTSP/1.0 200 OK\r\nCSeq: 6\r\nSession: 0123456789abcdef\r\n\
            Range: npt=0.000-0.080\r\nRTP-Info: url=rtsp://h/b.mpg/video;seq=1;rtptime=0\r\n\
            x-Start: 1\r\n\r\n",
    },
    Row {
        comes: Comes::Slot(1),
        told: Told::Nothing,
        sent: b"$\x01\0\x30\x80\xc8\0\x06\x01\x02\x03\x04\0\0\0\0\0\0\0\0\0\0\0\0\0\0\0\0\0\0\0\0\
            \x81\xca\0",
    },
    Row {
        comes: Comes::Request(
            b"PAUSE rtsp://h/b.mpg RTSP/1.0\r\nCSeq: 7\r\nSession: 0123456789abcdef\r\n\r\n",
        ),
        told: Told::Halted(2, 52),
        sent: b"",
    },
    Row {
        comes: Comes::Slot(2),
        told: Told::Nothing,
        sent: b"\x04\x01\x02\x03\x04\x01\x08vodserve\0\0\
            RTSP/1.0 200 OK\r\nCSeq: 7\r\nSession: 0123456789abcdef\r\n\r\n",
    },
    Row {
        comes: Comes::Request(
            b"TEARDOWN rtsp://h/b.mpg RTSP/1.0\r\nCSeq: 8\r\nSession: 0123456789abcdef\r\n\r\n",
        ),
        told: Told::Nothing,
        sent: b"RTSP/1.0 200 OK\r\nCSeq: 8\r\nSession: 0123456789abcdef\r\n\r\n",
    },
];

/// Each code of a refusal but the 500, and but the 451 for a small buffer.
const REFUSALS: Dialog = Dialog {
    rows: &REFUSAL_ROWS,
    receipts: &REFUSAL_RECEIPTS,
    plays: 0,
    offers: 0,
};

const REFUSAL_ROWS: [Row; 13] = [
    Row {
        comes: Comes::Request(b"OPTIONS  * RTSP/1.0\r\nCSeq: 1\r\n\r\n"),
        told: Told::Nothing,
        sent: b"RTSP/1.0 400 Bad Request\r\nCSeq: 1\r\n\r\n",
    },
    Row {
        comes: Comes::Request(b"OPTIONS * RTSP/2.0\r\nCSeq: 2\r\n\r\n"),
        told: Told::Nothing,
        sent: b"RTSP/1.0 505 RTSP Version Not Supported\r\nCSeq: 2\r\n\r\n",
    },
    Row {
        comes: Comes::Request(b"RECORD rtsp://h/b.mpg RTSP/1.0\r\nCSeq: 3\r\n\r\n"),
        told: Told::Nothing,
        sent: b"RTSP/1.0 501 Not Implemented\r\nCSeq: 3\r\n\r\n",
    },
    Row {
        comes: Comes::Request(b"OPTIONS * RTSP/1.0\r\nCSeq: 4\r\nRequire: x-key\r\n\r\n"),
        told: Told::Nothing,
        sent: b"RTSP/1.0 551 Option Not Supported\r\nCSeq: 4\r\nUnsupported: x-key\r\n\r\n",
    },
    Row {
        comes: Comes::Request(b"PLAY rtsp://h/b.mpg RTSP/1.0\r\nCSeq: 5\r\n\r\n"),
        told: Told::Nothing,
        sent: b"RTSP/1.0 454 Session Not Found\r\nCSeq: 5\r\n\r\n",
    },
    Row {
        comes: Comes::Request(b"DESCRIBE rtsp://h/none.mpg RTSP/1.0\r\nCSeq: 6\r\n\r\n"),
        told: Told::Nothing,
        sent: b"RTSP/1.0 404 Not Found\r\nCSeq: 6\r\n\r\n",
    },
    Row {
        comes: Comes::Request(
            b"SETUP rtsp://h/b.mpg RTSP/1.0\r\nCSeq: 7\r\n\
                Transport: RTP/AVP;unicast;client_port=5000-5001\r\n\r\n",
        ),
        told: Told::Nothing,
        sent: b"RTSP/1.0 461 Unsupported Transport\r\nCSeq: 7\r\n\r\n",
    },
    Row {
        comes: Comes::Request(
            b"SETUP rtsp://h/b.mpg RTSP/1.0\r\nCSeq: 8\r\nTransport: RTP/AVP/TCP\r\n\
                x-Buffer: 0\r\n\r\n",
        ),
        told: Told::Nothing,
        sent: b"RTSP/1.0 451 Parameter Not Understood\r\nCSeq: 8\r\n\r\n",
    },
    Row {
        comes: Comes::Request(
            b"SETUP rtsp://h/b.mpg RTSP/1.0\r\nCSeq: 9\r\nTransport: RTP/AVP/TCP\r\n\r\n",
        ),
        told: Told::Nothing,
        sent: b"RTSP/1.0 200 OK\r\nCSeq: 9\r\n\
            Transport: RTP/AVP/TCP;unicast;interleaved=0-1;ssrc=01020304\r\n\
            Session: 0123456789abcdef\r\n\r\n",
    },
    Row {
        comes: Comes::Request(
            b"PLAY rtsp://h/b.mpg RTSP/1.0\r\nCSeq: 10\r\nSession: 0123456789abcdef\r\n\
                Range: npt=1-\r\n\r\n",
        ),
        told: Told::Nothing,
        sent: b"RTSP/1.0 457 Invalid Range\r\nCSeq: 10\r\n\r\n",
    },
    Row {
        comes: Comes::Request(
            b"PAUSE rtsp://h/b.mpg RTSP/1.0\r\nCSeq: 11\r\nSession: 0123456789abcdef\r\n\r\n",
        ),
        told: Told::Nothing,
        sent: b"RTSP/1.0 455 Method Not Valid In This State\r\nCSeq: 11\r\n\r\n",
    },
    Row {
        comes: Comes::Request(
            b"PLAY rtsp://h/b.mpg RTSP/1.0\r\nCSeq: 12\r\nSession: 0123456789abcdef\r\n\r\n",
        ),
        told: Told::Overflow(0, 9, 50_000, 35),
        sent: b"RTSP/1.0 453 Not Enough Bandwidth\r\nCSeq: 12\r\nx-Slot: 9\r\n\
            x-Booked: 50000\r\nx-Asked: 35\r\n\r\n",
    },
    Row {
        comes: Comes::Request(
            b"PLAY rtsp://h/b.mpg RTSP/1.0\r\nCSeq: 13\r\nSession: 0123456789abcdef\r\n\r\n",
        ),
        told: Told::Full(8, 2),
        sent: b"RTSP/1.0 503 Service Unavailable\r\nCSeq: 13\r\nx-Entries: 8\r\nx-Open: 2\r\n\r\n",
    },
];

/// A buffer that is a byte too small for the film.
const SMALL_BUFFER: Dialog = Dialog {
    rows: &SMALL_BUFFER_ROWS,
    receipts: &[],
    plays: 0,
    offers: 0,
};

const SMALL_BUFFER_ROWS: [Row; 2] = [
    Row {
        comes: Comes::Request(
            b"SETUP rtsp://h/b.mpg RTSP/1.0\r\nCSeq: 1\r\nTransport: RTP/AVP/TCP\r\n\
                x-Buffer: 105\r\nx-Startup: 2\r\n\r\n",
        ),
        told: Told::Nothing,
        sent: b"RTSP/1.0 200 OK\r\nCSeq: 1\r\n\
            Transport: RTP/AVP/TCP;unicast;interleaved=0-1;ssrc=01020304\r\n\
            Session: 0123456789abcdef\r\n\r\n",
    },
    Row {
        comes: Comes::Request(
            b"PLAY rtsp://h/b.mpg RTSP/1.0\r\nCSeq: 2\r\nSession: 0123456789abcdef\r\n\r\n",
        ),
        told: Told::Nothing,
        sent: b"RTSP/1.0 451 Parameter Not Understood\r\nCSeq: 2\r\nx-Least-Buffer: 106\r\n\r\n",
    },
];

const METHOD_RECEIPTS: [Receipt; 3] = [
    Receipt::Entry {
        place: 0,
        answer: Answer::Looked {
            now: 3,
            at: 0,
            booked: 77,
        },
    },
    Receipt::Entry {
        place: 1,
        answer: Answer::Admitted { start: 1 },
    },
    Receipt::Entry {
        place: 2,
        answer: Answer::Halted,
    },
];

const REFUSAL_RECEIPTS: [Receipt; 2] = [
    Receipt::Entry {
        place: 0,
        answer: Answer::Overflow {
            slot: 9,
            booked: 50_000,
            asked: 35,
        },
    },
    Receipt::Full {
        entries: 8,
        live: 2,
    },
];

static DIALOGS: [Dialog; 3] = [METHODS, REFUSALS, SMALL_BUFFER];

// The proofs of the tests see the dialogs through this call, which says nothing of them: so they
// don't carry the texts.

pub(super) fn dialogs() -> &'static [Dialog] {
    &DIALOGS
}
