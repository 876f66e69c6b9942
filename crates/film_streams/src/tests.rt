//! The numbers of a stream, and what a SETUP names, by worked values.

use super::*;
use rtsp_methods::Refusal;
use rtsp_text::Request;
use std::test::Fail;

/// Slots of 40 ms, a buffer of 1,000 bytes and a start delay of a second.
const SETTINGS: Settings = Settings {
    slot_units: 14_400,
    buffer: 1_000,
    startup: 25,
};

#[test]
fn begins_a_stream_at_the_words(rt: HostRuntime) {
    let source = source_of(&[1, 2, 0x0102_0304, 0x0007_0011, 9]);
    assert_eq!(rt; source.ssrc, 0x0102_0304);
    assert_eq!(rt; source.sequence, 0x0011);
    assert_eq!(rt; source.timestamp, 9);
}

#[test]
fn counts_sequence_numbers_on_and_wraps(rt: HostRuntime) {
    let source = StreamSource {
        ssrc: 7,
        sequence: 65_535,
        timestamp: 0,
    };
    let setup = Setup {
        film: 0,
        media: 2,
        control: 3,
        buffer: 1_000,
        delay: 25,
    };
    for (frames, want) in [(0, 65_535), (1, 0), (2, 1), (65_537, 0)] {
        let identity = identity_of(source, &setup, Counts { frames, octets: 40 });
        assert_eq!(rt; identity.sequence, want, "after {frames}");
        assert_eq!(rt; (identity.packets, identity.octets), (frames, 40));
        assert_eq!(rt; (identity.channel, identity.control), (2, 3));
    }
}

/// A SETUP of the film's stream that has this head.
fn setup_of(head: &str) -> Request<'_> {
    Request {
        method: b"SETUP",
        url: b"rtsp://h/b.mpg/video",
        sequence: 1,
        head: head.as_bytes(),
        body: b"",
    }
}

#[test]
fn reads_what_a_setup_names(rt: HostRuntime) {
    for (head, channels, buffer, delay) in [
        (
            "SETUP rtsp://h/b.mpg/video RTSP/1.0\r\nCSeq: 1\r\n\
                Transport: RTP/AVP/TCP;interleaved=2-3\r\nx-Buffer: 500\r\nx-Startup: 3\r\n\r\n",
            Some((2, 3)),
            Some(500),
            Some(3),
        ),
        (
            "SETUP rtsp://h/b.mpg/video RTSP/1.0\r\nCSeq: 1\r\n\
                Transport: RTP/AVP;unicast;client_port=5000\r\n\r\n",
            None,
            Some(1_000),
            Some(25),
        ),
        (
            "SETUP rtsp://h/b.mpg/video RTSP/1.0\r\nCSeq: 1\r\n\
                x-Buffer: 0\r\nx-Startup: 10001\r\n\r\n",
            None,
            None,
            None,
        ),
    ] {
        let request = setup_of(head);
        let found = channels_of(&request).map(|it| (it.media, it.control));
        assert_eq!(rt; found, channels, "at {head}");
        assert_eq!(rt; buffer_of(&request, &SETTINGS), buffer, "at {head}");
        assert_eq!(rt; delay_of(&request, &SETTINGS), delay, "at {head}");
    }
}

#[test]
fn reads_a_setup(rt: HostRuntime) {
    for (head, want) in [
        (
            "SETUP rtsp://h/b.mpg/video RTSP/1.0\r\nCSeq: 1\r\n\
                Transport: RTP/AVP/TCP;interleaved=2-3\r\nx-Buffer: 500\r\n\r\n",
            Ok((1, (2, 3), 500, 25)),
        ),
        (
            "SETUP rtsp://h/b.mpg/video RTSP/1.0\r\nCSeq: 1\r\nx-Buffer: 0\r\n\r\n",
            Err(Refusal::Transport),
        ),
        (
            "SETUP rtsp://h/b.mpg/video RTSP/1.0\r\nCSeq: 1\r\n\
                Transport: RTP/AVP/TCP\r\nx-Startup: 10001\r\n\r\n",
            Err(Refusal::Parameter),
        ),
    ] {
        let request = setup_of(head);
        let read = match read_setup(&request, 1, &SETTINGS) {
            Ok(setup) => {
                let on = setup.channels();
                Ok((
                    setup.film,
                    (on.media, on.control),
                    setup.buffer,
                    setup.delay,
                ))
            }
            Err(refusal) => Err(refusal),
        };
        assert_eq!(rt; read, want, "at {head}");
    }
}

#[test]
fn prints_each_type(rt: HostRuntime) -> Result<(), Fail> {
    let asked = Asked {
        film: 1,
        authority: b"h",
    };
    let setup = Setup {
        film: 1,
        media: 2,
        control: 3,
        buffer: 1_000,
        delay: 25,
    };
    let source = StreamSource {
        ssrc: 7,
        sequence: 65_535,
        timestamp: 9,
    };
    let text = format!(in rt.alloc(); "{asked:?} {setup:?} {source:?} {NOTHING_SENT:?}")?;
    let want = "Asked { film: 1, authority: [104] } \
        Setup { film: 1, media: 2, control: 3, buffer: 1000, delay: 25 } \
        StreamSource { ssrc: 7, sequence: 65535, timestamp: 9 } \
        Counts { frames: 0, octets: 0 }";
    assert_eq!(rt; text.as_str(), want);
    Ok(())
}
