//! Requests of players.

use super::{Kind, check};
use std::test::Fail;

/// What ffmpeg 5.1 and GStreamer 1.22 sent to play a film over the RTSP connection itself. The
/// parts of a row are those of `REQUESTS`.
const PLAYERS: &str = "\
    OPTIONS rtsp://127.0.0.1:8561/news.mpg RTSP/1.0\r\nCSeq: 1\r\n\
    User-Agent: Lavf59.27.100\r\n\r\n@@@\
    OPTIONS@rtsp://127.0.0.1:8561/news.mpg@1@User-Agent@Lavf59.27.100|\
    DESCRIBE rtsp://127.0.0.1:8561/news.mpg RTSP/1.0\r\nAccept: application/sdp\r\nCSeq: 2\r\n\
    User-Agent: Lavf59.27.100\r\n\r\n@@@\
    DESCRIBE@rtsp://127.0.0.1:8561/news.mpg@2@Accept@application/sdp|\
    SETUP rtsp://127.0.0.1:8561/news.mpg/video RTSP/1.0\r\n\
    Transport: RTP/AVP/TCP;unicast;interleaved=0-1\r\nCSeq: 3\r\n\
    User-Agent: Lavf59.27.100\r\n\r\n@@@\
    SETUP@rtsp://127.0.0.1:8561/news.mpg/video@3@\
    Transport@RTP/AVP/TCP;unicast;interleaved=0-1|\
    PLAY rtsp://127.0.0.1:8561/news.mpg/ RTSP/1.0\r\nRange: npt=0.000-\r\nCSeq: 4\r\n\
    User-Agent: Lavf59.27.100\r\nSession: 0123456789abcdef\r\n\r\n@@@\
    PLAY@rtsp://127.0.0.1:8561/news.mpg/@4@Range@npt=0.000-|\
    OPTIONS rtsp://127.0.0.1:8562/news.mpg RTSP/1.0\r\nCSeq: 1\r\nUser-Agent: GStreamer/1.22.0\r\n\
    Date: Fri, 27 Nov 2026 05:53:51 GMT\r\n\r\n@@@\
    OPTIONS@rtsp://127.0.0.1:8562/news.mpg@1@Date@Fri, 27 Nov 2026 05:53:51 GMT|\
    DESCRIBE rtsp://127.0.0.1:8562/news.mpg RTSP/1.0\r\nCSeq: 2\r\n\
    User-Agent: GStreamer/1.22.0\r\nAccept: application/sdp\r\n\
    Date: Fri, 27 Nov 2026 05:53:51 GMT\r\n\r\n@@@\
    DESCRIBE@rtsp://127.0.0.1:8562/news.mpg@2@Accept@application/sdp|\
    SETUP rtsp://127.0.0.1:8562/news.mpg/video RTSP/1.0\r\nCSeq: 3\r\n\
    User-Agent: GStreamer/1.22.0\r\nTransport: RTP/AVP/TCP;unicast;interleaved=0-1\r\n\
    Date: Fri, 27 Nov 2026 05:53:51 GMT\r\n\r\n@@@\
    SETUP@rtsp://127.0.0.1:8562/news.mpg/video@3@\
    Transport@RTP/AVP/TCP;unicast;interleaved=0-1|\
    PLAY rtsp://127.0.0.1:8562/news.mpg/ RTSP/1.0\r\nCSeq: 4\r\nUser-Agent: GStreamer/1.22.0\r\n\
    Range: npt=0-10\r\nSession: 0123456789abcdef\r\nDate: Fri, 27 Nov 2026 05:53:51 GMT\r\n\r\n@@@\
    PLAY@rtsp://127.0.0.1:8562/news.mpg/@4@Range@npt=0-10";

#[test]
fn takes_requests_of_players(rt: HostRuntime) -> Result<(), Fail> {
    check(&rt, rt.alloc(), Kind::Request, PLAYERS)
}
