//! The texts of `--help` and `--version`.

ghost use Rattle.std.specs.Prelude.{◌≡◌, IfOk};
ghost use Rattle.offline_commands.specs.HelpText.{help_text, version_text};

use std::alloc::{AllocError, Global};

/// What `--version` prints.
const VERSION: &[u8] = b"vodserve 0.1.0\n";

/// What `--help` prints. `law_help_shows_each_command_and_key` ties it to the commands and keys of
/// `cli_args`, so the prover refuses a key without a row here.
const HELP: &[u8] = b"\
vodserve - a video-on-demand server that sends each film by its smoothest plan

usage: vodserve COMMAND KEY=VALUE ..

  plan trace=NAME [buffer=BYTES] [startup=SLOTS]
  plan film=NAME [buffer=BYTES] [startup=SLOTS] [slot=UNITS]
      the plan that sends the pictures of a trace or film most evenly, as a
      certificate
  check trace=NAME cert=NAME [buffer=BYTES] [startup=SLOTS]
  check film=NAME cert=NAME [buffer=BYTES] [startup=SLOTS] [slot=UNITS]
      \"least\" where a certificate is that of this plan, else the first fault
  scan film=NAME
      the pictures of an MPEG-1 film
  make kind=film|trace|system seed=NUMBER pictures=NUMBER
      the film, trace or system stream generated from a number
  day script=NAME [capacity=BYTES|SLOT:BYTES,..] [journal=NUMBER] [slot=UNITS]
      a link's day by a script of plays, pauses, looks, offers and slots: its
      journal, what was sent and what is booked
  fair seed=NUMBER plays=NUMBER [capacity=BYTES|SLOT:BYTES,..]
      a large day drawn from a number, in one line
  serve film=NAME .. [capacity=BYTES|SLOT:BYTES,..] [port=NUMBER]
        [bind=local|all] [buffer=BYTES] [startup=SLOTS] [slot=UNITS]
        [journal=NUMBER] [workers=NUMBER] [connections=NUMBER]
      serves films over RTSP; at its end its journal and what is still booked
  watch film=NAME [port=NUMBER] [buffer=BYTES] [startup=SLOTS] [slot=UNITS]
      plays a film of a server on this machine: its bytes go to the output, and
      at the end one line on standard error says what its buffer held
  --help
      this text
  --version
      the name and the version

Each key comes at most once, except film in serve; order is free. A NAME is
a file of this folder, of 1 to 64 letters, digits, '.', '_', '-', not first a
'.'. A film is an MPEG-1 video stream, or a system stream with one. In serve,
buffer and startup are for clients that name none.

  key          values                                          default
  buffer       a client's bytes, 1 to 4398046511104            1048576
  startup      slots before the first picture, 0 to 10000      25
  seed         0 to 18446744073709551615                       -
  pictures     1 to 100000                                     -
  plays        1 to 100000                                     -
  film         in serve 1 to 64 of at most 1073741824 bytes    -
  capacity     bytes a slot, 1 to 4398046511104; or up to 64   50000
               steps of 0 or more, the first from slot 0, rising slots
  port         1 to 65535                                      8554
  bind         local: 127.0.0.1; all: every address            local
  slot         length in 1/360000 second, 360 to 360000        14400
  journal      most entries, 2 to 1048576                      65536
  workers      connections at a time, 1 to 256                 32
  connections  of each worker; 0 is no end                     0

status 0 done, 1 check refused the certificate, 2 wrong arguments, 3 an input
is refused, 4 a file can't be read, 5 the output can't be written, 6 out of
memory, 7 the port failed, 8 the connection to a server failed. With 2 to 8
one line on standard error says what. 'vodserve: usage' is status 2: a command
or key is unknown, missing or given twice, or a value is out of its range.
";

/// Returns the text of `--version`.
///
/// # Errors
///
/// [`AllocError`] alone.
#[tactic(auto, unfolding(crate::specs::HelpText::version_text))]
pub fn version(alloc: Global) -> Result<Vec<u8>, AllocError>
    ensures { IfOk result (λ text. text.items ≡ version_text) }
{
    Vec::from_slice(alloc, VERSION)
}

/// Returns the text of `--help`.
///
/// # Errors
///
/// [`AllocError`] alone.
pub fn help(alloc: Global) -> Result<Vec<u8>, AllocError>
    ensures { IfOk result (λ text. text.items ≡ help_text) }
{
    Vec::from_slice(alloc, HELP)
}
