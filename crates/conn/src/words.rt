//! The random words of a connection, drawn from a server's seed.

ghost use Rattle.std.specs.Prelude.{◌≡◌};
ghost use Rattle.conn.specs.Words.{words_of};

use rand_chacha::ChaCha20Rng;
use rand_core::SeedableRng;
use rand_core::utils::NextWord;

/// Draws the words of a worker's connection, both counted from 0: the first five of the ChaCha20
/// generator of the seed, in the stream `worker * 2^32 + connection` modulo 2^64.
pub fn connection_words(seed: [u8; 32], worker: u32, connection: u64) -> [u32; 5]
    ensures { result ≡ words_of seed worker connection }
{
    let mut rng = ChaCha20Rng::from_seed(seed);
    // A stream of its own for each connection. It wraps only beyond 2^32 connections of a worker,
    // so below that no two have the same numbers.
    rng.set_stream((u64::from(worker) * (1 << 32)).wrapping_add(connection));
    let id = rng.next_word();
    let rest_of_id = rng.next_word();
    let source = rng.next_word();
    let sequence = rng.next_word();
    let timestamp = rng.next_word();
    [id, rest_of_id, source, sequence, timestamp]
}
