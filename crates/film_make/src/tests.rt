//! Expected values come from a Python program of its own, which computes ChaCha with eight rounds
//! from D. J. Bernstein's description, draws its words modulo n, and writes traces, films and
//! system streams with them; it gives long texts as their length and their Adler-32.

use crate::{Draws, draw_sizes, draw_trace, make_film, make_system, make_trace};
use std::test::Fail;

fn adler32(bytes: &[u8]) -> u32 {
    let mut low: u32 = 1;
    let mut high: u32 = 0;
    for byte in bytes {
        low = low.wrapping_add(u32::from(*byte)) % 65521;
        high = high.wrapping_add(low) % 65521;
    }
    high.wrapping_mul(65536).wrapping_add(low)
}

#[test]
fn draws_the_words_of_chacha8(rt: HostRuntime) {
    for (number, words) in [
        (0, [0x2fef003e, 0xd6405f89, 0xe8b85b7f, 0xa1a5091f]),
        (1, [0xa0e95ecf, 0x61a94a49, 0xedd5053e, 0x4b805b72]),
    ] {
        let mut draws = Draws::new(number);
        for word in words {
            assert_eq!(rt; draws.draw(u32::MAX), word, "of number {number}");
        }
    }
}

#[test]
fn draws_modulo_a_number(rt: HostRuntime) -> Result<(), Fail> {
    let mut draws = Draws::new(1);
    assert_eq!(rt; draws.draw(1800), 1519);
    assert_eq!(rt; draws.draw(1), 0);
    assert_eq!(rt; draws.draw(10), 2);
    let printed = format!(in rt.alloc(); "{draws:?}")?;
    assert_eq!(rt; printed.as_str(), "Draws { .. }");
    Ok(())
}

#[test]
fn traces_repeat(rt: HostRuntime) -> Result<(), Fail> {
    let text = "6876\n553\n1902\n218\n202\n1686\n1258\n1516\n1680\n980\n1510\n596\n\
                3952\n1647\n362\n1288\n1788\n1467\n1608\n1605\n870\n1360\n227\n789\n";
    for _ in 0..2 {
        let trace = make_trace(rt.alloc(), 1, 24)?;
        assert_eq!(rt; trace.as_slice(), text.as_bytes());
    }
    Ok(())
}

#[test]
fn traces_go_on_from_the_middle(rt: HostRuntime) -> Result<(), Fail> {
    let mut draws = Draws::new(1);
    let first = draw_trace(rt.alloc(), &mut draws, 2)?;
    assert_eq!(rt; first.as_slice(), b"6876\n553\n".as_slice());
    let sizes = draw_sizes(rt.alloc(), &mut draws, 2)?;
    assert_eq!(rt; sizes.as_slice(), [7608, 218].as_slice());
    Ok(())
}

/// How many bytes there are, and their checksum.
fn length_and_sum(bytes: &[u8]) -> (usize, u32) {
    (bytes.len(), adler32(bytes))
}

#[test]
fn films_and_systems_are_as_computed_elsewhere(rt: HostRuntime) -> Result<(), Fail> {
    let film = length_and_sum(&make_film(rt.alloc(), 1, 13)?);
    assert_eq!(rt; film, (16248, 4084632097));
    let stream = length_and_sum(&make_system(rt.alloc(), 1, 13)?);
    assert_eq!(rt; stream, (16423, 2475796333));
    Ok(())
}
