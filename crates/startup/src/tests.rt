//! Over a source in memory, and the system's.

ghost use Rattle.std.specs.Prelude.{true};

use super::*;
use std::alloc::Global;
use std::env::FillError;
use std::rt::Env;
use std::test::Fail;

/// A source in memory, which counts: its bytes are 0, 1, 2 and so on.
#[derive(Drop)]
struct CountingBytes {
    drawn: Vec<u8>,
}

impl ByteSource for CountingBytes {
    ghost tells = { true };

    ghost drawn = { λ s. s.drawn.items };

    fn fill(&mut self, into: &mut [u8]) -> Result<(), NoRandomBytes> {
        for (byte, next) in into.iter_mut().zip(0..=u8::MAX) {
            *byte = next;
        }
        match self.drawn.extend_from_slice(into) {
            Ok(()) => Ok(()),
            Err(_) => Err(NoRandomBytes),
        }
    }
}

/// A seed of that source.
fn counted_seed(alloc: Global) -> Result<[u8; 32], NoRandomBytes> {
    let mut source = CountingBytes {
        drawn: Vec::new(alloc),
    };
    draw_seed(&mut source)
}

#[test]
fn draws_all_bytes(rt: HostRuntime) -> Result<(), Fail> {
    let seed = counted_seed(rt.alloc())?;
    for (byte, want) in seed.into_iter().zip(0..=u8::MAX) {
        assert_eq!(rt; byte, want);
    }
    let mut system = SystemBytes::new(&rt);
    let first = draw_seed(&mut system)?;
    let second = draw_seed(&mut system)?;
    assert!(rt; first != second);
    let printed = format!(in rt.alloc(); "{system:?}")?;
    assert!(rt; printed.as_str() == "SystemBytes { .. }");
    Ok(())
}

/// A runtime whose arguments are these.
#[derive(Drop)]
struct ArgsOf<'a>(&'a [&'a str]);

impl Env for ArgsOf<'_> {
    fn arg(&self, i: usize, buf: &mut [u8]) -> Result<usize, FillError> {
        let Some(arg) = self.0.get(i) else {
            return Err(FillError::NotPresent);
        };
        match buf.get_mut(..arg.len()) {
            Some(place) => {
                place.copy_from_slice(arg.as_bytes());
                Ok(arg.len())
            }
            None => Err(FillError::TooLong),
        }
    }

    fn var(&self, _name: &str, _buf: &mut [u8]) -> Result<usize, FillError> {
        Err(FillError::NotPresent)
    }

    fn var_at(&self, _i: usize, _buf: &mut [u8]) -> Result<usize, FillError> {
        Err(FillError::NotPresent)
    }
}

#[test]
fn reads_the_arguments(rt: HostRuntime) -> Result<(), Fail> {
    let named = ArgsOf(&["vodserve", "scan", "film=a"]);
    let words = program_args(&(named, rt.alloc()))?;
    assert_eq!(rt; words.len(), 2);
    assert_eq!(rt; words[0].as_str(), "scan");
    assert_eq!(rt; words[1].as_str(), "film=a");
    Ok(())
}
