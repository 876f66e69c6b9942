//! Laws of the waits between accepts, of the address, and of the system's error numbers.

ghost use Rattle.std.specs.Prelude.{◌≡◌, ◌*◌, ◌^◌, ◌<◌, ◌++◌, [], ◌∷◌, ℕ, List, Some};
ghost use Rattle.std.specs.Prelude.{None, length, min, slice_index, pos, true, false};
ghost use Rattle.vod_base.specs.declared.gates.Opening.{Opening};
ghost use Rattle.listener_gate.specs.Accepts.{first_wait, IsAcceptedAfter};
ghost use Rattle.listener_gate.specs.Codes.{error_of_code};
ghost use Rattle.listener_gate.specs.Openings.{address_of};
ghost use Rattle.listener_gate.specs.Waits.{waits_of};
ghost use Rattle.listener_gate.specs.declared.listeners.AcceptError.TheVariants as error;
ghost use Rattle.listener_gate.specs.declared.listeners.ListenerDoing.{ListenerDoing};

/// States how long a gate waits for a connection while descriptors or memory are short: 10 ms
/// first, and twice as long each time, at most 1 s. So wait i, from 0 on, lasts 10 ms times 2^i, or
/// 1 s. This is true from each accept that succeeded to the next one.
pub fn law_waits_double_up_to_one_second()
    ensures { (before more : List ListenerDoing) (i : ℕ) →
        IsAcceptedAfter first_wait before (before ++ more) → i < length (waits_of more) →
        slice_index (waits_of more) i ≡ min (10 * 2 ^ i) 1000 }
{}

/// States where a gate listens: at 0.0.0.0, which is each address of the machine, where connections
/// from other machines are taken too, and else at 127.0.0.1, which only the machine itself reaches.
pub fn law_gate_listens_on_loopback_unless_open_to_all()
    ensures all { (how : Opening) → how.all ≡ true →
        address_of how ≡ 0 ∷ (0 ∷ (0 ∷ (0 ∷ []))) }
    ensures loopback { (how : Opening) → how.all ≡ false →
        address_of how ≡ 127 ∷ (0 ∷ (0 ∷ (1 ∷ []))) }
{}

/// States what the error numbers of accept(2) mean, as errno(3) numbers them for Linux. Without
/// memory (ENOMEM 12, ENOBUFS 105) or descriptors (ENFILE 23, EMFILE 24) a gate waits. After a
/// signal (EINTR 4) and after an error of the new connection (ENETDOWN 100, EPROTO 71,
/// ENOPROTOOPT 92, EHOSTDOWN 112, ENONET 64, EHOSTUNREACH 113, EOPNOTSUPP 95, ENETUNREACH 101,
/// ECONNABORTED 103, EPERM 1) it tries again. After an error of the listening socket (EBADF 9,
/// EFAULT 14, EINVAL 22, ENOTSOCK 88) and without a number it gives up.
pub fn law_accept_errors_have_their_meaning()
    ensures shortage { (error_of_code (Some (pos 12)) ≡ error.Shortage)
        × (error_of_code (Some (pos 105)) ≡ error.Shortage)
        × (error_of_code (Some (pos 23)) ≡ error.Shortage)
        × (error_of_code (Some (pos 24)) ≡ error.Shortage) }
    ensures signal { error_of_code (Some (pos 4)) ≡ error.Transient }
    ensures network { (error_of_code (Some (pos 100)) ≡ error.Transient)
        × (error_of_code (Some (pos 71)) ≡ error.Transient)
        × (error_of_code (Some (pos 92)) ≡ error.Transient)
        × (error_of_code (Some (pos 112)) ≡ error.Transient)
        × (error_of_code (Some (pos 64)) ≡ error.Transient)
        × (error_of_code (Some (pos 113)) ≡ error.Transient)
        × (error_of_code (Some (pos 95)) ≡ error.Transient)
        × (error_of_code (Some (pos 101)) ≡ error.Transient)
        × (error_of_code (Some (pos 103)) ≡ error.Transient)
        × (error_of_code (Some (pos 1)) ≡ error.Transient) }
    ensures broken { (error_of_code (Some (pos 9)) ≡ error.Broken)
        × (error_of_code (Some (pos 14)) ≡ error.Broken)
        × (error_of_code (Some (pos 22)) ≡ error.Broken)
        × (error_of_code (Some (pos 88)) ≡ error.Broken) }
    ensures unnumbered { error_of_code None ≡ error.Broken }
{}
