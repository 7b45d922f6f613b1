//! The bytes given out depend only on the offsets that were put.

ghost use Rattle.std.specs.Prelude.{ℕ, ◌≡◌, ◌<◌, ◌+◌, ◌^◌, nat_lt, if◌then◌else◌, Some, None, List, length};
ghost use Rattle.tcp_seq.specs.Numbers.{number};
ghost use Rattle.tcp_seq.specs.Rules.{IsInStream};
ghost use Rattle.tcp_seq.specs.Endpoint.{byte_from};
ghost use Rattle.tcp_reasm.specs.Reassembly.{Reassembly, Put, PutsInOrder, AreOfStream, is_brought, nothing_from, byte_ahead, TakesReady, brought};

/// After puts of slices of one stream, in any order and with any overlap and repetition, each offset
/// that they cover has the stream's byte and no other offset has one. So two lists of puts that cover
/// the same offsets give the same bytes out.
pub fn same_offsets_same_bytes()
    ensures ahead { (stream : ℕ → ℕ) (next : ℕ) (puts : List Put) (after : Reassembly)
        → PutsInOrder (nothing_from next) puts after → AreOfStream stream next puts
        → (k : ℕ) → byte_ahead after k ≡ (if is_brought next puts k then Some (stream k) else None) }
    ensures given { (stream : ℕ → ℕ) (next : ℕ) (puts others : List Put) (a b a' b' : Reassembly) (out x y : List ℕ) (m n : ℕ)
        → PutsInOrder (nothing_from next) puts a → PutsInOrder (nothing_from next) others b → AreOfStream stream next puts → AreOfStream stream next others
        → ((k : ℕ) → is_brought next puts k ≡ is_brought next others k) → TakesReady a a' out x m → TakesReady b b' out y n → x ≡ y }
{}

/// For streams of at most 1 MiB the bytes that are put from an offset's number on stand at the offsets
/// from that offset on, however old they are.
pub fn bytes_stand_at_their_offsets()
    ensures { (first next offset : ℕ) (bytes : List ℕ) (k : ℕ) → IsInStream next → IsInStream offset → length bytes < 2 ^ 16
        → brought (number first next) (number first offset) bytes k ≡ (if nat_lt k 16384 then byte_from offset bytes (next + k) else None) }
{}
