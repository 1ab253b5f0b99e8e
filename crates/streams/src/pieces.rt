// Goes through a stream in pieces.

ghost use Rattle.std.specs.Prelude.{◌≡◌, ◌⊎◌, ◌+◌, ◌≤◌, ◌++◌, List, ℕ, [], length, None, Ok, Err, OnOk, IfOk, IfErr, IfSome};
ghost use Rattle.streams.specs.Devices.{HasEnded, gained, writes_failed_in, BeginsToWrite};
ghost use Rattle.streams.specs.Pieces.{Taking, GoesOn, Ends, Stops};
ghost use Rattle.streams.specs.Streams.{Reads, WritesText};

use crate::fault::StreamFault;
use crate::sink::Sink;
use crate::source::Source;

/// The maximum number of octets that are read from a stream.
pub const MOST_OCTETS: u64 = 9_223_372_036_854_775_807;

/// Takes a stream in pieces and writes what it makes of them. So a stream is listed, searched or
/// played. `K` is what is kept for the caller, like a listing or a player.
pub trait Taker<K, W: Sink> {
    /// The answer for the whole stream.
    type Answer: Copy;

    ghost taking: { Taking Self K Self.Answer };

    /// Takes a piece, after `before` octets. If it returns an answer, it takes no more.
    /// Faults: Write, Memory. Memory: yes. Cost: the taker's.
    fn take(
        &mut self,
        kept: &mut K,
        writer: &mut W,
        before: u64,
        piece: &[u8],
    ) -> Result<Option<Self::Answer>, StreamFault>
        requires open { taking.is_open self.old kept.old before }
        requires room { before + length piece.now ≤ MOST_OCTETS }
        ensures goes_on { result ≡ Ok None → GoesOn taking before piece.now self.old kept.old (W.taken_octets writer.old)
            self.new kept.new (W.taken_octets writer.new) }
        ensures stops { IfOk result (λ course. IfSome course (λ answer. Stops taking before piece.now self.old kept.old
            (W.taken_octets writer.old) answer kept.new (W.taken_octets writer.new))) }
        ensures beginning { BeginsToWrite result (W.taken_octets writer.old) (W.taken_octets writer.new)
            (taking.text self.old kept.old piece.now) }
        ensures failures { W.failures writer.new ≡ W.failures writer.old + writes_failed_in result }
        ensures faults { IfErr result (λ e. (e ≡ StreamFault.Write) ⊎ (e ≡ StreamFault.Memory)) };

    /// Ends the input, after this many octets, and returns the answer.
    /// Faults: Write, Memory. Memory: yes. Cost: the taker's.
    fn end(
        &mut self,
        kept: &mut K,
        writer: &mut W,
        octets: u64,
    ) -> Result<Self::Answer, StreamFault>
        requires open { taking.is_open self.old kept.old octets }
        requires room { octets ≤ MOST_OCTETS }
        ensures ends { IfOk result (λ answer. Ends taking octets [] self.old kept.old (W.taken_octets writer.old)
            answer kept.new (W.taken_octets writer.new)) }
        ensures beginning { BeginsToWrite result (W.taken_octets writer.old) (W.taken_octets writer.new)
            (taking.text self.old kept.old []) }
        ensures failures { W.failures writer.new ≡ W.failures writer.old + writes_failed_in result }
        ensures faults { IfErr result (λ e. (e ≡ StreamFault.Write) ⊎ (e ≡ StreamFault.Memory)) };

    ghost of_nothing: { (s : Self) (k : K) (text : List ℕ) → taking.so_far s k [] text text };
}

/// Reads a stream in pieces; the taker takes each piece before the next is read. Returns the
/// taker's answer.
///
/// The fault is `Read` if the reader failed, `TooLong` beyond `MOST_OCTETS` octets, or the taker's
/// fault. What is written by then is a beginning of the text.
/// Faults: Read, Write, Memory, TooLong. Memory: the taker's. Cost: the number of octets, and the taker's.
pub fn go_through<K, T: Taker<K, W>, R: Source, W: Sink>(
    reader: &mut R,
    writer: &mut W,
    taker: &mut T,
    kept: &mut K,
) -> Result<T::Answer, StreamFault>
    requires { T.taking.is_open taker.old kept.old 0 }
    ensures reads { Reads R.given R.remaining R.failures result reader.old reader.new }
    ensures writes { WritesText W.taken_octets W.failures result writer.old writer.new
        (T.taking.text taker.old kept.old (gained (R.given reader.old) (R.given reader.new))) }
    ensures in_time { result ≡ Err StreamFault.Read → T.taking.so_far taker.old kept.old
        (gained (R.given reader.old) (R.given reader.new)) (W.taken_octets writer.old) (W.taken_octets writer.new) }
    ensures answer { IfOk result (λ answer. T.taking.ends taker.old kept.old 0
        (gained (R.given reader.old) (R.given reader.new)) answer kept.new) }
    ensures end { OnOk result (HasEnded (R.has_ended reader.new) (R.remaining reader.new)
        ⊎ T.taking.stops taker.old kept.old (gained (R.given reader.old) (R.given reader.new))) }
{
    let mut piece = [0; 4096];
    let mut total: u64 = 0;
    'pieces: loop {
        let Ok(count) = reader.read(&mut piece) else {
            return Err(StreamFault::Read);
        };
        if count == 0 {
            return taker.end(kept, writer, total);
        }
        if count as u64 > MOST_OCTETS - total {
            return Err(StreamFault::TooLong);
        }
        match taker.take(kept, writer, total, &piece[..count]) {
            Ok(None) => total += count as u64,
            Ok(Some(answer)) => return Ok(answer),
            Err(fault) => return Err(fault),
        }
    }
}
