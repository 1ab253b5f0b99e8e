// Reads a text in pieces, and plays its lines.

ghost use Rattle.std.specs.Prelude.{◌≡◌, ◌⊎◌, ◌+◌, ◌++◌, ◌∷◌, [], Err, OnOk, IfOk, IfErr};
ghost use Rattle.std.proofs.Common.{sym};
ghost use Rattle.std.proofs.lemmas.List.{append-nil};
ghost use Rattle.octets.specs.Beginning.{IsBeginning};
ghost use Rattle.streams.specs.Devices.{HasEnded, gained, writes_failed_in, BeginsToWrite, Writes};
ghost use Rattle.streams.specs.Streams.{Reads, WritesText};
ghost use Rattle.streams.specs.Lines.{parts_of};
ghost use Rattle.streams.specs.Player.{after_lines, after_text, answers, answers_of, answers_so_far, is_all_good};
ghost use Rattle.streams.specs.Player.{fed, played, playing_of, standing, HasPlayed};

use crate::fault::StreamFault;
use crate::output::{WriteFailed, write_all};
use crate::parts::cut;
use crate::pieces::{Taker, go_through};
use crate::player::{Gathered, Player};
use crate::sink::Sink;
use crate::source::Source;
use std::alloc::{AllocError, Global};

/// The part of a line that no line feed has ended, and whether all lines were good.
#[derive(Drop)]
pub struct Progress {
    left: Vec<u8>,
    all_good: bool,
}

// Plays what is left as a line; then nothing is left.
fn play_line<T: Gathered, P: Player<T>>(
    alloc: Global,
    player: &mut P,
    progress: &mut Progress,
    text: &mut T,
) -> Result<(), AllocError>
    ensures { OnOk result (standing (T.octets text.new) player.new progress.new
        ≡ played P.playing (standing (T.octets text.old) player.old progress.old)
        (progress.old.left.items ∷ [] ∷ [])) }
{
    let good = player.play(alloc, progress.left.as_slice(), text)?;
    progress.all_good = progress.all_good && good;
    progress.left.clear();
    Ok(())
}

// Plays all lines that a piece ends, and keeps what is left of it.
fn play_parts<T: Gathered, P: Player<T>>(
    alloc: Global,
    player: &mut P,
    progress: &mut Progress,
    text: &mut T,
    piece: &[u8],
) -> Result<(), AllocError>
    ensures { OnOk result (standing (T.octets text.new) player.new progress.new
        ≡ fed P.playing (standing (T.octets text.old) player.old progress.old) piece.now) }
{
    let mut rest = piece;
    'lines: loop {
        let (part, after) = cut(rest, b'\n');
        progress.left.extend_from_slice(part)?;
        let Some(after) = after else {
            return Ok(());
        };
        play_line(alloc, player, progress, text)?;
        rest = after;
    }
}

// A text that is played, and the buffer in which its answers are gathered.
#[derive(Drop)]
struct Lines<T> {
    alloc: Global,
    progress: Progress,
    text: T,
}

impl<T: Gathered> Lines<T> {
    // Plays a piece, and writes the answers to all lines that it ends.
    fn play<P: Player<T>, W: Sink>(
        &mut self,
        player: &mut P,
        writer: &mut W,
        piece: &[u8],
    ) -> Result<(), StreamFault>
        ensures played { OnOk result (HasPlayed
            (fed P.playing (standing [] player.old self.old.progress) piece.now)
            (standing [] player.new self.new.progress)
            (W.taken_octets writer.old) (W.taken_octets writer.new)) }
        ensures beginning { BeginsToWrite result (W.taken_octets writer.old) (W.taken_octets writer.new)
            (fed P.playing (standing [] player.old self.old.progress) piece.now).text }
        ensures failures { W.failures writer.new ≡ W.failures writer.old + writes_failed_in result }
        ensures faults { IfErr result (λ e. (e ≡ StreamFault.Write) ⊎ (e ≡ StreamFault.Memory)) }
    {
        self.text.clear();
        let Ok(()) = play_parts(
            self.alloc,
            player,
            &mut self.progress,
            &mut self.text,
            piece,
        ) else {
            return Err(StreamFault::Memory);
        };
        write_answers(writer, self.text.as_octets())
    }
}

impl<T: Gathered, P: Player<T>, W: Sink> Taker<P, W> for Lines<T> {
    // Whether all lines were good.
    type Answer = bool;

    ghost taking = { playing_of P.playing (λ l p. standing [] p l.progress) };

    fn take(
        &mut self,
        player: &mut P,
        writer: &mut W,
        _: u64,
        piece: &[u8],
    ) -> Result<Option<bool>, StreamFault> {
        match self.play(player, writer, piece) {
            Ok(()) => Ok(None),
            Err(fault) => Err(fault),
        }
    }

    // Plays what is left, if anything is, as if a line feed ended it.
    fn end(&mut self, player: &mut P, writer: &mut W, _: u64) -> Result<bool, StreamFault> {
        if self.progress.left.is_empty() {
            return Ok(self.progress.all_good);
        }
        match self.play(player, writer, b"\n") {
            Ok(()) => Ok(self.progress.all_good),
            Err(fault) => Err(fault),
        }
    }

    ghost of_nothing = { λ l p text. sym (append-nil text) };
}

// Writes all of the answers.
fn write_answers<W: Sink>(writer: &mut W, answers: &[u8]) -> Result<(), StreamFault>
    ensures ok { Writes result (W.taken_octets writer.old) (W.taken_octets writer.new) answers.now }
    ensures beginning { IsBeginning (W.taken_octets writer.new) (W.taken_octets writer.old ++ answers.now) }
    ensures failures { W.failures writer.new ≡ W.failures writer.old + writes_failed_in result }
    ensures faults { IfErr result (λ e. e ≡ StreamFault.Write) }
{
    match write_all(writer, answers) {
        Ok(()) => Ok(()),
        Err(WriteFailed) => Err(StreamFault::Write),
    }
}

/// Plays the lines of a text in memory, including what follows its last line feed, and writes the
/// answers. They are gathered in `text`, and written whenever they have at least 4,096 octets, and
/// at the end.
/// Faults: Write, Memory; what is written by then is a beginning of the answers. Memory: yes. Cost: n, and
/// the player's.
pub fn play_lines<T: Gathered + Drop, P: Player<T>, W: Sink>(
    alloc: Global,
    writer: &mut W,
    player: &mut P,
    text: T,
    lines: &[u8],
) -> Result<(), StreamFault>
    ensures ok { Writes result (W.taken_octets writer.old) (W.taken_octets writer.new)
        (answers P.playing player.old (parts_of lines.now)) }
    ensures beginning { BeginsToWrite result (W.taken_octets writer.old) (W.taken_octets writer.new)
        (answers P.playing player.old (parts_of lines.now)) }
    ensures player { OnOk result (player.new ≡ after_lines P.playing player.old (parts_of lines.now)) }
    ensures failures { W.failures writer.new ≡ W.failures writer.old + writes_failed_in result }
    ensures faults { IfErr result (λ e. (e ≡ StreamFault.Write) ⊎ (e ≡ StreamFault.Memory)) }
{
    let mut text = text;
    text.clear();
    let mut rest = lines;
    'lines: loop {
        let (line, after) = cut(rest, b'\n');
        let Ok(_) = player.play(alloc, line, &mut text) else {
            return Err(StreamFault::Memory);
        };
        let Some(after) = after else {
            return write_answers(writer, text.as_octets());
        };
        rest = after;
        if text.as_octets().len() >= 4096 {
            if let Err(fault) = write_answers(writer, text.as_octets()) {
                return Err(fault);
            }
            text.clear();
        }
    }
}

/// Reads a text in pieces. Plays each line that a piece ends, and writes the answers before it
/// reads the next piece; they are gathered in `text`. At the end it plays what is left, if that is
/// not empty. Returns whether every line was good. The player can be used again.
///
/// The fault is `Read` or `Write` if that device failed, `Memory` if memory ran out, and `TooLong`
/// beyond `MOST_OCTETS` octets. What is written by then is a beginning of the answers.
/// Faults: Read, Write, Memory, TooLong. Memory: yes. Cost: the number of octets, and the player's.
pub fn play_stream<T: Gathered + Drop, P: Player<T>, R: Source, W: Sink>(
    alloc: Global,
    reader: &mut R,
    writer: &mut W,
    player: &mut P,
    text: T,
) -> Result<bool, StreamFault>
    ensures reads { Reads R.given R.remaining R.failures result reader.old reader.new }
    ensures writes { WritesText W.taken_octets W.failures result writer.old writer.new
        (answers_of P.playing player.old (gained (R.given reader.old) (R.given reader.new))) }

    // All lines that have ended are answered before each read, so also before a read that fails.
    ensures in_time { result ≡ Err StreamFault.Read
        → W.taken_octets writer.new ≡ W.taken_octets writer.old
        ++ answers_so_far P.playing player.old (gained (R.given reader.old) (R.given reader.new)) }
    ensures good { IfOk result (λ good. good
        ≡ is_all_good P.playing player.old (gained (R.given reader.old) (R.given reader.new))) }
    ensures player { OnOk result (player.new
        ≡ after_text P.playing player.old (gained (R.given reader.old) (R.given reader.new))) }
    ensures end { OnOk result (HasEnded (R.has_ended reader.new) (R.remaining reader.new)) }
{
    let mut lines = Lines {
        alloc,
        progress: Progress {
            left: Vec::new(alloc),
            all_good: true,
        },
        text,
    };
    go_through(reader, writer, &mut lines, player)
}
