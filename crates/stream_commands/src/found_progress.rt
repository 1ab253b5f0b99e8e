// How far a stream is searched, and the lines of what is found.

ghost use Rattle.std.specs.Prelude.{◌≡◌, ◌+◌, ◌^◌, ◌<◌, ◌≤◌, ◌++◌, [], ◌∷◌, decimal, false, OnOk};
ghost use Rattle.frame_search.specs.Parts.{Frame, skipped};
ghost use Rattle.listings.specs.Text.{written, Appends};
ghost use Rattle.stream_commands.specs.Found.{skipped_line, with_parts, standing};

use itoa::Buffer;
use listings::{Listing, RecordNumber, Text};
use octets::Splitter;
use std::alloc::AllocError;
use tc_frame::Checked;

/// How far a stream is searched: the number of frames and skipped runs so far, the octets of a run that
/// may continue, and whether nothing was skipped.
#[derive(Drop)]
pub struct Progress {
    pub(crate) count: RecordNumber,
    pub(crate) skipped: u64,
    pub(crate) all_good: bool,
}

fn push_number(text: &mut Text, number: u64) -> Result<(), AllocError>
    ensures { Appends result text.old text.new (decimal number) }
{
    let mut digits = Buffer::new();
    text.push(digits.format(number).as_bytes())
}

// Appends the line of octets that were skipped.
fn push_line(text: &mut Text, number: u64, octets: u64) -> Result<(), AllocError>
    ensures { Appends result text.old text.new (skipped_line number octets) }
{
    push_number(text, number)?;
    text.push(b" skipped ")?;
    push_number(text, octets)?;
    text.push(b"\n")
}

// Ends the run of skipped octets with its line, if there is one.
pub fn end_skipped(text: &mut Text, progress: &mut Progress) -> Result<(), AllocError>
    requires { progress.old.count + 1 < 2 ^ 64 }
    ensures none { progress.old.skipped ≡ 0 → (progress.new ≡ progress.old)
        × OnOk result (written text.new ≡ written text.old) }
    ensures some { 0 < progress.old.skipped → OnOk result ((progress.new
        ≡ record { count = progress.old.count + 1; skipped = 0; all_good = false })
        × (written text.new ≡ written text.old ++ skipped_line (progress.old.count + 1) progress.old.skipped)) }
{
    if progress.skipped == 0 {
        return Ok(());
    }
    progress.count.step();
    push_line(text, progress.count.get(), progress.skipped)?;
    progress.skipped = 0;
    progress.all_good = false;
    Ok(())
}

// Takes a good frame.
pub fn take_frame<C: Listing<Splitter<Checked>>>(
    octets: &[u8],
    listing: &mut C,
    progress: &mut Progress,
    text: &mut Text,
) -> Result<(), AllocError>
    requires { progress.old.count + 2 < 2 ^ 64 }
    ensures found { OnOk result (standing (written text.new) listing.new progress.new
        ≡ with_parts C.lines (standing (written text.old) listing.old progress.old)
        (skipped progress.old.skipped ++ Frame octets.now ∷ [])) }
    ensures count { OnOk result ((progress.new.skipped ≡ 0)
        × (progress.new.count ≤ progress.old.count + progress.old.skipped + 1)) }
{
    end_skipped(text, progress)?;
    progress.count.step();
    listing.take(text, &progress.count, octets)?;
    Ok(())
}
