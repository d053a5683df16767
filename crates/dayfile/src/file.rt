// Code 20's test, for any bytes at all, and what a sound file has.
ghost use Rattle.std.specs.Prelude.{true, false, ◌≡◌, ◌<◌, MatchOption};
ghost use Rattle.rules.specs.DayFile.{commands_in, command_place, record_from};
ghost use Rattle.rules.specs.DayFile.{sound as DayFile·sound};

use super::head::{Head, command_count, head_end};
use endian::reading::record_at;
use rules::Record;

// Whether the bytes are a sound day file; a file that is not gets code 20.
#[tactic(auto, using(crate::proofs::Places::sound_is, crate::proofs::Places::sound_head, crate::proofs::Places::command_place_lem, crate::proofs::Places::length_ends))]
pub fn sound(file: &[u8]) -> bool
    ensures { result ≡ DayFile·sound file.now }
{
    let Some(head) = Head::of(file) else {
        return false;
    };
    let commands = command_count(&head);
    if rules::MAX_COMMANDS < commands {
        return false;
    }
    let end = head_end(&head);
    file.len() == end + rules::COMMAND_WIDTH * commands
}

// A day file that was tested: so what takes one asks for nothing more. For the crates of this repository.
#[derive(Clone, Copy)]
pub struct SoundFile<'a> {
    pub bytes: &'a [u8],

    pub ghost sound: { DayFile·sound bytes.now ≡ true },
}

impl<'a> SoundFile<'a> {
    // As `Head::of`, but each type has a test and a fact of its own.
    pub fn of(bytes: &'a [u8]) -> Option<Self>
        ensures { MatchOption result (DayFile·sound bytes.now ≡ false) (λ file. file.bytes.now ≡ bytes.now) }
    {
        if !sound(bytes) {
            return None;
        }
        Some(SoundFile { bytes })
    }

    #[tactic(auto, using(crate::proofs::Places::sound_whole))]
    fn head(&self) -> Head<'a>
        ensures { result.bytes.now ≡ self.now.bytes.now }
    {
        Head { bytes: self.bytes }
    }
}

// Where the first command's record begins; the k-th after it begins k commands' widths further. For the crates of this repository.
pub fn first_command(file: &SoundFile<'_>) -> usize
    ensures { result ≡ command_place file.now.bytes.now 0 }
{
    head_end(&file.head())
}

// The number of commands, read of the head as their place is. For the crates of this repository.
pub fn commands_in(file: &SoundFile<'_>) -> usize
    ensures { result ≡ commands_in file.now.bytes.now }
{
    command_count(&file.head())
}

// The k-th command's record, counted from 0, of a file whose first command begins at `first`. For the crates of this
// repository: requires one of the file's commands.
#[tactic(auto, using(crate::proofs::Places::sound_layout, crate::proofs::Places::command_within, crate::proofs::Places::command_from_lem))]
pub fn record_of(file: &SoundFile<'_>, first: usize, k: usize) -> Record
    requires { (first ≡ command_place file.now.bytes.now 0) × (k < commands_in file.now.bytes.now) }
    ensures { result ≡ record_from file.now.bytes.now (command_place file.now.bytes.now k) }
{
    record_at(file.bytes, first + rules::COMMAND_WIDTH * k)
}
