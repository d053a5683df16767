// The room that a day file is read into.
ghost use Rattle.std.specs.Prelude.{◌≡◌, length, replicate};
ghost use Rattle.runner.specs.Output.{Enough};
ghost use Rattle.rules.specs.DayFile.{file_most};

// One byte more than the largest sound file, so that a longer one is seen to be broken without being read to its end.
pub const READ_MOST: usize = rules::sizes::FILE_MOST + 1;

// Room enough, whatever is read into it. A call for users.
pub fn room() -> [u8; READ_MOST]
    ensures { (result ≡ replicate (length result) 0) × Enough (length result) }
{
    [0u8; READ_MOST]
}
