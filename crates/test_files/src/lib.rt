// What the programs that test read: a named file of the data folder, into an area that the caller lends. What they make of it is held to
// their `stdout`.
#![tactic(auto)]

ghost use Rattle.std.specs.Prelude.{◌≤◌, length};

use std::fs::File;
use std::os::fd::AsRawFd;

// What the file of that name holds, as far as there is room for it; nothing where it cannot be read.
pub fn read_named<'a>(rt: &HostRuntime, name: &str, area: &'a mut [u8]) -> &'a [u8]
    ensures { length result.now ≤ length area.old }
{
    let Ok(file) = File::open(rt, name) else {
        return &[];
    };
    let n = io::read_full(file.as_raw_fd(), area);
    &area[..n]
}
