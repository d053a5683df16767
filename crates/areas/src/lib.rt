// Words moved and cleared in a lent area. What the words mean as records stands in specs/, and its laws in proofs/.
// For the crates of this repository: a function with a `requires` says in words what its caller has to show.
#![tactic(auto)]

ghost use Rattle.std.specs.Prelude.{◌≡◌, ◌≤◌, length, replicate};
ghost use Rattle.areas.specs.Moves.{closed_up, moved_back, moved_forward};

// `move_back`, `move_forward` and `clear` are the library's copy and fill, each under the name and definition of what it is for.

// Opens a gap of w words: all but the last w words move back by w. Requires w words or more.
pub fn move_back(part: &mut [u32], w: usize)
    requires { w ≤ length part.old }
    ensures { part.new ≡ moved_back w part.old }
{
    let kept = part.len() - w;
    part.copy_within(..kept, w);
}

// All but the first w words move forward by w. Requires w words or more.
pub fn move_forward(part: &mut [u32], w: usize)
    requires { w ≤ length part.old }
    ensures { part.new ≡ moved_forward w part.old }
{
    part.copy_within(w.., 0);
}

// Sets every word to zero.
pub fn clear(part: &mut [u32])
    ensures { part.new ≡ replicate (length part.old) 0 }
{
    part.fill(0);
}

// Takes the first w words out: the others move to the front, and zeros follow. Requires w words or more.
pub fn close_up(part: &mut [u32], w: usize)
    requires { w ≤ length part.old }
    ensures { part.new ≡ closed_up w part.old }
{
    move_forward(part, w);
    let kept = part.len() - w;
    clear(&mut part[kept..]);
}
