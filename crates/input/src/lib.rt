// What the programs share: they read an input into a space of their own.
#![tactic(auto)]

ghost use Rattle.std.specs.Prelude.{IfOk};
ghost use Rattle.std.specs.Io.{ReadsAtMost};
ghost use Rattle.input.specs.Known.{Fills};

use std::io;
use std::io::Read;

// Reads until the space is full or the input ends, and answers how many bytes it put at the start of the space.
pub fn read_full<R: Read>(input: &mut R, space: &mut [u8]) -> io::Result<usize>
    ensures bound { ReadsAtMost result space.new }
    ensures bytes { IfOk result (λ n. Fills space.new n (R.remaining input.old) (R.remaining input.new)) }
{
    let mut done = 0;
    // how many bytes a read gives is the input's choice
    while done < space.len() {
        let n = input.read(&mut space[done..])?;
        if n == 0 {
            break;
        }
        done += n;
    }
    Ok(done)
}
