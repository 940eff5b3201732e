// The input of programs.
#![tactic(auto)]

ghost use Rattle.std.specs.Prelude.{◌≡◌, ◌≤◌, length, IfOk};

use std::io;
use std::io::Read;

// Reads until the buffer is full or the input ends, and answers how many bytes it put at the
// buffer's start. A read may give fewer than there are before the end.
pub fn read_full<R: Read>(input: &mut R, buf: &mut [u8]) -> io::Result<usize>
    ensures within { IfOk result (λ n. n ≤ length buf.new) }
    ensures kept { length buf.new ≡ length buf.old }
{
    let mut done = 0;
    while done < buf.len() {
        let read = input.read(&mut buf[done..])?;
        if read == 0 {
            break;
        }
        done += read;
    }
    Ok(done)
}
