// What the programs do with files: a buffer is filled from one, and it is said why one cannot be read.
#![tactic(auto)]

ghost use Rattle.std.specs.Prelude.{◌≤◌, length, take};
ghost use Rattle.std.specs.Io.KnownBytes.{Consumes};

use std::io;
use std::io::Read;

// Reads until the buffer is full, the input ends or a read fails, and answers how many bytes were read. They stand in the first bytes of
// the buffer, as they came.
pub fn read_full<R: Read>(input: &mut R, buf: &mut [u8]) -> usize
    ensures within { result ≤ length buf.new }
    ensures bytes { Consumes (R.remaining input.old) (R.remaining input.new) (take result buf.new) }
{
    let mut done = 0;
    while done < buf.len() {
        match input.read(&mut buf[done..]) {
            Ok(n) if 0 < n => done += n,
            _ => break,
        }
    }
    done
}

// Says on standard error why a file cannot be read: its name and the system's words, without the number of the error.
pub fn say_unreadable(rt: &HostRuntime, name: &str, error: &io::Error) {
    let Ok(said) = format!(in rt.alloc(); "{error}") else {
        let _ = eprintln!(rt; "{name}: {error}");
        return;
    };
    match said.as_str().split_once(" (os error ") {
        Some((words, _)) => {
            let _ = eprintln!(rt; "{name}: {words}");
        }
        None => {
            let _ = eprintln!(rt; "{name}: {said}");
        }
    }
}
