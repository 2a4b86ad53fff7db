// The program: a snapshot and a policy from two files, the rewritten snapshot to standard output. A refusal, and whatever else goes wrong,
// is said on standard error, and nothing is written to standard output.
#![tactic(auto)]

ghost use Rattle.std.specs.Prelude.{◌≤◌, length, IfOk, IfSome};

use refusal::Refused;
use revise::RevisionError;
use std::env::{Env, FillError};
use std::io::Read;
use std::{fs, io, str};
use text::Sink;

// What is read of each file at most: one byte more than the longest snapshot and the longest policy, since so many decide the answer.
const SNAPSHOT: usize = snapshot::LONGEST + 1;

const POLICY: usize = 20934;

// No line of a refusal has more bytes.
const LINE: usize = 64;

// No file name is longer.
const NAME: usize = 4096;

// Says a refusal on standard error.
fn say_refused(rt: &HostRuntime, what: &[u8], refused: Refused)
    requires { length what.now ≤ 32 }
{
    let mut line = [0u8; LINE];
    let mut sink = Sink::new(&mut line);
    lines::put_refusal(
        &mut sink,
        what,
        refusal::number(refused.refusal),
        refused.place,
    );
    let _ = rt.stderr().write_all(sink.text());
}

// Reads a file, as much of it as the buffer holds. A last read tells its end from a read that failed.
fn read_file(rt: &HostRuntime, name: &str, buf: &mut [u8]) -> io::Result<usize>
    ensures { IfOk result (λ n. n ≤ length buf.new) }
{
    let mut file = fs::open(rt, name)?;
    let n = files::read_full(&mut file, buf);
    let mut more = [0u8; 1];
    file.read(&mut more)?;
    Ok(n)
}

// Reads the file that an argument names, and answers how many bytes were read; where it cannot be read, it is said why. Files are found by
// names in UTF-8 alone.
fn read_argument(rt: &HostRuntime, i: usize, buf: &mut [u8]) -> Option<usize>
    ensures { IfSome result (λ n. n ≤ length buf.new) }
{
    let mut name = [0u8; NAME];
    let n = match rt.arg(i, &mut name) {
        Ok(n) if 0 < n => n,
        _ => {
            let _ = rt.eprintln("apply_policy: a file name is empty or too long");
            return None;
        }
    };
    let Ok(name) = str::from_utf8(&name[..n]) else {
        let _ = rt.eprintln("apply_policy: a file name is not UTF-8");
        return None;
    };
    match read_file(rt, name, buf) {
        Ok(n) => Some(n),
        Err(e) => {
            files::say_unreadable(rt, name, &e);
            None
        }
    }
}

// Whether there is an argument of this index. The program's name has index 0.
fn has_argument(rt: &HostRuntime, i: usize) -> bool {
    let mut first = [0u8; 1];
    !matches!(rt.arg(i, &mut first), Err(FillError::NotPresent))
}

// Writes the rewritten snapshot, by way of a buffer in which any fits.
fn print(rt: &HostRuntime, snapshot: &[u8], policy: &[u8], out: &mut [u8])
    requires { length snapshot.now ≤ length out.old }
{
    match revise::revise(snapshot, policy, out) {
        Err(RevisionError::Snapshot(refused)) => say_refused(rt, b"refused snapshot ", refused),
        Err(RevisionError::Policy(refused)) => say_refused(rt, b"refused policy ", refused),
        Ok(()) => {
            if rt.write_all(&out[..snapshot.len()]).is_err() {
                let _ = rt.eprintln("apply_policy: the snapshot could not be written");
            }
        }
    }
}

fn main(rt: HostRuntime) {
    if !has_argument(&rt, 2) || has_argument(&rt, 3) {
        let _ = rt.eprintln("apply_policy: two files are needed, SNAPSHOT and POLICY");
        return;
    }
    let mut snapshot = [0u8; SNAPSHOT];
    let mut policy = [0u8; POLICY];
    let mut out = [0u8; SNAPSHOT];
    let Some(n) = read_argument(&rt, 1, &mut snapshot) else {
        return;
    };
    let Some(m) = read_argument(&rt, 2, &mut policy) else {
        return;
    };
    print(&rt, &snapshot[..n], &policy[..m], &mut out);
}
