// The program: a snapshot from standard input, its printed forecast to standard output.
#![tactic(auto)]

// What is read at most: one byte more than the longest snapshot, since so many decide the answer.
const INPUT: usize = snapshot::LONGEST + 1;

// Writes the page of a snapshot's bytes, by way of a buffer in which any page fits. A write that fails is said on standard error.
fn print(rt: &HostRuntime, input: &[u8], out: &mut [u8]) {
    let Ok(end) = page::render(input, out) else {
        return;
    };
    let Some(page) = out.get(..end) else {
        return;
    };
    if rt.write_all(page).is_err() {
        let _ = rt.eprintln("forecast: the page could not be written");
    }
}

fn main(rt: HostRuntime) {
    let mut input = [0u8; INPUT];
    let mut out = [0u8; page::PAGE];
    let n = files::read_full(&mut rt.stdin(), &mut input);
    print(&rt, &input[..n], &mut out);
}
