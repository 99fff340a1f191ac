#![tactic(auto)]

// The program `unpack`: reads numbers in seven-bit groups and writes them in decimal, or a line on
// standard error.

fn main(rt: HostRuntime) {
    // Room for one byte more than an input may have.
    let mut input = streams::room::<60001>();
    let Ok(count) = streams::read_all(&mut rt.stdin(), &mut input) else {
        let _ = streams::cannot_read(&mut rt.stderr(), b"unpack");
        return;
    };
    let mut out = streams::room::<240000>();
    let mut note = [0u8; 96];
    let output = notation_programs::unpack_input(&input[..count], &mut out, &mut note);
    if streams::write_all(&mut rt.stdout(), &out[..output.bytes]).is_err() {
        let _ = streams::cannot_write(&mut rt.stderr(), b"unpack");
        return;
    }
    let _ = streams::write_all(&mut rt.stderr(), &note[..output.note]);
}
