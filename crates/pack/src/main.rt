#![tactic(auto)]

// The program `pack`: reads decimal numbers as text and writes them in seven-bit groups, or a line
// on standard error.

fn main(rt: HostRuntime) {
    // Room for one byte more than a text may have.
    let mut input = streams::room::<262145>();
    let Ok(count) = streams::read_all(&mut rt.stdin(), &mut input) else {
        let _ = streams::cannot_read(&mut rt.stderr(), b"pack");
        return;
    };
    let mut out = streams::room::<262144>();
    let mut note = [0u8; 96];
    let output = notation_programs::pack_input(&input[..count], &mut out, &mut note);
    if streams::write_all(&mut rt.stdout(), &out[..output.bytes]).is_err() {
        let _ = streams::cannot_write(&mut rt.stderr(), b"pack");
        return;
    }
    let _ = streams::write_all(&mut rt.stderr(), &note[..output.note]);
}
