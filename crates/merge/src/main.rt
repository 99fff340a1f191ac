#![tactic(auto)]

// The program `merge`: reads a number L, L bytes of one sheet and the bytes of a second one, and
// writes the bytes of the merged sheet, or a line on standard error.

fn main(rt: HostRuntime) {
    // Room for one byte more than an input may have.
    let mut input = streams::room::<60001>();
    let Ok(count) = streams::read_all(&mut rt.stdin(), &mut input) else {
        let _ = streams::cannot_read(&mut rt.stderr(), b"merge");
        return;
    };
    let mut out = [0u8; 564];
    let mut note = [0u8; 96];
    let merged = product_merge::merge_input(&input[..count], &mut out, &mut note);
    if streams::write_all(&mut rt.stdout(), &out[..merged.bytes]).is_err() {
        let _ = streams::cannot_write(&mut rt.stderr(), b"merge");
        return;
    }
    let _ = streams::write_all(&mut rt.stderr(), &note[..merged.note]);
}
