// The program: the response to slip.bin on card.bin by rules.txt, counted for the editor of editor.bin.
#![tactic(auto)]

mod desk;

// An output that cannot be written is told nowhere: the exit status is 0 whatever happened.
fn main(rt: HostRuntime) {
    let _ = desk::run_on(&rt, b"rules.txt", b"card.bin", b"slip.bin", b"editor.bin");
}
