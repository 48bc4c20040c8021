// Prints the holes of an XNC file: it comes from standard input, and the lines that document 01 gives go to standard output. The
// argument 2019 has the file read by that revision. Which bytes are printed is proved in crate report; here they are only handed out.
#![tactic(auto)]

use report::TEXT_ROOM;
use rules::{MAX_FILE, Revision, TABLE_ROOM};
use std::io::{Print, Read};

fn print_report(output: &impl Print, file: &[u8], revision: Revision) {
    let mut table = [0i32; TABLE_ROOM];
    let mut text = [0u8; TEXT_ROOM];
    let length = report::holes(file, revision, &mut table, &mut text);
    show::word(output, &text[..length]);
}

// Kept: alike in each program, and short. A function that is handed what to do with the file would be no plainer.
fn read_file(input: &mut impl Read, output: &impl Print, errors: &impl Print, revision: Revision) {
    // One byte more than a file may have, so that a longer one is seen.
    let mut file = [0u8; MAX_FILE + 1];
    if let Ok(got) = show::read_input(input, errors, &mut file) {
        print_report(output, &file[..got], revision);
    }
}

fn main(rt: HostRuntime) {
    let errors = rt.stderr();
    let chosen = show::arguments::chosen_revision(
        &rt,
        &errors,
        b"usage: holes [2019|2021] <FILE\n",
    );
    if let Some(revision) = chosen {
        read_file(&mut rt.stdin(), &rt.stdout(), &errors, revision);
    }
}
