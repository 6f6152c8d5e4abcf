// The desk program: reads `book.bin` and `sheet.bin` from the folder it is run in, and prints the reply.
#![tactic(auto)]

fn main(rt: HostRuntime) {
    desk_files::run(&rt, b"book.bin", b"sheet.bin");
}
