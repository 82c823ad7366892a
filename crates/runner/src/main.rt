// The program: it prints the report on the two files in the working directory. It ends with status 0 whatever happened,
// so only standard error says what went wrong. files_c is the same program with a status.
#![tactic(auto)]

fn main(rt: HostRuntime) {
    files::sinewhopa_files(&rt);
}
